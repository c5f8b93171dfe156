//! The texts that clients and origins get, as they are stated: heads, pieces of bodies, and the proxy's own
//! answers.

use crate::refusal::Refusal;
use std::alloc::Global;
use ts_wire::Mode;

/// A request for a page.
pub const GET: &[u8] = b"GET / HTTP/1.1\r\nHost: a\r\n\r\n";

/// What the origin gets of it.
pub const GET_SENT: &[u8] =
    b"GET / HTTP/1.1\r\nhost: a\r\nvia: 1.1 tsx\r\nconnection: close\r\n\r\n";

/// A request for the head alone.
pub const HEAD: &[u8] = b"HEAD / HTTP/1.1\r\nHost: a\r\n\r\n";

/// What the origin gets of it.
pub const HEAD_SENT: &[u8] =
    b"HEAD / HTTP/1.1\r\nhost: a\r\nvia: 1.1 tsx\r\nconnection: close\r\n\r\n";

/// A response of three bytes.
pub const ABC: &[u8] = b"HTTP/1.1 200 OK\r\nContent-Length: 3\r\n\r\nabc";

/// How many bytes of it are its head.
pub const ABC_FRONT: u32 = 38;

/// The head of a response in chunks.
pub const IN_CHUNKS: &[u8] = b"HTTP/1.1 200 OK\r\nTransfer-Encoding: chunked\r\n\r\n";

/// The head of a response up to the close.
pub const ENDLESS: &[u8] = b"HTTP/1.1 200 OK\r\n\r\n";

/// A response of three bytes up to the close in HTTP/1.0.
pub const ENDLESS_OLD: &[u8] = b"HTTP/1.0 200 OK\r\n\r\nabc";

/// The client's head of a response in HTTP/1.0, whose body goes in chunks.
pub const FROM_OLD: &[u8] =
    b"HTTP/1.1 200 OK\r\nvia: 1.0 tsx\r\ntransfer-encoding: chunked\r\nconnection: close\r\n\r\n";

/// The same, whose body goes up to the close.
pub const PLAIN_OLD: &[u8] = b"HTTP/1.1 200 OK\r\nvia: 1.0 tsx\r\nconnection: close\r\n\r\n";

/// The client's head of a body in chunks.
pub const CHUNKED: &[u8] =
    b"HTTP/1.1 200 OK\r\nvia: 1.1 tsx\r\ntransfer-encoding: chunked\r\nconnection: close\r\n\r\n";

/// The client's head of a body of three bytes.
pub const SIZED: &[u8] =
    b"HTTP/1.1 200 OK\r\nvia: 1.1 tsx\r\ncontent-length: 3\r\nconnection: close\r\n\r\n";

/// The client's head of a body up to the close, and of none.
pub const PLAIN: &[u8] = b"HTTP/1.1 200 OK\r\nvia: 1.1 tsx\r\nconnection: close\r\n\r\n";

/// The head of the answer to a request that cannot be read.
pub const BAD_REQUEST: &[u8] =
    b"HTTP/1.1 400 Bad Request\r\ncontent-type: text/plain\r\ncontent-length: 16\r\n\
connection: close\r\n\r\n";

/// The head of the answer to a request for a host that is denied.
pub const FORBIDDEN: &[u8] =
    b"HTTP/1.1 403 Forbidden\r\ncontent-type: text/plain\r\ncontent-length: 14\r\nconnection: close\r\n\r\n";

/// The head of the answer to a request with a body.
pub const NOT_IMPLEMENTED: &[u8] =
    b"HTTP/1.1 501 Not Implemented\r\ncontent-type: text/plain\r\ncontent-length: 20\r\n\
connection: close\r\n\r\n";

/// The head of the answer where the origin gives none to pass on.
pub const BAD_GATEWAY: &[u8] =
    b"HTTP/1.1 502 Bad Gateway\r\ncontent-type: text/plain\r\ncontent-length: 16\r\n\
connection: close\r\n\r\n";

/// A response of this head and this body.
pub fn response(alloc: Global, head: &[u8], body: &[u8]) -> Result<Vec<u8>, Refusal> {
    let mut text = Vec::from_slice(alloc, head)?;
    text.extend_from_slice(body)?;
    Ok(text)
}

// How many bytes a piece of a body has at most.
const MOST_IN_PIECE: usize = 32_768;

// Writes a piece of a body: in chunks as its size in hexadecimal and the bytes, each with the end of a line.
fn write_piece(alloc: Global, text: &mut Vec<u8>, mode: Mode, piece: &[u8]) -> Result<(), Refusal> {
    match mode {
        Mode::Plain => text.extend_from_slice(piece)?,
        Mode::Chunked => {
            let size = format!(in alloc; "{:x}\r\n", piece.len())?;
            text.extend_from_slice(size.as_bytes())?;
            text.extend_from_slice(piece)?;
            text.extend_from_slice(b"\r\n")?;
        }
    }
    Ok(())
}

// Writes the end of a body: in chunks that of no bytes.
fn write_end(text: &mut Vec<u8>, mode: Mode) -> Result<(), Refusal> {
    match mode {
        Mode::Plain => {}
        Mode::Chunked => text.extend_from_slice(b"0\r\n\r\n")?,
    }
    Ok(())
}

/// What a client gets: the head, the pieces of a body of these lengths, and where they are the whole body and
/// it has ended, its end. Nothing where a piece is empty, is too long, or goes past the body.
pub fn text_of(
    alloc: Global,
    head: &[u8],
    mode: Mode,
    body: &[u8],
    cuts: &[u32],
    ended: bool,
) -> Result<Option<Vec<u8>>, Refusal> {
    let mut text = Vec::from_slice(alloc, head)?;
    let mut rest = body;
    for cut in cuts {
        let cut = *cut as usize;
        if cut == 0 || cut > MOST_IN_PIECE || cut > rest.len() {
            return Ok(None);
        }
        let (piece, behind) = rest.split_at(cut);
        write_piece(alloc, &mut text, mode, piece)?;
        rest = behind;
    }
    if ended && rest.is_empty() {
        write_end(&mut text, mode)?;
    }
    Ok(Some(text))
}
