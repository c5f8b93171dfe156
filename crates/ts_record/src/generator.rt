//! A recording that is made from a seed: requests for one page, and responses of letters in every framing.
ghost use Rattle.std.specs.Prelude.{◌≡◌, ◌≤◌, ◌++◌, ◌∷◌, [], length, take, drop, IfOk, OnOk};
ghost use Rattle.ts_record.specs.Generator.{after, chunks_by, framed, framing_by, generated, length_at};
ghost use Rattle.ts_record.specs.Generator.{letters};
ghost use Rattle.ts_record.specs.Generator.{next, origin_at, pieces, request, response, txn_after, txn_at};
ghost use Rattle.ts_link.specs.declared.piece.Piece.TheVariants.{Bytes};
ghost use Rattle.ts_record.specs.Grammar.{KeepsLimits, contents};
ghost use Rattle.ts_wire.specs.Frames.{IsPiece, chunk_text, last_chunk};

use crate::draws::Draws;
use crate::recording::{FIRST_VERSION, MOST_TXNS, RecordedTxn, Recording};
use itoa::Buffer;
use std::alloc::Global;
use ts_iobuf::Waiting;
use ts_link::{NoMemory, Octets, Piece};
use ts_wire::{Mode, frame_end, frame_piece};

// How many letters there are.
const LETTERS: u64 = 26;

// In how many ways a body is framed.
const FRAMINGS: u64 = 3;

// How many bytes of a body a chunk has, but for the last one.
const CHUNK: usize = 1_000;

// The most bytes of a response that are sent at once.
const MOST_SENT: u64 = 1_460;

// How the body of a response is framed: by its length, in chunks, or to the close of the connection. (RFC
// 9112, section 6.3.)
#[derive(Clone, Copy)]
enum DrawnFraming {
    Length,
    Chunks,
    Close,
}

// The length of a body of at most so many bytes.
fn draw_length(draws: &mut Draws, size: u32) -> usize
    ensures length { result ≡ length_at size draws.old.state }
    ensures state { draws.new.state ≡ next draws.old.state }
{
    draws.below(u64::from(size) + 1) as usize
}

// How a body is framed.
fn draw_framing(draws: &mut Draws) -> DrawnFraming
    ensures framing { result ≡ framing_by draws.new.state }
    ensures state { draws.new.state ≡ next draws.old.state }
{
    match draws.below(FRAMINGS) {
        0 => DrawnFraming::Length,
        1 => DrawnFraming::Chunks,
        _ => DrawnFraming::Close,
    }
}

// A body of so many letters.
fn draw_body(alloc: Global, draws: &mut Draws, count: usize) -> Result<Vec<u8>, NoMemory>
    ensures letters { IfOk result (λ body. body.items ≡ letters count draws.old.state) }
    ensures state { OnOk result (draws.new.state ≡ after count draws.old.state) }
{
    let mut body = Vec::with_capacity(alloc, count)?;
    'letters: for _ in 0..count {
        body.push(b'a' + draws.below(LETTERS) as u8)?;
    }
    Ok(body)
}

// Writes a chunk behind what waits.
fn write_chunk(out: &mut Waiting, chunk: &[u8]) -> Result<(), NoMemory>
    requires { IsPiece chunk.now }
    ensures { OnOk result (out.new ≡ out.old ++ chunk_text chunk.now) }
{
    frame_piece(Mode::Chunked, chunk, &mut out.buffer)
}

// Writes the end of a body in chunks behind what waits.
fn write_last_chunk(out: &mut Waiting) -> Result<(), NoMemory>
    ensures { OnOk result (out.new ≡ out.old ++ last_chunk) }
{
    frame_end(Mode::Chunked, &mut out.buffer)
}

// Writes a body in chunks behind what waits.
fn write_chunks(out: &mut Waiting, body: &[u8]) -> Result<(), NoMemory>
    ensures { OnOk result (out.new ≡ out.old ++ chunks_by (length body.now) body.now) }
{
    let mut rest = body;
    'chunks: while !rest.is_empty() {
        let (chunk, behind) = rest.split_at(CHUNK.min(rest.len()));
        write_chunk(out, chunk)?;
        rest = behind;
    }
    write_last_chunk(out)
}

// Writes the field of a length, and a body of that length.
fn write_sized(out: &mut Waiting, body: &[u8]) -> Result<(), NoMemory>
    ensures { OnOk result (out.new ≡ out.old ++ framed DrawnFraming.Length body.now) }
{
    let mut number = Buffer::new();
    out.write(b"Content-Length: ")?;
    out.write(number.format(body.len()).as_bytes())?;
    out.write(b"\r\n\r\n")?;
    out.write(body)
}

// Writes what stands behind the first line of a response, by how its body is framed.
fn write_framed(out: &mut Waiting, framing: DrawnFraming, body: &[u8]) -> Result<(), NoMemory>
    ensures { OnOk result (out.new ≡ out.old ++ framed framing body.now) }
{
    match framing {
        DrawnFraming::Length => write_sized(out, body),
        DrawnFraming::Chunks => {
            out.write(b"Transfer-Encoding: chunked\r\n\r\n")?;
            write_chunks(out, body)
        }
        DrawnFraming::Close => {
            out.write(b"\r\n")?;
            out.write(body)
        }
    }
}

// A response.
fn respond(alloc: Global, framing: DrawnFraming, body: &[u8]) -> Result<Waiting, NoMemory>
    ensures { IfOk result (λ bytes. bytes ≡ response framing body.now) }
{
    let mut out = Waiting::new(alloc)?;
    out.write(b"HTTP/1.1 200 OK\r\n")?;
    write_framed(&mut out, framing, body)?;
    Ok(out)
}

// Takes a piece of at most so many bytes away from the front.
fn take_piece(alloc: Global, bytes: &mut Waiting, most: usize) -> Result<Octets, NoMemory>
    ensures piece { IfOk result (λ piece. piece ≡ take most bytes.old) }
    ensures left { OnOk result (bytes.new ≡ drop most bytes.old) }
{
    let length = most.min(bytes.len());
    let mut piece = Vec::with_capacity(alloc, length)?;
    bytes.gather(length, &mut piece)?;
    bytes.take(length);
    Ok(Octets::of_vec(piece))
}

// Bytes in pieces.
fn cut(alloc: Global, draws: &mut Draws, mut bytes: Waiting) -> Result<Vec<Piece>, NoMemory>
    ensures pieces { IfOk result (λ ps. ps.items ≡ pieces draws.old.state bytes) }
    ensures state { OnOk result
        (draws.new.state ≡ after (length (pieces draws.old.state bytes)) draws.old.state) }
{
    let mut pieces = Vec::new(alloc);
    'pieces: while !bytes.is_empty() {
        let most = 1 + draws.below(MOST_SENT) as usize;
        let piece = take_piece(alloc, &mut bytes, most)?;
        pieces.push(Piece::Bytes(piece))?;
    }
    Ok(pieces)
}

// The pieces of the response of one transaction.
fn draw_origin(alloc: Global, draws: &mut Draws, size: u32) -> Result<Vec<Piece>, NoMemory>
    ensures pieces { IfOk result (λ ps. ps.items ≡ origin_at size draws.old.state) }
    ensures state { OnOk result (draws.new.state ≡ txn_after size draws.old.state) }
{
    let length = draw_length(draws, size);
    let framing = draw_framing(draws);
    let body = draw_body(alloc, draws, length)?;
    let bytes = respond(alloc, framing, body.as_slice())?;
    cut(alloc, draws, bytes)
}

// The pieces of a request.
fn request(alloc: Global) -> Result<Vec<Piece>, NoMemory>
    ensures { IfOk result (λ ps. ps.items ≡ Bytes request ∷ []) }
{
    let mut client = Vec::with_capacity(alloc, 1)?;
    let bytes = Octets::copy_of(alloc, b"GET / HTTP/1.1\r\nHost: a\r\n\r\n")?;
    client.push(Piece::Bytes(bytes))?;
    Ok(client)
}

// One transaction.
fn draw_txn(alloc: Global, draws: &mut Draws, size: u32) -> Result<RecordedTxn, NoMemory>
    ensures txn { IfOk result (λ txn. txn ≡ txn_at size draws.old.state) }
    ensures state { OnOk result (draws.new.state ≡ txn_after size draws.old.state) }
{
    let client = request(alloc)?;
    let origin = draw_origin(alloc, draws, size)?;
    Ok(RecordedTxn {
        client,
        origin,
        leave: None,
    })
}

/// So many transactions, whose bodies have at most `size` bytes, in version 1; they depend on the three
/// numbers alone. A body is made before its response, and a response before its pieces, so that the recording
/// and two copies of one body are held at most.
pub fn generate(alloc: Global, seed: u64, count: u32, size: u32) -> Result<Recording, NoMemory>
    requires count { count ≤ MOST_TXNS }
    ensures generated { IfOk result (λ r. r ≡ contents FIRST_VERSION (generated count size seed)) }
    // It is a recording: it keeps the limits of the grammar.
    ensures limits { IfOk result KeepsLimits }
{
    let mut draws = Draws { state: seed };
    let mut txns = Vec::with_capacity(alloc, count as usize)?;
    'txns: for _ in 0..count {
        txns.push(draw_txn(alloc, &mut draws, size)?)?;
    }
    Ok(Recording {
        version: FIRST_VERSION,
        txns,
    })
}
