//! Recordings as texts, in which each side of a transaction gives its bytes in pieces.

use crate::parts::add_part;
use std::alloc::Global;
use ts_link::NoMemory;

/// The most bytes of a piece of a recording.
pub const MOST_PIECE: usize = 32_768;

/// A recorded transaction: what the client sends and what the origin gives, in pieces of at most so many
/// bytes. A side that is empty has no piece.
#[derive(Clone, Copy)]
pub struct Exchange<'a> {
    pub client: &'a [u8],
    pub origin: &'a [u8],
    pub piece: usize,
}

/// An exchange in which each side gives all at once, if a piece can hold it.
pub fn at_once<'a>(client: &'a [u8], origin: &'a [u8]) -> Exchange<'a> {
    Exchange {
        client,
        origin,
        piece: MOST_PIECE,
    }
}

/// The same exchange in pieces of at most so many bytes.
pub fn in_pieces(exchange: Exchange<'_>, piece: usize) -> Exchange<'_> {
    Exchange { piece, ..exchange }
}

// Adds the pieces of a side.
fn add_side(text: &mut Vec<u8>, side: &[u8], bytes: &[u8], piece: usize) -> Result<(), NoMemory> {
    for part in bytes.chunks(piece.max(1)) {
        add_part(text, side, part)?;
    }
    Ok(())
}

// Adds a transaction to the text of a recording.
fn add_txn(text: &mut Vec<u8>, exchange: &Exchange<'_>) -> Result<(), NoMemory> {
    text.extend_from_slice(b"txn\n")?;
    add_side(text, b"client ", exchange.client, exchange.piece)?;
    add_side(text, b"origin ", exchange.origin, exchange.piece)?;
    text.extend_from_slice(b"close\n")?;
    Ok(())
}

/// A recording of these transactions.
pub fn recording_of(alloc: Global, exchanges: &[Exchange<'_>]) -> Result<Vec<u8>, NoMemory> {
    let mut text = Vec::from_slice(alloc, b"tsx-recording 1\n")?;
    for exchange in exchanges {
        add_txn(&mut text, exchange)?;
    }
    text.extend_from_slice(b"end\n")?;
    Ok(text)
}
