//! Rows: a request, what the origin gives, and what is stated of both ends.

use crate::stated::{CHUNKED, GET, GET_SENT, HEAD, HEAD_SENT};
use ts_hooks::TxnEnd;
use ts_wire::Mode;

/// An exchange through the lines of a configuration, and what is stated of it. Where it does not end whole,
/// the client gets a front of the body.
#[derive(Clone, Copy)]
pub struct Row<'a> {
    pub lines: &'a [u8],
    /// The text of each file that the lines name.
    pub file: &'a [u8],
    pub request: &'a [u8],
    /// What the origin gives, if there is one.
    pub origin: Option<&'a [u8]>,
    /// What the origin gets.
    pub sent: &'a [u8],
    pub head: &'a [u8],
    pub mode: Mode,
    pub body: &'a [u8],
    /// How many bytes of the body the client gets at least, where it does not end whole.
    pub least: usize,
    pub end: TxnEnd,
}

/// What came of a row: as it is stated, or the first that is other.
#[derive(Clone, Copy, Debug, PartialEq, Eq)]
pub enum Finding {
    AsStated,
    OtherEnd,
    OtherRequest,
    OtherHead,
    OtherPieces,
    OtherText,
    OtherNumber,
    OtherWaits,
    OtherMoment,
    /// The block of all bytes is other.
    OtherBlock,
    /// It ended for want of memory, with a front of what is stated.
    Lacks,
}

/// A response to GET that is passed on whole, with nothing configured.
pub fn get<'a>(origin: &'a [u8], head: &'a [u8], mode: Mode, body: &'a [u8]) -> Row<'a> {
    Row {
        lines: b"",
        file: b"",
        request: GET,
        origin: Some(origin),
        sent: GET_SENT,
        head,
        mode,
        body,
        least: 0,
        end: TxnEnd::Whole,
    }
}

/// A response to GET through these lines, whose body goes in chunks.
pub fn chunked<'a>(lines: &'a [u8], origin: &'a [u8], body: &'a [u8]) -> Row<'a> {
    Row {
        lines,
        ..get(origin, CHUNKED, Mode::Chunked, body)
    }
}

/// A response to HEAD, with nothing configured.
pub fn head<'a>(origin: &'a [u8], head: &'a [u8]) -> Row<'a> {
    Row {
        request: HEAD,
        sent: HEAD_SENT,
        ..get(origin, head, Mode::Plain, b"")
    }
}

/// A client that is answered without an origin's response: the origin gives nothing.
pub fn own<'a>(request: &'a [u8], sent: &'a [u8], head: &'a [u8], body: &'a [u8]) -> Row<'a> {
    Row {
        request,
        sent,
        ..get(b"", head, Mode::Plain, body)
    }
}
