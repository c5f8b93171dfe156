//! Clients that come to a net, each with its origin, and what is stated of what comes of them.

use crate::links::{Side, at_once};
use crate::stated::{ABC, ABC_TAKEN, BAD_GATEWAY, GET, GET_SENT};
use ts_hooks::TxnEnd;

/// A client and its origin, if that is reached; and what is stated of both: what the origin gets, what the
/// client gets, the data of the chunks behind that, if it is sent in chunks, and how its transaction ends.
#[derive(Clone, Copy)]
pub struct Visit<'a> {
    pub client: Side<'a>,
    pub origin: Option<Side<'a>>,
    pub sent: &'a [u8],
    pub taken: &'a [u8],
    pub chunks: Option<&'a [u8]>,
    pub end: TxnEnd,
}

/// A client that gets a page of three letters.
pub fn page<'a>() -> Visit<'a> {
    Visit {
        client: at_once(GET),
        origin: Some(at_once(ABC)),
        sent: GET_SENT,
        taken: ABC_TAKEN,
        chunks: None,
        end: TxnEnd::Whole,
    }
}

/// The same client where its origin is not reached.
pub fn unreached(visit: Visit<'_>) -> Visit<'_> {
    Visit {
        origin: None,
        sent: b"",
        taken: BAD_GATEWAY,
        ..visit
    }
}
