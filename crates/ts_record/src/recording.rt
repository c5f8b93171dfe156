//! A recording as a value, its versions, its limits, and why a text is not read as one.
use std::marker::Model;
use thiserror::Error;
use ts_link::{Octets, Piece};

/// The version of a recording whose sides send pieces, and do nothing else.
pub const FIRST_VERSION: u8 = 1;

/// The version of a recording whose sides may also stall, and whose clients may leave.
pub const SECOND_VERSION: u8 = 2;

/// The base of the numbers of a recording.
pub const BASE: usize = 10;

/// The most bytes of a piece.
pub const MOST_PIECE: usize = 32_768;

/// The most reads that wait at one stall.
pub const MOST_STALL: u32 = 1_000;

/// The most reads that wait at all stalls of a recording together.
pub const MOST_STALLED: u32 = 100_000;

/// The most bytes that a client takes which leaves.
pub const MOST_TAKEN: u64 = 67_108_864;

/// The most transactions of a recording.
pub const MOST_TXNS: usize = 4_000;

/// What the two sides of a transaction do before their ends, piece by piece and stall by stall, and how many
/// bytes the client takes, if it leaves; a piece has at least one byte.
#[derive(Drop)]
pub struct RecordedTxn {
    pub client: Vec<Piece>,
    pub origin: Vec<Piece>,
    pub leave: Option<u64>,
}

impl Model for RecordedTxn {
    ghost use Rattle.ts_record.specs.Grammar.{TxnPieces};

    ghost Value = { TxnPieces };

    ghost view = { λ t. record { client = t.client.items; origin = t.origin.items; leave = t.leave } };
}

/// Transactions in order, and the version of the text that they stand in.
#[derive(Drop)]
pub struct Recording {
    /// `FIRST_VERSION` or `SECOND_VERSION`.
    pub version: u8,
    pub txns: Vec<RecordedTxn>,
}

impl Model for Recording {
    ghost use Rattle.ts_record.specs.Grammar.{Contents};

    ghost Value = { Contents };

    ghost view = { λ r. record { version = r.version; txns = r.txns.items } };
}

/// Why bytes were not read as a recording.
#[derive(Debug, Drop, Error)]
pub enum RecordingRefusal {
    /// They are none; the longest of their fronts that some recording begins with has this length in bytes.
    #[error("Fault")]
    Fault { offset: u64 },
    #[error("NoMemory")]
    NoMemory,
}
