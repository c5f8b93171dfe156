//! Recordings: what both sides of each transaction send and where they stall or leave, as a text that is read
//! and printed; and the blocks of the report on them.
//!
//! # The way of a recording
//!
//! `read_recording` strips the first line, which names the version; each transaction is a line `txn`, what
//! the client does, what the origin does (pieces, and in version 2 stalls), in version 2 a line on a client
//! that leaves, and a line `close`; behind the last stands `end`. It carries two numbers along: the version,
//! and the room, which is how many reads may still wait at the stalls that are to come (none in version 1).
//! Which keywords can come depends on both, and so does the greatest number that can stand behind a stall's
//! keyword. Where no keyword that can come stands at the front, the refusal lies behind the most bytes that
//! one of them has in common with it; within a piece or a number it lies behind the digits that can begin it,
//! or where the line feed or the piece's bytes stop. Each part answers how many bytes are left there, and one
//! subtraction at the end makes the offset of it.
#![tactic(auto)]

mod draws;
mod generator;
mod items;
mod keyword;
mod laws;
mod link;
mod piece;
mod print;
mod read;
mod recording;
mod report;
mod sum;

pub use generator::generate;
pub use laws::limits;
pub use link::RecordedLink;
pub use print::print_recording;
pub use read::read_recording;
pub use recording::{
    FIRST_VERSION, MOST_PIECE, MOST_STALL, MOST_STALLED, MOST_TAKEN, MOST_TXNS, RecordedTxn,
    Recording, RecordingRefusal, SECOND_VERSION,
};
pub use report::{REPORT_END, ReportBlock, TapLine, add_block, begin_report, report_block};
pub use sum::{sum_of, sum_with};
