//! The outside of the program as traits with counts: links that bytes are read from and written to, files
//! that are read, sinks that are written to, clocks and gates; and a form of each in memory.
#![tactic(auto)]

mod clock;
mod copying;
mod cut_input;
mod gate;
mod input;
mod link;
mod mem_link;
mod mem_shelf;
mod mem_sink;
mod numbered;
mod octets;
mod piece;
mod piece_input;
mod shelf;
mod sink;

pub use clock::{Clock, RETRY_AFTER, StepClock};
pub use gate::{Gate, MeetGate, OpenGate};
pub use link::{Got, Link, Put, Sourced};
pub use mem_link::MemLink;
pub use mem_shelf::MemShelf;
pub use mem_sink::MemSink;
pub use numbered::is_listed;
pub use octets::{NoMemory, Octets};
pub use piece::Piece;
pub use shelf::{Shelf, ShelfFault};
pub use sink::{Sink, Wrote};
