//! VConnections: what is to be moved through one end of a connection, and the moves themselves, between a
//! link and a buffer. (The Developer's Guide: the chapters "VConnections" and "IO Buffers".)
//!
//! # The way of a byte between two links
//!
//! `pull` lends the buffer's own room to one read of the link and adds what came; `push` lends the buffer's
//! first block to one write and consumes what was taken. So each byte is copied once into the buffer by the
//! link itself and once out of it, and no memory is taken but the buffer's.
//!
//! A buffer is a list of blocks that are full, which other buffers may share, and one block in filling behind
//! them:
//!
//! ```text
//! dropped │ front cut off │ block, shared │ block │ .. │ filled ┊ free bytes: the room that is lent │
//!         ▲ reader                     ▲ reader          ▲ produce, write
//! ```
//!
//! ```text
//! link ── read ──► room of the buffer ─ produce ─► bytes, one place for each reader ─ block ─► write ──► link
//! counts: reads, waits, faults                                                        counts: writes, waits, faults
//! ```
#![tactic(auto)]

mod moves;
mod vconn;
mod vio;

pub use moves::{MOST_PULLED, Pulled, Pushed, pull, pull_waiting, push, push_waiting};
pub use vconn::VConn;
pub use vio::Vio;
