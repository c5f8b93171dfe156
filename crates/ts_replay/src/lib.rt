//! The room in which a recording is run: each of its transactions is a mutex group that event threads run and
//! that is then driven to its end, and comes to a block, of which a report is made. The body of its request
//! goes through the request lines to its origin, or to the line that answers in its place, and the report
//! shows it as it stands there. Where there is a tap, the report shows what it counted of each body.
//!
//! # The way of a replay
//!
//! `tsx replay --threads N CONFIG RECORDING`:
//!
//! ```text
//! CONFIG, its files, RECORDING ── read ──► lines, transactions
//!                                              │ make_row: each transaction is a world between two recorded links with their
//!                                              │           layers, of which one keeps what is taken in the origin's place, in a
//!                                              │           group of its own, with a tag: number, setup, the links as they were made
//!                                              ▼
//!  slots     ┌────────────────┬────────────────┬────────────────┬─ .. ─┐
//!            │ word │ group 0 │ word │ group 1 │ word │ group 2 │      │      a word and a place for each group
//!            └────────────────┴────────────────┴────────────────┴─ .. ─┘
//!                   ▲ try_enter / leave: one atomic step each, nobody waits
//!       ┌───────────┴───────┬───────────────────────┐
//!  ┌─────────┐         ┌─────────┐             ┌─────────┐
//!  │ seat    │         │ seat    │             │ seat    │    each thread has a seat at the slots, a pass of the queue
//!  │ pass    │         │ pass    │     ..      │ pass    │    and a wheel of its own, and shares nothing else
//!  │ wheel   │         │ wheel   │             │ wheel   │
//!  └─────────┘         └─────────┘             └─────────┘
//!   thread 0            thread 1                thread N - 1
//!       └───────────┬───────┴───────────────────────┘
//!                   ▼ put / take
//!  queue      ──► [ ticket ][ ticket ][ ticket ]  .. ──►      one queue, for all of them
//!                                              │
//!                                              │ all threads have ended: seats and passes are joined, the slots are closed, and
//!                                              │ `finish` handles what is still pending, group by group, on one thread
//!                                              ▼
//!                  of each group in order: the layers are taken off, and what the client took and
//!                  what was taken in the origin's place is read: its block, and what stands at its
//!                  origin; and its journal ──► out: the report
//! ```
//!
//! `tsx generate SEED COUNT SIZE` goes the same way on four threads, from the transactions on: they are made
//! of the three numbers (`ts_record::generate`), the lines are always the same, no file is read, and of the
//! blocks a summary is made in place of the report.
//!
//! The first turn of each group starts its transaction, before any thread runs; its first token is put into
//! the queue then.
#![tactic(auto)]

mod at_origin;
mod block;
mod fault;
mod framed;
mod groups;
mod outcomes;
mod replaying;
mod running;

pub use fault::ReplayFault;
pub use outcomes::Replayed;
pub use replaying::{one_report, replay};
