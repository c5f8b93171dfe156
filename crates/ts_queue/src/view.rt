//! What a pass of the queue knows.

use crate::ticket::Ticket;
use std::collections::LinkedList;

/// What a pass knows, as clauses see it. No value of it is made.
pub struct PassView {
    /// How many parts of the queue's share the pass has. One with none was joined to another.
    pub share: u64,
    /// The number of the pass, which no other pass of the queue has or had.
    pub number: u64,
    /// The serial of its last put that was answered with `Ok`, 0 at first.
    pub serial: u64,
    /// Its number and those of the passes that were joined to it.
    pub names: LinkedList<u64>,
    /// The numbers from `free_from` up to `free_to` are free. A pass that is split off gets the first of
    /// them.
    pub free_from: u64,
    pub free_to: u64,
    /// What it put, the last first, and what the passes put that were joined to it.
    pub put: LinkedList<Ticket>,
    /// What it took, the last first, and what the passes took that were joined to it.
    pub taken: LinkedList<Ticket>,
}
