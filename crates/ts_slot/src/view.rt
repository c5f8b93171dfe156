//! What a seat knows of the slots. Contracts alone see it.

use std::collections::LinkedList;

/// What a seat knows. No value of it is made. Contracts see the arrays as lists of any length; a list of a
/// type parameter is a `LinkedList`, since such an array has no known size.
pub struct SeatView<G, T> {
    /// The tags of all groups.
    pub tags: LinkedList<G>,
    /// How many of the 2^32 parts of the right to close the slots the seat has. With none it is spent.
    pub share: u64,
    /// The seat's number, or none where it is spent.
    pub names: [u64; 0],
    /// The numbers from `free_from` up to `free_to` are free for seats that are split off.
    pub free_from: u64,
    pub free_to: u64,
    /// The groups that are held, the last won first, each with the turn and the trace that was found.
    pub held: LinkedList<(u64, u64, T)>,
    /// Each turn that the seat got, the last first: the group and the turn.
    pub turns: [(u64, u64); 0],
    /// Each miss of the seat, the last first: the group and the word that was seen.
    pub misses: [(u64, u64); 0],
    /// Each finished turn that the seat knows of: the group, the turn, and the trace that stood after it.
    pub known: LinkedList<(u64, u64, T)>,
}
