//! The event machine of a mutex group: a journal is the list of what happened to the continuations of one
//! mutex, and the state that this list leads to. Traffic Server's Developer's Guide describes the parts:
//! continuations, mutexes and locks, actions and events.
#![tactic(auto)]

mod entry;
mod journal;
mod laws;
mod room;
mod slotted;
mod tables;

pub use entry::{
    ContKey, Counts, Entry, Event, GREATEST, Latest, MOST_KEYS, Mark, NoMemory, Pending,
};
pub use journal::Journal;
pub use laws::{
    closed_for_good, closed_once, counts_balance, handled_live, later_is_order, never_again,
    never_back, numbers_rise, run_is_lawful, stand_in_turns, step_is_allowed,
};
pub use room::reserve_moved;
pub use slotted::Slotted;
