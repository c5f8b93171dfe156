//! Mutex slots: a table with a place for the value of each mutex group. A seat enters a group by one atomic
//! step or is told that it missed, as TSMutexLockTry of Traffic Server's Developer's Guide, and nobody ever
//! waits.
//!
//! # The way of a turn in a slot
//!
//! `ts_slot` stands on `ts_journal` (for `Slotted`) and the kit's `atomic_table`, which has the proofs of the
//! atomic steps. Above it are the rule of the table (`specs/Rule.antt`), what each kind of step tells
//! (`specs/Steps.antt`), the facts that each step keeps the rule (`proofs/`), and the calls, whose answers
//! cite them.
//!
//! ```text
//! word of group k:  2n (free) ── try_enter: fetch_or 1 ──► 2n + 1 (held) ── leave: fetch_add 1 ──► 2n + 2 (free)
//!                   box at home        the holder takes the box out, changes the value in it      box at home
//!                                      and puts the same box home
//!                   others: they enter               others: Missed { seen: 2n + 1 }
//! ```
#![tactic(auto)]

mod lends;
mod rule;
mod seat;
mod slots;
mod view;

pub use seat::{Left, Missed, Seat, Turn};
pub use slots::{NotClosed, Slots};
pub use ts_journal::{NoMemory, Slotted};
pub use view::SeatView;
