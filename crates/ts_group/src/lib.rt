//! The continuations of one mutex: their journal, the calls of a handler, and the group that calls the
//! handlers. The Developer's Guide of Traffic Server describes the parts in its chapters on continuations,
//! mutexes and actions.
//!
//! # The way of an event
//!
//! A group is a mutex with its continuations. Its journal is a list of entries, to which each act adds one,
//! and the state is what the entries lead to. Where 4,096 entries or more are stored when a turn is given
//! back, they are folded: the state moves into the journal's base, and nothing of it is lost. So a journal
//! takes bounded memory however long its group runs. A group that has ended keeps its entries, with room for
//! five more and an eighth of them, and gives back what its journal kept for further events and keys.
//!
//! ```text
//!   cx.schedule(key, 10)      begin_turn(turn, seat, moment)       handle(number, moment)           give_turn()
//!            │                            │                                 │                            │
//!            ▼                            ▼                                 ▼                            ▼
//! Set{number, key, due, ..} ─────► Took{turn, seat} ───────► Handled{number, moment} ─────────► Gave{turn}
//!                                                             │  (periodic: Set under a new number)
//!                                                             ▼
//!                                   World::handle(role, event, cx)   own entries: Made, Set, Cancelled,
//!                                                             │       Dropped .. Destroyed
//!                                                             ▼
//!                                   the direct calls that it asked for, in order, at most 64 in all
//! ```
//!
//! 1. A handler, or whoever holds the turn, sets an event through `Cx`; `next_news` tells each number once to
//!    the clock, and `next_due` what comes first.
//! 2. `Group::handle` enters `Handled` and only then runs the handler, under the continuation's key and role;
//!    so no event is handled twice, none that was cancelled or dropped is handled, and no handler runs on a
//!    destroyed continuation.
//! 3. A handler that has a question for another group returns it (`Want::Ask`); the driver asks that group in
//!    a turn of its own (`ask`) and hands the reply back (`answered`).
//! 4. `Cx::destroy` drops every pending event of the key, in the order of the numbers, and then the key; its
//!    index comes back under a greater generation.
//!
//! The journal always has room to close all that is pending, destroy all that is live and give the turn back,
//! so none of these can lack memory.
#![tactic(auto)]

mod action;
mod alone;
mod calls;
mod cx;
mod due;
mod either;
mod events;
mod group;
mod hasten;
mod keys;
mod laws;
mod lend;
mod reserve;
mod rouse;
mod slot;
mod turns;
mod world;

pub use action::{Action, Cancel, Destroy, MakeFault, Named, SetFault};
pub use alone::{ONLY_SEAT, TurnFault};
pub use cx::Cx;
pub use either::{Either, EitherTag};
pub use group::{Group, MOST_EVENTS};
pub use keys::OWN_KEY;
pub use laws::are_limits;
pub use rouse::Rouse;
pub use slot::MOST_IN_TURN;
pub use turns::MOST_STORED;
pub use world::{Asked, Handling, MOST_SET, Want, World};
