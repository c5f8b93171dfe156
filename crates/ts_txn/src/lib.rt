//! The transaction: one request and its answer between two links. What it makes of all that they give is its
//! block.
//!
//! # The way of a question
//!
//! The plugin of each line of a deny list or of header rules stands in a mutex group of its own, behind the
//! groups of the transactions, in the order of the lines. A transaction knows them by its hook table: at each
//! hook the groups of the lines that stand there.
//!
//! ```text
//! transaction g (its turn is held throughout)              plugin group j
//! --------------------------------------------             ------------------------------
//! an event of a hook's phase: handle
//!   the table has a group at this place ── Want::Ask ──►    entered by one try (try_enter)
//!   (the fields move into the question;                       asked: the reply of its line
//!    no event is set)                                         left again
//! told ◄── Reply: the fields come back ────────────────
//!   Continue: place + 1, one event, at once
//!   Error: the 403 answer (before the origin is asked)
//!   want of memory: the end NoMemory
//! told ◄── Missed: somebody else has the group
//!   the same place, one event 10 ms later
//!   the table has none at this place:
//!     the step that leaves the hook
//! ```
//!
//! 1. An event of a hook asks one plugin at most, and sets no event where it does (`Txn::handle`, `rests`).
//!    The first plugin of a hook is asked in the event in which the hook begins, so under no such lines a
//!    transaction has no event more.
//! 2. While the question is open the phase has the place of that plugin, and its fields stand in the
//!    question: what holds then (`AwaitsOn`) is what held, said with these fields, but for the event of the
//!    next step.
//! 3. `told_step` alone says where the reply leads, and `told` sets the one event behind it. A reply is right
//!    (`IsRightReply`) where it is that of the line, which a slot's tag and `ts_thread`'s rule on who may ask
//!    whom give; so what the deny lines and header rules say together is what the plugins came to, asked one
//!    by one (`PassesDeny`, `IsRuledTo`).
//! 4. `finish` asks a plugin's group directly, since it has all groups; there nobody is missed.
#![tactic(auto)]

mod continuation;
mod course;
mod course_events;
mod course_leads;
mod laws;
mod making;
mod mem_net;
mod net;
mod pair_stock;
mod retired;
mod rouse;
mod txn;

pub use laws::are_limits;
pub use making::{MOST_GROUPS, MOST_PLUGINS, TxnParts};
pub use mem_net::MemNet;
pub use net::{Accepted, Began, Dialed, Net, NetCounts};
pub use retired::{Noted, Retired};
pub use ts_block::{Block, OwnStatus, acts_on, block_of, one_block};
pub use ts_relay::MAIN;
pub use txn::{Txn, TxnTag};
