//! The event queue that the event threads share: each thread has a pass, puts tokens and takes tickets,
//! without a lock. Traffic Server's Developer's Guide calls the events that wait for a thread its event queue.
#![tactic(auto)]

mod queue;
mod rule;
mod ticket;
mod view;

pub use queue::{EventQueue, QueuePass};
pub use ticket::{Ticket, Token};
pub use view::PassView;

/// How many parts the share of a queue has. A pass with all of them is the only one that is left.
pub const WHOLE_SHARE: u64 = 4_294_967_296;
