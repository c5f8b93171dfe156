//! The phases of a transaction up to the head of its answer: what each reads and writes at its two sides, and
//! asks at its hooks.
#![tactic(auto)]

mod body_sides;
mod client_answer;
mod client_request;
mod head;
mod head_reader;
mod lead;
mod looking;
mod origin_request;
mod origin_response;
mod parts;
mod peers;
mod phase;
mod place;
mod received;
mod replies;
mod sides;

pub use parts::{Core, Peer, Sent};
pub use phase::{Led, Next, Phase, Request, Step};
pub use received::Received;
pub use replies::told_step;
