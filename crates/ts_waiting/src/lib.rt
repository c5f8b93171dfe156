//! A client that waits for its next request: a world of its own, which keeps what is left of the transaction
//! before.
//!
//! # What goes where
//!
//! `Waiting` is such a world. Its one event polls the span of the next request, and is set again where the
//! client has to be waited for. Once the poll has answered, or memory lacked, nothing of it is pending.
#![tactic(auto)]

mod polling;
mod waiting;
mod world;

pub use polling::WaitState;
pub use waiting::{Left, WaitTag, Waiting};
