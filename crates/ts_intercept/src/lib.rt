//! Server intercepts: a link to an origin that a line of the configuration may serve by itself. (The
//! Developer's Guide: "Intercepting HTTP Transactions", where a plugin plays the part of the origin server.)
//!
//! # The way of a request
//!
//! ```text
//!               undecided                                  handed on: origin.write, origin.read
//! write ──► held until a head is whole ── its host ──┬──► what is held goes first, by `upload`
//!                                                    │
//!                                                    └──► served: the line's answer is read, in pieces;
//!                                                         what is written is dropped
//! ```
//!
//! A read before a head is whole decides as well: the origin is handed on to.
#![tactic(auto)]

mod answer;
mod choice;
mod chosen;
mod deciding;
mod gone;
mod host;
mod laws;
mod reading;
mod uploading;
mod writing;

pub use chosen::Chosen;
pub use laws::named_hosts;
