//! What the transactions of one connection were: the definitions of a client's session, and laws of them.
//!
//! `specs/Done` says what is left of one transaction, `specs/History` what a connection has behind it, and
//! `specs/Sessions` what a client gave and took that was handed over. The steps from one transaction to the
//! next are lemmas, in `proofs/`.
#![tactic(auto)]

mod laws;

pub use laws::{have_requests, take_first};
