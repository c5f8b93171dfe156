//! Tests of sessions: which bytes of a client a span gives, what the client takes of an answer, and whether the
//! connection may go on.
#![tactic(auto)]

#[cfg(test)]
mod chunked;
#[cfg(test)]
mod memory;
#[cfg(test)]
mod sessions;
#[cfg(test)]
mod spans;
