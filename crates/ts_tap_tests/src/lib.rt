//! Tests of a tap: what a watcher is offered of what a client takes, however it takes it, and that the client
//! takes the same as without a tap.
#![tactic(auto)]

#[cfg(test)]
mod lost;
#[cfg(test)]
mod memory;
#[cfg(test)]
mod optional;
#[cfg(test)]
mod origins;
#[cfg(test)]
mod slow;
#[cfg(test)]
mod sums;
