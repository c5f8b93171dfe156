//! Tests of the heads and bodies of HTTP/1.1 by subject, whose answers come from outside: the RFCs, the
//! tables that the contracts state, and exchanges that were worked out by hand.
#![tactic(auto)]

#[cfg(test)]
mod answers;
#[cfg(test)]
mod attacks;
#[cfg(test)]
mod bodies;
#[cfg(test)]
mod frames;
#[cfg(test)]
mod heads;
#[cfg(test)]
mod rows;
