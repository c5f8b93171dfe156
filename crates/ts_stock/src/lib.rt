//! The stock transforms: the state of each line of the configuration, which takes a body in pieces and writes
//! what the line makes of the whole.
#![tactic(auto)]

mod dropping;
mod held;
mod limiting;
mod mapping;
mod places;
mod sharing;
mod stock;

pub use stock::Stock;
