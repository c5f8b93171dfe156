//! Timers. A wheel has tokens with due moments in milliseconds, and gives the first of those that are due.
//! Traffic Server's Developer's Guide schedules an event for a continuation in so many milliseconds, and an
//! event thread keeps such events in a wheel.
#![tactic(auto)]

mod lap;
mod laws;
mod rows;
mod wheel;

pub use laws::{adds_in_order, takes_the_due};
pub use wheel::Wheel;

/// How many milliseconds a lap has, each with a row of its own.
pub const ROWS: usize = 512;
