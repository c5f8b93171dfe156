//! Runs by subject, whose values come from exchanges that were worked out by hand.

mod asking;
mod generating;
mod orders;
mod sizes;
mod threads;
mod transforms;
