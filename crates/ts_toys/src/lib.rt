//! Small worlds of the event machine, and a driver that is proved to end.
#![tactic(auto)]

pub mod burst;
pub mod drive;
pub mod heir;
pub mod peer;
pub mod recorded;
pub mod steps;
pub mod toy;
