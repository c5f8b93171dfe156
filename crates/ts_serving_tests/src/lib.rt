//! Whole runs of `serve` over nets, files and sinks in memory, nets that are served without the program around,
//! and the table of the faults of each command: what clients get, what the net is handed, what is written and
//! said, and how serving ends.
#![tactic(auto)]

#[cfg(test)]
mod command;
#[cfg(test)]
mod row;
#[cfg(test)]
mod server;
#[cfg(test)]
mod session;
#[cfg(test)]
mod stated;
#[cfg(test)]
mod tests;
#[cfg(test)]
mod visits;
