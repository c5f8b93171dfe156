//! Whole runs of the commands over forms in memory, of which no row of `ts_command_rows` tells: journals, gates,
//! reads and writes that fail, and sizes that are made.
#![tactic(auto)]

#[cfg(test)]
mod command;
#[cfg(test)]
mod comparison;
#[cfg(test)]
mod moments;
#[cfg(test)]
mod parts;
#[cfg(test)]
mod recording;
#[cfg(test)]
mod report;
#[cfg(test)]
mod row;
#[cfg(test)]
mod seats;
#[cfg(test)]
mod stated;
#[cfg(test)]
mod tests;
