//! Tests of what operators write and read that no row of `ts_format_rows` states: texts of the greatest length,
//! what a recording tells, the blocks of a report, recorded sides as links, and what transforms write in time.
#![tactic(auto)]

#[cfg(test)]
mod configurations;
#[cfg(test)]
mod recordings;
#[cfg(test)]
mod reports;
#[cfg(test)]
mod sides;
#[cfg(test)]
mod transforms;
