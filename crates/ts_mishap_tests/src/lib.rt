//! Transactions between links in memory that wait, fail or leave, plugins that are missed, memory that lacks,
//! large bodies and fronts of bodies: how each ends, and what its client and its origin got by then. What a
//! recording can state stands in `ts_command_rows`.
#![tactic(auto)]

#[cfg(test)]
mod exchange;
#[cfg(test)]
mod faults;
#[cfg(test)]
mod fronts;
#[cfg(test)]
mod journals;
#[cfg(test)]
mod judging;
#[cfg(test)]
mod large;
#[cfg(test)]
mod memory;
#[cfg(test)]
mod misses;
#[cfg(test)]
mod nets;
#[cfg(test)]
mod plan;
#[cfg(test)]
mod refusal;
#[cfg(test)]
mod row;
#[cfg(test)]
mod seen;
#[cfg(test)]
mod stated;
#[cfg(test)]
mod stock;
#[cfg(test)]
mod told;
#[cfg(test)]
mod waits;
#[cfg(test)]
mod writes;
