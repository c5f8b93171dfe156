//! Tests of the adapters over sockets, each over loopback: what a client gets, what is answered and counted,
//! and which sockets are told of.
#![tactic(auto)]

#[cfg(test)]
mod addresses;
#[cfg(test)]
mod backlogs;
#[cfg(test)]
mod clocks;
#[cfg(test)]
mod closes;
#[cfg(test)]
mod dials;
#[cfg(test)]
mod links;
#[cfg(test)]
mod listeners;
#[cfg(test)]
mod loopback;
#[cfg(test)]
mod polls;
