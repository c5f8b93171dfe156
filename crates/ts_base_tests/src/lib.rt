//! Tests of the base crates, each public call with ample memory: what it gives, takes, counts and refuses.
#![tactic(auto)]

#[cfg(test)]
mod buffers;
#[cfg(test)]
mod ends;
#[cfg(test)]
mod hooks;
#[cfg(test)]
mod journals;
#[cfg(test)]
mod links;
#[cfg(test)]
mod memory;
#[cfg(test)]
mod queues;
#[cfg(test)]
mod slots;
#[cfg(test)]
mod uploads;
#[cfg(test)]
mod wheels;
