//! Tests of the net over sockets, each over loopback: what is answered and counted, who is named as ready,
//! what a client gets whose transaction was handed over, and the whole of `serve`.
#![tactic(auto)]

#[cfg(test)]
mod answers;
#[cfg(test)]
mod closes;
#[cfg(test)]
mod command;
#[cfg(test)]
mod loopback;
#[cfg(test)]
mod waits;
