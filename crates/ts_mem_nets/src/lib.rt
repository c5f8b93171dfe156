//! Nets in memory, with what is stated of them: links and how their calls go, the clients and the pages of a
//! net, one that keeps the texts with which it begins, the setup that they are served under, and whether what
//! is left of their transactions is as stated.
#![tactic(auto)]

pub mod finding;
pub mod keeping_net;
pub mod links;
pub mod naming_net;
pub mod net;
pub mod pages;
pub mod seats;
pub mod setup;
pub mod stated;
pub mod visit;
