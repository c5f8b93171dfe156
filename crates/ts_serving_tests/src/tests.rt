//! The rows, by what they are about.

mod arrivals;
mod beginning;
mod bodies;
mod clients;
mod crowds;
mod faults;
mod leftovers;
mod memory;
mod naming;
mod session_requests;
mod sessions;
