//! What the first thread keeps of the clients that come.

use crate::connection::Connection;

/// How many clients are served at a time at most: each has a place.
pub const PLACES: u32 = 256;

/// Whether more clients are accepted.
#[derive(Clone, Copy, Debug, PartialEq, Eq, Drop)]
pub enum Listening {
    /// The net was not asked, or gave a client or none yet.
    Open,
    /// The net is closed.
    Closed,
    /// The net failed.
    Failed,
}

/// The acceptor: what the first thread keeps of the clients that come.
#[derive(Drop)]
pub struct Acceptor {
    /// What it keeps of each place.
    pub row: Vec<Connection>,
    /// How many clients came.
    pub came: u32,
    /// How many are accepted at most.
    pub most: u32,
    /// Whether more are accepted.
    pub listening: Listening,
    /// The place that is looked at next.
    pub next: u32,
}

/// How serving a net ended.
#[derive(Clone, Copy, Debug, PartialEq, Eq, Drop)]
pub enum Served {
    /// As many clients as were to came, or the net is closed; what is left of each was handed over.
    Whole,
    /// The net failed; what is left of each client that came was handed over.
    Failed,
    /// Memory lacked.
    NoMemory,
}
