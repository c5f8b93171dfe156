//! What of a transaction outlives a change of phase: its two sides, and what was queued for the client.

use crate::received::Received;
use std::alloc::Global;
use std::sync::Arc;
use ts_config::Setup;
use ts_hooks::HookTable;
use ts_iobuf::Waiting;
use ts_wire::Mode;

/// One side of a transaction: a link, the bytes that came from it, and those that wait for it.
#[derive(Drop)]
pub struct Peer<L> {
    /// The link.
    pub link: L,
    /// How many faults the link had met when the transaction was made.
    pub base: u64,
    /// What the link gave that was not used yet.
    pub inbox: Received,
    /// What waits for the link.
    pub outbox: Waiting,
}

/// What was queued for the client: the length of its head, how its body is written, and the lengths of the
/// pieces of body that were framed. Lengths are in bytes.
#[derive(Drop)]
pub struct Sent {
    pub head: u64,
    pub mode: Mode,
    pub cuts: Vec<u32>,
}

/// A transaction without its phase and its continuation.
#[derive(Drop)]
pub struct Core<C, O> {
    pub alloc: Global,
    /// The number that it was made with.
    pub number: u64,
    pub setup: Arc<Setup>,
    /// The group of the first plugin line; those of the others follow.
    pub plugins_at: u32,
    /// The groups of the plugins that are asked at each hook.
    pub hooks: HookTable,
    pub client: Peer<C>,
    pub origin: Option<Peer<O>>,
    pub sent: Sent,
}
