//! What a server runs on, and what its event threads share.

use std::alloc::Global;
use std::sync::atomic::{AtomicBool, AtomicU64};
use ts_slot::Slotted;
use ts_thread::Shared;

/// What a server runs on: the runtime, the memory, the gate that each event passes, and the clock.
#[derive(Drop)]
pub struct Host<'a, G, C, R> {
    pub rt: &'a R,
    pub alloc: Global,
    pub gate: &'a G,
    pub clock: &'a C,
}

/// What the event threads of a server share: the runtime, the slots, the queue and the gate, the memory, the
/// clock, the flag that tells them to stop, and for how long each pauses that has nothing to do.
#[derive(Drop)]
pub struct Service<'a, V: Slotted, G, C, R> {
    pub shared: Shared<'a, V, G, R>,
    pub alloc: Global,
    pub clock: &'a C,
    pub stop: &'a AtomicBool,
    /// In milliseconds. The first thread says it.
    pub pause: &'a AtomicU64,
}
