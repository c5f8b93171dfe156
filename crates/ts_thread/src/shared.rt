//! What the threads of a row of groups share.

use ts_queue::EventQueue;
use ts_slot::{Slots, Slotted};

/// What the threads of a row of groups share: the runtime, the slots in which the groups stand, the queue of
/// their tokens, and the gate that each event passes.
#[derive(Drop)]
pub struct Shared<'a, V: Slotted, G, R> {
    pub rt: &'a R,
    pub slots: &'a Slots<V>,
    pub queue: &'a EventQueue,
    pub gate: &'a G,
}
