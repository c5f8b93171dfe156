//! A seat, which is a caller's token on the slots, and a turn, which it gets by entering a group.

ghost use Rattle.std.specs.Prelude.{◌≡◌, ◌<◌, ◌≤◌, [], ◌∷◌};
ghost use Rattle.ts_slot.specs.Limits.{whole_share, last_turn};
ghost use Rattle.ts_slot.specs.Steps.{emptied};

use crate::view::SeatView;
use std::snapshot::Snapshot;
use ts_journal::Slotted;

/// Another seat holds the group: its word was odd.
#[derive(Clone, Copy, PartialEq, Eq, Debug, Drop)]
pub struct Missed {
    /// The word: twice the number of the turn that is held, less 1.
    pub seen: u64,
}

/// What became of a group that was left.
#[derive(Clone, Copy, PartialEq, Eq, Debug, Drop)]
pub enum Left {
    /// It may be entered again.
    Freed,
    /// That was its last turn, the 2^63rd: nobody enters it again.
    Worn,
}

/// A caller's token on the slots: what it knows of them, and the groups that it holds.
#[derive(Drop)]
pub struct Seat<V: Slotted> {
    pub(crate) place: atomic_table::Seat<Option<Box<V>>, SeatView<V::Tag, V::Trace>>,
    pub(crate) number: u64,
    // the least free number
    pub(crate) next: u64,
    ghost named: { (place.me.0.names ≡ number ∷ []) × (place.me.0.free_from ≡ next) },
    ghost alive: { 0 < place.me.0.share },
    ghost small: { place.me.0.free_to ≤ whole_share },
    ghost carries: { place.me.1 ≡ emptied place.me.0.held },
}

/// A turn of a group: it was won, and this is its value.
pub struct Turn<V: Slotted> {
    pub(crate) group: u32,
    pub(crate) number: u64,
    // the value, which stands where it stood in the slot
    pub(crate) boxed: Box<V>,
    // the value as it was found
    pub(crate) found: Snapshot<V>,
    ghost young: { V.stamp found.value < number },
    ghost bounded: { number ≤ last_turn },
}

impl<V: Slotted> Seat<V> {
    /// No other seat of the same slots has this number.
    pub fn number(&self) -> u64
        ensures { result ≡ self.now.number }
    {
        self.number
    }
}

impl<V: Slotted> Turn<V> {
    /// The group, counted from 0.
    pub fn group(&self) -> u32
        ensures { result ≡ self.now.group }
    {
        self.group
    }

    /// The number of the turn among those of its group, counted from 1.
    pub fn number(&self) -> u64
        ensures { result ≡ self.now.number }
    {
        self.number
    }
}
