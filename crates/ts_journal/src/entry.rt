//! The keys of continuations, their events, and the entries of a journal.

use std::alloc::{AllocError, AllocFailed};

/// How many continuations a group can have: the index of each key is below it.
pub const MOST_KEYS: u32 = 1024;

/// The greatest `u64`: the numbers of events and turns and the generations of keys end there, and moments
/// stay there.
pub const GREATEST: u64 = u64::MAX;

/// Want of memory.
#[derive(Clone, Copy, Debug, PartialEq, Eq)]
pub struct NoMemory;

impl From<AllocError> for NoMemory {
    fn from(_refusal: AllocError) -> NoMemory {
        NoMemory
    }
}

impl<T: Drop> From<AllocFailed<T>> for NoMemory {
    fn from(_refusal: AllocFailed<T>) -> NoMemory {
        NoMemory
    }
}

/// The name of a continuation: an index in its group's table, below 1,024, and how often that index was given
/// away, counted from 1. A name is never given twice, so one that was destroyed reaches no later
/// continuation.
#[derive(Clone, Copy, Debug, PartialEq, Eq)]
pub struct ContKey {
    pub index: u32,
    pub generation: u64,
}

/// What a continuation is called with. The Developer's Guide lists the events of each interface.
#[derive(Clone, Copy, Debug, PartialEq, Eq)]
pub enum Event {
    Immediate,
    Timeout,
    Error,
    ReadReady,
    WriteReady,
    ReadComplete,
    WriteComplete,
    Eos,
    InactivityTimeout,
    Hook,
}

/// One entry of a journal. Moments and periods are milliseconds.
#[derive(Clone, Copy, Debug, PartialEq, Eq)]
pub enum Entry {
    /// A seat took the mutex.
    Took {
        turn: u64,
        seat: u64,
    },
    /// The mutex was given back.
    Gave {
        turn: u64,
    },
    /// A continuation was made.
    Made {
        key: ContKey,
    },
    /// An event was set for a continuation. The series is the number of the first event that its action
    /// names, and the period is 0 where that is the only one.
    Set {
        number: u64,
        key: ContKey,
        event: Event,
        due: u64,
        series: u64,
        period: u64,
    },
    /// The continuation was called with the event of this number.
    Handled {
        number: u64,
        moment: u64,
    },
    /// The action of the event was cancelled.
    Cancelled {
        number: u64,
    },
    /// The event went with its continuation.
    Dropped {
        number: u64,
    },
    /// A continuation was destroyed.
    Destroyed {
        key: ContKey,
    },
}

/// An event that was set and is not closed yet.
#[derive(Clone, Copy)]
pub struct Pending {
    pub number: u64,
    pub key: ContKey,
    pub event: Event,
    pub due: u64,
    pub series: u64,
    pub period: u64,
}

/// The series of the event that was handled last: whose it is, the number that it began with, and its period.
#[derive(Clone, Copy)]
pub struct Latest {
    pub key: ContKey,
    pub series: u64,
    pub period: u64,
}

/// A turn that was taken, with the number of the seat that took it.
#[derive(Clone, Copy)]
pub struct Mark {
    pub turn: u64,
    pub seat: u64,
}

/// How many events were set, and what became of them.
#[derive(Clone, Copy, Debug, PartialEq, Eq)]
pub struct Counts {
    pub set: u64,
    pub handled: u64,
    pub cancelled: u64,
    pub dropped: u64,
    pub pending: u64,
}
