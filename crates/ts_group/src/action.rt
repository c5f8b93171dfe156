//! What the calls of a handler on continuations answer.

use thiserror::Error;
use ts_journal::ContKey;

/// A key that is live, with the role with which its continuation was made. A role says which handler is
/// meant.
#[derive(Clone, Copy, Debug, PartialEq, Eq)]
pub struct Named {
    pub key: ContKey,
    pub role: u32,
}

/// What scheduling an event gives back: the name of a series of events. A plain event is a series of one, and
/// all occurrences of a periodic event are one series.
#[derive(Clone, Copy, Debug, PartialEq, Eq)]
pub struct Action {
    pub series: u64,
}

/// Why no continuation was made.
#[derive(Debug, Drop, Error)]
pub enum MakeFault {
    /// Each of the 1,024 indexes is live, or was given away as often as a key can say.
    #[error("TableFull")]
    TableFull,
    #[error("NoMemory")]
    NoMemory,
}

/// Why no event was set.
#[derive(Debug, Drop, Error)]
pub enum SetFault {
    /// The continuation was destroyed, or never made.
    #[error("Dead")]
    Dead,
    /// The group has used up its event numbers.
    #[error("Spent")]
    Spent,
    #[error("NoMemory")]
    NoMemory,
}

/// What came of destroying a continuation.
#[derive(Clone, Copy, Debug, PartialEq, Eq)]
pub enum Destroy {
    Gone,
    /// The key was not live.
    Dead,
}

/// What came of cancelling an action.
#[derive(Clone, Copy, Debug, PartialEq, Eq)]
pub enum Cancel {
    Cancelled,
    /// The series had no pending event.
    Done,
}
