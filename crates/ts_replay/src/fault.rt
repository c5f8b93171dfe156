//! Why recorded transactions were not replayed.

ghost use Rattle.std.specs.Prelude.{◌≡◌};
ghost use Rattle.ts_replay.specs.declared.fault.ReplayFault.TheVariants as f;

use std::alloc::AllocFailed;
use thiserror::Error;
use ts_link::NoMemory;

/// The causes.
#[derive(Debug, Drop, Error)]
pub enum ReplayFault {
    #[error("NoMemory")]
    NoMemory,
    /// A group, of a transaction or of a plugin, had had `MOST_ALONE` turns (2^50), and was to have another.
    /// No clause says so.
    #[error("Worn")]
    Worn,
}

impl From<NoMemory> for ReplayFault {
    ghost from_gives = { λ _ e. e ≡ f.NoMemory };

    fn from(_refusal: NoMemory) -> ReplayFault {
        ReplayFault::NoMemory
    }
}

impl<T: Drop> From<AllocFailed<T>> for ReplayFault {
    ghost from_gives = { λ _ e. e ≡ f.NoMemory };

    fn from(_refusal: AllocFailed<T>) -> ReplayFault {
        ReplayFault::NoMemory
    }
}
