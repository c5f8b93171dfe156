//! What comes of turns.

use ts_link::NoMemory;

/// What came of a turn.
#[derive(Clone, Copy, PartialEq, Eq, Debug)]
pub enum Did {
    /// The token's event was pending and due. So many events were handled: it, and direct calls.
    Ran { events: u32 },
    /// Another seat held the token's group; its word of the slot said so. The token waits in the wheel.
    PutBack { group: u32, seen: u64 },
    /// Events were handled, and the group that the last handler asked was held by another seat.
    AskMissed { group: u32, seen: u64 },
    /// The token's event was not pending.
    Stale,
    /// The token's event is due later. The token waits for it in the wheel.
    NotDue { due: u64 },
    /// There was no token: nothing in the wheel was due, and the queue was empty at one moment.
    Idle,
}

/// Why a run ended.
#[derive(Clone, Copy, PartialEq, Eq, Debug)]
pub enum RunEnd {
    /// So many turns were made.
    Budget,
    /// The last turn was idle, and the wheel is empty.
    Idle,
}

/// Why groups were not driven to their end.
#[derive(Clone, Copy, PartialEq, Eq, Debug)]
pub enum Unfinished {
    NoMemory,
    /// A group was to have a turn, and had had as many as it may have.
    Worn,
}

impl From<NoMemory> for Unfinished {
    ghost use Rattle.std.specs.Prelude.{◌≡◌};
    ghost use Rattle.ts_thread.specs.declared.did.Unfinished.TheVariants as unfinished;

    ghost from_gives = { λ _ e. e ≡ unfinished.NoMemory };

    fn from(_lack: NoMemory) -> Unfinished {
        Unfinished::NoMemory
    }
}
