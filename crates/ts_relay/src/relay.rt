//! A body that is passed on: its chain, where its reader stands, and the continuation that reads.
ghost use Rattle.std.specs.Prelude.{◌≡◌};
ghost use Rattle.ts_relay.specs.Relaying.{short_end, step_after};

use crate::last_writes::BodyStep;
use ts_group::SetFault;
use ts_hooks::TxnEnd;
use ts_transform::{DrivenChain, StageContinuation};
use ts_wire::BodyReader;

/// The role of the first continuation of a transaction, the only one that it has up to the head.
pub const MAIN: u32 = 1;

/// The role of the continuation that reads a body.
pub const READER: u32 = 2;

/// The role of the first stage of the chain that a body goes through; those of the others follow.
pub const FIRST: u32 = 3;

/// Why no more of a body comes, though it has not ended.
#[derive(Clone, Copy, PartialEq, Eq)]
pub enum Short {
    /// The origin ended in the middle of it.
    Cut,
    /// It broke its framing.
    Bad,
}

/// The end of a transaction whose body stopped short, unless its chain finishes first.
pub fn short_end(short: Short) -> TxnEnd
    ensures { result ≡ short_end short }
{
    match short {
        Short::Cut => TxnEnd::OriginCut,
        Short::Bad => TxnEnd::OriginBad,
    }
}

/// A body that is passed on.
#[derive(Drop)]
pub struct Relay<P> {
    /// The chain of the lines that act on it.
    pub driven: DrivenChain<P>,
    /// Where the reader of the origin's framing stands.
    pub body: BodyReader,
    /// The continuation that reads on.
    pub reader: Option<StageContinuation>,
    /// Whether no more of the body comes though it has not ended, and why.
    pub short: Option<Short>,
    /// Whether a stage of the chain pauses between two of its events.
    pub pauses: bool,
    /// How many pieces of the body were given to the chain. The count stays at the greatest `u64`.
    pub fed: u64,
}

/// Where a step leads at which an event was set, or could not be.
pub fn step_after(set: Result<(), SetFault>) -> BodyStep
    ensures { result ≡ step_after set }
{
    match set {
        Ok(()) => BodyStep::Goes,
        Err(SetFault::Spent) => BodyStep::Goes,
        Err(SetFault::NoMemory) => BodyStep::Lacks,
        Err(SetFault::Dead) => BodyStep::Lacks,
    }
}
