//! What a link that chooses keeps: who answers, and what was written until that was known.
ghost use Rattle.std.specs.Prelude.{◌≡◌};
ghost use Rattle.ts_link.specs.Counts.{one_more};

use crate::gone::Gone;
use std::alloc::Global;
use std::snapshot::Snapshot;
use std::sync::Arc;
use ts_config::Setup;

/// How many bytes are held at most, all in all, until the origin was sent them.
pub(crate) const MOST_HELD: usize = 4_194_304;

/// Who answers.
#[derive(Drop)]
pub(crate) enum Stage {
    /// That is open: no head is whole, and nothing was read.
    Undecided,
    /// The origin, to which all is handed on. Without one nobody does, and what is written is dropped.
    HandedOn,
    /// A line of the configuration, with this answer, of which so many bytes were given.
    Served { answer: Vec<u8>, given: usize },
}

/// What a link that chooses keeps.
#[derive(Drop)]
pub(crate) struct Choice<O> {
    pub(crate) alloc: Global,
    pub(crate) origin: Option<O>,
    /// The origin as it was handed in: for contracts alone.
    pub(crate) handed: Snapshot<Option<O>>,
    pub(crate) setup: Arc<Setup>,
    pub(crate) stage: Stage,
    /// What was written until it was known who answers, and while some of that was not sent yet.
    pub(crate) held: Vec<u8>,
    /// How many of these bytes the origin was sent.
    pub(crate) sent: usize,
    /// What was dropped behind them: for contracts alone.
    pub(crate) gone: Gone,
    /// It was read before a head was whole.
    pub(crate) early: bool,
    /// It told that no upload is left.
    pub(crate) uploaded: bool,
    pub(crate) reads: u64,
    pub(crate) writes: u64,
}

/// A count with one more: it stays at the greatest `u64`.
pub(crate) fn counted(count: u64) -> u64
    ensures { result ≡ one_more count }
{
    count.saturating_add(1)
}
