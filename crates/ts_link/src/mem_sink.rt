//! A sink in memory.
ghost use Rattle.std.specs.Prelude.{◌≡◌, ◌<◌, ◌≤◌, ◌++◌, [], length, true};
ghost use Rattle.ts_link.specs.Counts.{Counted};
ghost use Rattle.ts_link.specs.Sink.{TakesSome, is_fault, is_lack, taken_of};
ghost use Rattle.ts_link.specs.MemSink.{SinkState, WritesAt, after_sink_write, fresh_sink};

use crate::numbered::is_listed;
use crate::sink::{Sink, Wrote};
use std::alloc::Global;
use std::marker::Model;

/// A sink that keeps what it takes, for tests and for callers that want the bytes.
#[derive(Drop)]
pub struct MemSink {
    written: Vec<u8>,
    take: usize,
    failing: Vec<u64>,
    calls: u64,
    faults: u64,
    lacks: u64,
}

impl Model for MemSink {
    ghost Value = { SinkState };

    ghost view = { λ s. record {
      taken = s.written.items;
      most = s.take;
      failing = s.failing.items;
      calls = s.calls;
      faults = s.faults;
      lacks = s.lacks;
    } };

    ghost invariant = { λ s. 1 ≤ s.take };
}

impl MemSink {
    /// A sink that takes at most `take` bytes a call, and fails at the write calls of these numbers,
    /// counted from 1; a call after as many as the greatest `u64` has none.
    pub fn make(alloc: Global, take: usize, failing: Vec<u64>) -> MemSink
        requires { 1 ≤ take }
        ensures { result ≡ fresh_sink take failing.items }
    {
        MemSink {
            written: Vec::new(alloc),
            take,
            failing,
            calls: 0,
            faults: 0,
            lacks: 0,
        }
    }

    /// What it took, in order.
    pub fn written(&self) -> &[u8]
        ensures { result.now ≡ self.now.taken }
    {
        self.written.as_slice()
    }
}

impl Sink for MemSink {
    ghost tells = { true };

    ghost seen = { λ s. record { taken = s.taken; faults = s.faults; lacks = s.lacks } };

    fn write(&mut self, piece: &[u8]) -> Wrote
        requires { 0 < length piece.now }
        ensures count { TakesSome result piece.now }
        ensures taken { self.new.taken ≡ self.old.taken ++ taken_of result piece.now }
        ensures faults { Counted (is_fault result) self.old.faults self.new.faults }
        ensures lacks { Counted (is_lack result) self.old.lacks self.new.lacks }
        ensures exact { WritesAt self.old piece.now result }
        ensures after { self.new ≡ after_sink_write self.old piece.now result }
    {
        let fails = is_listed(self.calls, self.failing.as_slice());
        self.calls = self.calls.saturating_add(1);
        if fails {
            self.faults = self.faults.saturating_add(1);
            return Wrote::Failed;
        }
        let count = self.take.min(piece.len());
        match self.written.extend_from_slice(&piece[..count]) {
            Ok(()) => Wrote::Took(count),
            Err(_) => {
                self.lacks = self.lacks.saturating_add(1);
                Wrote::NoMemory
            }
        }
    }
}
