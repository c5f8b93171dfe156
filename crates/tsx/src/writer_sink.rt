//! A sink over a writer, as standard output is.
ghost use Rattle.std.specs.Prelude.{◌≡◌, ◌<◌, ◌++◌, [], true, length, false};
ghost use Rattle.ts_link.specs.Counts.{Counted};
ghost use Rattle.ts_link.specs.Sink.{TakesSome, is_fault, is_lack, taken_of};
ghost use Rattle.tsx.specs.Handed.{HandsOn};

use crate::count::raised;
use crate::fault::refused_write;
use std::io::{ErrorKind, Write};
use ts_link::{Sink, Wrote};

/// As a sink it tells nothing of what it took; its writer holds it.
#[derive(Drop)]
pub struct WriterSink<W> {
    writer: W,
    faults: u64,
    lacks: u64,
}

impl<W: Write + Drop> WriterSink<W> {
    /// A sink over the writer, with counts of zero.
    pub fn new(writer: W) -> WriterSink<W>
        ensures writer { result.writer ≡ writer }
        ensures faults { result.faults ≡ 0 }
        ensures lacks { result.lacks ≡ 0 }
    {
        WriterSink {
            writer,
            faults: 0,
            lacks: 0,
        }
    }
}

// One write, begun again as often as a signal breaks it off. To take nothing is to fail.
fn write_some<W: Write>(writer: &mut W, piece: &[u8]) -> Wrote
    requires { 0 < length piece.now }
    ensures count { TakesSome result piece.now }
    ensures bytes { HandsOn (W.contents writer.old) (W.contents writer.new) result piece.now }
{
    for _ in 0..u64::MAX {
        match writer.write(piece) {
            Ok(0) => return Wrote::Failed,
            Ok(count) => return Wrote::Took(count),
            Err(error) if error.kind() == ErrorKind::Interrupted => {}
            Err(error) => return refused_write(&error),
        }
    }
    Wrote::Failed
}

impl<W: Write + Drop> Sink for WriterSink<W> {
    ghost tells = { false };

    ghost seen = { λ s. record { taken = []; faults = s.faults; lacks = s.lacks } };

    // The clauses of every sink, and the bytes that the writer was handed.
    fn write(&mut self, piece: &[u8]) -> Wrote
        requires { 0 < length piece.now }
        ensures count { TakesSome result piece.now }
        ensures faults { Counted (is_fault result) self.old.faults self.new.faults }
        ensures lacks { Counted (is_lack result) self.old.lacks self.new.lacks }
        ensures bytes { HandsOn (W.contents self.old.writer) (W.contents self.new.writer) result piece.now }
    {
        let wrote = write_some(&mut self.writer, piece);
        match wrote {
            Wrote::Took(_) => {}
            Wrote::Failed => self.faults = raised(self.faults),
            Wrote::NoMemory => self.lacks = raised(self.lacks),
        }
        wrote
    }
}
