//! Sinks, which take bytes as a file or a terminal does.
ghost use Rattle.std.specs.Prelude.{◌≡◌, ◌<◌, ◌++◌, Bool, true, length};
ghost use Rattle.ts_link.specs.Counts.{Counted};
ghost use Rattle.ts_link.specs.Seen.{SinkSeen};
ghost use Rattle.ts_link.specs.Sink.{TakesSome, is_fault, is_lack, taken_of};

/// What a sink answers to a write. `Took` has the number of bytes that were taken from the piece's
/// front, at least 1.
#[derive(Clone, Copy, PartialEq, Eq)]
pub enum Wrote {
    Took(usize),
    Failed,
    NoMemory,
}

/// Takes bytes, as a file or a terminal does.
pub trait Sink {
    // Whether contracts see what it took.
    ghost tells: { Bool };

    // What it has taken, and its counts.
    ghost seen: { Self → SinkSeen };

    /// Takes some bytes from the front of a piece. To take none of them is `Failed`.
    fn write(&mut self, piece: &[u8]) -> Wrote
        requires { 0 < length piece.now }
        ensures count { TakesSome result piece.now }
        ensures taken { tells ≡ true →
            (seen self.new).taken ≡ (seen self.old).taken ++ taken_of result piece.now }
        ensures faults { Counted (is_fault result) (seen self.old).faults (seen self.new).faults }
        ensures lacks { Counted (is_lack result) (seen self.old).lacks (seen self.new).lacks };
}
