//! Links, the ends of connections.
ghost use Rattle.std.specs.Prelude.{◌≡◌, ℕ, ◌<◌, Bool, length, true};
ghost use Rattle.ts_link.specs.Link.{Look, Reads, Writes, all_of};
ghost use Rattle.ts_link.specs.LinkAnswers.{got_again, got_failed};

/// What a link answers to a read. `Bytes` has the number of bytes that were put at the front of the room, at
/// least 1.
#[derive(Clone, Copy, Debug, PartialEq, Eq)]
pub enum Got {
    Bytes(usize),
    End,
    Again,
    Failed,
}

impl Got {
    /// Whether the link failed.
    pub fn is_failed(self) -> bool
        ensures { result ≡ got_failed self }
    {
        matches!(self, Got::Failed)
    }

    /// Whether the caller has to wait.
    pub fn is_again(self) -> bool
        ensures { result ≡ got_again self }
    {
        matches!(self, Got::Again)
    }
}

/// What a link answers to a write. `Took` has the number of bytes that were taken from the piece's front, at
/// least 1.
#[derive(Clone, Copy, Debug, PartialEq, Eq)]
pub enum Put {
    Took(usize),
    Again,
    Failed,
    NoMemory,
}

/// One end of a connection: it gives bytes and takes bytes, and it may make its caller wait (`Again`), fail
/// or end at any call.
pub trait Link {
    // Whether contracts see its bytes.
    ghost tells: { Bool };

    // What contracts see of it.
    ghost look: { Self → Look };

    // The second is the first after some calls of this trait on it.
    ghost goes: { Self → Self → Type 0 };

    // It is the same link, whatever was called on it.
    ghost still: { Self → Self → Type 0 };

    /// Reads into the room, which is not empty.
    fn read(&mut self, into: &mut [u8]) -> Got
        requires { 0 < length into.old }
        ensures reads { Reads tells (look self.old) (look self.new) result into.new }
        ensures goes { goes self.old self.new };

    /// Writes the front of the piece, which is not empty. To take none of it is `Failed`.
    fn write(&mut self, piece: &[u8]) -> Put
        requires { 0 < length piece.now }
        ensures writes { Writes tells (look self.old) (look self.new) result piece.now }
        ensures goes { goes self.old self.new };

    /// How many answers were `Failed`. The count stays at the greatest `u64`.
    fn faults(&self) -> u64
        ensures { result ≡ (look self.now).faults };

    // No call at all, and calls after calls.
    ghost stays: { (l : Self) → goes l l };

    ghost goes_on: { (l m n : Self) → goes l m → goes m n → goes l n };

    // Calls of this trait leave it the same link, and it stays so.
    ghost goes_still: { (l m : Self) → goes l m → still l m };

    ghost still_on: { (l m n : Self) → still l m → still m n → still l n };
}

/// A link of which one is told what its source is.
pub trait Sourced: Link {
    /// What holds of every one that tells: what it gave and may still give is its source.
    fn known(&self)
        ensures { Self.tells ≡ true → all_of (Self.look self.now) ≡ (Self.look self.now).source };
}
