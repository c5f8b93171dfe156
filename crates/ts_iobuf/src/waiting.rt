//! Bytes that wait for one reader.
ghost use Rattle.std.specs.Prelude.{◌≡◌, ◌<◌, ◌≤◌, ◌++◌, List, ℕ, [], length, take, drop, IsTrue, IfOk, OnOk, OnErr, MatchOption, ◌↔◌};

use crate::buffer::IoBuffer;
use crate::readers::ReaderId;
use std::alloc::Global;
use std::marker::Model;
use ts_link::{NoMemory, Octets};

/// Bytes that wait for one reader, in the order in which they came. Contracts see the list of them. Whoever
/// fills the buffer in place, as a transform does, borrows it; that the reader is the buffer's stays true
/// whatever is written there.
#[derive(Drop)]
pub struct Waiting {
    /// What the bytes stand in.
    pub buffer: IoBuffer,
    /// The one reader that they wait for.
    pub reader: ReaderId,
}

impl Model for Waiting {
    ghost use Rattle.std.specs.Prelude.{List, ℕ, IsTrue};

    ghost Value = { List ℕ };

    ghost use Rattle.ts_iobuf.specs.Buffer.{is_reader, readable};

    ghost view = { λ w. readable w.buffer w.reader };

    ghost invariant = { λ w. IsTrue (is_reader w.buffer w.reader) };
}

impl Waiting {
    /// No bytes.
    pub fn new(alloc: Global) -> Result<Waiting, NoMemory>
        ensures { IfOk result (λ w. w ≡ []) }
    {
        let mut buffer = IoBuffer::new(alloc)?;
        let reader = buffer.reader()?;
        Ok(Waiting { buffer, reader })
    }

    /// These bytes, which are taken over without a copy.
    pub fn of_octets(alloc: Global, bytes: Octets) -> Result<Waiting, NoMemory>
        ensures { IfOk result (λ w. w ≡ bytes) }
    {
        let mut buffer = IoBuffer::of_octets(alloc, bytes)?;
        let reader = buffer.reader()?;
        Ok(Waiting { buffer, reader })
    }

    /// How many bytes wait.
    pub fn len(&self) -> usize
        ensures { result ≡ length self.now }
    {
        self.buffer.avail(self.reader)
    }

    /// Whether none waits.
    pub fn is_empty(&self) -> bool
        ensures { IsTrue result ↔ (self.now ≡ []) }
    {
        self.buffer.avail(self.reader) == 0
    }

    /// Adds bytes behind those that wait.
    pub fn write(&mut self, bytes: &[u8]) -> Result<(), NoMemory>
        ensures ok { OnOk result (self.new ≡ self.old ++ bytes.now) }
        ensures err { OnErr result (self.new ≡ self.old) }
    {
        self.buffer.write(bytes)
    }

    /// Lends the first block of the bytes, without a copy; `None` where none waits.
    pub fn block(&self) -> Option<&[u8]>
        ensures { MatchOption result (self.now ≡ [])
            (λ b. (0 < length b.now) × (length b.now ≤ length self.now)
            × (b.now ≡ take (length b.now) self.now)) }
    {
        self.buffer.block(self.reader, 0)
    }

    /// Copies the bytes, or the first `most` of them where there are more, in one piece behind those of
    /// `out`.
    pub fn gather(&self, most: usize, out: &mut Vec<u8>) -> Result<(), NoMemory>
        ensures ok { OnOk result (out.new.items ≡ out.old.items ++ take most self.now) }
        ensures err { OnErr result (out.new.items ≡ out.old.items) }
    {
        self.buffer.copy_out(self.reader, most, out)
    }

    /// Takes the first `n` bytes away.
    pub fn take(&mut self, n: usize)
        requires { n ≤ length self.old }
        ensures { self.new ≡ drop n self.old }
    {
        self.buffer.consume(self.reader, n);
    }

    /// Gives the memory of what the bytes stand in back, where none does. It takes no memory.
    pub fn give_back(&mut self)
        ensures { self.new ≡ self.old }
    {
        self.buffer.give_back();
    }
}
