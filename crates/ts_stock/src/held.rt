//! Bytes that a transform holds back until the end of its input.
ghost use Rattle.std.specs.Prelude.{◌≡◌, ◌++◌, [], List, ℕ, length, take, min, IsTrue, IfOk, OnOk, OnErr};
ghost use Rattle.ts_iobuf.specs.Buffer.{GrowsBy, is_reader, readable};

use crate::sharing::share;
use std::alloc::Global;
use std::marker::Model;
use ts_iobuf::{IoBuffer, ReaderId, Waiting};
use ts_link::NoMemory;

/// Bytes that are held back until the end. Those that come from a buffer are held in the blocks in which they
/// stand there.
#[derive(Drop)]
pub struct Held {
    waiting: Waiting,
}

impl Model for Held {
    ghost use Rattle.std.specs.Prelude.{List, ℕ};

    ghost Value = { List ℕ };

    ghost view = { λ h. h.waiting };
}

impl Held {
    /// No bytes.
    pub fn new(alloc: Global) -> Result<Held, NoMemory>
        ensures { IfOk result (λ h. h ≡ []) }
    {
        let waiting = Waiting::new(alloc)?;
        Ok(Held { waiting })
    }

    /// Adds bytes behind those that are held.
    pub fn add(&mut self, bytes: &[u8]) -> Result<(), NoMemory>
        ensures ok { OnOk result (self.new ≡ self.old ++ bytes.now) }
        ensures err { OnErr result (self.new ≡ self.old) }
    {
        self.waiting.write(bytes)
    }

    /// Adds what a reader can read, or the first `most` bytes of that where there are more, and answers how
    /// many bytes these are.
    pub fn add_from(
        &mut self,
        input: &IoBuffer,
        reader: ReaderId,
        most: usize,
    ) -> Result<usize, NoMemory>
        requires { IsTrue (is_reader input.now reader) }
        ensures count { IfOk result (λ n. n ≡ min most (length (readable input.now reader))) }
        ensures ok { IfOk result (λ n. self.new ≡ self.old ++ take n (readable input.now reader)) }
        ensures err { OnErr result (self.new ≡ self.old) }
    {
        share(input, reader, most, &mut self.waiting.buffer)
    }

    /// Writes the bytes that are held, and holds them still.
    pub fn write_into(&self, out: &mut IoBuffer) -> Result<(), NoMemory>
        ensures grows { OnOk result (GrowsBy out.old out.new self.now) }
        ensures err { OnErr result (out.new ≡ out.old) }
    {
        let most = self.waiting.len();
        share(&self.waiting.buffer, self.waiting.reader, most, out)?;
        Ok(())
    }
}
