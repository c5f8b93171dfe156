//! A transform of a body: what it is given in pieces, and what it writes.
ghost use Rattle.std.specs.Prelude.{◌≡◌, ℕ, ◌<◌, ◌≤◌, List, [], Option, Some, is_none, true, length, take, slice_get};
ghost use Rattle.std.specs.Prelude.{IsTrue, IsSomeAnd, IfOk, OnOk, OnErr};
ghost use Rattle.ts_iobuf.specs.Buffer.{GrowsBy, appended, blocks_of, is_reader, readable};
ghost use Rattle.ts_transform.specs.Law.{Feeds, Hears, IsDone};

use std::alloc::Global;
use ts_iobuf::{IoBuffer, ReaderId};
use ts_link::NoMemory;

/// A transform is fed at most so many bytes of a buffer at once.
pub const MOST_FED: usize = 32_768;

/// The front of the first block that a reader can read, of at most so many bytes.
pub fn front_of(input: &IoBuffer, reader: ReaderId, most: usize) -> &[u8]
    requires reader { IsTrue (is_reader input.now reader) }
    requires some { 0 < length (readable input.now reader) }
    requires most { 1 ≤ most }
    ensures count { (1 ≤ length result.now) × (length result.now ≤ most)
        × (length result.now ≤ length (readable input.now reader)) }
    ensures front { result.now ≡ take (length result.now) (readable input.now reader) }
    ensures block { IsSomeAnd (slice_get (blocks_of input.now reader) 0) (λ block. result.now ≡ take most block) }
{
    let Some(block) = input.block(reader, 0) else {
        unreachable!()
    };
    let (front, _) = block.split_at(block.len().min(most));
    front
}

/// Makes one stream of bytes of another. What it still writes is a function of what it still gets, and
/// each call keeps that function; so whatever the pieces are, what it writes in all is what its line makes
/// of the whole. It may be done before its bytes end: then it writes nothing more.
pub trait Transform: Sized {
    /// What a transform is made of, as a line of the configuration.
    type Line;

    // What it still writes, if these bytes are all that it still gets.
    ghost rest: { Self → List ℕ → List ℕ };

    // What it has written once it got these bytes, and no end; none where it is done then: whatever still
    // comes, it writes nothing more.
    ghost soon: { Self → List ℕ → Option (List ℕ) };

    // The same of a transform that a line makes.
    ghost line_soon: { Self.Line → List ℕ → Option (List ℕ) };

    // What a line makes of a whole body.
    ghost whole: { Self.Line → List ℕ → List ℕ };

    // The milliseconds between two events of a stage.
    ghost pause: { Self → ℕ };

    // So many of a stage that a line makes.
    ghost line_pause: { Self.Line → ℕ };

    /// A transform that got nothing yet.
    fn fresh(alloc: Global, line: &Self::Line) -> Result<Self, NoMemory>
        ensures rest { IfOk result (λ t. (z : List ℕ) → rest t z ≡ whole line.now z) }
        ensures soon { IfOk result (λ t. (z : List ℕ) → soon t z ≡ line_soon line.now z) }
        ensures pause { IfOk result (λ t. pause t ≡ line_pause line.now) };

    /// Takes bytes from the front of the input, at least one, and answers how many.
    fn feed(&mut self, input: &[u8], out: &mut IoBuffer) -> Result<usize, NoMemory>
        requires { 0 < length input.now }
        ensures count { IfOk result (λ n. (1 ≤ n) × (n ≤ length input.now)) }
        ensures law { IfOk result
            (λ n. Feeds (rest self.old) (rest self.new) (take n input.now) out.old out.new) }
        ensures soon { IfOk result
            (λ n. Hears (soon self.old) (soon self.new) (take n input.now) (appended out.old out.new)) }
        ensures err { OnErr result ((self.new ≡ self.old) × (out.new ≡ out.old)) };

    /// Takes some of what a reader of the input can read, at least one byte and at most `most`, and answers
    /// how many. The reader stays where it is. A transform that passes bytes on shares their blocks here, in
    /// place of a copy; without a body of its own the front of the first block is fed.
    fn feed_from(
        &mut self,
        input: &IoBuffer,
        reader: ReaderId,
        most: usize,
        out: &mut IoBuffer,
    ) -> Result<usize, NoMemory>
        requires reader { IsTrue (is_reader input.now reader) }
        requires some { 0 < length (readable input.now reader) }
        requires most { (1 ≤ most) × (most ≤ MOST_FED) }
        ensures count { IfOk result (λ n. (1 ≤ n) × (n ≤ most) × (n ≤ length (readable input.now reader))) }
        ensures law { IfOk result (λ n. Feeds (rest self.old) (rest self.new)
            (take n (readable input.now reader)) out.old out.new) }
        ensures soon { IfOk result (λ n. Hears (soon self.old) (soon self.new)
            (take n (readable input.now reader)) (appended out.old out.new)) }
        ensures err { OnErr result ((self.new ≡ self.old) × (out.new ≡ out.old)) }
    {
        self.feed(front_of(input, reader, most), out)
    }

    /// Writes what is left to write, once no more bytes come.
    fn end(&mut self, out: &mut IoBuffer) -> Result<(), NoMemory>
        ensures law { OnOk result (GrowsBy out.old out.new (rest self.old [])) }
        ensures err { OnErr result ((self.new ≡ self.old) × (out.new ≡ out.old)) };

    /// Whether it writes nothing more, whatever still comes.
    fn done(&self) -> bool
        ensures { result ≡ is_none (soon self.now []) };

    /// The milliseconds between two events of a stage.
    fn pause(&self) -> u64
        ensures { result ≡ pause self.now };

    // What is done now stays done, and has nothing left to write.
    ghost is_done: { (t : Self) → is_none (soon t []) ≡ true → IsDone (rest t) (soon t) };

    // Without further bytes it has written nothing more.
    ghost is_silent: { (t : Self) (w : List ℕ) → soon t [] ≡ Some w → w ≡ [] };
}
