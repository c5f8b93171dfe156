//! A transform for tests, which writes a tail behind a body.

ghost use Rattle.std.specs.Prelude.{◌++◌, [], Some};
ghost use Rattle.std.proofs.Common.{sym};
ghost use Rattle.std.proofs.lemmas.Bool.{false≢true};
ghost use Rattle.std.proofs.lemmas.Option.{same_Some};

use std::alloc::Global;
use ts_iobuf::{IoBuffer, ReaderId};
use ts_link::{NoMemory, Octets};
use ts_transform::Transform;

/// What a test that wants memory says.
pub const MEMORY: &str = "ample memory";

/// Passes a body on, and writes a tail behind it.
#[derive(Drop)]
pub struct Tail {
    text: Octets,
}

impl Transform for Tail {
    type Line = Octets;

    ghost rest = { λ s z. z ++ s.text };

    ghost soon = { λ s z. Some z };

    ghost line_soon = { λ line z. Some z };

    ghost whole = { λ line z. z ++ line };

    ghost pause = { λ s. 0 };

    ghost line_pause = { λ line. 0 };

    fn fresh(alloc: Global, line: &Octets) -> Result<Tail, NoMemory> {
        let text = Octets::copy_of(alloc, line.bytes())?;
        Ok(Tail { text })
    }

    fn feed(&mut self, input: &[u8], out: &mut IoBuffer) -> Result<usize, NoMemory> {
        out.write(input)?;
        Ok(input.len())
    }

    fn feed_from(
        &mut self,
        input: &IoBuffer,
        reader: ReaderId,
        most: usize,
        out: &mut IoBuffer,
    ) -> Result<usize, NoMemory> {
        out.copy_from(input, reader, most, 0)
    }

    fn end(&mut self, out: &mut IoBuffer) -> Result<(), NoMemory> {
        out.write(self.text.bytes())
    }

    fn done(&self) -> bool {
        false
    }

    fn pause(&self) -> u64 {
        0
    }

    ghost is_done = { λ s is. absurd (false≢true is) };

    ghost is_silent = { λ s w is. sym (same_Some [] w is) };
}

// A tail of a text.
fn make_tail(alloc: Global, text: &[u8]) -> Result<Tail, NoMemory> {
    let text = Octets::copy_of(alloc, text)?;
    Ok(Tail { text })
}

/// Tails of these texts.
pub fn tails(alloc: Global, texts: &[&[u8]]) -> Result<Vec<Tail>, NoMemory> {
    let mut tails = Vec::new(alloc);
    for text in texts {
        tails.push(make_tail(alloc, *text)?)?;
    }
    Ok(tails)
}

/// The letter at a place of a body: they come in their order again and again.
pub fn letter(place: u32) -> u8 {
    b'a' + (place % 26) as u8
}

/// A body of so many letters.
pub fn letters(alloc: Global, len: u32) -> Result<Octets, NoMemory> {
    let mut body = Vec::new(alloc);
    for place in 0..len {
        body.push(letter(place))?;
    }
    Ok(Octets::of_vec(body))
}
