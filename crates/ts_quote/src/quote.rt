//! Quoting: the bytes of a body come in pieces, and each byte that begins a line is written behind the mark.
ghost use Rattle.std.specs.Prelude.{◌≡◌, ℕ, ◌<◌, ◌≤◌, ◌++◌, List, [], length, take, true, Some, IfOk, OnOk, OnErr};
ghost use Rattle.std.proofs.Common.{sym};
ghost use Rattle.std.proofs.lemmas.Bool.{false≢true};
ghost use Rattle.std.proofs.lemmas.Option.{same_Some};
ghost use Rattle.ts_iobuf.specs.Buffer.{GrowsBy};
ghost use Rattle.ts_transform.specs.Law.{Feeds};
ghost use Rattle.ts_quote.specs.Quoting.{marked, marked_byte};

use std::alloc::Global;
use ts_iobuf::IoBuffer;
use ts_link::{NoMemory, Octets};
use ts_transform::Transform;

// The byte that ends a line.
const LINE_FEED: u8 = b'\n';

/// What a quoting transform is made of: the bytes that are written before each line.
#[derive(Drop)]
pub struct QuoteLine {
    pub mark: Octets,
}

/// Writes each line of a body behind its mark. It holds nothing back: between two pieces it remembers only
/// whether the next byte begins a line.
#[derive(Drop)]
pub struct Quote {
    alloc: Global,
    mark: Octets,
    begins: bool,
}

// Writes a byte behind a text, and the mark before it, if the byte begins a line.
fn write_byte(text: &mut Vec<u8>, mark: &[u8], begins: bool, byte: u8) -> Result<(), NoMemory>
    ensures { OnOk result (text.new.items ≡ text.old.items ++ marked_byte mark.now begins byte) }
{
    if begins {
        text.extend_from_slice(mark)?;
    }
    text.push(byte)?;
    Ok(())
}

// Writes what becomes of a piece behind a text, and answers whether the next byte begins a line.
fn quote_into(text: &mut Vec<u8>, mark: &[u8], begins: bool, piece: &[u8]) -> Result<bool, NoMemory>
    ensures { IfOk result (λ next. (z : List ℕ) → text.old.items ++ marked mark.now begins (piece.now ++ z)
        ≡ text.new.items ++ marked mark.now next z) }
{
    let mut next = begins;
    for i in 0..piece.len() {
        let byte = piece[i];
        write_byte(text, mark, next, byte)?;
        next = byte == LINE_FEED;
    }
    Ok(next)
}

impl Transform for Quote {
    type Line = QuoteLine;

    // What is written of the bytes that still come, by whether the first of them begins a line.
    ghost rest = { λ quote z. marked quote.mark quote.begins z };

    // It is never done, and what it got is written at once.
    ghost soon = { λ quote z. Some (marked quote.mark quote.begins z) };

    ghost line_soon = { λ line z. Some (marked line.mark true z) };

    // The first byte of a body begins a line.
    ghost whole = { λ line z. marked line.mark true z };

    ghost pause = { λ quote. 0 };

    ghost line_pause = { λ line. 0 };

    fn fresh(alloc: Global, line: &QuoteLine) -> Result<Quote, NoMemory> {
        let mark = Octets::copy_of(alloc, line.mark.bytes())?;
        Ok(Quote {
            alloc,
            mark,
            begins: true,
        })
    }

    fn feed(&mut self, input: &[u8], out: &mut IoBuffer) -> Result<usize, NoMemory> {
        let mut text = Vec::new(self.alloc);
        let begins = quote_into(&mut text, self.mark.bytes(), self.begins, input)?;
        out.write(text.as_slice())?;
        self.begins = begins;
        Ok(input.len())
    }

    fn end(&mut self, _out: &mut IoBuffer) -> Result<(), NoMemory> {
        Ok(())
    }

    fn done(&self) -> bool {
        false
    }

    fn pause(&self) -> u64 {
        0
    }

    ghost is_done = { λ quote is. absurd (false≢true is) };

    ghost is_silent = { λ quote w is. sym (same_Some [] w is) };
}
