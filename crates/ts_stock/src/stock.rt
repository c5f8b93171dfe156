//! The stock transforms: one state for each line of a configuration, fed with a body in pieces.
ghost use Rattle.std.specs.Prelude.{◌≡◌, ℕ, ◌<◌, ◌≤◌, ◌++◌, List, [], length, take, min, is_none, IsTrue, IfOk, OnOk, OnErr};
ghost use Rattle.ts_config.specs.Bodies.{so_far_of, whole_of};
ghost use Rattle.ts_iobuf.specs.Buffer.{GrowsBy, appended, is_reader, readable};
ghost use Rattle.ts_transform.specs.Law.{Feeds, Hears};
ghost use Rattle.ts_transform.specs.declared.transform.TheConstants.{MOST_FED};
ghost use Rattle.ts_stock.specs.Laws.{done_stays, silent_before};
ghost use Rattle.ts_stock.specs.Stock.{still_writes, soon_writes, start_of, fed, written_at_feed, pause_of, pause_of_line, CountTaken, CountFrom, WasFed};

use crate::dropping::write_without;
use crate::held::Held;
use crate::limiting::{pass_on, pass_on_from};
use crate::mapping::write_mapped;
use crate::sharing::share;
use std::alloc::Global;
use std::marker::Model;
use ts_config::TransformLine;
use ts_iobuf::{IoBuffer, ReaderId};
use ts_link::{NoMemory, Octets};
use ts_transform::{Transform, front_of};

/// The states of the transforms.
#[derive(Drop)]
pub enum State {
    // Passes bytes on.
    Passing,
    // Passes bytes on, in a stage that pauses between its events.
    Delaying { ms: u32 },
    // Passes bytes on, and has this text still to write behind them.
    Appending { text: Octets },
    // Holds bytes back until the end.
    Holding { held: Held },
    // Got nothing yet, and has this text to write before the first byte.
    Prepending { text: Octets },
    // Passes bytes on, each byte `from` replaced by `to`.
    Mapping { from: u8, to: u8 },
    // Passes bytes on, but for this one.
    Dropping { byte: u8 },
    // Passes so many bytes on, and then no more.
    Limiting { left: u64 },
}

/// The transform of a line of the configuration.
#[derive(Drop)]
pub struct Stock {
    state: State,
}

// Writes the text, and the input behind it, or neither.
fn write_behind(text: &Octets, input: &[u8], out: &mut IoBuffer) -> Result<(), NoMemory>
    ensures grows { OnOk result (GrowsBy out.old out.new (text.now ++ input.now)) }
    ensures err { OnErr result (out.new ≡ out.old) }
{
    out.write_parts(&[text.bytes(), input])
}

impl Model for Stock {
    ghost use Rattle.ts_stock.specs.declared.stock.State.{State};

    ghost Value = { State };

    ghost view = { λ s. s.state };
}

impl Transform for Stock {
    type Line = TransformLine;

    ghost rest = { still_writes };

    ghost soon = { soon_writes };

    ghost line_soon = { so_far_of };

    ghost whole = { whole_of };

    ghost pause = { pause_of };

    ghost line_pause = { pause_of_line };

    fn fresh(alloc: Global, line: &TransformLine) -> Result<Stock, NoMemory>
        ensures rest { IfOk result (λ s. (z : List ℕ) → still_writes s z ≡ whole_of line.now z) }
        ensures soon { IfOk result (λ s. (z : List ℕ) → soon_writes s z ≡ so_far_of line.now z) }
        ensures pause { IfOk result (λ s. pause_of s ≡ pause_of_line line.now) }
        ensures state { IfOk result (λ s. s ≡ start_of line.now) }
    {
        let state = match line {
            TransformLine::Null => State::Passing,
            TransformLine::Append { text, .. } => State::Appending {
                text: Octets::copy_of(alloc, text.bytes())?,
            },
            TransformLine::Bnull => State::Holding {
                held: Held::new(alloc)?,
            },
            TransformLine::Prepend { text } => State::Prepending {
                text: Octets::copy_of(alloc, text.bytes())?,
            },
            TransformLine::Map { from, to } => State::Mapping {
                from: *from,
                to: *to,
            },
            TransformLine::Drop { byte } => State::Dropping { byte: *byte },
            TransformLine::Delay { ms } => State::Delaying { ms: *ms },
            TransformLine::Limit { most } => State::Limiting { left: *most },
        };
        Ok(Stock { state })
    }

    fn feed(&mut self, input: &[u8], out: &mut IoBuffer) -> Result<usize, NoMemory>
        requires { 0 < length input.now }
        ensures count { IfOk result (λ n. (1 ≤ n) × (n ≤ length input.now)) }
        ensures law { IfOk result (λ n.
            Feeds (still_writes self.old) (still_writes self.new) (take n input.now) out.old out.new) }
        ensures soon { IfOk result (λ n. Hears (soon_writes self.old) (soon_writes self.new)
            (take n input.now) (appended out.old out.new)) }
        ensures err { OnErr result ((self.new ≡ self.old) × (out.new ≡ out.old)) }

        // What a line other than bnull is fed it writes at once, and bnull writes nothing.
        ensures writes { IfOk result (λ n.
            GrowsBy out.old out.new (written_at_feed self.old (take n input.now))) }
        ensures state { IfOk result (λ n. self.new ≡ fed self.old (take n input.now)) }
        ensures taken { IfOk result (λ n. CountTaken self.old n (length input.now)) }
    {
        match &mut self.state {
            State::Passing => {
                out.write(input)?;
                Ok(input.len())
            }
            State::Delaying { .. } => {
                out.write(input)?;
                Ok(input.len())
            }
            State::Appending { .. } => {
                out.write(input)?;
                Ok(input.len())
            }
            State::Holding { held } => {
                held.add(input)?;
                Ok(input.len())
            }
            State::Prepending { text } => {
                write_behind(text, input, out)?;
                self.state = State::Passing;
                Ok(input.len())
            }
            State::Mapping { from, to } => write_mapped(*from, *to, input, out),
            State::Dropping { byte } => write_without(*byte, input, out),
            State::Limiting { left } => {
                pass_on(left, input, out)?;
                Ok(input.len())
            }
        }
    }

    fn feed_from(
        &mut self,
        input: &IoBuffer,
        reader: ReaderId,
        most: usize,
        out: &mut IoBuffer,
    ) -> Result<usize, NoMemory>
        requires reader { IsTrue (is_reader input.now reader) }
        requires some { 0 < length (readable input.now reader) }
        requires most { (1 ≤ most) × (most ≤ MOST_FED) }
        ensures count { IfOk result (λ n. (1 ≤ n)
            × CountFrom self.old n (min most (length (readable input.now reader)))) }
        ensures law { IfOk result (λ n. Feeds (still_writes self.old) (still_writes self.new)
            (take n (readable input.now reader)) out.old out.new) }
        ensures soon { IfOk result (λ n. Hears (soon_writes self.old) (soon_writes self.new)
            (take n (readable input.now reader)) (appended out.old out.new)) }
        ensures err { OnErr result ((self.new ≡ self.old) × (out.new ≡ out.old)) }

        // As `feed` of as many bytes.
        ensures fed { IfOk result (λ n.
            WasFed self.old self.new (take n (readable input.now reader)) out.old out.new) }
    {
        match &mut self.state {
            State::Passing => share(input, reader, most, out),
            State::Delaying { .. } => share(input, reader, most, out),
            State::Appending { .. } => share(input, reader, most, out),
            State::Holding { held } => held.add_from(input, reader, most),
            State::Prepending { .. } => self.feed(front_of(input, reader, most), out),
            State::Mapping { .. } => self.feed(front_of(input, reader, most), out),
            State::Dropping { .. } => self.feed(front_of(input, reader, most), out),
            State::Limiting { left } => pass_on_from(left, input, reader, most, out),
        }
    }

    fn end(&mut self, out: &mut IoBuffer) -> Result<(), NoMemory>
        ensures law { OnOk result (GrowsBy out.old out.new (still_writes self.old [])) }
        ensures err { OnErr result ((self.new ≡ self.old) × (out.new ≡ out.old)) }

        // The state stays, with either answer.
        ensures state { self.new ≡ self.old }
    {
        match &self.state {
            State::Appending { text } => out.write(text.bytes()),
            State::Prepending { text } => out.write(text.bytes()),
            State::Holding { held } => held.write_into(out),
            State::Passing => Ok(()),
            State::Delaying { .. } => Ok(()),
            State::Mapping { .. } => Ok(()),
            State::Dropping { .. } => Ok(()),
            State::Limiting { .. } => Ok(()),
        }
    }

    fn done(&self) -> bool {
        match &self.state {
            State::Limiting { left } => *left == 0,
            _ => false,
        }
    }

    fn pause(&self) -> u64 {
        match &self.state {
            State::Delaying { ms } => u64::from(*ms),
            _ => 0,
        }
    }

    ghost is_done = { done_stays };

    ghost is_silent = { silent_before };
}
