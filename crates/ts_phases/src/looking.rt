//! Looks for a head at the front of bytes that wait: in what came since the last look, and in all of them where
//! that may end a head or break it.
ghost use Rattle.std.specs.Prelude.{◌≡◌, ◌≤◌, IsTrue, flat_map, length, take, fold, IfOk};
ghost use Rattle.ts_iobuf.specs.Buffer.{blocks_of, is_reader, readable};
ghost use Rattle.ts_phases.specs.Fronts.{HasFront};
ghost use Rattle.ts_phases.specs.Place.{IsLookedAt, place_next, place_of};

use crate::head::{Head, stays_open};
use crate::place::Place;
use std::alloc::Global;
use ts_iobuf::{IoBuffer, ReaderId, Waiting};
use ts_link::NoMemory;
use ts_wire::{MAX_HEAD, Read};

/// Where in a head some bytes end, and whether each that was passed left it open what comes.
#[derive(Clone, Copy)]
pub struct Ahead {
    pub place: Place,
    pub open: bool,
}

// What stands at the front of the bytes, which are read where they stand, if it is in one block.
fn front<H: Head>(alloc: Global, waiting: &Waiting) -> Result<Read<H>, NoMemory>
    ensures { IfOk result (HasFront H.has H.lacks waiting.now) }
{
    if let Some(block) = waiting.block() {
        if block.len() == waiting.len() {
            return H::read(alloc, block);
        }
    }
    let mut bytes = Vec::new(alloc);
    waiting.gather(waiting.len(), &mut bytes)?;
    H::read(alloc, bytes.as_slice())
}

// Where the head goes on behind these bytes more.
fn pass<H: Head>(bytes: &[u8], before: Ahead) -> Ahead
    ensures { result.place ≡ fold place_next before.place bytes.now }
{
    let mut ahead = before;
    for byte in bytes {
        ahead = Ahead {
            open: ahead.open && stays_open::<H>(ahead.place, *byte),
            place: ahead.place.after(*byte),
        };
    }
    ahead
}

// How many blocks the bytes of a reader stand in at most: joined they are the bytes, and none is empty.
fn most_blocks(buffer: &IoBuffer, reader: ReaderId) -> usize
    requires { IsTrue (is_reader buffer.now reader) }
    ensures most { length (blocks_of buffer.now reader) ≤ result }
    ensures joined { flat_map (λ b. b) (blocks_of buffer.now reader) ≡ readable buffer.now reader }
{
    let _first = buffer.block(reader, 0);
    buffer.avail(reader)
}

// Where the bytes of a reader end, of which the first `looked` end at this place. Only those behind them are
// looked at.
fn look_on<H: Head>(buffer: &IoBuffer, reader: ReaderId, looked: usize, place: Place) -> Ahead
    requires live { IsTrue (is_reader buffer.now reader) }
    requires place { place ≡ place_of (take looked (readable buffer.now reader)) }
    ensures { result.place ≡ place_of (readable buffer.now reader) }
{
    let mut ahead = Ahead { place, open: true };
    let mut left = looked;
    for k in 0..most_blocks(buffer, reader) {
        let Some(block) = buffer.block(reader, k) else {
            return ahead;
        };
        let (known, more) = block.split_at(left.min(block.len()));
        ahead = pass::<H>(more, ahead);
        left -= known.len();
    }
    ahead
}

/// What stands at the front of the bytes, of which the first `looked` were looked at and end at this place. Where
/// each byte that came since leaves it open whether a head comes, the bytes are not read anew: so a head that
/// comes byte by byte is read a few times a line, and not at each byte.
pub(crate) fn look<H: Head>(
    alloc: Global,
    waiting: &Waiting,
    looked: &mut usize,
    place: &mut Place,
) -> Result<Read<H>, NoMemory>
    requires { IsLookedAt looked.old place.old waiting.now }
    ensures front { IfOk result (HasFront H.has H.lacks waiting.now) }
    ensures looked { IsLookedAt looked.new place.new waiting.now }
{
    if *looked > 0 {
        let ahead = look_on::<H>(&waiting.buffer, waiting.reader, *looked, *place);
        if ahead.open && !ahead.place.has_ended() && waiting.len() < MAX_HEAD {
            *looked = waiting.len();
            *place = ahead.place;
            H::waits(waiting);
            return Ok(Read::More);
        }
    }
    let read = front::<H>(alloc, waiting)?;
    if let Read::More = &read {
        let ahead = look_on::<H>(&waiting.buffer, waiting.reader, *looked, *place);
        *looked = waiting.len();
        *place = ahead.place;
    }
    Ok(read)
}
