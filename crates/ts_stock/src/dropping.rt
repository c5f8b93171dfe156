//! A body less one byte goes into the room of a buffer, in blocks of 64 bytes.
ghost use Rattle.std.specs.Prelude.{◌≡◌, ◌+◌, ◌<◌, ◌≤◌, ◌++◌, length, take, drop, IfOk, OnErr};
ghost use Rattle.ts_config.specs.Bodies.{without_byte};
ghost use Rattle.ts_iobuf.specs.Buffer.{GrowsBy};
ghost use Rattle.ts_stock.specs.Dropping.{ArePlaces, IsUpTo, block_len};

use crate::places::{BLOCK, first_of, less, places_in};
use ts_iobuf::IoBuffer;
use ts_link::NoMemory;

// A block in which the byte stands at more places than these costs less byte by byte than by runs.
const FEW: u32 = 8;

// Byte by byte, this many are taken by a loop that a compiler unrolls.
const PIECE: usize = 32;

// How far an input is written: what comes before `done` fills the first `filled` bytes of the room.
#[derive(Clone, Copy)]
struct Written {
    done: usize,
    filled: usize,
}

// Puts a run behind the filled front of the room. Answers how many bytes are filled then.
fn write_run(room: &mut [u8], filled: usize, run: &[u8]) -> usize
    requires { filled + length run.now ≤ length room.old }
    ensures count { result ≡ filled + length run.now }
    ensures bytes { take result room.new ≡ take filled room.old ++ run.now }
{
    let end = filled + run.len();
    room[filled..end].copy_from_slice(run);
    end
}

// Fills the front of the room with the bytes of the input that are not `byte`, one after the other, without a
// branch. Answers how many they are.
#[inline(always)]
fn drop_bytes(room: &mut [u8], input: &[u8], byte: u8) -> usize
    requires { length input.now ≤ length room.old }
    ensures within { result ≤ length input.now }
    ensures bytes { take result room.new ≡ without_byte byte input.now }
{
    let mut filled = 0;
    for i in 0..input.len() {
        let next = input[i];
        room[filled] = next;
        filled += usize::from(next != byte);
    }
    filled
}

// Writes the run that ends at `start`, and the bytes from there to `end` one by one.
#[inline(always)]
fn take_bytes(
    room: &mut [u8],
    input: &[u8],
    byte: u8,
    start: usize,
    end: usize,
    written: Written,
) -> Written
    requires within { (start ≤ end) × (end ≤ length input.now) × (length input.now ≤ length room.old) }
    requires up_to { IsUpTo byte input.now room.old written.done written.filled start }
    ensures done { result.done ≡ end }
    ensures up_to { IsUpTo byte input.now room.new result.done result.filled end }
{
    let filled = write_run(room, written.filled, &input[written.done..start]);
    let kept = drop_bytes(&mut room[filled..], &input[start..end], byte);
    Written {
        done: end,
        filled: filled + kept,
    }
}

// Writes the runs that end at the places of the block at `start`, and leaves out the byte there.
fn take_runs(
    room: &mut [u8],
    input: &[u8],
    byte: u8,
    start: usize,
    places: u64,
    written: Written,
) -> Written
    requires within { (start + block_len ≤ length input.now) × (length input.now ≤ length room.old) }
    requires places { ArePlaces byte (take block_len (drop start input.now)) places }
    requires up_to { IsUpTo byte input.now room.old written.done written.filled start }
    ensures { IsUpTo byte input.now room.new result.done result.filled (start + block_len) }
{
    let mut left = places;
    let mut written = written;
    while left != 0 {
        let first = first_of(left);
        let place = start + first;
        let filled = write_run(room, written.filled, &input[written.done..place]);
        written = Written {
            done: place + 1,
            filled,
        };
        left = less(left, first);
    }
    written
}

// Goes on over the block at `start` byte by byte.
fn take_pieces(room: &mut [u8], input: &[u8], byte: u8, start: usize, written: Written) -> Written
    requires within { (start + block_len ≤ length input.now) × (length input.now ≤ length room.old) }
    requires up_to { IsUpTo byte input.now room.old written.done written.filled start }
    ensures { IsUpTo byte input.now room.new result.done result.filled (start + block_len) }
{
    let mut written = written;
    for k in 0..BLOCK / PIECE {
        let at = start + k * PIECE;
        written = take_bytes(room, input, byte, at, at + PIECE, written);
    }
    written
}

// Goes on over the block at `start`.
fn take_block(room: &mut [u8], input: &[u8], byte: u8, start: usize, written: Written) -> Written
    requires within { (start + block_len ≤ length input.now) × (length input.now ≤ length room.old) }
    requires up_to { IsUpTo byte input.now room.old written.done written.filled start }
    ensures { IsUpTo byte input.now room.new result.done result.filled (start + block_len) }
{
    let end = start + BLOCK;
    let places = places_in(&input[start..end], byte);
    if places.count_ones() > FEW {
        take_pieces(room, input, byte, start, written)
    } else {
        take_runs(room, input, byte, start, places, written)
    }
}

// Fills the front of the room with the bytes of the input that are not `byte`. Answers how many they are.
fn drop_all(room: &mut [u8], input: &[u8], byte: u8) -> usize
    requires { length input.now ≤ length room.old }
    ensures within { result ≤ length input.now }
    ensures bytes { take result room.new ≡ without_byte byte input.now }
{
    let mut start = 0;
    let mut written = Written { done: 0, filled: 0 };
    while input.len() - start >= BLOCK {
        written = take_block(room, input, byte, start, written);
        start += BLOCK;
    }
    take_bytes(room, input, byte, start, input.len(), written).filled
}

/// Writes a front of the input without a byte, and answers how long that front is.
pub fn write_without(byte: u8, input: &[u8], out: &mut IoBuffer) -> Result<usize, NoMemory>
    requires { 0 < length input.now }
    ensures count { IfOk result (λ n. (1 ≤ n) × (n ≤ length input.now)) }
    ensures grows { IfOk result (λ n. GrowsBy out.old out.new (without_byte byte (take n input.now))) }
    ensures err { OnErr result (out.new ≡ out.old) }
{
    let room = out.space();
    if room.is_empty() {
        return Err(NoMemory);
    }
    let count = room.len().min(input.len());
    let filled = drop_all(room, &input[..count], byte);
    out.produce(filled);
    Ok(count)
}
