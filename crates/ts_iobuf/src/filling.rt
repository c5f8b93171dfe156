//! The block in filling of a store: bytes of a vector from `start` to `filled`, and free bytes behind them.
ghost use Rattle.std.specs.Prelude.{◌≡◌, [], ◌+◌, ◌-◌, ◌<◌, ◌≤◌, ◌++◌, length, take, drop, flat_map, OnOk, OnErr, IfOk, IfSome};
ghost use Rattle.std.specs.Bool.{OnTrue, OnFalse};
ghost use Rattle.std.specs.Vec.{vec_len, vec_capacity};
ghost use Rattle.std.specs.VecDeque.{deque_capacity, deque_len};
ghost use Rattle.ts_iobuf.specs.Buffer.{one_block};
ghost use Rattle.ts_iobuf.specs.Stored.{room_after, stored};

use bytes::Bytes;
use std::alloc::Global;
use std::collections::VecDeque;
use std::mem;
use ts_link::NoMemory;

/// The room of the first block that is lent to be filled in place: what a link gives at a read is long.
pub const LEAST_LENT: usize = 4_096;

/// The room of the first block that a write begins: small bodies and heads are short, and each line of a
/// chain has a buffer of its own.
pub const LEAST_WRITTEN: usize = 256;

/// The room of a block in filling at most.
pub const MOST_ROOM: usize = 32_768;

/// The bytes from `start` to `filled`.
pub fn bytes_between(filling: &[u8], start: usize, filled: usize) -> &[u8]
    requires order { start ≤ filled }
    requires within { filled ≤ length filling.now }
    ensures { result.now ≡ stored start filled filling.now }
{
    let (front, _) = filling.split_at(filled);
    let (_, bytes) = front.split_at(start);
    bytes
}

/// The bytes from `offset` on, or the first `most` of them where there are more.
pub fn front_from(bytes: &[u8], offset: usize, most: usize) -> &[u8]
    ensures { result.now ≡ take most (drop offset bytes.now) }
{
    let (_, rest) = bytes.split_at(offset.min(bytes.len()));
    let (front, _) = rest.split_at(most.min(rest.len()));
    front
}

/// How many bytes these parts have in all, if that is a `usize`.
pub fn joined_len(parts: &[&[u8]]) -> Option<usize>
    ensures { IfSome result (λ n. n ≡ length (flat_map (λ p. p.now) parts.now)) }
{
    let mut total = 0usize;
    for part in parts {
        total = total.checked_add(part.len())?;
    }
    Some(total)
}

/// Adds bytes for which there is room.
pub fn append(out: &mut Vec<u8>, bytes: &[u8])
    requires { vec_len out.old + length bytes.now ≤ vec_capacity out.old }
    ensures items { out.new.items ≡ out.old.items ++ bytes.now }
    ensures room { vec_capacity out.old ≤ vec_capacity out.new }
{
    match out.extend_from_slice(bytes) {
        Ok(()) => {}
        Err(_) => unreachable!(),
    }
}

// Adds the parts, for which there is room.
fn append_parts(filling: &mut Vec<u8>, parts: &[&[u8]])
    requires { vec_len filling.old + length (flat_map (λ p. p.now) parts.now) ≤ vec_capacity filling.old }
    ensures { filling.new.items ≡ filling.old.items ++ flat_map (λ p. p.now) parts.now }
{
    for part in parts {
        append(filling, part);
    }
}

/// Puts these parts, joined, in the place of all that comes after the first `filled` bytes.
pub fn put_parts(filling: &mut Vec<u8>, filled: usize, parts: &[&[u8]])
    requires within { filled ≤ vec_len filling.old }
    requires room { filled + length (flat_map (λ p. p.now) parts.now) ≤ vec_capacity filling.old }
    ensures { filling.new.items ≡ take filled filling.old.items ++ flat_map (λ p. p.now) parts.now }
{
    filling.truncate(filled);
    append_parts(filling, parts);
}

/// A block of these parts, joined, with room for so many bytes.
pub fn block_of(alloc: Global, room: usize, parts: &[&[u8]]) -> Result<Vec<u8>, NoMemory>
    requires { length (flat_map (λ p. p.now) parts.now) ≤ room }
    ensures { IfOk result (λ v. v.items ≡ flat_map (λ p. p.now) parts.now) }
{
    let mut block = Vec::with_capacity(alloc, room)?;
    append_parts(&mut block, parts);
    Ok(block)
}

/// The room of the block that comes after one of this room, of at least so many bytes: it doubles from block
/// to block, so that what is short takes little memory, and what is long few reads.
pub fn next_room(room: usize, least: usize) -> usize
    requires { least ≤ MOST_ROOM }
    ensures doubles { result ≡ room_after room least }
    ensures bounds { (least ≤ result) × (result ≤ MOST_ROOM) }
{
    room.saturating_mul(2).max(least).min(MOST_ROOM)
}

/// Lengthens a block with free bytes to its whole room. Answers whether there were any.
pub fn widen(filling: &mut Vec<u8>) -> bool
    ensures front { take (vec_len filling.old) filling.new.items ≡ filling.old.items }
    ensures some { OnTrue result (vec_len filling.old < vec_len filling.new) }
    ensures none { OnFalse result (filling.new.items ≡ filling.old.items) }
    ensures full { OnFalse result (vec_capacity filling.old ≤ vec_len filling.old) }
{
    let room = filling.capacity();
    if room == filling.len() {
        return false;
    }
    match filling.resize(room, 0) {
        Ok(()) => true,
        Err(_) => unreachable!(),
    }
}

/// Makes what the block in filling holds a full block, and gives up its free bytes; where it holds nothing,
/// it stays. Then there is room for `more` full blocks. For want of memory nothing changes.
pub fn seal(
    blocks: &mut VecDeque<Bytes>,
    filling: &mut Vec<u8>,
    alloc: Global,
    start: &mut usize,
    filled: &mut usize,
    more: usize,
) -> Result<(), NoMemory>
    requires order { start.old ≤ filled.old }
    requires within { filled.old ≤ vec_len filling.old }
    ensures ok { OnOk result (blocks.new.items
        ≡ blocks.old.items ++ one_block (stored start.old filled.old filling.old.items)) }
    ensures room { OnOk result (deque_len blocks.new + more ≤ deque_capacity blocks.new) }
    ensures empty { OnOk result ((start.new ≡ filled.new) × (filled.new ≤ vec_len filling.new)) }
    ensures err { OnErr result ((blocks.new.items ≡ blocks.old.items)
        × (filling.new.items ≡ filling.old.items) × (start.new ≡ start.old) × (filled.new ≡ filled.old)) }
{
    if *start == *filled {
        blocks.reserve(more)?;
        return Ok(());
    }
    blocks.reserve(more.saturating_add(1))?;
    let bytes = mem::replace(filling, Vec::new(alloc));
    match Bytes::from_vec(bytes) {
        Ok(mut block) => {
            block.truncate(*filled);
            block.advance(*start);
            blocks.push_back_reserved(block);
            *start = 0;
            *filled = 0;
            Ok(())
        }
        Err(refused) => {
            *filling = refused.value;
            Err(NoMemory)
        }
    }
}
