//! The full blocks of a store: none is empty, none is written again, and other buffers may share them.
ghost use Rattle.std.specs.Prelude.{◌≡◌, ℕ, List, [], ◌+◌, ◌-◌, ◌<◌, ◌≤◌, ◌++◌, length, take, drop, slice_get, slice_index_or, IfOk, OnOk, OnErr};
ghost use Rattle.std.specs.Option.{option_copied};
ghost use Rattle.std.specs.Vec.{vec_len, vec_capacity};
ghost use Rattle.std.specs.VecDeque.{deque_len};
ghost use Rattle.ts_iobuf.specs.Buffer.{blocks_after, one_block};
ghost use Rattle.ts_iobuf.specs.Stored.{AreFull, joined};

use crate::filling::{append, front_from};
use bytes::Bytes;
use std::alloc::Global;
use std::collections::VecDeque;
use ts_link::NoMemory;

/// A place among full blocks: so many bytes after the front of the block of this index, or after the end of
/// the last one.
#[derive(Clone, Copy)]
pub struct Spot {
    pub index: usize,
    pub offset: usize,
}

/// Adds a block behind the others, unless it is empty.
pub fn push(blocks: &mut VecDeque<Bytes>, block: Bytes) -> Result<(), NoMemory>
    ensures ok { OnOk result (blocks.new.items ≡ blocks.old.items ++ one_block block) }
    ensures err { OnErr result (blocks.new.items ≡ blocks.old.items) }
{
    if block.is_empty() {
        return Ok(());
    }
    blocks.push_back(block)?;
    Ok(())
}

// Where the first `at` bytes end.
fn find(blocks: &VecDeque<Bytes>, at: usize) -> Spot
    ensures within { result.index ≤ deque_len blocks.now }
    ensures ahead { result.index < deque_len blocks.now →
        result.offset < length (slice_index_or blocks.now.items result.index []) }
    ensures rest { (more : List (List ℕ)) → blocks_after at (blocks.now.items ++ more)
        ≡ blocks_after result.offset (drop result.index blocks.now.items ++ more) }
{
    let mut offset = at;
    for index in 0..blocks.len() {
        let length = blocks[index].len();
        if offset < length {
            return Spot { index, offset };
        }
        offset -= length;
    }
    Spot {
        index: blocks.len(),
        offset,
    }
}

// The only block of these bytes, which is the 0th, if they are not empty.
fn only(bytes: &[u8], k: usize) -> Option<&[u8]>
    ensures { option_copied result ≡ slice_get (one_block bytes.now) k }
{
    if k == 0 && !bytes.is_empty() {
        Some(bytes)
    } else {
        None
    }
}

// The k-th of these blocks, behind which `front` is one more if it is not empty.
fn nth<'a>(blocks: &'a VecDeque<Bytes>, front: &'a [u8], k: usize) -> Option<&'a [u8]>
    ensures { option_copied result ≡ slice_get (blocks.now.items ++ one_block front.now) k }
{
    match blocks.get(k) {
        Some(block) => Some(block.as_slice()),
        None => only(front, k - blocks.len()),
    }
}

/// The k-th block after the first `at` bytes of these blocks, behind which `front` is one more if it is not
/// empty.
pub fn block_at<'a>(
    blocks: &'a VecDeque<Bytes>,
    front: &'a [u8],
    at: usize,
    k: usize,
) -> Option<&'a [u8]>
    ensures { option_copied result
        ≡ slice_get (blocks_after at (blocks.now.items ++ one_block front.now)) k }
{
    let spot = find(blocks, at);
    let Some(block) = blocks.get(spot.index) else {
        let (_, rest) = front.split_at(spot.offset.min(front.len()));
        return only(rest, k);
    };
    if k == 0 {
        let (_, rest) = block.as_slice().split_at(spot.offset);
        return Some(rest);
    }
    match spot.index.checked_add(k) {
        Some(place) => nth(blocks, front, place),
        None => None,
    }
}

/// Drops the first `n` bytes of these blocks, or all. Answers how many of the `n` are left.
pub fn pass(blocks: &mut VecDeque<Bytes>, n: usize) -> usize
    ensures blocks { blocks.new.items ≡ blocks_after n blocks.old.items }
    ensures left { result ≡ n - length (joined blocks.old.items) }
{
    let mut left = n;
    while let Some(mut first) = blocks.pop_front() {
        let length = first.len();
        if left < length {
            first.advance(left);
            blocks.push_front_reserved(first);
            return 0;
        }
        left -= length;
    }
    left
}

// A block's bytes from `offset` on, or the first `most` of them where there are more, shared.
fn part_of(block: &Bytes, offset: usize, most: usize) -> Result<Bytes, NoMemory>
    ensures { IfOk result (λ b. b ≡ take most (drop offset block.now)) }
{
    let start = offset.min(block.len());
    let end = start + most.min(block.len() - start);
    Ok(block.slice(start..end)?)
}

// Adds `most` bytes from `at` on, and where memory lacks, some of their blocks.
fn push_parts(
    blocks: &mut VecDeque<Bytes>,
    alloc: Global,
    from: &VecDeque<Bytes>,
    front: &[u8],
    at: usize,
    most: usize,
) -> Result<(), NoMemory>
    ensures ok { OnOk result (joined blocks.new.items
        ≡ joined blocks.old.items ++ take most (drop at (joined from.now.items ++ front.now))) }
    ensures front { take (deque_len blocks.old) blocks.new.items ≡ blocks.old.items }
    ensures full { AreFull blocks.old.items → AreFull blocks.new.items }
{
    let mut ahead = at;
    let mut left = most;
    for index in 0..from.len() {
        if left == 0 {
            return Ok(());
        }
        let block = &from[index];
        let part = part_of(block, ahead, left)?;
        ahead = ahead.saturating_sub(block.len());
        left -= part.len();
        push(blocks, part)?;
    }
    let tail = Bytes::copy_from_slice(alloc, front_from(front, ahead, left))?;
    push(blocks, tail)?;
    Ok(())
}

/// Adds the bytes of the blocks `from`, with `front` behind them, from `at` on, or the first `most` of that
/// where there are more: what stands in full blocks is shared, and what is taken of `front` is copied. Adds
/// all of it, or none for want of memory.
pub fn share(
    blocks: &mut VecDeque<Bytes>,
    alloc: Global,
    from: &VecDeque<Bytes>,
    front: &[u8],
    at: usize,
    most: usize,
) -> Result<(), NoMemory>
    ensures ok { OnOk result (joined blocks.new.items
        ≡ joined blocks.old.items ++ take most (drop at (joined from.now.items ++ front.now))) }
    ensures err { OnErr result (blocks.new.items ≡ blocks.old.items) }
    ensures full { AreFull blocks.old.items → AreFull blocks.new.items }
{
    let before = blocks.len();
    let Ok(()) = push_parts(blocks, alloc, from, front, at, most) else {
        blocks.truncate(before);
        return Err(NoMemory);
    };
    Ok(())
}

// Copies `most` bytes from `at` on, for which there is room.
fn append_blocks(blocks: &VecDeque<Bytes>, front: &[u8], at: usize, most: usize, out: &mut Vec<u8>)
    requires { vec_len out.old + most ≤ vec_capacity out.old }
    ensures { out.new.items ≡ out.old.items ++ take most (drop at (joined blocks.now.items ++ front.now)) }
{
    let mut ahead = at;
    let mut left = most;
    for index in 0..blocks.len() {
        if left == 0 {
            return;
        }
        let block = blocks[index].as_slice();
        let part = front_from(block, ahead, left);
        append(out, part);
        ahead = ahead.saturating_sub(block.len());
        left -= part.len();
    }
    append(out, front_from(front, ahead, left));
}

/// Copies the bytes of these blocks, with `front` behind them, from `at` on, or the first `most` of that
/// where there are more, behind those of `out`.
pub fn copy_out(
    blocks: &VecDeque<Bytes>,
    front: &[u8],
    at: usize,
    most: usize,
    out: &mut Vec<u8>,
) -> Result<(), NoMemory>
    ensures ok { OnOk result (out.new.items
        ≡ out.old.items ++ take most (drop at (joined blocks.now.items ++ front.now))) }
    ensures err { OnErr result (out.new.items ≡ out.old.items) }
{
    out.reserve(most)?;
    append_blocks(blocks, front, at, most, out);
    Ok(())
}
