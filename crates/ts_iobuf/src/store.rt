//! The bytes of a buffer: full blocks, shared or not, and one block in filling behind them.
ghost use Rattle.std.specs.Prelude.{◌≡◌, [], ◌+◌, ◌-◌, ◌<◌, ◌≤◌, ◌++◌, length, take, drop, flat_map, slice_get, IsOk, OnOk, OnErr, IfOk};
ghost use Rattle.std.specs.Option.{option_copied};
ghost use Rattle.std.specs.Vec.{vec_len};

mod behind;

use crate::blocks::{block_at, copy_out, pass, push, share};
use crate::filling::{
    LEAST_LENT, LEAST_WRITTEN, MOST_ROOM, block_of, bytes_between, front_from, joined_len,
    next_room, put_parts, seal, widen,
};
use bytes::Bytes;
use std::alloc::Global;
use std::collections::VecDeque;
use std::marker::Model;
use ts_link::{NoMemory, Octets};

// How many bytes a store's full blocks have in all at most. Shared blocks may have more than there is memory.
const MOST_FULL: usize = usize::MAX / 2;

/// Bytes in blocks. Contracts see the blocks that hold bytes, and the free bytes behind them.
#[derive(Drop)]
pub struct Store {
    // The full blocks, and how many bytes they have in all.
    blocks: VecDeque<Bytes>,
    full: usize,
    // The block in filling: its bytes from `start` to `filled` are the store's, and those behind are free.
    filling: Vec<u8>,
    start: usize,
    filled: usize,
    // The room of the block that was begun last, which the next one doubles.
    last_room: usize,
    alloc: Global,
}

impl Model for Store {
    ghost use Rattle.ts_iobuf.specs.Stored.{Contents};

    ghost Value = { Contents };

    ghost use Rattle.ts_iobuf.specs.StoreView.{contents, StoreFits};

    ghost view = { contents };

    ghost invariant = { StoreFits };
}

// The sum of these numbers, if it is at most `MOST_FULL`.
fn full_after(full: usize, held: usize, more: usize) -> Result<usize, NoMemory>
    ensures { IfOk result (λ n. (n ≡ full + held + more) × (n ≤ MOST_FULL)) }
{
    let Some(sum) = full.checked_add(held) else {
        return Err(NoMemory);
    };
    let Some(sum) = sum.checked_add(more) else {
        return Err(NoMemory);
    };
    if sum <= MOST_FULL {
        Ok(sum)
    } else {
        Err(NoMemory)
    }
}

impl Store {
    ghost use Rattle.ts_iobuf.specs.Buffer.{blocks_after, one_block};
    ghost use Rattle.ts_iobuf.specs.Stored.{AreFull, joined};

    /// No bytes.
    pub fn new(alloc: Global) -> Store
        ensures { result ≡ record { blocks = []; behind = [] } }
    {
        Store {
            blocks: VecDeque::new(alloc),
            full: 0,
            filling: Vec::new(alloc),
            start: 0,
            filled: 0,
            last_room: 0,
            alloc,
        }
    }

    /// These bytes, which are taken over without a copy.
    pub fn of_octets(alloc: Global, bytes: Octets) -> Result<Store, NoMemory>
        ensures { IfOk result (λ s. s ≡ record { blocks = one_block bytes; behind = [] }) }
    {
        let block = Bytes::from_vec(bytes.into_vec())?;
        let full = block.len();
        let mut blocks = VecDeque::new(alloc);
        push(&mut blocks, block)?;
        Ok(Store {
            blocks,
            full,
            filling: Vec::new(alloc),
            start: 0,
            filled: 0,
            last_room: 0,
            alloc,
        })
    }

    /// How many bytes these are.
    pub fn len(&self) -> usize
        ensures { result ≡ length (joined self.now.blocks) }
    {
        self.full + (self.filled - self.start)
    }

    /// The k-th block after the first `at` bytes.
    pub fn block(&self, at: usize, k: usize) -> Option<&[u8]>
        ensures block { option_copied result ≡ slice_get (blocks_after at self.now.blocks) k }
        ensures joined { joined (blocks_after at self.now.blocks) ≡ drop at (joined self.now.blocks) }
        ensures full { AreFull (blocks_after at self.now.blocks) }
    {
        let front = bytes_between(self.filling.as_slice(), self.start, self.filled);
        block_at(&self.blocks, front, at, k)
    }

    // Seals the block in filling, and puts this one in its place, of which the first bytes are filled.
    fn begin(&mut self, block: Vec<u8>, filled: usize) -> Result<(), NoMemory>
        requires { filled ≤ vec_len block }
        ensures blocks { OnOk result
            (self.new.blocks ≡ self.old.blocks ++ one_block (take filled block.items)) }
        ensures behind { OnOk result (self.new.behind ≡ drop filled block.items) }
        ensures err { OnErr result (self.new ≡ self.old) }
    {
        let full = full_after(self.full, self.filled - self.start, 0)?;
        seal(
            &mut self.blocks,
            &mut self.filling,
            self.alloc,
            &mut self.start,
            &mut self.filled,
            0,
        )?;
        self.full = full;
        self.start = 0;
        self.filled = filled;
        self.last_room = block.capacity();
        self.filling = block;
        Ok(())
    }

    // Seals the block in filling, and adds this one behind it, as a full block.
    fn push(&mut self, block: Vec<u8>) -> Result<(), NoMemory>
        requires { 0 < length block.items }
        ensures ok { OnOk result (joined self.new.blocks ≡ joined self.old.blocks ++ block.items) }
        ensures err { OnErr result (self.new ≡ self.old) }
    {
        let full = full_after(self.full, self.filled - self.start, block.len())?;
        let block = Bytes::from_vec(block)?;
        seal(
            &mut self.blocks,
            &mut self.filling,
            self.alloc,
            &mut self.start,
            &mut self.filled,
            1,
        )?;
        self.full = full;
        self.blocks.push_back_reserved(block);
        Ok(())
    }

    /// Adds these parts, one behind the other: to the block in filling, where its free bytes hold them all;
    /// else, as they are shorter than a block or not, to a new block in filling or as one full block.
    pub fn write_parts(&mut self, parts: &[&[u8]]) -> Result<(), NoMemory>
        ensures ok { OnOk result (joined self.new.blocks
            ≡ joined self.old.blocks ++ flat_map (λ p. p.now) parts.now) }
        ensures err { OnErr result (self.new ≡ self.old) }
    {
        let Some(count) = joined_len(parts) else {
            return Err(NoMemory);
        };
        if count <= self.filling.capacity() - self.filled {
            put_parts(&mut self.filling, self.filled, parts);
            self.filled = self.filling.len();
            return Ok(());
        }
        let room = next_room(self.last_room, LEAST_WRITTEN);
        let block = block_of(self.alloc, room.max(count), parts)?;
        if count < room {
            return self.begin(block, count);
        }
        self.push(block)
    }

    // Adds the `count` bytes from `at` on to these blocks: full blocks are shared, and what is taken of the
    // block in filling is copied.
    fn share_into(
        &self,
        blocks: &mut VecDeque<Bytes>,
        at: usize,
        count: usize,
    ) -> Result<(), NoMemory>
        ensures ok { OnOk result (joined blocks.new.items
            ≡ joined blocks.old.items ++ take count (drop at (joined self.now.blocks))) }
        ensures err { OnErr result (blocks.new.items ≡ blocks.old.items) }
        ensures full { AreFull blocks.old.items → AreFull blocks.new.items }
    {
        let front = bytes_between(self.filling.as_slice(), self.start, self.filled);
        share(blocks, self.alloc, &self.blocks, front, at, count)
    }

    // Adds the `count` bytes of another store from `at` on. Where the block in filling holds nothing, it
    // stays, with its free bytes.
    fn share_from(&mut self, from: &Store, at: usize, count: usize) -> Result<(), NoMemory>
        requires { length (take count (drop at (joined from.now.blocks))) ≡ count }
        ensures ok { OnOk result (joined self.new.blocks
            ≡ joined self.old.blocks ++ take count (drop at (joined from.now.blocks))) }
        ensures err { OnErr result (self.new ≡ self.old) }
    {
        let full = full_after(self.full, self.filled - self.start, count)?;
        if self.start == self.filled {
            from.share_into(&mut self.blocks, at, count)?;
            self.full = full;
            return Ok(());
        }
        let mut parts = VecDeque::new(self.alloc);
        from.share_into(&mut parts, at, count)?;
        seal(
            &mut self.blocks,
            &mut self.filling,
            self.alloc,
            &mut self.start,
            &mut self.filled,
            parts.len(),
        )?;
        self.full = full;
        match self.blocks.append(&mut parts) {
            Ok(()) => Ok(()),
            Err(_) => unreachable!(),
        }
    }

    /// Adds the bytes of another store from `at` on, or the first `most` of that where there are more.
    /// Answers how many these are. What begins in the other's block in filling is copied as a write is; where
    /// there are none, nothing is done.
    pub fn copy_from(&mut self, from: &Store, at: usize, most: usize) -> Result<usize, NoMemory>
        ensures count { IfOk result (λ n. n ≡ length (take most (drop at (joined from.now.blocks)))) }
        ensures ok { OnOk result (joined self.new.blocks
            ≡ joined self.old.blocks ++ take most (drop at (joined from.now.blocks))) }
        ensures none { take most (drop at (joined from.now.blocks)) ≡ [] →
            IsOk result × (self.new ≡ self.old) }
        ensures err { OnErr result (self.new ≡ self.old) }
    {
        let count = from.len().saturating_sub(at).min(most);
        if count == 0 {
            return Ok(0);
        }
        if at < from.full {
            self.share_from(from, at, count)?;
            return Ok(count);
        }
        let front = bytes_between(from.filling.as_slice(), from.start, from.filled);
        let part = front_from(front, at - from.full, most);
        self.write_parts(&[part])?;
        Ok(part.len())
    }

    /// Adds the first `n` of the free bytes, as they are.
    pub fn produce(&mut self, n: usize)
        requires { n ≤ length self.old.behind }
        ensures { joined self.new.blocks ≡ joined self.old.blocks ++ take n self.old.behind }
    {
        self.filled += n;
    }

    /// Drops the first `n` bytes.
    pub fn consume(&mut self, n: usize)
        requires { n ≤ length (joined self.old.blocks) }
        ensures bytes { joined self.new.blocks ≡ drop n (joined self.old.blocks) }
        ensures behind { self.new.behind ≡ self.old.behind }
    {
        let left = pass(&mut self.blocks, n);
        self.full -= n - left;
        self.start += left;
    }

    /// Where the block in filling holds nothing, all of it is free again. One that was too short for what was
    /// put into it is given up, so that the next is longer.
    pub fn restart(&mut self)
        ensures { self.new.blocks ≡ self.old.blocks }
    {
        if self.start < self.filled {
            return;
        }
        if self.filled == self.filling.capacity() && self.filled < MOST_ROOM {
            self.filling = Vec::new(self.alloc);
        }
        self.start = 0;
        self.filled = 0;
    }

    /// Gives the memory of all blocks back, where no bytes are held, and with it the free bytes. It takes no
    /// memory.
    pub fn give_back(&mut self)
        requires { joined self.old.blocks ≡ [] }
        ensures { self.new ≡ record self.old { behind = [] } }
    {
        *self = Store::new(self.alloc);
    }

    /// Sees to it that some bytes are free, in a new block where the one in filling has none left. Answers
    /// how many are.
    pub fn make_room(&mut self) -> Result<usize, NoMemory>
        ensures blocks { self.new.blocks ≡ self.old.blocks }
        ensures ok { IfOk result (λ n. (1 ≤ n) × (n ≡ length self.new.behind)) }
        ensures err { OnErr result ((self.new ≡ self.old) × (self.old.behind ≡ [])) }
    {
        if self.filled < self.filling.len() || widen(&mut self.filling) {
            return Ok(self.filling.len() - self.filled);
        }
        let room = next_room(self.last_room, LEAST_LENT);
        let block = vec![in self.alloc; 0; room]?;
        self.begin(block, 0)?;
        Ok(room)
    }

    /// Copies the bytes from `at` on, or the first `most` of them where there are more, behind those of
    /// `out`.
    pub fn copy_out(&self, at: usize, most: usize, out: &mut Vec<u8>) -> Result<(), NoMemory>
        ensures ok { OnOk result (out.new.items
            ≡ out.old.items ++ take most (drop at (joined self.now.blocks))) }
        ensures err { OnErr result (out.new.items ≡ out.old.items) }
    {
        let count = self.len().saturating_sub(at).min(most);
        let front = bytes_between(self.filling.as_slice(), self.start, self.filled);
        copy_out(&self.blocks, front, at, count, out)
    }
}
