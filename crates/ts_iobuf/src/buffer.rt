//! The buffer and its calls, but `space`.
ghost use Rattle.std.specs.Prelude.{◌≡◌, ◌≢◌, ◌+◌, ◌-◌, ◌<◌, ◌≤◌, ◌++◌, [], length, take, drop, flat_map, slice_get, IsTrue, All, IfOk, IsOk, OnOk, OnErr, MatchOption, Some, ◌↔◌};
ghost use Rattle.std.specs.Option.{option_copied};

mod space;

use crate::readers::{ReaderId, Slot, close, move_on, open, place_of};
use crate::store::Store;
use std::alloc::Global;
use std::marker::Model;
use ts_link::{NoMemory, Octets};

/// Bytes that are written at the end and read by any number of readers, each at a place of its own. What no
/// reader stands before is dropped. (The Developer's Guide, "IO Buffers".)
#[derive(Drop)]
pub struct IoBuffer {
    // The bytes, of whose free ones behind them the first `room` were lent last.
    store: Store,
    room: usize,
    slots: Vec<Slot>,
    mark: usize,
}

impl Model for IoBuffer {
    ghost use Rattle.ts_iobuf.specs.Buffer.{Buffer};

    ghost Value = { Buffer };

    ghost use Rattle.ts_iobuf.specs.View.{seen, Fits};

    ghost view = { seen };

    ghost invariant = { Fits };
}

impl IoBuffer {
    ghost use Rattle.ts_iobuf.specs.Buffer.{Consumes, GrowsBy, ReachesMark, blocks_of, is_reader};
    ghost use Rattle.ts_iobuf.specs.Buffer.{part_of, readable, unread};
    ghost use Rattle.ts_iobuf.specs.Places.{place_in};
    ghost use Rattle.ts_iobuf.specs.Readers.{ClosesReader, OpensReader};

    /// An empty buffer with no readers and the water mark 0.
    pub fn new(alloc: Global) -> Result<IoBuffer, NoMemory>
        ensures { IfOk result (λ b. b ≡ unread []) }
    {
        Ok(IoBuffer {
            store: Store::new(alloc),
            room: 0,
            slots: Vec::new(alloc),
            mark: 0,
        })
    }

    /// A buffer of these bytes, which are taken over without a copy, with no readers and the water mark 0.
    pub fn of_octets(alloc: Global, bytes: Octets) -> Result<IoBuffer, NoMemory>
        ensures { IfOk result (λ b. b ≡ unread bytes) }
    {
        let store = Store::of_octets(alloc, bytes)?;
        Ok(IoBuffer {
            store,
            room: 0,
            slots: Vec::new(alloc),
            mark: 0,
        })
    }

    /// A new reader at the front of the bytes. (The Developer's Guide: `TSIOBufferReaderAlloc`.)
    pub fn reader(&mut self) -> Result<ReaderId, NoMemory>
        ensures place { IfOk result (λ r. place_in self.new.readers r ≡ Some 0) }
        ensures opens { IfOk result (OpensReader self.old.readers self.new.readers) }
        ensures rest { OnOk result (self.new ≡ record self.old { readers = self.new.readers }) }
        ensures err { OnErr result (self.new ≡ self.old) }
    {
        open(&mut self.slots, 0)
    }

    /// A new reader at the place of another. (The Developer's Guide: `TSIOBufferReaderClone`.)
    pub fn clone_reader(&mut self, reader: ReaderId) -> Result<ReaderId, NoMemory>
        requires { IsTrue (is_reader self.old reader) }
        ensures place { IfOk result (λ r. place_in self.new.readers r ≡ place_in self.old.readers reader) }
        ensures opens { IfOk result (OpensReader self.old.readers self.new.readers) }
        ensures rest { OnOk result (self.new ≡ record self.old { readers = self.new.readers }) }
        ensures err { OnErr result (self.new ≡ self.old) }
    {
        let Some(place) = place_of(self.slots.as_slice(), reader) else {
            unreachable!()
        };
        open(&mut self.slots, place)
    }

    /// Takes a reader away. It drops no bytes, and takes no memory. (The Developer's Guide:
    /// `TSIOBufferReaderFree`.)
    pub fn free_reader(&mut self, reader: ReaderId)
        requires { IsTrue (is_reader self.old reader) }
        ensures closes { ClosesReader self.old.readers self.new.readers reader }
        ensures rest { self.new ≡ record self.old { readers = self.new.readers } }
    {
        close(&mut self.slots, reader);
    }

    /// Whether the buffer has this reader.
    pub fn is_reader(&self, reader: ReaderId) -> bool
        ensures { result ≡ is_reader self.now reader }
    {
        place_of(self.slots.as_slice(), reader).is_some()
    }

    /// How many bytes the reader can read.
    pub fn avail(&self, reader: ReaderId) -> usize
        requires { IsTrue (is_reader self.now reader) }
        ensures { result ≡ length (readable self.now reader) }
    {
        match place_of(self.slots.as_slice(), reader) {
            Some(place) => self.store.len() - place,
            None => unreachable!(),
        }
    }

    /// Lends the k-th block, counted from 0, of what the reader can read; the blocks joined are all of that,
    /// and none is empty. `None` where there are no more than `k`.
    pub fn block(&self, reader: ReaderId, k: usize) -> Option<&[u8]>
        requires { IsTrue (is_reader self.now reader) }
        ensures block { option_copied result ≡ slice_get (blocks_of self.now reader) k }
        ensures joined { flat_map (λ b. b) (blocks_of self.now reader) ≡ readable self.now reader }
        ensures full { All (λ b. 0 < length b) (blocks_of self.now reader) }

        // So the first block, if there is one, is a part at the front of what the reader can read.
        ensures first { k ≡ 0 → MatchOption result (readable self.now reader ≡ [])
            (λ b. (0 < length b.now) × (length b.now ≤ length (readable self.now reader))
            × (b.now ≡ take (length b.now) (readable self.now reader))) }
    {
        match place_of(self.slots.as_slice(), reader) {
            Some(place) => self.store.block(place, k),
            None => unreachable!(),
        }
    }

    /// Adds these bytes behind the others.
    pub fn write(&mut self, bytes: &[u8]) -> Result<(), NoMemory>
        ensures grows { OnOk result (GrowsBy self.old self.new bytes.now) }
        ensures room { OnOk result (self.new.room ≡ []) }
        ensures err { OnErr result (self.new ≡ self.old) }
    {
        self.store.write_parts(&[bytes])?;
        self.room = 0;
        Ok(())
    }

    /// Adds these parts, one behind the other, behind the bytes: all of them, or none for want of memory.
    pub fn write_parts(&mut self, parts: &[&[u8]]) -> Result<(), NoMemory>
        ensures grows { OnOk result (GrowsBy self.old self.new (flat_map (λ p. p.now) parts.now)) }
        ensures room { OnOk result (self.new.room ≡ []) }
        ensures err { OnErr result (self.new ≡ self.old) }
    {
        self.store.write_parts(parts)?;
        self.room = 0;
        Ok(())
    }

    /// Adds the first `n` bytes of the room that was lent last, as they were left there.
    pub fn produce(&mut self, n: usize)
        requires { n ≤ length self.old.room }
        ensures grows { GrowsBy self.old self.new (take n self.old.room) }
        ensures room { self.new.room ≡ [] }
    {
        self.store.produce(n);
        self.room = 0;
    }

    /// Copies what the reader can read, or its first `most` bytes where there are more, behind the bytes of
    /// `out`.
    pub fn copy_out(&self, reader: ReaderId, most: usize, out: &mut Vec<u8>) -> Result<(), NoMemory>
        requires { IsTrue (is_reader self.now reader) }
        ensures ok { OnOk result (out.new.items ≡ out.old.items ++ take most (readable self.now reader)) }
        ensures err { OnErr result (out.new.items ≡ out.old.items) }
    {
        match place_of(self.slots.as_slice(), reader) {
            Some(place) => self.store.copy_out(place, most, out),
            None => unreachable!(),
        }
    }

    /// Adds what the reader of another buffer can read from `offset` on, or the first `most` bytes of that
    /// where there are more: full blocks are shared, not copied. Answers how many bytes these are. Where
    /// there are none, it takes no memory, and does no more than to end the loan of the room. (The
    /// Developer's Guide: `TSIOBufferCopy`.)
    pub fn copy_from(
        &mut self,
        from: &IoBuffer,
        reader: ReaderId,
        most: usize,
        offset: usize,
    ) -> Result<usize, NoMemory>
        requires { IsTrue (is_reader from.now reader) }
        ensures count { IfOk result (λ n. n ≡ length (part_of from.now reader offset most)) }
        ensures grows { OnOk result (GrowsBy self.old self.new (part_of from.now reader offset most)) }
        ensures room { OnOk result (self.new.room ≡ []) }
        ensures none { part_of from.now reader offset most ≡ [] →
            IsOk result × (self.new ≡ record self.old { room = [] }) }
        ensures err { OnErr result (self.new ≡ self.old) }
    {
        let Some(place) = place_of(from.slots.as_slice(), reader) else {
            unreachable!()
        };
        let at = place + offset.min(from.store.len() - place);
        let count = self.store.copy_from(&from.store, at, most)?;
        self.room = 0;
        Ok(count)
    }

    /// Moves the reader over the next `n` bytes, and then drops the bytes that no reader stands before: each
    /// block goes with its last byte. (The Developer's Guide: `TSIOBufferReaderConsume`.)
    pub fn consume(&mut self, reader: ReaderId, n: usize)
        requires live { IsTrue (is_reader self.old reader) }
        requires within { n ≤ length (readable self.old reader) }
        ensures consumes { Consumes self.old self.new reader n }
        ensures live { (q : _) → is_reader self.new q ≡ is_reader self.old q }
        ensures moved { readable self.new reader ≡ drop n (readable self.old reader) }
        ensures others { (q : _) → q ≢ reader → readable self.new q ≡ readable self.old q }
    {
        let passed = move_on(&mut self.slots, reader, n, self.store.len());
        self.store.consume(passed);
        if self.room == 0 {
            self.store.restart();
        }
    }

    /// Where no byte stands in the buffer, gives the memory of its blocks back, and with it the room that was
    /// lent last. Its readers stay, and it takes no memory.
    pub fn give_back(&mut self)
        ensures rest { self.new ≡ record self.old { room = self.new.room } }
        ensures empty { self.old.bytes ≡ [] → self.new.room ≡ [] }
        ensures filled { self.old.bytes ≢ [] → self.new ≡ self.old }
    {
        if self.store.len() > 0 {
            return;
        }
        self.store.give_back();
        self.room = 0;
    }

    /// How many bytes a reader is to have before it is `ready`.
    pub fn water_mark(&self) -> usize
        ensures { result ≡ self.now.mark }
    {
        self.mark
    }

    /// Sets the water mark, in bytes.
    pub fn set_water_mark(&mut self, mark: usize)
        ensures { self.new ≡ record self.old { mark = mark } }
    {
        self.mark = mark;
    }

    /// Whether the reader can read at least one byte, and at least as many as the water mark says.
    pub fn ready(&self, reader: ReaderId) -> bool
        requires { IsTrue (is_reader self.now reader) }
        ensures { IsTrue result ↔ ReachesMark self.now reader }
    {
        let avail = self.avail(reader);
        avail >= 1 && avail >= self.mark
    }
}
