//! Two readers of one buffer, its blocks and its room; blocks that two buffers share; readers that come and
//! go; and bytes that wait for one reader.
ghost use Rattle.std.specs.Prelude.{IsTrue};
ghost use Rattle.ts_iobuf.specs.Buffer.{is_reader};

use crate::memory::{MEMORY, octets};
use std::process::Abort;
use ts_iobuf::{IoBuffer, ReaderId, Waiting};

// What a reader can read, block by block, in one piece.
fn readable(rt: &(impl AllocGlobal + Abort), buffer: &IoBuffer, reader: ReaderId) -> Vec<u8>
    requires { IsTrue (is_reader buffer.now reader) }
{
    let mut all = Vec::new(rt.alloc());
    for k in 0..usize::MAX {
        match buffer.block(reader, k) {
            Some(block) => all.extend_from_slice(block).expect(rt, MEMORY),
            None => return all,
        }
    }
    all
}

// What `copy_from` answers and adds.
fn copied(
    rt: &(impl AllocGlobal + Abort),
    from: &IoBuffer,
    reader: ReaderId,
    most: usize,
    offset: usize,
) -> (usize, Vec<u8>)
    requires { IsTrue (is_reader from.now reader) }
{
    let mut into = IoBuffer::new(rt.alloc()).expect(rt, MEMORY);
    let own = into.reader().expect(rt, MEMORY);
    let count = into
        .copy_from(from, reader, most, offset)
        .expect(rt, MEMORY);
    (count, readable(rt, &into, own))
}

#[test]
fn two_readers_stand_at_places_of_their_own(rt: HostRuntime) {
    let mut buffer = IoBuffer::new(rt.alloc()).expect(&rt, MEMORY);
    let r = buffer.reader().expect(&rt, MEMORY);
    let s = buffer.reader().expect(&rt, MEMORY);
    buffer.write(b"abc").expect(&rt, MEMORY);
    let parts = [b"d".as_slice(), b"".as_slice(), b"ef".as_slice()];
    buffer.write_parts(&parts).expect(&rt, MEMORY);
    assert!(rt; buffer.is_reader(r) && buffer.is_reader(s));
    assert!(rt; buffer.avail(r) >= 2);
    buffer.consume(r, 2);
    let waiting = (buffer.avail(r), buffer.avail(s));
    let all = readable(&rt, &buffer, s);
    assert!(rt; waiting == (4, 6) && all.as_slice() == b"abcdef".as_slice());

    let rows: [(usize, usize, &[u8]); 3] = [(3, 1, b"def"), (9, 2, b"ef"), (9, 7, b"")];
    for (most, offset, bytes) in rows {
        let (count, added) = copied(&rt, &buffer, r, most, offset);
        assert!(rt; count == bytes.len() && added.as_slice() == bytes);
    }

    let room = buffer.space();
    assert!(rt; !room.is_empty());
    room[0] = b'h';
    buffer.produce(1);
    let behind = buffer.avail(s);
    let twin = buffer.clone_reader(r).expect(&rt, MEMORY);
    assert!(rt; buffer.is_reader(twin));
    let mut front = Vec::new(rt.alloc());
    buffer.copy_out(twin, 4, &mut front).expect(&rt, MEMORY);
    let counts = (behind, buffer.avail(twin));
    assert!(rt; counts == (7, 5) && front.as_slice() == b"cdef".as_slice());
}

// Bytes of which no two that are less than 251 places apart are the same.
fn many_bytes(rt: &(impl AllocGlobal + Abort), count: u32) -> Vec<u8> {
    let mut bytes = Vec::new(rt.alloc());
    for k in 0..count {
        bytes.push((k % 251) as u8).expect(rt, MEMORY);
    }
    bytes
}

// A buffer that shares the bytes of another, which got them in pieces of 30,000, was read to its end, and is
// gone.
fn shared(rt: &(impl AllocGlobal + Abort), bytes: &[u8]) -> IoBuffer {
    let mut first = IoBuffer::new(rt.alloc()).expect(rt, MEMORY);
    let r = first.reader().expect(rt, MEMORY);
    for piece in bytes.chunks(30_000) {
        first.write(piece).expect(rt, MEMORY);
    }
    assert!(rt; first.is_reader(r));
    assert!(rt; first.avail(r) == bytes.len());
    let mut second = IoBuffer::new(rt.alloc()).expect(rt, MEMORY);
    let count = second
        .copy_from(&first, r, bytes.len(), 0)
        .expect(rt, MEMORY);
    assert!(rt; count == bytes.len());
    first.consume(r, count);
    assert!(rt; first.avail(r) == 0);
    second
}

#[test]
fn shared_blocks_outlive_the_buffer_that_got_them(rt: HostRuntime) {
    let bytes = many_bytes(&rt, 100_000);
    let mut second = shared(&rt, bytes.as_slice());
    let s = second.reader().expect(&rt, MEMORY);
    assert!(rt; second.is_reader(s));
    assert!(rt; readable(&rt, &second, s).as_slice() == bytes.as_slice());
}

#[test]
fn the_byte_after_a_full_block_stands_in_a_block_of_its_own(rt: HostRuntime) {
    let mut buffer = IoBuffer::new(rt.alloc()).expect(&rt, MEMORY);
    let r = buffer.reader().expect(&rt, MEMORY);
    let room = buffer.space();
    assert!(rt; room.len() == 4_096);
    room[4_095] = b'y';
    buffer.produce(4_096);
    let room = buffer.space();
    assert!(rt; !room.is_empty());
    room[0] = b'z';
    buffer.produce(1);
    assert!(rt; buffer.is_reader(r));
    let Some(first) = buffer.block(r, 0) else {
        panic!(rt; "a full block")
    };
    assert!(rt; first.len() == 4_096 && first.last() == Some(&b'y'));
    assert!(rt; buffer.block(r, 1) == Some(b"z".as_slice()) && buffer.block(r, 2).is_none());
}

#[test]
fn the_index_of_a_freed_reader_is_used_again(rt: HostRuntime) {
    let mut buffer = IoBuffer::new(rt.alloc()).expect(&rt, MEMORY);
    let first = buffer.reader().expect(&rt, MEMORY);
    let other = buffer.reader().expect(&rt, MEMORY);
    buffer.write(b"ab").expect(&rt, MEMORY);
    assert!(rt; buffer.is_reader(first));
    buffer.free_reader(first);
    assert!(rt; !buffer.is_reader(first) && buffer.is_reader(other));
    let next = buffer.reader().expect(&rt, MEMORY);
    assert!(rt; next.index == first.index && next.generation > first.generation);
    assert!(rt; !buffer.is_reader(first) && buffer.is_reader(next) && buffer.avail(next) == 2);
}

// A large buffer is read to its end twice; that its memory is given back is measured elsewhere.
#[test]
fn a_buffer_that_was_read_to_its_end_goes_on(rt: HostRuntime) {
    let mut waiting = Waiting::new(rt.alloc()).expect(&rt, MEMORY);
    let bytes = vec![in rt.alloc(); b'x'; 200_000].expect(&rt, MEMORY);
    for _ in 0..2 {
        waiting.write(bytes.as_slice()).expect(&rt, MEMORY);
        let all = waiting.len();
        assert!(rt; all == 200_000);
        waiting.take(all);
        assert!(rt; waiting.is_empty());
    }
}

// Fills the room of the next block, which has so many bytes.
fn fill_room(rt: &(impl AllocGlobal + Abort), buffer: &mut IoBuffer, length: usize) {
    let room = buffer.space();
    assert!(rt; room.len() == length);
    buffer.produce(length);
}

// What a write leaves free of its block is lent; the next block that is lent has 4,096 bytes.
#[test]
fn what_a_write_leaves_free_is_lent(rt: HostRuntime) {
    let mut buffer = IoBuffer::new(rt.alloc()).expect(&rt, MEMORY);
    buffer.write(b"ab").expect(&rt, MEMORY);
    fill_room(&rt, &mut buffer, 254);
    fill_room(&rt, &mut buffer, 4_096);
    fill_room(&rt, &mut buffer, 8_192);
}

// Rooms double from block to block, and begin anew once the memory of the blocks was given back. A buffer
// that holds bytes keeps them.
#[test]
fn an_empty_buffer_gives_its_blocks_back(rt: HostRuntime) {
    let mut buffer = IoBuffer::new(rt.alloc()).expect(&rt, MEMORY);
    let r = buffer.reader().expect(&rt, MEMORY);
    fill_room(&rt, &mut buffer, 4_096);
    fill_room(&rt, &mut buffer, 8_192);
    buffer.give_back();
    assert!(rt; buffer.is_reader(r));
    assert!(rt; buffer.avail(r) == 12_288);
    buffer.consume(r, 12_288);
    fill_room(&rt, &mut buffer, 16_384);
    assert!(rt; buffer.is_reader(r));
    assert!(rt; buffer.avail(r) == 16_384);
    buffer.consume(r, 16_384);
    buffer.give_back();
    fill_room(&rt, &mut buffer, 4_096);
    assert!(rt; buffer.is_reader(r));
    assert!(rt; buffer.avail(r) == 4_096);
}

#[test]
fn bytes_that_wait_stay_when_memory_is_given_back(rt: HostRuntime) {
    let mut waiting = Waiting::new(rt.alloc()).expect(&rt, MEMORY);
    waiting.write(b"ab").expect(&rt, MEMORY);
    waiting.give_back();
    assert!(rt; waiting.block() == Some(b"ab".as_slice()));
    let all = waiting.len();
    waiting.take(all);
    waiting.give_back();
    let empty = waiting.is_empty();
    waiting.write(b"c").expect(&rt, MEMORY);
    assert!(rt; empty && waiting.block() == Some(b"c".as_slice()));
}

#[test]
fn a_reader_is_ready_at_the_water_mark(rt: HostRuntime) {
    let mut buffer = IoBuffer::new(rt.alloc()).expect(&rt, MEMORY);
    let r = buffer.reader().expect(&rt, MEMORY);
    let stranger = ReaderId {
        index: 0,
        generation: 9,
    };
    assert!(rt; buffer.is_reader(r) && !buffer.is_reader(stranger));
    let none = (buffer.water_mark(), buffer.ready(r));
    buffer.set_water_mark(3);
    buffer.write(b"ab").expect(&rt, MEMORY);
    let below = (buffer.water_mark(), buffer.ready(r));
    buffer.write(b"c").expect(&rt, MEMORY);
    assert!(rt; (none, below, buffer.ready(r)) == ((0, false), (3, false), true));
}

#[test]
fn a_body_is_taken_over(rt: HostRuntime) {
    let mut buffer = IoBuffer::of_octets(rt.alloc(), octets(&rt, b"body")).expect(&rt, MEMORY);
    let r = buffer.reader().expect(&rt, MEMORY);
    buffer.write(b"!").expect(&rt, MEMORY);
    assert!(rt; readable(&rt, &buffer, r).as_slice() == b"body!".as_slice());
    let waiting = Waiting::of_octets(rt.alloc(), octets(&rt, b"body")).expect(&rt, MEMORY);
    assert!(rt; waiting.block() == Some(b"body".as_slice()));
}

#[test]
fn bytes_wait_in_order(rt: HostRuntime) {
    let mut waiting = Waiting::new(rt.alloc()).expect(&rt, MEMORY);
    assert!(rt; waiting.is_empty() && waiting.block().is_none());
    waiting.write(b"abcd").expect(&rt, MEMORY);
    assert!(rt; waiting.len() >= 2);
    waiting.take(2);
    let mut front = Vec::new(rt.alloc());
    waiting.gather(1, &mut front).expect(&rt, MEMORY);
    assert!(rt; front.as_slice() == b"c".as_slice());
    assert!(rt; waiting.block() == Some(b"cd".as_slice()));
}
