//! The two sides of a recorded transaction as links.
use std::process::Abort;
use ts_link::{Got, Link, Octets, Piece, Put, Sourced};
use ts_record::RecordedLink;
use ts_upstream::{Uploaded, Upstream};

/// Why a test has no outcome.
const MEMORY: &str = "memory lacks";

/// A piece of these bytes.
fn bytes(rt: &(impl AllocGlobal + Abort), bytes: &[u8]) -> Piece {
    Piece::Bytes(Octets::copy_of(rt.alloc(), bytes).expect(rt, MEMORY))
}

/// A side of a recorded transaction that gives these two pieces, and never leaves.
fn side(rt: &(impl AllocGlobal + Abort), first: &[u8], second: &[u8]) -> RecordedLink {
    let pieces = [bytes(rt, first), bytes(rt, second)];
    let pieces = Vec::from_array(rt.alloc(), pieces).expect(rt, MEMORY);
    RecordedLink::make(rt.alloc(), pieces, None)
}

/// What a read into a room of two zeros answers, and the room after it.
fn read_two(side: &mut RecordedLink) -> (Got, [u8; 2]) {
    let mut room = [0u8; 2];
    (side.read(&mut room), room)
}

#[test]
fn a_side_gives_its_pieces_and_then_its_end(rt: HostRuntime) {
    let mut side = side(&rt, b"ab", b"cde");
    let rows = [
        (Got::Bytes(2), *b"ab"),
        (Got::Bytes(2), *b"cd"),
        (Got::Bytes(1), *b"e\0"),
        (Got::End, *b"\0\0"),
        (Got::End, *b"\0\0"),
    ];
    for row in rows {
        assert_eq!(rt; read_two(&mut side), row);
    }
    assert_eq!(rt; side.faults(), 0);
    side.known();
}

#[test]
fn a_side_keeps_what_it_takes(rt: HostRuntime) {
    let mut side = side(&rt, b"", b"x");
    let empty = side.written().is_empty();
    let took = [side.write(b"GET / "), side.write(b"HTTP/1.1")];
    assert_eq!(rt; (empty, took), (true, [Put::Took(6), Put::Took(8)]));
    let seen = (side.written(), side.faults(), side.leaves());
    assert_eq!(rt; seen, (b"GET / HTTP/1.1".as_slice(), 0, false));
}

#[test]
fn a_side_waits_at_its_stalls(rt: HostRuntime) {
    let pieces = [Piece::Stall(2), bytes(&rt, b"ab"), Piece::Stall(1)];
    let pieces = Vec::from_array(rt.alloc(), pieces).expect(&rt, MEMORY);
    let mut side = RecordedLink::make(rt.alloc(), pieces, None);
    let rows = [Got::Again, Got::Again, Got::Bytes(2), Got::Again, Got::End];
    for answer in rows {
        assert_eq!(rt; side.read(&mut [0; 4]), answer);
    }
    assert_eq!(rt; side.faults(), 0);
    side.known();
}

#[test]
fn a_side_that_leaves_takes_so_many_bytes(rt: HostRuntime) {
    let mut side = RecordedLink::make(rt.alloc(), Vec::new(rt.alloc()), Some(9));
    let took = [side.write(b"HTTP/1"), side.write(b".1 200 OK")];
    let before = side.faults();
    let late = [side.write(b"200 OK"), side.write(b"OK")];
    assert_eq!(rt; (took, before), ([Put::Took(6), Put::Took(3)], 0));
    assert_eq!(rt; (late, side.faults()), ([Put::Failed, Put::Failed], 2));
    assert_eq!(rt;
        (side.leaves(), side.written()),
        (true, b"HTTP/1.1 ".as_slice())
    );
}

#[test]
fn a_side_moves_no_upload(rt: HostRuntime) {
    let mut client = side(&rt, b"GET / HTTP/1.1\r\n\r\n", b"upload");
    let mut origin = side(&rt, b"", b"");
    let uploaded = origin.upload(&mut client);
    let came = client.read(&mut [0; 32]);
    assert_eq!(rt; (uploaded, came), (Uploaded::Done, Got::Bytes(18)));
    assert!(rt; origin.written().is_empty());
}
