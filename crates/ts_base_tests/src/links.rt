//! The forms in memory of what the crates stand on: what they give, take and refuse, and clocks and gates.
use crate::memory::{MEMORY, Plan, link, octets};
use std::process::Abort;
use std::thread;
use ts_link::{
    Clock, Gate, Got, Link, MeetGate, MemLink, MemShelf, MemSink, Octets, OpenGate, Piece, Put,
    Shelf, ShelfFault, Sink, Sourced, StepClock, Wrote,
};

#[test]
fn octets_hold_what_they_were_made_of(rt: HostRuntime) {
    let taken = Vec::from_slice(rt.alloc(), b"xy").expect(&rt, MEMORY);
    let copy = octets(&rt, b"abc");
    let taken_over = Octets::of_vec(taken);
    assert!(rt; copy.bytes() == b"abc".as_slice() && taken_over.bytes() == b"xy".as_slice());
    assert!(rt; taken_over.into_vec().as_slice() == b"xy".as_slice());
}

#[test]
fn a_sink_takes_two_bytes_a_call_and_fails_at_the_second(rt: HostRuntime) {
    let failing = vec![in rt.alloc(); 2u64].expect(&rt, MEMORY);
    let mut sink = MemSink::make(rt.alloc(), 2, failing);
    let wrote = [sink.write(b"abc"), sink.write(b"c"), sink.write(b"c")];
    assert!(rt; wrote == [Wrote::Took(2), Wrote::Failed, Wrote::Took(1)]);
    assert!(rt; sink.written() == b"abc".as_slice());
}

// What a read answered: a file's bytes, or a number for its refusal.
fn told(answer: &Result<Octets, ShelfFault>) -> (&[u8], u64) {
    match answer {
        Ok(bytes) => (bytes.bytes(), 0),
        Err(ShelfFault::Failed) => (b"failed".as_slice(), 1),
        Err(ShelfFault::TooLong { seen }) => (b"too long".as_slice(), *seen),
        Err(ShelfFault::NoMemory) => (b"no memory".as_slice(), 1),
    }
}

#[test]
fn a_shelf_gives_the_first_file_of_a_name(rt: HostRuntime) {
    let mut shelf = MemShelf::make(rt.alloc());
    shelf.add("a", b"first").expect(&rt, MEMORY);
    shelf.add("a", b"second").expect(&rt, MEMORY);
    shelf.add("empty", b"").expect(&rt, MEMORY);
    shelf.fail_at(5).expect(&rt, MEMORY);
    let rows: [(&str, u64, &[u8], u64); 6] = [
        ("a", 5, b"first", 0),
        ("a", 4, b"too long", 5),
        ("b", 9, b"failed", 1),
        ("empty", 0, b"", 0),
        ("a", 9, b"failed", 1),
        ("a", 9, b"first", 0),
    ];
    for (name, most, bytes, number) in rows {
        let answer = shelf.read(rt.alloc(), name, most);
        let (text, seen) = told(&answer);
        assert!(rt; text == bytes && seen == number);
    }
}

// Reads into a room of 4 bytes, once for each answer: the first that is another, and what was given.
fn read_on(
    rt: &(impl AllocGlobal + Abort),
    link: &mut MemLink,
    answers: &[Got],
) -> (Option<usize>, Vec<u8>) {
    let mut given = Vec::new(rt.alloc());
    for (row, answer) in answers.iter().enumerate() {
        let mut room = [0u8; 4];
        let got = link.read(&mut room);
        if got != *answer {
            return (Some(row), given);
        }
        if let Got::Bytes(count) = got {
            given.extend_from_slice(&room[..count]).expect(rt, MEMORY);
        }
    }
    (None, given)
}

// What four writes of three bytes answer.
fn write_on(link: &mut MemLink) -> [Put; 4] {
    [
        link.write(b"xyz"),
        link.write(b"xyz"),
        link.write(b"xyz"),
        link.write(b"xyz"),
    ]
}

#[test]
fn a_link_gives_pieces_and_goes_wrong_at_its_calls(rt: HostRuntime) {
    let plan = Plan {
        bytes: b"abcdefgh",
        cuts: &[1, 2],
        most: 2,
        fail_reads: &[2],
        fail_writes: &[2],
        again_reads: &[2, 3],
        again_writes: &[2, 3],
    };
    let mut link = link(&rt, plan);
    link.set_name(7);
    link.known();
    let answers = [
        Got::Bytes(1),
        Got::Failed,
        Got::Again,
        Got::Bytes(2),
        Got::Bytes(4),
        Got::Bytes(1),
        Got::End,
    ];
    let (other, given) = read_on(&rt, &mut link, &answers);
    let puts = write_on(&mut link);
    assert!(rt; other.is_none() && given.as_slice() == b"abcdefgh".as_slice());
    assert!(rt; puts == [Put::Took(2), Put::Failed, Put::Again, Put::Took(2)]);
    let counts = (link.faults(), link.waits());
    assert!(rt; link.written() == b"xyxy".as_slice() && counts == (2, 2));
}

// Pieces with stalls before, between and behind them, of which one is empty.
fn stalled(rt: &(impl AllocGlobal + Abort)) -> Vec<Piece> {
    let pieces = [
        Piece::Stall(0),
        Piece::Bytes(octets(rt, b"abcdef")),
        Piece::Stall(2),
        Piece::Bytes(octets(rt, b"")),
        Piece::Bytes(octets(rt, b"g")),
        Piece::Stall(1),
    ];
    Vec::from_array(rt.alloc(), pieces).expect(rt, MEMORY)
}

#[test]
fn a_link_of_pieces_stalls_and_leaves(rt: HostRuntime) {
    let mut link = MemLink::of_pieces(rt.alloc(), stalled(&rt), Some(5));
    let answers = [
        Got::Bytes(4),
        Got::Bytes(2),
        Got::Again,
        Got::Again,
        Got::Bytes(1),
        Got::Again,
        Got::End,
    ];
    let (other, given) = read_on(&rt, &mut link, &answers);
    let puts = write_on(&mut link);
    assert!(rt; other.is_none() && given.as_slice() == b"abcdefg".as_slice());
    assert!(rt; puts == [Put::Took(3), Put::Took(2), Put::Failed, Put::Failed]);
    let counts = (link.faults(), link.waits());
    assert!(rt; link.written() == b"xyzxy".as_slice() && counts == (2, 3));
}

#[test]
fn a_clock_steps_and_gates_open(rt: HostRuntime) {
    let clock = StepClock::make(5);
    let first = [clock.now(), clock.now()];
    clock.pause(10);
    assert!(rt; (first, clock.now()) == ([5, 6], 17));
    OpenGate::make().enter(0, 0, 1);

    // the one does not come
    let alone = MeetGate::make(3);
    alone.enter(0, 0, 1);
    alone.enter(0, 7, 2);
    alone.enter(0, 1, 3);
    assert!(rt; !alone.met());

    let gate = MeetGate::make(20_000_000);
    thread::join(&rt, || gate.enter(0, 0, 1), || gate.enter(1, 1, 2));
    assert!(rt; gate.met());
}
