//! `transform`: how each trouble ends, files that are too long, and long bodies.

use crate::command::{
    MEMORY, Remains, TRANSFORM, failing_sink, left_by, left_in, shelf_with, wide_sink,
};
use crate::comparison::{Comparison, Wanted, compare, done, stopped};
use std::process::Abort;
use std::sync::Wait;
use std::thread::Threads;
use ts_link::OpenGate;

// How a body of `abc` with an append of `XY` goes: the read that fails, how much out takes a call, and the
// writes into out and err that fail, each counted from 1, or 0.
#[derive(Clone, Copy)]
struct Trouble {
    unread: u64,
    take: usize,
    failing: u64,
    untold: u64,
}

const NONE: Trouble = Trouble {
    unread: 0,
    take: 65_536,
    failing: 0,
    untold: 0,
};

// Whether a trouble leaves what it is to leave.
fn ended<R: Abort + AllocGlobal + Threads + Wait + Sync>(
    rt: &R,
    trouble: &Trouble,
    wanted: &Wanted<'_>,
) -> Comparison {
    let config = b"append_transform.so tail.txt".as_slice();
    let mut shelf = shelf_with(rt, &[("c", config), ("tail.txt", b"XY"), ("b", b"abc")]);
    shelf.fail_at(trouble.unread).expect(rt, MEMORY);
    let out = failing_sink(rt, trouble.take, trouble.failing);
    let err = failing_sink(rt, 7, trouble.untold);
    let left = left_in(rt, TRANSFORM, shelf, out, err, &OpenGate::make());
    compare(&left, wanted)
}

// One byte a call, a write that fails, and a line that is not said.
#[test]
fn causes(rt: HostRuntime) {
    let slow = Trouble { take: 1, ..NONE };
    let unwritten = Trouble { failing: 1, ..NONE };
    let untold = Trouble {
        unread: 2,
        untold: 1,
        ..NONE
    };
    let found = (
        ended(&rt, &slow, &done(b"abcXY", 1)),
        ended(&rt, &unwritten, &stopped(6, b"tsx: cannot write\n")),
        ended(&rt, &untold, &stopped(5, b"")),
    );
    let as_stated = Comparison::AsStated;
    assert_eq!(rt; found, (as_stated, as_stated, as_stated));
}

// What `transform` leaves of these files is what is wanted.
fn leaves<R: Abort + AllocGlobal + Threads + Wait + Sync>(
    rt: &R,
    files: &[(&str, &[u8])],
    wanted: &Wanted<'_>,
) -> Comparison {
    let shelf = shelf_with(rt, files);
    let left = left_by(rt, TRANSFORM, shelf, wide_sink(rt), &OpenGate::make());
    compare(&left, wanted)
}

#[test]
fn a_configuration_that_is_too_long(rt: HostRuntime) {
    let long = vec![in rt.alloc(); b'#'; 1_048_577].expect(&rt, MEMORY);
    let files = [("c", long.as_slice()), ("b", b"")];
    let found = leaves(&rt, &files, &stopped(9, b"tsx: too long: c\n"));
    assert_eq!(rt; found, Comparison::AsStated);
}

// So many lines that pass a body on.
fn nulls<R: Abort + AllocGlobal>(rt: &R, lines: usize) -> Vec<u8> {
    let mut config: Vec<u8> = Vec::new(rt.alloc());
    for _ in 0..lines {
        config
            .extend_from_slice(b"null_transform.so\n")
            .expect(rt, MEMORY);
    }
    config
}

// What these lines leave of a body, of which out takes so many bytes a call.
fn left_of<'a, R: Abort + AllocGlobal + Threads + Wait + Sync>(
    rt: &R,
    lines: &'a [u8],
    body: &'a [u8],
    take: usize,
) -> Remains {
    let shelf = shelf_with(rt, &[("c", lines), ("b", body)]);
    let out = failing_sink(rt, take, 0);
    left_by(rt, TRANSFORM, shelf, out, &OpenGate::make())
}

// The turns and the handled events of the first of its journals.
fn counts_of(left: &Remains) -> Option<(u64, u64)> {
    let journal = left.journals.first()?;
    Some((journal.turns(), journal.counts().handled))
}

// How a body of so many bytes comes out of so many lines that pass it on, and the counts of its journal.
fn passed_on<R: Abort + AllocGlobal + Threads + Wait + Sync>(
    rt: &R,
    lines: usize,
    bytes: usize,
    take: usize,
) -> (Comparison, Option<(u64, u64)>) {
    let config = nulls(rt, lines);
    let body = vec![in rt.alloc(); b'x'; bytes].expect(rt, MEMORY);
    let left = left_of(rt, config.as_slice(), body.as_slice(), take);
    (compare(&left, &done(body.as_slice(), 1)), counts_of(&left))
}

// Of two stages and 40,000 bytes the driver begins, then each stage moves two pieces and ends, and in the
// last turn the first stage is told too that its output was written.
#[test]
fn long_bodies(rt: HostRuntime) {
    for (lines, bytes, take) in [(1, 65_537, 1), (16, 1_048_576, 65_536), (2, 40_000, 65_536)] {
        let (comparison, counts) = passed_on(&rt, lines, bytes, take);
        assert_eq!(rt; comparison, Comparison::AsStated, "{lines} lines");
        assert!(rt; lines != 2 || counts == Some((7, 7)));
    }
}
