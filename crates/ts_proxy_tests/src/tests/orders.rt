//! Files that are too long, reads and writes that fail by their numbers, and recordings that stop anywhere.

use crate::command::{MEMORY, ON_2, ON_8, REPLAY, failing_sink, left_by, shelf_of, shelf_with};
use crate::comparison::{Comparison, Wanted, compare, stopped};
use crate::recording::{at_once, recording_of};
use crate::report::report_of;
use crate::row::compared;
use crate::stated::{ABC, APPEND, GET, LESS, in_chunks};
use std::process::Abort;
use std::sync::Wait;
use std::thread::Threads;
use ts_link::{MemShelf, OpenGate};

// Whether a command comes to no report over this shelf, but to this status, with this line.
fn ended<R: Abort + AllocGlobal + Threads + Wait + Sync>(
    rt: &R,
    shelf: MemShelf,
    status: u8,
    line: &[u8],
) -> Comparison {
    let out = failing_sink(rt, 1, 1);
    let left = left_by(rt, ON_2, shelf, out, &OpenGate::make());
    compare(&left, &stopped(status, line))
}

#[test]
fn files_that_are_too_long(rt: HostRuntime) {
    let text = vec![in rt.alloc(); b'#'; 1_048_577].expect(&rt, MEMORY);
    let text = text.as_slice();
    let config = ended(
        &rt,
        shelf_with(&rt, &[("c", text)]),
        9,
        b"tsx: too long: c\n",
    );
    let files = [("c", APPEND), ("f", text)];
    let file = ended(&rt, shelf_with(&rt, &files), 9, b"tsx: too long: f\n");
    assert_eq!(rt;
        (config, file),
        (Comparison::AsStated, Comparison::AsStated)
    );
}

// A shelf whose read of this number fails, counted from 1.
fn failing_shelf<R: Abort + AllocGlobal>(rt: &R, recording: &[u8], read: u64) -> MemShelf {
    let mut shelf = shelf_of(rt, APPEND, recording);
    shelf.fail_at(read).expect(rt, MEMORY);
    shelf
}

// A read that fails is told by the name of its file.
#[test]
fn reads_that_fail(rt: HostRuntime) {
    let recording = recording_of(rt.alloc(), &[at_once(GET, ABC)]).expect(&rt, MEMORY);
    let lines: [&[u8]; 3] = [
        b"tsx: cannot read c\n",
        b"tsx: cannot read f\n",
        b"tsx: cannot read r\n",
    ];
    for (place, line) in lines.iter().enumerate() {
        let shelf = failing_shelf(&rt, recording.as_slice(), place as u64 + 1);
        assert_eq!(rt;
            ended(&rt, shelf, 5, line),
            Comparison::AsStated,
            "read {place}"
        );
    }
}

// How many bytes are written before the write of this number fails, if all is as stated and they are a
// front of the report.
fn written_before<R: Abort + AllocGlobal + Threads + Wait + Sync>(
    rt: &R,
    recording: &[u8],
    call: u64,
    report: &[u8],
) -> Option<usize> {
    let shelf = shelf_of(rt, LESS, recording);
    let out = failing_sink(rt, 10, call);
    let left = left_by(rt, REPLAY, shelf, out, &OpenGate::make());
    let front = left.out.written();
    let wanted = Wanted {
        out: front,
        ..stopped(6, b"tsx: cannot write\n")
    };
    if compare(&left, &wanted) != Comparison::AsStated || !report.starts_with(front) {
        return None;
    }
    Some(front.len())
}

// What is written before a write that fails is a front of the report.
#[test]
fn writes_that_fail(rt: HostRuntime) {
    let recording = recording_of(rt.alloc(), &[at_once(GET, ABC)]).expect(&rt, MEMORY);
    let report = report_of(rt.alloc(), &[in_chunks(b"<abc")]).expect(&rt, MEMORY);
    for call in 1..22 {
        let found = written_before(&rt, recording.as_slice(), call as u64, report.as_slice());
        assert_eq!(rt; found, Some(10 * call - 10), "call {call}");
    }
}

// A recording of each version.
const WHOLE: [&[u8]; 2] = [
    b"tsx-recording 1\ntxn\nclient 27\nGET / HTTP/1.1\r\nHost: a\r\n\r\n\n\
origin 41\nHTTP/1.1 200 OK\r\nContent-Length: 3\r\n\r\nabc\nclose\nend\n",
    b"tsx-recording 2\ntxn\nclient 27\nGET / HTTP/1.1\r\nHost: a\r\n\r\n\n\
origin-stall 3\norigin 41\nHTTP/1.1 200 OK\r\nContent-Length: 3\r\n\r\nabc\nleave 10\nclose\nend\n",
];

// Whether a front of a recording is refused where it ends, on one thread and on eight.
fn stops<R: Abort + AllocGlobal + Threads + Wait + Sync>(
    rt: &R,
    front: &[u8],
) -> (Comparison, Comparison) {
    let offset = front.len();
    let line = format!(in rt.alloc(); "tsx: recording offset {offset}\n").expect(rt, MEMORY);
    let wanted = stopped(4, line.as_bytes());
    let one = compared(rt, REPLAY, LESS, front, &wanted);
    (one, compared(rt, ON_8, LESS, front, &wanted))
}

#[test]
fn fronts_of_recordings(rt: HostRuntime) {
    for whole in WHOLE {
        for length in 0..whole.len() {
            let found = stops(&rt, whole.split_at(length).0);
            let both = (Comparison::AsStated, Comparison::AsStated);
            assert_eq!(rt; found, both, "front {length}");
        }
    }
}
