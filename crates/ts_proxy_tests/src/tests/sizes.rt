//! Recordings as large as they may be: in transactions, in bytes, and in the pieces of one body.

use crate::command::{
    MEMORY, ON_1, ON_4, ON_64, Remains, failing_sink, left_by, replayed, shelf_of, wide_sink,
};
use crate::comparison::{Comparison, Wanted, compare, done, stopped};
use crate::moments::late_events;
use crate::recording::{MOST_PIECE, at_once, in_pieces, recording_of};
use crate::report::report_of;
use crate::row::check_with;
use crate::stated::{ABC, GET, LESS, in_chunks};
use std::alloc::Global;
use std::process::Abort;
use std::sync::Wait;
use std::thread::Threads;
use ts_link::{NoMemory, OpenGate};

// The most transactions of a recording.
const MOST_TXNS: usize = 4_000;

// The most bytes of a recording.
const MOST_RECORDING: usize = 67_108_864;

const MIB: usize = 1_048_576;

// The head of a response up to the close.
const FRONT: &[u8] = b"HTTP/1.1 200 OK\r\n\r\n";

// The last line of a report.
const DONE: &[u8] = b"done\n";

// So many letters, one after the other.
fn letters(alloc: Global, length: usize) -> Result<Vec<u8>, NoMemory> {
    let mut text = Vec::new(alloc);
    text.reserve(length)?;
    let mut letter = b'a';
    for _ in 0..length {
        text.push(letter)?;
        letter = if letter < b'z' { letter + 1 } else { b'a' };
    }
    Ok(text)
}

// A response whose body is these bytes, up to the close.
fn response_of(alloc: Global, body: &[u8]) -> Result<Vec<u8>, NoMemory> {
    let mut text = Vec::from_slice(alloc, FRONT)?;
    text.extend_from_slice(body)?;
    Ok(text)
}

// As many transactions as there may be, each with a body, on 1, 4 and 64 threads.
#[test]
fn most_transactions(rt: HostRuntime) {
    let exchanges = vec![in rt.alloc(); at_once(GET, ABC); MOST_TXNS].expect(&rt, MEMORY);
    let stated = vec![in rt.alloc(); in_chunks(b"<abc"); MOST_TXNS].expect(&rt, MEMORY);
    for words in [ON_1, ON_4, ON_64] {
        let found = check_with(&rt, words, LESS, 0, exchanges.as_slice(), stated.as_slice());
        assert_eq!(rt; found, Comparison::AsStated, "at {words:?}");
    }
}

// Of as many transactions as there may be, none of which waits for its sides, 4 threads miss none: an
// event of a group that a thread had missed would be handled 10 ms later.
#[test]
fn no_transaction_is_missed(rt: HostRuntime) {
    let exchanges = vec![in rt.alloc(); at_once(GET, ABC); MOST_TXNS].expect(&rt, MEMORY);
    let recording = recording_of(rt.alloc(), exchanges.as_slice()).expect(&rt, MEMORY);
    let left = replayed(&rt, ON_4, LESS, recording.as_slice());
    let late = late_events(left.journals.as_slice());
    assert_eq!(rt; (left.status, left.journals.len(), late), (0, MOST_TXNS, 0));
}

// As many lines as there may be, which pass a body on.
const NULLS: &[u8] = b"null_transform.so\nnull_transform.so\nnull_transform.so\nnull_transform.so\n\
null_transform.so\nnull_transform.so\nnull_transform.so\nnull_transform.so\n\
null_transform.so\nnull_transform.so\nnull_transform.so\nnull_transform.so\n\
null_transform.so\nnull_transform.so\nnull_transform.so\nnull_transform.so\n";

// Whether a body comes through them as it is, where the origin gives it in pieces of so many bytes.
fn pass_on<R: Abort + AllocGlobal + Threads + Wait + Sync>(
    rt: &R,
    body: &[u8],
    piece: usize,
) -> Comparison {
    let response = response_of(rt.alloc(), body).expect(rt, MEMORY);
    let exchange = in_pieces(at_once(GET, response.as_slice()), piece);
    check_with(rt, ON_4, NULLS, 0, &[exchange], &[in_chunks(body)])
}

// A body of 1 MiB, in pieces as large as they may be and in smaller ones, through as many lines as there may
// be.
#[test]
fn a_large_body(rt: HostRuntime) {
    let body = letters(rt.alloc(), MIB).expect(&rt, MEMORY);
    for piece in [MOST_PIECE, 1_000] {
        let found = pass_on(&rt, body.as_slice(), piece);
        assert_eq!(rt; found, Comparison::AsStated, "pieces of {piece}");
    }
}

// What is left of five transactions with this body, where the second write into out fails.
fn left_of_five<R: Abort + AllocGlobal + Threads + Wait + Sync>(rt: &R, body: &[u8]) -> Remains {
    let response = response_of(rt.alloc(), body).expect(rt, MEMORY);
    let five = [at_once(GET, response.as_slice()); 5];
    let recording = recording_of(rt.alloc(), &five).expect(rt, MEMORY);
    let shelf = shelf_of(rt, b"", recording.as_slice());
    left_by(
        rt,
        ON_4,
        shelf,
        failing_sink(rt, usize::MAX, 2),
        &OpenGate::make(),
    )
}

// A report goes out whenever 64 KiB of it are there. The lines on three of these bodies come to more:
// where the next write fails, they stand on out, and no other.
#[test]
fn a_report_in_two_writes(rt: HostRuntime) {
    let body = letters(rt.alloc(), 30_000).expect(&rt, MEMORY);
    let three = report_of(rt.alloc(), &[in_chunks(body.as_slice()); 3]).expect(&rt, MEMORY);
    let left = left_of_five(&rt, body.as_slice());
    let front = left.out.written();
    let wanted = Wanted {
        out: front,
        ..stopped(6, b"tsx: cannot write\n")
    };
    let seen = (compare(&left, &wanted), front.len() + DONE.len());
    assert_eq!(rt; seen, (Comparison::AsStated, three.len()));
    assert!(rt; three.as_slice().starts_with(front));
}

// Bodies that fill a recording to its last byte: so many equal ones, and a last one.
const EQUAL: usize = 63;

const EQUAL_BODY: usize = 1_048_557;

const LAST_BODY: usize = 1_016_794;

// The recording of these responses: equal ones, and the last.
fn recording_with(alloc: Global, response: &[u8], last: &[u8]) -> Result<Vec<u8>, NoMemory> {
    let mut exchanges = vec![in alloc; at_once(GET, response); EQUAL]?;
    exchanges.push(at_once(GET, last))?;
    recording_of(alloc, exchanges.as_slice())
}

// The recording of responses with these bodies.
fn filled_recording(alloc: Global, body: &[u8], last: &[u8]) -> Result<Vec<u8>, NoMemory> {
    let response = response_of(alloc, body)?;
    let last = response_of(alloc, last)?;
    recording_with(alloc, response.as_slice(), last.as_slice())
}

// What replaying responses with these bodies leaves on 4 threads, where the recording is as long as it may
// be, or one byte longer.
fn filled<R: Abort + AllocGlobal + Threads + Wait + Sync>(
    rt: &R,
    body: &[u8],
    last: &[u8],
) -> Remains {
    let recording = filled_recording(rt.alloc(), body, last).expect(rt, MEMORY);
    let full = MOST_RECORDING.saturating_add(last.len());
    assert_eq!(rt; recording.len().saturating_add(LAST_BODY), full);
    let shelf = shelf_of(rt, b"null_transform.so", recording.as_slice());
    left_by(rt, ON_4, shelf, wide_sink(rt), &OpenGate::make())
}

// The report on them.
fn filled_report(alloc: Global, body: &[u8], last: &[u8]) -> Result<Vec<u8>, NoMemory> {
    let mut all = vec![in alloc; in_chunks(body); EQUAL]?;
    all.push(in_chunks(last))?;
    report_of(alloc, all.as_slice())
}

// As many bytes as there may be.
#[test]
fn most_bytes(rt: HostRuntime) {
    let alloc = rt.alloc();
    let body = letters(alloc, EQUAL_BODY).expect(&rt, MEMORY);
    let last = letters(alloc, LAST_BODY).expect(&rt, MEMORY);
    let report = filled_report(alloc, body.as_slice(), last.as_slice()).expect(&rt, MEMORY);
    let left = filled(&rt, body.as_slice(), last.as_slice());
    let wanted = done(report.as_slice(), EQUAL + 1);
    assert_eq!(rt; compare(&left, &wanted), Comparison::AsStated);
}

// One byte more is refused by the length of its file.
#[test]
fn one_byte_too_many(rt: HostRuntime) {
    let alloc = rt.alloc();
    let body = letters(alloc, EQUAL_BODY).expect(&rt, MEMORY);
    let last = letters(alloc, LAST_BODY + 1).expect(&rt, MEMORY);
    let left = filled(&rt, body.as_slice(), last.as_slice());
    let wanted = stopped(9, b"tsx: too long: r\n");
    assert_eq!(rt; compare(&left, &wanted), Comparison::AsStated);
}
