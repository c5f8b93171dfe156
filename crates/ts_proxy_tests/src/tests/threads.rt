//! What many threads make of a recording: the same report at each of fifty runs, each journal in its place, two
//! handlers beside each other.

use crate::command::{MEMORY, ON_1, ON_2, ON_4, Remains, left_by, replayed, shelf_of, wide_sink};
use crate::comparison::{Comparison, compare, done};
use crate::recording::{Exchange, at_once, in_pieces, recording_of};
use crate::report::{Stated, StatedEnd, report_of};
use crate::row::check_with;
use crate::seats::are_of_two_seats;
use crate::stated::{
    ABC, BAD_CHUNKS, BAD_GATEWAY, BAD_REQUEST, CHUNKED, CUT, GET, HOSTLESS, LESS, NOTHING, PAGE,
    USUAL, in_chunks, paged, passed, unasked,
};
use std::process::Abort;
use std::sync::Wait;
use std::thread::Threads;
use ts_link::MeetGate;

// A byte before a body, and then a pause at each event.
const DELAYED: &[u8] = b"prepend.so <\ndelay.so 20";

// The same, with hook plugins that are asked at each hook and change nothing.
const ASKING: &[u8] = b"denylist.so b c\nprepend.so <\nheader.so request remove x\ndelay.so 20\n\
header.so response remove x\ndenylist.so d";

// Transactions of every kind.
fn mixed() -> [Exchange<'static>; 8] {
    [
        at_once(GET, ABC),
        at_once(b"", ABC),
        at_once(USUAL, PAGE),
        at_once(GET, b""),
        in_pieces(at_once(GET, ABC), 1),
        at_once(HOSTLESS, ABC),
        at_once(GET, CUT),
        at_once(GET, BAD_CHUNKS),
    ]
}

// What is stated of them.
fn of_mixed() -> [Stated<'static>; 8] {
    [
        in_chunks(b"<abc"),
        NOTHING,
        paged(b"<<p>hello</p>\n"),
        passed(BAD_GATEWAY.head, StatedEnd::Whole(BAD_GATEWAY.body)),
        in_chunks(b"<abc"),
        unasked(&BAD_REQUEST),
        passed(CHUNKED, StatedEnd::Cut),
        passed(CHUNKED, StatedEnd::Bad),
    ]
}

// Of fifty runs each writes the same.
#[test]
fn fifty_runs(rt: HostRuntime) {
    for run in 0..50 {
        let found = check_with(&rt, ON_4, ASKING, 4, &mixed(), &of_mixed());
        assert_eq!(rt; found, Comparison::AsStated, "run {run}");
    }
}

// What two equal transactions leave on two threads, whose handlers pass this gate.
fn two_left_by<R: Abort + AllocGlobal + Threads + Wait + Sync>(rt: &R, gate: &MeetGate) -> Remains {
    let twice = [at_once(GET, ABC), at_once(GET, ABC)];
    let recording = recording_of(rt.alloc(), &twice).expect(rt, MEMORY);
    let shelf = shelf_of(rt, LESS, recording.as_slice());
    left_by(rt, ON_2, shelf, wide_sink(rt), gate)
}

// Two equal transactions, each of which waits in its first handler for the other: the first events of the two
// were handled under different seats.
#[test]
fn two_transactions_run_beside_each_other(rt: HostRuntime) {
    let report = report_of(rt.alloc(), &[in_chunks(b"<abc"), in_chunks(b"<abc")]).expect(
        &rt, MEMORY,
    );
    let gate = MeetGate::make(20_000_000);
    let left = two_left_by(&rt, &gate);
    let found = compare(&left, &done(report.as_slice(), 2));
    let seen = (
        gate.met(),
        found,
        are_of_two_seats(left.journals.as_slice()),
    );
    assert_eq!(rt; seen, (true, Comparison::AsStated, true));
}

// Whether a recording leaves three journals, the second of which has handled many events, and the others few.
fn stands_between<R: Abort + AllocGlobal + Threads + Wait + Sync>(
    rt: &R,
    words: &[&str],
    recording: &[u8],
) -> bool {
    let left = replayed(rt, words, DELAYED, recording);
    let [before, between, behind] = left.journals.as_slice() else {
        return false;
    };
    let few = before.counts().handled < 20 && behind.counts().handled < 20;
    few && between.counts().handled > 100
}

// The journal of a transaction that passes many pieces on stands between those of two that do next to
// nothing.
#[test]
fn journals_stand_in_the_order_of_their_transactions(rt: HostRuntime) {
    let drips = in_pieces(at_once(USUAL, PAGE), 1);
    let exchanges = [at_once(b"", b""), drips, at_once(b"", b"")];
    let recording = recording_of(rt.alloc(), &exchanges).expect(&rt, MEMORY);
    for words in [ON_1, ON_4] {
        let found = stands_between(&rt, words, recording.as_slice());
        assert!(rt; found, "at {words:?}");
    }
}
