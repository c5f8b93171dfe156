//! Recordings of as many transactions as there may be, and what a recording tells.
ghost use Rattle.ts_record.specs.Grammar.{KeepsLimits};

use std::process::Abort;
use ts_link::Piece;
use ts_record::{Recording, RecordingRefusal, print_recording, read_recording};

/// Why a test has no outcome.
const MEMORY: &str = "memory lacks";

/// What a test says whose recording has another number of transactions.
const ONE: &str = "one transaction";

/// A recording of so many transactions without pieces.
fn with_transactions(rt: &(impl AllocGlobal + Abort), count: usize) -> Vec<u8> {
    let mut text = Vec::from_slice(rt.alloc(), b"tsx-recording 1\n").expect(rt, MEMORY);
    for _ in 0..count {
        text.extend_from_slice(b"txn\nclose\n").expect(rt, MEMORY);
    }
    text.extend_from_slice(b"end\n").expect(rt, MEMORY);
    text
}

/// What comes of a recording: it is printed as it stands, or refused at this offset.
#[derive(Clone, Copy, Debug, PartialEq, Eq)]
enum Read {
    Same,
    Other,
    Refused(u64),
}

/// Whether printing gives these bytes back.
fn is_printed_back(rt: &(impl AllocGlobal + Abort), recording: &Recording, bytes: &[u8]) -> bool
    requires { KeepsLimits recording.now }
{
    let printed = print_recording(rt.alloc(), recording).expect(rt, MEMORY);
    printed.bytes() == bytes
}

/// What comes of a recording of so many transactions.
fn outcome(rt: &(impl AllocGlobal + Abort), count: usize) -> Read {
    let text = with_transactions(rt, count);
    match read_recording(rt.alloc(), text.as_slice()) {
        Ok(recording) => {
            if is_printed_back(rt, &recording, text.as_slice()) {
                Read::Same
            } else {
                Read::Other
            }
        }
        Err(RecordingRefusal::Fault { offset }) => Read::Refused(offset),
        Err(RecordingRefusal::NoMemory) => panic!(rt; "{}", MEMORY),
    }
}

#[test]
fn most_transactions(rt: HostRuntime) {
    let seen = [outcome(&rt, 4_000), outcome(&rt, 4_001)];
    assert_eq!(rt; seen, [Read::Same, Read::Refused(40_016)]);
}

/// What is sent, or how many reads wait, at a piece or stall; nothing where there is none.
fn shown(piece: Option<&Piece>) -> (&[u8], u32) {
    match piece {
        Some(Piece::Bytes(bytes)) => (bytes.bytes(), 0),
        Some(Piece::Stall(reads)) => (b"", *reads),
        None => (b"", 0),
    }
}

#[test]
fn a_recording_tells_its_pieces(rt: HostRuntime) {
    let text = b"tsx-recording 1\ntxn\nclient 1\na\nclient 2\nbc\norigin 3\nx\ny\nclose\nend\n";
    let recording = read_recording(rt.alloc(), text).expect(&rt, MEMORY);
    let [txn] = recording.txns.as_slice() else {
        panic!(rt; "{}", ONE)
    };
    let counts = (
        recording.version,
        txn.client.len(),
        txn.origin.len(),
        txn.leave,
    );
    assert_eq!(rt; counts, (1, 2, 1, None));
    assert_eq!(rt; shown(txn.client.get(1)), (b"bc".as_slice(), 0));
    assert_eq!(rt; shown(txn.origin.get(0)), (b"x\ny".as_slice(), 0));
}

/// The recording of an exchange whose origin stalls for three reads, and whose client takes ten bytes.
const LEFT: &[u8] = b"tsx-recording 2\ntxn\nclient 27\nGET / HTTP/1.1\r\nHost: a\r\n\r\n\n\
origin-stall 3\norigin 41\nHTTP/1.1 200 OK\r\nContent-Length: 3\r\n\r\nabc\n\
leave 10\nclose\nend\n";

#[test]
fn a_recording_tells_its_stalls_and_when_its_client_leaves(rt: HostRuntime) {
    let recording = read_recording(rt.alloc(), LEFT).expect(&rt, MEMORY);
    let [txn] = recording.txns.as_slice() else {
        panic!(rt; "{}", ONE)
    };
    let counts = (
        recording.version,
        txn.client.len(),
        txn.origin.len(),
        txn.leave,
    );
    assert_eq!(rt; counts, (2, 1, 2, Some(10)));
    assert_eq!(rt; shown(txn.origin.get(0)), (b"".as_slice(), 3));
}
