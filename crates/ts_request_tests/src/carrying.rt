//! Requests that a carrier brings to an origin in memory: what came of each, and what the origin took.
ghost use Rattle.std.specs.Prelude.{◌≡◌, ◌≤◌, []};
ghost use Rattle.ts_link.specs.MemLink.{look_of};

use crate::rows::MEMORY;
use std::process::Abort;
use std::sync::Arc;
use ts_config::read_config;
use ts_link::{Got, Link, MemLink, Octets, Put};
use ts_request::{Carrier, Front, delivered, paired};
use ts_stock::Stock;
use ts_upstream::{Uploaded, Upstream};

// No upload here takes so many calls.
const MOST_CALLS: usize = 400;

// A request with the request lines under which it is carried, as its client's bytes come, what comes of it,
// and what its origin gets.
#[derive(Clone, Copy)]
struct Row {
    lines: &'static [u8],
    client: &'static [u8],
    answer: Uploaded,
    taken: &'static [u8],
}

/// A link that gives these bytes in pieces of so many, and takes at most so many a write.
pub(crate) fn giving(
    rt: &(impl AllocGlobal + Abort),
    bytes: &[u8],
    piece: u32,
    take: usize,
) -> MemLink
    requires { 1 ≤ take }
    ensures given { (look_of result).given ≡ [] }
    ensures taken { (look_of result).taken ≡ [] }
{
    let mut cuts = Vec::new(rt.alloc());
    for _ in 0..bytes.len() {
        cuts.push(piece).expect(rt, MEMORY);
    }
    MemLink::make(
        rt.alloc(),
        Octets::copy_of(rt.alloc(), bytes).expect(rt, MEMORY),
        cuts,
        take,
        Vec::new(rt.alloc()),
        Vec::new(rt.alloc()),
        Vec::new(rt.alloc()),
        Vec::new(rt.alloc()),
    )
}

// Writes what the front shows to the carrier, and tells whether all of it was taken.
fn send_head<F: Link, U: Upstream<F>>(front: &mut F, carrier: &mut U) -> bool
    requires { U.paired front.old carrier.old }
    ensures { U.paired front.new carrier.new }
{
    let mut room = [0u8; 64];
    'reads: for _ in 0..MOST_CALLS {
        let count = match front.read(&mut room) {
            Got::Bytes(count) => count,
            Got::End => return true,
            Got::Again => return false,
            Got::Failed => return false,
        };
        let Put::Took(_) = carrier.write(&room[..count]) else {
            return false;
        };
    }
    false
}

// Moves the upload, and tells what came of it.
fn move_all<F: Link, U: Upstream<F>>(front: &mut F, carrier: &mut U) -> Uploaded
    requires { U.paired front.old carrier.old }
    ensures { U.paired front.new carrier.new }
{
    'uploads: for _ in 0..MOST_CALLS {
        let answer = carrier.upload(front);
        if answer != Uploaded::More {
            return answer;
        }
    }
    Uploaded::More
}

// Holds what comes of a row, and what its origin gets, against what is wanted.
fn check_row(rt: &(impl AllocGlobal + Abort), row: &Row, piece: u32, take: usize)
    requires { 1 ≤ take }
{
    let setup = read_config(rt.alloc(), row.lines).expect(rt, MEMORY);
    let shared = Arc::new(rt.alloc(), setup).expect(rt, MEMORY);
    let client = giving(rt, row.client, piece, 1);
    let origin = giving(rt, b"", 1, take);
    let mut front = Front::make(rt.alloc(), client).expect(rt, MEMORY);
    let mut carrier: Carrier<MemLink, Stock> = Carrier::make(rt.alloc(), origin, shared).expect(
        rt, MEMORY,
    );
    paired(&front, &carrier);
    assert!(rt; send_head(&mut front, &mut carrier));
    let answer = move_all(&mut front, &mut carrier);
    delivered(&front, &carrier);
    assert!(rt; answer == row.answer);
    assert!(rt; carrier.origin().written() == row.taken);
    assert!(rt; carrier.read(&mut [0u8; 4]) == Got::End && carrier.faults() == 0);
    let inside = carrier.into_origin();
    assert!(rt; inside.written() == row.taken);
}

// Whatever the pieces are in which the client gives its bytes.
const ROWS: [Row; 3] = [
    // A length, and no line.
    Row {
        lines: b"",
        client: b"POST / HTTP/1.1\r\nHost: a\r\nContent-Length: 3\r\n\r\nabc",
        answer: Uploaded::Done,
        taken: b"POST / HTTP/1.1\r\nHost: a\r\ncontent-length: 3\r\n\r\nabc",
    },
    // No body.
    Row {
        lines: b"request.so prepend.so <\n",
        client: b"GET / HTTP/1.1\r\nHost: a\r\n\r\n",
        answer: Uploaded::Done,
        taken: b"GET / HTTP/1.1\r\nHost: a\r\n\r\n",
    },
    // A body that is cut.
    Row {
        lines: b"",
        client: b"POST / HTTP/1.1\r\nHost: a\r\nContent-Length: 3\r\n\r\nab",
        answer: Uploaded::Refused,
        taken: b"POST / HTTP/1.1\r\nHost: a\r\ncontent-length: 3\r\n\r\nab",
    },
];

// Where each piece is framed as it comes, of a client that gives all of it at once.
const WHOLE_ROWS: [Row; 5] = [
    // The same, with a line that puts a byte first.
    Row {
        lines: b"request.so prepend.so <\n",
        client: b"POST / HTTP/1.1\r\nHost: a\r\nContent-Length: 3\r\n\r\nabc",
        answer: Uploaded::Done,
        taken: b"POST / HTTP/1.1\r\nHost: a\r\ntransfer-encoding: chunked\r\n\r\n4\r\n<abc\r\n0\r\n\r\n",
    },
    // Two lines, of which the first acts first.
    Row {
        lines: b"request.so prepend.so 1\nrequest.so prepend.so 2\n",
        client: b"POST / HTTP/1.1\r\nHost: a\r\nContent-Length: 1\r\n\r\nx",
        answer: Uploaded::Done,
        taken: b"POST / HTTP/1.1\r\nHost: a\r\ntransfer-encoding: chunked\r\n\r\n3\r\n21x\r\n0\r\n\r\n",
    },
    // Chunks, cut within the head and within a chunk line.
    Row {
        lines: b"",
        client: b"PUT / HTTP/1.1\r\nHost: a\r\nTransfer-Encoding: chunked\r\n\r\n3\r\nabc\r\n0\r\n\r\n",
        answer: Uploaded::Done,
        taken: b"PUT / HTTP/1.1\r\nHost: a\r\ntransfer-encoding: chunked\r\n\r\n3\r\nabc\r\n0\r\n\r\n",
    },
    // A limit, which finishes though the body is cut.
    Row {
        lines: b"request.so limit.so 2\n",
        client: b"POST / HTTP/1.1\r\nHost: a\r\nContent-Length: 9\r\n\r\nabc",
        answer: Uploaded::Done,
        taken: b"POST / HTTP/1.1\r\nHost: a\r\ntransfer-encoding: chunked\r\n\r\n2\r\nab\r\n0\r\n\r\n",
    },
    // A chunk that is not followed by CR LF.
    Row {
        lines: b"",
        client: b"PUT / HTTP/1.1\r\nHost: a\r\nTransfer-Encoding: chunked\r\n\r\n1\r\nab\r\n",
        answer: Uploaded::Refused,
        taken: b"PUT / HTTP/1.1\r\nHost: a\r\ntransfer-encoding: chunked\r\n\r\n1\r\na\r\n",
    },
];

#[test]
fn a_request_is_carried_with_its_framing_line_and_its_body(rt: HostRuntime) {
    for row in &ROWS {
        for piece in [1, 5, 1000] {
            check_row(&rt, row, piece, 4);
        }
    }
    for row in &WHOLE_ROWS {
        check_row(&rt, row, 1000, 1000);
    }
}
