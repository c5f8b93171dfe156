//! Several requests on one connection, one behind the other.
ghost use Rattle.std.specs.Prelude.{◌≤◌};
ghost use Rattle.ts_session.specs.Reading.{IsUnread};

use crate::memory::{MEMORY, Pace, client, read_all, write_all};
use std::process::Abort;
use ts_link::MemLink;
use ts_session::{Polled, Span};

const GET: &[u8] = b"GET / HTTP/1.1\r\nHost: a\r\n\r\n";

const ANSWER: &[u8] =
    b"HTTP/1.1 200 OK\r\nvia: 1.1 tsx\r\ncontent-length: 3\r\nconnection: close\r\n\r\nabc";

const KEPT: &[u8] = b"HTTP/1.1 200 OK\r\nvia: 1.1 tsx\r\ncontent-length: 3\r\n\r\nabc";

// So many requests in one piece.
fn requests(rt: &(impl AllocGlobal + Abort), request: &[u8], count: usize) -> Vec<u8> {
    let mut bytes = Vec::new(rt.alloc());
    for _ in 0..count {
        bytes.extend_from_slice(request).expect(rt, MEMORY);
    }
    bytes
}

// What came of a connection: how many requests it carried, how many bytes they had, and how many bytes the client
// took.
#[derive(Clone, Copy, PartialEq, Eq)]
struct Carried {
    requests: usize,
    bytes: usize,
    taken: usize,
}

// Polls until the next request is there, or the client has ended or failed.
fn wait(span: &mut Span<MemLink>) -> Polled
    requires { IsUnread span.old.request }
{
    'polls: for _ in 0..u64::MAX {
        match span.poll() {
            Polled::Again => {}
            Polled::Some => return Polled::Some,
            Polled::End => return Polled::End,
            Polled::Failed => return Polled::Failed,
        }
    }
    Polled::Failed
}

// Carries a connection to its end: answers each request, in pieces of at most `piece` bytes, and waits for the
// next one where the connection may go on.
fn carry(rt: &(impl AllocGlobal + Abort), input: &[u8], pace: Pace, piece: usize) -> Carried
    requires { 1 ≤ pace.most }
{
    let mut span = Span::<MemLink>::make(rt.alloc(), client(rt, input, pace)).expect(rt, MEMORY);
    let mut requests: usize = 0;
    let mut bytes: usize = 0;
    'requests: for _ in 0..u64::MAX {
        requests = requests.saturating_add(1);
        bytes = bytes.saturating_add(read_all(rt, &mut span).len());
        let _left = write_all(&mut span, ANSWER, piece);
        if !span.may_continue() {
            break 'requests;
        }
        span = span.next();
        if wait(&mut span) != Polled::Some {
            break 'requests;
        }
    }
    Carried {
        requests,
        bytes,
        taken: span.into_client().written().len(),
    }
}

// A client whose calls of either kind wait at these numbers, gives in pieces of so many bytes and takes so many a
// write.
fn paced(piece: u32, most: usize) -> Pace<'static>
    requires { 1 ≤ most }
    ensures { 1 ≤ result.most }
{
    Pace {
        piece,
        most,
        again: &[1, 3, 4, 9, 30, 58],
    }
}

#[test]
fn two_requests_of_one_piece_are_carried_one_behind_the_other(rt: HostRuntime) {
    let input = requests(&rt, GET, 2);
    let wanted = Carried {
        requests: 2,
        bytes: 54,
        taken: 110,
    };
    for (piece, most) in [(54u32, 100usize), (1, 1), (20, 20), (27, 55)] {
        for part in [4096usize, 1, 2, 17, 19, 40, 53, 54, 55, 71, 72] {
            let got = carry(&rt, &input, paced(piece, most), part);
            assert!(&rt;
                got == wanted,
                "in pieces of {piece}, {most} a write, parts of {part}"
            );
        }
    }
}

// A request whose body comes in chunks, with a trailer field.
const POST: &[u8] =
    b"POST / HTTP/1.1\r\nHost: a\r\nTransfer-Encoding: chunked\r\n\r\n3\r\nabc\r\n0\r\nx-a: 1\r\n\r\n";

#[test]
fn requests_are_carried_behind_bodies_in_chunks(rt: HostRuntime) {
    let mut input = requests(&rt, POST, 2);
    input.extend_from_slice(GET).expect(&rt, MEMORY);
    input.extend_from_slice(POST).expect(&rt, MEMORY);
    let wanted = Carried {
        requests: 4,
        bytes: 258,
        taken: 220,
    };
    for (piece, most) in [(1_000u32, 100usize), (1, 1), (20, 20), (77, 55), (78, 74)] {
        for part in [4096usize, 1, 19, 54, 71] {
            let got = carry(&rt, &input, paced(piece, most), part);
            assert!(&rt;
                got == wanted,
                "in pieces of {piece}, {most} a write, parts of {part}"
            );
        }
    }
}

#[test]
fn a_session_carries_1000_requests(rt: HostRuntime) {
    let input = requests(&rt, GET, 1_001);
    let wanted = Carried {
        requests: 1_000,
        bytes: 27_000,
        taken: 999 * 55 + 74,
    };
    let got = carry(&rt, &input, paced(1_000_000, 1_000_000), 4096);
    assert!(&rt; got == wanted);
}

#[test]
fn the_client_takes_what_is_kept_of_each_answer(rt: HostRuntime) {
    let input = requests(&rt, GET, 2);
    let mut first = Span::<MemLink>::make(rt.alloc(), client(&rt, &input, paced(54, 100))).expect(
        &rt, MEMORY,
    );
    let given = read_all(&rt, &mut first);
    assert!(&rt; given.as_slice() == GET && write_all(&mut first, ANSWER, 4096) == 0);
    assert!(&rt; first.may_continue());
    let mut second = first.next();
    assert!(&rt; second.poll() == Polled::Some);
    let behind = read_all(&rt, &mut second);
    assert!(&rt; behind.as_slice() == GET && write_all(&mut second, ANSWER, 4096) == 0);
    let wanted = requests(&rt, KEPT, 2);
    assert!(&rt; second.into_client().written() == wanted.as_slice());
}
