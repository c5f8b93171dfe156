//! One request and its answer: how many bytes a span gives of what its client has, how many the client takes of the
//! answer, and whether the connection may go on.
ghost use Rattle.std.specs.Prelude.{◌≤◌};

use crate::memory::{AT_ONCE, MEMORY, Pace, client, read_all, write_all};
use std::process::Abort;
use ts_link::MemLink;
use ts_session::Span;

const GET: &[u8] = b"GET / HTTP/1.1\r\nHost: a\r\n\r\n";

const HEAD: &[u8] = b"HEAD / HTTP/1.1\r\nHost: a\r\n\r\n";

/// An answer whose body has a length.
pub const SIZED: &[u8] =
    b"HTTP/1.1 200 OK\r\nvia: 1.1 tsx\r\ncontent-length: 3\r\nconnection: close\r\n\r\nabc";

// One that ends where the connection does.
const OPEN: &[u8] = b"HTTP/1.1 200 OK\r\nvia: 1.1 tsx\r\nconnection: close\r\n\r\n";

/// What a client gives and what it is answered; how many bytes the span gives, how many the client takes, and
/// whether the connection may go on.
pub type Case = (&'static [u8], &'static [u8], usize, usize, bool);

/// What came of a case, where the answer is written in pieces of at most `piece` bytes: how many bytes the span gave,
/// how many the client took, and whether the connection may go on.
pub fn outcome(
    rt: &(impl AllocGlobal + Abort),
    case: &Case,
    pace: Pace,
    piece: usize,
) -> (usize, usize, bool)
    requires { 1 ≤ pace.most }
{
    let link = client(rt, case.0, pace);
    let mut span = Span::<MemLink>::make(rt.alloc(), link).expect(rt, MEMORY);
    let gives = read_all(rt, &mut span).len();
    let _left = write_all(&mut span, case.1, piece);
    let goes_on = span.may_continue();
    (gives, span.into_client().written().len(), goes_on)
}

const CASES: &[Case] = &[
    (GET, SIZED, 27, 55, true),
    (
        b"GET / HTTP/1.1\r\nHost: a\r\n\r\nGET / HTTP/1.1\r\nHost: a\r\n\r\n",
        SIZED,
        27,
        55,
        true,
    ),
    // what the client says of the connection
    (
        b"GET / HTTP/1.1\r\nHost: a\r\nConnection: close\r\n\r\n",
        SIZED,
        46,
        74,
        false,
    ),
    (
        b"GET / HTTP/1.1\r\nHost: a\r\nConnection: a, cLOSE ,b\r\n\r\n",
        SIZED,
        52,
        74,
        false,
    ),
    (
        b"GET / HTTP/1.1\r\nHost: a\r\nConnection: closed\r\n\r\n",
        SIZED,
        47,
        55,
        true,
    ),
    (b"GET / HTTP/1.0\r\nHost: a\r\n\r\n", SIZED, 27, 74, false),
    (
        b"GET / HTTP/1.0\r\nHost: a\r\nConnection: keep-alive\r\n\r\n",
        SIZED,
        51,
        74,
        false,
    ),
    // answers without a length
    (HEAD, OPEN, 28, 33, true),
    (GET, OPEN, 27, 52, false),
    (
        GET,
        b"HTTP/1.1 204 No Content\r\nvia: 1.1 tsx\r\nconnection: close\r\n\r\n",
        27,
        41,
        true,
    ),
    (
        GET,
        b"HTTP/1.1 304 Not Modified\r\nconnection: close\r\n\r\n",
        27,
        29,
        true,
    ),
    (
        GET,
        b"HTTP/1.1 200 OK\r\ntransfer-encoding: chunked\r\nconnection: close\r\n\r\n0\r\n\r\n",
        27,
        52,
        true,
    ),
    // lengths of the request
    (
        b"POST / HTTP/1.1\r\nHost: a\r\nContent-Length: 0\r\n\r\nGET",
        SIZED,
        47,
        55,
        true,
    ),
    (
        b"POST / HTTP/1.1\r\nHost: a\r\nContent-Length: 3\r\n\r\nabcGET",
        SIZED,
        50,
        55,
        true,
    ),
    (
        b"POST / HTTP/1.1\r\nHost: a\r\nContent-Length: 9\r\n\r\nabc",
        SIZED,
        50,
        74,
        false,
    ),
    (
        b"POST / HTTP/1.1\r\nHost: a\r\nContent-Length: a\r\n\r\nabc",
        SIZED,
        50,
        74,
        false,
    ),
    (
        b"POST / HTTP/1.1\r\nHost: a\r\nContent-Length: 3, 4\r\n\r\nabc",
        SIZED,
        53,
        74,
        false,
    ),
    (
        b"POST / HTTP/1.1\r\nContent-Length: 3\r\n\r\nabcGET",
        SIZED,
        44,
        74,
        false,
    ),
    (
        b"CONNECT a:1 HTTP/1.1\r\nHost: a\r\nContent-Length: 1\r\n\r\na",
        SIZED,
        53,
        74,
        false,
    ),
    (
        b"POST / HTTP/1.1\r\nHost: a\r\nTransfer-Encoding: gzip\r\n\r\nabc",
        SIZED,
        56,
        74,
        false,
    ),
    (
        b"POST / HTTP/1.0\r\nHost: a\r\nTransfer-Encoding: chunked\r\n\r\n0\r\n\r\n",
        SIZED,
        61,
        74,
        false,
    ),
    // empty lines ahead of a head belong to it
    (
        b"\r\n\r\nGET / HTTP/1.1\r\nHost: a\r\n\r\n",
        SIZED,
        31,
        55,
        true,
    ),
    // no head
    (b"GET / HTTP/1.1\r\nHost: a\r\n", SIZED, 25, 74, false),
    (b"no head at all", SIZED, 14, 74, false),
    (b"", SIZED, 0, 74, false),
    // other lines and bytes that look like the line
    (
        GET,
        b"HTTP/1.1 200 OK\r\ncontent-length: 0\r\nconnect: a\r\nc: b\r\nconnection: close\r\n\r\n",
        27,
        56,
        true,
    ),
    (
        GET,
        b"HTTP/1.1 200 OK\r\nconnection: close\r\ncontent-length: 0\r\n\r\n",
        27,
        57,
        false,
    ),
    (
        GET,
        b"HTTP/1.1 200 OK\r\ncontent-length: 0\r\nconnection: closed\r\nconnection: close\r\n\r\n",
        27,
        58,
        true,
    ),
    (
        GET,
        b"HTTP/1.1 200 OK\r\ncontent-length: 19\r\n\r\nconnection: close\r\n",
        27,
        58,
        false,
    ),
];

#[test]
fn a_span_gives_one_request_and_drops_the_line_where_the_connection_may_go_on(rt: HostRuntime) {
    for case in CASES {
        let wanted = (case.2, case.3, case.4);
        assert!(&rt; outcome(&rt, case, AT_ONCE, 4096) == wanted);
    }
}

// What came of a case whose answer is written in two parts, cut at this place.
fn outcome_cut(rt: &(impl AllocGlobal + Abort), case: &Case, at: usize) -> (usize, usize, bool) {
    let mut span = Span::<MemLink>::make(rt.alloc(), client(rt, case.0, AT_ONCE)).expect(
        rt, MEMORY,
    );
    let gives = read_all(rt, &mut span).len();
    let (front, rest) = case.1.split_at(at.min(case.1.len()));
    let _front_left = write_all(&mut span, front, 4096);
    let _rest_left = write_all(&mut span, rest, 4096);
    let goes_on = span.may_continue();
    (gives, span.into_client().written().len(), goes_on)
}

#[test]
fn it_is_the_same_wherever_an_answer_is_cut(rt: HostRuntime) {
    for case in CASES {
        let wanted = (case.2, case.3, case.4);
        for at in 1..case.1.len() {
            assert!(&rt; outcome_cut(&rt, case, at) == wanted, "cut at {at}");
        }
    }
}

// A client that gives in pieces of 5 bytes and takes 3 a write, and whose calls of either kind wait at some numbers.
const SLOW: Pace<'static> = Pace {
    piece: 5,
    most: 3,
    again: &[1, 2, 5, 9, 14, 23, 37],
};

#[test]
fn it_is_the_same_over_a_slow_client_in_small_pieces(rt: HostRuntime) {
    for case in CASES {
        let wanted = (case.2, case.3, case.4);
        for piece in [1usize, 2, 7, 18] {
            assert!(&rt;
                outcome(&rt, case, SLOW, piece) == wanted,
                "in pieces of {piece}"
            );
        }
    }
}
