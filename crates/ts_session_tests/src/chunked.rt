//! Requests whose body comes in chunks: a span ends where their chunks end.
ghost use Rattle.std.specs.Prelude.{◌≤◌};

use crate::memory::{AT_ONCE, MEMORY, Pace, client, client_cut, read_all};
use crate::spans::{Case, SIZED, outcome};
use std::process::Abort;
use ts_link::MemLink;
use ts_session::Span;

const CASES: &[Case] = &[
    // bodies that end
    (
        b"POST / HTTP/1.1\r\nHost: a\r\nTransfer-Encoding: chunked\r\n\r\n0\r\n\r\n",
        SIZED,
        61,
        55,
        true,
    ),
    (
        b"POST / HTTP/1.1\r\nHost: a\r\nTransfer-Encoding: chunked\r\n\r\n3\r\nabc\r\n0\r\n\r\n",
        SIZED,
        69,
        55,
        true,
    ),
    (
        b"POST / HTTP/1.1\r\nHost: a\r\nTransfer-Encoding: chunked\r\n\r\n3\r\nabc\r\n0\r\n\r\nGET / HTTP/1.1\r\n",
        SIZED,
        69,
        55,
        true,
    ),
    (
        b"POST / HTTP/1.1\r\nHost: a\r\nTransfer-Encoding: chunked\r\n\r\n1\r\na\r\n2\r\nbc\r\nA\r\n0123456789\r\n0\r\n\r\nGET",
        SIZED,
        89,
        55,
        true,
    ),
    (
        b"POST / HTTP/1.1\r\nHost: a\r\nTransfer-Encoding: chunked\r\n\r\n0003 \t;x=y\r\nabc\r\n0;z\r\n\r\nx",
        SIZED,
        80,
        55,
        true,
    ),
    (
        b"POST / HTTP/1.1\r\nHost: a\r\nTransfer-Encoding: chunked\r\n\r\n3\r\nabc\r\n0\r\nx-a: 1\r\nx-b: 2\r\n\r\nGET",
        SIZED,
        85,
        55,
        true,
    ),
    (
        b"POST / HTTP/1.1\r\nHost: a\r\nTransfer-Encoding: chunked\r\n\r\n3\r\nabc\r\n0\r\nx-a: 1\n\nGET",
        SIZED,
        75,
        55,
        true,
    ),
    (
        b"POST / HTTP/1.1\r\nHost: a\r\nTransfer-Encoding: chunked\r\n\r\n5\r\n0\r\n\r\n\r\n0\r\n\r\n\r\n",
        SIZED,
        71,
        55,
        true,
    ),
    // bodies that do not
    (
        b"POST / HTTP/1.1\r\nHost: a\r\nTransfer-Encoding: chunked\r\n\r\n",
        SIZED,
        56,
        74,
        false,
    ),
    (
        b"POST / HTTP/1.1\r\nHost: a\r\nTransfer-Encoding: chunked\r\n\r\n3\r\nab",
        SIZED,
        61,
        74,
        false,
    ),
    (
        b"POST / HTTP/1.1\r\nHost: a\r\nTransfer-Encoding: chunked\r\n\r\n3\r\nabc\r\n0\r\n",
        SIZED,
        67,
        74,
        false,
    ),
    (
        b"POST / HTTP/1.1\r\nHost: a\r\nTransfer-Encoding: chunked\r\n\r\n3\r\nabcGET / HTTP/1.1\r\nHost: a\r\n\r\n",
        SIZED,
        89,
        74,
        false,
    ),
    (
        b"POST / HTTP/1.1\r\nHost: a\r\nTransfer-Encoding: chunked\r\n\r\nx\r\nGET / HTTP/1.1\r\nHost: a\r\n\r\n",
        SIZED,
        86,
        74,
        false,
    ),
    (
        b"POST / HTTP/1.1\r\nHost: a\r\nTransfer-Encoding: chunked\r\n\r\n3\nabc\r\n0\r\n\r\n",
        SIZED,
        68,
        74,
        false,
    ),
    (
        b"POST / HTTP/1.1\r\nHost: a\r\nTransfer-Encoding: chunked\r\n\r\n10000000000000000\r\n",
        SIZED,
        75,
        74,
        false,
    ),
    (
        b"POST / HTTP/1.1\r\nHost: a\r\nTransfer-Encoding: chunked\r\n\r\nffffffffffffffff\r\nabc",
        SIZED,
        77,
        74,
        false,
    ),
    (
        b"POST / HTTP/1.1\r\nHost: a\r\nTransfer-Encoding: chunked\r\n\r\n3\r\nabc\r\n0\r\n: 1\r\n\r\n",
        SIZED,
        74,
        74,
        false,
    ),
    // a length beside them
    (
        b"POST / HTTP/1.1\r\nHost: a\r\nContent-Length: 3\r\nTransfer-Encoding: chunked\r\n\r\n3\r\nabc\r\n0\r\n\r\n",
        SIZED,
        88,
        74,
        false,
    ),
];

#[test]
fn a_span_ends_where_the_chunks_end(rt: HostRuntime) {
    for case in CASES {
        let wanted = (case.2, case.3, case.4);
        assert!(&rt; outcome(&rt, case, AT_ONCE, 4096) == wanted);
    }
}

// A client that gives in pieces of 3 bytes and takes 7 a write, and whose calls of either kind wait at some numbers.
const SLOW: Pace<'static> = Pace {
    piece: 3,
    most: 7,
    again: &[1, 4, 6, 9, 15, 22, 31],
};

#[test]
fn it_is_the_same_over_a_slow_client(rt: HostRuntime) {
    for case in CASES {
        let wanted = (case.2, case.3, case.4);
        assert!(&rt; outcome(&rt, case, SLOW, 20) == wanted);
    }
}

const REQUEST: &[u8] =
    b"POST / HTTP/1.1\r\nHost: a\r\nTransfer-Encoding: chunked\r\n\r\n3\r\nabc\r\n10;x\r\n0123456789abcdef\r\n0\r\nx-a: 1\r\n\r\n";

const NEXT: &[u8] = b"GET / HTTP/1.1\r\nHost: a\r\n\r\n";

#[test]
fn it_is_the_same_wherever_the_bytes_of_a_client_are_cut(rt: HostRuntime) {
    let mut bytes = Vec::from_slice(rt.alloc(), REQUEST).expect(&rt, MEMORY);
    bytes.extend_from_slice(NEXT).expect(&rt, MEMORY);
    for at in 1..bytes.len() {
        let link = client_cut(&rt, &bytes, at);
        let mut span = Span::<MemLink>::make(rt.alloc(), link).expect(&rt, MEMORY);
        let given = read_all(&rt, &mut span);
        assert!(&rt; given.as_slice() == REQUEST, "cut at {at}");
    }
}

// A request with one chunk of 40,960 bytes.
fn long_request(rt: &(impl AllocGlobal + Abort)) -> Vec<u8> {
    let mut bytes = Vec::new(rt.alloc());
    bytes
        .extend_from_slice(
            b"POST / HTTP/1.1\r\nHost: a\r\nTransfer-Encoding: chunked\r\n\r\na000\r\n",
        )
        .expect(rt, MEMORY);
    for _ in 0..2_560 {
        bytes
            .extend_from_slice(b"0\r\n\r\n0123456789\n")
            .expect(rt, MEMORY);
    }
    bytes.extend_from_slice(b"\r\n0\r\n\r\n").expect(rt, MEMORY);
    bytes
}

#[test]
fn a_chunk_may_be_longer_than_the_room_of_a_span(rt: HostRuntime) {
    let request = long_request(&rt);
    for piece in [1_000_000u32, 1_000, 37] {
        let mut bytes = request.clone().expect(&rt, MEMORY);
        bytes.extend_from_slice(NEXT).expect(&rt, MEMORY);
        let pace = Pace {
            piece,
            most: 100,
            again: &[2, 3, 50],
        };
        let mut span = Span::<MemLink>::make(rt.alloc(), client(&rt, &bytes, pace)).expect(
            &rt, MEMORY,
        );
        let given = read_all(&rt, &mut span);
        assert!(&rt;
            given.as_slice() == request.as_slice(),
            "in pieces of {piece}"
        );
    }
}
