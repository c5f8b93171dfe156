//! Where the requests of a connection end, and behind which of them it goes on.

use crate::command::MEMORY;
use crate::session::{ABC_GOING_ON, Turn, check_session, page_turn, session_of};
use std::process::Abort;
use std::sync::Wait;
use std::thread::Threads;
use ts_mem_nets::stated::{ABC, ABC_TAKEN, GET, GET_SENT};

/// A request that a client sends with one for a page behind it: what its origin gives and gets, what the
/// client takes, and whether the connection goes on behind it.
#[derive(Clone, Copy)]
struct First<'a> {
    asks: &'a [u8],
    gives: &'a [u8],
    sent: &'a [u8],
    taken: &'a [u8],
    goes_on: bool,
}

// A request for a page, behind which the connection goes on.
fn going_on<'a>(asks: &'a [u8]) -> First<'a> {
    First {
        asks,
        gives: ABC,
        sent: GET_SENT,
        taken: ABC_GOING_ON,
        goes_on: true,
    }
}

// A request for a page, behind which the connection is closed.
fn closing<'a>(asks: &'a [u8]) -> First<'a> {
    First {
        taken: ABC_TAKEN,
        goes_on: false,
        ..going_on(asks)
    }
}

// A request that the proxy answers itself with this, behind which the connection is closed.
fn refused<'a>(asks: &'a [u8], taken: &'a [u8]) -> First<'a> {
    First {
        sent: b"",
        taken,
        ..closing(asks)
    }
}

// A request for a page, whose origin gives this and whose client takes that.
fn passing<'a>(gives: &'a [u8], taken: &'a [u8]) -> First<'a> {
    First {
        gives,
        taken,
        ..going_on(GET)
    }
}

// Each of these requests has another one behind it, which is answered where the connection goes on.
fn check_firsts<R: Abort + AllocGlobal + Threads + Wait + Sync>(rt: &R, rows: &[First<'_>]) {
    for row in rows {
        let mut asks = Vec::from_slice(rt.alloc(), row.asks).expect(rt, MEMORY);
        asks.extend_from_slice(GET).expect(rt, MEMORY);
        let first = Turn {
            origin: Some(row.gives),
            sent: row.sent,
            taken: row.taken,
        };
        let both = [first, page_turn()];
        let (turns, _) = both.split_at(if row.goes_on { 2 } else { 1 });
        check_session(rt, &session_of(asks.as_slice(), turns));
    }
}

// What the client gets that is refused for a faulty head, for a body, and for a method or coding, where the
// connection is closed.
const BAD: &[u8] = b"HTTP/1.1 400 Bad Request\r\ncontent-type: text/plain\r\ncontent-length: 16\r\n\
connection: close\r\n\r\n400 Bad Request\n";

const UNKNOWN: &[u8] =
    b"HTTP/1.1 501 Not Implemented\r\ncontent-type: text/plain\r\ncontent-length: 20\r\n\
connection: close\r\n\r\n501 Not Implemented\n";

// The same where it goes on.
const BAD_GOING_ON: &[u8] =
    b"HTTP/1.1 400 Bad Request\r\ncontent-type: text/plain\r\ncontent-length: 16\r\n\r\n400 Bad Request\n";

const UNKNOWN_GOING_ON: &[u8] =
    b"HTTP/1.1 501 Not Implemented\r\ncontent-type: text/plain\r\ncontent-length: 20\r\n\r\n\
501 Not Implemented\n";

// A client says by its version and its Connection fields whether it goes on.
#[test]
fn a_client_says_whether_its_connection_goes_on(rt: HostRuntime) {
    let old_sent: &[u8] = b"GET / HTTP/1.1\r\nhost: a\r\nvia: 1.0 tsx\r\nconnection: close\r\n\r\n";
    let old = b"GET / HTTP/1.0\r\nHost: a\r\n\r\n";
    let keeping = b"GET / HTTP/1.0\r\nHost: a\r\nConnection: keep-alive\r\n\r\n";
    let rows = [
        going_on(GET),
        going_on(b"\r\n\r\nGET / HTTP/1.1\r\nHost: a\r\n\r\n"),
        going_on(b"GET / HTTP/1.1\nHost: a\n\n"),
        going_on(b"GET / HTTP/1.1\r\nHost: a\r\nConnection: keep-alive\r\n\r\n"),
        going_on(b"GET / HTTP/1.1\r\nHost: a\r\nConnection: closed, un-close\r\n\r\n"),
        closing(b"GET / HTTP/1.1\r\nHost: a\r\nConnection: close\r\n\r\n"),
        closing(b"GET / HTTP/1.1\r\nHost: a\r\nconnection: a, cLOSE ,b\r\n\r\n"),
        closing(
            b"GET / HTTP/1.1\r\nHost: a\r\nConnection: keep-alive\r\nConnection: Close\r\n\r\n",
        ),
        First {
            sent: old_sent,
            ..closing(old)
        },
        First {
            sent: old_sent,
            ..closing(keeping)
        },
    ];
    check_firsts(&rt, &rows);
}

const POST: &[u8] = b"POST / HTTP/1.1\r\nHost: a\r\nContent-Length: 3\r\n\r\nabc";

const POST_SENT: &[u8] =
    b"POST / HTTP/1.1\r\nhost: a\r\nvia: 1.1 tsx\r\nconnection: close\r\ncontent-length: 3\r\n\r\nabc";

const IN_CHUNKS: &[u8] = b"POST / HTTP/1.1\r\nHost: a\r\nTransfer-Encoding: chunked\r\n\r\n\
3;x=y\r\nabc\r\n0\r\nx: y\r\n\r\n";

const CHUNKS_SENT: &[u8] = b"POST / HTTP/1.1\r\nhost: a\r\nvia: 1.1 tsx\r\nconnection: close\r\n\
transfer-encoding: chunked\r\n\r\n3\r\nabc\r\n0\r\n\r\n";

// A request ends behind its head, behind so many bytes, or behind its last chunk.
#[test]
fn a_request_ends_where_its_framing_says(rt: HostRuntime) {
    let no_body = b"GET / HTTP/1.1\r\nHost: a\r\nContent-Length: 0\r\n\r\n";
    let body = b"GET / HTTP/1.1\r\nHost: a\r\nContent-Length: 3, 3\r\n\r\nabc";
    let body_sent =
        b"GET / HTTP/1.1\r\nhost: a\r\nvia: 1.1 tsx\r\nconnection: close\r\ncontent-length: 3\r\n\r\nabc";
    let rows = [
        going_on(no_body),
        First {
            sent: POST_SENT,
            ..going_on(POST)
        },
        First {
            sent: CHUNKS_SENT,
            ..going_on(IN_CHUNKS)
        },
        First {
            sent: body_sent,
            ..going_on(body)
        },
    ];
    check_firsts(&rt, &rows);
}

// Where nobody can tell where a request ends, what follows is no request.
#[test]
fn a_connection_ends_behind_a_refusal_whose_request_has_no_end(rt: HostRuntime) {
    let rows = [
        refused(
            b"POST / HTTP/1.1\r\nHost: a\r\nContent-Length: a\r\n\r\n",
            BAD,
        ),
        refused(
            b"POST / HTTP/1.1\r\nHost: a\r\nContent-Length: 3, 4\r\n\r\nabc",
            BAD,
        ),
        refused(b"POST / HTTP/1.1\r\nContent-Length: 3\r\n\r\nabc", BAD),
        refused(
            b"CONNECT a HTTP/1.1\r\nHost: a\r\nContent-Length: 1\r\n\r\nx",
            UNKNOWN,
        ),
        refused(
            b"POST / HTTP/1.1\r\nHost: a\r\nTransfer-Encoding: gzip\r\n\r\n0\r\n\r\n",
            UNKNOWN,
        ),
        refused(
            b"POST / HTTP/1.0\r\nHost: a\r\nTransfer-Encoding: chunked\r\n\r\n0\r\n\r\n",
            UNKNOWN,
        ),
        refused(
            b"POST / HTTP/1.1\r\nHost: a\r\nTransfer-Encoding: chunked\r\nContent-Length: 0\r\n\r\n0\r\n\r\n",
            UNKNOWN,
        ),
        refused(b"GET\r\n\r\n", BAD),
    ];
    check_firsts(&rt, &rows);
}

// Where that can be told, the connection goes on, though the request is refused.
#[test]
fn a_connection_goes_on_behind_a_refusal_whose_request_has_ended(rt: HostRuntime) {
    let rows = [
        First {
            goes_on: true,
            ..refused(b"GET / HTTP/1.1\r\n\r\n", BAD_GOING_ON)
        },
        First {
            goes_on: true,
            ..refused(b"GET a HTTP/1.1\r\nHost: a\r\n\r\n", BAD_GOING_ON)
        },
        First {
            goes_on: true,
            ..refused(b"CONNECT a HTTP/1.1\r\nHost: a\r\n\r\n", UNKNOWN_GOING_ON)
        },
    ];
    check_firsts(&rt, &rows);
}

// What the client gets of a page of three bytes in chunks.
const CHUNKED: &[u8] = b"HTTP/1.1 200 OK\r\nvia: 1.1 tsx\r\ntransfer-encoding: chunked\r\n\r\n\
3\r\nabc\r\n0\r\n\r\n";

const NO_GATEWAY: &[u8] =
    b"HTTP/1.1 502 Bad Gateway\r\ncontent-type: text/plain\r\ncontent-length: 16\r\n\r\n502 Bad Gateway\n";

// A body that is told by its first bytes, of 19.
const CLOSING_BODY: &[u8] = b"HTTP/1.1 200 OK\r\nContent-Length: 19\r\n\r\nconnection: close\r\n";

const CLOSING_BODY_TAKEN: &[u8] =
    b"HTTP/1.1 200 OK\r\nvia: 1.1 tsx\r\ncontent-length: 19\r\n\r\nconnection: close\r\n";

// The connection goes on behind an answer whose end its head tells, or which has a head alone. A body that
// reads as that field is left alone.
#[test]
fn a_connection_goes_on_where_an_answer_tells_its_end(rt: HostRuntime) {
    let head = First {
        asks: b"HEAD / HTTP/1.1\r\nHost: a\r\n\r\n",
        sent: b"HEAD / HTTP/1.1\r\nhost: a\r\nvia: 1.1 tsx\r\nconnection: close\r\n\r\n",
        ..passing(
            b"HTTP/1.1 200 OK\r\n\r\n",
            b"HTTP/1.1 200 OK\r\nvia: 1.1 tsx\r\n\r\n",
        )
    };
    let rows = [
        head,
        passing(b"HTTP/1.1 200 OK\r\n\r\nabc", CHUNKED),
        passing(
            b"HTTP/1.1 200 OK\r\nTransfer-Encoding: chunked\r\n\r\n3\r\nabc\r\n0\r\n\r\n",
            CHUNKED,
        ),
        passing(
            b"HTTP/1.1 200 OK\r\nContent-Length: 3\r\nConnection: close\r\n\r\nabc",
            ABC_GOING_ON,
        ),
        passing(
            b"HTTP/1.1 204 No Content\r\n\r\n",
            b"HTTP/1.1 204 No Content\r\nvia: 1.1 tsx\r\n\r\n",
        ),
        passing(
            b"HTTP/1.1 304 Not Modified\r\n\r\n",
            b"HTTP/1.1 304 Not Modified\r\nvia: 1.1 tsx\r\n\r\n",
        ),
        passing(CLOSING_BODY, CLOSING_BODY_TAKEN),
        passing(b"", NO_GATEWAY),
        passing(b"HTTP/1.1 101 Switching Protocols\r\n\r\n", NO_GATEWAY),
    ];
    check_firsts(&rt, &rows);
}

// A request that its client ends too soon is the last one, and nothing is behind it.
#[test]
fn a_request_that_is_cut_is_the_last(rt: HostRuntime) {
    let cut_sent =
        b"POST / HTTP/1.1\r\nhost: a\r\nvia: 1.1 tsx\r\nconnection: close\r\ncontent-length: 9\r\n\r\nabc";
    let cut_body = Turn {
        sent: cut_sent,
        taken: BAD,
        ..page_turn()
    };
    let cut_head = Turn {
        sent: b"",
        ..cut_body
    };
    let in_body = [page_turn(), cut_body];
    let in_head = [page_turn(), cut_head];
    check_session(
        &rt,
        &session_of(
            b"GET / HTTP/1.1\r\nHost: a\r\n\r\nPOST / HTTP/1.1\r\nHost: a\r\nContent-Length: 9\r\n\r\nabc",
            &in_body,
        ),
    );
    check_session(
        &rt,
        &session_of(
            b"GET / HTTP/1.1\r\nHost: a\r\n\r\nGET / HTTP/1.1\r\nHost",
            &in_head,
        ),
    );
    check_session(
        &rt,
        &session_of(b"GET / HTTP/1.1\r\nHost: a\r\n\r\n\r\n", &in_head),
    );
}
