//! Clients whose requests have a body: what their origins get of it, and what such a client gets.

use crate::command::MEMORY;
use crate::server::row::{Row, all_come, check};
use std::alloc::Global;
use ts_link::NoMemory;
use ts_mem_nets::links::{Side, Stalling, at_once, staying};
use ts_mem_nets::visit::{Visit, page};

/// A request with a body of three bytes.
pub const POST: &[u8] = b"POST / HTTP/1.1\r\nHost: a\r\nContent-Length: 3\r\n\r\nabc";

/// What the origin gets of it with nothing configured.
pub const POST_SENT: &[u8] =
    b"POST / HTTP/1.1\r\nhost: a\r\nvia: 1.1 tsx\r\nconnection: close\r\ncontent-length: 3\r\n\r\nabc";

// What it gets where a line puts a byte before the body.
const CHUNKED_SENT: &[u8] = b"POST / HTTP/1.1\r\nhost: a\r\nvia: 1.1 tsx\r\nconnection: close\r\n\
transfer-encoding: chunked\r\n\r\n4\r\n<abc\r\n0\r\n\r\n";

/// The request without the last byte of its body.
pub const CUT: &[u8] = b"POST / HTTP/1.1\r\nHost: a\r\nContent-Length: 3\r\n\r\nab";

/// What the origin gets of that.
pub const CUT_SENT: &[u8] =
    b"POST / HTTP/1.1\r\nhost: a\r\nvia: 1.1 tsx\r\nconnection: close\r\ncontent-length: 3\r\n\r\nab";

// What its client is answered.
const BAD_REQUEST: &[u8] =
    b"HTTP/1.1 400 Bad Request\r\ncontent-type: text/plain\r\ncontent-length: 16\r\n\
connection: close\r\n\r\n400 Bad Request\n";

/// A client that gives that request so, and gets a page of three letters.
pub fn posting(client: Side<'_>) -> Visit<'_> {
    Visit {
        client,
        sent: POST_SENT,
        ..page()
    }
}

#[test]
fn origins_get_the_bodies_of_requests(rt: HostRuntime) {
    assert_eq!(rt; POST_SENT.len(), 83);
    let visits = [posting(at_once(POST)), page(), posting(at_once(POST))];
    check(&rt, &all_come(&visits));
}

// A line of the request side acts on the body, and on the body alone.
#[test]
fn a_request_line_acts_on_the_bodies_of_requests(rt: HostRuntime) {
    let through = Visit {
        sent: CHUNKED_SENT,
        ..posting(at_once(POST))
    };
    let visits = [through, page()];
    let row = Row {
        lines: b"request.so prepend.so <\n",
        ..all_come(&visits)
    };
    check(&rt, &row);
}

// Who is cut within its body is told so. The origin has got what came before, and is not asked for an answer.
#[test]
fn a_client_that_is_cut_within_its_body_is_told_so(rt: HostRuntime) {
    let cut = Visit {
        sent: CUT_SENT,
        taken: BAD_REQUEST,
        ..posting(at_once(CUT))
    };
    check(&rt, &all_come(&[cut, posting(at_once(POST))]));
}

// Clients that wait before each byte of such a request, and one that waits behind the last.
fn all_stalling<'a>(alloc: Global) -> Result<Vec<Visit<'a>>, NoMemory> {
    let mut visits = Vec::new(alloc);
    for stalls_at in 0..=POST.len() {
        visits.push(posting(Side::Stalling(Stalling {
            stalls_at,
            stall: 3,
            ..staying(POST)
        })))?;
    }
    Ok(visits)
}

#[test]
fn clients_stall_at_each_byte_of_a_body(rt: HostRuntime) {
    let visits = all_stalling(rt.alloc()).expect(&rt, MEMORY);
    check(&rt, &all_come(visits.as_slice()));
}
