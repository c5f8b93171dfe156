//! Clients that send a body with their request, under lines of a configuration that act on it.

use crate::row::{Row, all_come, check};
use ts_mem_nets::links::at_once;
use ts_mem_nets::visit::{Visit, page};

// A request with a body of three bytes.
const SIZED: &[u8] = b"POST / HTTP/1.1\r\nHost: a\r\nContent-Length: 3\r\n\r\nabc";

// The same body in chunks, with a trailer behind it, which is dropped.
const IN_CHUNKS: &[u8] =
    b"POST / HTTP/1.1\r\nHost: a\r\nTransfer-Encoding: chunked\r\n\r\n3\r\nabc\r\n0\r\nx: y\r\n\r\n";

// What the origin gets of either where a line makes `Abc` of the body.
const CHANGED_SENT: &[u8] =
    b"POST / HTTP/1.1\r\nhost: a\r\nvia: 1.1 tsx\r\nconnection: close\r\ntransfer-encoding: chunked\r\n\r\n\
3\r\nAbc\r\n0\r\n\r\n";

// A client that sends its request at once, of which the origin gets this.
fn sending<'a>(request: &'a [u8], sent: &'a [u8]) -> Visit<'a> {
    Visit {
        client: at_once(request),
        sent,
        ..page()
    }
}

#[test]
fn bodies_go_through_their_lines(rt: HostRuntime) {
    let visits = [
        sending(SIZED, CHANGED_SENT),
        sending(IN_CHUNKS, CHANGED_SENT),
        page(),
    ];
    let row = Row {
        config: b"request.so map.so a A\n",
        ..all_come(&visits)
    };
    check(&rt, &row);
}

// The request without its last byte.
const CUT: &[u8] = b"POST / HTTP/1.1\r\nHost: a\r\nContent-Length: 3\r\n\r\nab";

// What the origin gets of it where a line lets two bytes pass.
const LIMITED_SENT: &[u8] =
    b"POST / HTTP/1.1\r\nhost: a\r\nvia: 1.1 tsx\r\nconnection: close\r\ntransfer-encoding: chunked\r\n\r\n\
2\r\nab\r\n0\r\n\r\n";

// Where a line needs no more of a body than came, it is whole, though its client ends it too soon.
#[test]
fn a_line_that_needs_no_more_makes_a_body_whole(rt: HostRuntime) {
    let visits = [sending(CUT, LIMITED_SENT), page()];
    let row = Row {
        config: b"request.so limit.so 2\n",
        ..all_come(&visits)
    };
    check(&rt, &row);
}
