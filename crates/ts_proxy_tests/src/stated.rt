//! Texts that runs share (lines, requests, responses, the heads that clients get, the proxy's own answers),
//! and what is stated with them of transactions.

use crate::report::{Stated, StatedEnd};

/// A line that puts a byte before a body.
pub const LESS: &[u8] = b"prepend.so <";

/// A line that puts the file `f` behind a page.
pub const APPEND: &[u8] = b"append_transform.so f";

/// A request for a page.
pub const GET: &[u8] = b"GET / HTTP/1.1\r\nHost: a\r\n\r\n";

/// What the origin gets of it.
pub const GET_SENT: &[u8] =
    b"GET / HTTP/1.1\r\nhost: a\r\nvia: 1.1 tsx\r\nconnection: close\r\n\r\n";

/// A request without a host.
pub const HOSTLESS: &[u8] = b"GET / HTTP/1.1\r\n\r\n";

/// A response of three bytes.
pub const ABC: &[u8] = b"HTTP/1.1 200 OK\r\nContent-Length: 3\r\n\r\nabc";

/// The same, of which the last byte is missing.
pub const CUT: &[u8] = b"HTTP/1.1 200 OK\r\nContent-Length: 3\r\n\r\nab";

/// A response whose chunks are none.
pub const BAD_CHUNKS: &[u8] = b"HTTP/1.1 200 OK\r\nTransfer-Encoding: chunked\r\n\r\nx";

/// The client's head of a body in chunks.
pub const CHUNKED: &[u8] =
    b"HTTP/1.1 200 OK\r\nvia: 1.1 tsx\r\ntransfer-encoding: chunked\r\nconnection: close\r\n\r\n";

/// The client's head of a body of three bytes.
pub const SIZED: &[u8] =
    b"HTTP/1.1 200 OK\r\nvia: 1.1 tsx\r\ncontent-length: 3\r\nconnection: close\r\n\r\n";

/// An answer of the proxy's own.
#[derive(Clone, Copy)]
pub struct StatedAnswer<'a> {
    pub head: &'a [u8],
    pub body: &'a [u8],
}

/// The answer to a request that cannot be read.
pub const BAD_REQUEST: StatedAnswer<'static> = StatedAnswer {
    head: b"HTTP/1.1 400 Bad Request\r\ncontent-type: text/plain\r\ncontent-length: 16\r\n\
connection: close\r\n\r\n",
    body: b"400 Bad Request\n",
};

/// The answer where the origin gives none to pass on.
pub const BAD_GATEWAY: StatedAnswer<'static> = StatedAnswer {
    head: b"HTTP/1.1 502 Bad Gateway\r\ncontent-type: text/plain\r\ncontent-length: 16\r\n\
connection: close\r\n\r\n",
    body: b"502 Bad Gateway\n",
};

/// A usual request.
pub const USUAL: &[u8] =
    b"GET /index.html HTTP/1.1\r\nHost: www.example.com\r\nUser-Agent: curl/8.5.0\r\nAccept: */*\r\n\r\n";

/// What the origin gets of it.
pub const USUAL_SENT: &[u8] =
    b"GET /index.html HTTP/1.1\r\nhost: www.example.com\r\nuser-agent: curl/8.5.0\r\naccept: */*\r\n\
via: 1.1 tsx\r\nconnection: close\r\n\r\n";

/// A usual response to it.
pub const PAGE: &[u8] = b"HTTP/1.1 200 OK\r\nDate: Mon, 01 Jan 2024 00:00:00 GMT\r\n\
Content-Type: text/html; charset=utf-8\r\nContent-Length: 13\r\nConnection: keep-alive\r\n\r\n\
<p>hello</p>\n";

/// The client's head of that, where a line acts on it.
pub const PAGE_HEAD: &[u8] = b"HTTP/1.1 200 OK\r\ndate: Mon, 01 Jan 2024 00:00:00 GMT\r\n\
content-type: text/html; charset=utf-8\r\nvia: 1.1 tsx\r\ntransfer-encoding: chunked\r\n\
connection: close\r\n\r\n";

/// What is stated where the client gives nothing.
pub const NOTHING: Stated<'static> = Stated {
    request: b"",
    head: b"",
    came: StatedEnd::Whole(b""),
};

/// What is stated of the request GET, which is passed on.
pub fn passed<'a>(head: &'a [u8], came: StatedEnd<'a>) -> Stated<'a> {
    Stated {
        request: GET_SENT,
        head,
        came,
    }
}

/// What is stated of the request GET where its body comes whole, in chunks.
pub fn in_chunks(body: &[u8]) -> Stated<'_> {
    passed(CHUNKED, StatedEnd::Whole(body))
}

/// What is stated of the usual request where a line makes this body of the usual response.
pub fn paged(body: &[u8]) -> Stated<'_> {
    Stated {
        request: USUAL_SENT,
        head: PAGE_HEAD,
        came: StatedEnd::Whole(body),
    }
}

/// What is stated of a request that the proxy answers itself, without asking the origin.
pub fn unasked<'a>(answer: &StatedAnswer<'a>) -> Stated<'a> {
    Stated {
        request: b"",
        head: answer.head,
        came: StatedEnd::Whole(answer.body),
    }
}
