//! Heads that are read, checked and sent on.

use crate::answers::Inquiry;
use crate::rows::{MEMORY, check_bytes, check_rows, filled, with_lines};
use http_header::{HeaderName, HeaderValue};
use std::alloc::Global;
use std::process::Abort;
use ts_link::NoMemory;
use ts_wire::{
    ClientFraming, Field, Fields, Read, client_head, plugin_host, read_request, read_response,
};

const CHECKED: &str = r"
# the forms of a target, and its host (RFC 9112, section 3.2)
GET / HTTP/1.1\r\nHost: a\r\n\r\n => / a
\r\nGET /x?y HTTP/1.1\r\nHOST:\t a \t\r\n\r\nmore => /x?y a
GET / HTTP/1.0\r\n\r\n => /\x20
GET / HTTP/1.1\r\nHost:\r\n\r\n => /\x20
OPTIONS * HTTP/1.1\r\nHost: a\r\n\r\n => * a
GET * HTTP/1.1\r\nHost: a\r\n\r\n => 400
options * HTTP/1.1\r\nHost: a\r\n\r\n => 400
GET a/b HTTP/1.1\r\nHost: a\r\n\r\n => 400
GET hTTp://b.example?q HTTP/1.1\r\nHost: a\r\n\r\n => /?q b.example
GET http://b:80/c HTTP/1.1\r\nHost: a\r\n\r\n => /c b:80
GET http://b HTTP/1.1\r\nHost: a\r\n\r\n => / b
OPTIONS http://b HTTP/1.1\r\nHost: a\r\n\r\n => * b
OPTIONS http://b?q HTTP/1.1\r\nHost: a\r\n\r\n => /?q b
GET https://b/c HTTP/1.1\r\nHost: a\r\n\r\n => 400
GET http:///c HTTP/1.1\r\nHost: a\r\n\r\n => 400
GET http://b/c@d HTTP/1.1\r\nHost: a\r\n\r\n => /c@d b
# methods are compared exactly, and a tunnel is not offered
CONNECT a:1 HTTP/1.1\r\n\r\n => 501
connect /a HTTP/1.1\r\nHost: a\r\n\r\n => /a a
# a request with a body is not taken yet
GET / HTTP/1.1\r\nHost: a\r\nContent-Length: 0\r\n\r\n => / a
GET / HTTP/1.1\r\nHost: a\r\nContent-Length: 3\r\n\r\n => 501
GET / HTTP/1.1\r\nHost: a\r\nContent-Length: 3\r\nContent-Length: 3\r\n\r\n => 501
# what is no head, and what may become one
GET / HTTP/2.0\r\n\r\n => bad
GET / HTTP/1.1\r\nHost: a\r\n => more
 => more
";

const SENT: &str = r"
GET /index.html HTTP/1.1\r\nHost: www.example.com\r\nUser-Agent: curl/8.5.0\r\nAccept: */*\r\n\r\n => GET /index.html HTTP/1.1\r\nhost: www.example.com\r\nuser-agent: curl/8.5.0\r\naccept: */*\r\nvia: 1.1 tsx\r\nconnection: close\r\n\r\n
# an absolute target's authority stands in the place of Host, and a Host that lacks is put first
GET http://b?q HTTP/1.1\r\nA: 1\r\nHost: a\r\n\r\n => GET /?q HTTP/1.1\r\na: 1\r\nhost: b\r\nvia: 1.1 tsx\r\nconnection: close\r\n\r\n
GET http://h\xc3\xa9?\xc3\xa9 HTTP/1.1\r\nHost: a\r\n\r\n => GET /?\xc3\xa9 HTTP/1.1\r\nhost: h\xc3\xa9\r\nvia: 1.1 tsx\r\nconnection: close\r\n\r\n
GET / HTTP/1.0\r\nA: 1\r\n\r\n => GET / HTTP/1.1\r\nhost: \r\na: 1\r\nvia: 1.0 tsx\r\nconnection: close\r\n\r\n
";

#[test]
fn checks_and_sends_requests(rt: HostRuntime) {
    check_rows(&rt, Inquiry::Check, CHECKED);
    check_rows(&rt, Inquiry::Sent, SENT);
}

const ENDS: &str = r"
HTTP/1.1 200\nA: b\n\n => until close
HTTP/1.1 200 OK\r\nA: b\r\n => more
HTTP/1.1 20 OK\r\n\r\n => bad
HTTP/1.2 200 OK\r\n\r\n => bad
# the table of framings, from its first row (RFC 9112, section 6.3)
HTTP/1.1 100 Continue\r\nTransfer-Encoding: chunked\r\n\r\n => nothing
HTTP/1.1 204 No Content\r\nContent-Length: 5\r\n\r\n => nothing
HTTP/1.1 304\r\nContent-Length: 5\r\n\r\n => nothing
HTTP/1.1 200 OK\r\nTransfer-Encoding:\tChunked \r\n\r\n => chunked
HTTP/1.1 200 OK\r\nTransfer-Encoding: gzip, chunked\r\n\r\n => faulty
HTTP/1.1 200 OK\r\nContent-Length: 3\r\n\r\n => sized 3
HTTP/1.1 200 OK\r\nContent-Length: 3, 3\r\nContent-Length: 03\r\n\r\n => sized 3
HTTP/1.0 200 OK\r\nContent-Length: 0\r\n\r\n => sized 0
HTTP/1.1 200 OK\r\nContent-Length: 9223372036854775807\r\n\r\n => sized 9223372036854775807
HTTP/1.1 200 OK\r\n\r\n => until close
";

const ENDS_TO_HEAD: &str = r"
HTTP/1.1 200 OK\r\nContent-Length: 3\r\n\r\n => nothing
HTTP/1.1 200 OK\r\nTransfer-Encoding: chunked\r\n\r\n => nothing
";

const RELAYED_WITH_NOTHING: &str = r"
HTTP/1.1 204 No Content\r\nContent-Length: 5\r\n\r\n => HTTP/1.1 204 No Content\r\nvia: 1.1 tsx\r\nconnection: close\r\n\r\n
";

const RELAYED_WITH_3: &str = r"
HTTP/1.1 200 OK\r\nContent-Length: 3\r\n\r\n => HTTP/1.1 200 OK\r\nvia: 1.1 tsx\r\ncontent-length: 3\r\nconnection: close\r\n\r\n
";

const RELAYED_IN_CHUNKS: &str = r"
HTTP/1.1 200 OK\r\n\r\nabc => HTTP/1.1 200 OK\r\nvia: 1.1 tsx\r\ntransfer-encoding: chunked\r\nconnection: close\r\n\r\n
HTTP/1.1 200 OK\r\nDate: Mon, 01 Jan 2024 00:00:00 GMT\r\nContent-Type: text/html; charset=utf-8\r\nContent-Length: 13\r\nConnection: keep-alive\r\n\r\n => HTTP/1.1 200 OK\r\ndate: Mon, 01 Jan 2024 00:00:00 GMT\r\ncontent-type: text/html; charset=utf-8\r\nvia: 1.1 tsx\r\ntransfer-encoding: chunked\r\nconnection: close\r\n\r\n
";

const RELAYED_UNTIL_CLOSE: &str = r"
HTTP/1.1 200 OK\r\nContent-Length: 3\r\n\r\n => HTTP/1.1 200 OK\r\nvia: 1.1 tsx\r\nconnection: close\r\n\r\n
# what ends at this hop is left out, and so is a reason that is not ASCII
HTTP/1.0 007 \xe4\r\nConnection: X-a, y\r\nx-A: 1\r\nY: 2\r\nTE: 3\r\nZ: 4\r\n\r\n => HTTP/1.1 007 \r\nz: 4\r\nvia: 1.0 tsx\r\nconnection: close\r\n\r\n
";

#[test]
fn reads_and_relays_responses(rt: HostRuntime) {
    check_rows(&rt, Inquiry::Ends(false), ENDS);
    check_rows(&rt, Inquiry::Ends(true), ENDS_TO_HEAD);
    let nothing = Inquiry::Relayed(ClientFraming::Nothing);
    check_rows(&rt, nothing, RELAYED_WITH_NOTHING);
    let sized = Inquiry::Relayed(ClientFraming::Sized(3));
    check_rows(&rt, sized, RELAYED_WITH_3);
    let chunked = Inquiry::Relayed(ClientFraming::Chunked);
    check_rows(&rt, chunked, RELAYED_IN_CHUNKS);
    let close = Inquiry::Relayed(ClientFraming::Close);
    check_rows(&rt, close, RELAYED_UNTIL_CLOSE);
}

/// What is asked of a head with so many field lines or bytes and this end, and what is answered.
type Lines = (Inquiry, usize, &'static [u8], &'static [u8]);

// What is sent has a Host, a Via and a Connection field more than this request.
const LINES: [Lines; 6] = [
    (Inquiry::Check, 64, b"\r\n", b"/ "),
    (Inquiry::Check, 64, b"", b"more"),
    (Inquiry::Check, 65, b"\r\n", b"too long"),
    (Inquiry::Check, 65, b"", b"too long"),
    (Inquiry::SentAgain, 61, b"\r\n", b"/ "),
    (Inquiry::SentAgain, 62, b"\r\n", b"too long"),
];

// And 42 bytes more, a blank behind the name with them.
const LENGTHS: [Lines; 6] = [
    (Inquiry::Check, 16384, b"\r\n\r\n", b"/ "),
    (Inquiry::Check, 16385, b"\r\n\r\n", b"too long"),
    (Inquiry::Check, 16383, b"", b"more"),
    (Inquiry::Check, 16384, b"", b"too long"),
    (Inquiry::SentAgain, 16342, b"\r\n\r\n", b"/ "),
    (Inquiry::SentAgain, 16343, b"\r\n\r\n", b"too long"),
];

#[test]
fn keeps_limits_of_heads(rt: HostRuntime) {
    for (asked, count, end, want) in LINES {
        let text = with_lines(&rt, b"GET / HTTP/1.0\r\n", count, end);
        check_bytes(&rt, asked, text.as_slice(), want);
    }
    for (asked, len, end, want) in LENGTHS {
        let text = filled(&rt, b"GET / HTTP/1.0\r\na:", end, len);
        check_bytes(&rt, asked, text.as_slice(), want);
    }
}

/// How many bytes the head of a response at the front has, or 0 where more bytes are awaited.
fn head_len(alloc: Global, bytes: &[u8]) -> Result<Option<usize>, NoMemory> {
    match read_response(alloc, bytes)? {
        Read::Head { head: _, used } => Ok(Some(used)),
        Read::More => Ok(Some(0)),
        Read::Bad | Read::TooLong => Ok(None),
    }
}

/// The shortest front of the bytes that is read as the head of a response, and how long that head is.
fn first_head(alloc: Global, bytes: &[u8]) -> Result<Option<(usize, usize)>, NoMemory> {
    for n in 0..=bytes.len() {
        match head_len(alloc, bytes.split_at(n).0)? {
            Some(0) => {}
            Some(used) => return Ok(Some((n, used))),
            None => return Ok(None),
        }
    }
    Ok(None)
}

#[test]
fn reads_a_head_byte_by_byte(rt: HostRuntime) {
    let bytes: &[u8] =
        b"HTTP/1.1 200 OK\r\nTransfer-Encoding: chunked\r\n\r\n3;x=1\r\nabc\r\n0\r\nT: 1\r\n\r\n";
    let first = first_head(rt.alloc(), bytes);
    let request = b"GET / HTTP/1.1\r\nHost: a\r\n\r\nGET /x";
    let used = match read_request(rt.alloc(), request).expect(&rt, MEMORY) {
        Read::Head { head: _, used } => used,
        _ => 0,
    };
    assert_eq!(rt; (first, used), (Ok(Some((47, 47))), 27));
}

#[test]
fn prints_an_answer_of_its_own(rt: HostRuntime) {
    let mut fields = Fields::new(rt.alloc());
    let field = Field {
        name: HeaderName::from_static("content-type"),
        value: HeaderValue::from_static("text/plain"),
    };
    fields.push(field).expect(&rt, MEMORY);
    check_answer(&rt, &fields);
    fields.remove_all(&HeaderName::from_static("content-type"));
    assert_eq!(rt; fields.items().len(), 0);
}

fn check_answer(rt: &(impl AllocGlobal + Abort), fields: &Fields) {
    let framing = ClientFraming::Sized(14);
    let own = client_head(rt.alloc(), 403, b"Forbidden", fields, None, framing).expect(rt, MEMORY);
    let want: &[u8] =
        b"HTTP/1.1 403 Forbidden\r\ncontent-type: text/plain\r\ncontent-length: 14\r\n\
connection: close\r\n\r\n";
    assert_eq!(rt; own.bytes(), want);
}

const HOSTS: [(&[u8], &[u8]); 5] = [
    (b"a.EXAMPLE:80", b"a.example"),
    (b"A", b"a"),
    (b"[::F]:8", b"[::f]"),
    (b":1", b""),
    (b"", b""),
];

#[test]
fn names_hosts_to_plugins(rt: HostRuntime) {
    for (host, want) in HOSTS {
        let name = plugin_host(rt.alloc(), host).expect(&rt, MEMORY);
        assert_eq!(rt; name.bytes(), want);
    }
}
