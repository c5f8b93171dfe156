//! Fronts of clients in memory: what is shown of the bytes of each, and what is handed over as its body.
ghost use Rattle.std.specs.Prelude.{◌≡◌, []};
ghost use Rattle.ts_link.specs.MemLink.{look_of};

use crate::carrying::giving;
use crate::rows::{MEMORY, unescaped};
use std::process::Abort;
use ts_link::{Got, Link, MemLink, Octets, Put, Sourced};
use ts_request::{Front, Stage, limits, one_shown, one_upload};
use ts_upstream::Uploaded;
use ts_wire::Framing;

// How many reads a client of these tests takes at most.
const MOST_READS: u32 = 400;

// A row is `INPUT => SHOWN | BODY`: what a client gives, what is shown of it, and what is handed over as the body
// of an upload, raw. Where it is `INPUT => the same`, all of it is shown.
const ROWS: &str = r"
POST / HTTP/1.1\r\nHost: a\r\nContent-Length: 3\r\n\r\nabc => POST / HTTP/1.1\r\nHost: a\r\n\r\n | abc
# a body that is cut, and one that another request follows
POST / HTTP/1.1\r\nHost: a\r\nContent-Length: 3\r\n\r\nab => POST / HTTP/1.1\r\nHost: a\r\n\r\n | ab
GET http://b/ HTTP/1.1\r\nContent-Length: 1\r\nHost: a\r\n\r\nxGET / => GET http://b/ HTTP/1.1\r\nHost: a\r\n\r\n | xGET /
# chunks behind an empty line, with lines that end in LF alone
\r\nPUT / HTTP/1.1\nHost: a\nEXPECT: 1\nTransfer-Encoding:  Chunked\r\nB: :\n\n1\r\n => \r\nPUT / HTTP/1.1\nHost: a\nB: :\n\n | 1\r\n
# equal lengths in HTTP/1.0, without a Host
POST / HTTP/1.0\r\nContent-Length: 2, 2\r\nX-Content-Length: 9\r\ncontent-length:2\r\n\r\nhi => POST / HTTP/1.0\r\nX-Content-Length: 9\r\n\r\n | hi
OPTIONS * HTTP/1.1\r\nHost: a\r\nContent-Length: 9223372036854775807\r\n\r\n => OPTIONS * HTTP/1.1\r\nHost: a\r\n\r\n | 
# no body, and one of length 0
GET / HTTP/1.1\r\nHost: a\r\nExpect: 100-continue\r\n\r\nGET / HTTP/1.1\r\n\r\n => the same
POST / HTTP/1.1\r\nHost: a\r\nContent-Length: 0\r\n\r\n => the same
# bodies that are not passed on: other lengths, a length beside chunks, another coding, chunks of HTTP/1.0
POST / HTTP/1.1\r\nHost: a\r\nContent-Length: 3, 4\r\n\r\nabc => the same
POST / HTTP/1.1\r\nHost: a\r\nContent-Length: +3\r\n\r\nabc => the same
POST / HTTP/1.1\r\nHost: a\r\nContent-Length: 9223372036854775808\r\n\r\nabc => the same
POST / HTTP/1.1\r\nHost: a\r\nTransfer-Encoding: chunked\r\nContent-Length: 0\r\n\r\n0\r\n\r\n => the same
POST / HTTP/1.1\r\nHost: a\r\nTransfer-Encoding: gzip, chunked\r\n\r\n0\r\n\r\n => the same
POST / HTTP/1.1\r\nHost: a\r\nTransfer-Encoding: chunked\r\nTransfer-Encoding: chunked\r\n\r\n0\r\n\r\n => the same
POST / HTTP/1.0\r\nTransfer-Encoding: chunked\r\n\r\n0\r\n\r\n => the same
# a tunnel, requests that the check refuses, a client that ends within its head, and no head
CONNECT a:80 HTTP/1.1\r\nHost: a\r\nContent-Length: 3\r\n\r\nabc => the same
POST / HTTP/1.1\r\nContent-Length: 3\r\n\r\nabc => the same
POST * HTTP/1.1\r\nHost: a\r\nContent-Length: 3\r\n\r\nabc => the same
POST http://u@a/ HTTP/1.1\r\nHost: a\r\nContent-Length: 3\r\n\r\nabc => the same
POST / HTTP/1.1\r\nContent-Length: 3\r\n => the same
no head at all => the same
";

// A client that gives these bytes in pieces of so many, waits at its first read and fails at its second.
fn client(rt: &(impl AllocGlobal + Abort), bytes: &[u8], piece: u32) -> MemLink
    ensures { (look_of result).given ≡ [] }
{
    let mut cuts = Vec::new(rt.alloc());
    cuts.resize(bytes.len(), piece).expect(rt, MEMORY);
    MemLink::make(
        rt.alloc(),
        Octets::copy_of(rt.alloc(), bytes).expect(rt, MEMORY),
        cuts,
        4,
        vec![in rt.alloc(); 2u64].expect(rt, MEMORY),
        Vec::new(rt.alloc()),
        vec![in rt.alloc(); 1u64].expect(rt, MEMORY),
        Vec::new(rt.alloc()),
    )
}

// All that the front shows, read into a room of 7 bytes.
fn shown(rt: &(impl AllocGlobal + Abort), front: &mut Front<MemLink>) -> Vec<u8> {
    let mut text = Vec::new(rt.alloc());
    'reads: for _ in 0..MOST_READS {
        let mut room = [0u8; 7];
        match front.read(&mut room) {
            Got::Bytes(count) => text.extend_from_slice(&room[..count]).expect(rt, MEMORY),
            Got::End => return text,
            Got::Again | Got::Failed => {}
        }
    }
    text
}

// All that the front hands over, read into a room of 5 bytes.
fn handed(rt: &(impl AllocGlobal + Abort), front: &mut Front<MemLink>) -> Vec<u8> {
    let mut body = Vec::new(rt.alloc());
    'reads: for _ in 0..MOST_READS {
        let Stage::Uploading(_) = front.stage() else {
            return body;
        };
        let mut room = [0u8; 5];
        match front.read_body(&mut room) {
            Got::Bytes(count) => body.extend_from_slice(&room[..count]).expect(rt, MEMORY),
            Got::End => return body,
            Got::Again | Got::Failed => {}
        }
    }
    body
}

// Holds what a front of this client shows and hands over against what is wanted.
fn check_front(
    rt: &(impl AllocGlobal + Abort),
    bytes: &[u8],
    text: &[u8],
    body: &[u8],
    piece: u32,
) {
    let mut front = Front::make(rt.alloc(), client(rt, bytes, piece)).expect(rt, MEMORY);
    let got = shown(rt, &mut front);
    assert!(rt; got.as_slice() == text, "in pieces of {piece}");
    let rest = handed(rt, &mut front);
    assert!(rt; rest.as_slice() == body, "in pieces of {piece}");
    front.known();
    assert!(rt; front.faults() == 1);
}

// The same at once, in pieces of 5 bytes, and byte by byte.
fn check_row(rt: &(impl AllocGlobal + Abort), bytes: &str, text: &str, body: &str) {
    let given = unescaped(rt, bytes);
    let wanted = unescaped(rt, text);
    let behind = unescaped(rt, body);
    for piece in [1u32, 5, 1000] {
        check_front(
            rt,
            given.as_slice(),
            wanted.as_slice(),
            behind.as_slice(),
            piece,
        );
    }
}

#[test]
fn a_front_shows_a_head_and_hands_over_its_body(rt: HostRuntime) {
    for line in ROWS.lines() {
        let Some((bytes, wanted)) = line.split_once(" => ") else {
            continue;
        };
        match wanted.split_once(" | ") {
            Some((text, body)) => check_row(&rt, bytes, text, body),
            None => check_row(&rt, bytes, bytes, ""),
        }
    }
}

// Holds that a request with an upload is shown and handed over so behind this many empty lines.
fn check_behind_empty_lines(rt: &(impl AllocGlobal + Abort), lines: usize) {
    let mut given = Vec::new(rt.alloc());
    'lines: for _ in 0..lines {
        given.extend_from_slice(b"\r\n").expect(rt, MEMORY);
    }
    let mut wanted = Vec::new(rt.alloc());
    wanted
        .extend_from_slice(given.as_slice())
        .expect(rt, MEMORY);
    wanted
        .extend_from_slice(b"PUT / HTTP/1.1\r\nHost: a\r\n\r\n")
        .expect(rt, MEMORY);
    given
        .extend_from_slice(b"PUT / HTTP/1.1\r\nContent-Length: 2\r\nHost: a\r\n\r\nhi")
        .expect(rt, MEMORY);
    for piece in [1u32, 5, 1000] {
        check_front(rt, given.as_slice(), wanted.as_slice(), b"hi", piece);
    }
}

#[test]
fn a_front_shows_a_head_behind_an_empty_line(rt: HostRuntime) {
    check_behind_empty_lines(&rt, 1);
}

#[test]
fn a_front_shows_a_head_behind_two_empty_lines(rt: HostRuntime) {
    check_behind_empty_lines(&rt, 2);
}

#[test]
fn a_front_shows_a_head_behind_many_empty_lines(rt: HostRuntime) {
    check_behind_empty_lines(&rt, 500);
}

// Holds that the first read of a front gives a whole head without a body, of 27 bytes, and that nothing behind
// it was waited for. It comes in pieces of so many bytes, with which the head ends.
fn check_at_once(rt: &(impl AllocGlobal + Abort), piece: u32) {
    let request = b"GET / HTTP/1.1\r\nHost: a\r\n\r\n";
    let mut given = Vec::new(rt.alloc());
    given.extend_from_slice(request).expect(rt, MEMORY);
    given.extend_from_slice(b"GET").expect(rt, MEMORY);
    let client = giving(rt, given.as_slice(), piece, 1);
    let mut front = Front::make(rt.alloc(), client).expect(rt, MEMORY);
    let mut room = [0u8; 64];
    assert!(rt;
        front.read(&mut room) == Got::Bytes(request.len()),
        "in pieces of {piece}"
    );
    assert!(rt; &room[..request.len()] == request.as_slice());
    assert!(rt; matches!(front.stage(), Stage::Passing));
    front.known();
}

#[test]
fn a_whole_head_without_a_body_is_shown_at_once(rt: HostRuntime) {
    for piece in [1u32, 9, 27] {
        check_at_once(&rt, piece);
    }
}

#[test]
fn what_is_written_to_a_front_is_written_to_its_client(rt: HostRuntime) {
    let mut front = Front::make(rt.alloc(), client(&rt, b"", 1)).expect(&rt, MEMORY);
    assert!(rt; front.write(b"answer") == Put::Took(4));
    assert!(rt; front.write(b"er") == Put::Took(2));
    assert!(rt; front.client().written() == b"answer".as_slice());
    let inside = front.into_client();
    inside.known();
    assert!(rt; inside.written() == b"answer".as_slice());
}

#[test]
fn an_upload_of_the_origin_s_own_gets_the_client_inside(rt: HostRuntime) {
    let request = b"POST / HTTP/1.1\r\nHost: a\r\nContent-Length: 3\r\n\r\nabc";
    let mut origin = client(&rt, b"", 1);
    let mut front = Front::make(rt.alloc(), client(&rt, request, 1000)).expect(&rt, MEMORY);
    let head = shown(&rt, &mut front);
    assert!(rt; head.as_slice() == b"POST / HTTP/1.1\r\nHost: a\r\n\r\n".as_slice());
    assert!(rt; front.upload_inside(&mut origin) == Uploaded::Done);
    assert!(rt; matches!(front.stage(), Stage::Uploading(Framing::Sized(3))));
    let body = handed(&rt, &mut front);
    assert!(rt; body.as_slice() == b"abc".as_slice());
}

#[test]
fn the_laws_hold(_rt: HostRuntime) {
    limits();
    one_shown();
    one_upload();
}
