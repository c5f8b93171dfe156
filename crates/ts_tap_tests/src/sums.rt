//! The count and the sum of a body, however the client takes it.
ghost use Rattle.std.specs.Prelude.{◌≤◌};

use crate::memory::{ALL, IN_CHUNKS, MEMORY, Taking, send, summed};
use std::process::Abort;

// What came of a response through a tap: how many of its bytes the client did not take, and how many bytes of
// body data were counted, and their sum.
type Told = (usize, u64, u64);

// Sends a response in pieces of at most `piece` bytes through a tap that counts the first `most`. The client
// has the bytes that were sent, and the tap is not lost.
fn told(
    rt: &(impl AllocGlobal + Abort),
    taking: Taking,
    most: u64,
    response: &[u8],
    piece: usize,
) -> Told
    requires { 1 ≤ taking.most }
{
    let mut tap = summed(rt, taking, most);
    let left = send(&mut tap, response, piece);
    assert!(rt; !tap.is_lost());
    let (client, sum) = tap.into_sum();
    let (sent, _) = response.split_at(response.len().saturating_sub(left));
    assert!(rt; client.written() == sent);
    (left, sum.count(), sum.sum())
}

// A head, and what follows it.
fn joined(rt: &(impl AllocGlobal + Abort), head: &[u8], body: &[u8]) -> Vec<u8> {
    let mut text = Vec::from_slice(rt.alloc(), head).expect(rt, MEMORY);
    text.extend_from_slice(body).expect(rt, MEMORY);
    text
}

#[test]
fn a_body_in_chunks_has_its_sum_at_every_size_of_writes(rt: HostRuntime) {
    let response = joined(&rt, IN_CHUNKS, b"4\r\n<abc\r\n0\r\n\r\n");
    for most in 1..100usize {
        let taking = Taking { most, ..ALL };
        assert!(rt; told(&rt, taking, 100, &response, 100) == (0, 4, 1_883_814));
        assert!(rt; told(&rt, ALL, 2, &response, most) == (0, 2, 1_957));
    }
}

// A head with these lines before its `connection: close`, and a body.
const AS_IT_IS: &[u8] = b"HTTP/1.1 200 OK\r\ncontent-length: 3\r\nconnection: close\r\n\r\nabc";

const EMPTY: &[u8] = b"HTTP/1.1 200 OK\r\ncontent-length: 0\r\nconnection: close\r\n\r\n";

const TO_HEAD: &[u8] = b"HTTP/1.1 200 OK\r\ncontent-length: 3\r\nconnection: close\r\n\r\n";

const OTHER_NAME: &[u8] =
    b"HTTP/1.1 200 OK\r\nx-transfer-encoding: chunked\r\nconnection: close\r\n\r\n3\r\nabc\r\n0\r\n\r\n";

const OTHER_PLACE: &[u8] =
    b"HTTP/1.1 200 OK\r\ntransfer-encoding: chunked\r\nx: y\r\nconnection: close\r\n\r\nab\r\n\r\ncd";

const CUT_HEAD: &[u8] = b"HTTP/1.1 200 OK\r\ntransfer-encoding: chunked\r\nconnection: close\r\n\r";

const OWN: &[u8] =
    b"HTTP/1.1 502 Bad Gateway\r\ncontent-length: 16\r\nconnection: close\r\n\r\n502 Bad Gateway\n";

#[test]
fn what_follows_the_head_is_body_data_unless_the_head_says_chunked(rt: HostRuntime) {
    let rows: [(&[u8], u64, u64); 8] = [
        (AS_IT_IS, 3, 96_354),
        (EMPTY, 0, 0),
        (TO_HEAD, 0, 0),
        (OTHER_NAME, 13, 3_618_471_270_608_622_363),
        (OTHER_PLACE, 8, 2_756_080_743_740),
        (CUT_HEAD, 0, 0),
        (OWN, 16, 2_979_735_466_076_823_754),
        (b"", 0, 0),
    ];
    for (response, count, sum) in rows {
        for most in [1, 2, 3, usize::MAX] {
            let taking = Taking { most, ..ALL };
            assert!(rt; told(&rt, taking, 100, response, 4096) == (0, count, sum));
        }
    }
}

// What follows a head that says chunked, how many bytes of body data are in it, and their sum.
const CHUNKS: [(&[u8], u64, u64); 8] = [
    (b"", 0, 0),
    (b"0\r\n\r\n", 0, 0),
    (b"3", 0, 0),
    (b"3\r\n", 0, 0),
    (b"3\r\nab", 2, 3_105),
    (b"3\r\nabc", 3, 96_354),
    (b"3\r\nabc\r\n1\r\nd\r\n0\r\nt: u\r\n\r\nmore", 4, 2_987_074),
    (b"3\r\nabcd\r\n", 3, 96_354),
];

#[test]
fn a_body_in_chunks_is_what_its_chunks_hold_however_it_is_cut(rt: HostRuntime) {
    for (body, count, sum) in CHUNKS {
        let response = joined(&rt, IN_CHUNKS, body);
        for piece in 1..120usize {
            assert!(rt; told(&rt, ALL, 100, &response, piece) == (0, count, sum));
        }
    }
}

#[test]
fn a_client_that_waits_fails_or_takes_a_byte_a_write_has_what_it_took_tapped(rt: HostRuntime) {
    let response = joined(&rt, IN_CHUNKS, b"3\r\nabc\r\n0\r\n\r\n");
    let again = Taking {
        again: &[1, 2, 85],
        most: 1,
        ..ALL
    };
    assert!(rt; told(&rt, again, 100, &response, 100) == (0, 3, 96_354));
    let rows: [(u64, usize, u64, u64); 4] = [
        (1, 93, 0, 0),
        (81, 13, 0, 0),
        (85, 9, 1, 97),
        (87, 7, 3, 96_354),
    ];
    for (fails, left, count, sum) in rows {
        let taking = Taking {
            most: 1,
            fail: &[fails],
            ..ALL
        };
        assert!(rt; told(&rt, taking, 100, &response, 100) == (left, count, sum));
    }
}
