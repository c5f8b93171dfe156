//! Uploads that do not get through: origins that fail or leave within one, and clients that break off within
//! their body. An origin that answers early is heard once the upload is through.

use crate::server::row::{all_come, check};
use crate::server::uploads::{CUT, CUT_SENT, POST, POST_SENT, posting};
use std::process::Abort;
use std::sync::Wait;
use std::thread::Threads;
use ts_hooks::TxnEnd;
use ts_mem_nets::links::{Counting, Side, Stalling, at_once, staying, steady};
use ts_mem_nets::stated::{ABC, BAD_GATEWAY};
use ts_mem_nets::visit::{Visit, page};

// An origin that takes one byte a write, and whose write of this number fails, has got the bytes before it.
// Its client is told that nothing came of it.
fn fails_at_a_write<R: Abort + AllocGlobal + Threads + Wait + Sync>(rt: &R, write: u64) {
    let numbers = [write];
    let brought = (write as usize).saturating_sub(1);
    let (sent, _) = POST_SENT.split_at(brought.min(POST_SENT.len()));
    let origin = Side::Counting(Counting {
        take: 1,
        failing_writes: &numbers,
        ..steady(ABC)
    });
    let failing = Visit {
        origin: Some(origin),
        sent,
        taken: BAD_GATEWAY,
        end: TxnEnd::OriginFault,
        ..posting(at_once(POST))
    };
    check(rt, &all_come(&[failing, posting(at_once(POST))]));
}

// The head that the origin gets has 80 bytes, and the body behind it has three.
#[test]
fn an_origin_fails_within_an_upload(rt: HostRuntime) {
    for write in 81..=83 {
        fails_at_a_write(&rt, write);
    }
}

// What an origin answers to whom its upload is too long, and what the client gets of that.
const TOO_LONG: &[u8] = b"HTTP/1.1 413 Content Too Large\r\nContent-Length: 3\r\n\r\nno\n";

const TOO_LONG_TAKEN: &[u8] =
    b"HTTP/1.1 413 Content Too Large\r\nvia: 1.1 tsx\r\ncontent-length: 3\r\nconnection: close\r\n\r\nno\n";

// The front of what an origin gets, up to the first byte of the body.
const ONE_SENT: &[u8] =
    b"POST / HTTP/1.1\r\nhost: a\r\nvia: 1.1 tsx\r\nconnection: close\r\ncontent-length: 3\r\n\r\na";

// An answer that is there before the body has come is passed on once the whole body was sent. Where the origin
// takes no more of it than one byte, that answer is not read.
#[test]
fn an_origin_answers_within_an_upload(rt: HostRuntime) {
    let late = Side::Stalling(Stalling {
        stalls_at: CUT.len(),
        stall: 100,
        ..staying(POST)
    });
    let heard = Visit {
        origin: Some(at_once(TOO_LONG)),
        taken: TOO_LONG_TAKEN,
        ..posting(late)
    };
    let leaving = Side::Stalling(Stalling {
        leave: Some(ONE_SENT.len() as u64),
        ..staying(TOO_LONG)
    });
    let unheard = Visit {
        origin: Some(leaving),
        sent: ONE_SENT,
        taken: BAD_GATEWAY,
        end: TxnEnd::OriginFault,
        ..posting(late)
    };
    check(&rt, &all_come(&[heard, unheard, page()]));
}

// A client that gives its head with one byte of the body, and then one byte more, of which the read of this
// number fails: it gets nothing, and its origin has got what came.
fn failing_at<'a>(read: &'a [u64; 1], sent: &'a [u8]) -> Visit<'a> {
    Visit {
        sent,
        taken: b"",
        end: TxnEnd::ClientFault,
        ..posting(Side::Counting(Counting {
            cuts: &[48, 1],
            failing_reads: read,
            ..steady(POST)
        }))
    }
}

#[test]
fn a_client_fails_within_its_body(rt: HostRuntime) {
    let visits = [
        failing_at(&[2], ONE_SENT),
        failing_at(&[3], CUT_SENT),
        page(),
    ];
    check(&rt, &all_come(&visits));
}

// A client that gives so much of its request, takes so many bytes, and leaves.
fn leaving<'a>(gives: &'a [u8], sent: &'a [u8], taken: &'a [u8]) -> Visit<'a> {
    Visit {
        sent,
        taken,
        end: TxnEnd::ClientFault,
        ..posting(Side::Stalling(Stalling {
            leave: Some(taken.len() as u64),
            ..staying(gives)
        }))
    }
}

// The first line of the answer to a body that is cut.
const FIRST_LINE: &[u8] = b"HTTP/1.1 400 Bad Request\r\n";

// Of that answer a client gets as much as it takes. Where it leaves before its answer, its origin has got the
// body all the same.
#[test]
fn a_client_leaves_within_its_body(rt: HostRuntime) {
    let visits = [
        leaving(CUT, CUT_SENT, b""),
        leaving(CUT, CUT_SENT, FIRST_LINE),
        leaving(POST, POST_SENT, b""),
        page(),
    ];
    check(&rt, &all_come(&visits));
}
