//! Exchanges of which an allocation may be refused: one of them ends for want of memory with a front of what
//! is stated, and all are whole when they are made again.

use crate::plan::{dripping_after, giving};
use crate::refusal::Refusal;
use crate::row::{Finding, Row, get, own};
use crate::seen::{front_at, run};
use crate::stated::{ABC, BAD_GATEWAY, GET, GET_SENT, SIZED};
use crate::stock::html;
use std::alloc::Global;
use ts_hooks::TxnEnd;
use ts_wire::Mode;

// The response of HTML in chunks, and how much of it is its head.
const CHUNKS: &[u8] =
    b"HTTP/1.1 200 OK\r\nContent-Type: text/html\r\nTransfer-Encoding: chunked\r\n\r\n3\r\nban\r\n3\r\n\
ana\r\n0\r\n\r\n";

const FRONT: u32 = 72;

// What the origin gets of a request after a rule, and the client's head after another.
const RULED_SENT: &[u8] =
    b"GET / HTTP/1.1\r\nhost: a\r\nx-a: 1\r\nvia: 1.1 tsx\r\nconnection: close\r\n\r\n";

const RULED: &[u8] = b"HTTP/1.1 200 OK\r\nx-b: 2\r\nvia: 1.1 tsx\r\ncontent-length: 3\r\n\
connection: close\r\n\r\n";

// Whether an exchange whose origin gives this comes out as stated, or lacks memory and gives a front.
fn check_spare(alloc: Global, row: &Row<'_>, gives: &[u8]) -> Result<Finding, Refusal> {
    let origin = dripping_after(gives, FRONT);
    let seen = run(alloc, row, &giving(GET), Some(origin))?;
    if seen.end != Some(TxnEnd::NoMemory) {
        return Ok(seen.finding);
    }
    match front_at(&seen, TxnEnd::NoMemory) {
        Finding::AsStated => Ok(Finding::Lacks),
        other => Ok(other),
    }
}

// What comes of four exchanges one after the other: as they are stated, or the first that is other.
fn check_rows(alloc: Global) -> Result<Finding, Refusal> {
    let lines = b"drop.so n\nbnull_transform.so\nprepend.so <\nappend_transform.so f\nmap.so a o\n";
    let ruled = Row {
        lines: b"denylist.so b\nheader.so request set x-a 1\nheader.so response add x-b 2\n",
        sent: RULED_SENT,
        ..get(ABC, RULED, Mode::Plain, b"abc")
    };
    let rows: [(Row<'_>, &[u8]); 4] = [
        (get(ABC, SIZED, Mode::Plain, b"abc"), ABC),
        (ruled, ABC),
        (html(lines, b"<booo<hr>"), CHUNKS),
        (own(GET, GET_SENT, BAD_GATEWAY, b"502 Bad Gateway\n"), b""),
    ];
    for (row, gives) in rows.iter() {
        let finding = check_spare(alloc, row, gives)?;
        if finding != Finding::AsStated {
            return Ok(finding);
        }
    }
    Ok(Finding::AsStated)
}

// With ample memory each exchange is whole. Run with each allocation refused in turn (`rt try --test
// --fail-alloc N`, N from 1 on), one of them gives a front, or a call for it answers want of memory. Since
// one allocation alone is refused, no second one may lack: all four are whole when they are made again.
#[test]
fn one_exchange_gives_a_front_and_all_are_whole_at_the_last(rt: HostRuntime) {
    let verdict = match check_rows(rt.alloc()) {
        Ok(Finding::Lacks) => check_rows(rt.alloc()),
        Err(Refusal::NoMemory) => check_rows(rt.alloc()),
        other => other,
    };
    assert_eq!(rt; verdict, Ok(Finding::AsStated));
}
