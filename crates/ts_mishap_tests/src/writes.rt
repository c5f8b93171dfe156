//! In how many writes an answer goes out: where its head and its body are at hand, in one.

use crate::plan::{Plan, dripping_after, giving};
use crate::refusal::Refusal;
use crate::row::{Finding, Row, chunked, get};
use crate::seen::{MEMORY, check_between, front_at, run};
use crate::stated::{ABC, ABC_FRONT, GET, SIZED};
use crate::stock::{HTML, HTML_FRONT, html};
use std::alloc::Global;
use ts_hooks::TxnEnd;
use ts_wire::Mode;

// One line that passes its bytes on, two, and as many as there may be.
const LINES: [&[u8]; 3] = [
    b"null_transform.so\n",
    b"null_transform.so\nnull_transform.so\n",
    b"null_transform.so\nnull_transform.so\nnull_transform.so\nnull_transform.so\nnull_transform.so\n\
null_transform.so\nnull_transform.so\nnull_transform.so\nnull_transform.so\nnull_transform.so\n\
null_transform.so\nnull_transform.so\nnull_transform.so\nnull_transform.so\nnull_transform.so\n\
null_transform.so\n",
];

// How many bytes a client takes a write that takes less than a head, and more than half of an answer.
const PART: usize = 70;

// Whether a row comes out as stated for a client that takes so many bytes a write and whose write of this
// number fails, where its origin gives all at once.
fn check_writes(
    alloc: Global,
    row: &Row<'_>,
    take: usize,
    fail_write: u64,
) -> Result<Finding, Refusal> {
    let client = Plan {
        take,
        fail_write,
        ..giving(row.request)
    };
    check_between(alloc, row, &client, row.origin.map(giving))
}

// Whether a row comes out as stated for a client that takes all of it in one write, and for one that takes it
// in two.
fn check_few(alloc: Global, row: &Row<'_>) -> Result<[Finding; 2], Refusal> {
    let whole = check_writes(alloc, row, usize::MAX, 2)?;
    let parts = check_writes(alloc, row, PART, 3)?;
    Ok([whole, parts])
}

// What comes of a client that takes all of it in one write, and of one that takes it in two.
const FEW: Result<[Finding; 2], Refusal> = Ok([Finding::AsStated, Finding::AsStated]);

#[test]
fn a_small_answer_goes_out_in_one_write(rt: HostRuntime) {
    let alone = get(ABC, SIZED, Mode::Plain, b"abc");
    assert_eq!(rt; check_few(rt.alloc(), &alone), FEW);
    for (place, lines) in LINES.iter().enumerate() {
        let row = chunked(lines, ABC, b"abc");
        assert_eq!(rt; check_few(rt.alloc(), &row), FEW, "row {place}");
    }
}

// A line that passes nothing on before the end of its body, between others that do.
#[test]
fn an_answer_that_a_line_holds_back_goes_out_in_one_write(rt: HostRuntime) {
    let row = html(
        b"drop.so n\nbnull_transform.so\nprepend.so <\nappend_transform.so f\nmap.so a o\n",
        b"<booo<hr>",
    );
    assert_eq!(rt; check_few(rt.alloc(), &row), FEW);
}

// How many bytes a client took whose second write fails.
fn taken_at_first(alloc: Global, row: &Row<'_>, origin: Plan<'_>) -> Result<u64, Refusal> {
    let client = Plan {
        fail_write: 2,
        ..giving(row.request)
    };
    let seen = run(alloc, row, &client, Some(origin))?;
    match front_at(&seen, TxnEnd::ClientFault) {
        Finding::AsStated => Ok(seen.taken),
        _ => Ok(0),
    }
}

// A body whose first bytes come in a later read, and one whose line pauses.
#[test]
fn a_body_that_has_still_to_come_keeps_no_head_back(rt: HostRuntime) {
    for lines in LINES {
        let row = chunked(lines, ABC, b"abc");
        let taken = taken_at_first(rt.alloc(), &row, dripping_after(ABC, ABC_FRONT));
        assert_eq!(rt; taken, Ok(row.head.len() as u64));
    }
    let late = html(b"map.so a o\ndelay.so 5\n", b"bonono");
    let taken = taken_at_first(rt.alloc(), &late, giving(HTML));
    assert_eq!(rt; taken, Ok(late.head.len() as u64));
}

// The read of the origin that waits, long after the first bytes of the body have come to the line.
const LATE: u64 = 6;

// A line that holds its bytes back keeps no head back, though each read of its origin brings more of them: the
// head is tried before the origin first waits.
#[test]
fn a_line_that_holds_its_bytes_back_keeps_no_head_back(rt: HostRuntime) {
    let row = html(b"bnull_transform.so\n", b"banana");
    let client = Plan {
        fail_write: 1,
        ..giving(GET)
    };
    let origin = Plan {
        again_reads: (LATE, LATE),
        ..dripping_after(HTML, HTML_FRONT + 1)
    };
    let seen = run(rt.alloc(), &row, &client, Some(origin)).expect(&rt, MEMORY);
    assert_eq!(rt; front_at(&seen, TxnEnd::ClientFault), Finding::AsStated);
    assert_eq!(rt; seen.waits, (0, 0));
}
