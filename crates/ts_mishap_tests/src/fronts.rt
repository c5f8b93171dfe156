//! Bodies that are cut, go wrong or are ended early: how much of them the client gets, without an end.

use crate::plan::{dripping, dripping_after, giving};
use crate::refusal::Refusal;
use crate::row::{Finding, Row, chunked, get};
use crate::seen::{check, check_at_once, check_between};
use crate::stated::{ABC, ABC_FRONT, CHUNKED, GET, IN_CHUNKS, SIZED, response};
use crate::stock::{HTML, HTML_FRONT, STOCK, html};
use std::alloc::Global;
use ts_hooks::TxnEnd;
use ts_wire::Mode;

// A response of HTML in chunks with an extension and a trailer.
const CHUNKS: &[u8] =
    b"HTTP/1.1 200 OK\r\nContent-Type: text/html\r\nTransfer-Encoding: chunked\r\n\r\n3;x=1\r\nban\r\n\
3\r\nana\r\n0\r\nT: 1\r\n\r\n";

// How many bytes of it are its head.
const CHUNKS_FRONT: u32 = 72;

// Whether a client gets a front of this body, with nothing configured, and with a byte put first.
fn check_front(alloc: Global, front: &[u8]) -> [Result<Finding, Refusal>; 2] {
    let row = Row {
        end: TxnEnd::OriginCut,
        ..get(front, SIZED, Mode::Plain, b"ab")
    };
    let lined = Row {
        end: TxnEnd::OriginCut,
        lines: b"prepend.so <\n",
        ..get(front, CHUNKED, Mode::Chunked, b"<ab")
    };
    [check(alloc, &row), check(alloc, &lined)]
}

#[test]
fn a_body_that_is_cut_is_a_front(rt: HostRuntime) {
    assert_eq!(rt; ABC.split_at(ABC_FRONT as usize).1, b"abc".as_slice());
    for at in ABC_FRONT as usize..ABC.len() {
        let (front, _) = ABC.split_at(at);
        let verdicts = check_front(rt.alloc(), front);
        assert_eq!(rt;
            verdicts,
            [Ok(Finding::AsStated), Ok(Finding::AsStated)],
            "at {at}"
        );
    }
}

// All that came of it is passed on, where the client takes it at once and no line holds it back.
#[test]
fn a_front_of_a_body_of_a_stated_length_is_passed_on(rt: HostRuntime) {
    let gives = b"HTTP/1.1 200 OK\r\nContent-Length: 5\r\n\r\nhel";
    let row = Row {
        end: TxnEnd::OriginCut,
        least: 3,
        ..get(
            gives,
            b"HTTP/1.1 200 OK\r\nvia: 1.1 tsx\r\ncontent-length: 5\r\nconnection: close\r\n\r\n",
            Mode::Plain,
            b"hel",
        )
    };
    let verdicts = [
        check_at_once(rt.alloc(), &row),
        check_between(rt.alloc(), &row, &giving(GET), Some(dripping(gives))),
    ];
    assert_eq!(rt; verdicts, [Ok(Finding::AsStated), Ok(Finding::AsStated)]);
}

// Whether a client gets this body of such a front of the chunks, which come at once, and byte by byte after
// their head.
fn check_cut(
    alloc: Global,
    lines: &[u8],
    body: &[u8],
    front: &[u8],
    end: TxnEnd,
) -> Result<Finding, Refusal> {
    let row = Row {
        end,
        ..html(lines, body)
    };
    let at_once = check_between(alloc, &row, &giving(GET), Some(giving(front)))?;
    if at_once != Finding::AsStated {
        return Ok(at_once);
    }
    let origin = dripping_after(front, CHUNKS_FRONT);
    check_between(alloc, &row, &dripping_after(GET, 0), Some(origin))
}

#[test]
fn chunks_that_are_cut_are_a_front(rt: HostRuntime) {
    for (place, (lines, body)) in STOCK.iter().enumerate() {
        for at in CHUNKS_FRONT as usize..CHUNKS.len() {
            let (front, _) = CHUNKS.split_at(at);
            let cut = check_cut(rt.alloc(), lines, body, front, TxnEnd::OriginCut);
            assert_eq!(rt; cut, Ok(Finding::AsStated), "line {place}, at {at}");
        }
        let whole = check_cut(rt.alloc(), lines, body, CHUNKS, TxnEnd::Whole);
        assert_eq!(rt; whole, Ok(Finding::AsStated), "line {place}");
    }
}

// A response in chunks that go wrong.
fn bad_row<'a>(lines: &'a [u8], origin: &'a [u8], body: &'a [u8]) -> Row<'a> {
    Row {
        end: TxnEnd::OriginBad,
        ..chunked(lines, origin, body)
    }
}

// Whether a client gets this body of a response in chunks that go wrong.
fn check_bad(alloc: Global, chunks: &[u8], lines: &[u8], body: &[u8]) -> Result<Finding, Refusal> {
    let origin = response(alloc, IN_CHUNKS, chunks)?;
    check(alloc, &bad_row(lines, origin.as_slice(), body))
}

// Chunks that go wrong, and how much of them is a body.
const BAD_CHUNKS: [(&[u8], &[u8]); 8] = [
    (b"x\r\n", b""),
    (b"3\r\nabcX", b"abc"),
    (b"3\r\nabc\rX", b"abc"),
    (b"3\r\nabc\r\nx\r\n0\r\n\r\n", b"abc"),
    (b"3\r\nabc\r\n-1\r\n", b"abc"),
    // More than 2^63 - 1 bytes.
    (b"8000000000000000\r\nabc", b""),
    (b"3\r\nabc\r\n7fffffffffffffff\r\nabc", b"abc"),
    // A trailer that is no field.
    (b"3\r\nabc\r\n0\r\n\x00\r\n\r\n", b"abc"),
];

// A body that is held back is not sent at all.
#[test]
fn bad_chunks_end_a_body_at_a_front(rt: HostRuntime) {
    for (place, (chunks, body)) in BAD_CHUNKS.iter().enumerate() {
        let verdicts = [
            check_bad(rt.alloc(), chunks, b"", body),
            check_bad(rt.alloc(), chunks, b"bnull_transform.so\n", b""),
        ];
        assert_eq!(rt;
            verdicts,
            [Ok(Finding::AsStated), Ok(Finding::AsStated)],
            "row {place}, held back"
        );
    }
    let lined = check_bad(rt.alloc(), b"3\r\nabcX", b"prepend.so <", b"<abc");
    assert_eq!(rt; lined, Ok(Finding::AsStated));
}

// Whether chunks of this front, and so many of this text behind it, go wrong behind this body.
fn check_limited(
    alloc: Global,
    front: &[u8],
    text: &[u8],
    count: usize,
    body: &[u8],
) -> Result<Finding, Refusal> {
    let mut chunks = Vec::from_slice(alloc, front)?;
    for _ in 0..count {
        chunks.extend_from_slice(text)?;
    }
    check_bad(alloc, chunks.as_slice(), b"", body)
}

// A chunk line of 4,096 bytes that has not ended, and a trailer section of 65 fields.
#[test]
fn a_chunk_line_and_a_trailer_have_their_limits(rt: HostRuntime) {
    let verdicts = [
        check_limited(rt.alloc(), b"3;", b"a", 4_094, b""),
        check_limited(rt.alloc(), b"3\r\nabc\r\n0\r\n", b"T: 1\r\n", 65, b"abc"),
    ];
    assert_eq!(rt; verdicts, [Ok(Finding::AsStated), Ok(Finding::AsStated)]);
}

// The front of a text, of at most so many bytes.
fn front_of(text: &[u8], most: usize) -> &[u8] {
    text.split_at(most.min(text.len())).0
}

// The row of a body that does not end whole, of which the client gets all of this.
fn stopped<'a>(end: TxnEnd, row: Row<'a>) -> Row<'a> {
    Row {
        end,
        least: row.body.len(),
        ..row
    }
}

// Whether a body of a stated length that ends after so many bytes is whole behind a limit that it has
// reached, and is cut off behind one that it has not.
fn check_limit(alloc: Global, limit: usize, came: usize) -> Result<Finding, Refusal> {
    let lines = format!(in alloc; "limit.so {limit}\n")?;
    let origin = front_of(ABC, came.saturating_add(ABC_FRONT as usize));
    let row = Row {
        lines: lines.as_bytes(),
        ..get(
            origin,
            CHUNKED,
            Mode::Chunked,
            front_of(b"abc", came.min(limit)),
        )
    };
    if limit <= came {
        return check(alloc, &row);
    }
    check(alloc, &stopped(TxnEnd::OriginCut, row))
}

#[test]
fn a_body_that_is_cut_before_a_limit_at_it_and_behind_it(rt: HostRuntime) {
    for limit in 0..5 {
        for came in 0..3 {
            let verdict = check_limit(rt.alloc(), limit, came);
            assert_eq!(rt;
                verdict,
                Ok(Finding::AsStated),
                "limit {limit}, {came} came"
            );
        }
    }
}

// Lines, chunks that break off or go wrong before they end early, what becomes of them, and how that ends.
const STOPPED: [(&[u8], &[u8], &[u8], TxnEnd); 5] = [
    (b"limit.so 4\n", b"3\r\nabcX", b"abc", TxnEnd::OriginBad),
    (b"limit.so 1\n", b"x\r\n", b"", TxnEnd::OriginBad),
    (b"limit.so 4\n", b"3\r\nabc", b"abc", TxnEnd::OriginCut),
    (
        b"bnull_transform.so\nlimit.so 2\n",
        b"3\r\nabc",
        b"",
        TxnEnd::OriginCut,
    ),
    (b"prepend.so <\nlimit.so 1\n", b"", b"", TxnEnd::OriginCut),
];

// Whether a response in chunks through these lines comes to this body and this end.
fn check_stopped(
    alloc: Global,
    lines: &[u8],
    chunks: &[u8],
    body: &[u8],
    end: TxnEnd,
) -> Result<Finding, Refusal> {
    let origin = response(alloc, IN_CHUNKS, chunks)?;
    check(
        alloc,
        &stopped(end, chunked(lines, origin.as_slice(), body)),
    )
}

#[test]
fn chunks_that_stop_before_a_limit(rt: HostRuntime) {
    for (place, (lines, chunks, body, end)) in STOPPED.iter().enumerate() {
        let verdict = check_stopped(rt.alloc(), lines, chunks, body, *end);
        assert_eq!(rt; verdict, Ok(Finding::AsStated), "row {place}");
    }
}

// Lines, a text, and how much of it they have written in time of the first bytes of `banana`, from none
// of them to five.
const IN_TIME: [(&[u8], &[u8], [usize; 6]); 9] = [
    (b"null_transform.so\n", b"banana", [0, 1, 2, 3, 4, 5]),
    (b"append_transform.so f\n", b"banana", [0, 1, 2, 3, 4, 5]),
    (b"bnull_transform.so\n", b"", [0, 0, 0, 0, 0, 0]),
    (b"prepend.so <\n", b"<banana", [0, 2, 3, 4, 5, 6]),
    (b"map.so a o\n", b"bonono", [0, 1, 2, 3, 4, 5]),
    (b"drop.so a\n", b"bnn", [0, 1, 1, 2, 2, 3]),
    (b"delay.so 5\n", b"banana", [0, 1, 2, 3, 4, 5]),
    (b"limit.so 6\n", b"banana", [0, 1, 2, 3, 4, 5]),
    (
        b"drop.so b\nprepend.so <\nappend_transform.so f\nlimit.so 6\nmap.so a o\n",
        b"<onon",
        [0, 0, 2, 3, 4, 5],
    ),
];

// Whether a body of HTML that is cut after so many bytes comes through these lines as this.
fn check_in_time<'a>(
    alloc: Global,
    lines: &'a [u8],
    came: usize,
    body: &'a [u8],
) -> Result<Finding, Refusal> {
    let row = Row {
        origin: Some(front_of(HTML, came.saturating_add(HTML_FRONT as usize))),
        ..html(lines, body)
    };
    check(alloc, &stopped(TxnEnd::OriginCut, row))
}

#[test]
fn of_a_body_that_is_cut_all_comes_that_was_written_in_time(rt: HostRuntime) {
    for (place, (lines, text, lengths)) in IN_TIME.iter().enumerate() {
        for (came, length) in lengths.iter().enumerate() {
            let verdict = check_in_time(rt.alloc(), lines, came, front_of(text, *length));
            assert_eq!(rt; verdict, Ok(Finding::AsStated), "row {place}, {came} came");
        }
    }
}
