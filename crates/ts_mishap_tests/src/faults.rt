//! Links that fail or leave: how the transaction ends, and that what was sent by then is a front of what is
//! stated.

use crate::plan::{Plan, dripping, dripping_after, giving, leaving};
use crate::refusal::Refusal;
use crate::row::{Finding, Row, get, own};
use crate::seen::{MEMORY, check_between, front_at, run};
use crate::stated::{ABC, ABC_FRONT, BAD_GATEWAY, GET, GET_SENT, HEAD, HEAD_SENT, SIZED};
use crate::stock::{HTML, HTML_FRONT, STOCK, html};
use std::alloc::Global;
use ts_hooks::TxnEnd;
use ts_wire::Mode;

// A response of HTML up to the close.
const ENDLESS_HTML: &[u8] = b"HTTP/1.1 200 OK\r\nContent-Type: text/html\r\n\r\nbanana";

// How many bytes of it are its head.
const ENDLESS_FRONT: u32 = 44;

// The answer where the origin fails before its head is whole.
fn gateway_fault(row: Row<'_>) -> Row<'_> {
    Row {
        head: BAD_GATEWAY,
        mode: Mode::Plain,
        body: b"502 Bad Gateway\n",
        end: TxnEnd::OriginFault,
        ..row
    }
}

// An origin that gives these bytes, as many as the head of the response of HTML has at once.
fn html_dripping(gives: &[u8]) -> Plan<'_> {
    dripping_after(gives, HTML_FRONT)
}

// Whether a client that fails or leaves got a front of so many bytes, where the origin gives its body byte by
// byte.
fn check_fault(
    alloc: Global,
    row: &Row<'_>,
    client: &Plan<'_>,
    taken: u64,
) -> Result<Finding, Refusal> {
    let seen = run(alloc, row, client, row.origin.map(html_dripping))?;
    if seen.taken != taken {
        return Ok(Finding::OtherText);
    }
    Ok(front_at(&seen, TxnEnd::ClientFault))
}

// Whether a client that leaves when it has taken so many bytes got a front of them.
fn check_leaving(alloc: Global, row: &Row<'_>, at: u64) -> Result<Finding, Refusal> {
    check_fault(alloc, row, &leaving(row.request, at), at)
}

// Whether a client whose write of this number fails got a front of all before it, where each write takes one
// byte.
fn check_failing(alloc: Global, row: &Row<'_>, write: u64) -> Result<Finding, Refusal> {
    let client = Plan {
        fail_write: write,
        take: 1,
        ..giving(row.request)
    };
    check_fault(alloc, row, &client, write.saturating_sub(1))
}

#[test]
fn a_client_that_leaves_in_its_head_got_a_front(rt: HostRuntime) {
    let row = html(b"prepend.so <\n", b"<banana");
    for at in 0..row.head.len() as u64 {
        let verdict = check_leaving(rt.alloc(), &row, at);
        assert_eq!(rt; verdict, Ok(Finding::AsStated), "at {at}");
    }
}

#[test]
fn a_client_that_leaves_in_an_answer_of_the_proxys_own_got_a_front(rt: HostRuntime) {
    let page = own(GET, b"", BAD_GATEWAY, b"502 Bad Gateway\n");
    let head = own(HEAD, b"", BAD_GATEWAY, b"");
    for row in [page, head] {
        let row = Row {
            origin: None,
            ..row
        };
        for at in 0..(row.head.len() + row.body.len()) as u64 {
            let verdict = check_leaving(rt.alloc(), &row, at);
            assert_eq!(rt; verdict, Ok(Finding::AsStated), "at {at}");
        }
    }
}

#[test]
fn a_client_that_leaves_in_its_body_got_a_front(rt: HostRuntime) {
    for (place, (lines, body)) in STOCK.iter().enumerate() {
        let row = html(lines, body);
        let origin = row.origin.map(html_dripping);
        let whole = run(rt.alloc(), &row, &giving(GET), origin).expect(&rt, MEMORY);
        assert_eq!(rt; whole.finding, Finding::AsStated, "line {place}");
        for at in row.head.len() as u64..whole.taken {
            let verdict = check_leaving(rt.alloc(), &row, at);
            assert_eq!(rt; verdict, Ok(Finding::AsStated), "line {place}, at {at}");
        }
    }
}

#[test]
fn a_client_that_fails_at_each_write_got_a_front(rt: HostRuntime) {
    let row = html(b"prepend.so <\n", b"<banana");
    // Each of the seven bytes goes in a chunk of its own at most.
    let least = row.head.len() as u64 + 17;
    for write in 1..=least {
        let verdict = check_failing(rt.alloc(), &row, write);
        assert_eq!(rt; verdict, Ok(Finding::AsStated), "write {write}");
    }
}

// Whether an origin whose read of this number fails is answered for by all that was framed, where it gives
// one byte a read behind its head.
fn check_origin(
    alloc: Global,
    row: &Row<'_>,
    gives: &[u8],
    front: u32,
    read: u64,
) -> Result<Finding, Refusal> {
    let failed = Row {
        end: TxnEnd::OriginFault,
        ..*row
    };
    let origin = Plan {
        fail_read: read,
        ..dripping_after(gives, front)
    };
    let at_once = check_between(alloc, &failed, &giving(GET), Some(origin))?;
    if at_once != Finding::AsStated {
        return Ok(at_once);
    }
    check_between(alloc, &failed, &dripping_after(GET, 0), Some(origin))
}

#[test]
fn an_origin_that_fails_in_its_body_gave_a_front(rt: HostRuntime) {
    for (place, (lines, body)) in STOCK.iter().enumerate() {
        let row = html(lines, body);
        // The first read brings the head, and each of the other six a byte.
        for read in 2..=7 {
            let verdict = check_origin(rt.alloc(), &row, HTML, HTML_FRONT, read);
            assert_eq!(rt; verdict, Ok(Finding::AsStated), "line {place}, read {read}");
        }
        // Of a body up to the close one more read brings its end.
        for read in 2..=8 {
            let verdict = check_origin(rt.alloc(), &row, ENDLESS_HTML, ENDLESS_FRONT, read);
            assert_eq!(rt;
                verdict,
                Ok(Finding::AsStated),
                "line {place}, endless, read {read}"
            );
        }
    }
}

#[test]
fn an_origin_that_fails_in_its_head_is_answered_for(rt: HostRuntime) {
    let row = gateway_fault(html(b"prepend.so <\n", b""));
    for read in 1..=u64::from(HTML_FRONT) {
        let origin = Plan {
            fail_read: read,
            ..dripping(HTML)
        };
        let verdict = check_between(rt.alloc(), &row, &giving(GET), Some(origin));
        assert_eq!(rt; verdict, Ok(Finding::AsStated), "read {read}");
    }
    let head = Row {
        end: TxnEnd::OriginFault,
        ..own(HEAD, HEAD_SENT, BAD_GATEWAY, b"")
    };
    for read in [1, 2, 17] {
        let origin = Plan {
            fail_read: read,
            ..dripping(b"HTTP/1.1 200 OK\r\n")
        };
        let verdict = check_between(rt.alloc(), &head, &giving(HEAD), Some(origin));
        assert_eq!(rt; verdict, Ok(Finding::AsStated), "HEAD, read {read}");
    }
}

#[test]
fn an_origin_that_fails_at_each_write_is_answered_for(rt: HostRuntime) {
    for write in 1..=GET_SENT.len() {
        let (sent, _) = GET_SENT.split_at(write - 1);
        let row = gateway_fault(Row {
            sent,
            ..get(ABC, SIZED, Mode::Plain, b"")
        });
        let origin = Plan {
            fail_write: write as u64,
            ..dripping(ABC)
        };
        let verdict = check_between(rt.alloc(), &row, &giving(GET), Some(origin));
        assert_eq!(rt; verdict, Ok(Finding::AsStated), "write {write}");
    }
}

#[test]
fn a_client_that_fails_at_each_read_gets_nothing(rt: HostRuntime) {
    let row = Row {
        sent: b"",
        end: TxnEnd::ClientFault,
        ..get(ABC, b"", Mode::Plain, b"")
    };
    for read in 1..=GET.len() as u64 {
        let client = Plan {
            fail_read: read,
            ..dripping(GET)
        };
        let verdict = check_between(rt.alloc(), &row, &client, Some(giving(ABC)));
        assert_eq!(rt; verdict, Ok(Finding::AsStated), "read {read}");
    }
}

// Whether a client whose write of this number fails, where each write takes one byte, got a front and decides
// the end.
fn check_last(
    alloc: Global,
    row: &Row<'_>,
    write: u64,
    origin: Plan<'_>,
) -> Result<Finding, Refusal> {
    let client = Plan {
        fail_write: write,
        take: 1,
        ..giving(GET)
    };
    let seen = run(alloc, row, &client, Some(origin))?;
    Ok(front_at(&seen, TxnEnd::ClientFault))
}

// A client that fails while the rest of a body is sent that was cut, or whose origin failed.
#[test]
fn a_client_that_fails_last_decides_the_end(rt: HostRuntime) {
    let row = get(ABC, SIZED, Mode::Plain, b"abc");
    let (front, _) = ABC.split_at(ABC.len() - 1);
    let cut = giving(front);
    let failing = Plan {
        fail_read: 3,
        ..dripping_after(ABC, ABC_FRONT)
    };
    for origin in [cut, failing] {
        for write in 1..=SIZED.len() as u64 {
            let verdict = check_last(rt.alloc(), &row, write, origin);
            assert_eq!(rt; verdict, Ok(Finding::AsStated), "write {write}");
        }
    }
}
