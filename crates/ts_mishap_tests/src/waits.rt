//! Links that make their caller wait: the same texts, and a pause of 10 milliseconds for each such answer.

use crate::journals::{last_made, last_moment, least_gap};
use crate::plan::{Plan, dripping, dripping_after, giving};
use crate::refusal::Refusal;
use crate::row::{Finding, Row, get, own};
use crate::seen::{Seen, check_between, journal_of, run};
use crate::stated::{ABC, BAD_GATEWAY, GET, GET_SENT, HEAD, SIZED};
use crate::stock::{HTML, HTML_FRONT, STOCK, html};
use std::alloc::Global;
use ts_journal::Entry;
use ts_wire::Mode;

// How long a link that was not ready is left alone, in milliseconds.
const PAUSE: u64 = 10;

// How many calls of a link wait in each of these runs.
const WAITS: u64 = 2;

// Whether a transaction came out as its row states, and its links waited so often.
fn judge_waits(seen: &Seen, waits: (u64, u64)) -> Finding {
    if seen.waits != waits {
        return Finding::OtherWaits;
    }
    seen.finding
}

// Whether a row comes out as stated where its links wait so often.
fn check_waiting(
    alloc: Global,
    row: &Row<'_>,
    client: &Plan<'_>,
    origin: Plan<'_>,
    waits: (u64, u64),
) -> Result<Finding, Refusal> {
    let seen = run(alloc, row, client, Some(origin))?;
    Ok(judge_waits(&seen, waits))
}

// Whether a row comes out as stated where one link waits twice, and so makes two pauses.
fn check_pauses(
    alloc: Global,
    row: &Row<'_>,
    client: &Plan<'_>,
    origin: Option<Plan<'_>>,
    waits: (u64, u64),
) -> Result<Finding, Refusal> {
    let seen = run(alloc, row, client, origin)?;
    if seen.last != PAUSE * WAITS {
        return Ok(Finding::OtherMoment);
    }
    Ok(judge_waits(&seen, waits))
}

#[test]
fn a_client_that_waits_at_each_read(rt: HostRuntime) {
    let row = get(ABC, SIZED, Mode::Plain, b"abc");
    for read in 1..=GET.len() as u64 {
        let client = Plan {
            again_reads: (read, read + 1),
            ..dripping(GET)
        };
        let verdict = check_pauses(rt.alloc(), &row, &client, Some(dripping(ABC)), (WAITS, 0));
        assert_eq!(rt; verdict, Ok(Finding::AsStated), "read {read}");
    }
}

#[test]
fn an_origin_that_waits_at_each_write(rt: HostRuntime) {
    let row = get(ABC, SIZED, Mode::Plain, b"abc");
    for write in 1..=GET_SENT.len() as u64 {
        let origin = Plan {
            again_writes: (write, write + 1),
            ..dripping(ABC)
        };
        let verdict = check_pauses(rt.alloc(), &row, &dripping(GET), Some(origin), (0, WAITS));
        assert_eq!(rt; verdict, Ok(Finding::AsStated), "write {write}");
    }
}

// How many writes of few bytes a client makes at least that gets a body.
const WRITES: u64 = 8;

// How many reads bring the head, and one byte of the body each.
const READS: u64 = 7;

#[test]
fn a_client_that_waits_at_each_write(rt: HostRuntime) {
    let origin = dripping_after(HTML, HTML_FRONT);
    for (place, (lines, body)) in STOCK.iter().enumerate() {
        let row = html(lines, body);
        for write in 1..WRITES {
            let client = Plan {
                again_writes: (write, write + 1),
                ..dripping_after(GET, 0)
            };
            let verdict = check_waiting(rt.alloc(), &row, &client, origin, (WAITS, 0));
            assert_eq!(rt;
                verdict,
                Ok(Finding::AsStated),
                "line {place}, write {write}"
            );
        }
    }
}

#[test]
fn an_origin_that_waits_at_each_read(rt: HostRuntime) {
    let client = dripping_after(GET, 0);
    for (place, (lines, body)) in STOCK.iter().enumerate() {
        let row = html(lines, body);
        for read in 1..=READS {
            let origin = Plan {
                again_reads: (read, read + 1),
                ..dripping_after(HTML, HTML_FRONT)
            };
            let verdict = check_waiting(rt.alloc(), &row, &client, origin, (0, WAITS));
            assert_eq!(rt; verdict, Ok(Finding::AsStated), "line {place}, read {read}");
        }
    }
}

#[test]
fn both_links_wait_at_each_call(rt: HostRuntime) {
    for (place, (lines, body)) in STOCK.iter().enumerate() {
        let row = html(lines, body);
        for (write, read) in [(1, 1), (2, 2), (3, 7), (7, 1), (7, 3), (7, 7)] {
            let client = Plan {
                again_writes: (write, write + 1),
                ..dripping_after(GET, 0)
            };
            let origin = Plan {
                again_reads: (read, read + 1),
                ..dripping_after(HTML, HTML_FRONT)
            };
            let verdict = check_waiting(rt.alloc(), &row, &client, origin, (WAITS, WAITS));
            assert_eq!(rt;
                verdict,
                Ok(Finding::AsStated),
                "line {place}, {write}, {read}"
            );
        }
    }
}

// Pauses while a body is passed on: each link by itself makes two of them.
#[test]
fn a_link_that_waits_is_left_alone_for_ten_milliseconds(rt: HostRuntime) {
    let row = html(b"prepend.so <\n", b"<banana");
    let (client, origin) = (dripping_after(GET, 0), dripping_after(HTML, HTML_FRONT));
    for call in 1..=READS {
        let late = Plan {
            again_writes: (call, call + 1),
            ..client
        };
        let verdict = check_pauses(rt.alloc(), &row, &late, Some(origin), (WAITS, 0));
        assert_eq!(rt; verdict, Ok(Finding::AsStated), "write {call}");
        let late = Plan {
            again_reads: (call, call + 1),
            ..origin
        };
        let verdict = check_pauses(rt.alloc(), &row, &client, Some(late), (0, WAITS));
        assert_eq!(rt; verdict, Ok(Finding::AsStated), "read {call}");
    }
}

#[test]
fn a_client_that_waits_at_its_first_writes(rt: HostRuntime) {
    let page = own(GET, b"", BAD_GATEWAY, b"502 Bad Gateway\n");
    let head = own(HEAD, b"", BAD_GATEWAY, b"");
    for row in [page, head] {
        let row = Row {
            origin: None,
            ..row
        };
        for plan in [dripping(row.request), giving(row.request)] {
            let client = Plan {
                again_writes: (1, 2),
                ..plan
            };
            let verdict = check_pauses(rt.alloc(), &row, &client, None, (WAITS, 0));
            assert_eq!(rt; verdict, Ok(Finding::AsStated));
        }
    }
}

// How long the stage of a line that pauses does nothing between two of its events, in milliseconds.
const DELAY: u64 = 5;

// Whether the continuation that was made last, that of the one stage, paused so long between its events.
fn pauses(entries: &[Entry]) -> bool {
    let Some(stage) = last_made(entries) else {
        return false;
    };
    let (gap, count) = least_gap(entries, stage);
    count >= 2 && gap >= Some(DELAY) && last_moment(entries) % DELAY == 0
}

// Whether the one stage of a row paused.
fn has_paused(
    alloc: Global,
    row: &Row<'_>,
    client: &Plan<'_>,
    origin: Plan<'_>,
) -> Result<bool, Refusal> {
    let journal = journal_of(alloc, row, client, Some(origin))?;
    Ok(pauses(journal.entries()))
}

// Whether a row comes out as stated, and its one stage paused.
fn check_stage(
    alloc: Global,
    row: &Row<'_>,
    client: &Plan<'_>,
    origin: Plan<'_>,
) -> Result<Finding, Refusal> {
    if !has_paused(alloc, row, client, origin)? {
        return Ok(Finding::OtherMoment);
    }
    check_between(alloc, row, client, Some(origin))
}

#[test]
fn a_stage_pauses_between_its_events(rt: HostRuntime) {
    let row = html(b"delay.so 5\n", b"banana");
    let origin = dripping_after(HTML, HTML_FRONT);
    let verdict = check_stage(rt.alloc(), &row, &dripping_after(GET, 0), origin);
    assert_eq!(rt; verdict, Ok(Finding::AsStated));
}
