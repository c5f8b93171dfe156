//! Why serving a net ends: as many clients came as were to, the net is closed, or it failed.

use crate::command::MEMORY;
use crate::server::row::{Row, all_come, check, serve_row};
use std::process::Abort;
use std::sync::Wait;
use std::thread::Threads;
use ts_hooks::TxnEnd;
use ts_link::OpenGate;
use ts_mem_nets::links::{Counting, Side, at_once, steady};
use ts_mem_nets::pages::{mixed_visits_of, pages_of, visits_of};
use ts_mem_nets::stated::{BAD_GATEWAY, CHUNKED, GET};
use ts_mem_nets::visit::{Visit, page};
use ts_serve::Served;

// The net is closed once each client came, also where there is none.
#[test]
fn a_closed_net_is_served_whole(rt: HostRuntime) {
    let pages = pages_of(rt.alloc(), 3).expect(&rt, MEMORY);
    let visits = mixed_visits_of(rt.alloc(), pages.as_slice()).expect(&rt, MEMORY);
    check(&rt, &all_come(visits.as_slice()));
    check(&rt, &all_come(&[]));
}

// An accept that waits is made again.
#[test]
fn a_net_that_waits_is_asked_again(rt: HostRuntime) {
    let pages = pages_of(rt.alloc(), 3).expect(&rt, MEMORY);
    let visits = mixed_visits_of(rt.alloc(), pages.as_slice()).expect(&rt, MEMORY);
    let waiting = Row {
        again: &[1, 2, 4, 5, 6],
        ..all_come(visits.as_slice())
    };
    check(&rt, &waiting);
}

// Who came before a net failed is served to the end, and nobody comes after.
#[test]
fn a_net_that_fails_is_asked_for_nobody_more(rt: HostRuntime) {
    let pages = pages_of(rt.alloc(), 3).expect(&rt, MEMORY);
    let visits = visits_of(rt.alloc(), pages.as_slice()).expect(&rt, MEMORY);
    for (number, came) in [(1, 0), (2, 1), (4, 3)] {
        let numbers = [number];
        let row = Row {
            failing: &numbers,
            came,
            served: Served::Failed,
            ..all_come(visits.as_slice())
        };
        check(&rt, &row);
    }
}

// How often a net is found closed that is served on two threads.
fn ends_seen<R: Abort + AllocGlobal + Threads + Wait + Sync>(rt: &R, row: &Row<'_>) -> u64 {
    let (net, _) = serve_row(rt, 2, row, &OpenGate::make());
    net.counts().ends
}

// No more clients are let in than are to come, and the net is not asked whether it is closed.
#[test]
fn as_many_clients_come_as_are_to(rt: HostRuntime) {
    let pages = pages_of(rt.alloc(), 3).expect(&rt, MEMORY);
    let visits = mixed_visits_of(rt.alloc(), pages.as_slice()).expect(&rt, MEMORY);
    for most in 0..3 {
        let row = Row {
            most,
            came: most as usize,
            ..all_come(visits.as_slice())
        };
        check(&rt, &row);
        assert_eq!(rt; ends_seen(&rt, &row), 0, "of {most}");
    }
}

// A client whose third write fails has got two writes of ten bytes. The other one gets the whole page.
#[test]
fn a_client_that_fails_leaves_the_other_alone(rt: HostRuntime) {
    let failing = Visit {
        client: Side::Counting(Counting {
            take: 10,
            failing_writes: &[3],
            ..steady(GET)
        }),
        taken: b"HTTP/1.1 200 OK\r\nvia",
        end: TxnEnd::ClientFault,
        ..page()
    };
    let whole = Visit {
        taken: CHUNKED,
        chunks: Some(b"<abc"),
        ..page()
    };
    let visits = [failing, whole];
    let row = Row {
        lines: b"prepend.so <",
        ..all_come(&visits)
    };
    check(&rt, &row);
}

// An origin that gives nothing to pass on.
#[test]
fn an_origin_that_gives_nothing_is_answered_for(rt: HostRuntime) {
    let silent = Visit {
        origin: Some(at_once(b"")),
        taken: BAD_GATEWAY,
        ..page()
    };
    check(&rt, &all_come(&[silent, page()]));
}
