//! More clients than places, and two transactions beside each other.

use crate::command::{MEMORY, PATIENCE};
use crate::row::{Outcome, Row, all_come, check, compare, served};
use std::process::Abort;
use std::sync::Wait;
use std::thread::Threads;
use ts_link::MeetGate;
use ts_mem_nets::pages::{mixed_visits_of, pages_of, visits_of};
use ts_mem_nets::seats::are_of_two_seats;

// They have 256 places, so that each is used by one client after the other.
#[test]
fn a_thousand_clients_are_served(rt: HostRuntime) {
    let pages = pages_of(rt.alloc(), 1_000).expect(&rt, MEMORY);
    let visits = mixed_visits_of(rt.alloc(), pages.as_slice()).expect(&rt, MEMORY);
    check(&rt, &all_come(visits.as_slice()));
}

// What comes of a net whose handlers wait for each other, and whether two of them met under different seats.
fn beside<R: Abort + AllocGlobal + Threads + Wait + Sync>(
    rt: &R,
    threads: &str,
    row: &Row<'_>,
) -> (Outcome, bool) {
    let gate = MeetGate::make(PATIENCE);
    let left = served(rt, threads, row, &gate);
    let met = gate.met() && are_of_two_seats(left.net.retired());
    (compare(rt.alloc(), row, &left), met)
}

// Two transactions, each of which waits in its first handler for the other: the first events of the two were
// handled under different seats.
#[test]
fn two_transactions_run_beside_each_other(rt: HostRuntime) {
    let pages = pages_of(rt.alloc(), 2).expect(&rt, MEMORY);
    let visits = visits_of(rt.alloc(), pages.as_slice()).expect(&rt, MEMORY);
    let row = all_come(visits.as_slice());
    for threads in ["2", "8"] {
        let found = beside(&rt, threads, &row);
        assert_eq!(rt; found, (Outcome::AsStated, true), "on {threads} threads");
    }
}
