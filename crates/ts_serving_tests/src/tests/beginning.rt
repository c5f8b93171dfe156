//! That a net is begun before anybody is asked for, with the addresses as they stand in the words.

use crate::command::MEMORY;
use crate::row::{Outcome, Row, THREADS, all_come, compare_end, left_over, outcome_of};
use crate::stated::{LISTEN, ORIGIN};
use std::process::Abort;
use std::sync::Wait;
use std::thread::Threads;
use ts_link::OpenGate;
use ts_mem_nets::finding::judge;
use ts_mem_nets::keeping_net::KeepingNet;
use ts_mem_nets::net::net_of;
use ts_mem_nets::pages::{mixed_visits_of, pages_of};

// What comes of a net, and whether it was begun with the addresses as they are.
fn begins<R: Abort + AllocGlobal + Threads + Wait + Sync>(
    rt: &R,
    threads: &str,
    row: &Row<'_>,
) -> (Outcome, bool) {
    let alloc = rt.alloc();
    let inner = net_of(alloc, row.visits, &[], &[]).expect(rt, MEMORY);
    let net = KeepingNet::make(alloc, inner, false);
    let left = left_over(rt, threads, row, net, &OpenGate::make());
    let is_begun = left.net.is_begun_with(LISTEN, ORIGIN);
    let ended = compare_end(row, &left);
    if ended != Outcome::AsStated {
        return (ended, is_begun);
    }
    let found = judge(alloc, row.visits, row.came, left.net.retired());
    (outcome_of(found), is_begun)
}

#[test]
fn a_net_is_begun_with_the_addresses_as_they_are(rt: HostRuntime) {
    let pages = pages_of(rt.alloc(), 3).expect(&rt, MEMORY);
    let visits = mixed_visits_of(rt.alloc(), pages.as_slice()).expect(&rt, MEMORY);
    let row = all_come(visits.as_slice());
    for threads in THREADS {
        let found = begins(&rt, threads, &row);
        assert_eq!(rt; found, (Outcome::AsStated, true), "on {threads} threads");
    }
}
