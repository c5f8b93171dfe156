//! What is left of transactions once memory lacked: each is brought to its end and handed over.

use crate::command::MEMORY;
use crate::row::{Outcome, Row, THREADS, all_come, compare_end, left_over, outcome_of};
use crate::stated::OUT_OF_MEMORY;
use crate::visits::late;
use std::process::Abort;
use std::sync::Wait;
use std::thread::Threads;
use ts_link::OpenGate;
use ts_mem_nets::finding::{Finding, judge_but};
use ts_mem_nets::keeping_net::KeepingNet;
use ts_mem_nets::net::net_of;
use ts_mem_nets::visit::{page, unreached};

// What comes of a net that lacks memory for the first transaction that it is handed: the others are as their
// clients state.
fn come_of_lacking<R: Abort + AllocGlobal + Threads + Wait + Sync>(
    rt: &R,
    threads: &str,
    row: &Row<'_>,
) -> Outcome {
    let alloc = rt.alloc();
    let inner = net_of(alloc, row.visits, &[], &[]).expect(rt, MEMORY);
    let net = KeepingNet::make(alloc, inner, true);
    let left = left_over(rt, threads, row, net, &OpenGate::make());
    let ended = compare_end(row, &left);
    if ended != Outcome::AsStated {
        return ended;
    }
    let dropped = left.net.dropped();
    if dropped.is_none() || left.net.retired().len().saturating_add(1) != row.came {
        return Outcome::Other(Finding::OtherCount);
    }
    outcome_of(judge_but(alloc, row.visits, dropped, left.net.retired()))
}

// One of four clients asks at once, and memory lacks where the first transaction that ends is handed
// over. The three others are served whole all the same, and the program says that memory lacked.
#[test]
fn who_came_beside_is_served_once_memory_lacked(rt: HostRuntime) {
    let visits = [page(), late(200), unreached(late(100)), late(300)];
    let row = Row {
        status: 7,
        says: OUT_OF_MEMORY,
        ..all_come(&visits)
    };
    for threads in THREADS {
        let found = come_of_lacking(&rt, threads, &row);
        assert_eq!(rt; found, Outcome::AsStated, "on {threads} threads");
    }
}
