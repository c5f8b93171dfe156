//! That whom a net names as ready changes nothing of what clients get.

use crate::command::MEMORY;
use crate::row::{Outcome, Row, THREADS, all_come, compare_end, left_over, outcome_of};
use crate::visits::{late, late_at};
use std::process::Abort;
use std::sync::Wait;
use std::thread::Threads;
use ts_link::OpenGate;
use ts_mem_nets::finding::judge;
use ts_mem_nets::links::{Side, Stalling, staying};
use ts_mem_nets::naming_net::NamingNet;
use ts_mem_nets::net::net_of;
use ts_mem_nets::stated::ABC;
use ts_mem_nets::visit::{Visit, page};

// Whom a net names: nobody, numbers of nobody, each client, and some of all these twice. Who is named may not
// have come yet, or have gone.
const NAMES: [&[u64]; 4] = [
    &[],
    &[0, 6, u64::MAX],
    &[1, 2, 3, 4, 5],
    &[5, 5, 1, 0, 1, 3, 4, 3, 9, 2],
];

// What comes of a net of which each wait names these clients.
fn outcome_named<R: Abort + AllocGlobal + Threads + Wait + Sync>(
    rt: &R,
    threads: &str,
    row: &Row<'_>,
    names: &[u64],
) -> Outcome {
    let alloc = rt.alloc();
    let inner = net_of(alloc, row.visits, &[], &[]).expect(rt, MEMORY);
    let names = Vec::from_slice(alloc, names).expect(rt, MEMORY);
    let net = NamingNet::make(inner, names);
    let left = left_over(rt, threads, row, net, &OpenGate::make());
    let ended = compare_end(row, &left);
    if ended != Outcome::AsStated {
        return ended;
    }
    outcome_of(judge(alloc, row.visits, row.came, left.net.retired()))
}

// A client whose origin waits for so many reads within the body.
fn late_within<'a>(stall: u32) -> Visit<'a> {
    Visit {
        origin: Some(Side::Stalling(Stalling {
            stalls_at: ABC.len() - 2,
            stall,
            ..staying(ABC)
        })),
        ..page()
    }
}

// Clients that wait before they ask and within the head, and origins that wait within the body, are roused at
// each wait, or never.
#[test]
fn whom_a_net_names_changes_no_answer(rt: HostRuntime) {
    let visits = [
        late(100),
        late(0),
        late_at(9, 20),
        late_within(1),
        late_within(20),
    ];
    let row = all_come(&visits);
    for names in NAMES {
        for threads in THREADS {
            let found = outcome_named(&rt, threads, &row, names);
            assert_eq!(rt; found, Outcome::AsStated, "{names:?} on {threads} threads");
        }
    }
}
