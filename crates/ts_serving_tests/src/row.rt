//! Rows: a net that is served under a configuration, and what is stated of the run.
ghost use Rattle.ts_txn.specs.Net.{IsFreshNet};

use crate::command::{MEMORY, Remains, left_of, shelf_of, texts_of, wide_sink};
use crate::stated::{LISTEN, NETWORK, ORIGIN};
use std::alloc::Global;
use std::process::Abort;
use std::sync::Wait;
use std::thread::Threads;
use ts_link::{Gate, NoMemory, OpenGate};
use ts_mem_nets::finding::{Finding, judge};
use ts_mem_nets::net::net_of;
use ts_mem_nets::visit::Visit;
use ts_txn::{MemNet, Net};

/// On how many threads each net is served.
pub const THREADS: [&str; 3] = ["1", "2", "8"];

/// A net to which these clients come, whose accept calls of some numbers wait or fail, and which is served
/// under a configuration, for so many connections where a number is named. It is stated how many come, and
/// that the program ends with this status and says this.
#[derive(Clone, Copy)]
pub struct Row<'a> {
    pub config: &'a [u8],
    pub visits: &'a [Visit<'a>],
    pub again: &'a [u64],
    pub failing: &'a [u64],
    pub connections: &'a str,
    pub came: usize,
    pub status: u8,
    pub says: &'a [u8],
}

/// What came of a run: all as it is stated, or the first that is other.
#[derive(Clone, Copy, Debug, PartialEq, Eq)]
pub enum Outcome {
    AsStated,
    OtherStatus(u8),
    OtherLine,
    /// Out took something, or a journal was answered.
    NotQuiet,
    /// What the net was handed is other.
    Other(Finding),
    /// Memory lacked.
    Lacks,
}

/// A net to which all of these clients come, with nothing configured.
pub fn all_come<'a>(visits: &'a [Visit<'a>]) -> Row<'a> {
    Row {
        config: b"",
        visits,
        again: &[],
        failing: &[],
        connections: "4294967295",
        came: visits.len(),
        status: 0,
        says: b"",
    }
}

/// The same, which fails at the accept call of this number, when so many came.
pub fn failing_at<'a>(visits: &'a [Visit<'a>], number: &'a [u64; 1], came: usize) -> Row<'a> {
    Row {
        failing: number,
        came,
        status: 8,
        says: NETWORK,
        ..all_come(visits)
    }
}

/// The words that serve a net as a row says, on so many threads.
pub fn words_of<'a>(row: &Row<'a>, threads: &'a str) -> [&'a str; 11] {
    [
        "serve",
        "--listen",
        LISTEN,
        "--origin",
        ORIGIN,
        "--config",
        "c",
        "--threads",
        threads,
        "--connections",
        row.connections,
    ]
}

/// What is left where this net is served as a row says, on so many threads, whose handlers pass this gate.
pub fn left_over<R: Abort + AllocGlobal + Threads + Wait + Sync, N: Net + Drop, G: Gate + Sync>(
    rt: &R,
    threads: &str,
    row: &Row<'_>,
    net: N,
    gate: &G,
) -> Remains<N>
    requires { IsFreshNet (N.seen net) }
{
    let alloc = rt.alloc();
    let words = texts_of(alloc, &words_of(row, threads)).expect(rt, MEMORY);
    let shelf = shelf_of(alloc, row.config).expect(rt, MEMORY);
    let out = wide_sink(alloc);
    left_of(rt, alloc, words.as_slice(), shelf, net, out, gate)
}

/// What is left where the net of a row is served on so many threads, whose handlers pass this gate.
pub fn served<R: Abort + AllocGlobal + Threads + Wait + Sync, G: Gate + Sync>(
    rt: &R,
    threads: &str,
    row: &Row<'_>,
    gate: &G,
) -> Remains<MemNet> {
    let net = net_of(rt.alloc(), row.visits, row.again, row.failing).expect(rt, MEMORY);
    left_over(rt, threads, row, net, gate)
}

/// Whether the program ended and said what a row states, with nothing on out and no journal.
pub fn compare_end<N: Drop>(row: &Row<'_>, left: &Remains<N>) -> Outcome {
    if left.status != row.status {
        return if left.status == 7 {
            Outcome::Lacks
        } else {
            Outcome::OtherStatus(left.status)
        };
    }
    if left.err.written() != row.says {
        return Outcome::OtherLine;
    }
    if !left.out.written().is_empty() || left.journals != 0 {
        return Outcome::NotQuiet;
    }
    Outcome::AsStated
}

/// What comes of a run whose clients this was found of.
pub fn outcome_of(found: Result<Finding, NoMemory>) -> Outcome {
    match found {
        Ok(Finding::AsStated) => Outcome::AsStated,
        Ok(Finding::Lacks) => Outcome::Lacks,
        Ok(other) => Outcome::Other(other),
        Err(NoMemory) => Outcome::Lacks,
    }
}

/// What came of a run that left this.
pub fn compare(alloc: Global, row: &Row<'_>, left: &Remains<MemNet>) -> Outcome {
    let ended = compare_end(row, left);
    if ended != Outcome::AsStated {
        return ended;
    }
    outcome_of(judge(alloc, row.visits, row.came, left.net.retired()))
}

/// What comes of a row on so many threads.
pub fn outcome_on<R: Abort + AllocGlobal + Threads + Wait + Sync>(
    rt: &R,
    threads: &str,
    row: &Row<'_>,
) -> Outcome {
    let left = served(rt, threads, row, &OpenGate::make());
    compare(rt.alloc(), row, &left)
}

/// A row comes out as stated on each number of threads.
pub fn check<R: Abort + AllocGlobal + Threads + Wait + Sync>(rt: &R, row: &Row<'_>) {
    for threads in THREADS {
        let found = outcome_on(rt, threads, row);
        assert_eq!(rt; found, Outcome::AsStated, "on {threads} threads");
    }
}
