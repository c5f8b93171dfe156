//! Rows: a net, how it is served by transactions, and whether what comes of it is as it is stated.
ghost use Rattle.std.specs.Prelude.{IfOk};
ghost use Rattle.std.specs.Arc.{arc_value};
ghost use Rattle.ts_serve.specs.declared.acceptor.TheConstants.{PLACES};
ghost use Rattle.ts_txn.specs.Making.{IsTxnSetup};
ghost use Rattle.ts_txn.specs.MemNet.{seen_of};
ghost use Rattle.ts_txn.specs.Net.{IsFreshNet};

use crate::command::MEMORY;
use std::alloc::Global;
use std::process::Abort;
use std::sync::{Arc, Wait};
use std::thread::Threads;
use ts_config::{ConfigRefusal, Setup, read_config};
use ts_link::{Gate, NoMemory, OpenGate, StepClock};
use ts_mem_nets::finding::{Finding, judge};
use ts_mem_nets::net::net_of;
use ts_mem_nets::setup::in_order;
use ts_mem_nets::visit::Visit;
use ts_serve::{Host, Served, serve_transactions};
use ts_stock::Stock;
use ts_txn::{MOST_PLUGINS, MemNet};

/// On how many threads each net is served.
pub const THREADS: [u32; 3] = [1, 2, 8];

// How many threads serve a net at most.
const MOST_THREADS: u32 = 64;

// How many transform lines a transaction takes at most.
const MOST_LINES: usize = 16;

/// A net to which these clients come, and how it is served, for so many of them at most: the accept calls of
/// the first numbers wait, those of the others fail. It is stated how many come, and why serving ends.
#[derive(Clone, Copy)]
pub struct Row<'a> {
    pub lines: &'a [u8],
    pub visits: &'a [Visit<'a>],
    pub again: &'a [u64],
    pub failing: &'a [u64],
    pub most: u32,
    pub came: usize,
    pub served: Served,
}

/// A net to which all of these clients come, with nothing configured.
pub fn all_come<'a>(visits: &'a [Visit<'a>]) -> Row<'a> {
    Row {
        lines: b"",
        visits,
        again: &[],
        failing: &[],
        most: u32::MAX,
        came: visits.len(),
        served: Served::Whole,
    }
}

/// The setup of a configuration.
pub fn setup_of<R: Abort>(rt: &R, alloc: Global, lines: &[u8]) -> Result<Arc<Setup>, NoMemory>
    ensures { IfOk result (λ s. IsTxnSetup (arc_value s) PLACES) }
{
    let read = match read_config(alloc, lines) {
        Ok(read) => read,
        Err(ConfigRefusal::NoMemory) => return Err(NoMemory),
        Err(ConfigRefusal::Fault(fault)) => panic!(rt; "{fault:?}"),
    };
    let setup = in_order(alloc, read)?;
    assert!(rt; setup.transforms.len() <= MOST_LINES);
    assert!(rt; setup.plugins.len() <= MOST_PLUGINS as usize);
    Ok(Arc::new(alloc, setup)?)
}

/// The net of a row.
pub fn net_of_row(alloc: Global, row: &Row<'_>) -> Result<MemNet, NoMemory>
    ensures { IfOk result (λ net. IsFreshNet (seen_of net)) }
{
    net_of(alloc, row.visits, row.again, row.failing)
}

/// Serves a net under a setup with so many threads, 1 to 64, for so many clients at most, whose handlers pass
/// this gate.
pub fn serve_net<R: Abort + Threads + Wait + Sync, G: Gate + Sync>(
    rt: &R,
    alloc: Global,
    threads: u32,
    setup: Arc<Setup>,
    most: u32,
    gate: &G,
    net: &mut MemNet,
) -> Served
    requires setup { IsTxnSetup (arc_value setup) PLACES }
    requires net { IsFreshNet (seen_of net.old) }
{
    assert!(rt; threads > 0 && threads <= MOST_THREADS);
    let clock = StepClock::make(0);
    let host = Host {
        rt,
        alloc,
        gate,
        clock: &clock,
    };
    serve_transactions::<MemNet, Stock, G, StepClock, R>(&host, setup, threads, most, net)
}

/// Serves the net of a row, on so many threads, whose handlers pass this gate: what is left of the net, and why
/// serving ended.
pub fn serve_row<R: Abort + AllocGlobal + Threads + Wait + Sync, G: Gate + Sync>(
    rt: &R,
    threads: u32,
    row: &Row<'_>,
    gate: &G,
) -> (MemNet, Served) {
    let alloc = rt.alloc();
    let setup = setup_of(rt, alloc, row.lines).expect(rt, MEMORY);
    let mut net = net_of_row(alloc, row).expect(rt, MEMORY);
    let served = serve_net(rt, alloc, threads, setup, row.most, gate, &mut net);
    (net, served)
}

/// What came of serving a net: what is stated, or another end or finding.
#[derive(Clone, Copy, Debug, PartialEq, Eq)]
pub enum Outcome {
    AsStated,
    /// Serving ended otherwise.
    OtherServed(Served),
    Other(Finding),
    /// Memory lacked.
    Lacks,
}

/// What came of serving the net of a row, of which this is left, and which ended so.
pub fn compare(alloc: Global, row: &Row<'_>, net: &MemNet, served: Served) -> Outcome {
    if served == Served::NoMemory {
        return Outcome::Lacks;
    }
    if served != row.served {
        return Outcome::OtherServed(served);
    }
    match judge(alloc, row.visits, row.came, net.retired()) {
        Ok(Finding::AsStated) => Outcome::AsStated,
        Ok(Finding::Lacks) => Outcome::Lacks,
        Ok(other) => Outcome::Other(other),
        Err(NoMemory) => Outcome::Lacks,
    }
}

/// What comes of a row on so many threads.
pub fn outcome_on<R: Abort + AllocGlobal + Threads + Wait + Sync>(
    rt: &R,
    threads: u32,
    row: &Row<'_>,
) -> Outcome {
    let (net, served) = serve_row(rt, threads, row, &OpenGate::make());
    compare(rt.alloc(), row, &net, served)
}

/// A row comes out as it is stated on each number of threads.
pub fn check<R: Abort + AllocGlobal + Threads + Wait + Sync>(rt: &R, row: &Row<'_>) {
    for threads in THREADS {
        let found = outcome_on(rt, threads, row);
        assert_eq!(rt; found, Outcome::AsStated, "on {threads} threads");
    }
}
