//! The program's words, run over a net, files and sinks in memory.
ghost use Rattle.ts_txn.specs.Net.{IsFreshNet};

use std::alloc::Global;
use std::sync::Wait;
use std::thread::Threads;
use ts_link::{Gate, MemShelf, MemSink, NoMemory, StepClock};
use ts_proxy::run;
use ts_txn::Net;

/// Why a run has no outcome.
pub const MEMORY: &str = "memory lacks";

/// How many yields a handler waits for another.
pub const PATIENCE: u64 = 20_000_000;

/// What a run left: its status, what out and err took, how many journals it answered, and the net.
#[derive(Drop)]
pub struct Remains<N: Drop> {
    pub status: u8,
    pub out: MemSink,
    pub err: MemSink,
    pub journals: usize,
    pub net: N,
}

/// A sink that takes as much a call as it is given.
pub fn wide_sink(alloc: Global) -> MemSink {
    MemSink::make(alloc, usize::MAX, Vec::new(alloc))
}

/// A shelf whose file `c` holds this configuration.
pub fn shelf_of(alloc: Global, config: &[u8]) -> Result<MemShelf, NoMemory> {
    let mut shelf = MemShelf::make(alloc);
    shelf.add("c", config)?;
    Ok(shelf)
}

/// Words as texts.
pub fn texts_of(alloc: Global, words: &[&str]) -> Result<Vec<String>, NoMemory> {
    let mut texts = Vec::new(alloc);
    for word in words {
        texts.push(String::from_str(alloc, word)?)?;
    }
    Ok(texts)
}

/// What words leave over these files, this net and this sink.
pub fn left_of<R: Threads + Wait + Sync, N: Net + Drop, G: Gate + Sync>(
    rt: &R,
    alloc: Global,
    words: &[String],
    mut shelf: MemShelf,
    mut net: N,
    mut out: MemSink,
    gate: &G,
) -> Remains<N>
    requires { IsFreshNet (N.seen net) }
{
    let mut err = wide_sink(alloc);
    let clock = StepClock::make(0);
    let ended = run(
        rt, alloc, words, &mut shelf, &mut net, &mut out, &mut err, &clock, gate,
    );
    Remains {
        status: ended.status,
        out,
        err,
        journals: ended.journals.len(),
        net,
    }
}
