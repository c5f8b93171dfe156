//! The program's words, run over files and sinks in memory.

use std::process::Abort;
use std::sync::Wait;
use std::thread::Threads;
use ts_journal::Journal;
use ts_link::{Gate, MemShelf, MemSink, OpenGate, StepClock};
use ts_proxy::run;
use ts_txn::MemNet;

/// Why a run has no outcome.
pub const MEMORY: &str = "memory lacks";

/// The words that pass the body `b` through the configuration `c`.
pub const TRANSFORM: &[&str] = &["transform", "c", "b"];

/// The words that replay the recording `r` under the configuration `c`, without a number of threads.
pub const REPLAY: &[&str] = &["replay", "c", "r"];

/// The same on 1 thread.
pub const ON_1: &[&str] = &["replay", "--threads", "1", "c", "r"];

/// The same on 2 threads.
pub const ON_2: &[&str] = &["replay", "--threads", "2", "c", "r"];

/// The same on 4 threads.
pub const ON_4: &[&str] = &["replay", "--threads", "4", "c", "r"];

/// The same on 8 threads.
pub const ON_8: &[&str] = &["replay", "--threads", "8", "c", "r"];

/// The same on 64 threads.
pub const ON_64: &[&str] = &["replay", "--threads", "64", "c", "r"];

/// What a command left: its status, what out and err took, and the journals.
#[derive(Drop)]
pub struct Remains {
    pub status: u8,
    pub out: MemSink,
    pub err: MemSink,
    pub journals: Vec<Journal>,
}

/// A sink that takes as much a call as it is given.
pub fn wide_sink<R: AllocGlobal>(rt: &R) -> MemSink {
    MemSink::make(rt.alloc(), usize::MAX, Vec::new(rt.alloc()))
}

/// A sink that takes so many bytes a call, and whose write of this number fails, counted from 1.
pub fn failing_sink<R: Abort + AllocGlobal>(rt: &R, take: usize, failing: u64) -> MemSink {
    let numbers = vec![in rt.alloc(); failing].expect(rt, MEMORY);
    MemSink::make(rt.alloc(), take.max(1), numbers)
}

/// A shelf with these files.
pub fn shelf_with<R: Abort + AllocGlobal>(rt: &R, files: &[(&str, &[u8])]) -> MemShelf {
    let mut shelf = MemShelf::make(rt.alloc());
    for (name, text) in files {
        shelf.add(name, text).expect(rt, MEMORY);
    }
    shelf
}

/// A shelf with a configuration `c`, a recording `r` and a file `f` with a line of HTML.
pub fn shelf_of<'a, R: Abort + AllocGlobal>(
    rt: &R,
    config: &'a [u8],
    recording: &'a [u8],
) -> MemShelf {
    shelf_with(rt, &[("c", config), ("f", b"<hr>"), ("r", recording)])
}

/// What a command leaves, whose handlers pass this gate.
pub fn left_by<R: Abort + AllocGlobal + Threads + Wait + Sync, G: Gate + Sync>(
    rt: &R,
    words: &[&str],
    shelf: MemShelf,
    out: MemSink,
    gate: &G,
) -> Remains {
    let err = MemSink::make(rt.alloc(), 7, Vec::new(rt.alloc()));
    left_in(rt, words, shelf, out, err, gate)
}

// The words as texts.
fn said<R: Abort + AllocGlobal>(rt: &R, words: &[&str]) -> Vec<String> {
    let mut said = Vec::new(rt.alloc());
    for word in words {
        let word = String::from_str(rt.alloc(), word).expect(rt, MEMORY);
        said.push(word).expect(rt, MEMORY);
    }
    said
}

/// The same, with what is said going into this sink.
pub fn left_in<R: Abort + AllocGlobal + Threads + Wait + Sync, G: Gate + Sync>(
    rt: &R,
    words: &[&str],
    mut shelf: MemShelf,
    mut out: MemSink,
    mut err: MemSink,
    gate: &G,
) -> Remains {
    let alloc = rt.alloc();
    let words = said(rt, words);
    let mut net = MemNet::make(alloc, Vec::new(alloc), Vec::new(alloc), Vec::new(alloc));
    let clock = StepClock::make(0);
    let ended = run(
        rt,
        alloc,
        words.as_slice(),
        &mut shelf,
        &mut net,
        &mut out,
        &mut err,
        &clock,
        gate,
    );
    Remains {
        status: ended.status,
        out,
        err,
        journals: ended.journals,
    }
}

/// What words leave over a configuration and a recording.
pub fn replayed<R: Abort + AllocGlobal + Threads + Wait + Sync>(
    rt: &R,
    words: &[&str],
    config: &[u8],
    recording: &[u8],
) -> Remains {
    let shelf = shelf_of(rt, config, recording);
    left_by(rt, words, shelf, wide_sink(rt), &OpenGate::make())
}
