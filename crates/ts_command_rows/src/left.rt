//! What a command leaves.

use crate::net::net_of_one;
use std::alloc::{AllocError, Global};
use std::sync::Wait;
use std::thread::Threads;
use ts_journal::Journal;
use ts_link::{MemShelf, MemSink, NoMemory, OpenGate, StepClock};
use ts_proxy::run;

/// What a command left: its status, how many journals, how many of them at rest, how many transactions it
/// handed to its net, and what it said and wrote.
#[derive(Drop)]
pub struct Left {
    status: u8,
    journals: usize,
    resting: usize,
    handed: usize,
    said: MemSink,
    wrote: MemSink,
}

// How many of these journals are at rest: held by nobody, with nothing pending.
fn count_resting(journals: &[Journal]) -> usize {
    let mut count: usize = 0;
    for journal in journals {
        if !journal.is_held() && journal.pending().is_empty() {
            count = count.saturating_add(1);
        }
    }
    count
}

/// What these words leave over these files and a net of one client.
pub fn left_by<R: Threads + Wait + Sync>(
    rt: &R,
    alloc: Global,
    words: &[String],
    shelf: &mut MemShelf,
) -> Result<Left, NoMemory> {
    let mut net = net_of_one(alloc)?;
    let mut wrote = MemSink::make(alloc, usize::MAX, Vec::new(alloc));
    let mut said = MemSink::make(alloc, usize::MAX, Vec::new(alloc));
    let (clock, gate) = (StepClock::make(0), OpenGate::make());
    let ended = run(
        rt, alloc, words, shelf, &mut net, &mut wrote, &mut said, &clock, &gate,
    );
    Ok(Left {
        status: ended.status,
        journals: ended.journals.len(),
        resting: count_resting(ended.journals.as_slice()),
        handed: net.retired().len(),
        said,
        wrote,
    })
}

/// Whether two commands left the same.
pub fn is_same(one: &Left, other: &Left) -> bool {
    let counts = (one.status, one.journals, one.resting, one.handed);
    counts == (other.status, other.journals, other.resting, other.handed)
        && one.said.written() == other.said.written()
        && one.wrote.written() == other.wrote.written()
}

/// Prints what a command left: a line of numbers, what it said, and what it wrote.
pub fn print_left(alloc: Global, text: &mut Vec<u8>, left: &Left) -> Result<(), AllocError> {
    let numbers = format!(in alloc;
        "status {}; journals {}, at rest {}; handed over {}; bytes said {}, written {}\n",
        left.status,
        left.journals,
        left.resting,
        left.handed,
        left.said.written().len(),
        left.wrote.written().len()
    )?;
    text.extend_from_slice(numbers.as_bytes())?;
    text.extend_from_slice(left.said.written())?;
    text.extend_from_slice(left.wrote.written())?;
    Ok(())
}
