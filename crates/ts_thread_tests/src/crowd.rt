//! Crowds of toy worlds, which threads run; what was handled late shows that a group was missed.

ghost use Rattle.std.specs.Prelude.{◌<◌, ◌≤◌};
ghost use Rattle.ts_toys.specs.declared.peer.TheConstants.{MOST_TODO};
ghost use Rattle.ts_thread.specs.declared.TheConstants.{MOST_THREADS};
ghost use Rattle.ts_thread_tests.specs.declared.crowd.TheConstants.{MOST_CROWD};

use crate::row::{BUDGET, MEMORY};
use crate::toys::{ToyRow, make_toys};
use std::alloc::Global;
use std::process::Abort;
use std::sync::Wait;
use std::thread::Threads;
use ts_group::Group;
use ts_journal::Entry;
use ts_link::OpenGate;
use ts_thread::{Plan, run_groups};
use ts_toys::toy::Toy;

/// How many groups a crowd has at most.
pub const MOST_CROWD: u32 = 4096;

/// Runs a crowd of toy worlds by so many threads.
pub fn run_crowd<W: Toy + Drop + Send, R: Abort + Threads + Wait + Sync>(
    rt: &R,
    alloc: Global,
    count: u32,
    todo: u32,
    threads: u32,
) -> Vec<Group<W>>
where
    W::Tag: Drop,
    requires todo { todo ≤ MOST_TODO }
    requires count { (0 < count) × (count ≤ MOST_CROWD) }
    requires threads { (0 < threads) × (threads ≤ MOST_THREADS) }
{
    let ToyRow { groups, tags } = make_toys(rt, alloc, count, todo);
    let gate = OpenGate::make();
    let plan = Plan {
        starts: count,
        threads,
        budget: BUDGET,
    };
    run_groups(rt, alloc, groups, tags, plan, &gate).expect(rt, MEMORY)
}

/// What a crowd of toy worlds did.
#[derive(Clone, Copy, Debug, PartialEq, Eq)]
pub struct CrowdTally {
    pub groups: usize,
    /// How many events were handled.
    pub handled: u64,
    /// How many of them later than at the moment 0.
    pub late: u64,
}

// How many events were handled later than at the moment 0.
fn late_in(entries: &[Entry]) -> u64 {
    let mut late: u64 = 0;
    for entry in entries {
        match entry {
            Entry::Handled { moment, .. } => {
                if *moment > 0 {
                    late = late.wrapping_add(1);
                }
            }
            _ => {}
        }
    }
    late
}

/// What the worlds of these groups did.
pub fn crowd_of<W: Toy + Drop>(groups: &[Group<W>]) -> CrowdTally {
    let mut crowd = CrowdTally {
        groups: groups.len(),
        handled: 0,
        late: 0,
    };
    for group in groups {
        let journal = group.journal();
        crowd.handled = crowd.handled.wrapping_add(journal.counts().handled);
        crowd.late = crowd.late.wrapping_add(late_in(journal.entries()));
    }
    crowd
}
