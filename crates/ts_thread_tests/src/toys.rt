//! Rows of toy worlds, which threads run and which are driven to their end.

ghost use Rattle.std.specs.Prelude.{◌≡◌, ◌<◌, ◌≤◌, IfOk, IsOkUnless, All, length};
ghost use Rattle.ts_toys.specs.declared.peer.TheConstants.{MOST_TODO};
ghost use Rattle.ts_thread.specs.declared.TheConstants.{MOST_THREADS};
ghost use Rattle.ts_thread_tests.specs.ToyRows.{AreToys, HasEnded};

use crate::row::{BUDGET, MEMORY};
use std::alloc::Global;
use std::process::Abort;
use std::sync::Wait;
use std::thread::Threads;
use ts_group::Group;
use ts_link::{Gate, OpenGate};
use ts_thread::{Plan, Unfinished, run_whole};
use ts_toys::toy::Toy;

/// How many groups a row has.
pub const TOYS: u32 = 8;

/// A row of groups that have had no turn, with their tags.
pub struct ToyRow<W: Toy> {
    pub groups: Vec<Group<W>>,
    pub tags: Vec<W::Tag>,
}

/// So many groups of one toy world, with so much to do each.
pub fn make_toys<W: Toy + Drop>(rt: &impl Abort, alloc: Global, count: u32, todo: u32) -> ToyRow<W>
where
    W::Tag: Drop,
    requires { todo ≤ MOST_TODO }
    ensures { AreToys W.fits W.sound W.only_asked W.is_first (W.tagged todo) count
        result.tags.items result.groups.items }
{
    let mut groups = Vec::new(alloc);
    let mut tags = Vec::new(alloc);
    'toys: for _toy in 0..count {
        let group = W::group(alloc, todo).expect(rt, MEMORY);
        let tag = W::tag(todo);
        groups.push(group).expect(rt, MEMORY);
        tags.push(tag).expect(rt, MEMORY);
    }
    ToyRow { groups, tags }
}

/// Runs a row of toy worlds by so many threads, and drives it to its end: then no event is pending in any
/// group, and each world has counted its work, in whatever order the threads took their turns.
pub fn run_toys<W: Toy + Drop + Send, G: Gate + Sync, R: Abort + Threads + Wait + Sync>(
    rt: &R,
    alloc: Global,
    todo: u32,
    threads: u32,
    gate: &G,
) -> Result<Vec<Group<W>>, Unfinished>
where
    W::Tag: Drop,
    requires todo { todo ≤ MOST_TODO }
    requires threads { (0 < threads) × (threads ≤ MOST_THREADS) }
    ensures count { IfOk result (λ gs. length gs.items ≡ TOYS) }
    ensures ended { IfOk result (λ gs. All (HasEnded (W.counted todo)) gs.items) }
    ensures lacks { IsOkUnless result Unfinished.NoMemory }
{
    let ToyRow { groups, tags } = make_toys(rt, alloc, TOYS, todo);
    let plan = Plan {
        starts: TOYS,
        threads,
        budget: BUDGET,
    };
    run_whole(rt, alloc, groups, tags, plan, gate)
}

/// What stands in a row at the end.
#[derive(Clone, Copy, Debug, PartialEq, Eq)]
pub struct ToyTally {
    pub groups: usize,
    pub pending: u64,
    /// How many of its worlds are whole.
    pub whole: u64,
    /// How much they have done.
    pub done: u64,
}

/// What stands in a row of toy worlds at the end.
pub fn tally_of<W: Toy + Drop>(groups: &[Group<W>]) -> ToyTally {
    let mut tally = ToyTally {
        groups: groups.len(),
        pending: 0,
        whole: 0,
        done: 0,
    };
    for group in groups {
        tally.pending = tally.pending.wrapping_add(group.journal().counts().pending);
        if group.world().is_whole() {
            tally.whole = tally.whole.wrapping_add(1);
        }
        tally.done = tally.done.wrapping_add(u64::from(group.world().done()));
    }
    tally
}

/// What stands at the end of a row of toy worlds that so many threads ran.
pub fn run_tally<W: Toy + Drop + Send, R: Abort + Threads + Wait + Sync>(
    rt: &R,
    alloc: Global,
    todo: u32,
    threads: u32,
) -> ToyTally
where
    W::Tag: Drop,
    requires todo { todo ≤ MOST_TODO }
    requires threads { (0 < threads) × (threads ≤ MOST_THREADS) }
{
    let gate = OpenGate::make();
    let groups = run_toys::<W, OpenGate, R>(rt, alloc, todo, threads, &gate).expect(rt, MEMORY);
    tally_of(&groups)
}
