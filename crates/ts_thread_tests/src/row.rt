//! A row of peers, of which the last is only asked.

ghost use Rattle.std.specs.Prelude.{◌≡◌, ◌<◌, ◌≤◌, true, false, All, IfOk, OnOk, IsOkUnless};
ghost use Rattle.ts_thread.specs.declared.TheConstants.{MOST_ALONE, MOST_THREADS, MOST_TURNS};
ghost use Rattle.ts_thread.specs.Goings.{IsIdle};
ghost use Rattle.ts_toys.specs.Peers.{PeerCounted};
ghost use Rattle.ts_thread_tests.specs.Peers.{IsPeer, AreRow, row_tags};
ghost use Rattle.ts_thread_tests.specs.ToyRows.{HasEnded};

use std::alloc::Global;
use std::process::Abort;
use std::sync::Wait;
use std::thread::Threads;
use ts_group::Group;
use ts_journal::Entry;
use ts_link::Gate;
use ts_thread::{ONLY_SEAT, Plan, Unfinished, finish_within, run_whole};
use ts_toys::peer::{ASKED, MOST_TODO, Peer, new_peer};

/// How many turns each thread takes at most.
pub(crate) const BUDGET: u64 = 1_000_000;

/// What a test that wants memory says.
pub(crate) const MEMORY: &str = "ample memory";

/// What stands at the end.
#[derive(Clone, Copy, Debug, PartialEq, Eq)]
pub struct Tally {
    pub groups: usize,
    pub pending: u64,
    /// How many of its peers are whole.
    pub whole: u64,
    /// How many steps are left.
    pub todo: u64,
    /// How many questions the last group was asked.
    pub questions: u64,
}

// Starts a peer in its first turn.
#[tactic(auto, using(crate::proofs::Ends::still_first))]
fn start_worker(rt: &impl Abort, mut group: Group<Peer>) -> Group<Peer>
    requires fits { IsPeer false group }
    requires new { group.cx.log.state.turns ≡ 0 }
    ensures fits { IsPeer false result }
    ensures few { result.cx.log.state.turns ≤ 1 }
{
    group.begin_turn(1, ONLY_SEAT, 0).expect(rt, MEMORY);
    group.start();
    group.give_turn();
    group
}

// A peer that works by itself or asks, and was started or not.
fn make_worker(rt: &impl Abort, alloc: Global, asks: bool, todo: u32, started: bool) -> Group<Peer>
    requires { todo ≤ MOST_TODO }
    ensures fits { IsPeer false result }
    ensures few { result.cx.log.state.turns ≤ 1 }
    ensures new { started ≡ false → result.cx.log.state.turns ≤ 0 }
{
    let group = new_peer(alloc, false, asks, todo).expect(rt, MEMORY);
    if started {
        return start_worker(rt, group);
    }
    group
}

// A peer that is only asked.
fn make_asked(rt: &impl Abort, alloc: Global) -> Group<Peer>
    ensures fits { IsPeer true result }
    ensures new { result.cx.log.state.turns ≤ 0 }
{
    new_peer(alloc, true, false, 0).expect(rt, MEMORY)
}

/// A row of peers with so many steps each, of which every other one asks. They were started or not.
pub fn make_row(rt: &impl Abort, alloc: Global, todo: u32, started: bool) -> Vec<Group<Peer>>
    requires { todo ≤ MOST_TODO }
    ensures row { AreRow 1 result.items }
    ensures new { started ≡ false → AreRow 0 result.items }
{
    let mut groups = Vec::new(alloc);
    'workers: for place in 0..ASKED {
        let group = make_worker(rt, alloc, place % 2 == 0, todo, started);
        groups.push(group).expect(rt, MEMORY);
    }
    groups.push(make_asked(rt, alloc)).expect(rt, MEMORY);
    groups
}

/// Drives a row to its end on this thread. No group has more turns than this.
pub fn drive_row(groups: &mut Vec<Group<Peer>>, limit: u64) -> Result<(), Unfinished>
    requires row { AreRow 1 groups.old.items }
    requires limit { limit ≤ MOST_TURNS }
    ensures ended { OnOk result (All IsIdle groups.new.items) }
    ensures lacks { MOST_ALONE ≤ limit → IsOkUnless result Unfinished.NoMemory }
{
    finish_within(groups, limit)
}

/// Runs a row that was not started by so many threads, and drives it to its end.
pub fn run_row<G: Gate + Sync, R: Abort + Threads + Wait + Sync>(
    rt: &R,
    alloc: Global,
    todo: u32,
    threads: u32,
    gate: &G,
) -> Result<Vec<Group<Peer>>, Unfinished>
    requires todo { todo ≤ MOST_TODO }
    requires threads { (0 < threads) × (threads ≤ MOST_THREADS) }
    ensures ended { IfOk result (λ gs. All (HasEnded PeerCounted) gs.items) }
    ensures lacks { IsOkUnless result Unfinished.NoMemory }
{
    let groups = make_row(rt, alloc, todo, false);
    let tags = make_tags(rt, alloc);
    let plan = Plan {
        starts: ASKED,
        threads,
        budget: BUDGET,
    };
    run_whole(rt, alloc, groups, tags, plan, gate)
}

/// The tags of a row.
pub fn make_tags(rt: &impl Abort, alloc: Global) -> Vec<bool>
    ensures { result.items ≡ row_tags ASKED }
{
    let mut tags = Vec::new(alloc);
    'workers: for _place in 0..ASKED {
        tags.push(false).expect(rt, MEMORY);
    }
    tags.push(true).expect(rt, MEMORY);
    tags
}

/// What stands in a row at the end.
pub fn tally_of(groups: &[Group<Peer>]) -> Tally {
    let mut tally = Tally {
        groups: groups.len(),
        pending: 0,
        whole: 0,
        todo: 0,
        questions: 0,
    };
    for group in groups {
        let counts = group.journal().counts();
        tally.pending = tally.pending.wrapping_add(counts.pending);
        if group.world().whole {
            tally.whole = tally.whole.wrapping_add(1);
        }
        tally.todo = tally.todo.wrapping_add(u64::from(group.world().todo));
        if group.world().only_asked {
            tally.questions = tally.questions.wrapping_add(counts.handled);
        }
    }
    tally
}

/// The seat of the turn in which a journal's first event was handled.
pub fn first_seat(entries: &[Entry]) -> Option<u64> {
    let mut owner = None;
    for entry in entries {
        match entry {
            Entry::Took { seat, .. } => owner = Some(*seat),
            Entry::Handled { .. } => return owner,
            _ => {}
        }
    }
    None
}
