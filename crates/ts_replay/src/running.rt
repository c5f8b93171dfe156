//! A row of groups is run by event threads, and then driven to its end.

ghost use Rattle.std.specs.Prelude.{◌≡◌, ◌<◌, ◌≤◌, IfOk, List, length};
ghost use Rattle.ts_config.specs.declared.setup.Setup.{Setup};
ghost use Rattle.ts_record.specs.Grammar.{TxnPieces};
ghost use Rattle.ts_replay.specs.Replayed.{AreDone};
ghost use Rattle.ts_replay.specs.Rows.{IsRowOf};
ghost use Rattle.ts_replay.specs.Running.{CanRun, HasEnded, RowTells};

use crate::fault::ReplayFault;
use crate::groups::{GroupRow, RowWorld};
use std::alloc::Global;
use std::sync::Wait;
use std::thread::Threads;
use ts_config::TransformLine;
use ts_exchange::{GroupRow as RowOf, RowWorld as WorldOf};
use ts_group::Group;
use ts_link::{Gate, Link};
use ts_record::MOST_TXNS;
use ts_thread::{MOST_THREADS, Plan, Unfinished, run_whole};
use ts_transform::Transform;
use ts_upstream::Upstream;

/// How many turns a thread takes at most. What is left then is handled once the threads have ended.
pub const BUDGET: u64 = 1_000_000;

// Runs the groups of a row by a plan, and drives them to their end, whatever the links are between which its
// transactions run. (Where all layers of a link stand in the types of one call, proving it takes too long.)
fn run_links<
    C: Link + Drop + Send,
    O: Upstream<C> + Drop + Send,
    P: Transform<Line = TransformLine> + Drop + Send,
    G: Gate + Sync,
    R: Threads + Wait + Sync,
>(
    rt: &R,
    alloc: Global,
    row: RowOf<C, O, P>,
    plan: Plan,
    gate: &G,
) -> Result<Vec<Group<WorldOf<C, O, P>>>, ReplayFault>
    requires run { CanRun C.Link O.Link O.Upstream.own P.Transform row.tags.items row.groups.items plan }
    requires tells { RowTells C.Link O.Link O.Upstream.own P.Transform row.tags.items }
    ensures { IfOk result (λ gs. HasEnded C.Link O.Link O.Upstream.own P.Transform
        row.tags.items row.groups.items plan gs.items) }
{
    let RowOf { groups, tags } = row;
    match run_whole(rt, alloc, groups, tags, plan, gate) {
        Ok(groups) => Ok(groups),
        Err(Unfinished::NoMemory) => Err(ReplayFault::NoMemory),
        Err(Unfinished::Worn) => Err(ReplayFault::Worn),
    }
}

/// Runs the groups of a row by so many threads, and drives them to their end. The first so many are those of
/// transactions, and are started.
pub fn run_row<G: Gate + Sync, R: Threads + Wait + Sync>(
    rt: &R,
    alloc: Global,
    row: GroupRow,
    starts: u32,
    threads: u32,
    gate: &G,
) -> Result<Vec<Group<RowWorld>>, ReplayFault>
    requires row { (setup : Setup) × (txns : List TxnPieces) × (length txns ≤ MOST_TXNS)
        × (starts ≡ length txns) × IsRowOf setup txns row.tags.items row.groups.items }
    requires threads { (0 < threads) × (threads ≤ MOST_THREADS) }
    ensures { (setup : Setup) (txns : List TxnPieces) → starts ≡ length txns
        → IsRowOf setup txns row.tags.items row.groups.items
        → IfOk result (λ gs. AreDone setup txns gs.items) }
{
    let GroupRow { groups, tags } = row;
    if groups.is_empty() {
        return Ok(groups);
    }
    let plan = Plan {
        starts,
        threads,
        budget: BUDGET,
    };
    let groups = run_links(rt, alloc, GroupRow { groups, tags }, plan, gate)?;
    Ok(groups)
}
