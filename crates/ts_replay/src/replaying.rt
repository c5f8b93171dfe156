//! Recorded transactions and the hook plugins of a setup are run in mutex groups by event threads, and what
//! they came to is taken out.

ghost use Rattle.std.specs.Prelude.{◌<◌, ◌≤◌, IfOk, length};
ghost use Rattle.ts_block.specs.Sent.{HasPlainRules};
ghost use Rattle.ts_config.specs.Reading.{AreFew};
ghost use Rattle.ts_config.specs.Setup.{lines_of};
ghost use Rattle.ts_plugin.specs.Lines.{AreOrdered};
ghost use Rattle.ts_replay.specs.AtOrigin.{HasOneAtOrigin};
ghost use Rattle.ts_replay.specs.Heads.{AreHeadsOfBlock};
ghost use Rattle.ts_replay.specs.Recorded.{AllTakeSome};
ghost use Rattle.ts_replay.specs.Replayed.{IsReplayed};
ghost use Rattle.ts_replay.specs.Reports.{HasOneReport, HaveOneList};

use crate::fault::ReplayFault;
use crate::groups::make_row;
use crate::outcomes::{Replayed, outcomes_of};
use crate::running::run_row;
use std::alloc::Global;
use std::sync::{Arc, Wait};
use std::thread::Threads;
use ts_config::Setup;
use ts_link::Gate;
use ts_record::{MOST_TXNS, RecordedTxn};
use ts_thread::MOST_THREADS;

/// Runs recorded transactions under a setup, each in a mutex group of its own, with the plugins that they ask
/// in groups behind them, on so many event threads that pass the gate, and drives them to their end. A client
/// that leaves takes at least one byte before.
pub fn replay<G: Gate + Sync, R: Threads + Wait + Sync>(
    rt: &R,
    alloc: Global,
    setup: Setup,
    txns: Vec<RecordedTxn>,
    threads: u32,
    gate: &G,
) -> Result<Replayed, ReplayFault>
    requires few { AreFew (lines_of setup) }
    requires plain { HasPlainRules setup }
    requires ordered { AreOrdered setup.plugins.items }
    requires txns { length txns.items ≤ MOST_TXNS }
    requires leaves { AllTakeSome txns.items }
    requires threads { (0 < threads) × (threads ≤ MOST_THREADS) }
    ensures { IfOk result (IsReplayed (lines_of setup) txns.items) }
{
    let setup = Arc::new(alloc, setup)?;
    let starts = txns.len() as u32;
    let row = make_row(alloc, &setup, txns)?;
    let groups = run_row(rt, alloc, row, starts, threads, gate)?;
    let replayed = outcomes_of(alloc, groups)?;
    Ok(replayed)
}

/// The law that transactions under lines have at most one list of blocks, so that whatever text is made of
/// it is one, and lines and the bytes of a recording have at most one report. What it shows of a transaction
/// whose client leaves is of its block, and one thing stands at an origin. The function does nothing.
pub fn one_report()
    ensures blocks { HaveOneList }
    ensures report { HasOneReport }
    ensures heads { AreHeadsOfBlock }
    ensures origin { HasOneAtOrigin }
{}
