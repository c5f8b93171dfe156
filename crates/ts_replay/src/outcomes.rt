//! What a row of groups has come to that has run: the block of each transaction, and the journal of each
//! group.

ghost use Rattle.std.specs.Prelude.{IfOk, List, OnOk};
ghost use Rattle.ts_config.specs.declared.setup.Setup.{Setup};
ghost use Rattle.ts_record.specs.Grammar.{TxnPieces};
ghost use Rattle.ts_replay.specs.Exchanged.{AddsBlock, HasRun};
ghost use Rattle.ts_replay.specs.Replayed.{AreDone, ComesTo};

use crate::block::block_after;
use crate::groups::RowWorld;
use std::alloc::Global;
use std::collections::VecDeque;
use ts_group::{Either, Group};
use ts_journal::Journal;
use ts_link::NoMemory;
use ts_record::ReportBlock;

/// What a replay comes to: of each transaction, in their order, the block that a report shows, and the
/// journals: those of the transactions, and behind them those of the plugins, in the order of their lines.
#[derive(Drop)]
pub struct Replayed {
    pub blocks: Vec<ReportBlock>,
    pub journals: Vec<Journal>,
}

// Puts the block of a transaction behind others. A plugin has none.
fn add_block(alloc: Global, world: RowWorld, blocks: &mut Vec<ReportBlock>) -> Result<(), NoMemory>
    requires { HasRun world }
    ensures { OnOk result (AddsBlock world blocks.old.items blocks.new.items) }
{
    match world {
        Either::One(txn) => {
            let block = block_after(alloc, txn)?;
            blocks.push(block)?;
            Ok(())
        }
        Either::Other(_) => Ok(()),
    }
}

/// What these groups came to, which have run. A group is let go once its block is made.
pub fn outcomes_of(alloc: Global, groups: Vec<Group<RowWorld>>) -> Result<Replayed, NoMemory>
    requires ran { (setup : Setup) × (txns : List TxnPieces) × AreDone setup txns groups.items }
    ensures { (setup : Setup) (txns : List TxnPieces) → AreDone setup txns groups.items →
        IfOk result (ComesTo setup txns groups.items) }
{
    let mut blocks = Vec::with_capacity(alloc, groups.len())?;
    let mut journals = Vec::with_capacity(alloc, groups.len())?;
    let mut rest = VecDeque::from_vec(groups);
    'groups: while let Some(group) = rest.pop_front() {
        let (world, journal) = group.into_parts();
        journal.entries();
        journal.known();
        add_block(alloc, world, &mut blocks)?;
        journals.push(journal)?;
    }
    Ok(Replayed { blocks, journals })
}
