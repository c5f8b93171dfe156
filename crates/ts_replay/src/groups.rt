//! The groups in which recorded transactions and hook plugins run, with the tags of their slots.

ghost use Rattle.std.specs.Prelude.{◌≤◌, IfOk, length};
ghost use Rattle.std.specs.Arc.{arc_value};
ghost use Rattle.ts_replay.specs.Members.{Transaction};
ghost use Rattle.ts_replay.specs.Recorded.{AllTakeSome, FitsIn, HasPlainLines, IsNewTagOf, TakesSome};
ghost use Rattle.ts_replay.specs.Rows.{IsRowOf, IsTxnRowOf};
ghost use Rattle.ts_thread.specs.Threads.{HasHadTurns};

use std::alloc::Global;
use std::collections::VecDeque;
use std::sync::Arc;
use ts_config::Setup;
use ts_exchange::{ExchangeSetting, Promise, add_plugins};
use ts_group::{EitherTag, Group};
use ts_layers::{LayeredRow, LayeredRowTag, LayeredWorld, make_layered_group};
use ts_link::NoMemory;
use ts_record::{MOST_TXNS, RecordedLink, RecordedTxn};
use ts_stock::Stock;

/// The world of a group in the row of a replay: a transaction with its layers, or the plugin of a line.
pub type RowWorld = LayeredWorld<RecordedLink, RecordedLink, Stock>;

/// What a slot promises of it.
pub type RowTag = LayeredRowTag<RecordedLink, RecordedLink, Stock>;

/// Groups in their order, each with the tag of its slot.
pub type GroupRow = LayeredRow<RecordedLink, RecordedLink, Stock>;

// The tag of a recorded transaction says that no call of its links fails or waits by its number, and that its
// slot had no other tenant.
const PROMISE: Promise = Promise {
    is_sure: true,
    is_first: true,
};

// What is taken in the place of its origin is kept: a report shows it, also where a line answered.
const KEEPS: bool = true;

// The group of a transaction of this number, and its tag.
fn make_txn(
    alloc: Global,
    setting: &ExchangeSetting,
    number: u64,
    txn: RecordedTxn,
) -> Result<(Group<RowWorld>, RowTag), NoMemory>
    requires lines { HasPlainLines (arc_value setting.now.setup) }
    requires at { setting.now.plugins_at ≤ MOST_TXNS }
    requires leave { TakesSome txn.leave }
    ensures tag { IfOk result (λ r. IsNewTagOf (arc_value setting.now.setup) setting.now.plugins_at
        (Transaction number txn) r.1) }
    ensures fits { IfOk result (λ r. FitsIn r.1 r.0) }
    ensures new { IfOk result (λ r. HasHadTurns 0 r.0) }
{
    let RecordedTxn {
        client,
        origin,
        leave,
    } = txn;
    let client = RecordedLink::make(alloc, client, leave);
    let origin = Some(RecordedLink::make(alloc, origin, None));
    let (group, tag) = make_layered_group(alloc, setting, number, PROMISE, KEEPS, client, origin)?;
    Ok((group, EitherTag::One(tag)))
}

// The groups of these transactions, numbered from 1, all under one setup, whose plugins are to stand behind
// them.
fn make_txns(
    alloc: Global,
    setup: &Arc<Setup>,
    txns: Vec<RecordedTxn>,
) -> Result<GroupRow, NoMemory>
    requires lines { HasPlainLines (arc_value setup.now) }
    requires count { length txns.items ≤ MOST_TXNS }
    requires leaves { AllTakeSome txns.items }
    ensures { IfOk result (λ r.
        IsTxnRowOf (arc_value setup.now) txns.items r.tags.items r.groups.items) }
{
    let setting = ExchangeSetting {
        setup: setup.clone()?,
        plugins_at: txns.len() as u32,
    };
    let most = txns.len() + setup.plugins.len();
    let mut groups = Vec::with_capacity(alloc, most)?;
    let mut tags = Vec::with_capacity(alloc, most)?;
    let mut rest = VecDeque::from_vec(txns);
    let mut number = 0;
    'txns: while let Some(txn) = rest.pop_front() {
        number += 1;
        let (group, tag) = make_txn(alloc, &setting, number, txn)?;
        groups.push(group)?;
        tags.push(tag)?;
    }
    Ok(GroupRow { groups, tags })
}

/// The groups of these transactions, numbered from 1, all under one setup, and behind them those of the
/// plugins of its lines.
pub fn make_row(
    alloc: Global,
    setup: &Arc<Setup>,
    txns: Vec<RecordedTxn>,
) -> Result<GroupRow, NoMemory>
    requires lines { HasPlainLines (arc_value setup.now) }
    requires count { length txns.items ≤ MOST_TXNS }
    requires leaves { AllTakeSome txns.items }
    ensures { IfOk result (λ r.
        IsRowOf (arc_value setup.now) txns.items r.tags.items r.groups.items) }
{
    let row = make_txns(alloc, setup, txns)?;
    add_plugins(alloc, setup.plugins.as_slice(), row)
}
