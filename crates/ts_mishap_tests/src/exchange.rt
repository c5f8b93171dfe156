//! A transaction in a group of its own, with the plugins of its lines in those behind it, driven to its end.
ghost use Rattle.std.specs.Prelude.{◌≡◌, ◌⊎◌, ◌≤◌, true, [], ◌∷◌, IfOk, IfSome, IsSome};
ghost use Rattle.std.specs.Arc.{arc_value};
ghost use Rattle.std.specs.List.{All};
ghost use Rattle.ts_block.specs.Sent.{HasPlainRules};
ghost use Rattle.ts_config.specs.Rules.{HasPlainRule};
ghost use Rattle.ts_plugin.specs.Lines.{AreOrdered};
ghost use Rattle.ts_group.specs.declared.either.EitherTag.TheVariants as kind;
ghost use Rattle.ts_group.specs.Answers.{Holds};
ghost use Rattle.ts_group.specs.Context.{IsFresh};
ghost use Rattle.ts_journal.specs.declared.entry.TheConstants.{GREATEST};
ghost use Rattle.ts_link.specs.MemLink.{look_of};
ghost use Rattle.ts_passing.specs.Lines.{ActsAsLines};
ghost use Rattle.ts_txn.specs.Making.{IsNewLink, IsNewLinkIf, IsTxnSetup};
ghost use Rattle.ts_exchange.specs.Ends.{AreNewEnds};
ghost use Rattle.ts_exchange.specs.Rows.{FitsIn};
ghost use Rattle.ts_mishap_tests.specs.Begun.{AlwaysTells, HasBegun, HasEndedOr, HasStarted, IsFirstOf, IsNewRow, IsSetting, IsTagFor};

use crate::refusal::Refusal;
use std::alloc::Global;
use std::collections::VecDeque;
use std::sync::Arc;
use ts_config::{Setup, TransformLine, read_config};
use ts_exchange::{
    ExchangeSetting, ExchangeTag, GroupRow, Promise, RowWorld, add_plugins, make_group,
};
use ts_group::{Either, EitherTag, Group, World};
use ts_hooks::TxnEnd;
use ts_journal::Journal;
use ts_link::{Link, MemLink, NoMemory, Octets};
use ts_stock::Stock;
use ts_thread::{ONLY_SEAT, finish};
use ts_transform::Transform;
use ts_txn::{MOST_PLUGINS, Txn, TxnParts};
use ts_upstream::Upstream;

/// A transaction between links in memory, with the stock transforms.
pub type MemTxn = Txn<MemLink, MemLink, Stock>;

/// The number of each transaction here.
pub const NUMBER: u64 = 7;

/// The group of the first plugin of a transaction, which has the first group of its row itself.
pub const FIRST_PLUGIN: u32 = 1;

/// The turn in which a transaction is started.
pub const FIRST_TURN: u64 = 1;

/// Of how many plugins of a transaction it is told how often each was asked.
pub const PLUGINS_TOLD: usize = 4;

// How many transform lines a transaction takes at most.
const MOST_LINES: usize = 16;

// Links here fail and wait by the numbers of their calls, and no slot had another tenant.
const PROMISE: Promise = Promise {
    is_sure: false,
    is_first: true,
};

/// How often each of the first plugins of a transaction was asked, in the order of the lines.
pub type Asked = [Option<u64>; PLUGINS_TOLD];

/// What is left of such groups once nothing is pending.
#[derive(Drop)]
pub struct EndedRow<C, O, P> {
    pub txn: Txn<C, O, P>,
    pub journal: Journal,
    pub asked: Asked,
}

/// What a transaction tells of itself.
#[derive(Clone, Copy, Debug, PartialEq, Eq)]
pub struct Told {
    pub number: u64,
    pub is_dialed: bool,
    pub end: Option<TxnEnd>,
}

/// What is left of a transaction that was driven to its end, and what it told before that.
#[derive(Drop)]
pub struct EndedTxn {
    pub told: Option<Told>,
    pub parts: TxnParts<MemLink, MemLink>,
    pub journal: Journal,
    pub asked: Asked,
}

// Gives each append line the text of its file.
fn fill(alloc: Global, lines: &mut [TransformLine], file: &[u8]) -> Result<(), Refusal> {
    for line in lines {
        if let TransformLine::Append { text, .. } = line {
            *text = Octets::copy_of(alloc, file)?;
        }
    }
    Ok(())
}

// These lines, with those of hook plugins in the order in which they act.
#[tactic(auto, using(crate::proofs::Ordered::plain_in_order, crate::proofs::Ordered::ordered_in_order))]
fn in_order(alloc: Global, read: Setup) -> Result<Setup, NoMemory>
    requires { All HasPlainRule read.plugins.items }
    ensures plain { IfOk result HasPlainRules }
    ensures ordered { IfOk result (λ s. AreOrdered s.plugins.items) }
{
    let setup = read.ordered(alloc, true)?;
    Ok(setup)
}

/// The setup of a configuration, where this is the text of each file that it names.
pub fn setup_of(alloc: Global, lines: &[u8], file: &[u8]) -> Result<Setup, Refusal>
    ensures { IfOk result (λ s. IsTxnSetup s FIRST_PLUGIN) }
{
    let mut read = read_config(alloc, lines)?;
    fill(alloc, read.transforms.as_mut_slice(), file)?;
    let setup = in_order(alloc, read)?;
    if setup.transforms.len() > MOST_LINES || setup.plugins.len() > MOST_PLUGINS as usize {
        return Err(Refusal::Lines);
    }
    Ok(setup)
}

/// What transactions under such a setup are made with.
pub fn setting_of(alloc: Global, lines: &[u8], file: &[u8]) -> Result<ExchangeSetting, Refusal>
    ensures { IfOk result IsSetting }
{
    let read = setup_of(alloc, lines, file)?;
    let setup = Arc::new(alloc, read)?;
    Ok(ExchangeSetting {
        setup,
        plugins_at: FIRST_PLUGIN,
    })
}

// The group of a transaction that was not started, and its tag.
fn make_txn<C: Link + Drop, O: Upstream<C> + Drop, P: Transform<Line = TransformLine> + Drop>(
    alloc: Global,
    setting: &ExchangeSetting,
    client: C,
    origin: Option<O>,
) -> Result<(Group<RowWorld<C, O, P>>, ExchangeTag<C, O>), NoMemory>
    requires acts { ActsAsLines P.Transform }
    requires setting { IsSetting setting.now }
    requires ends { AreNewEnds C.Link O.Link O.Upstream.own client origin }
    ensures tag { IfOk result (λ r. IsTagFor (arc_value setting.now.setup) r.1) }
    ensures fits { IfOk result (λ r. FitsIn C.Link O.Link O.Upstream.own P.Transform (kind.One r.1) r.0) }
    ensures fresh { IfOk result (λ r. IsFresh 0 r.0.cx) }
{
    let (group, tag) = make_group(alloc, setting, NUMBER, PROMISE, client, origin)?;
    Ok((group, tag))
}

// A group that has had no turn, started in its first.
fn started<W: World + Drop>(mut group: Group<W>) -> Result<Group<W>, NoMemory>
    requires fresh { IsFresh 0 group.cx }
    requires sound { Holds W.sound group }
    ensures { IfOk result (HasStarted W.fits W.sound W.begun group) }
{
    group.begin_turn(FIRST_TURN, ONLY_SEAT, 0)?;
    group.start();
    group.give_turn();
    Ok(group)
}

// The group of a transaction that was started in the first turn, and the tag that it had before.
fn begin_txn<C: Link + Drop, O: Upstream<C> + Drop, P: Transform<Line = TransformLine> + Drop>(
    alloc: Global,
    setting: &ExchangeSetting,
    client: C,
    origin: Option<O>,
) -> Result<(Group<RowWorld<C, O, P>>, ExchangeTag<C, O>), NoMemory>
    requires acts { ActsAsLines P.Transform }
    requires setting { IsSetting setting.now }
    requires ends { AreNewEnds C.Link O.Link O.Upstream.own client origin }
    ensures tag { IfOk result (λ r. IsTagFor (arc_value setting.now.setup) r.1) }
    ensures fits { IfOk result (λ r. FitsIn C.Link O.Link O.Upstream.own P.Transform
        (kind.One (record r.1 { started = true })) r.0) }
{
    let (fresh, tag) = make_txn(alloc, setting, client, origin)?;
    let group = started(fresh)?;
    Ok((group, tag))
}

// A list of one.
fn alone<T: Drop>(alloc: Global, item: T) -> Result<Vec<T>, NoMemory>
    ensures { IfOk result (λ items. items.items ≡ item ∷ []) }
{
    let mut items = Vec::new(alloc);
    items.push(item)?;
    Ok(items)
}

// A row of one group.
fn row_of<C: Link + Drop, O: Upstream<C> + Drop, P: Transform<Line = TransformLine> + Drop>(
    alloc: Global,
    group: Group<RowWorld<C, O, P>>,
    tag: ExchangeTag<C, O>,
) -> Result<GroupRow<C, O, P>, NoMemory>
    ensures groups { IfOk result (λ r. r.groups.items ≡ group ∷ []) }
    ensures tags { IfOk result (λ r. r.tags.items ≡ kind.One tag ∷ []) }
{
    let groups = alone(alloc, group)?;
    let tags = alone(alloc, EitherTag::One(tag))?;
    Ok(GroupRow { groups, tags })
}

/// A transaction that was not started, and the plugins of its lines behind it.
pub fn make_row<C: Link + Drop, O: Upstream<C> + Drop, P: Transform<Line = TransformLine> + Drop>(
    alloc: Global,
    setting: &ExchangeSetting,
    client: C,
    origin: Option<O>,
) -> Result<GroupRow<C, O, P>, NoMemory>
    requires acts { ActsAsLines P.Transform }
    requires setting { IsSetting setting.now }
    requires ends { AreNewEnds C.Link O.Link O.Upstream.own client origin }
    ensures { IfOk result (λ r.
        IsNewRow C.Link O.Link O.Upstream.own P.Transform r.tags.items r.groups.items) }
{
    let (group, tag) = make_txn(alloc, setting, client, origin)?;
    let alone = row_of(alloc, group, tag)?;
    let row = add_plugins(alloc, setting.setup.plugins.as_slice(), alone)?;
    Ok(row)
}

/// A transaction that was started in the first turn of its group, and the plugins of its lines behind it.
pub fn begin<C: Link + Drop, O: Upstream<C> + Drop, P: Transform<Line = TransformLine> + Drop>(
    alloc: Global,
    setting: &ExchangeSetting,
    client: C,
    origin: Option<O>,
) -> Result<GroupRow<C, O, P>, NoMemory>
    requires acts { ActsAsLines P.Transform }
    requires setting { IsSetting setting.now }
    requires ends { AreNewEnds C.Link O.Link O.Upstream.own client origin }
    ensures { IfOk result (λ r. HasBegun C.Link O.Link O.Upstream.own P.Transform r.groups.items) }
{
    let (group, tag) = begin_txn(alloc, setting, client, origin)?;
    let alone = row_of(alloc, group, tag)?;
    let row = add_plugins(alloc, setting.setup.plugins.as_slice(), alone)?;
    Ok(row)
}

// How many events each of the groups behind the first handled, of as many as are told.
fn handled_behind<W: World + Drop>(groups: &[Group<W>]) -> Asked {
    let mut asked = [None; PLUGINS_TOLD];
    let Some((_, behind)) = groups.split_first() else {
        return asked;
    };
    for (count, group) in asked.iter_mut().zip(behind) {
        *count = Some(group.journal().counts().handled);
    }
    asked
}

/// The world and the journal of the first of these groups, if there is one.
pub fn first_of<W: World + Drop>(groups: Vec<Group<W>>) -> Option<(W, Journal)>
    ensures { IfSome result (λ r. IsFirstOf groups.items r.0 r.1) }
{
    let mut left = VecDeque::from_vec(groups);
    let Some(group) = left.pop_front() else {
        return None;
    };
    Some(group.into_parts())
}

/// Handles what is pending of a transaction whose links tell, and asks its plugins for it, until nothing is.
pub fn drive<C: Link + Drop, O: Upstream<C> + Drop, P: Transform<Line = TransformLine> + Drop>(
    row: GroupRow<C, O, P>,
) -> Result<EndedRow<C, O, P>, Refusal>
    requires begun { HasBegun C.Link O.Link O.Upstream.own P.Transform row.groups.items }
    requires tells { AlwaysTells C.Link O.Link O.Upstream.own P.Transform }
    ensures ended { IfOk result (λ r. HasEndedOr r.txn r.journal.state) }
{
    let GroupRow {
        mut groups,
        tags: _,
    } = row;
    finish(&mut groups)?;
    let asked = handled_behind(groups.as_slice());
    let Some((world, journal)) = first_of(groups) else {
        return Err(Refusal::NoTxn);
    };
    let Either::One(txn) = world else {
        return Err(Refusal::NoTxn);
    };
    Ok(EndedRow {
        txn,
        journal,
        asked,
    })
}

// What the transaction of a row tells.
fn told_by<C: Link + Drop, O: Upstream<C> + Drop, P: Transform<Line = TransformLine> + Drop>(
    row: &GroupRow<C, O, P>,
) -> Option<Told> {
    let Some(group) = row.groups.as_slice().first() else {
        return None;
    };
    match group.world() {
        Either::One(txn) => Some(Told {
            number: txn.number(),
            is_dialed: txn.origin().is_some(),
            end: txn.end(),
        }),
        Either::Other(_) => None,
    }
}

/// What is left of a transaction between two links.
pub fn exchange(
    alloc: Global,
    setting: &ExchangeSetting,
    client: MemLink,
    origin: Option<MemLink>,
) -> Result<EndedTxn, Refusal>
    requires setting { IsSetting setting.now }
    requires client { IsNewLink (look_of client) }
    requires origin { IsNewLinkIf look_of origin }
    ensures ended { IfOk result (λ e. IsSome e.parts.end ⊎ (GREATEST ≤ e.journal.state.next)) }
{
    let row: GroupRow<MemLink, MemLink, Stock> = begin(alloc, setting, client, origin)?;
    let told = told_by(&row);
    let EndedRow {
        txn,
        journal,
        asked,
    } = drive(row)?;
    Ok(EndedTxn {
        told,
        parts: txn.into_parts(),
        journal,
        asked,
    })
}
