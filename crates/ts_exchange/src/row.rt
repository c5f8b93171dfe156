//! The groups in which transactions and the plugins of their lines run, with the tags of their slots.

ghost use Rattle.std.specs.Prelude.{◌≡◌, false, true, IfOk};
ghost use Rattle.std.specs.Arc.{arc_value};
ghost use Rattle.ts_group.specs.declared.either.EitherTag.TheVariants as kind;
ghost use Rattle.ts_group.specs.Context.{IsFresh};
ghost use Rattle.ts_passing.specs.Lines.{ActsAsLines};
ghost use Rattle.ts_txn.specs.Making.{IsTxnSetup};
ghost use Rattle.ts_exchange.specs.Ends.{AreNewEnds, AreSureEnds, IsTagBetween, ends_of};
ghost use Rattle.ts_exchange.specs.Rows.{FitsIn, StandBehind};

use crate::exchange::{Exchange, ExchangeSetting, ExchangeTag, Promise, make_exchange};
use crate::plugins::{Tagged, plugin_of};
use std::alloc::Global;
use ts_config::{PluginLine, TransformLine};
use ts_group::{Either, EitherTag, Group};
use ts_link::{Link, NoMemory};
use ts_plugin::{Plugin, PluginTag};
use ts_transform::Transform;
use ts_upstream::Upstream;

/// The world of a group in a row: a transaction, or the plugin of a line.
pub type RowWorld<C, O, P> = Either<Exchange<C, O, P>, Plugin>;

/// What a slot promises of it.
pub type RowTag<C, O> = EitherTag<ExchangeTag<C, O>, PluginTag>;

/// Groups in their order, each with the tag of its slot.
#[derive(Drop)]
pub struct GroupRow<
    C: Link + Drop,
    O: Upstream<C> + Drop,
    P: Transform<Line = TransformLine> + Drop,
> {
    pub groups: Vec<Group<RowWorld<C, O, P>>>,
    pub tags: Vec<RowTag<C, O>>,
}

/// The group of a transaction of this number between a client and an origin, which were not used, and its
/// tag. It has had no turn.
pub fn make_group<C: Link + Drop, O: Upstream<C> + Drop, P: Transform<Line = TransformLine> + Drop>(
    alloc: Global,
    setting: &ExchangeSetting,
    number: u64,
    promise: Promise,
    client: C,
    origin: Option<O>,
) -> Result<(Group<RowWorld<C, O, P>>, ExchangeTag<C, O>), NoMemory>
    requires setting { IsTxnSetup (arc_value setting.now.setup) setting.now.plugins_at }
    requires acts { ActsAsLines P.Transform }
    requires ends { AreNewEnds C.Link O.Link O.Upstream.own client origin }
    requires sure { promise.is_sure ≡ true → AreSureEnds C.look O.look client origin }
    ensures tag { IfOk result (λ r.
        IsTagBetween (ends_of setting.now number client origin) promise false r.1) }
    ensures fits { IfOk result (λ r. FitsIn C.Link O.Link O.Upstream.own P.Transform (kind.One r.1) r.0) }
    ensures fresh { IfOk result (λ r. IsFresh 0 r.0.cx) }
{
    let (exchange, tag) = make_exchange(alloc, setting, number, promise, client, origin)?;
    let world: RowWorld<C, O, P> = Either::One(exchange);
    let group = Group::make(alloc, world, 0)?;
    Ok((group, tag))
}

// The group of the plugin of a line, and its tag.
#[tactic(auto, using(crate::proofs::Made::fits_plugin))]
fn make_plugin<C: Link + Drop, O: Upstream<C> + Drop, P: Transform<Line = TransformLine> + Drop>(
    alloc: Global,
    line: &PluginLine,
) -> Result<(Group<RowWorld<C, O, P>>, PluginTag), NoMemory>
    ensures line { IfOk result (λ r. r.1.line.value ≡ line.now) }
    ensures fits { IfOk result (λ r. FitsIn C.Link O.Link O.Upstream.own P.Transform (kind.Other r.1) r.0) }
    ensures fresh { IfOk result (λ r. IsFresh 0 r.0.cx) }
{
    let Tagged { world, tag } = plugin_of(alloc, line)?;
    let world: RowWorld<C, O, P> = Either::Other(world);
    let group = Group::make(alloc, world, 0)?;
    Ok((group, tag))
}

/// The row with the groups of the plugins of these lines behind it.
pub fn add_plugins<
    C: Link + Drop,
    O: Upstream<C> + Drop,
    P: Transform<Line = TransformLine> + Drop,
>(
    alloc: Global,
    lines: &[PluginLine],
    row: GroupRow<C, O, P>,
) -> Result<GroupRow<C, O, P>, NoMemory>
    ensures { IfOk result (λ r. StandBehind C.Link O.Link O.Upstream.own P.Transform lines.now
        row.tags.items r.tags.items row.groups.items r.groups.items) }
{
    let GroupRow {
        mut groups,
        mut tags,
    } = row;
    'lines: for line in lines {
        let (group, tag) = make_plugin(alloc, line)?;
        groups.push(group)?;
        tags.push(EitherTag::Other(tag))?;
    }
    Ok(GroupRow { groups, tags })
}
