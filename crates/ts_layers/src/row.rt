//! The groups in which transactions with layers run, and the plugins of their lines.

ghost use Rattle.std.specs.Prelude.{◌≡◌, false, true, IfOk};
ghost use Rattle.std.specs.Arc.{arc_value};
ghost use Rattle.ts_group.specs.declared.either.EitherTag.TheVariants as kind;
ghost use Rattle.ts_group.specs.Context.{IsFresh};
ghost use Rattle.ts_passing.specs.Lines.{ActsAsLines};
ghost use Rattle.ts_txn.specs.Making.{IsTxnSetup};
ghost use Rattle.ts_exchange.specs.Ends.{ends_of};
ghost use Rattle.ts_exchange.specs.Rows.{FitsIn};
ghost use Rattle.ts_layers.specs.Layers.{AreSureLayers, IsLayeredTag, MayBeLayered};
ghost use Rattle.ts_layers.specs.Links.{client_link, origin_link, origin_uploads};

use crate::layers::LayeredTag;
use crate::over::{ClientEnd, Layers, OriginEnd, layers_over};
use std::alloc::Global;
use ts_config::TransformLine;
use ts_exchange::{ExchangeSetting, GroupRow, Promise, RowTag, RowWorld, make_group};
use ts_group::Group;
use ts_link::{NoMemory, Sourced};
use ts_transform::Transform;
use ts_upstream::Upstream;

/// The world of a group in a row: a transaction with layers, or the plugin of a line.
pub type LayeredWorld<C, O, P> = RowWorld<ClientEnd<C>, OriginEnd<O, P>, P>;

/// What a slot promises of it.
pub type LayeredRowTag<C, O, P> = RowTag<ClientEnd<C>, OriginEnd<O, P>>;

/// Groups in their order, each with the tag of its slot.
pub type LayeredRow<C, O, P> = GroupRow<ClientEnd<C>, OriginEnd<O, P>, P>;

/// The group of a transaction of this number between a client and an origin, if there is one, which were not
/// used, with the layers over them, and its tag. It keeps what is taken in the origin's place, or does not.
/// It has had no turn.
pub fn make_layered_group<
    C: Sourced + Drop,
    O: Upstream<C> + Drop,
    P: Transform<Line = TransformLine> + Drop,
>(
    alloc: Global,
    setting: &ExchangeSetting,
    number: u64,
    promise: Promise,
    keeps: bool,
    client: C,
    origin: Option<O>,
) -> Result<(Group<LayeredWorld<C, O, P>>, LayeredTag<C, O, P>), NoMemory>
    requires setting { IsTxnSetup (arc_value setting.now.setup) setting.now.plugins_at }
    requires acts { ActsAsLines P.Transform }
    requires ends { MayBeLayered C.Link O.Link O.Upstream.own client origin }
    requires sure { promise.is_sure ≡ true → AreSureLayers C.look O.look client origin }
    ensures tag { IfOk result (λ r.
        IsLayeredTag (ends_of setting.now number client origin) keeps promise false r.1) }
    ensures fits { IfOk result (λ r. FitsIn (client_link C.Link) (origin_link O.Link)
        (origin_uploads C.Link O.Link O.Upstream.own P.Transform) P.Transform (kind.One r.1) r.0) }
    ensures fresh { IfOk result (λ r. IsFresh 0 r.0.cx) }
{
    let Layers { client, origin } = layers_over(alloc, &setting.setup, keeps, client, origin)?;
    make_group(alloc, setting, number, promise, client, Some(origin))
}
