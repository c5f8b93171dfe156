//! A transaction between plain links: how it is made with its tag, and taken apart into what is left of it.

ghost use Rattle.std.specs.Prelude.{◌≡◌, ℕ, List, [], Bool, false, true, IfOk};
ghost use Rattle.std.specs.Arc.{arc_value};
ghost use Rattle.ts_group.specs.declared.action.Named.{Named};
ghost use Rattle.ts_journal.specs.State.{State};
ghost use Rattle.ts_passing.specs.Lines.{ActsAsLines};
ghost use Rattle.ts_txn.specs.Making.{IsTxnSetup};
ghost use Rattle.ts_txn.specs.World.{IsSoundTxn, IsTxnOf};
ghost use Rattle.ts_exchange.specs.Ends.{AreNewEnds, AreSureEnds, Ends, IsTagBetween, ends_of};
ghost use Rattle.ts_exchange.specs.Left.{Exchanges, IsApart, IsBetween, has_ended, holds_origin};

use std::alloc::Global;
use std::snapshot::Snapshot;
use std::sync::Arc;
use ts_config::{Setup, TransformLine};
use ts_link::{Link, NoMemory};
use ts_transform::Transform;
use ts_txn::{Txn, TxnParts, TxnTag};
use ts_upstream::Upstream;

/// A transaction between plain links, with the layers that its lines ask for.
pub type Exchange<C, O, P> = Txn<C, O, P>;

/// What a slot promises of it.
pub type ExchangeTag<C, O> = TxnTag<C, O>;

/// What transactions under one setup are made with.
#[derive(Drop)]
pub struct ExchangeSetting {
    pub setup: Arc<Setup>,
    /// The group of the first plugin line.
    pub plugins_at: u32,
}

/// What the tag of a transaction promises of its links and of its slot.
#[derive(Clone, Copy, Drop)]
pub struct Promise {
    /// No call of a link fails or waits by its number.
    pub is_sure: bool,
    /// The slot had no other tenant before.
    pub is_first: bool,
}

/// A transaction of this number between a client and an origin, which were not used, and its tag. It was not
/// started.
pub fn make_exchange<
    C: Link + Drop,
    O: Upstream<C> + Drop,
    P: Transform<Line = TransformLine> + Drop,
>(
    alloc: Global,
    setting: &ExchangeSetting,
    number: u64,
    promise: Promise,
    client: C,
    origin: Option<O>,
) -> Result<(Exchange<C, O, P>, ExchangeTag<C, O>), NoMemory>
    requires setting { IsTxnSetup (arc_value setting.now.setup) setting.now.plugins_at }
    requires acts { ActsAsLines P.Transform }
    requires ends { AreNewEnds C.Link O.Link O.Upstream.own client origin }
    requires sure { promise.is_sure ≡ true → AreSureEnds C.look O.look client origin }
    ensures tag { IfOk result (λ r.
        IsTagBetween (ends_of setting.now number client origin) promise false r.1) }
    ensures fits { IfOk result (λ r. IsTxnOf C.Link O.Link r.1 r.0) }
    ensures sound { IfOk result (λ r. (next : ℕ) (roles : List Named) →
        IsSoundTxn C.Link O.Link O.Upstream.own P.Transform r.0 [] next roles) }
{
    let setup = setting.setup.clone()?;
    let tag = TxnTag {
        number,
        setup: Snapshot::of(&*setup),
        plugins_at: setting.plugins_at,
        client: Snapshot::of(&client),
        origin: Snapshot::of(&origin),
        sure: promise.is_sure,
        first: promise.is_first,
        started: false,
    };
    let exchange = Txn::make(alloc, number, setup, setting.plugins_at, client, origin)?;
    Ok((exchange, tag))
}

/// Whether it holds an origin.
pub fn has_origin<C: Link + Drop, O: Upstream<C> + Drop, P: Transform<Line = TransformLine> + Drop>(
    exchange: &Exchange<C, O, P>,
) -> bool
    ensures { result ≡ holds_origin exchange.now }
{
    exchange.origin().is_some()
}

/// Whether it has ended. Nothing of one that has ended is pending.
pub fn has_ended<C: Link + Drop, O: Upstream<C> + Drop, P: Transform<Line = TransformLine> + Drop>(
    exchange: &Exchange<C, O, P>,
) -> bool
    ensures ended { result ≡ has_ended exchange.now }
    ensures rests { result ≡ true → (s : State) (roles : List Named)
        → IsSoundTxn C.Link O.Link O.Upstream.own P.Transform exchange.now s.pending s.next roles
        → s.pending ≡ [] }
{
    exchange.end().is_some()
}

/// Takes it apart into what is left of it: the plain links between which it was made, and how it ended.
pub fn take_apart<C: Link + Drop, O: Upstream<C> + Drop, P: Transform<Line = TransformLine> + Drop>(
    exchange: Exchange<C, O, P>,
) -> TxnParts<C, O>
    ensures apart { IsApart exchange result }
    ensures left { (ends : Ends C O) (started : Bool) (s : State)
        → IsBetween C.Link O.Link O.Upstream.own P.Transform ends started exchange s
        → Exchanges C.Link O.Link O.Upstream.own ends started s result }
{
    let _end = exchange.end();
    exchange.into_parts()
}
