//! A transaction between plain links with the layers over its two ends: how it is made with its tag, and
//! taken apart into what is left of it.

ghost use Rattle.std.specs.Prelude.{◌≡◌, ◌↔◌, ℕ, List, [], Bool, false, true, is_some, IfOk, IsTrue};
ghost use Rattle.std.specs.Arc.{arc_value};
ghost use Rattle.ts_group.specs.declared.action.Named.{Named};
ghost use Rattle.ts_journal.specs.State.{State};
ghost use Rattle.ts_passing.specs.Lines.{ActsAsLines};
ghost use Rattle.ts_request.specs.Delivered.{upload_mode};
ghost use Rattle.ts_txn.specs.Making.{IsTxnSetup};
ghost use Rattle.ts_txn.specs.World.{IsSoundTxn, IsTxnOf};
ghost use Rattle.ts_exchange.specs.Ends.{Ends, ends_of};
ghost use Rattle.ts_exchange.specs.Left.{end_of, number_of};
ghost use Rattle.ts_layers.specs.Layers.{AreSettled, AreSureLayers, IsLayeredBetween, IsLayeredTag};
ghost use Rattle.ts_layers.specs.Layers.{LeavesExchange, MayBeLayered, holds_origin};
ghost use Rattle.ts_layers.specs.Links.{client_link, origin_link, origin_uploads};

use crate::off::{PlainParts, plain_parts};
use crate::over::{ClientEnd, Layers, OriginEnd, layers_over};
use std::alloc::Global;
use ts_config::TransformLine;
use ts_exchange::{Exchange, ExchangeSetting, ExchangeTag, Promise, make_exchange, take_apart};
use ts_link::{Link, NoMemory, Sourced};
use ts_request::Stage;
use ts_tap::Sum;
use ts_transform::Transform;
use ts_txn::TxnParts;
use ts_upstream::Upstream;
use ts_wire::Mode;

/// A transaction between plain links: its client may have a tap, the body of its request goes through the
/// request lines on its way, and a line may answer in the origin's place.
pub type LayeredExchange<C, O, P> = Exchange<ClientEnd<C>, OriginEnd<O, P>, P>;

/// What a slot promises of it.
pub type LayeredTag<C, O, P> = ExchangeTag<ClientEnd<C>, OriginEnd<O, P>>;

/// What is left of a transaction whose layers were taken off.
#[derive(Drop)]
pub struct PlainExchange<C, O> {
    /// Its parts, between the plain links. There is an origin exactly where one was handed in.
    pub parts: TxnParts<C, O>,
    /// How the body of its request stands behind the head that was taken in the origin's place, where it was
    /// delivered whole.
    pub upload: Option<Mode>,
    /// What was kept of what was taken in the origin's place: all of it where it was made to keep that, and
    /// else nothing.
    pub taken: Option<Vec<u8>>,
    /// What the tap summed up, if there was one.
    pub sum: Option<Sum>,
    /// Whether it is known what was shown of the client, nothing that was written for the origin waits, and
    /// nothing was read of it before a head was whole.
    pub settled: bool,
}

/// A transaction of this number between a client and an origin, if there is one, which were not used, with
/// the layers over them, and its tag. It keeps what is taken in the origin's place, or does not. It was not
/// started.
pub fn make_layered<
    C: Sourced + Drop,
    O: Upstream<C> + Drop,
    P: Transform<Line = TransformLine> + Drop,
>(
    alloc: Global,
    setting: &ExchangeSetting,
    number: u64,
    promise: Promise,
    keeps: bool,
    client: C,
    origin: Option<O>,
) -> Result<(LayeredExchange<C, O, P>, LayeredTag<C, O, P>), NoMemory>
    requires setting { IsTxnSetup (arc_value setting.now.setup) setting.now.plugins_at }
    requires acts { ActsAsLines P.Transform }
    requires ends { MayBeLayered C.Link O.Link O.Upstream.own client origin }
    requires sure { promise.is_sure ≡ true → AreSureLayers C.look O.look client origin }
    ensures tag { IfOk result (λ r.
        IsLayeredTag (ends_of setting.now number client origin) keeps promise false r.1) }
    ensures fits { IfOk result (λ r. IsTxnOf (client_link C.Link) (origin_link O.Link) r.1 r.0) }
    ensures sound { IfOk result (λ r. (next : ℕ) (roles : List Named) →
        IsSoundTxn (client_link C.Link) (origin_link O.Link)
        (origin_uploads C.Link O.Link O.Upstream.own P.Transform) P.Transform r.0 [] next roles) }
    ensures origin { IfOk result (λ r. holds_origin r.0 ≡ is_some origin) }
{
    let Layers { client, origin } = layers_over(alloc, &setting.setup, keeps, client, origin)?;
    make_exchange(alloc, setting, number, promise, client, Some(origin))
}

/// Whether it holds an origin: one that was handed in.
pub fn has_origin<
    C: Sourced + Drop,
    O: Upstream<C> + Drop,
    P: Transform<Line = TransformLine> + Drop,
>(exchange: &LayeredExchange<C, O, P>) -> bool
    ensures { result ≡ holds_origin exchange.now }
{
    let Some(end) = exchange.origin() else {
        return false;
    };
    end.origin().inner().has_origin()
}

// How the body of an upload stands behind the head, if there is one and it was delivered whole.
fn upload_of<O: Link + Drop, P: Drop>(end: &Option<OriginEnd<O, P>>) -> Option<Mode>
    ensures { result ≡ upload_mode end.now }
{
    let Some(end) = end else {
        return None;
    };
    end.upload_mode()
}

// Whether it is known what the front shows, nothing waits for the origin, and nothing was read of it too
// early.
fn is_settled<C: Link + Drop, O: Link + Drop, P: Drop>(
    client: &ClientEnd<C>,
    origin: &Option<OriginEnd<O, P>>,
) -> bool
    ensures { IsTrue result ↔ AreSettled client.now origin.now }
{
    let Some(origin) = origin else {
        return false;
    };
    if let Stage::Heading = client.stage() {
        return false;
    }
    let chosen = origin.origin().inner();
    if chosen.was_early() || !chosen.is_sent() {
        return false;
    }
    origin.is_sent()
}

/// Takes it apart into what is left of it: the plain links between which it was made, how it ended, how the
/// body of its request stands at the origin, and what the layers left.
pub fn take_layered_apart<
    C: Sourced + Drop,
    O: Upstream<C> + Drop,
    P: Transform<Line = TransformLine> + Drop,
>(exchange: LayeredExchange<C, O, P>) -> PlainExchange<C, O>
    ensures left { (ends : Ends C O) (keeps started : Bool) (s : State)
        → IsLayeredBetween C.Link O.Link O.Upstream.own P.Transform ends keeps started exchange s
        → LeavesExchange C.Link O.Link O.Upstream.own P.Transform ends keeps started s exchange result }
    ensures number { result.parts.number ≡ number_of exchange }
    ensures origin { is_some result.parts.origin ≡ holds_origin exchange }
    ensures ended { result.parts.end ≡ end_of exchange }
{
    let parts = take_apart(exchange);
    let upload = upload_of(&parts.origin);
    let settled = is_settled(&parts.client, &parts.origin);
    let PlainParts { parts, taken, sum } = plain_parts(parts);
    PlainExchange {
        parts,
        upload,
        taken,
        sum,
        settled,
    }
}
