//! The layers are put over a client and an origin, which were not used.

ghost use Rattle.std.specs.Prelude.{◌≡◌, Some, true, IfOk};
ghost use Rattle.std.specs.Arc.{arc_value};
ghost use Rattle.ts_passing.specs.Lines.{ActsAsLines};
ghost use Rattle.ts_txn.specs.Making.{IsNewLink, IsNewLinkIf};
ghost use Rattle.ts_exchange.specs.Ends.{AreNewEnds};
ghost use Rattle.ts_layers.specs.Layers.{IsClientOver, IsOriginOver, MayBeLayered};
ghost use Rattle.ts_layers.specs.Links.{client_link, lifted_if, origin_link, origin_uploads};

use crate::kept::Kept;
use std::alloc::Global;
use std::sync::Arc;
use ts_config::{Setup, TransformLine};
use ts_intercept::Chosen;
use ts_link::{Link, NoMemory, Sourced};
use ts_request::{Carrier, Front, paired};
use ts_tap::{Lifted, Watched};
use ts_transform::Transform;
use ts_upstream::Upstream;

/// The client's end of a transaction: a front over its client, with a tap or with none.
pub type ClientEnd<C> = Front<Watched<C>>;

/// The origin's end: a carrier over a link that keeps what it takes, over one that chooses between an origin,
/// if there is one, and the lines of the setup.
pub type OriginEnd<O, P> = Carrier<Kept<Chosen<Lifted<O>>>, P>;

/// The layers over the two ends of a transaction.
#[derive(Drop)]
pub(crate) struct Layers<C: Link, O: Link, P> {
    pub(crate) client: ClientEnd<C>,
    pub(crate) origin: OriginEnd<O, P>,
}

// How many bytes the tap of this setup counts at most, if there is one.
fn tap_of(setup: &Arc<Setup>) -> Option<u64>
    ensures { result ≡ (arc_value setup.now).tap }
{
    match setup.tap {
        Some(most) => Some(most as u64),
        None => None,
    }
}

// The client's end over a client that was not used, with the tap that the setup asks for.
fn client_over<C: Link + Drop>(
    alloc: Global,
    setup: &Arc<Setup>,
    client: C,
) -> Result<ClientEnd<C>, NoMemory>
    requires { C.tells ≡ true → IsNewLink (C.look client) }
    ensures { IfOk result (IsClientOver (arc_value setup.now) client) }
{
    let watched = Watched::make(alloc, client, tap_of(setup))?;
    Front::make(alloc, watched)
}

// The link to an origin, if there is one, for a client with a tap or with none.
fn lifted<O>(origin: Option<O>) -> Option<Lifted<O>>
    ensures { result ≡ lifted_if origin }
{
    match origin {
        Some(origin) => Some(Lifted::make(origin)),
        None => None,
    }
}

// The origin's end over an origin that was not used, if there is one.
fn origin_over<O: Link + Drop, P: Drop>(
    alloc: Global,
    setup: &Arc<Setup>,
    keeps: bool,
    origin: Option<O>,
) -> Result<OriginEnd<O, P>, NoMemory>
    requires { O.tells ≡ true → IsNewLinkIf O.look origin }
    ensures { IfOk result (IsOriginOver (arc_value setup.now) keeps origin) }
{
    let origin = lifted(origin);
    let intercepts = setup.clone()?;
    let chosen = Chosen::make(alloc, origin, intercepts)?;
    let kept = Kept::make(alloc, chosen, keeps);
    let requests = setup.clone()?;
    Carrier::make(alloc, kept, requests)
}

/// The layers over a client and an origin, if there is one, which were not used.
pub(crate) fn layers_over<
    C: Sourced + Drop,
    O: Upstream<C> + Drop,
    P: Transform<Line = TransformLine> + Drop,
>(
    alloc: Global,
    setup: &Arc<Setup>,
    keeps: bool,
    client: C,
    origin: Option<O>,
) -> Result<Layers<C, O, P>, NoMemory>
    requires acts { ActsAsLines P.Transform }
    requires ends { MayBeLayered C.Link O.Link O.Upstream.own client origin }
    ensures client { IfOk result (λ l. IsClientOver (arc_value setup.now) client l.client) }
    ensures origin { IfOk result (λ l. IsOriginOver (arc_value setup.now) keeps origin l.origin) }
    ensures ends { IfOk result (λ l. AreNewEnds (client_link C.Link) (origin_link O.Link)
        (origin_uploads C.Link O.Link O.Upstream.own P.Transform) l.client (Some l.origin)) }
{
    let client = client_over(alloc, setup, client)?;
    let origin = origin_over(alloc, setup, keeps, origin)?;
    paired(&client, &origin);
    Ok(Layers { client, origin })
}
