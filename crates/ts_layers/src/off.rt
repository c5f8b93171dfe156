//! The layers are taken off what is left of a transaction.

ghost use Rattle.std.specs.Prelude.{◌≡◌, Some, true, IfSome};
ghost use Rattle.ts_request.specs.Front.{ShowsClient};
ghost use Rattle.ts_tap.specs.Optional.{client_of, most_of};
ghost use Rattle.ts_layers.specs.Layers.{EndsDeliver, HasChosen, HasKept, IsInside, IsTapped};
ghost use Rattle.ts_layers.specs.Layers.{origin_inside};
ghost use Rattle.ts_layers.specs.Links.{unlifted_if, watched_look};

use crate::over::{ClientEnd, OriginEnd};
use ts_config::TransformLine;
use ts_link::Link;
use ts_request::delivered;
use ts_tap::{Lifted, Sum};
use ts_transform::Transform;
use ts_txn::TxnParts;
use ts_upstream::Upstream;

/// The parts of a transaction between the plain links, and what its layers left.
#[derive(Drop)]
pub struct PlainParts<C, O> {
    pub parts: TxnParts<C, O>,
    /// What was kept of what was taken in the origin's place: all of it, or nothing. It is there where an
    /// origin's end was.
    pub taken: Option<Vec<u8>>,
    /// What the tap summed up, if there was one.
    pub sum: Option<Sum>,
}

// The links inside two ends, and what the layers left.
#[derive(Drop)]
struct LinksLeft<C, O> {
    client: C,
    sum: Option<Sum>,
    origin: Option<O>,
    taken: Option<Vec<u8>>,
}

// The origin inside, if there is one.
fn unlifted<O>(origin: Option<Lifted<O>>) -> Option<O>
    ensures { result ≡ unlifted_if origin }
{
    match origin {
        Some(origin) => Some(origin.into_origin()),
        None => None,
    }
}

// The client inside its end, and the sum of its tap, if there is one.
fn client_left<C: Link + Drop>(end: ClientEnd<C>) -> (C, Option<Sum>)
    ensures client { result.0 ≡ client_of end.client }
    ensures shows { C.tells ≡ true → ShowsClient (watched_look C.look) end }
    ensures tapped { IsTapped C.Link (most_of end.client) (client_of end.client) result.1 }
{
    end.into_client().into_parts()
}

// The origin inside its end, if there is one, and what was kept of what was taken in its place.
fn origin_left<O: Link + Drop, P: Drop>(end: OriginEnd<O, P>) -> (Option<O>, Option<Vec<u8>>)
    ensures origin { result.0 ≡ origin_inside (Some end) }
    ensures chosen { HasChosen O.Link end }
    ensures kept { HasKept O.Link result.1 end }
{
    let (chosen, taken) = end.into_origin().into_parts();
    let origin = unlifted(chosen.into_origin());
    (origin, Some(taken))
}

// The links inside two ends, if there is an origin's, and what the layers left.
fn links_left<C: Link + Drop, O: Upstream<C> + Drop, P: Transform<Line = TransformLine> + Drop>(
    client: ClientEnd<C>,
    origin: Option<OriginEnd<O, P>>,
) -> LinksLeft<C, O>
    ensures client { result.client ≡ client_of client.client }
    ensures origin { result.origin ≡ origin_inside origin }
    ensures shows { C.tells ≡ true → ShowsClient (watched_look C.look) client }
    ensures tapped { IsTapped C.Link (most_of client.client) result.client result.sum }
    ensures carried { IfSome origin (EndsDeliver C.Link O.Link O.Upstream.own P.Transform client) }
    ensures chosen { IfSome origin (HasChosen O.Link) }
    ensures kept { IfSome origin (HasKept O.Link result.taken) }
{
    let Some(origin) = origin else {
        let (client, sum) = client_left(client);
        return LinksLeft {
            client,
            sum,
            origin: None,
            taken: None,
        };
    };
    delivered(&client, &origin);
    let (client, sum) = client_left(client);
    let (origin, taken) = origin_left(origin);
    LinksLeft {
        client,
        sum,
        origin,
        taken,
    }
}

/// The parts of a transaction whose layers are taken off: the client and the origin inside, and all else as
/// it is, with what the layers left. It takes no memory. What was taken in the origin's place is the head of
/// the request with the line that says how its body is framed, and the frames of a front of the request
/// lines' work on the body.
pub fn plain_parts<
    C: Link + Drop,
    O: Upstream<C> + Drop,
    P: Transform<Line = TransformLine> + Drop,
>(parts: TxnParts<ClientEnd<C>, OriginEnd<O, P>>) -> PlainParts<C, O>
    ensures inside { IsInside parts result.parts }
    ensures shows { C.tells ≡ true → ShowsClient (watched_look C.look) parts.client }
    ensures tapped { IsTapped C.Link (most_of parts.client.client) result.parts.client result.sum }
    ensures carried { IfSome parts.origin
        (EndsDeliver C.Link O.Link O.Upstream.own P.Transform parts.client) }
    ensures chosen { IfSome parts.origin (HasChosen O.Link) }
    ensures kept { IfSome parts.origin (HasKept O.Link result.taken) }
{
    let TxnParts {
        number,
        client,
        origin,
        head,
        mode,
        client_faults,
        origin_faults,
        cuts,
        end,
    } = parts;
    let LinksLeft {
        client,
        sum,
        origin,
        taken,
    } = links_left(client, origin);
    let parts = TxnParts {
        number,
        client,
        origin,
        head,
        mode,
        client_faults,
        origin_faults,
        cuts,
        end,
    };
    PlainParts { parts, taken, sum }
}
