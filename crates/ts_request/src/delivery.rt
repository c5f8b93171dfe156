//! What holds of a front and a carrier: that they belong together, and what the origin took.
ghost use Rattle.ts_request.specs.Delivered.{DeliversIfPaired, PairsIfFresh};

use crate::carrier::Carrier;
use crate::front::Front;
use ts_config::TransformLine;
use ts_link::Link;
use ts_transform::Transform;
use ts_upstream::Upstream;

/// What holds of every front and carrier that belong together, where the origin inside tells and moved no
/// upload of its own: what that origin took, with what waits for it, is the head of the request with its
/// framing line and the frames of a front of the request lines' work on the body, with their end only behind
/// the whole of it; and nothing waits once the upload is done. This is a law: the function does nothing.
pub fn delivered<C: Link, O: Upstream<C>, P: Transform<Line = TransformLine>>(
    _front: &Front<C>,
    _carrier: &Carrier<O, P>,
)
    ensures { DeliversIfPaired C.Link O.Link O.Upstream.own P.Transform _front.now _carrier.now }
{}

/// A front and a carrier of which no call was made belong together, where the two links inside do, and the
/// origin took nothing. This is a law: the function does nothing.
pub fn paired<C: Link, O: Upstream<C>, P: Transform<Line = TransformLine>>(
    _front: &Front<C>,
    _carrier: &Carrier<O, P>,
)
    ensures { PairsIfFresh C.Link O.Link O.Upstream.own P.Transform _front.now _carrier.now }
{}
