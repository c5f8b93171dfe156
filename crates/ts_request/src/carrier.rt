//! The link to the origin of a request with an upload: it holds the request's head until its upload begins,
//! and then sends it with the line that says how its body is framed, and the body behind it.
ghost use Rattle.std.specs.Arc.{arc_value};
ghost use Rattle.std.specs.Prelude.{◌≡◌, ◌↔◌, ◌<◌, ◌≤◌, [], length, IfOk, IsTrue};
ghost use Rattle.ts_link.specs.Link.{Writes};
ghost use Rattle.ts_request.specs.Carrying.{HoldsPiece, IsFreshCarrier};
ghost use Rattle.ts_request.specs.Delivered.{upload_mode_of};

use crate::front::Front;
use crate::passage::Passage;
use crate::uploading::upload_some;
use std::alloc::Global;
use std::sync::Arc;
use ts_config::{Setup, TransformLine};
use ts_iobuf::Waiting;
use ts_link::{Got, Link, NoMemory, Put, Sourced};
use ts_transform::Transform;
use ts_upstream::{Uploaded, Upstream};
use ts_wire::Mode;

/// A head that is held has at most so many bytes.
pub const MOST_HELD: usize = 4_194_304;

/// Where the head of the request stands.
#[derive(Clone, Copy)]
pub enum HeadState {
    /// It is held: no upload was called yet.
    Held,
    /// It goes to the origin. It has `len` bytes, and with it goes a line of `line` bytes, before its last CR
    /// LF; none where the request has no upload.
    Sent { len: usize, line: usize },
}

/// A link to an origin that carries the upload of a request there.
#[derive(Drop)]
pub struct Carrier<O, P> {
    pub(crate) alloc: Global,
    pub(crate) origin: O,
    pub(crate) setup: Arc<Setup>,
    // What waits for the origin: as long as the head is held, all that was written.
    pub(crate) out: Waiting,
    // What came of the body and was not fed.
    pub(crate) inbox: Waiting,
    pub(crate) head: HeadState,
    // The origin's own upload is done.
    pub(crate) asked: bool,
    // The upload is done.
    pub(crate) over: bool,
    // The body's way, once it has begun.
    pub(crate) passage: Option<Passage<P>>,
    // How many writes were made, but for those that lacked memory.
    pub(crate) writes: u64,
}

impl<O: Drop, P: Drop> Carrier<O, P> {
    /// A carrier to this origin, whose request lines are those of the setup. Nothing was written to it.
    pub fn make(alloc: Global, origin: O, setup: Arc<Setup>) -> Result<Carrier<O, P>, NoMemory>
        ensures { IfOk result (IsFreshCarrier origin (arc_value setup)) }
    {
        let out = Waiting::new(alloc)?;
        let inbox = Waiting::new(alloc)?;
        Ok(Carrier {
            alloc,
            origin,
            setup,
            out,
            inbox,
            head: HeadState::Held,
            asked: false,
            over: false,
            passage: None,
            writes: 0,
        })
    }

    /// The origin inside.
    pub fn origin(&self) -> &O
        ensures { result.now ≡ self.now.origin }
    {
        &self.origin
    }

    /// Whether nothing waits for the origin.
    pub fn is_sent(&self) -> bool
        ensures { IsTrue result ↔ (self.now.out ≡ []) }
    {
        self.out.is_empty()
    }

    /// How the body of the upload stands behind the head at the origin, once it was delivered whole: none
    /// before that, and where the request has no upload.
    pub fn upload_mode(&self) -> Option<Mode>
        ensures { result ≡ upload_mode_of self.now }
    {
        let Some(passage) = &self.passage else {
            return None;
        };
        if self.over { Some(passage.mode) } else { None }
    }

    /// The origin inside, once the upload is left where it stands. It takes no memory.
    pub fn into_origin(self) -> O
        ensures { result ≡ self.origin }
    {
        let Carrier { origin, .. } = self;
        origin
    }
}

// Puts a piece of the head behind what is held, and counts a write.
fn hold(out: &mut Waiting, writes: &mut u64, piece: &[u8]) -> Put
    requires { 0 < length piece.now }
    ensures { HoldsPiece out.old out.new writes.old writes.new result piece.now }
{
    if piece.len() > MOST_HELD.saturating_sub(out.len()) {
        return Put::NoMemory;
    }
    match out.write(piece) {
        Ok(()) => {
            *writes = writes.saturating_add(1);
            Put::Took(piece.len())
        }
        Err(_) => Put::NoMemory,
    }
}

// As a link it is the origin's, but for what it holds.
impl<O: Link, P> Link for Carrier<O, P> {
    ghost use Rattle.ts_request.specs.CarrierLaws.{as_link, carrier_goes_on, carrier_goes_still};
    ghost use Rattle.ts_request.specs.CarrierLaws.{carrier_stays, carrier_still_on};
    ghost use Rattle.ts_request.specs.Carrying.{CarrierGoes, CarrierStill, carrier_look};

    ghost tells = { O.tells };

    ghost look = { carrier_look O.tells O.look };

    ghost goes = { CarrierGoes O.Link };

    ghost still = { CarrierStill O.Link };

    /// Reads the origin.
    fn read(&mut self, into: &mut [u8]) -> Got {
        self.origin.read(into)
    }

    /// Holds the piece, until the upload begins. From then on it is as if memory lacked, and so it is where
    /// more would be held than a head has.
    fn write(&mut self, piece: &[u8]) -> Put {
        match self.head {
            HeadState::Held => hold(&mut self.out, &mut self.writes, piece),
            HeadState::Sent { .. } => Put::NoMemory,
        }
    }

    /// The origin's faults.
    fn faults(&self) -> u64 {
        self.origin.faults()
    }

    ghost stays = { carrier_stays (as_link O.tells O.look O.goes O.still) O.stays };

    ghost goes_on = { carrier_goes_on (as_link O.tells O.look O.goes O.still) O.goes_on };

    ghost goes_still = { carrier_goes_still (as_link O.tells O.look O.goes O.still) O.goes_still };

    ghost still_on = { carrier_still_on (as_link O.tells O.look O.goes O.still) O.still_on };
}

// The head is written first, then the origin's own upload runs to its end, and then the body is carried: what
// waits is written, then a piece is framed, a stage works, the end is framed, a block is fed or the client is
// read.
impl<C: Sourced + Drop, O: Upstream<C>, P: Transform<Line = TransformLine> + Drop> Upstream<
    Front<C>,
> for Carrier<O, P> {
    ghost use Rattle.ts_request.specs.CarrierLaws.{as_link, as_origin, as_stage};
    ghost use Rattle.ts_request.specs.CarrierLaws.{left_on, pair_on, refusal_on};
    ghost use Rattle.ts_request.specs.Carrying.{CarrierStill};
    ghost use Rattle.ts_request.specs.Pairing.{CarrierPair, CarrierRefuses, carrier_left};

    ghost paired = { CarrierPair C.Link O.Link O.Upstream.own P.Transform };

    ghost refuses = { CarrierRefuses O.refuses };

    ghost upload_left = { carrier_left C.Link O.Link O.Upstream.own P.Transform };

    ghost one_upload = { λ f c g d answer. CarrierStill O.Link c d };

    fn upload(&mut self, front: &mut Front<C>) -> Uploaded {
        upload_some(self, front)
    }

    ghost pair_stays = { λ f g c d pair goes also. pair_on
        (as_link C.tells C.look C.goes C.still)
        (as_link O.tells O.look O.goes O.still)
        (as_origin O.paired O.refuses O.upload_left O.one_upload)
        (as_stage P.rest P.soon P.line_soon P.whole P.pause P.line_pause)
        f g c d goes also
        (O.pair_stays f.client g.client c.origin d.origin pair.inside goes.client also.inside)
        (O.refusal_stays c.origin d.origin also.inside) pair };

    ghost refusal_stays = { λ c d also. refusal_on (as_link O.tells O.look O.goes O.still) O.refuses c d also
        (O.refusal_stays c.origin d.origin also.inside) };

    ghost left_rises = { λ f g c d goes also. left_on
        (as_link C.tells C.look C.goes C.still)
        (as_link O.tells O.look O.goes O.still)
        (as_origin O.paired O.refuses O.upload_left O.one_upload)
        (as_stage P.rest P.soon P.line_soon P.whole P.pause P.line_pause)
        f g c d goes also (O.left_rises f.client g.client c.origin d.origin goes.client also.inside) };
}
