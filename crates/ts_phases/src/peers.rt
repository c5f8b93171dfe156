//! One read, one write and one upload on the sides of a transaction.
ghost use Rattle.std.specs.Prelude.{◌≡◌, ◌≤◌, ◌+◌, length, IfOk, OnOk, OnErr};
ghost use Rattle.ts_upstream.specs.Uploads.{SameRefusal, UploadFalls, both};
ghost use Rattle.ts_vconn.specs.declared.moves.TheConstants.{MOST_PULLED};
ghost use Rattle.ts_phases.specs.View.{GoesIf, PairIf, StaysLink, StaysLinkIf, UploadIf, refuses_if, side};
ghost use Rattle.ts_phases.specs.View.{side_if, is_dialed, upload_told};
ghost use Rattle.ts_phases.specs.Moving.{MovesBoth, QueuesOn, SideReads, SideWrites};

use crate::parts::Peer;
use ts_link::{Link, NoMemory};
use ts_upstream::{Uploaded, Upstream};
use ts_vconn::{Pulled, Pushed, push_waiting};

impl<L: Link> Peer<L> {
    /// Gives back the memory of what was read and written, but of the bytes that wait. It takes no memory.
    pub(crate) fn give_back(&mut self)
        ensures { self.new ≡ self.old }
    {
        self.inbox.give_back();
        self.outbox.give_back();
    }

    /// Makes one read of the link, of at most so many bytes.
    #[tactic(auto, using(crate::proofs::OneSide::few_pulled))]
    pub(crate) fn pull(&mut self, most: usize) -> Result<Pulled, NoMemory>
        requires { (1 ≤ most) × (most ≤ MOST_PULLED) }
        ensures moved { IfOk result
            (λ p. SideReads L.tells (side L.look self.old) (side L.look self.new) p) }
        ensures goes { L.goes self.old.link self.new.link }
        ensures few { IfOk result (λ p. length self.new.inbox ≤ length self.old.inbox + most) }
        ensures err { OnErr result (self.new ≡ self.old) }
    {
        self.inbox.pull(&mut self.link, most)
    }

    /// Makes one write of what waits for the link.
    pub(crate) fn push(&mut self) -> Pushed
        ensures moved { SideWrites L.tells (side L.look self.old) (side L.look self.new) result }
        ensures goes { L.goes self.old.link self.new.link }
    {
        push_waiting(&mut self.outbox, &mut self.link)
    }
}

/// Gives back such memory of the origin's side: none, where there is no origin.
pub(crate) fn give_back_origin<L: Link>(origin: &mut Option<Peer<L>>)
    ensures { origin.new ≡ origin.old }
{
    if let Some(peer) = origin {
        peer.give_back();
    }
}

/// Makes one write of what waits for the origin's link: nothing, where there is no origin.
pub(crate) fn push_origin<L: Link>(origin: &mut Option<Peer<L>>) -> Pushed
    ensures moved { SideWrites L.tells (side_if L.look origin.old) (side_if L.look origin.new) result }
    ensures goes { GoesIf L.goes origin.old origin.new }
{
    match origin {
        Some(peer) => peer.push(),
        None => Pushed::Nothing,
    }
}

/// Moves some of the upload of a request; where there is no origin, it is as if memory lacked.
#[tactic(auto, using(crate::proofs::LoweringUpload::none_stays))]
pub(crate) fn move_upload<C: Link, O: Upstream<C>>(
    client: &mut C,
    origin: &mut Option<Peer<O>>,
) -> Uploaded
    requires { PairIf O.paired client.old origin.old }
    ensures paired { PairIf O.paired client.new origin.new }
    ensures still { StaysLink C.still client.old client.new × StaysLinkIf O.still origin.old origin.new }
    ensures once { UploadIf O.one_upload client.old origin.old client.new origin.new result }
    ensures moved { MovesBoth C.tells O.tells (refuses_if O.refuses origin.old) result
        (C.look client.old) (C.look client.new) (side_if O.look origin.old) (side_if O.look origin.new) }
    ensures falls { UploadFalls result
        (upload_told O.upload_left client.old origin.old) (upload_told O.upload_left client.new origin.new)
        (both (C.look client.old).agains (side_if O.look origin.old).look.agains)
        (both (C.look client.new).agains (side_if O.look origin.new).look.agains) }
    ensures dialed { is_dialed origin.new ≡ is_dialed origin.old }
    ensures refuses { SameRefusal (refuses_if O.refuses origin.old) (refuses_if O.refuses origin.new) }
{
    match origin {
        Some(peer) => peer.link.upload(client),
        None => Uploaded::NoMemory,
    }
}

/// Queues a text for the origin's link; where there is no origin, it is as if memory lacked.
pub(crate) fn queue_if<L: Link>(origin: &mut Option<Peer<L>>, text: &[u8]) -> Result<(), NoMemory>
    ensures ok { OnOk result (QueuesOn L.look text.now origin.old origin.new) }
    ensures err { OnErr result (origin.new ≡ origin.old) }
{
    match origin {
        Some(peer) => peer.outbox.write(text),
        None => Err(NoMemory),
    }
}
