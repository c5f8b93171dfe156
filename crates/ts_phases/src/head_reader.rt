//! Looks for a head at the front of what a link gave, and reads on where none is there yet.
ghost use Rattle.ts_phases.specs.View.{GoesIf, side, side_if};
ghost use Rattle.ts_phases.specs.Moving.{Seeks};

use crate::head::Head;
use crate::parts::Peer;
use std::alloc::Global;
use ts_link::Link;
use ts_vconn::Pulled;
use ts_wire::{MAX_HEAD, Read};

/// What came of looking for a head at the front of what a link gave.
#[derive(Drop)]
pub enum Found<H> {
    /// A head, which was taken away from there.
    Head(H),
    /// None within the limits, whatever follows.
    Never,
    /// None yet: the link was read once.
    Read(Pulled),
    /// Memory was lacking.
    NoMemory,
}

/// Takes a head from the front of what the link gave, or makes one read of the link where none is there yet.
pub(crate) fn seek<H: Head, L: Link>(alloc: Global, peer: &mut Peer<L>) -> Found<H>
    ensures found { Seeks H.has H.lacks L.tells (side L.look peer.old) (side L.look peer.new) result }
    ensures goes { L.goes peer.old.link peer.new.link }
{
    let Ok(front) = peer.inbox.read_head::<H>(alloc) else {
        return Found::NoMemory;
    };
    match front {
        Read::Head { head, used } => {
            peer.inbox.take(used);
            Found::Head(head)
        }
        Read::More => {
            let most = MAX_HEAD - peer.inbox.len();
            match peer.inbox.pull(&mut peer.link, most) {
                Ok(answer) => Found::Read(answer),
                Err(_) => Found::NoMemory,
            }
        }
        Read::Bad => Found::Never,
        Read::TooLong => Found::Never,
    }
}

/// The same at the origin's link; where there is no origin, it is as if memory lacked.
pub(crate) fn seek_if<H: Head, L: Link>(alloc: Global, origin: &mut Option<Peer<L>>) -> Found<H>
    ensures found { Seeks H.has H.lacks L.tells
        (side_if L.look origin.old) (side_if L.look origin.new) result }
    ensures goes { GoesIf L.goes origin.old origin.new }
{
    match origin {
        Some(peer) => seek(alloc, peer),
        None => Found::NoMemory,
    }
}
