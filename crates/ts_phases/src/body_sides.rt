//! What passing a body on calls on the sides: a read of the origin, and what is queued for the client.
ghost use Rattle.std.specs.Prelude.{◌≡◌, ◌++◌, ◌∷◌, [], length, IfOk, OnOk, OnErr};
ghost use Rattle.ts_wire.specs.Frames.{IsPiece, end_of, frame_of};
ghost use Rattle.ts_vconn.specs.declared.moves.TheConstants.{MOST_PULLED};
ghost use Rattle.ts_phases.specs.View.{GoesIf, is_dialed, side_if, view_of};
ghost use Rattle.ts_phases.specs.Moving.{SideReads};
ghost use Rattle.ts_phases.specs.RelayMoves.{AddsText, FramesEnd, FramesPiece, QueuesHead, QueuesNothing};
ghost use Rattle.ts_phases.specs.RelayMoves.{ReadsOrigin};
ghost use Rattle.ts_phases.specs.Holding.{StepKeeps};

use crate::parts::{Core, Peer, Sent};
use std::alloc::Global;
use ts_iobuf::Waiting;
use ts_link::{Link, NoMemory};
use ts_upstream::Upstream;
use ts_vconn::{MOST_PULLED, Pulled};
use ts_wire::{Mode, frame_end, frame_piece};

// Writes a piece of a body behind what waits: all of it with its frame, or nothing for want of memory.
fn frame_on(mode: Mode, piece: &[u8], out: &mut Waiting) -> Result<(), NoMemory>
    requires { IsPiece piece.now }
    ensures ok { OnOk result (out.new ≡ out.old ++ frame_of mode piece.now) }
    ensures err { OnErr result (out.new ≡ out.old) }
{
    frame_piece(mode, piece, &mut out.buffer)
}

// Writes the end of a body behind what waits: all of it, or nothing for want of memory.
fn end_on(mode: Mode, out: &mut Waiting) -> Result<(), NoMemory>
    ensures ok { OnOk result (out.new ≡ out.old ++ end_of mode) }
    ensures err { OnErr result (out.new ≡ out.old) }
{
    frame_end(mode, &mut out.buffer)
}

// Frames a piece of a body, and keeps its length.
fn frame_sent(sent: &mut Sent, out: &mut Waiting, piece: &[u8]) -> Result<(), NoMemory>
    requires { IsPiece piece.now }
    ensures ok { OnOk result (AddsText (frame_of sent.old.mode piece.now) (length piece.now ∷ [])
        sent.old sent.new out.old out.new) }
    ensures err { OnErr result (AddsText [] [] sent.old sent.new out.old out.new) }
{
    sent.cuts.reserve(1)?;
    frame_on(sent.mode, piece, out)?;
    sent.cuts.push_reserved(piece.len() as u32);
    Ok(())
}

// Makes one read of the origin's link; where there is no origin, it is as if memory lacked.
fn pull_if<L: Link>(origin: &mut Option<Peer<L>>) -> Result<Pulled, NoMemory>
    ensures moved { IfOk result
        (λ p. SideReads L.tells (side_if L.look origin.old) (side_if L.look origin.new) p) }
    ensures goes { GoesIf L.goes origin.old origin.new }
    ensures dialed { is_dialed origin.new ≡ is_dialed origin.old }
    ensures err { OnErr result (origin.new ≡ origin.old) }
{
    match origin {
        Some(peer) => peer.pull(MOST_PULLED),
        None => Err(NoMemory),
    }
}

impl<C: Link, O: Upstream<C>> Core<C, O> {
    /// Makes one read of the origin's link, behind what came before.
    pub fn read_origin(&mut self) -> Result<Pulled, NoMemory>
        ensures reads { IfOk result
            (λ p. ReadsOrigin O.tells (view_of C.Link O.Link self.old) (view_of C.Link O.Link self.new) p) }
        ensures err { OnErr result (view_of C.Link O.Link self.new ≡ view_of C.Link O.Link self.old) }
        ensures keeps { StepKeeps C.Link O.Link O.Upstream.own self.old self.new }
    {
        pull_if(&mut self.origin)
    }

    /// Queues the head of a response for the client, whose body is framed in this way.
    pub fn queue_head(&mut self, head: &[u8], mode: Mode) -> Result<(), NoMemory>
        ensures ok { OnOk result
            (QueuesHead head.now mode (view_of C.Link O.Link self.old) (view_of C.Link O.Link self.new)) }
        ensures err { OnErr result (view_of C.Link O.Link self.new ≡ view_of C.Link O.Link self.old) }
        ensures keeps { StepKeeps C.Link O.Link O.Upstream.own self.old self.new }
    {
        self.client.outbox.write(head)?;
        self.sent = Sent {
            head: head.len() as u64,
            mode,
            cuts: Vec::new(self.alloc),
        };
        Ok(())
    }

    /// Frames a piece of body for the client: all of it, or nothing for want of memory.
    pub fn frame_body(&mut self, piece: &[u8]) -> Result<(), NoMemory>
        requires { IsPiece piece.now }
        ensures ok { OnOk result
            (FramesPiece piece.now (view_of C.Link O.Link self.old) (view_of C.Link O.Link self.new)) }
        ensures err { OnErr result
            (QueuesNothing (view_of C.Link O.Link self.old) (view_of C.Link O.Link self.new)) }
        ensures keeps { StepKeeps C.Link O.Link O.Upstream.own self.old self.new }
    {
        frame_sent(&mut self.sent, &mut self.client.outbox, piece)
    }

    /// Frames the end of the client's body: all of it, or nothing for want of memory.
    pub fn end_body(&mut self) -> Result<(), NoMemory>
        ensures ok { OnOk result
            (FramesEnd (view_of C.Link O.Link self.old) (view_of C.Link O.Link self.new)) }
        ensures err { OnErr result
            (QueuesNothing (view_of C.Link O.Link self.old) (view_of C.Link O.Link self.new)) }
        ensures keeps { StepKeeps C.Link O.Link O.Upstream.own self.old self.new }
    {
        end_on(self.sent.mode, &mut self.client.outbox)
    }
}
