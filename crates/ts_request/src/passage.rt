//! The way of a request's body to its origin: read by its framing, passed through the chain of the request
//! lines and framed again, whatever links it comes from and goes to.
ghost use Rattle.std.specs.Prelude.{◌≡◌, ◌≢◌, ◌<◌, ◌++◌, [], false, true, length, take};
ghost use Rattle.std.specs.Prelude.{OnOk, OnErr, MatchOption};
ghost use Rattle.ts_passing.specs.Feeding.{GetsPart};
ghost use Rattle.ts_transform.specs.Flow.{MustWork, MustWrite};
ghost use Rattle.ts_wire.specs.Frames.{IsPiece, end_of, frame_of};
ghost use Rattle.ts_request.specs.PassageSteps.{FeedsPassage, FramesPiece, HasNoWork, IsNext};
ghost use Rattle.ts_request.specs.PassageSteps.{LosesPart, Works};

use ts_iobuf::Waiting;
use ts_link::NoMemory;
use ts_transform::{Chain, Transform};
use ts_wire::{BodyReader, BodyState, MAX_PIECE, Mode, frame_end, frame_piece};

/// A request's body on its way.
#[derive(Drop)]
pub struct Passage<P> {
    /// The chain of the request lines.
    pub chain: Chain<P>,
    /// Where the reader of the client's framing stands.
    pub body: BodyReader,
    /// Whether memory lacked for a part of the body that its reader has passed over: no more of it can come.
    pub lost: bool,
    /// How it goes to the origin.
    pub mode: Mode,
    /// Whether its end was framed.
    pub ended: bool,
}

// Gives the part of a body in this state to the chain, and its end where the body has ended.
fn give_part<P: Transform + Drop>(
    chain: &mut Chain<P>,
    part: &[u8],
    state: BodyState,
) -> Result<(), NoMemory>
    requires { chain.old.given ≡ false }
    ensures ok { OnOk result (GetsPart state part.now chain.old chain.new) }
    ensures err { OnErr result (chain.new ≡ chain.old) }
{
    chain.give(part)?;
    match state {
        BodyState::Unfinished => Ok(()),
        BodyState::Ended => {
            chain.give_end();
            Ok(())
        }
        BodyState::Bad => Ok(()),
    }
}

// The front of some bytes that is framed as one piece.
fn piece_of(bytes: &[u8]) -> &[u8]
    requires { 0 < length bytes.now }
    ensures piece { IsPiece result.now }
    ensures front { result.now ≡ take (length result.now) bytes.now }
{
    let (piece, _) = bytes.split_at(bytes.len().min(MAX_PIECE));
    piece
}

// Writes a piece of a body behind what waits: all of it with its frame, or nothing for want of memory.
fn frame_on(mode: Mode, piece: &[u8], out: &mut Waiting) -> Result<(), NoMemory>
    requires { IsPiece piece.now }
    ensures ok { OnOk result (out.new ≡ out.old ++ frame_of mode piece.now) }
    ensures err { OnErr result (out.new ≡ out.old) }
{
    frame_piece(mode, piece, &mut out.buffer)
}

// Writes the end of a body behind what waits: all of it, or nothing for want of memory.
fn end_on(mode: Mode, out: &mut Waiting) -> Result<(), NoMemory>
    ensures ok { OnOk result (out.new ≡ out.old ++ end_of mode) }
    ensures err { OnErr result (out.new ≡ out.old) }
{
    frame_end(mode, &mut out.buffer)
}

// The last stage of a chain that must work.
fn last_work<P: Transform + Drop>(chain: &Chain<P>) -> Option<usize>
    ensures { MatchOption result (HasNoWork chain.now)
        (λ at. (at < length chain.now.stages) × MustWork chain.now at) }
{
    let mut above = chain.stages();
    'stages: while above > 0 {
        let at = above - 1;
        if chain.must_pump(at) {
            return Some(at);
        }
        above = at;
    }
    None
}

/// What comes next on the way of a body.
#[derive(Clone, Copy)]
pub(crate) enum Next {
    /// Nothing: there is no body, or its end was framed.
    Finish,
    /// A piece of what the chain gave is framed.
    Frame,
    /// A stage of the chain works.
    Work(usize),
    /// The chain has given all, and the end is framed.
    End,
    /// Memory lacked for a part of the body.
    Lacks,
    /// The body is bad, and no line finished early on it.
    Refuse,
    /// What waits of the body is fed.
    Feed,
    /// More of the body is read.
    Read,
}

impl<P: Transform + Drop> Passage<P> {
    /// What comes next, where these bytes of the body wait to be fed.
    pub(crate) fn next(&self, inbox: &Waiting) -> Next
        ensures { IsNext self.now inbox.now result }
    {
        if self.ended {
            return Next::Finish;
        }
        if self.chain.has_output() {
            return Next::Frame;
        }
        if let Some(at) = last_work(&self.chain) {
            return Next::Work(at);
        }
        if self.chain.is_finished() {
            return Next::End;
        }
        if self.lost {
            return Next::Lacks;
        }
        if let BodyState::Bad = self.body.state() {
            return Next::Refuse;
        }
        if inbox.is_empty() {
            Next::Read
        } else {
            Next::Feed
        }
    }

    /// Feeds the first block of what waits to the reader of bodies, and gives the chain the part of it that
    /// is body. Where memory lacks for that part the reader has passed over it, and what waits stays.
    pub(crate) fn feed(&mut self, inbox: &mut Waiting) -> Result<(), NoMemory>
        requires some { inbox.old ≢ [] }
        requires goes_on { self.old.chain.given ≡ false }
        ensures ok { OnOk result (FeedsPassage self.old self.new inbox.old inbox.new) }
        ensures err { OnErr result (LosesPart self.old self.new × (inbox.new ≡ inbox.old)) }
    {
        let Some(block) = inbox.block() else {
            unreachable!()
        };
        let fed = self.body.feed(block);
        let part = &block[fed.from..fed.to];
        match give_part(&mut self.chain, part, fed.state) {
            Ok(()) => {
                inbox.take(fed.taken);
                Ok(())
            }
            Err(lack) => {
                self.lost = true;
                Err(lack)
            }
        }
    }

    /// Lets a stage work that must.
    pub(crate) fn work(&mut self, at: usize) -> Result<(), NoMemory>
        requires place { at < length self.old.chain.stages }
        requires must { MustWork self.old.chain at }
        ensures ok { OnOk result (Works P.rest P.soon self.old self.new) }
        ensures err { OnErr result (self.new ≡ self.old) }
    {
        let _pumped = self.chain.pump(at)?;
        Ok(())
    }

    /// Frames a piece of what the chain gave, behind what waits for the origin.
    pub(crate) fn frame(&mut self, out: &mut Waiting) -> Result<(), NoMemory>
        requires { MustWrite self.old.chain }
        ensures ok { OnOk result (FramesPiece P.rest self.old self.new out.old out.new) }
        ensures err { OnErr result ((self.new ≡ self.old) × (out.new ≡ out.old)) }
    {
        let Some(block) = self.chain.out_block() else {
            unreachable!()
        };
        let piece = piece_of(block);
        let count = piece.len();
        frame_on(self.mode, piece, out)?;
        self.chain.take(count);
        Ok(())
    }

    /// Frames the body's end behind what waits for the origin.
    pub(crate) fn end(&mut self, out: &mut Waiting) -> Result<(), NoMemory>
        ensures ok { OnOk result (out.new ≡ out.old ++ end_of self.old.mode) }
        ensures ended { OnOk result (self.new ≡ record self.old { ended = true }) }
        ensures err { OnErr result ((self.new ≡ self.old) × (out.new ≡ out.old)) }
    {
        end_on(self.mode, out)?;
        self.ended = true;
        Ok(())
    }
}
