//! The steps of an upload: each reads, moves or writes at least a byte, or ends a stage of it.
ghost use Rattle.std.specs.Prelude.{◌≡◌, ◌≢◌, [], false, true, IfOk, OnOk, OnErr};
ghost use Rattle.ts_link.specs.LinkAnswers.{count_got};
ghost use Rattle.ts_passing.specs.Lines.{ActsAsLines};
ghost use Rattle.ts_request.specs.Begun.{Begins, BeginsWith, IsBegun, IsNextOf, ReadsOn, StepsWith};
ghost use Rattle.ts_request.specs.Carried.{UploadsStep, answer_asked, answer_pushed, answer_read};
ghost use Rattle.ts_request.specs.Carried.{answer_work, is_done};
ghost use Rattle.ts_request.specs.Pairing.{CarrierPair};
ghost use Rattle.ts_request.specs.declared.passage.Next.TheVariants as next;
ghost use Rattle.ts_wire.specs.declared.framing.Framing.{Framing};

use crate::carrier::{Carrier, HeadState};
use crate::front::Front;
use crate::making::{framed_head, make_passage, mode_said, sent_framing};
use crate::passage::Next;
use crate::stage::Stage;
use ts_config::TransformLine;
use ts_iobuf::Waiting;
use ts_link::{Got, Link, NoMemory, Sourced};
use ts_transform::Transform;
use ts_upstream::{Uploaded, Upstream};
use ts_vconn::{Pushed, push_waiting};
use ts_wire::Framing;

// The answer of a step that writes to the origin.
fn answer_pushed(pushed: Pushed) -> Uploaded
    ensures { result ≡ answer_pushed pushed }
{
    match pushed {
        Pushed::Some(_) => Uploaded::More,
        Pushed::Nothing => Uploaded::NoMemory,
        Pushed::Again => Uploaded::Again,
        Pushed::Failed => Uploaded::OriginFailed,
        Pushed::NoMemory => Uploaded::NoMemory,
    }
}

// The answer of a step that the origin's own upload makes, whose end is a stage of this one.
fn answer_asked(answer: Uploaded) -> Uploaded
    ensures { result ≡ answer_asked answer }
{
    match answer {
        Uploaded::Done => Uploaded::More,
        other => other,
    }
}

fn is_done(answer: Uploaded) -> bool
    ensures { result ≡ is_done answer }
{
    matches!(answer, Uploaded::Done)
}

// The answer of a step that reads the body.
fn answer_read(got: Got) -> Uploaded
    ensures { result ≡ answer_read got }
{
    match got {
        Got::Bytes(_) => Uploaded::More,
        Got::End => Uploaded::Refused,
        Got::Again => Uploaded::Again,
        Got::Failed => Uploaded::ClientFailed,
    }
}

// The answer of a step that moves something here.
fn answer_work(moved: Result<(), NoMemory>) -> Uploaded
    ensures { result ≡ answer_work moved }
{
    match moved {
        Ok(()) => Uploaded::More,
        Err(_) => Uploaded::NoMemory,
    }
}

// Writes once of what waits for the origin.
fn write_on<C: Link + Drop, O: Upstream<C>, P: Transform<Line = TransformLine> + Drop>(
    carrier: &mut Carrier<O, P>,
) -> Uploaded
    requires begun { IsBegun carrier.old.head }
    requires some { carrier.old.out ≢ [] }
    ensures { StepsWith C.Link O.Link O.Upstream.own P.Transform result carrier.old carrier.new }
{
    let pushed = push_waiting(&mut carrier.out, &mut carrier.origin);
    answer_pushed(pushed)
}

// Lets the origin inside move some of an upload of its own.
fn ask_inside<C: Link + Drop, O: Upstream<C>, P: Transform<Line = TransformLine> + Drop>(
    carrier: &mut Carrier<O, P>,
    front: &mut Front<C>,
) -> Uploaded
    requires pair { CarrierPair C.Link O.Link O.Upstream.own P.Transform front.old carrier.old }
    requires begun { IsBegun carrier.old.head }
    requires none { carrier.old.out ≡ [] }
    requires waits { carrier.old.asked ≡ false }
    ensures { UploadsStep C.Link O.Link O.Upstream.own P.Transform result
        front.old front.new carrier.old carrier.new }
{
    let answer = front.upload_inside(&mut carrier.origin);
    carrier.asked = is_done(answer);
    answer_asked(answer)
}

// Frames a piece of what the chain gave.
fn frame_step<C: Link + Drop, O: Upstream<C>, P: Transform<Line = TransformLine> + Drop>(
    carrier: &mut Carrier<O, P>,
) -> Uploaded
    requires asked { carrier.old.asked ≡ true }
    requires next { IsNextOf carrier.old next.Frame }
    ensures { StepsWith C.Link O.Link O.Upstream.own P.Transform result carrier.old carrier.new }
{
    let Some(passage) = &mut carrier.passage else {
        unreachable!()
    };
    answer_work(passage.frame(&mut carrier.out))
}

// Lets a stage of the chain work.
fn work_step<C: Link + Drop, O: Upstream<C>, P: Transform<Line = TransformLine> + Drop>(
    carrier: &mut Carrier<O, P>,
    at: usize,
) -> Uploaded
    requires asked { carrier.old.asked ≡ true }
    requires next { IsNextOf carrier.old (next.Work at) }
    ensures { StepsWith C.Link O.Link O.Upstream.own P.Transform result carrier.old carrier.new }
{
    let Some(passage) = &mut carrier.passage else {
        unreachable!()
    };
    answer_work(passage.work(at))
}

// Frames the end of the body.
fn end_step<C: Link + Drop, O: Upstream<C>, P: Transform<Line = TransformLine> + Drop>(
    carrier: &mut Carrier<O, P>,
) -> Uploaded
    requires asked { carrier.old.asked ≡ true }
    requires next { IsNextOf carrier.old next.End }
    ensures { StepsWith C.Link O.Link O.Upstream.own P.Transform result carrier.old carrier.new }
{
    let Some(passage) = &mut carrier.passage else {
        unreachable!()
    };
    answer_work(passage.end(&mut carrier.out))
}

// Feeds what came of the body.
fn feed_step<C: Link + Drop, O: Upstream<C>, P: Transform<Line = TransformLine> + Drop>(
    carrier: &mut Carrier<O, P>,
) -> Uploaded
    requires asked { carrier.old.asked ≡ true }
    requires next { IsNextOf carrier.old next.Feed }
    ensures { StepsWith C.Link O.Link O.Upstream.own P.Transform result carrier.old carrier.new }
{
    let Some(passage) = &mut carrier.passage else {
        unreachable!()
    };
    answer_work(passage.feed(&mut carrier.inbox))
}

// Reads the body once, behind what waits of it.
fn read_on<C: Link + Drop>(front: &mut Front<C>, inbox: &mut Waiting) -> Result<Got, NoMemory>
    requires { (framing : Framing) × (front.old.text.stage ≡ Stage.Uploading framing) }
    ensures read { IfOk result (ReadsOn C.Link front.old front.new inbox.old inbox.new) }
    ensures err { OnErr result ((front.new ≡ front.old) × (inbox.new ≡ inbox.old)) }
{
    let room = inbox.buffer.space();
    if room.is_empty() {
        return Err(NoMemory);
    }
    let got = front.read_body(room);
    inbox.buffer.produce(count_of(got));
    Ok(got)
}

// How many bytes a read put in place.
fn count_of(got: Got) -> usize
    ensures { result ≡ count_got got }
{
    match got {
        Got::Bytes(count) => count,
        Got::End | Got::Again | Got::Failed => 0,
    }
}

// Reads more of the body. Where it ends before it is whole, and no line finished early, it is refused.
fn read_step<C: Sourced + Drop, O: Upstream<C>, P: Transform<Line = TransformLine> + Drop>(
    carrier: &mut Carrier<O, P>,
    front: &mut Front<C>,
) -> Uploaded
    requires pair { CarrierPair C.Link O.Link O.Upstream.own P.Transform front.old carrier.old }
    requires asked { carrier.old.asked ≡ true }
    requires next { IsNextOf carrier.old next.Read }
    ensures { UploadsStep C.Link O.Link O.Upstream.own P.Transform result
        front.old front.new carrier.old carrier.new }
{
    match read_on(front, &mut carrier.inbox) {
        Ok(got) => {
            front.known();
            front.client().known();
            answer_read(got)
        }
        Err(_) => Uploaded::NoMemory,
    }
}

// Refuses the upload: its body is bad, and no line finished early on it.
fn refuse_step<C: Sourced + Drop, O: Upstream<C>, P: Transform<Line = TransformLine> + Drop>(
    carrier: &Carrier<O, P>,
    front: &Front<C>,
) -> Uploaded
    requires pair { CarrierPair C.Link O.Link O.Upstream.own P.Transform front.now carrier.now }
    requires next { IsNextOf carrier.now next.Refuse }
    ensures { UploadsStep C.Link O.Link O.Upstream.own P.Transform result
        front.now front.now carrier.now carrier.now }
{
    front.known();
    front.client().known();
    Uploaded::Refused
}

// Ends the upload: all of it was sent.
fn finish_step<C: Sourced + Drop, O: Upstream<C>, P: Transform<Line = TransformLine> + Drop>(
    carrier: &mut Carrier<O, P>,
    front: &Front<C>,
) -> Uploaded
    requires pair { CarrierPair C.Link O.Link O.Upstream.own P.Transform front.now carrier.old }
    requires begun { IsBegun carrier.old.head }
    requires none { carrier.old.out ≡ [] }
    requires asked { carrier.old.asked ≡ true }
    requires ended { IsNextOf carrier.old next.Finish }
    ensures { UploadsStep C.Link O.Link O.Upstream.own P.Transform result
        front.now front.now carrier.old carrier.new }
{
    front.known();
    front.client().known();
    carrier.over = true;
    Uploaded::Done
}

// What comes next of the body.
fn next_of<O, P: Transform<Line = TransformLine> + Drop>(carrier: &Carrier<O, P>) -> Next
    ensures { IsNextOf carrier.now result }
{
    match &carrier.passage {
        Some(passage) => passage.next(&carrier.inbox),
        None => Next::Finish,
    }
}

// Carries the body on, once the head and what the origin inside had to move are sent.
fn carry<C: Sourced + Drop, O: Upstream<C>, P: Transform<Line = TransformLine> + Drop>(
    carrier: &mut Carrier<O, P>,
    front: &mut Front<C>,
) -> Uploaded
    requires pair { CarrierPair C.Link O.Link O.Upstream.own P.Transform front.old carrier.old }
    requires begun { IsBegun carrier.old.head }
    requires none { carrier.old.out ≡ [] }
    requires asked { carrier.old.asked ≡ true }
    ensures { UploadsStep C.Link O.Link O.Upstream.own P.Transform result
        front.old front.new carrier.old carrier.new }
{
    match next_of(carrier) {
        Next::Finish => finish_step(carrier, front),
        Next::Frame => frame_step::<C, O, P>(carrier),
        Next::Work(at) => work_step::<C, O, P>(carrier, at),
        Next::End => end_step::<C, O, P>(carrier),
        Next::Lacks => Uploaded::NoMemory,
        Next::Refuse => refuse_step(carrier, front),
        Next::Feed => feed_step::<C, O, P>(carrier),
        Next::Read => read_step(carrier, front),
    }
}

// Goes on where some of the body waits for the origin: a stage works, or the end is framed behind it, so that
// both go in one write; else what waits is written.
fn carry_behind<C: Link + Drop, O: Upstream<C>, P: Transform<Line = TransformLine> + Drop>(
    carrier: &mut Carrier<O, P>,
) -> Uploaded
    requires begun { IsBegun carrier.old.head }
    requires some { carrier.old.out ≢ [] }
    requires asked { carrier.old.asked ≡ true }
    ensures { StepsWith C.Link O.Link O.Upstream.own P.Transform result carrier.old carrier.new }
{
    match next_of(carrier) {
        Next::Work(at) => work_step::<C, O, P>(carrier, at),
        Next::End => end_step::<C, O, P>(carrier),
        Next::Finish | Next::Frame | Next::Lacks | Next::Refuse | Next::Feed | Next::Read => {
            write_on::<C, O, P>(carrier)
        }
    }
}

// Goes on with an upload that has begun: its head is written, then the origin inside moves what it has to,
// and then the body is carried.
fn go_on<C: Sourced + Drop, O: Upstream<C>, P: Transform<Line = TransformLine> + Drop>(
    carrier: &mut Carrier<O, P>,
    front: &mut Front<C>,
) -> Uploaded
    requires pair { CarrierPair C.Link O.Link O.Upstream.own P.Transform front.old carrier.old }
    requires begun { IsBegun carrier.old.head }
    ensures { UploadsStep C.Link O.Link O.Upstream.own P.Transform result
        front.old front.new carrier.old carrier.new }
{
    if carrier.over {
        return Uploaded::Done;
    }
    if !carrier.out.is_empty() {
        if carrier.asked {
            return carry_behind::<C, O, P>(carrier);
        }
        return write_on::<C, O, P>(carrier);
    }
    if !carrier.asked {
        return ask_inside(carrier, front);
    }
    carry(carrier, front)
}

// Begins the upload of a request that has none: its head goes on as it was written.
fn begin_plain<C: Sourced + Drop, O: Upstream<C>, P: Transform<Line = TransformLine> + Drop>(
    carrier: &mut Carrier<O, P>,
    front: &Front<C>,
)
    requires pair { CarrierPair C.Link O.Link O.Upstream.own P.Transform front.now carrier.old }
    requires held { carrier.old.head ≡ HeadState.Held }
    requires passing { front.now.text.stage ≡ Stage.Passing }
    ensures { Begins C.Link O.Link O.Upstream.own P.Transform front.now carrier.old carrier.new }
{
    front.known();
    front.client().known();
    let len = carrier.out.len();
    carrier.head = HeadState::Sent { len, line: 0 };
}

// Begins a block behind what waits, with room for a piece of the body and its end, so that one write takes
// them. Where memory lacks, each gets a block of its own.
fn begin_block(out: &mut Waiting)
    ensures { out.new ≡ out.old }
{
    let _ = out.buffer.space();
}

// Begins an upload: its head goes on with the line that says how the body is framed.
fn begin_body<C: Sourced + Drop, O: Upstream<C>, P: Transform<Line = TransformLine> + Drop>(
    carrier: &mut Carrier<O, P>,
    framing: Framing,
) -> Result<(), NoMemory>
    requires acts { ActsAsLines P.Transform }
    requires held { carrier.old.head ≡ HeadState.Held }
    ensures ok { OnOk result
        (BeginsWith C.Link O.Link O.Upstream.own P.Transform framing carrier.old carrier.new) }
    ensures err { OnErr result (carrier.new ≡ carrier.old) }
{
    let lines = carrier.setup.requests.as_slice();
    let said = sent_framing(framing, lines);
    let head = framed_head(carrier.alloc, &carrier.out, said)?;
    let passage = make_passage(carrier.alloc, lines, framing, mode_said(said))?;
    let len = carrier.out.len();
    let line = head.bytes().len().saturating_sub(len);
    let mut out = Waiting::of_octets(carrier.alloc, head)?;
    begin_block(&mut out);
    carrier.out = out;
    carrier.head = HeadState::Sent { len, line };
    carrier.passage = Some(passage);
    Ok(())
}

// Begins the upload of a request whose head was held, once its front knows whether there is one.
fn begin<C: Sourced + Drop, O: Upstream<C>, P: Transform<Line = TransformLine> + Drop>(
    carrier: &mut Carrier<O, P>,
    front: &Front<C>,
) -> Result<(), NoMemory>
    requires pair { CarrierPair C.Link O.Link O.Upstream.own P.Transform front.now carrier.old }
    requires held { carrier.old.head ≡ HeadState.Held }
    ensures ok { OnOk result
        (Begins C.Link O.Link O.Upstream.own P.Transform front.now carrier.old carrier.new) }
    ensures err { OnErr result (carrier.new ≡ carrier.old) }
{
    match front.stage() {
        Stage::Heading => Err(NoMemory),
        Stage::Passing => {
            begin_plain(carrier, front);
            Ok(())
        }
        Stage::Uploading(framing) => begin_body::<C, O, P>(carrier, framing),
    }
}

// Moves some of the upload.
pub(crate) fn upload_some<
    C: Sourced + Drop,
    O: Upstream<C>,
    P: Transform<Line = TransformLine> + Drop,
>(carrier: &mut Carrier<O, P>, front: &mut Front<C>) -> Uploaded
    requires { CarrierPair C.Link O.Link O.Upstream.own P.Transform front.old carrier.old }
    ensures { UploadsStep C.Link O.Link O.Upstream.own P.Transform result
        front.old front.new carrier.old carrier.new }
{
    match carrier.head {
        HeadState::Held => match begin(carrier, front) {
            Ok(()) => go_on(carrier, front),
            Err(_) => Uploaded::NoMemory,
        },
        HeadState::Sent { .. } => go_on(carrier, front),
    }
}
