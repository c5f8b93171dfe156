//! How a transaction brings forward the steps of it that wait for a link.
ghost use Rattle.std.specs.Prelude.{◌≡◌, true};
ghost use Rattle.ts_group.specs.Answers.{Falls, KeepsPromises, SetsAtMost};
ghost use Rattle.ts_group.specs.Entries.{Grows};
ghost use Rattle.ts_txn.specs.Asking.{IsRightFor, MayAskGroup};
ghost use Rattle.ts_txn.specs.LoweringCourse.{transaction_left};
ghost use Rattle.ts_txn.specs.Rousing.{HasRoused, HastensEnd, KeepsWork, RousesOn, is_at_link, is_link_next};
ghost use Rattle.ts_txn.specs.Rousing.{reader_of, set_by_both, set_by_end};
ghost use Rattle.ts_txn.specs.World.{IsSoundTxn, IsTxnOf};

use crate::course::Course;
use crate::txn::Txn;
use ts_config::TransformLine;
use ts_group::{Cx, MOST_SET, Rouse};
use ts_link::Link;
use ts_phases::Phase;
use ts_transform::{StageContinuation, Transform};
use ts_upstream::Upstream;

// Whether the step of a phase calls a link.
fn is_at_link(phase: &Phase) -> bool
    ensures { result ≡ is_at_link phase.now }
{
    match phase {
        Phase::ReadRequest => true,
        Phase::SendRequest { .. } => true,
        Phase::Upload { .. } => true,
        Phase::ReadResponse { .. } => true,
        Phase::Sending { .. } => true,
        _ => false,
    }
}

// Whether the next step calls a link.
fn is_link_next<P>(course: &Course<P>) -> bool
    ensures { result ≡ is_link_next course.now }
{
    match course {
        Course::Phased(phase) => is_at_link(phase),
        Course::Relaying(_) => true,
        Course::Finishing { .. } => true,
    }
}

// The reader of the body that is passed on, if one is.
fn reader_of<P>(course: &Course<P>) -> Option<StageContinuation>
    ensures { result ≡ reader_of course.now }
{
    match course {
        Course::Phased(_) => None,
        Course::Relaying(relay) => relay.reader,
        Course::Finishing { .. } => None,
    }
}

// Brings the first late event of a continuation forward, if it has one. Where none can be set, it stays.
fn hasten_end(end: Option<StageContinuation>, cx: &mut Cx)
    requires turn { cx.old.log.state.held ≡ true }
    ensures hastens { HastensEnd end cx.old cx.new }
    ensures keeps { KeepsWork set_by_end cx.old cx.new }
    ensures turn { cx.new.log.state.held ≡ true }
    ensures grows { Grows cx.old cx.new }
{
    let Some(continuation) = end else {
        return;
    };
    cx.known();
    let _ = cx.hasten(continuation.key);
}

// Brings forward the events that wait for a link, wherever a transaction is on its course.
fn rouse_on<P>(main: Option<StageContinuation>, course: &Course<P>, cx: &mut Cx)
    requires turn { cx.old.log.state.held ≡ true }
    ensures rouses { RousesOn main course.now cx.old cx.new }
    ensures keeps { KeepsWork set_by_both cx.old cx.new }
    ensures grows { Grows cx.old cx.new }
{
    if !is_link_next(course) {
        return;
    }
    hasten_end(main, cx);
    hasten_end(reader_of(course), cx);
}

/// The events of its steps that call a link are brought forward. The stages of a body keep their pauses, and
/// a plugin that was missed is asked when it was to be.
impl<C: Link + Drop, O: Upstream<C> + Drop, P: Transform<Line = TransformLine> + Drop> Rouse
    for Txn<C, O, P> {
    fn rouse(&mut self, cx: &mut Cx)
        requires turn { cx.old.log.state.held ≡ true }
        requires sound { IsSoundTxn C.Link O.Link O.Upstream.own P.Transform
            self.old cx.old.log.state.pending cx.old.log.state.next cx.old.roles }
        ensures sound { IsSoundTxn C.Link O.Link O.Upstream.own P.Transform
            self.new cx.new.log.state.pending cx.new.log.state.next cx.new.roles }
        ensures falls { Falls
            (transaction_left C.Link O.Link O.Upstream.own P.Transform
            self.old.core self.old.course cx.old.log.state.pending) 0
            (transaction_left C.Link O.Link O.Upstream.own P.Transform
            self.new.core self.new.course cx.new.log.state.pending) }
        ensures promises { KeepsPromises (IsTxnOf C.Link O.Link) IsRightFor MayAskGroup self.old self.new }
        ensures few { SetsAtMost (IsTxnOf C.Link O.Link) self.old MOST_SET cx.old cx.new }
        ensures grows { Grows cx.old cx.new }
        ensures roused { HasRoused self.old self.new cx.old cx.new }
    {
        rouse_on(self.main, &self.course, cx);
    }
}
