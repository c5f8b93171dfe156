//! Where a step leads a transaction, once its next event is set: a body that is left is closed first.
ghost use Rattle.std.specs.Prelude.{◌≡◌, ◌≤◌, ◌∷◌, [], true};
ghost use Rattle.ts_journal.specs.declared.entry.TheConstants.{GREATEST};
ghost use Rattle.ts_transform.specs.Driving.{ActsWithin, HasLiveIf, IsDueAfter, SetsOnly};
ghost use Rattle.ts_transform.specs.Seats.{KeepsSeated};
ghost use Rattle.ts_txn.specs.Course.{course_after, course_led, finish_after};
ghost use Rattle.ts_phases.specs.Cover.{Proceeds, StepLeads, set_after};
ghost use Rattle.ts_txn.specs.CourseCover.{CoversAlone, CoversLed, HasRousedNext, LedAfter, LedBehind};
ghost use Rattle.ts_txn.specs.CourseCover.{PassesBody, SetsOneOrNone, StaysOnOrLacks, StaysWhereNamed};
ghost use Rattle.ts_txn.specs.CourseCover.{StaysWhereSpent, pause_after};
ghost use Rattle.ts_relay.specs.Duties.{set_leaving};
ghost use Rattle.ts_txn.specs.Driven.{LeadsRelay, delay_of, is_passed_on};

use crate::continuation::is_spent;
use crate::course::Course;
use std::mem::{forget, replace};
use ts_group::Cx;
use ts_hooks::TxnEnd;
use ts_link::RETRY_AFTER;
use ts_phases::{Next, Phase, Step};
use ts_relay::{BodyStep, Relay, close_relay, destroy_end};
use ts_transform::{StageContinuation, Transform, rouse_end};

/// How long it is until a step that is made at once, in milliseconds.
pub const AT_ONCE: u64 = 0;

// Sees that the next step has an event, and answers whether it may be made: where there is no memory for an
// event, the continuation is destroyed.
#[tactic(auto, using(crate::proofs::CourseSeats::spent_next, ts_transform::proofs::Kept::acts_adds))]
fn rouse_next(after: u64, main: &mut Option<StageContinuation>, cx: &mut Cx) -> bool
    requires turn { cx.old.log.state.held ≡ true }
    ensures within { SetsOneOrNone cx.old cx.new }
    ensures seated { KeepsSeated (main.old ∷ []) (main.new ∷ []) cx.old cx.new }
    ensures due { SetsOnly (IsDueAfter after cx.old.moment) cx.old cx.new }
    ensures rouses { HasRousedNext result main.old main.new cx.old cx.new }
    ensures spent { GREATEST ≤ cx.old.log.state.next → HasLiveIf cx.old.log.state.live main.old
        → result ≡ true }
{
    cx.known();
    let Err(fault) = rouse_end(main, true, after, cx) else {
        return true;
    };
    if is_spent(&fault) {
        return true;
    }
    destroy_end(main, cx);
    false
}

/// Where a transaction is led that keeps neither a head nor a body.
#[derive(Clone, Copy)]
pub enum Lead {
    TxnStart,
    /// All that the client gets was queued.
    Finishing(TxnEnd),
    TxnClose(TxnEnd),
}

// How far a transaction is that was led so.
fn course_led<P>(lead: Lead) -> Course<P>
    ensures { result ≡ course_led lead }
{
    match lead {
        Lead::TxnStart => Course::Phased(Phase::TxnStart),
        Lead::Finishing(end) => Course::Finishing { end },
        Lead::TxnClose(end) => Course::Phased(Phase::TxnClose { end }),
    }
}

/// Leads a transaction on, and sets the event of its next step; where there is no memory for one, it
/// ends.
pub fn lead_to<P>(
    lead: Lead,
    after: u64,
    main: &mut Option<StageContinuation>,
    cx: &mut Cx,
) -> Course<P>
    requires turn { cx.old.log.state.held ≡ true }
    ensures course { StaysOnOrLacks (course_led lead) result }
    ensures within { SetsOneOrNone cx.old cx.new }
    ensures due { SetsOnly (IsDueAfter after cx.old.moment) cx.old cx.new }
    ensures spent { StaysWhereSpent (course_led lead) result main.old cx.old }
    ensures covered { CoversAlone main.old main.new result cx.old cx.new }
{
    if rouse_next(after, main, cx) {
        return course_led(lead);
    }
    Course::Phased(Phase::LACKS)
}

// Leaves a transaction in its phase, and sets the event of its next step; where there is no memory for one,
// it ends.
fn stay_in<P>(
    phase: Phase,
    after: u64,
    main: &mut Option<StageContinuation>,
    cx: &mut Cx,
) -> Course<P>
    requires turn { cx.old.log.state.held ≡ true }
    ensures course { StaysOnOrLacks (Course.Phased phase) result }
    ensures within { SetsOneOrNone cx.old cx.new }
    ensures due { SetsOnly (IsDueAfter after cx.old.moment) cx.old cx.new }
    ensures spent { StaysWhereSpent (Course.Phased phase) result main.old cx.old }
    ensures covered { Proceeds phase → CoversAlone main.old main.new result cx.old cx.new }
{
    if rouse_next(after, main, cx) {
        return Course::Phased(phase);
    }
    Course::Phased(Phase::LACKS)
}

/// Where a transaction is after a step of a body: one that is left is closed.
pub fn leave_body<P: Transform + Drop>(
    relay: Relay<P>,
    step: BodyStep,
    main: &mut Option<StageContinuation>,
    cx: &mut Cx,
) -> Course<P>
    requires turn { cx.old.log.state.held ≡ true }
    ensures course { LedAfter step (course_after relay step) result }
    ensures within { ActsWithin (set_leaving step) cx.old cx.new }
    ensures due { SetsOnly (IsDueAfter AT_ONCE cx.old.moment) cx.old cx.new }
    ensures spent { StaysWhereNamed (course_after relay step) relay result main.old cx.old }
    ensures covered { CoversLed step relay main.old main.new result cx.old cx.new }
{
    match step {
        BodyStep::Goes => Course::Relaying(relay),
        BodyStep::Waits => Course::Relaying(relay),
        BodyStep::Finishes(end) => {
            close_relay(relay, cx);
            lead_to(Lead::Finishing(end), AT_ONCE, main, cx)
        }
        BodyStep::Closes(end) => {
            close_relay(relay, cx);
            lead_to(Lead::TxnClose(end), AT_ONCE, main, cx)
        }
        BodyStep::Lacks => {
            close_relay(relay, cx);
            destroy_end(main, cx);
            Course::Phased(Phase::LACKS)
        }
    }
}

// Whether the body is passed on behind a step of it.
fn is_passed_on(step: BodyStep) -> bool
    ensures { result ≡ is_passed_on step }
{
    match step {
        BodyStep::Goes => true,
        BodyStep::Waits => true,
        BodyStep::Finishes(_) => false,
        BodyStep::Closes(_) => false,
        BodyStep::Lacks => false,
    }
}

// The body that is passed on.
fn relay_of<P>(course: Course<P>) -> Relay<P>
    requires { PassesBody course }
    ensures { course ≡ Course.Relaying result }
{
    let Course::Relaying(relay) = course else {
        unreachable!()
    };
    relay
}

/// Leads a transaction on behind a step of its body, in place: only a body that is left is taken out.
pub fn lead_body<P: Transform + Drop>(
    step: BodyStep,
    course: &mut Course<P>,
    main: &mut Option<StageContinuation>,
    cx: &mut Cx,
)
    requires turn { cx.old.log.state.held ≡ true }
    requires relays { PassesBody course.old }
    ensures { LeadsRelay step course.old course.new main.old main.new cx.old cx.new }
{
    if is_passed_on(step) {
        return;
    }
    let was = replace(course, Course::Phased(Phase::Fresh));
    let relay = relay_of(was);
    let is = leave_body(relay, step, main, cx);
    // What stood there in the meantime owns nothing.
    forget(replace(course, is));
}

/// Where a transaction is after a step of its last writes.
pub fn after_write<P: Drop>(
    end: TxnEnd,
    step: BodyStep,
    main: &mut Option<StageContinuation>,
    cx: &mut Cx,
) -> Course<P>
    requires turn { cx.old.log.state.held ≡ true }
    ensures course { StaysOnOrLacks (finish_after end step) result }
    ensures within { SetsOneOrNone cx.old cx.new }
    ensures due { SetsOnly (IsDueAfter (pause_after step) cx.old.moment) cx.old cx.new }
    ensures spent { StaysWhereSpent (finish_after end step) result main.old cx.old }
    ensures covered { CoversAlone main.old main.new result cx.old cx.new }
{
    match step {
        BodyStep::Goes => lead_to(Lead::Finishing(end), AT_ONCE, main, cx),
        BodyStep::Waits => lead_to(Lead::Finishing(end), RETRY_AFTER, main, cx),
        BodyStep::Finishes(end) => lead_to(Lead::Finishing(end), AT_ONCE, main, cx),
        BodyStep::Closes(end) => lead_to(Lead::TxnClose(end), AT_ONCE, main, cx),
        BodyStep::Lacks => {
            destroy_end(main, cx);
            Course::Phased(Phase::LACKS)
        }
    }
}

/// Where a transaction is after the step of a phase.
pub fn after_step<P: Drop>(
    step: Step,
    main: &mut Option<StageContinuation>,
    cx: &mut Cx,
) -> Course<P>
    requires turn { cx.old.log.state.held ≡ true }
    ensures course { LedBehind step.next (Course.Phased step.phase) result }
    ensures within { ActsWithin (set_after step.next) cx.old cx.new }
    ensures due { SetsOnly (IsDueAfter (delay_of step.next) cx.old.moment) cx.old cx.new }
    ensures spent { StaysWhereSpent (Course.Phased step.phase) result main.old cx.old }
    ensures covered { StepLeads step → CoversAlone main.old main.new result cx.old cx.new }
{
    let Step { phase, next } = step;
    match next {
        Next::Go => stay_in(phase, AT_ONCE, main, cx),
        Next::Wait => stay_in(phase, RETRY_AFTER, main, cx),
        Next::Done => {
            destroy_end(main, cx);
            Course::Phased(phase)
        }
    }
}
