//! Where an event leads a transaction, wherever it is on its course.
ghost use Rattle.std.specs.Prelude.{◌≡◌, true};
ghost use Rattle.ts_group.specs.declared.world.Want.TheVariants as Want;
ghost use Rattle.ts_group.specs.Calls.{IsCalled};
ghost use Rattle.ts_txn.specs.CourseCover.{IsAlone, PassesNoBody};
ghost use Rattle.ts_txn.specs.EventsOwed.{EventOwes};
ghost use Rattle.ts_txn.specs.LoweringCourse.{PaysEvents};
ghost use Rattle.ts_transform.specs.Driving.{unroused};
ghost use Rattle.ts_txn.specs.World.{HoldsOn, IsSoundOn};

use crate::course::{Course, enter_relay, write_rest};
use crate::course_leads::{after_step, lead_body};
use std::mem::{forget, replace};
use ts_config::TransformLine;
use ts_group::{Cx, Want};
use ts_journal::Event;
use ts_link::Link;
use ts_phases::{Core, Led, Phase};
use ts_plugin::HookQuestion;
use ts_relay::{MAIN, handle_body};
use ts_transform::{StageContinuation, Transform, unrouse, works};
use ts_upstream::Upstream;

// Makes the next step of a phase, and answers where the transaction is then, and what it wants: the step was
// made, or a plugin of the phase's hook is asked, or the body of a response begins.
fn advance_phase<C: Link, O: Upstream<C>, P: Transform<Line = TransformLine> + Drop>(
    core: &mut Core<C, O>,
    main: &mut Option<StageContinuation>,
    phase: Phase,
    cx: &mut Cx,
) -> (Course<P>, Want<HookQuestion>)
    requires turn { cx.old.log.state.held ≡ true }
    requires stands { HoldsOn C.Link O.Link O.Upstream.own P.Transform
        core.old (Course.Phased phase) }
    requires alone { IsAlone main.old cx.old }
    requires quiet { unroused main.old ≡ main.old }
    ensures owes { EventOwes C.Link O.Link O.Upstream.own P.Transform core.old core.new cx.old cx.new
        MAIN main.old main.new (Course.Phased phase) result.0 result.1 }
    ensures pays { PaysEvents C.Link O.Link O.Upstream.own P.Transform
        core.old core.new (Course.Phased phase) result.0 cx.old cx.new }
{
    match core.lead(phase) {
        Led::Steps(step) => (after_step(step, main, cx), Want::Nothing),
        Led::Asks {
            phase,
            group,
            question,
        } => (Course::Phased(phase), Want::Ask { group, question }),
        Led::Enters {
            request,
            head,
            fields,
        } => (
            enter_relay(core, main, request, head, fields, cx),
            Want::Nothing,
        ),
    }
}

// Makes the next step of the first continuation where no body is passed on, and answers where the transaction
// is then, and what it wants. What the step needs is taken out, and what is left there owns nothing.
fn make_next<C: Link, O: Upstream<C>, P: Transform<Line = TransformLine> + Drop>(
    core: &mut Core<C, O>,
    main: &mut Option<StageContinuation>,
    course: &mut Course<P>,
    cx: &mut Cx,
) -> (Course<P>, Want<HookQuestion>)
    requires turn { cx.old.log.state.held ≡ true }
    requires none { PassesNoBody course.old }
    requires stands { HoldsOn C.Link O.Link O.Upstream.own P.Transform
        core.old course.old }
    requires alone { IsAlone main.old cx.old }
    requires quiet { unroused main.old ≡ main.old }
    ensures owes { EventOwes C.Link O.Link O.Upstream.own P.Transform core.old core.new cx.old cx.new
        MAIN main.old main.new course.old result.0 result.1 }
    ensures pays { PaysEvents C.Link O.Link O.Upstream.own P.Transform
        core.old core.new course.old result.0 cx.old cx.new }
{
    match course {
        Course::Phased(phase) => {
            let was = replace(phase, Phase::Fresh);
            advance_phase(core, main, was, cx)
        }
        Course::Finishing { end } => (write_rest(core, main, *end, cx), Want::Nothing),
        Course::Relaying(_) => unreachable!(),
    }
}

// Handles an event of a role where no body is passed on, in place, and answers what it wants: at one of its
// own the first continuation makes the next step.
fn advance_alone<C: Link, O: Upstream<C>, P: Transform<Line = TransformLine> + Drop>(
    core: &mut Core<C, O>,
    main: &mut Option<StageContinuation>,
    course: &mut Course<P>,
    role: u32,
    event: Event,
    cx: &mut Cx,
) -> Want<HookQuestion>
    requires turn { cx.old.log.state.held ≡ true }
    requires none { PassesNoBody course.old }
    requires called { IsCalled
        (λ s roles. IsSoundOn C.Link O.Link O.Upstream.own P.Transform
        core.old main.old course.old s.pending s.next roles)
        cx.old role event }
    ensures owes { EventOwes C.Link O.Link O.Upstream.own P.Transform core.old core.new cx.old cx.new
        role main.old main.new course.old course.new result }
    ensures pays { PaysEvents C.Link O.Link O.Upstream.own P.Transform
        core.old core.new course.old course.new cx.old cx.new }
{
    if role != MAIN {
        return Want::Nothing;
    }
    if !works(event) {
        return Want::Nothing;
    }
    unrouse(main);
    let (is, want) = make_next(core, main, course, cx);
    forget(replace(course, is));
    want
}

/// Handles an event of a role, in place, and answers what it wants: while a body is passed on each role does
/// its part, and else the first continuation makes the next step.
pub fn advance<C: Link, O: Upstream<C>, P: Transform<Line = TransformLine> + Drop>(
    core: &mut Core<C, O>,
    main: &mut Option<StageContinuation>,
    course: &mut Course<P>,
    role: u32,
    event: Event,
    cx: &mut Cx,
) -> Want<HookQuestion>
    requires turn { cx.old.log.state.held ≡ true }
    requires called { IsCalled
        (λ s roles. IsSoundOn C.Link O.Link O.Upstream.own P.Transform
        core.old main.old course.old s.pending s.next roles)
        cx.old role event }
    ensures owes { EventOwes C.Link O.Link O.Upstream.own P.Transform core.old core.new cx.old cx.new
        role main.old main.new course.old course.new result }
    ensures pays { PaysEvents C.Link O.Link O.Upstream.own P.Transform
        core.old core.new course.old course.new cx.old cx.new }
{
    let Course::Relaying(relay) = course else {
        return advance_alone(core, main, course, role, event, cx);
    };
    let step = handle_body(core, main, relay, role, event, cx);
    lead_body(step, course, main, cx);
    Want::Nothing
}
