//! How far a transaction is, and where an event leads it from there.
ghost use Rattle.std.specs.Prelude.{◌≡◌, true};
ghost use Rattle.std.specs.Arc.{arc_value};
ghost use Rattle.ts_group.specs.declared.world.Want.TheVariants as Want;
ghost use Rattle.ts_txn.specs.CourseCover.{IsAlone};
ghost use Rattle.ts_txn.specs.EventsOwed.{EventOwes};
ghost use Rattle.ts_phases.specs.Leading.{HeadHolds};
ghost use Rattle.ts_phases.specs.Owed.{MayEnter};
ghost use Rattle.ts_txn.specs.LoweringCourse.{PaysEvents, PaysToEnter};
ghost use Rattle.ts_relay.specs.declared.relay.TheConstants.{MAIN};
ghost use Rattle.ts_txn.specs.World.{HoldsOn};

use crate::course_leads::{after_write, leave_body};
use ts_config::TransformLine;
use ts_group::Cx;
use ts_hooks::TxnEnd;
use ts_link::Link;
use ts_phases::{Core, Phase, Request};
use ts_relay::{Relay, begin_body, destroy_end, queue_relay, send_rest};
use ts_transform::{StageContinuation, Transform};
use ts_upstream::Upstream;
use ts_wire::{Fields, ResponseHead};

/// How far a transaction is.
#[derive(Drop)]
pub enum Course<P> {
    /// In a phase up to the client's head, or at its close.
    Phased(Phase),
    /// A body is passed on.
    Relaying(Relay<P>),
    /// All that the client gets was queued, and once it is written the transaction ends so.
    Finishing { end: TxnEnd },
}

/// Writes once of what was queued last, and answers where the transaction is then.
pub fn write_rest<C: Link, O: Upstream<C>, P: Transform<Line = TransformLine> + Drop>(
    core: &mut Core<C, O>,
    main: &mut Option<StageContinuation>,
    end: TxnEnd,
    cx: &mut Cx,
) -> Course<P>
    requires turn { cx.old.log.state.held ≡ true }
    requires stands { HoldsOn C.Link O.Link O.Upstream.own P.Transform
        core.old (Course.Finishing end) }
    requires alone { IsAlone main.old cx.old }
    ensures owes { EventOwes C.Link O.Link O.Upstream.own P.Transform core.old core.new cx.old cx.new
        MAIN main.old main.new (Course.Finishing end) result Want.Nothing }
    ensures pays { PaysEvents C.Link O.Link O.Upstream.own P.Transform
        core.old core.new (Course.Finishing end) result cx.old cx.new }
{
    let step = send_rest(core, end);
    after_write(end, step, main, cx)
}

/// Queues the client's head of a response that is passed on, with the fields after its plugins, and begins
/// its body; it answers where the transaction is then. The event was one of a phase behind which that body
/// begins.
pub fn enter_relay<C: Link, O: Upstream<C>, P: Transform<Line = TransformLine> + Drop>(
    core: &mut Core<C, O>,
    main: &mut Option<StageContinuation>,
    request: Request,
    head: ResponseHead,
    fields: Fields,
    cx: &mut Cx,
) -> Course<P>
    requires turn { cx.old.log.state.held ≡ true }
    requires stands { HoldsOn C.Link O.Link O.Upstream.own P.Transform
        core.old (Course.Phased (Phase.ResponseTransform request head)) }
    requires head { HeadHolds C.Link O.Link O.Upstream.own core.old request head fields }
    requires alone { IsAlone main.old cx.old }
    ensures owes { (phase : Phase) → MayEnter (arc_value core.old.setup).plugins.items phase request head
        → EventOwes C.Link O.Link O.Upstream.own P.Transform core.old core.new cx.old cx.new
        MAIN main.old main.new (Course.Phased phase) result Want.Nothing }
    ensures pays { (phase : Phase) → PaysToEnter C.Link O.Link O.Upstream.own core.old phase
        → PaysEvents C.Link O.Link O.Upstream.own P.Transform
        core.old core.new (Course.Phased phase) result cx.old cx.new }
{
    let Ok(made) = queue_relay(core, &request, &head, &fields) else {
        destroy_end(main, cx);
        return Course::Phased(Phase::LACKS);
    };
    let mut relay = made;
    cx.known();
    let step = begin_body(core, main, &mut relay, cx);
    leave_body(relay, step, main, cx)
}
