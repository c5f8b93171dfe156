//! The events of the continuations while a body is passed on: a step, and then both ends are roused.
ghost use Rattle.std.specs.Prelude.{◌≡◌, ◌≢◌, length, true, false};
ghost use Rattle.std.specs.Arc.{arc_value};
ghost use Rattle.ts_relay.specs.LoweringBody.{BeginsLower};
ghost use Rattle.ts_phases.specs.View.{view_of};
ghost use Rattle.ts_relay.specs.Relaying.{RelayHolds, RelayLeads};
ghost use Rattle.ts_relay.specs.BodyLinks.{BeginsInTime, OnlyOfEnds, is_late, pause_if};
ghost use Rattle.ts_relay.specs.Entering.{EnterHolds, IsUnbegun};
ghost use Rattle.ts_relay.specs.Duties.{BeginsBody, SettlesAfter, SettlesBody};
ghost use Rattle.ts_relay.specs.StepsOwed.{BodyHandles, EventPays};

use crate::client_end::write_body;
use crate::duties::must_send;
use crate::entry::enter_body;
use crate::last_writes::BodyStep;
use crate::origin_end::read_body;
use crate::relay::{FIRST, MAIN, READER, Relay, step_after};
use crate::wakes::rouse_ends;
use ts_group::Cx;
use ts_journal::Event;
use ts_link::{Link, RETRY_AFTER};
use ts_phases::Core;
use ts_transform::{StageContinuation, Transform, unrouse, works};
use ts_upstream::Upstream;

// Sees that an event of each end of a body is pending that must work: of the first continuation and of
// the reader after these pauses, in milliseconds, where it has none yet.
fn settle_body<C: Link, O: Upstream<C>, P: Transform + Drop>(
    core: &Core<C, O>,
    main: &mut Option<StageContinuation>,
    relay: &mut Relay<P>,
    pauses: (u64, u64),
    cx: &mut Cx,
) -> BodyStep
    requires turn { cx.old.log.state.held ≡ true }
    ensures settles { SettlesBody result (view_of C.Link O.Link core.now) main.old main.new
        relay.old relay.new cx.old cx.new }
    ensures due { OnlyOfEnds pauses.0 pauses.1 main.old relay.old.reader cx.old cx.new }
    ensures relay { relay.new ≡ record relay.old { reader = relay.new.reader } }
{
    cx.known();
    let writes = must_send(core, relay);
    rouse_ends(main, relay, writes, pauses, cx)
}

// Sees to that after a step that goes on: at once, or after these pauses where it found a link not ready.
fn settle_after<C: Link, O: Upstream<C>, P: Transform + Drop>(
    core: &Core<C, O>,
    step: BodyStep,
    main: &mut Option<StageContinuation>,
    relay: &mut Relay<P>,
    pauses: (u64, u64),
    cx: &mut Cx,
) -> BodyStep
    requires turn { cx.old.log.state.held ≡ true }
    ensures settles { SettlesAfter step result (view_of C.Link O.Link core.now) main.old main.new
        relay.old relay.new cx.old cx.new }
    ensures due { OnlyOfEnds (pause_if (is_late step) pauses.0) (pause_if (is_late step) pauses.1)
        main.old relay.old.reader cx.old cx.new }
    ensures relay { relay.new ≡ record relay.old { reader = relay.new.reader } }
{
    match step {
        BodyStep::Goes => settle_body(core, main, relay, (0, 0), cx),
        BodyStep::Waits => settle_body(core, main, relay, pauses, cx),
        BodyStep::Finishes(end) => BodyStep::Finishes(end),
        BodyStep::Closes(end) => BodyStep::Closes(end),
        BodyStep::Lacks => BodyStep::Lacks,
    }
}

// Handles an event of the first continuation, which writes to the client.
fn send_at<C: Link, O: Upstream<C>, P: Transform + Drop>(
    core: &mut Core<C, O>,
    main: &mut Option<StageContinuation>,
    relay: &mut Relay<P>,
    event: Event,
    cx: &mut Cx,
) -> BodyStep
    requires turn { cx.old.log.state.held ≡ true }
    requires fact { RelayHolds C.Link O.Link O.Upstream.own P.Transform core.old relay.old }
    ensures leads { RelayLeads C.Link O.Link O.Upstream.own P.Transform core.old core.new
        relay.new result }
    ensures handles { BodyHandles C.Link O.Link O.Upstream.own core.old core.new MAIN event result
        main.old main.new relay.old relay.new cx.old cx.new }
    ensures pays { EventPays C.Link O.Link P.Transform core.old core.new result
        main.old relay.old relay.new cx.old cx.new }
{
    if !works(event) {
        return BodyStep::Goes;
    }
    unrouse(main);
    cx.known();
    let step = write_body(core, relay, cx);
    settle_after(core, step, main, relay, (RETRY_AFTER, 0), cx)
}

// Handles an event of the reader, which reads from the origin.
fn read_at<C: Link, O: Upstream<C>, P: Transform + Drop>(
    core: &mut Core<C, O>,
    main: &mut Option<StageContinuation>,
    relay: &mut Relay<P>,
    event: Event,
    cx: &mut Cx,
) -> BodyStep
    requires turn { cx.old.log.state.held ≡ true }
    requires fact { RelayHolds C.Link O.Link O.Upstream.own P.Transform core.old relay.old }
    ensures leads { RelayLeads C.Link O.Link O.Upstream.own P.Transform core.old core.new
        relay.new result }
    ensures handles { BodyHandles C.Link O.Link O.Upstream.own core.old core.new READER event result
        main.old main.new relay.old relay.new cx.old cx.new }
    ensures pays { EventPays C.Link O.Link P.Transform core.old core.new result
        main.old relay.old relay.new cx.old cx.new }
{
    if !works(event) {
        return BodyStep::Goes;
    }
    unrouse(&mut relay.reader);
    cx.known();
    let step = read_body(core, relay, cx);
    settle_after(core, step, main, relay, (0, RETRY_AFTER), cx)
}

// Handles an event of a stage, or of nobody.
fn stage_at<C: Link, O: Upstream<C>, P: Transform + Drop>(
    core: &Core<C, O>,
    main: &mut Option<StageContinuation>,
    relay: &mut Relay<P>,
    role: u32,
    event: Event,
    cx: &mut Cx,
) -> BodyStep
    requires turn { cx.old.log.state.held ≡ true }
    requires fact { RelayHolds C.Link O.Link O.Upstream.own P.Transform core.now relay.old }
    requires role { (role ≢ MAIN) × (role ≢ READER) }
    ensures leads { RelayLeads C.Link O.Link O.Upstream.own P.Transform core.now core.now
        relay.new result }
    ensures handles { BodyHandles C.Link O.Link O.Upstream.own core.now core.now role event result
        main.old main.new relay.old relay.new cx.old cx.new }
    ensures pays { EventPays C.Link O.Link P.Transform core.now core.now result
        main.old relay.old relay.new cx.old cx.new }
{
    cx.known();
    let step = step_after(relay.driven.handle(FIRST, role, event, cx));
    settle_after(core, step, main, relay, (0, 0), cx)
}

/// Handles an event of a role while a body is passed on, and rouses whoever must work from then on.
pub fn handle_body<C: Link, O: Upstream<C>, P: Transform + Drop>(
    core: &mut Core<C, O>,
    main: &mut Option<StageContinuation>,
    relay: &mut Relay<P>,
    role: u32,
    event: Event,
    cx: &mut Cx,
) -> BodyStep
    requires turn { cx.old.log.state.held ≡ true }
    requires fact { RelayHolds C.Link O.Link O.Upstream.own P.Transform core.old relay.old }
    ensures leads { RelayLeads C.Link O.Link O.Upstream.own P.Transform core.old core.new
        relay.new result }
    ensures handles { BodyHandles C.Link O.Link O.Upstream.own core.old core.new role event result
        main.old main.new relay.old relay.new cx.old cx.new }
    ensures pays { EventPays C.Link O.Link P.Transform core.old core.new result
        main.old relay.old relay.new cx.old cx.new }
{
    if role == MAIN {
        return send_at(core, main, relay, event, cx);
    }
    if role == READER {
        return read_at(core, main, relay, event, cx);
    }
    stage_at(core, main, relay, role, event, cx)
}

/// Makes the continuations of a body whose head is queued, and rouses whoever must work.
pub fn begin_body<C: Link, O: Upstream<C>, P: Transform + Drop>(
    core: &Core<C, O>,
    main: &mut Option<StageContinuation>,
    relay: &mut Relay<P>,
    cx: &mut Cx,
) -> BodyStep
    requires turn { cx.old.log.state.held ≡ true }
    requires fresh { IsUnbegun relay.old }
    requires fact { EnterHolds C.Link O.Link O.Upstream.own P.Transform core.now relay.old }
    ensures leads { RelayLeads C.Link O.Link O.Upstream.own P.Transform core.now core.now
        relay.new result }
    ensures begins { BeginsBody result (length relay.old.driven.chain.stages)
        (view_of C.Link O.Link core.now) main.old main.new relay.new cx.old cx.new }
    ensures lowers { BeginsLower (arc_value core.now.setup) P.rest result (view_of C.Link O.Link core.now)
        relay.old relay.new }
    ensures due { BeginsInTime main.old relay.new cx.old cx.new }
{
    let step = enter_body(core, relay, cx);
    settle_after(core, step, main, relay, (0, 0), cx)
}
