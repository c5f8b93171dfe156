//! How a body begins to be passed on: the client's head is queued, and continuations are made.
ghost use Rattle.std.specs.Prelude.{◌≡◌, [], length, true, false, None, OnErr, IfOk};
ghost use Rattle.std.specs.Arc.{arc_value};
ghost use Rattle.ts_wire.specs.Place.{state_of};
ghost use Rattle.ts_relay.specs.Feeding.{OnGoes};
ghost use Rattle.ts_transform.specs.Driving.{SetsOnly};
ghost use Rattle.ts_relay.specs.Relaying.{IsNotSpent, IsOfRoleFrom, RelayLeads, StepsChain, set_by_stage};
ghost use Rattle.ts_relay.specs.Entering.{BeginsChain, BeginsRelay, EnterHolds, EntersAfter};
ghost use Rattle.ts_passing.specs.Lines.{ActsAsLines};
ghost use Rattle.ts_relay.specs.Entering.{GetsStart, IsUnbegun, LacksAfter, CallsNeither};
ghost use Rattle.ts_relay.specs.LoweringBody.{BeginsLower};
ghost use Rattle.ts_relay.specs.StepsOwed.{EntryLowers};
ghost use Rattle.ts_phases.specs.Holding.{StepKeeps};
ghost use Rattle.ts_phases.specs.Leading.{HeadHolds};
ghost use Rattle.ts_phases.specs.View.{view_of};

use crate::feed::close_input;
use crate::last_writes::BodyStep;
use crate::making::make_relay;
use crate::relay::{FIRST, READER, Relay};
use ts_block::{framing_for, mode_of, relayed_with};
use ts_config::TransformLine;
use ts_group::Cx;
use ts_iobuf::Waiting;
use ts_link::{Link, NoMemory};
use ts_phases::{Core, Request};
use ts_transform::{DrivenChain, Loss, Transform, make_end};
use ts_upstream::Upstream;
use ts_wire::{BodyState, Fields, ResponseHead};

// Makes a continuation for each stage of a chain, and rouses each that must work.
fn start_chain<P: Transform + Drop>(driven: &mut DrivenChain<P>, cx: &mut Cx) -> BodyStep
    requires turn { cx.old.log.state.held ≡ true }
    requires fresh { driven.old.table.items ≡ [] }
    ensures chain { driven.new.chain ≡ driven.old.chain }
    ensures begins { BeginsChain result (length driven.old.chain.stages) driven.new cx.old cx.new }
    ensures due { SetsOnly (IsOfRoleFrom FIRST cx.new.roles) cx.old cx.new }
    ensures spent { IsNotSpent result driven.new }
{
    driven.start(FIRST, cx);
    match driven.lost() {
        None => BodyStep::Goes,
        Some(Loss::Spent) => BodyStep::Goes,
        Some(Loss::NoMemory) => BodyStep::Lacks,
        Some(Loss::TableFull) => BodyStep::Lacks,
        Some(Loss::Dead) => BodyStep::Lacks,
    }
}

// Gives the chain its end where there is no body.
fn begin_input<P: Transform + Drop>(relay: &mut Relay<P>, cx: &mut Cx) -> BodyStep
    requires turn { cx.old.log.state.held ≡ true }
    requires goes_on { relay.old.driven.chain.given ≡ false }
    ensures gets { OnGoes result
        (GetsStart (state_of relay.old.body.phase) relay.old.driven.chain relay.new.driven.chain) }
    ensures chain { StepsChain result set_by_stage relay.old.driven relay.new.driven cx.old cx.new }
    ensures relay { relay.new ≡ record relay.old { driven = relay.new.driven } }
{
    match relay.body.state() {
        BodyState::Unfinished => BodyStep::Goes,
        BodyState::Ended => close_input(&mut relay.driven, cx),
        BodyState::Bad => BodyStep::Lacks,
    }
}

// Makes the continuations of a body: that of its reader, and one for each stage.
fn begin_relay<P: Transform + Drop>(relay: &mut Relay<P>, cx: &mut Cx) -> BodyStep
    requires turn { cx.old.log.state.held ≡ true }
    requires fresh { IsUnbegun relay.old }
    ensures gets { OnGoes result
        (GetsStart (state_of relay.old.body.phase) relay.old.driven.chain relay.new.driven.chain) }
    ensures body { (relay.new.body ≡ relay.old.body) × (relay.new.short ≡ relay.old.short) }
    ensures begins { BeginsRelay result (length relay.old.driven.chain.stages) relay.new cx.old cx.new }
    ensures due { relay.new.driven.running ≡ true
        → SetsOnly (IsOfRoleFrom FIRST cx.new.roles) cx.old cx.new }
{
    let Ok(reader) = make_end(READER, cx) else {
        return BodyStep::Lacks;
    };
    relay.reader = Some(reader);
    let BodyStep::Goes = start_chain(&mut relay.driven, cx) else {
        return BodyStep::Lacks;
    };
    cx.known();
    begin_input(relay, cx)
}

// Begins a block behind what waits for a link, with room for a head and the first bytes of its body, so that
// one write takes them. Where memory lacks, the head gets a block of its own.
fn begin_block(outbox: &mut Waiting)
    ensures { outbox.new ≡ outbox.old }
{
    let _ = outbox.buffer.space();
}

/// Queues the client's head of a response that is passed on, with the fields after its plugins, and makes
/// what its body goes through.
#[tactic(auto, using(crate::proofs::Entered::quiet_none, crate::proofs::Entered::quiet_head))]
pub fn queue_relay<C: Link, O: Upstream<C>, P: Transform<Line = TransformLine> + Drop>(
    core: &mut Core<C, O>,
    request: &Request,
    head: &ResponseHead,
    fields: &Fields,
) -> Result<Relay<P>, NoMemory>
    requires acts { ActsAsLines P.Transform }
    requires fact { HeadHolds C.Link O.Link O.Upstream.own core.old request.now head.now fields.now }
    ensures ok { IfOk result
        (λ r. EntersAfter C.Link O.Link O.Upstream.own P.Transform core.old core.new r) }
    ensures err { OnErr result (LacksAfter C.Link O.Link O.Upstream.own core.old core.new) }
    ensures fresh { IfOk result IsUnbegun }
    ensures quiet { CallsNeither (view_of C.Link O.Link core.old) (view_of C.Link O.Link core.new) }
    ensures lowers { IfOk result (EntryLowers C.Link O.Link P.Transform core.old core.new) }
    ensures keeps { StepKeeps C.Link O.Link O.Upstream.own core.old core.new }
{
    let Ok(made) = make_relay(core.alloc, &core.setup, &request.head, head) else {
        return Err(NoMemory);
    };
    let Ok(text) = relayed_with(core.alloc, &core.setup, &request.head, head, fields) else {
        return Err(NoMemory);
    };
    let mode = mode_of(framing_for(&core.setup, &request.head, head));
    begin_block(&mut core.client.outbox);
    match core.queue_head(text.bytes(), mode) {
        Ok(()) => Ok(made),
        Err(_) => Err(NoMemory),
    }
}

/// Makes the continuations of a body whose head is queued.
pub fn enter_body<C: Link, O: Upstream<C>, P: Transform + Drop>(
    core: &Core<C, O>,
    relay: &mut Relay<P>,
    cx: &mut Cx,
) -> BodyStep
    requires turn { cx.old.log.state.held ≡ true }
    requires fresh { IsUnbegun relay.old }
    requires fact { EnterHolds C.Link O.Link O.Upstream.own P.Transform core.now relay.old }
    ensures leads { RelayLeads C.Link O.Link O.Upstream.own P.Transform core.now core.now
        relay.new result }
    ensures begins { BeginsRelay result (length relay.old.driven.chain.stages) relay.new cx.old cx.new }
    ensures lowers { BeginsLower (arc_value core.now.setup) P.rest result (view_of C.Link O.Link core.now)
        relay.old relay.new }
    ensures due { relay.new.driven.running ≡ true
        → SetsOnly (IsOfRoleFrom FIRST cx.new.roles) cx.old cx.new }
{
    begin_relay(relay, cx)
}
