//! How a body comes to the chain: the reader of bodies is fed with what waits of the origin's bytes.
ghost use Rattle.std.specs.Prelude.{◌≡◌, ◌≢◌, [], true, false};
ghost use Rattle.ts_link.specs.Counts.{one_more_if};
ghost use Rattle.ts_phases.specs.View.{GoesIf, is_dialed, side_if, view_of};
ghost use Rattle.ts_relay.specs.Feeding.{DrainsOrigin, FeedsTo, OnGoes, short_if};
ghost use Rattle.ts_passing.specs.Feeding.{EndsHere, GetsPart};
ghost use Rattle.ts_relay.specs.Relaying.{IsNotSpent, StepsChain, set_by_part, set_by_stage};
ghost use Rattle.ts_phases.specs.Holding.{StepKeeps};
ghost use Rattle.ts_wire.specs.declared.body.BodyState.TheVariants.{Ended, Unfinished};

use crate::last_writes::BodyStep;
use crate::relay::{Relay, Short, step_after};
use ts_group::Cx;
use ts_link::Link;
use ts_phases::{Core, Peer, Received};
use ts_transform::{DrivenChain, Transform};
use ts_upstream::Upstream;
use ts_wire::{BodyEnd, BodyReader, BodyState};

// Gives a part of a body to the chain.
fn give_bytes<P: Transform + Drop>(
    driven: &mut DrivenChain<P>,
    part: &[u8],
    cx: &mut Cx,
) -> BodyStep
    requires turn { cx.old.log.state.held ≡ true }
    requires goes_on { driven.old.chain.given ≡ false }
    ensures gets { OnGoes result
        (GetsPart Unfinished part.now driven.old.chain driven.new.chain) }
    ensures chain { StepsChain result set_by_stage driven.old driven.new cx.old cx.new }
    ensures spent { IsNotSpent result driven.new }
{
    step_after(driven.give(part, cx))
}

/// Says that no more of a body comes to the chain.
pub fn close_input<P: Transform + Drop>(driven: &mut DrivenChain<P>, cx: &mut Cx) -> BodyStep
    requires turn { cx.old.log.state.held ≡ true }
    requires goes_on { driven.old.chain.given ≡ false }
    ensures gets { OnGoes result (driven.new.chain ≡ record driven.old.chain { given = true }) }
    ensures chain { StepsChain result set_by_stage driven.old driven.new cx.old cx.new }
    ensures spent { IsNotSpent result driven.new }
{
    step_after(driven.give_end(cx))
}

// Gives the last part of a body to the chain.
fn give_last<P: Transform + Drop>(driven: &mut DrivenChain<P>, part: &[u8], cx: &mut Cx) -> BodyStep
    requires turn { cx.old.log.state.held ≡ true }
    requires goes_on { driven.old.chain.given ≡ false }
    ensures gets { OnGoes result (GetsPart Ended part.now driven.old.chain driven.new.chain) }
    ensures chain { StepsChain result set_by_part driven.old driven.new cx.old cx.new }
{
    let BodyStep::Goes = give_bytes(driven, part, cx) else {
        return BodyStep::Lacks;
    };
    cx.known();
    close_input(driven, cx)
}

// Gives the part of a body in this state to the chain.
fn give_part<P: Transform + Drop>(
    driven: &mut DrivenChain<P>,
    part: &[u8],
    state: BodyState,
    cx: &mut Cx,
) -> BodyStep
    requires turn { cx.old.log.state.held ≡ true }
    requires goes_on { driven.old.chain.given ≡ false }
    ensures gets { OnGoes result (GetsPart state part.now driven.old.chain driven.new.chain) }
    ensures chain { StepsChain result set_by_part driven.old driven.new cx.old cx.new }
{
    match state {
        BodyState::Unfinished => give_bytes(driven, part, cx),
        BodyState::Ended => give_last(driven, part, cx),
        BodyState::Bad => give_bytes(driven, part, cx),
    }
}

// Whether no more of a body in this state comes: of a bad one, and where it was so before.
fn short_if(state: BodyState, short: Option<Short>) -> Option<Short>
    ensures { result ≡ short_if state short }
{
    match state {
        BodyState::Bad => Some(Short::Bad),
        BodyState::Unfinished => short,
        BodyState::Ended => short,
    }
}

// A count after one more, where there was one.
fn count_if(counts: bool, count: u64) -> u64
    ensures { result ≡ one_more_if counts count }
{
    if counts {
        return count.saturating_add(1);
    }
    count
}

// Feeds the first block of what waits to the reader of bodies, and gives the chain the part of it that is
// body. Behind a bad one no more of it comes.
fn feed_some<P: Transform + Drop>(
    inbox: &mut Received,
    relay: &mut Relay<P>,
    cx: &mut Cx,
) -> BodyStep
    requires turn { cx.old.log.state.held ≡ true }
    requires goes_on { relay.old.driven.chain.given ≡ false }
    ensures feeds { FeedsTo result relay.old relay.new inbox.old inbox.new }
    ensures chain { StepsChain result set_by_part relay.old.driven relay.new.driven cx.old cx.new }
    ensures reader { relay.new.reader ≡ relay.old.reader }
{
    let Some(block) = inbox.block() else {
        return BodyStep::Lacks;
    };
    let fed = relay.body.feed(block);
    let part = &block[fed.from..fed.to];
    let BodyStep::Goes = give_part(&mut relay.driven, part, fed.state, cx) else {
        return BodyStep::Lacks;
    };
    relay.fed = count_if(!part.is_empty(), relay.fed);
    inbox.take(fed.taken);
    relay.short = short_if(fed.state, relay.short);
    BodyStep::Goes
}

// The same with the bytes that wait of the origin's; where there is no origin, it is as if memory lacked.
fn feed_if<L: Link, P: Transform + Drop>(
    origin: &mut Option<Peer<L>>,
    relay: &mut Relay<P>,
    cx: &mut Cx,
) -> BodyStep
    requires turn { cx.old.log.state.held ≡ true }
    requires goes_on { relay.old.driven.chain.given ≡ false }
    ensures feeds { FeedsTo result relay.old relay.new (side_if L.look origin.old).inbox
        (side_if L.look origin.new).inbox }
    ensures chain { StepsChain result set_by_part relay.old.driven relay.new.driven cx.old cx.new }
    ensures reader { relay.new.reader ≡ relay.old.reader }
    ensures side { side_if L.look origin.new
        ≡ record (side_if L.look origin.old) { inbox = (side_if L.look origin.new).inbox } }
    ensures link { GoesIf (λ k l. l ≡ k) origin.old origin.new }
    ensures dialed { is_dialed origin.new ≡ is_dialed origin.old }
{
    match origin {
        Some(peer) => feed_some(&mut peer.inbox, relay, cx),
        None => BodyStep::Lacks,
    }
}

// Whether bytes of the origin wait.
fn holds_some<L: Link>(origin: &Option<Peer<L>>) -> bool
    ensures none { result ≡ false → (side_if L.look origin.now).inbox ≡ [] }
    ensures some { result ≡ true → (side_if L.look origin.now).inbox ≢ [] }
{
    match origin {
        Some(peer) => !peer.inbox.is_empty(),
        None => false,
    }
}

/// Whether an unfinished body ends with the bytes that were fed.
pub fn ends_here(body: &BodyReader) -> bool
    ensures { EndsHere result body.now }
{
    match body.state() {
        BodyState::Unfinished => {}
        BodyState::Ended => return true,
        BodyState::Bad => return false,
    }
    match body.finish() {
        BodyEnd::Ended => true,
        BodyEnd::Cut => false,
    }
}

/// Whether bytes of the origin wait.
pub fn holds_body<C: Link, O: Upstream<C>>(core: &Core<C, O>) -> bool
    ensures none { result ≡ false → (view_of C.Link O.Link core.now).origin.inbox ≡ [] }
    ensures some { result ≡ true → (view_of C.Link O.Link core.now).origin.inbox ≢ [] }
{
    holds_some(&core.origin)
}

/// Feeds the reader of bodies with the first block of what waits of the origin's bytes.
pub fn feed_body<C: Link, O: Upstream<C>, P: Transform + Drop>(
    core: &mut Core<C, O>,
    relay: &mut Relay<P>,
    cx: &mut Cx,
) -> BodyStep
    requires turn { cx.old.log.state.held ≡ true }
    requires goes_on { relay.old.driven.chain.given ≡ false }
    ensures feeds { FeedsTo result relay.old relay.new
        (view_of C.Link O.Link core.old).origin.inbox (view_of C.Link O.Link core.new).origin.inbox }
    ensures others { DrainsOrigin (view_of C.Link O.Link core.old) (view_of C.Link O.Link core.new) }
    ensures keeps { StepKeeps C.Link O.Link O.Upstream.own core.old core.new }
    ensures chain { StepsChain result set_by_part relay.old.driven relay.new.driven cx.old cx.new }
    ensures reader { relay.new.reader ≡ relay.old.reader }
{
    feed_if(&mut core.origin, relay, cx)
}
