//! The steps that read a body from the origin: one read, or what waits is fed to the reader of bodies.
ghost use Rattle.std.specs.Prelude.{◌≡◌, [], true, false};
ghost use Rattle.ts_relay.specs.Duties.{MustReadOn};
ghost use Rattle.ts_relay.specs.StepsOwed.{ReaderSteps, EndLowers};
ghost use Rattle.ts_phases.specs.View.{view_of};
ghost use Rattle.ts_relay.specs.Relaying.{RelayHolds, RelayLeads};

use crate::duties::must_read_on;
use crate::feed::{close_input, ends_here, feed_body, holds_body};
use crate::last_writes::BodyStep;
use crate::relay::{Relay, Short};
use ts_group::Cx;
use ts_hooks::TxnEnd;
use ts_link::Link;
use ts_phases::Core;
use ts_transform::Transform;
use ts_upstream::Upstream;
use ts_vconn::Pulled;

// Reads once from the origin, of whose bytes none waits.
fn pull_relay<C: Link, O: Upstream<C>, P: Transform + Drop>(
    core: &mut Core<C, O>,
    relay: &mut Relay<P>,
    cx: &mut Cx,
) -> BodyStep
    requires turn { cx.old.log.state.held ≡ true }
    requires fact { RelayHolds C.Link O.Link O.Upstream.own P.Transform core.old relay.old }
    requires goes_on { MustReadOn relay.old }
    requires empty { (view_of C.Link O.Link core.old).origin.inbox ≡ [] }
    ensures leads { RelayLeads C.Link O.Link O.Upstream.own P.Transform core.old core.new
        relay.new result }
    ensures steps { ReaderSteps C.Link O.Link O.Upstream.own core.old core.new result
        relay.old relay.new cx.old cx.new }
    ensures lowers { EndLowers C.Link O.Link P.Transform core.old core.new
        (MustReadOn relay.old) result relay.old relay.new cx.old cx.new }
{
    let pulled = match core.read_origin() {
        Ok(pulled) => pulled,
        Err(_) => return BodyStep::Lacks,
    };
    match pulled {
        Pulled::Some(_) => BodyStep::Goes,
        Pulled::Again => BodyStep::Waits,
        Pulled::Failed => BodyStep::Finishes(TxnEnd::OriginFault),
        Pulled::End => {
            if ends_here(&relay.body) {
                return close_input(&mut relay.driven, cx);
            }
            relay.short = Some(Short::Cut);
            BodyStep::Goes
        }
    }
}

/// Makes one step of the reader, unless no more of the body comes, or the chain wants no more or has no room
/// for it: it feeds the reader of bodies with what waits of the origin's bytes, or reads on.
pub fn read_body<C: Link, O: Upstream<C>, P: Transform + Drop>(
    core: &mut Core<C, O>,
    relay: &mut Relay<P>,
    cx: &mut Cx,
) -> BodyStep
    requires turn { cx.old.log.state.held ≡ true }
    requires fact { RelayHolds C.Link O.Link O.Upstream.own P.Transform core.old relay.old }
    ensures leads { RelayLeads C.Link O.Link O.Upstream.own P.Transform core.old core.new
        relay.new result }
    ensures steps { ReaderSteps C.Link O.Link O.Upstream.own core.old core.new result
        relay.old relay.new cx.old cx.new }
    ensures lowers { EndLowers C.Link O.Link P.Transform core.old core.new
        (MustReadOn relay.old) result relay.old relay.new cx.old cx.new }
{
    if !must_read_on(relay) {
        return BodyStep::Goes;
    }
    if holds_body(core) {
        return feed_body(core, relay, cx);
    }
    pull_relay(core, relay, cx)
}
