//! Who must work while a body is passed on.
ghost use Rattle.std.specs.Prelude.{◌↔◌, IsTrue};
ghost use Rattle.ts_phases.specs.View.{view_of};
ghost use Rattle.ts_relay.specs.Duties.{HoldsHead, IsUnderWay, MustReadOn, MustWriteOut, TellsDuty};

use crate::feed::holds_body;
use crate::relay::Relay;
use ts_link::Link;
use ts_phases::Core;
use ts_transform::Transform;
use ts_upstream::Upstream;

// Whether the first bytes of a body are on their way: the reader has some at hand, or a stage of a chain that
// never pauses has work at once, and the chain was given no more pieces than it has stages.
fn is_under_way<C: Link, O: Upstream<C>, P: Transform + Drop>(
    core: &Core<C, O>,
    relay: &Relay<P>,
) -> bool
    ensures { IsTrue result ↔ IsUnderWay (view_of C.Link O.Link core.now) relay.now }
{
    if holds_body(core) && must_read_on(relay) {
        return true;
    }
    if relay.pauses || relay.fed > relay.driven.chain().stages() as u64 {
        return false;
    }
    !relay.driven.chain().rests()
}

// Whether the whole head waits for the first bytes of its body: none was framed yet, and some are on their
// way.
fn holds_head<C: Link, O: Upstream<C>, P: Transform + Drop>(
    core: &Core<C, O>,
    relay: &Relay<P>,
) -> bool
    ensures { IsTrue result ↔ HoldsHead (view_of C.Link O.Link core.now) relay.now }
{
    if core.client.outbox.len() as u64 != core.sent.head {
        return false;
    }
    if !core.sent.cuts.is_empty() {
        return false;
    }
    is_under_way(core, relay)
}

// Whether what waits for the client must be written.
fn must_write_out<C: Link, O: Upstream<C>, P: Transform + Drop>(
    core: &Core<C, O>,
    relay: &Relay<P>,
) -> bool
    ensures { IsTrue result ↔ MustWriteOut (view_of C.Link O.Link core.now) relay.now }
{
    if core.client.outbox.is_empty() {
        return false;
    }
    !holds_head(core, relay)
}

/// Whether the first continuation must work: something waits for the client that is not a head which waits
/// for its body, or the chain gave something, or what the client gets of the body ends here.
pub fn must_send<C: Link, O: Upstream<C>, P: Transform + Drop>(
    core: &Core<C, O>,
    relay: &Relay<P>,
) -> bool
    ensures { TellsDuty result (view_of C.Link O.Link core.now) relay.now }
{
    if must_write_out(core, relay) {
        return true;
    }
    if relay.driven.chain().has_output() {
        return true;
    }
    if relay.driven.chain().is_finished() {
        return true;
    }
    relay.short.is_some() && relay.driven.chain().rests()
}

/// Whether the reader must read on: more of the body may come, and more may be given to the chain.
pub fn must_read_on<P: Transform + Drop>(relay: &Relay<P>) -> bool
    ensures { IsTrue result ↔ MustReadOn relay.now }
{
    relay.short.is_none() && relay.driven.chain().must_read()
}
