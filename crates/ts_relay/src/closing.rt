//! How a body is left that was passed on: its reader and its stages are destroyed, with their events.
ghost use Rattle.std.specs.Prelude.{◌≡◌, ◌∷◌, [], true, None};
ghost use Rattle.ts_transform.specs.Destroying.{Clears};
ghost use Rattle.ts_relay.specs.Duties.{relay_seats};

use crate::relay::Relay;
use ts_group::Cx;
use ts_transform::{StageContinuation, Transform};

/// Destroys a continuation, if there is one, with its events.
#[tactic(auto, using(ts_transform::proofs::Seats::clears_none))]
pub fn destroy_end(slot: &mut Option<StageContinuation>, cx: &mut Cx)
    requires turn { cx.old.log.state.held ≡ true }
    ensures clears { Clears (slot.old ∷ []) cx.old cx.new }
    ensures none { slot.new ≡ None }
    ensures turn { cx.new.log.state.held ≡ true }
{
    cx.known();
    if let Some(continuation) = slot {
        let _destroyed = cx.destroy(continuation.key);
    }
    *slot = None;
}

/// Destroys the reader of a body, and the stages that it went through.
pub fn close_relay<P: Transform + Drop>(relay: Relay<P>, cx: &mut Cx)
    requires turn { cx.old.log.state.held ≡ true }
    ensures clears { Clears (relay_seats relay) cx.old cx.new }
    ensures turn { cx.new.log.state.held ≡ true }
{
    let Relay {
        driven,
        body: _,
        reader,
        short: _,
        pauses: _,
        fed: _,
    } = relay;
    let mut reader = reader;
    destroy_end(&mut reader, cx);
    let mut driven = driven;
    driven.close(cx);
}
