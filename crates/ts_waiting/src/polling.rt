//! How far a client is that waits for its next request, and how it is polled.
ghost use Rattle.std.specs.Prelude.{◌≡◌, true};
ghost use Rattle.ts_group.specs.Entries.{Grows};
ghost use Rattle.ts_session.specs.Reading.{IsUnread};
ghost use Rattle.ts_waiting.specs.Waiting.{CanBegin, CanPoll, HastensPoll, IsSameSpan, PollsAfter, PollsOnce, SetsOne};
ghost use Rattle.ts_waiting.specs.Waiting.{WaitsIn, has_waited};

use ts_group::{Cx, SetFault};
use ts_journal::ContKey;
use ts_link::{RETRY_AFTER, Sourced};
use ts_session::{Polled, Span};

// The role of the continuation that polls: it is the only one beside the group's own.
const POLLER: u32 = 1;

// The first poll comes at once.
pub(crate) const AT_ONCE: u64 = 0;

/// How far a client is that waits for its next request.
#[derive(Clone, Copy, Debug, PartialEq, Eq)]
pub enum WaitState {
    /// The world was not started.
    Unstarted,
    /// An event of this continuation polls the client.
    Polling(ContKey),
    /// Some of the request is there.
    Ready,
    /// The client has ended.
    Ended,
    /// The client failed.
    Failed,
    /// Memory lacked for the continuation or for its event, or no index was left for the continuation.
    Lacks,
}

// Sets the event that polls the client after so many milliseconds.
fn set_poll(key: ContKey, after: u64, cx: &mut Cx) -> WaitState
    requires can { CanPoll key cx.old }
    ensures waits { WaitsIn result cx.new.log.state }
    ensures polls { has_waited result ≡ true }
    ensures due { PollsAfter after result cx.old cx.new }
    ensures few { SetsOne cx.old cx.new }
    ensures grows { Grows cx.old cx.new }
{
    match cx.schedule(key, after) {
        Ok(_action) => WaitState::Polling(key),
        Err(fault) => match fault {
            SetFault::Spent => WaitState::Polling(key),
            SetFault::Dead => unreachable!(),
            SetFault::NoMemory => WaitState::Lacks,
        },
    }
}

/// Makes the continuation that polls, and sets its first event.
#[tactic(auto, using(ts_group::proofs::Grows::grows_trans))]
pub(crate) fn begin_polling(cx: &mut Cx) -> WaitState
    requires can { CanBegin cx.old }
    ensures waits { WaitsIn result cx.new.log.state }
    ensures polls { has_waited result ≡ true }
    ensures due { PollsAfter AT_ONCE result cx.old cx.new }
    ensures few { SetsOne cx.old cx.new }
    ensures grows { Grows cx.old cx.new }
{
    match cx.make(POLLER) {
        Ok(key) => set_poll(key, AT_ONCE, cx),
        Err(_) => WaitState::Lacks,
    }
}

/// Polls the client once. Where it has to be waited for, that is done again later.
#[tactic(auto, using(ts_group::proofs::Grows::grows_refl))]
pub(crate) fn poll_once<C: Sourced + Drop>(
    span: &mut Span<C>,
    key: ContKey,
    cx: &mut Cx,
) -> WaitState
    requires can { CanPoll key cx.old }
    requires unread { IsUnread span.old.request }
    ensures waits { WaitsIn result cx.new.log.state }
    ensures same { IsSameSpan C.Link span.old span.new }
    ensures polls { PollsOnce C.Link result span.old span.new }
    ensures due { PollsAfter RETRY_AFTER result cx.old cx.new }
    ensures few { SetsOne cx.old cx.new }
    ensures grows { Grows cx.old cx.new }
{
    match span.poll() {
        Polled::Some => WaitState::Ready,
        Polled::End => WaitState::Ended,
        Polled::Failed => WaitState::Failed,
        Polled::Again => set_poll(key, RETRY_AFTER, cx),
    }
}

/// Brings the next poll forward, if one is to come. Where none can be set, it stays.
#[tactic(auto, using(ts_group::proofs::Grows::grows_refl))]
pub(crate) fn hasten_poll(state: &WaitState, cx: &mut Cx)
    requires turn { cx.old.log.state.held ≡ true }
    requires waits { WaitsIn state.now cx.old.log.state }
    ensures waits { WaitsIn state.now cx.new.log.state }
    ensures hastens { HastensPoll state.now cx.old cx.new }
    ensures few { SetsOne cx.old cx.new }
    ensures grows { Grows cx.old cx.new }
{
    let WaitState::Polling(key) = *state else {
        return;
    };
    let _ = cx.hasten(key);
}
