//! A client that waits for its next request, with what is left of the transaction before.
ghost use Rattle.std.specs.Prelude.{◌≡◌, [], true};
ghost use Rattle.ts_journal.specs.State.{State};
ghost use Rattle.ts_session.specs.Reading.{IsUnread};
ghost use Rattle.ts_waiting.specs.Waiting.{IsNewWait, IsSoundWait, has_answered, is_lacking, is_ready};

use crate::polling::WaitState;
use std::snapshot::Snapshot;
use ts_link::Sourced;
use ts_session::Span;

/// A client that waits for its next request, with what is left of the transaction before.
#[derive(Drop)]
pub struct Waiting<C: Sourced, L> {
    pub(crate) span: Span<C>,
    pub(crate) left: L,
    pub(crate) state: WaitState,
}

/// What a slot promises of it. The span and what is left are for contracts alone, and take no memory.
#[derive(Drop)]
pub struct WaitTag<C: Sourced, L> {
    /// The span of the next request, as the world was made.
    pub span: Snapshot<Span<C>>,
    /// What is left of the transaction before.
    pub left: Snapshot<L>,
}

/// What such a world is taken apart into.
#[derive(Drop)]
pub struct Left<C: Sourced, L> {
    /// The span of the next request.
    pub span: Span<C>,
    /// What is left of the transaction before.
    pub left: L,
}

// Whether the poll has answered.
fn is_answered(state: WaitState) -> bool
    ensures { result ≡ has_answered state }
{
    match state {
        WaitState::Ready => true,
        WaitState::Ended => true,
        WaitState::Failed => true,
        _ => false,
    }
}

impl<C: Sourced + Drop, L: Drop> Waiting<C, L> {
    /// The world of a client whose next request is that of the span, behind a transaction of which this is
    /// left. It was not started, and takes no memory.
    pub fn make(span: Span<C>, left: L) -> Waiting<C, L>
        requires { IsUnread span.request }
        ensures { IsNewWait span left result }
    {
        Waiting {
            span,
            left,
            state: WaitState::Unstarted,
        }
    }

    /// How far it is.
    pub fn state(&self) -> WaitState
        ensures { result ≡ self.now.state }
    {
        self.state
    }

    /// Whether the poll has answered. Nothing of it is pending then.
    pub fn has_answered(&self) -> bool
        ensures answered { result ≡ has_answered self.now.state }
        ensures rests { result ≡ true → (s : State) → IsSoundWait C.Link self.now s → s.pending ≡ [] }
    {
        is_answered(self.state)
    }

    /// Whether some of the next request is there.
    pub fn is_ready(&self) -> bool
        ensures { result ≡ is_ready self.now.state }
    {
        matches!(self.state, WaitState::Ready)
    }

    /// Whether memory lacked for polling the client.
    pub fn lacks_memory(&self) -> bool
        ensures { result ≡ is_lacking self.now.state }
    {
        matches!(self.state, WaitState::Lacks)
    }

    /// What is left of the transaction before.
    pub fn left(&self) -> &L
        ensures { result.now ≡ self.now.left }
    {
        &self.left
    }

    /// Takes it apart.
    pub fn into_left(self) -> Left<C, L>
        ensures span { result.span ≡ self.span }
        ensures left { result.left ≡ self.left }
    {
        let Waiting { span, left, .. } = self;
        Left { span, left }
    }
}
