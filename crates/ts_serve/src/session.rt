//! Who lives in a place of sessions, as a type of its own, so that whoever runs the places meets neither of
//! the two kinds.

ghost use Rattle.std.specs.Prelude.{⊤, ◌≡◌, List, [], None, false, true};
ghost use Rattle.ts_group.specs.Answers.{Hears, IsAnswered, KeepsPromises, SetsAtMost};
ghost use Rattle.ts_group.specs.Context.{IsOrderly};
ghost use Rattle.ts_group.specs.Either.{EitherAnswers, EitherAsking, EitherCalled, EitherFits, EitherHeard};
ghost use Rattle.ts_group.specs.Either.{EitherMayAsk, EitherRight, EitherSound, OfBoth, either_left, tag_of};
ghost use Rattle.ts_group.specs.Entries.{Grows};
ghost use Rattle.ts_serve.specs.InSession.{AwaitsExchange, ExchangeTakes, exchange_left};
ghost use Rattle.ts_serve.specs.InSession.{link_of, session_left_given, session_left_taken, session_rests};
ghost use Rattle.ts_serve.specs.InSession.{session_sound_given, session_sound_taken, stage_of};
ghost use Rattle.ts_serve.specs.SessionTerms.{ExchangeFits, ExchangeSound};
ghost use Rattle.ts_txn.specs.Asking.{HearsTxn, IsRightFor, MayAskGroup};
ghost use Rattle.ts_txn.specs.World.{HasTxnBegun, LetsContinue};
ghost use Rattle.ts_waiting.specs.Waiting as waits;
ghost use Rattle.ts_waiting.specs.Waiting.{BeginsWait, IsSoundWait, IsWaitOf, TakesPoll};

use crate::placed::{
    AtPlace, PlacedExchange, ask_world, handle_event, rouse_world, start_world, tell_world,
};
use crate::sessions::Ended;
use std::marker::Model;
use ts_config::TransformLine;
use ts_group::{Asked, Cx, Either, EitherTag, MOST_SET, Rouse, Want, World};
use ts_journal::{Event, Slotted};
use ts_layers::LayeredTag;
use ts_link::{Link, Sourced};
use ts_plugin::{HookQuestion, HookReply};
use ts_session::{Span, Spanned};
use ts_transform::Transform;
use ts_upstream::Upstream;
use ts_waiting::{WaitTag, Waiting};

/// A transaction of a session, as it stands in a place.
pub type SessionExchange<C, O, P> = PlacedExchange<Span<C>, Spanned<O>, P>;

/// A client that waits for its next request, as it stands in a place.
pub type SessionWait<C, O> = Waiting<C, Ended<O>>;

/// Who lives in a place of sessions: one of the two.
#[derive(Drop)]
pub struct SessionHandler<C: Sourced, O: Link, P> {
    pub(crate) inside: Either<SessionExchange<C, O, P>, SessionWait<C, O>>,
}

impl<C: Sourced, O: Link, P> Model for SessionHandler<C, O, P> {
    ghost use Rattle.ts_serve.specs.SessionTerms.{InSession};

    ghost Value = { InSession C O P };

    ghost view = { λ h. h.inside };
}

impl<C: Sourced + Drop, O: Upstream<C> + Drop, P: Transform<Line = TransformLine> + Drop> Slotted
    for SessionHandler<C, O, P> {
    type Tag = EitherTag<AtPlace<LayeredTag<Span<C>, Spanned<O>, P>>, WaitTag<C, Ended<O>>>;

    type Trace = ();

    ghost fits = { EitherFits (ExchangeFits C.Link O.Link) (IsWaitOf C.Link) };

    ghost stamp = { λ h. 0 };

    ghost marks = { λ h. [] };

    ghost trace = { λ h. tt };

    ghost follows = { λ t u. ⊤ };

    ghost follows_itself = { λ t. tt };

    ghost follows_on = { λ t u v a b. tt };
}

/// It is the one that it is, and stays of that kind.
impl<C: Sourced + Drop, O: Upstream<C> + Drop, P: Transform<Line = TransformLine> + Drop> World
    for SessionHandler<C, O, P> {
    type Question = HookQuestion;

    type Reply = HookReply;

    ghost sound = { EitherSound (ExchangeSound C.Link O.Link P.Transform)
        (λ w s roles. IsSoundWait C.Link w s) };

    ghost asking = { EitherAsking (AwaitsExchange C.Link O.Link P.Transform)
        (λ w s roles role group question. IsSoundWait C.Link w s) };

    ghost right = { EitherRight (λ t. IsRightFor t.value) (λ w group question reply. ⊤) };

    ghost may_ask = { EitherMayAsk (λ t. MayAskGroup t.value) (λ w group. ⊥) };

    ghost answers = { EitherAnswers (λ t question reply. LetsContinue question reply)
        (λ w question reply. waits.LetsContinue question reply) };

    ghost left = { either_left (exchange_left C.Link O.Link P.Transform) (λ w s. None) };

    ghost only_asked = { tag_of (λ tag. false) (λ tag. false) };

    ghost is_first = { tag_of (λ tag. tag.value.first) (λ tag. false) };

    ghost begun = { OfBoth (λ old new. HasTxnBegun old.value new.value)
        (λ old new. BeginsWait old.state old new) };

    ghost called = { EitherCalled (λ old new asked. ExchangeTakes C.Link O.Link P.Transform old new)
        (λ old new asked. TakesPoll C.Link old.state old new) };

    ghost heard = { EitherHeard (λ old new. HearsTxn old.value new.value) (λ old new asked. new ≡ old) };

    fn start(&mut self, cx: &mut Cx) {
        start_world(&mut self.inside, cx)
    }

    fn handle(&mut self, role: u32, event: Event, cx: &mut Cx) -> Want<HookQuestion> {
        handle_event(&mut self.inside, role, event, cx)
    }

    fn told(&mut self, role: u32, asked: Asked<HookQuestion, HookReply>, cx: &mut Cx)
        requires turn { cx.old.log.state.held ≡ true }
        requires orderly { IsOrderly cx.old }
        requires asking { IsAnswered
            (EitherAsking (AwaitsExchange C.Link O.Link P.Transform)
            (λ w s roles role group question. IsSoundWait C.Link w s)
            self.old cx.old.log.state cx.old.roles role)
            (EitherRight (λ t. IsRightFor t.value) (λ w group question reply. ⊤) self.old) asked }
        ensures grows { Grows cx.old cx.new }
        ensures sound { EitherSound (ExchangeSound C.Link O.Link P.Transform)
            (λ w s roles. IsSoundWait C.Link w s) self.new cx.new.log.state cx.new.roles }
        ensures hears { Hears
            (EitherHeard (λ old new. HearsTxn old.value new.value) (λ old new asked. new ≡ old))
            (either_left (exchange_left C.Link O.Link P.Transform) (λ w s. None))
            self.old self.new cx.old.log.state cx.new.log.state asked }
        ensures promises { KeepsPromises (EitherFits (ExchangeFits C.Link O.Link) (IsWaitOf C.Link))
            (EitherRight (λ t. IsRightFor t.value) (λ w group question reply. ⊤))
            (EitherMayAsk (λ t. MayAskGroup t.value) (λ w group. ⊥)) self.old self.new }
        ensures few { SetsAtMost (EitherFits (ExchangeFits C.Link O.Link) (IsWaitOf C.Link))
            self.old MOST_SET cx.old cx.new }
    {
        tell_world(&mut self.inside, role, asked, cx)
    }

    fn asked(&mut self, question: HookQuestion, cx: &mut Cx) -> HookReply {
        ask_world(&mut self.inside, question, cx)
    }

    ghost sound_taken = { session_sound_taken (link_of C.Link.tells C.Link.look C.Link.goes C.Link.still)
        (link_of O.Link.tells O.Link.look O.Link.goes O.Link.still)
        (stage_of P.Transform.rest P.Transform.soon P.Transform.line_soon P.Transform.whole P.Transform.pause
        P.Transform.line_pause) };

    ghost sound_given = { session_sound_given (link_of C.Link.tells C.Link.look C.Link.goes C.Link.still)
        (link_of O.Link.tells O.Link.look O.Link.goes O.Link.still)
        (stage_of P.Transform.rest P.Transform.soon P.Transform.line_soon P.Transform.whole P.Transform.pause
        P.Transform.line_pause) };

    ghost left_taken = { session_left_taken (link_of C.Link.tells C.Link.look C.Link.goes C.Link.still)
        (link_of O.Link.tells O.Link.look O.Link.goes O.Link.still)
        (stage_of P.Transform.rest P.Transform.soon P.Transform.line_soon P.Transform.whole P.Transform.pause
        P.Transform.line_pause) };

    ghost left_given = { session_left_given (link_of C.Link.tells C.Link.look C.Link.goes C.Link.still)
        (link_of O.Link.tells O.Link.look O.Link.goes O.Link.still)
        (stage_of P.Transform.rest P.Transform.soon P.Transform.line_soon P.Transform.whole P.Transform.pause
        P.Transform.line_pause) };

    ghost rests = { λ tag h s roles fits holds. session_rests tag s };
}

impl<C: Sourced + Drop, O: Upstream<C> + Drop, P: Transform<Line = TransformLine> + Drop> Rouse
    for SessionHandler<C, O, P> {
    fn rouse(&mut self, cx: &mut Cx) {
        rouse_world(&mut self.inside, cx)
    }
}
