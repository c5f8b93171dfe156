//! A client that waits is a world: it polls, answers whoever asks that it may continue, and asks nobody.
ghost use Rattle.std.specs.Prelude.{⊤, ◌≡◌, true, false, [], None, refl};
ghost use Rattle.ts_group.specs.Answers.{MatchWant};
ghost use Rattle.ts_group.specs.Calls.{IsCalled};
ghost use Rattle.ts_group.specs.Entries.{Grows};
ghost use Rattle.ts_journal.specs.declared.entry.Entry.TheVariants.{Took, Gave};
ghost use Rattle.ts_journal.specs.Machine.{after};
ghost use Rattle.ts_waiting.specs.Waiting.{BeginsAfter, BeginsWait, HastensPoll, IsSoundWait, IsWaitOf, KeepsWait};
ghost use Rattle.ts_waiting.specs.Waiting.{LetsContinue, RetriesAfter, SetsOne, TakesPoll, waits_on};

use crate::polling::{AT_ONCE, WaitState, begin_polling, hasten_poll, poll_once};
use crate::waiting::{WaitTag, Waiting};
use ts_group::{Asked, Cx, Rouse, Want, World};
use ts_hooks::HookAnswer;
use ts_journal::{Event, Slotted};
use ts_link::{RETRY_AFTER, Sourced};
use ts_plugin::{HookQuestion, HookReply};

impl<C: Sourced + Drop, L: Drop> Slotted for Waiting<C, L> {
    type Tag = WaitTag<C, L>;

    type Trace = ();

    ghost fits = { IsWaitOf C.Link };

    ghost stamp = { λ w. 0 };

    ghost marks = { λ w. [] };

    ghost trace = { λ w. tt };

    ghost follows = { λ t u. ⊤ };

    ghost follows_itself = { λ t. tt };

    ghost follows_on = { λ t u v a b. tt };
}

#[tactic(auto, using(ts_group::proofs::Grows::grows_refl))]
impl<C: Sourced + Drop, L: Drop> World for Waiting<C, L> {
    type Question = HookQuestion;

    type Reply = HookReply;

    ghost sound = { λ w s roles. IsSoundWait C.Link w s };

    // It asks nobody.
    ghost asking = { λ w s roles role group question. IsSoundWait C.Link w s };

    ghost right = { λ w group question reply. ⊤ };

    ghost may_ask = { λ w group. ⊥ };

    ghost answers = { λ w question reply. LetsContinue question reply };

    // Nothing bounds how often a client is polled.
    ghost left = { λ w s. None };

    ghost only_asked = { λ tag. false };

    ghost is_first = { λ tag. false };

    ghost begun = { λ old new. BeginsWait old.state old new };

    ghost called = { λ old new calls. TakesPoll C.Link old.state old new };

    ghost heard = { λ old new asked. new ≡ old };

    fn start(&mut self, cx: &mut Cx)
        requires turn { cx.old.log.state.held ≡ true }
        requires sound { IsSoundWait C.Link self.old cx.old.log.state }
        ensures sound { IsSoundWait C.Link self.new cx.new.log.state }
        ensures begun { BeginsWait self.old.state self.old self.new }
        ensures due { BeginsAfter AT_ONCE self.old.state self.new.state cx.old cx.new }
        ensures promises { KeepsWait C.Link self.old self.new }
        ensures few { SetsOne cx.old cx.new }
        ensures grows { Grows cx.old cx.new }
    {
        if let WaitState::Unstarted = self.state {
            self.state = begin_polling(cx);
        }
    }

    fn handle(&mut self, _role: u32, _event: Event, cx: &mut Cx) -> Want<HookQuestion>
        requires turn { cx.old.log.state.held ≡ true }
        requires called { IsCalled (λ s roles. IsSoundWait C.Link self.old s) cx.old _role _event }
        ensures keeps { MatchWant result (IsSoundWait C.Link self.new cx.new.log.state)
            (λ group question. ⊥) }
        ensures takes { TakesPoll C.Link self.old.state self.old self.new }
        ensures due { RetriesAfter RETRY_AFTER self.old.state self.new.state cx.old cx.new }
        ensures promises { KeepsWait C.Link self.old self.new }
        ensures few { SetsOne cx.old cx.new }
        ensures grows { Grows cx.old cx.new }
    {
        let WaitState::Polling(key) = self.state else {
            return Want::Nothing;
        };
        self.state = poll_once(&mut self.span, key, cx);
        Want::Nothing
    }

    fn told(&mut self, _role: u32, _asked: Asked<HookQuestion, HookReply>, _cx: &mut Cx)
        requires turn { _cx.old.log.state.held ≡ true }
        requires sound { IsSoundWait C.Link self.old _cx.old.log.state }
        ensures grows { Grows _cx.old _cx.new }
        ensures same { (_cx.new.log.state ≡ _cx.old.log.state) × (self.new ≡ self.old) }
    {}

    // Whoever asks may continue, with the fields as they are.
    fn asked(&mut self, question: HookQuestion, _cx: &mut Cx) -> HookReply {
        let HookQuestion {
            hook: _,
            host: _host,
            fields,
        } = question;
        HookReply {
            answer: Ok(HookAnswer::Continue),
            fields,
        }
    }

    ghost sound_taken = { λ w s turn seat roles h. record {
      waits = waits_on w.state s (after s (Took turn seat)) refl refl refl h.waits;
      holds = h.holds;
    } };

    ghost sound_given = { λ w s turn roles h. record {
      waits = waits_on w.state s (after s (Gave turn)) refl refl refl h.waits;
      holds = h.holds;
    } };

    ghost left_taken = { λ w s turn seat. refl };

    ghost left_given = { λ w s turn. refl };

    ghost rests = { λ tag w s roles f h. tt };
}

/// The next poll is brought forward.
#[tactic(auto, using(ts_group::proofs::Grows::grows_refl))]
impl<C: Sourced + Drop, L: Drop> Rouse for Waiting<C, L> {
    fn rouse(&mut self, cx: &mut Cx)
        requires turn { cx.old.log.state.held ≡ true }
        requires sound { IsSoundWait C.Link self.old cx.old.log.state }
        ensures sound { IsSoundWait C.Link self.new cx.new.log.state }
        ensures same { self.new ≡ self.old }
        ensures hastens { HastensPoll self.old.state cx.old cx.new }
        ensures promises { KeepsWait C.Link self.old self.new }
        ensures few { SetsOne cx.old cx.new }
        ensures grows { Grows cx.old cx.new }
    {
        hasten_poll(&self.state, cx);
    }
}
