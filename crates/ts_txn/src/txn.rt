//! A transaction as the world of a mutex group.
ghost use Rattle.std.specs.Prelude.{◌≡◌, ⊤, true, false, [], None, refl, ℕ};
ghost use Rattle.ts_group.specs.Answers.{Falls, Hears, IsAnswered, MatchWant};
ghost use Rattle.ts_group.specs.Calls.{IsCalled};
ghost use Rattle.ts_group.specs.declared.world.Want.TheVariants as Want;
ghost use Rattle.ts_plugin.specs.declared.question.HookQuestion.{HookQuestion};
ghost use Rattle.ts_transform.specs.Driving.{ActsWithin, IsDueAfter, SetsOnly};
ghost use Rattle.ts_txn.specs.Asking.{AwaitsTxn, HearsTxn, IsRightFor, MayAskGroup, pause_told};
ghost use Rattle.ts_txn.specs.CourseCover.{is_fresh_on, SetsOneOrNone};
ghost use Rattle.ts_txn.specs.Driven.{HandlesEvent, TakesEvent};
ghost use Rattle.ts_txn.specs.LoweringCourse.{transaction_left};
ghost use Rattle.ts_txn.specs.World.{IsTxnOf, HasTxnBegun, IsSoundTxn, LetsContinue, most_set};

use crate::continuation::begin;
use crate::course::Course;
use crate::course_events::advance;
use crate::course_leads::{AT_ONCE, after_step};
use std::mem::replace;
use std::snapshot::Snapshot;
use ts_config::{Setup, TransformLine};
use ts_group::{Asked, Cx, Want, World};
use ts_hooks::HookAnswer;
use ts_journal::{Event, Slotted};
use ts_link::Link;
use ts_phases::{Core, Phase, told_step};
use ts_plugin::{HookQuestion, HookReply};
use ts_transform::{StageContinuation, Transform};
use ts_upstream::Upstream;

/// One request and its answer between a client and an origin. Its continuation has the role 1; while a body
/// is passed on, its reader has the role 2, and the stages that it goes through have those that follow.
#[derive(Drop)]
pub struct Txn<C, O, P> {
    pub(crate) core: Core<C, O>,
    pub(crate) main: Option<StageContinuation>,
    pub(crate) course: Course<P>,
}

/// What a slot promises of the transaction in it. The setup and the links are for contracts alone, and take
/// no memory.
#[derive(Drop)]
pub struct TxnTag<C, O> {
    /// The number that it was made with.
    pub number: u64,
    /// What it was configured with.
    pub setup: Snapshot<Setup>,
    /// The group of the first plugin line.
    pub plugins_at: u32,
    /// The client's link as it was made.
    pub client: Snapshot<C>,
    /// The origin's link as it was made, if there is one.
    pub origin: Snapshot<Option<O>>,
    /// No call of a link fails or waits by its number.
    pub sure: bool,
    /// The slot had no other tenant before.
    pub first: bool,
    /// It was started.
    pub started: bool,
}

// Whether it was not started.
fn is_fresh<P>(course: &Course<P>) -> bool
    ensures { result ≡ is_fresh_on course.now }
{
    match course {
        Course::Phased(Phase::Fresh) => true,
        _ => false,
    }
}

impl<C: Link + Drop, O: Upstream<C> + Drop, P: Transform<Line = TransformLine> + Drop> Slotted
    for Txn<C, O, P> {
    type Tag = TxnTag<C, O>;

    type Trace = ();

    ghost fits = { λ tag t. IsTxnOf C.Link O.Link tag t };

    ghost stamp = { λ t. 0 };

    ghost marks = { λ t. [] };

    ghost trace = { λ t. tt };

    ghost follows = { λ t u. ⊤ };

    ghost follows_itself = { λ t. tt };

    ghost follows_on = { λ t u v a b. tt };
}

impl<C: Link + Drop, O: Upstream<C> + Drop, P: Transform<Line = TransformLine> + Drop> World
    for Txn<C, O, P> {
    type Question = HookQuestion;

    type Reply = HookReply;

    ghost sound = { λ t s roles.
        IsSoundTxn C.Link O.Link O.Upstream.own P.Transform t s.pending s.next roles };

    // It stands so while a plugin that it asked has not replied.
    ghost asking = { λ t s roles role group question.
        AwaitsTxn C.Link O.Link O.Upstream.own P.Transform t s.pending s.next roles group question };

    ghost right = { IsRightFor };

    ghost may_ask = { MayAskGroup };

    ghost answers = { λ t question reply. LetsContinue question reply };

    // Where both links tell, each event that is handled lowers it.
    ghost left = { λ t s. transaction_left C.Link O.Link O.Upstream.own P.Transform
        t.core t.course s.pending };

    ghost only_asked = { λ tag. false };

    ghost is_first = { λ tag. tag.first };

    ghost begun = { λ old new. HasTxnBegun old new };

    // A handler leads the same transaction on, or does nothing.
    ghost called = { λ old new asked. TakesEvent C.Link O.Link O.Upstream.own
        old.core new.core old.course new.course };

    // It is led on by what it was told, or has ended for want of memory.
    ghost heard = { HearsTxn };

    #[tactic(auto, using(crate::proofs::Promises::promises_start))]
    fn start(&mut self, cx: &mut Cx)
        requires turn { cx.old.log.state.held ≡ true }
        requires sound { IsSoundTxn C.Link O.Link O.Upstream.own P.Transform
            self.old cx.old.log.state.pending cx.old.log.state.next cx.old.roles }
        ensures sound { IsSoundTxn C.Link O.Link O.Upstream.own P.Transform
            self.new cx.new.log.state.pending cx.new.log.state.next cx.new.roles }
        ensures within { SetsOneOrNone cx.old cx.new }
        ensures begun { HasTxnBegun self.old self.new }
        ensures due { SetsOnly (IsDueAfter AT_ONCE cx.old.moment) cx.old cx.new }
        ensures rests { is_fresh_on self.old.course ≡ false → cx.new ≡ cx.old }
    {
        if !is_fresh(&self.course) {
            return;
        }
        self.course = begin(&mut self.main, cx);
    }

    #[tactic(auto, using(crate::proofs::Promises::promises_event))]
    fn handle(&mut self, role: u32, event: Event, cx: &mut Cx) -> Want<HookQuestion>
        requires turn { cx.old.log.state.held ≡ true }
        requires called { IsCalled
            (λ s roles. IsSoundTxn C.Link O.Link O.Upstream.own P.Transform
            self.old s.pending s.next roles)
            cx.old role event }
        ensures keeps { MatchWant result
            (IsSoundTxn C.Link O.Link O.Upstream.own P.Transform
            self.new cx.new.log.state.pending cx.new.log.state.next cx.new.roles)
            (λ group question. AwaitsTxn C.Link O.Link O.Upstream.own P.Transform
            self.new cx.new.log.state.pending cx.new.log.state.next cx.new.roles group question
            × MayAskGroup self.new group) }
        ensures within { ActsWithin most_set cx.old cx.new }
        ensures handles { HandlesEvent C.Link O.Link O.Upstream.own
            self.old.core self.new.core cx.old cx.new role self.old.main self.old.course self.new.course }
        ensures takes { TakesEvent C.Link O.Link O.Upstream.own
            self.old.core self.new.core self.old.course self.new.course }
        ensures lowers { (c : IsCalled
            (λ s roles. IsSoundTxn C.Link O.Link O.Upstream.own P.Transform
            self.old s.pending s.next roles)
            cx.old role event) → Falls
            (transaction_left C.Link O.Link O.Upstream.own P.Transform
            self.old.core self.old.course c.before.pending) 1
            (transaction_left C.Link O.Link O.Upstream.own P.Transform
            self.new.core self.new.course cx.new.log.state.pending) }
        ensures rests { (group : ℕ) (question : HookQuestion) → result ≡ Want.Ask group question
            → cx.new ≡ cx.old }
    {
        advance(
            &mut self.core,
            &mut self.main,
            &mut self.course,
            role,
            event,
            cx,
        )
    }

    #[tactic(auto, using(crate::proofs::Promises::promises_told))]
    fn told(&mut self, _role: u32, asked: Asked<HookQuestion, HookReply>, cx: &mut Cx)
        requires turn { cx.old.log.state.held ≡ true }
        requires asking { IsAnswered
            (AwaitsTxn C.Link O.Link O.Upstream.own P.Transform
            self.old cx.old.log.state.pending cx.old.log.state.next cx.old.roles)
            (IsRightFor self.old) asked }
        ensures sound { IsSoundTxn C.Link O.Link O.Upstream.own P.Transform
            self.new cx.new.log.state.pending cx.new.log.state.next cx.new.roles }
        ensures within { SetsOneOrNone cx.old cx.new }
        ensures hears { Hears HearsTxn
            (λ t s. transaction_left C.Link O.Link O.Upstream.own P.Transform t.core t.course s.pending)
            self.old self.new cx.old.log.state cx.new.log.state asked }
        ensures due { SetsOnly (IsDueAfter (pause_told asked) cx.old.moment) cx.old cx.new }
    {
        let was = replace(&mut self.course, Course::Phased(Phase::Fresh));
        let Course::Phased(phase) = was else {
            unreachable!()
        };
        let step = told_step(phase, asked);
        self.course = after_step(step, &mut self.main, cx);
    }

    // It stands at no hook: whoever asks it may continue, with the fields as they are.
    #[tactic(auto, using(crate::proofs::Handling::sound_asked, crate::proofs::LoweringCourse::asked_same))]
    fn asked(&mut self, question: HookQuestion, _cx: &mut Cx) -> HookReply {
        let HookQuestion {
            hook: _,
            host: _host,
            fields,
        } = question;
        HookReply {
            answer: Ok(HookAnswer::Continue),
            fields,
        }
    }

    ghost sound_taken = { λ t s turn seat roles h. h };

    ghost sound_given = { λ t s turn roles h. h };

    ghost left_taken = { λ t s turn seat. refl };

    ghost left_given = { λ t s turn. refl };

    ghost rests = { λ tag t s roles f h. tt };
}
