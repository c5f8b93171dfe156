//! A transaction with its layers, as it stands in a place: a type of its own, so that whoever runs the places
//! does not meet the types of the layers.

ghost use Rattle.std.specs.Prelude.{⊤, ◌≡◌, ◌++◌, ℕ, List, [], true, false, refl};
ghost use Rattle.ts_group.specs.Answers.{Falls, Hears, IsAnswered, KeepsPromises, MatchWant};
ghost use Rattle.ts_group.specs.Answers.{SetsAtMost, SetsNone};
ghost use Rattle.ts_group.specs.Calls.{IsAsked, IsCalled};
ghost use Rattle.ts_group.specs.Context.{IsOrderly};
ghost use Rattle.ts_group.specs.Entries.{Grows};
ghost use Rattle.ts_layers.specs.Links.{client_link, origin_link, origin_uploads};
ghost use Rattle.ts_txn.specs.Asking.{AwaitsTxn, HearsTxn, IsRightFor, MayAskGroup};
ghost use Rattle.ts_txn.specs.Driven.{TakesEvent};
ghost use Rattle.ts_txn.specs.LoweringCourse.{transaction_left};
ghost use Rattle.ts_txn.specs.World.{HasTxnBegun, IsSoundTxn, IsTxnOf, LetsContinue};
ghost use Rattle.ts_serve.specs.Places.{FitsAtPlace};

use std::marker::Model;
use ts_config::TransformLine;
use ts_group::{Asked, Cx, MOST_SET, Rouse, Want, World};
use ts_journal::{Event, Slotted};
use ts_layers::{LayeredExchange, LayeredTag};
use ts_link::{Link, Sourced};
use ts_plugin::{HookQuestion, HookReply};
use ts_transform::Transform;
use ts_upstream::Upstream;

/// What is there at a place among the transactions of a client.
#[derive(Drop)]
pub struct AtPlace<T> {
    pub value: T,
    /// Counted from 1.
    pub place: u32,
}

/// A transaction with its layers, as it stands in a place.
#[derive(Drop)]
pub struct PlacedExchange<C: Link, O: Link, P> {
    pub(crate) exchange: LayeredExchange<C, O, P>,
    /// The place of the transaction among those of its client, counted from 1.
    pub(crate) place: u32,
}

impl<C: Link, O: Link, P> Model for PlacedExchange<C, O, P> {
    ghost use Rattle.ts_layers.specs.Links.{ClientEnd, OriginEnd};
    ghost use Rattle.ts_serve.specs.declared.placed.AtPlace.{AtPlace};
    ghost use Rattle.ts_txn.specs.declared.txn.Txn.{Txn};

    ghost Value = { AtPlace (Txn (ClientEnd C) (OriginEnd O P) P) };

    ghost view = { λ e. record { value = e.exchange; place = e.place } };
}

impl<C: Sourced + Drop, O: Upstream<C> + Drop, P: Transform<Line = TransformLine> + Drop> Slotted
    for PlacedExchange<C, O, P> {
    type Tag = AtPlace<LayeredTag<C, O, P>>;

    type Trace = ();

    ghost fits = { FitsAtPlace (IsTxnOf (client_link C.Link) (origin_link O.Link)) };

    ghost stamp = { λ t. 0 };

    ghost marks = { λ t. [] };

    ghost trace = { λ t. tt };

    ghost follows = { λ t u. ⊤ };

    ghost follows_itself = { λ t. tt };

    ghost follows_on = { λ t u v a b. tt };
}

// Starts a world.
pub(crate) fn start_world<W: World>(world: &mut W, cx: &mut Cx)
    requires turn { cx.old.log.state.held ≡ true }
    requires orderly { IsOrderly cx.old }
    requires sound { W.sound world.old cx.old.log.state cx.old.roles }
    ensures grows { Grows cx.old cx.new }
    ensures sound { W.sound world.new cx.new.log.state cx.new.roles }
    ensures begun { W.begun world.old world.new }
    ensures promises { KeepsPromises W.fits W.right W.may_ask world.old world.new }
    ensures few { SetsAtMost W.fits world.old MOST_SET cx.old cx.new }
{
    world.start(cx)
}

// Calls the handler of a role of a world with an event.
pub(crate) fn handle_event<W: World>(
    world: &mut W,
    role: u32,
    event: Event,
    cx: &mut Cx,
) -> Want<W::Question>
    requires turn { cx.old.log.state.held ≡ true }
    requires called { IsCalled (W.sound world.old) cx.old role event }
    ensures grows { Grows cx.old cx.new }
    ensures keeps { MatchWant result
        (W.sound world.new cx.new.log.state cx.new.roles)
        (λ group question. W.asking world.new cx.new.log.state cx.new.roles role group question
        × W.may_ask world.new group) }
    ensures falls { (c : IsCalled (W.sound world.old) cx.old role event) →
        Falls (W.left world.old c.before) 1 (W.left world.new cx.new.log.state) }
    ensures called { (asked : List ℕ) →
        cx.new.calls ≡ cx.old.calls ++ asked → W.called world.old world.new asked }
    ensures promises { KeepsPromises W.fits W.right W.may_ask world.old world.new }
    ensures few { SetsAtMost W.fits world.old MOST_SET cx.old cx.new }
{
    world.handle(role, event, cx)
}

// Tells the handler of a role of a world, which asked, what came of it.
pub(crate) fn tell_world<W: World>(
    world: &mut W,
    role: u32,
    asked: Asked<W::Question, W::Reply>,
    cx: &mut Cx,
)
    requires turn { cx.old.log.state.held ≡ true }
    requires orderly { IsOrderly cx.old }
    requires asking { IsAnswered
        (W.asking world.old cx.old.log.state cx.old.roles role) (W.right world.old) asked }
    ensures grows { Grows cx.old cx.new }
    ensures sound { W.sound world.new cx.new.log.state cx.new.roles }
    ensures hears { Hears W.heard W.left world.old world.new cx.old.log.state cx.new.log.state asked }
    ensures promises { KeepsPromises W.fits W.right W.may_ask world.old world.new }
    ensures few { SetsAtMost W.fits world.old MOST_SET cx.old cx.new }
{
    world.told(role, asked, cx)
}

// Asks a world a question.
pub(crate) fn ask_world<W: World>(world: &mut W, question: W::Question, cx: &mut Cx) -> W::Reply
    requires turn { cx.old.log.state.held ≡ true }
    requires asked { IsAsked (W.sound world.old) cx.old }
    ensures grows { Grows cx.old cx.new }
    ensures sound { W.sound world.new cx.new.log.state cx.new.roles }
    ensures answers { W.answers world.old question result }
    ensures falls { (c : IsAsked (W.sound world.old) cx.old) →
        Falls (W.left world.old c.before) 0 (W.left world.new cx.new.log.state) }
    ensures promises { KeepsPromises W.fits W.right W.may_ask world.old world.new }
    ensures none { SetsNone W.fits world.old cx.old cx.new }
{
    world.asked(question, cx)
}

// Brings forward what a world waits with.
pub(crate) fn rouse_world<W: Rouse>(world: &mut W, cx: &mut Cx)
    requires turn { cx.old.log.state.held ≡ true }
    requires orderly { IsOrderly cx.old }
    requires sound { W.sound world.old cx.old.log.state cx.old.roles }
    ensures grows { Grows cx.old cx.new }
    ensures sound { W.sound world.new cx.new.log.state cx.new.roles }
    ensures falls { Falls (W.left world.old cx.old.log.state) 0 (W.left world.new cx.new.log.state) }
    ensures promises { KeepsPromises W.fits W.right W.may_ask world.old world.new }
    ensures few { SetsAtMost W.fits world.old MOST_SET cx.old cx.new }
{
    world.rouse(cx)
}

/// It is the transaction in it. Its place stays.
impl<C: Sourced + Drop, O: Upstream<C> + Drop, P: Transform<Line = TransformLine> + Drop> World
    for PlacedExchange<C, O, P> {
    type Question = HookQuestion;

    type Reply = HookReply;

    ghost sound = { λ t s roles. IsSoundTxn (client_link C.Link) (origin_link O.Link)
        (origin_uploads C.Link O.Link O.Upstream.own P.Transform) P.Transform t.value s.pending s.next
        roles };

    ghost asking = { λ t s roles role group question. AwaitsTxn (client_link C.Link) (origin_link O.Link)
        (origin_uploads C.Link O.Link O.Upstream.own P.Transform) P.Transform t.value s.pending s.next roles
        group
        question };

    ghost right = { λ t. IsRightFor t.value };

    ghost may_ask = { λ t. MayAskGroup t.value };

    ghost answers = { λ t question reply. LetsContinue question reply };

    ghost left = { λ t s. transaction_left (client_link C.Link) (origin_link O.Link)
        (origin_uploads C.Link O.Link O.Upstream.own P.Transform) P.Transform t.value.core t.value.course
        s.pending };

    ghost only_asked = { λ tag. false };

    ghost is_first = { λ tag. tag.value.first };

    ghost begun = { λ old new. HasTxnBegun old.value new.value };

    ghost called = { λ old new asked. TakesEvent (client_link C.Link) (origin_link O.Link)
        (origin_uploads C.Link O.Link O.Upstream.own P.Transform) old.value.core new.value.core
        old.value.course
        new.value.course };

    ghost heard = { λ old new. HearsTxn old.value new.value };

    fn start(&mut self, cx: &mut Cx) {
        start_world(&mut self.exchange, cx)
    }

    fn handle(&mut self, role: u32, event: Event, cx: &mut Cx) -> Want<HookQuestion> {
        handle_event(&mut self.exchange, role, event, cx)
    }

    fn told(&mut self, role: u32, asked: Asked<HookQuestion, HookReply>, cx: &mut Cx)
        requires turn { cx.old.log.state.held ≡ true }
        requires orderly { IsOrderly cx.old }
        requires asking { IsAnswered
            (AwaitsTxn (client_link C.Link) (origin_link O.Link)
            (origin_uploads C.Link O.Link O.Upstream.own P.Transform) P.Transform
            self.old.value cx.old.log.state.pending cx.old.log.state.next cx.old.roles)
            (IsRightFor self.old.value) asked }
        ensures grows { Grows cx.old cx.new }
        ensures sound { IsSoundTxn (client_link C.Link) (origin_link O.Link)
            (origin_uploads C.Link O.Link O.Upstream.own P.Transform) P.Transform
            self.new.value cx.new.log.state.pending cx.new.log.state.next cx.new.roles }
        ensures hears { Hears (λ old new. HearsTxn old.value new.value)
            (λ t s. transaction_left (client_link C.Link) (origin_link O.Link)
            (origin_uploads C.Link O.Link O.Upstream.own P.Transform) P.Transform t.value.core t.value.course
            s.pending)
            self.old self.new cx.old.log.state cx.new.log.state asked }
        ensures promises { KeepsPromises (FitsAtPlace (IsTxnOf (client_link C.Link) (origin_link O.Link)))
            (λ t. IsRightFor t.value) (λ t. MayAskGroup t.value) self.old self.new }
        ensures few { SetsAtMost (FitsAtPlace (IsTxnOf (client_link C.Link) (origin_link O.Link)))
            self.old MOST_SET cx.old cx.new }
    {
        tell_world(&mut self.exchange, role, asked, cx)
    }

    fn asked(&mut self, question: HookQuestion, cx: &mut Cx) -> HookReply {
        ask_world(&mut self.exchange, question, cx)
    }

    ghost sound_taken = { λ t s turn seat roles h. h };

    ghost sound_given = { λ t s turn roles h. h };

    ghost left_taken = { λ t s turn seat. refl };

    ghost left_given = { λ t s turn. refl };

    ghost rests = { λ tag t s roles f h. tt };
}

impl<C: Sourced + Drop, O: Upstream<C> + Drop, P: Transform<Line = TransformLine> + Drop> Rouse
    for PlacedExchange<C, O, P> {
    fn rouse(&mut self, cx: &mut Cx) {
        rouse_world(&mut self.exchange, cx)
    }
}
