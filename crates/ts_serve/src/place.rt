//! A place in a mutex slot, in which worlds live one after the other.

ghost use Rattle.std.specs.Prelude.{⊤, ◌≡◌, true, false, [], refl};
ghost use Rattle.ts_journal.specs.declared.entry.Entry.TheVariants.{Took, Gave};
ghost use Rattle.ts_journal.specs.Machine.{after};
ghost use Rattle.ts_group.specs.Answers.{IsAnswered, Hears, KeepsPromises, SetsAtMost};
ghost use Rattle.ts_group.specs.Context.{IsOrderly};
ghost use Rattle.ts_group.specs.Entries.{Grows};
ghost use Rattle.ts_serve.specs.Places.{PlaceFits, PlaceSound, PlaceAsking, PlaceRight, PlaceMayAsk};
ghost use Rattle.ts_serve.specs.Places.{PlaceAnswers, place_left, PlaceBegun, PlaceCalled, PlaceHeard};
ghost use Rattle.ts_serve.specs.Places.{sound_on, left_on};

use crate::tenant::Tenant;
use ts_group::{Asked, Cx, Either, Group, MOST_SET, Rouse, Want, World};
use ts_journal::{Event, Slotted};

/// A place for worlds, one after the other.
#[derive(Drop)]
pub enum Place<W> {
    Empty,
    Tenant(W),
}

/// The group of a place, or of a world that stands beside the places and is only asked.
pub type PlaceGroup<W, P> = Group<Either<Place<W>, P>>;

/// Whoever lives in it fits a tag of its own, which keeps the terms of the place.
impl<W: Tenant> Slotted for Place<W> {
    type Tag = W::Terms;

    type Trace = ();

    ghost fits = { PlaceFits W.fits W.keeps };

    ghost stamp = { λ p. 0 };

    ghost marks = { λ p. [] };

    ghost trace = { λ p. tt };

    ghost follows = { λ t u. ⊤ };

    ghost follows_itself = { λ t. tt };

    ghost follows_on = { λ t u v a b. tt };
}

/// It is the world that lives in it. In an empty place nothing is pending, and no call of a world empties
/// one.
#[tactic(auto, using(ts_group::proofs::Grows::grows_refl))]
impl<W: Tenant + Drop> World for Place<W> {
    type Question = W::Question;

    type Reply = W::Reply;

    ghost sound = { PlaceSound W.sound };

    ghost asking = { PlaceAsking W.asking };

    ghost right = { PlaceRight W.right };

    ghost may_ask = { PlaceMayAsk W.may_ask };

    ghost answers = { PlaceAnswers W.answers };

    ghost left = { place_left W.left };

    ghost only_asked = { λ terms. false };

    ghost is_first = { λ terms. false };

    ghost begun = { PlaceBegun W.begun };

    ghost called = { PlaceCalled W.called };

    ghost heard = { PlaceHeard W.heard };

    fn start(&mut self, cx: &mut Cx) {
        match self {
            Place::Empty => {}
            Place::Tenant(tenant) => tenant.start(cx),
        }
    }

    fn handle(&mut self, role: u32, event: Event, cx: &mut Cx) -> Want<W::Question> {
        match self {
            Place::Empty => unreachable!(),
            Place::Tenant(tenant) => tenant.handle(role, event, cx),
        }
    }

    fn told(&mut self, role: u32, asked: Asked<W::Question, W::Reply>, cx: &mut Cx)
        requires turn { cx.old.log.state.held ≡ true }
        requires orderly { IsOrderly cx.old }
        requires asking { IsAnswered
            (PlaceAsking W.asking self.old cx.old.log.state cx.old.roles role)
            (PlaceRight W.right self.old) asked }
        ensures grows { Grows cx.old cx.new }
        ensures sound { PlaceSound W.sound self.new cx.new.log.state cx.new.roles }
        ensures hears { Hears (PlaceHeard W.heard) (place_left W.left)
            self.old self.new cx.old.log.state cx.new.log.state asked }
        ensures promises { KeepsPromises (PlaceFits W.fits W.keeps) (PlaceRight W.right)
            (PlaceMayAsk W.may_ask) self.old self.new }
        ensures few { SetsAtMost (PlaceFits W.fits W.keeps) self.old MOST_SET cx.old cx.new }
    {
        match self {
            Place::Empty => unreachable!(),
            Place::Tenant(tenant) => tenant.told(role, asked, cx),
        }
    }

    fn asked(&mut self, question: W::Question, cx: &mut Cx) -> W::Reply {
        match self {
            Place::Empty => W::reply_empty(question),
            Place::Tenant(tenant) => tenant.asked(question, cx),
        }
    }

    ghost sound_taken = { λ p s turn seat roles h. sound_on W.sound s (after s (Took turn seat)) roles refl
        (λ w. W.sound_taken w s turn seat roles) p h };

    ghost sound_given = { λ p s turn roles h. sound_on W.sound s (after s (Gave turn)) roles refl
        (λ w. W.sound_given w s turn roles) p h };

    ghost left_taken = { λ p s turn seat. left_on W.left (after s (Took turn seat)) s
        (λ w. W.left_taken w s turn seat) p };

    ghost left_given = { λ p s turn. left_on W.left (after s (Gave turn)) s
        (λ w. W.left_given w s turn) p };

    ghost rests = { λ terms p s roles fits holds. tt };
}

/// Whoever lives in it brings its events forward. In an empty place nothing is pending.
#[tactic(auto, using(ts_group::proofs::Grows::grows_refl))]
impl<W: Tenant + Drop> Rouse for Place<W> {
    fn rouse(&mut self, cx: &mut Cx) {
        match self {
            Place::Empty => {}
            Place::Tenant(tenant) => tenant.rouse(cx),
        }
    }
}
