//! A world of one of two kinds, so that groups of both stand in one row.

ghost use Rattle.std.specs.Prelude.{⊤, ◌≡◌, true};
ghost use Rattle.ts_journal.specs.declared.entry.Entry.TheVariants.{Took, Gave};
ghost use Rattle.ts_journal.specs.State.{IsLive};
ghost use Rattle.ts_journal.specs.Machine.{after};
ghost use Rattle.ts_group.specs.Context.{IsOrderly, own_key};
ghost use Rattle.ts_group.specs.Entries.{Grows};
ghost use Rattle.ts_group.specs.Answers.{IsAnswered, Hears, KeepsPromises, SetsAtMost};
ghost use Rattle.ts_group.specs.Either.{either_of, OfBoth, EitherFits, tag_of, EitherSound, EitherAsking, EitherRight, EitherMayAsk, EitherAnswers, either_left, EitherCalled, EitherHeard, by_kind, same_by_kind, rests_by_kind};

use crate::cx::Cx;
use crate::rouse::Rouse;
use crate::world::{Asked, MOST_SET, Want, World};
use ts_journal::{Event, Slotted};

/// A world of one kind or of another. Both ask the same questions, and get the same replies.
#[derive(Drop)]
pub enum Either<A, B> {
    One(A),
    Other(B),
}

/// The tag of a world that is of one of two kinds: the tag of its kind.
#[derive(Drop)]
pub enum EitherTag<S, T> {
    One(S),
    Other(T),
}

/// It fits the tags of its kind.
impl<A: Slotted, B: Slotted> Slotted for Either<A, B> {
    type Tag = EitherTag<A::Tag, B::Tag>;

    type Trace = ();

    ghost fits = { EitherFits A.fits B.fits };

    ghost stamp = { either_of A.stamp B.stamp };

    ghost marks = { either_of A.marks B.marks };

    ghost trace = { λ w. tt };

    ghost follows = { λ t u. ⊤ };

    ghost follows_itself = { λ t. tt };

    ghost follows_on = { λ t u v a b. tt };
}

/// It is the world of its kind, and stays of that kind.
impl<A: World + Drop, B: World<Question = A::Question, Reply = A::Reply> + Drop> World
    for Either<A, B> {
    type Question = A::Question;

    type Reply = A::Reply;

    ghost sound = { EitherSound A.sound B.sound };

    ghost asking = { EitherAsking A.asking B.asking };

    ghost right = { EitherRight A.right B.right };

    ghost may_ask = { EitherMayAsk A.may_ask B.may_ask };

    ghost answers = { EitherAnswers A.answers B.answers };

    ghost left = { either_left A.left B.left };

    ghost only_asked = { tag_of A.only_asked B.only_asked };

    ghost is_first = { tag_of A.is_first B.is_first };

    ghost begun = { OfBoth A.begun B.begun };

    ghost called = { EitherCalled A.called B.called };

    ghost heard = { EitherHeard A.heard B.heard };

    fn start(&mut self, cx: &mut Cx) {
        match self {
            Either::One(one) => one.start(cx),
            Either::Other(other) => other.start(cx),
        }
    }

    fn handle(&mut self, role: u32, event: Event, cx: &mut Cx) -> Want<A::Question> {
        match self {
            Either::One(one) => one.handle(role, event, cx),
            Either::Other(other) => other.handle(role, event, cx),
        }
    }

    fn told(&mut self, role: u32, asked: Asked<A::Question, A::Reply>, cx: &mut Cx)
        requires turn { cx.old.log.state.held ≡ true }
        requires orderly { IsOrderly cx.old }
        requires asking { IsAnswered
            (EitherAsking A.asking B.asking self.old cx.old.log.state cx.old.roles role)
            (EitherRight A.right B.right self.old) asked }
        ensures grows { Grows cx.old cx.new }
        ensures sound { EitherSound A.sound B.sound self.new cx.new.log.state cx.new.roles }
        ensures hears { Hears (EitherHeard A.heard B.heard) (either_left A.left B.left)
            self.old self.new cx.old.log.state cx.new.log.state asked }
        ensures promises { KeepsPromises (EitherFits A.fits B.fits) (EitherRight A.right B.right)
            (EitherMayAsk A.may_ask B.may_ask) self.old self.new }
        ensures few { SetsAtMost (EitherFits A.fits B.fits) self.old MOST_SET cx.old cx.new }
    {
        match self {
            Either::One(one) => one.told(role, asked, cx),
            Either::Other(other) => other.told(role, asked, cx),
        }
    }

    fn asked(&mut self, question: A::Question, cx: &mut Cx) -> A::Reply {
        match self {
            Either::One(one) => one.asked(question, cx),
            Either::Other(other) => other.asked(question, cx),
        }
    }

    ghost sound_taken = { λ w s turn seat roles h. by_kind
        (λ a. A.sound a s roles) (λ a. A.sound a (after s (Took turn seat)) roles)
        (λ b. B.sound b s roles) (λ b. B.sound b (after s (Took turn seat)) roles)
        (λ a. A.sound_taken a s turn seat roles) (λ b. B.sound_taken b s turn seat roles) w h };

    ghost sound_given = { λ w s turn roles h. by_kind
        (λ a. A.sound a s roles) (λ a. A.sound a (after s (Gave turn)) roles)
        (λ b. B.sound b s roles) (λ b. B.sound b (after s (Gave turn)) roles)
        (λ a. A.sound_given a s turn roles) (λ b. B.sound_given b s turn roles) w h };

    ghost left_taken = { λ w s turn seat. same_by_kind
        (λ a. A.left a (after s (Took turn seat))) (λ a. A.left a s)
        (λ b. B.left b (after s (Took turn seat))) (λ b. B.left b s)
        (λ a. A.left_taken a s turn seat) (λ b. B.left_taken b s turn seat) w };

    ghost left_given = { λ w s turn. same_by_kind
        (λ a. A.left a (after s (Gave turn))) (λ a. A.left a s)
        (λ b. B.left b (after s (Gave turn))) (λ b. B.left b s)
        (λ a. A.left_given a s turn) (λ b. B.left_given b s turn) w };

    ghost rests = { λ t w s roles fits holds. rests_by_kind A.fits B.fits
        (λ a. A.sound a s roles) (λ b. B.sound b s roles) A.only_asked B.only_asked (IsLive s.live own_key)
        (λ t a. A.rests t a s roles) (λ t b. B.rests t b s roles) t w fits holds };
}

/// The events of its kind are brought forward.
impl<A: Rouse + Drop, B: Rouse<Question = A::Question, Reply = A::Reply> + Drop> Rouse
    for Either<A, B> {
    fn rouse(&mut self, cx: &mut Cx) {
        match self {
            Either::One(one) => one.rouse(cx),
            Either::Other(other) => other.rouse(cx),
        }
    }
}
