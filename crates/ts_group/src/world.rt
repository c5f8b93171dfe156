//! The trait of a group's data and of the handlers of its continuations.

ghost use Rattle.std.specs.Prelude.{◌≡◌, ◌++◌, ℕ, Option, List, true, Bool};
ghost use Rattle.std.specs.Bool.{OnTrue};
ghost use Rattle.ts_journal.specs.declared.entry.Entry.TheVariants.{Took, Gave};
ghost use Rattle.ts_journal.specs.State.{State, IsLive};
ghost use Rattle.ts_journal.specs.Machine.{after};
ghost use Rattle.ts_group.specs.declared.action.Named.{Named};
ghost use Rattle.ts_group.specs.declared.world.Asked.{Asked};
ghost use Rattle.ts_group.specs.Context.{IsOrderly, own_key};
ghost use Rattle.ts_group.specs.Entries.{Grows};
ghost use Rattle.ts_group.specs.Calls.{IsCalled, IsAsked};
ghost use Rattle.ts_group.specs.Answers.{MatchWant, IsAnswered, Falls, Hears, KeepsPromises, SetsAtMost, SetsNone};

use crate::cx::Cx;
use ts_journal::{Event, Slotted};

/// How many events one call of a world's handler sets at most, where the world fits a tag.
pub const MOST_SET: u32 = 100;

/// What a handler wants when it returns.
#[derive(Drop)]
pub enum Want<Q> {
    Nothing,
    /// The reply of another group to a question. The handler is told it.
    Ask { group: u32, question: Q },
}

/// What came of a question.
#[derive(Drop)]
pub enum Asked<Q, R> {
    Reply(R),
    /// The group was held by another seat; its word of the slot said so.
    Missed { seen: u64, question: Q },
    NoMemory(Q),
}

/// What came of handling an event.
#[derive(Drop)]
pub enum Handling<Q> {
    /// So many events were handled: the one that was named, and direct calls.
    Handled {
        events: u32,
    },
    /// The last handler that ran wants to ask.
    Asks {
        events: u32,
        group: u32,
        question: Q,
    },
    /// The number is not pending.
    NotPending,
    /// The event is due later.
    NotDue {
        due: u64,
    },
}

/// The data and the handlers of a group's continuations.
pub trait World: Slotted {
    /// What a handler asks another group.
    type Question;

    /// What comes back for a question.
    type Reply;

    /// What holds of the world, the group's state and the roles of its keys between calls.
    ghost sound: { Self → State → List Named → Type 0 };

    /// What holds in place of `sound` while the handler of a role waits for the reply of a group to a
    /// question.
    ghost asking: { Self → State → List Named → ℕ → ℕ → Self.Question → Type 0 };

    /// A reply of a group to a question is right, for this world that asks.
    ghost right: { Self → ℕ → Self.Question → Self.Reply → Type 0 };

    /// The groups that the world may ask.
    ghost may_ask: { Self → ℕ → Type 0 };

    /// The replies that the world gives to a question.
    ghost answers: { Self → Self.Question → Self.Reply → Type 0 };

    /// What the world still has to do, where it tells it. Each event that is handled makes it less.
    ghost left: { Self → State → Option ℕ };

    /// A world that fits the tag is only asked, and never called with an event of its own.
    ghost only_asked: { Self.Tag → Bool };

    /// The slot of a world that fits the tag has no other tenant before it: its group was made with no turns.
    ghost is_first: { Self.Tag → Bool };

    /// What `start` made of the world.
    ghost begun: { Self → Self → Type 0 };

    /// The numbers of the direct calls, in order, that a handler asked for which led from one world to the
    /// other.
    ghost called: { Self → Self → List ℕ → Type 0 };

    /// What a handler, which asked, was told that came of it and which led from one world to the other.
    ghost heard: { Self → Self → Asked Self.Question Self.Reply → Type 0 };

    /// Sets the first events.
    fn start(&mut self, cx: &mut Cx)
        requires turn { cx.old.log.state.held ≡ true }
        requires orderly { IsOrderly cx.old }
        requires sound { sound self.old cx.old.log.state cx.old.roles }
        ensures grows { Grows cx.old cx.new }
        ensures sound { sound self.new cx.new.log.state cx.new.roles }
        ensures begun { begun self.old self.new }
        ensures promises { KeepsPromises Self.fits right may_ask self.old self.new }
        ensures few { SetsAtMost Self.fits self.old MOST_SET cx.old cx.new };

    /// The handler of a role is called with an event.
    fn handle(&mut self, role: u32, event: Event, cx: &mut Cx) -> Want<Self::Question>
        requires turn { cx.old.log.state.held ≡ true }
        requires called { IsCalled (sound self.old) cx.old role event }
        ensures grows { Grows cx.old cx.new }
        ensures keeps { MatchWant result
            (sound self.new cx.new.log.state cx.new.roles)
            (λ group question.
            asking self.new cx.new.log.state cx.new.roles role group question × may_ask self.new group) }
        ensures falls { (c : IsCalled (sound self.old) cx.old role event) →
            Falls (left self.old c.before) 1 (left self.new cx.new.log.state) }
        ensures called { (asked : List ℕ) →
            cx.new.calls ≡ cx.old.calls ++ asked → called self.old self.new asked }
        ensures promises { KeepsPromises Self.fits right may_ask self.old self.new }
        ensures few { SetsAtMost Self.fits self.old MOST_SET cx.old cx.new };

    /// The handler of a role, which asked, is told what came of it.
    fn told(&mut self, role: u32, asked: Asked<Self::Question, Self::Reply>, cx: &mut Cx)
        requires turn { cx.old.log.state.held ≡ true }
        requires orderly { IsOrderly cx.old }
        requires asking { IsAnswered
            (asking self.old cx.old.log.state cx.old.roles role) (right self.old) asked }
        ensures grows { Grows cx.old cx.new }
        ensures sound { sound self.new cx.new.log.state cx.new.roles }
        ensures hears { Hears heard left self.old self.new cx.old.log.state cx.new.log.state asked }
        ensures promises { KeepsPromises Self.fits right may_ask self.old self.new }
        ensures few { SetsAtMost Self.fits self.old MOST_SET cx.old cx.new };

    /// The group's own continuation is asked.
    fn asked(&mut self, question: Self::Question, cx: &mut Cx) -> Self::Reply
        requires turn { cx.old.log.state.held ≡ true }
        requires asked { IsAsked (sound self.old) cx.old }
        ensures grows { Grows cx.old cx.new }
        ensures sound { sound self.new cx.new.log.state cx.new.roles }
        ensures answers { answers self.old question result }
        ensures falls { (c : IsAsked (sound self.old) cx.old) →
            Falls (left self.old c.before) 0 (left self.new cx.new.log.state) }
        ensures promises { KeepsPromises Self.fits right may_ask self.old self.new }
        ensures none { SetsNone Self.fits self.old cx.old cx.new };

    /// What holds of the world stays when a turn is taken.
    ghost sound_taken: { (w : Self) (s : State) (turn seat : ℕ) (roles : List Named) →
        sound w s roles → sound w (after s (Took turn seat)) roles };

    /// What holds of the world stays when a turn is given back.
    ghost sound_given: { (w : Self) (s : State) (turn : ℕ) (roles : List Named) →
        sound w s roles → sound w (after s (Gave turn)) roles };

    /// What is left to do stays when a turn is taken.
    ghost left_taken: { (w : Self) (s : State) (turn seat : ℕ) →
        left w (after s (Took turn seat)) ≡ left w s };

    /// What is left to do stays when a turn is given back.
    ghost left_given: { (w : Self) (s : State) (turn : ℕ) → left w (after s (Gave turn)) ≡ left w s };

    /// The group's own key is live where its world is only asked.
    ghost rests: { (t : Self.Tag) (w : Self) (s : State) (roles : List Named) →
        Self.fits t w → sound w s roles → OnTrue (only_asked t) (IsLive s.live own_key) };
}
