//! Worlds that ask nobody and come to an end: of them rows of groups are made, run and driven to their end.

ghost use Rattle.std.specs.Prelude.{◌≡◌, ℕ, ◌+◌, ◌≤◌, List, Bool, false, refl, IfOk, IsSome, unwrap_or, length};
ghost use Rattle.ts_journal.specs.State.{State};
ghost use Rattle.ts_group.specs.declared.action.Named.{Named};
ghost use Rattle.ts_group.specs.Answers.{Holds};
ghost use Rattle.ts_group.specs.Context.{IsFresh};
ghost use Rattle.ts_toys.specs.declared.peer.TheConstants.{MOST_TODO};
ghost use Rattle.ts_toys.specs.declared.toy.TheConstants.{MOST_WORK};
ghost use Rattle.ts_toys.specs.Toys.{StepperCounted, BurstCounted, HeirCounted, stepper_little, stepper_end, burst_little, burst_ends, heir_little, heir_ends};

use crate::burst::Burst;
use crate::heir::Heir;
use crate::steps::{Countdown, Stepper};
use std::alloc::Global;
use ts_group::{Group, World};
use ts_link::NoMemory;

/// How much a toy world has left to do at most, beside its pending events.
pub const MOST_WORK: u32 = 100_000;

/// A world that asks nobody and has so much to do, and no more.
pub trait Toy: World {
    /// The tag of the worlds that have so much to do in all.
    ghost tagged: { ℕ → Self.Tag → Type 0 };

    /// What such a world has counted at its end, where it had so much to do in all.
    ghost counted: { ℕ → Self → Type 0 };

    /// Whether each event that the world wanted was set.
    ghost whole: { Self → Bool };

    /// How much of its work it has done.
    ghost did: { Self → ℕ };

    /// The tag of the worlds that have so much to do in all.
    fn tag(todo: u32) -> Self::Tag
        ensures { tagged todo result };

    /// A group that has so much to do, and has had no turn.
    fn group(alloc: Global, todo: u32) -> Result<Group<Self>, NoMemory>
        requires { todo ≤ MOST_TODO }
        ensures fits { (t : Self.Tag) → tagged todo t → IfOk result (λ g. Self.fits t g.world) }
        ensures sound { IfOk result (λ g. Holds Self.sound g) }
        ensures fresh { IfOk result (λ g. IsFresh 0 g.cx) };

    /// Whether the world was started, and each event that it wanted was set.
    fn is_whole(&self) -> bool
        ensures { result ≡ whole self.now };

    /// How much of its work it has done.
    fn done(&self) -> u32
        ensures { result ≡ did self.now };

    /// It is not only asked.
    ghost works: { (todo : ℕ) (t : Self.Tag) → tagged todo t → Self.only_asked t ≡ false };

    /// It asks nobody.
    ghost alone: { (w : Self) (k : ℕ) → Self.may_ask w k → ⊥ };

    /// Whatever is replied is right.
    ghost fair: { (w v : Self) (k : ℕ) (q : Self.Question) (r : Self.Reply) →
        Self.answers v q r → Self.right w k q r };

    /// It tells what is left to do, which is not much more than the events that were set.
    ghost little: { (t : Self.Tag) (w : Self) (s : State) (roles : List Named) →
        Self.fits t w → Self.sound w s roles →
        IsSome (Self.left w s) × (unwrap_or (Self.left w s) 0 ≤ MOST_WORK + s.next) };

    /// It has counted its work when nothing is pending.
    ghost ends: { (todo : ℕ) (t : Self.Tag) (w : Self) (s : State) (roles : List Named) →
        tagged todo t → Self.fits t w → Self.sound w s roles → length s.pending ≡ 0 →
        counted todo w };
}

impl Toy for Stepper<Countdown> {
    ghost tagged = { λ todo t. t ≡ todo };

    ghost counted = { StepperCounted };

    ghost whole = { λ w. w.whole };

    ghost did = { λ w. w.done };

    fn tag(todo: u32) -> u32 {
        todo
    }

    fn group(alloc: Global, todo: u32) -> Result<Group<Stepper<Countdown>>, NoMemory> {
        let part = Countdown {
            left: u64::from(todo),
        };
        let world = Stepper {
            part,
            done: 0,
            whole: false,
        };
        Group::make(alloc, world, 0)
    }

    fn is_whole(&self) -> bool {
        self.whole
    }

    fn done(&self) -> u32 {
        self.done
    }

    ghost works = { λ todo t is. refl };

    ghost alone = { λ w k asks. asks };

    ghost fair = { λ w v k q r answers. tt };

    ghost little = { λ t w s roles fits sound. stepper_little w s sound };

    ghost ends = { λ todo t w s roles is fits sound none. stepper_end todo t w s is fits sound none };
}

impl Toy for Burst {
    ghost tagged = { λ todo t. t ≡ todo };

    ghost counted = { BurstCounted };

    ghost whole = { λ w. w.whole };

    ghost did = { λ w. w.done };

    fn tag(todo: u32) -> u32 {
        todo
    }

    fn group(alloc: Global, todo: u32) -> Result<Group<Burst>, NoMemory> {
        let world = Burst {
            target: None,
            bursts: todo,
            done: 0,
            handled: 0,
            whole: false,
        };
        Group::make(alloc, world, 0)
    }

    fn is_whole(&self) -> bool {
        self.whole
    }

    fn done(&self) -> u32 {
        self.done
    }

    ghost works = { λ todo t is. refl };

    ghost alone = { λ w k asks. asks };

    ghost fair = { λ w v k q r answers. tt };

    ghost little = { λ t w s roles fits sound. burst_little w s sound };

    ghost ends = { λ todo t w s roles is fits sound none. burst_ends todo t w s is fits sound none };
}

impl Toy for Heir {
    ghost tagged = { λ todo t. t ≡ todo };

    ghost counted = { HeirCounted };

    ghost whole = { λ w. w.whole };

    ghost did = { λ w. w.done };

    fn tag(todo: u32) -> u32 {
        todo
    }

    fn group(alloc: Global, todo: u32) -> Result<Group<Heir>, NoMemory> {
        let world = Heir {
            plain: true,
            key: None,
            heirs: todo,
            done: 0,
            whole: false,
        };
        Group::make(alloc, world, 0)
    }

    fn is_whole(&self) -> bool {
        self.whole
    }

    fn done(&self) -> u32 {
        self.done
    }

    ghost works = { λ todo t is. refl };

    ghost alone = { λ w k asks. asks };

    ghost fair = { λ w v k q r answers. tt };

    ghost little = { λ t w s roles fits sound. heir_little t w s fits sound };

    ghost ends = { λ todo t w s roles is fits sound none. heir_ends todo t w s is fits sound none };
}
