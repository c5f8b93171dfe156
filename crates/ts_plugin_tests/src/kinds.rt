//! Worlds of one of two kinds, of which each is handled, asked and told as the world of its kind.

ghost use Rattle.std.specs.Prelude.{◌≡◌, None, false, true, IsSome};
ghost use Rattle.ts_group.specs.Answers.{Holds};
ghost use Rattle.ts_group.specs.Context.{Context, IsFresh};
ghost use Rattle.ts_journal.specs.State.{State};

use crate::asking::MEMORY;
use std::process::Abort;
use ts_group::{Either, Group, Handling, ONLY_SEAT, World};
use ts_toys::burst::{Burst, CALLS};
use ts_toys::drive::{Driven, ask_for, drive};
use ts_toys::peer::{ASKED, Peer};
use ts_toys::steps::{Countdown, Stepper};

// What a test says whose world is of the other kind.
const KIND: &str = "it stays of its kind";

// A group of a world that was started in its first turn, which is still held.
fn begin<W: World + Drop>(rt: &(impl AllocGlobal + Abort), world: W) -> Group<W>
    requires { (now : Context) → IsFresh 0 now → W.sound world now.log.state now.roles }
    ensures turn { result.cx.log.state.held ≡ true }
    ensures sound { Holds W.sound result }
{
    let mut group = Group::make(rt.alloc(), world, 0).expect(rt, MEMORY);
    group.begin_turn(1, ONLY_SEAT, 0).expect(rt, MEMORY);
    group.start();
    group
}

// A group of a world that was started and driven until nothing was pending.
fn run<W: World + Drop>(rt: &(impl AllocGlobal + Abort), world: W) -> Group<W>
where
    W::Question: Drop,
    requires fresh { (now : Context) → IsFresh 0 now → W.sound world now.log.state now.roles }
    requires tells { (w : W) (s : State) → IsSome (W.left w s) }
{
    let mut group = begin(rt, world);
    group.give_turn();
    let Driven::Done = drive(&mut group).expect(rt, MEMORY) else {
        panic!(rt; "nothing is pending at the end")
    };
    group
}

type Working = Either<Stepper<Countdown>, Burst>;

// A world of each kind does its work: a step at each event, and a burst of calls, each of which is an event.
#[test]
fn a_world_of_each_kind_works(rt: HostRuntime) {
    let stepper: Working = Either::One(Stepper {
        part: Countdown { left: 1 },
        done: 0,
        whole: false,
    });
    let group = run(&rt, stepper);
    let Either::One(stepper) = group.world() else {
        panic!(rt; "{}", KIND)
    };
    let handled = group.journal().counts().handled;
    assert_eq!(rt; (handled, stepper.done, stepper.part.left), (2, 1, 0));
    let burst: Working = Either::Other(Burst {
        target: None,
        bursts: 1,
        done: 0,
        handled: 0,
        whole: false,
    });
    let group = run(&rt, burst);
    let Either::Other(burst) = group.world() else {
        panic!(rt; "{}", KIND)
    };
    assert_eq!(rt; (burst.done, burst.handled), (1, 1 + u64::from(CALLS)));
}

type Asking = Either<Peer, Peer>;

// A peer that asks, or one that is only asked.
fn peer(only_asked: bool, todo: u32) -> Peer
    ensures todo { result.todo ≡ todo }
    ensures none { result.main ≡ None }
    ensures asked { result.only_asked ≡ only_asked }
    ensures whole { result.whole ≡ false }
{
    Peer {
        only_asked,
        asks: !only_asked,
        todo,
        last: 0,
        main: None,
        whole: false,
    }
}

// A handler of a world of one kind asks a world of the other, and is told the reply.
#[test]
#[tactic(auto, using(crate::proofs::Fair::fair))]
fn a_world_asks_one_of_the_other_kind(rt: HostRuntime) {
    let asking: Asking = Either::One(peer(false, 7));
    let adding: Asking = Either::Other(peer(true, 0));
    let mut asker = begin(&rt, asking);
    let mut adder = Group::make(rt.alloc(), adding, 0).expect(&rt, MEMORY);
    adder.begin_turn(1, ONLY_SEAT, 0).expect(&rt, MEMORY);
    let Handling::Asks {
        group,
        question,
        ..
    } = asker.handle(1, 0).expect(&rt, MEMORY)
    else {
        panic!(rt; "it asks")
    };
    ask_for(&mut asker, &mut adder, group, question, 0).expect(&rt, MEMORY);
    let Either::One(peer) = asker.world() else {
        panic!(rt; "{}", KIND)
    };
    let handled = adder.journal().counts().handled;
    assert_eq!(rt;
        (group, question, peer.last, peer.todo, handled),
        (ASKED, 7, 8, 6, 1)
    );
}
