//! Chains over one body, as worlds of groups, driven to their ends or aborted.
ghost use Rattle.std.specs.Prelude.{◌≡◌, true, false};
ghost use Rattle.ts_transform.specs.World.{IsSoundGroup};

use crate::tail::{MEMORY, Tail, letters, tails};
use std::process::Abort;
use ts_group::{Group, Handling};
use ts_journal::{ContKey, Event};
use ts_transform::ChainWorld;

// More turns than any of the runs takes.
const TURNS: u32 = 1_000;

/// The group of a chain of tails over a body.
pub type Tails = Group<ChainWorld<Tail>>;

/// The group of a chain of tails of these texts over so many letters, which had no turn yet.
pub fn make_group(rt: &(impl AllocGlobal + Abort), texts: &[&[u8]], len: u32) -> Tails
    ensures idle { result.cx.log.state.held ≡ false }
    ensures first { result.cx.log.state.turns ≡ 0 }
    ensures sound { IsSoundGroup result }
{
    let body = letters(rt.alloc(), len).expect(rt, MEMORY);
    let parts = tails(rt.alloc(), texts).expect(rt, MEMORY);
    let world = ChainWorld::make(rt.alloc(), parts, body).expect(rt, MEMORY);
    let group = Group::make(rt.alloc(), world, 0).expect(rt, MEMORY);
    group
}

// A chain of two tails over three bytes.
fn make_two(rt: &(impl AllocGlobal + Abort)) -> Tails
    ensures idle { result.cx.log.state.held ≡ false }
    ensures sound { IsSoundGroup result }
{
    make_group(rt, &[b"1".as_slice(), b"1".as_slice()], 3)
}

// Begins the next turn.
fn begin_turn(rt: &impl Abort, group: &mut Tails, moment: u64)
    requires idle { group.old.cx.log.state.held ≡ false }
    requires sound { IsSoundGroup group.old }
    ensures turn { group.new.cx.log.state.held ≡ true }
    ensures sound { IsSoundGroup group.new }
{
    let Some(turn) = group.journal().turns().checked_add(1) else {
        panic!(rt; "a turn is left")
    };
    group.begin_turn(turn, 0, moment).expect(rt, MEMORY);
}

// Starts the world in a turn.
fn start(rt: &impl Abort, group: &mut Tails)
    requires idle { group.old.cx.log.state.held ≡ false }
    requires sound { IsSoundGroup group.old }
    ensures idle { group.new.cx.log.state.held ≡ false }
    ensures sound { IsSoundGroup group.new }
{
    begin_turn(rt, group, 0);
    group.start();
    group.give_turn();
}

// Makes a turn that handles the event of a number, and wakes the last stage.
fn step(rt: &impl Abort, group: &mut Tails, number: u64, moment: u64)
    requires idle { group.old.cx.log.state.held ≡ false }
    requires sound { IsSoundGroup group.old }
    ensures idle { group.new.cx.log.state.held ≡ false }
    ensures sound { IsSoundGroup group.new }
{
    begin_turn(rt, group, moment);
    let Handling::Handled { events: _ } = group.handle(number, moment).expect(rt, MEMORY) else {
        panic!(rt; "it is handled")
    };
    ChainWorld::wake(group).expect(rt, MEMORY);
    group.give_turn();
}

// Makes at most so many turns, and stops where nothing is pending.
fn run(rt: &impl Abort, group: &mut Tails, turns: u32)
    requires idle { group.old.cx.log.state.held ≡ false }
    requires sound { IsSoundGroup group.old }
    ensures idle { group.new.cx.log.state.held ≡ false }
    ensures sound { IsSoundGroup group.new }
{
    'turns: for _ in 0..turns {
        let Some((due, number)) = group.next_due() else {
            return;
        };
        step(rt, group, number, due);
    }
}

// Makes a turn in which the stage of a key is called with an event.
fn tell(rt: &impl Abort, group: &mut Tails, key: ContKey, event: Event)
    requires idle { group.old.cx.log.state.held ≡ false }
    requires sound { IsSoundGroup group.old }
    ensures idle { group.new.cx.log.state.held ≡ false }
    ensures sound { IsSoundGroup group.new }
{
    begin_turn(rt, group, 0);
    group.cx().call(key, event).expect(rt, MEMORY);
    group.give_turn();
}

// Aborts the chain of a world.
fn abort(group: &mut Tails)
    requires idle { group.old.cx.log.state.held ≡ false }
    requires sound { IsSoundGroup group.old }
    ensures idle { group.new.cx.log.state.held ≡ false }
    ensures sound { IsSoundGroup group.new }
{
    group.world_mut().abort();
}

// Whether a run that ended still ran, with nothing lost, and all given or not.
fn has_run(group: &Tails, is_finished: bool) -> bool {
    let world = group.world();
    world.is_running() && world.lost().is_none() && world.chain().is_finished() == is_finished
}

// All that waits for the client, which takes it.
fn drained(rt: &(impl AllocGlobal + Abort), group: &mut Tails) -> Vec<u8> {
    let mut out = Vec::new(rt.alloc());
    for _ in 0..TURNS {
        let Some(block) = group.world().chain().out_block() else {
            break;
        };
        let count = block.len();
        out.extend_from_slice(block).expect(rt, MEMORY);
        group.world_mut().take(count);
    }
    out
}

// What a chain of two tails gives that runs to its end, whose first stage or second is called twice with an
// event after the first turn; `None` where it did not run to its end.
fn given_with(
    rt: &(impl AllocGlobal + Abort),
    group: &mut Tails,
    role: usize,
    event: Event,
) -> Option<Vec<u8>>
    requires idle { group.old.cx.log.state.held ≡ false }
    requires sound { IsSoundGroup group.old }
{
    start(rt, group);
    run(rt, group, 1);
    let Some(key) = group.journal().live().get(role).copied() else {
        panic!(rt; "there is such a stage")
    };
    tell(rt, group, key, event);
    tell(rt, group, key, event);
    run(rt, group, TURNS);
    if !has_run(group, false) {
        return None;
    }
    Some(drained(rt, group))
}

// Whether a chain gives nothing that is aborted after the first turn, and runs to its end.
fn runs_aborted(rt: &impl Abort, group: &mut Tails) -> bool
    requires idle { group.old.cx.log.state.held ≡ false }
    requires sound { IsSoundGroup group.old }
{
    start(rt, group);
    run(rt, group, 1);
    abort(group);
    run(rt, group, TURNS);
    has_run(group, true) && group.world().chain().out_block().is_none()
}

// Whether a chain of two tails gives all, whose stage of a role is called twice with an event.
fn gives_all_with(rt: &(impl AllocGlobal + Abort), role: usize, event: Event) -> bool {
    let mut group = make_two(rt);
    let given = given_with(rt, &mut group, role, event);
    given.as_ref().map(|g| g.as_slice()) == Some(b"abc11".as_slice())
}

#[test]
fn no_event_of_any_kind_ends_the_run(rt: HostRuntime) {
    let events = [
        Event::Immediate,
        Event::Timeout,
        Event::Error,
        Event::ReadReady,
        Event::WriteReady,
        Event::ReadComplete,
        Event::WriteComplete,
        Event::Eos,
        Event::InactivityTimeout,
        Event::Hook,
    ];
    for event in events {
        for role in 1..3 {
            assert!(rt; gives_all_with(&rt, role, event));
        }
    }
}

#[test]
fn a_world_that_is_aborted_gives_nothing_more(rt: HostRuntime) {
    let mut group = make_two(&rt);
    let gives_nothing = runs_aborted(&rt, &mut group);
    assert!(rt; gives_nothing);
}
