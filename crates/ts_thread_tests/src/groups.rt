//! Small worlds that are run: what their groups record, and how they end. Where memory is wanted, the test ends.

ghost use Rattle.std.specs.Prelude.{◌≡◌, false};
ghost use Rattle.ts_group.specs.Answers.{Holds};

use crate::row::MEMORY;
use std::process::Abort;
use ts_group::{Action, Cancel, Destroy, Group, Handling, World};
use ts_journal::{ContKey, Counts, Entry, Event};
use ts_slot::{Left, Slots};
use ts_toys::burst::Burst;
use ts_toys::drive::{Driven, ask_for, drive};
use ts_toys::heir::Heir;
use ts_toys::peer::{ASKED, new_peer};
use ts_toys::recorded::visit;
use ts_toys::steps::{Countdown, Stepper};
use ts_toys::toy::Toy;

// What a test says whose group stands otherwise than it is to.
const OTHERWISE: &str = "the group stands as the test wants it";

const FIRST: ContKey = ContKey {
    index: 0,
    generation: 1,
};

// An event that is cancelled is not pending, and is not handled.
#[test]
fn a_cancelled_event_is_not_handled(rt: HostRuntime) {
    let mut group = Heir::group(rt.alloc(), 1).expect(&rt, MEMORY);
    group.begin_turn(1, 0, 5).expect(&rt, MEMORY);
    let key = group.cx().make(0).expect(&rt, MEMORY);
    let action = group.cx().schedule(key, 0).expect(&rt, MEMORY);
    let cancelled = group.cx().cancel(action);
    let handling = group.handle(1, 5).expect(&rt, MEMORY);
    assert!(rt; matches!(handling, Handling::NotPending));
    assert_eq!(rt;
        (key, action, cancelled, group.journal().counts()),
        (
            FIRST,
            Action { series: 1 },
            Cancel::Cancelled,
            Counts {
                set: 1,
                handled: 0,
                cancelled: 1,
                dropped: 0,
                pending: 0
            }
        )
    );
}

// An event that is due 10 milliseconds later is brought forward once: the one in its place has the next
// number, and is due at the moment.
#[test]
fn a_late_event_is_brought_forward_once(rt: HostRuntime) {
    let mut group = Heir::group(rt.alloc(), 1).expect(&rt, MEMORY);
    group.begin_turn(1, 0, 5).expect(&rt, MEMORY);
    let key = group.cx().make(0).expect(&rt, MEMORY);
    let _action = group.cx().schedule(key, 10).expect(&rt, MEMORY);
    let late = group.next_due();
    let once = group.cx().hasten(key).expect(&rt, MEMORY);
    let twice = group.cx().hasten(key).expect(&rt, MEMORY);
    assert_eq!(rt;
        (
            late,
            once,
            twice,
            group.next_due(),
            group.journal().counts()
        ),
        (
            Some((15, 1)),
            true,
            false,
            Some((5, 2)),
            Counts {
                set: 2,
                handled: 0,
                cancelled: 1,
                dropped: 0,
                pending: 1
            }
        )
    );
}

// The action of an event that was handled is done, and to cancel it changes nothing.
#[test]
fn an_action_is_done_once_its_event_was_handled(rt: HostRuntime) {
    let mut group = Heir::group(rt.alloc(), 1).expect(&rt, MEMORY);
    group.begin_turn(1, 0, 5).expect(&rt, MEMORY);
    let key = group.cx().make(0).expect(&rt, MEMORY);
    let plain = group.cx().schedule(key, 0).expect(&rt, MEMORY);
    let handling = group.handle(1, 5).expect(&rt, MEMORY);
    assert!(rt; matches!(handling, Handling::Handled { events: 1 }));
    let before = group.journal().entries().len();
    let cancelled = group.cx().cancel(plain);
    let after = group.journal().entries().len();
    let destroyed = group.cx().destroy(key);
    assert_eq!(rt;
        (cancelled, after, destroyed),
        (Cancel::Done, before, Destroy::Dead)
    );
}

// The key of the continuation that is made when the first one was destroyed.
const SECOND: ContKey = ContKey {
    index: 0,
    generation: 2,
};

// The journal of a periodic event whose handler destroys its own continuation and makes another.
const OF_AN_HEIR: &[Entry] = &[
    Entry::Took { turn: 1, seat: 0 },
    Entry::Made { key: FIRST },
    Entry::Set {
        number: 1,
        key: FIRST,
        event: Event::Timeout,
        due: 10,
        series: 1,
        period: 10,
    },
    Entry::Gave { turn: 1 },
    Entry::Took { turn: 2, seat: 0 },
    Entry::Handled {
        number: 1,
        moment: 10,
    },
    Entry::Set {
        number: 2,
        key: FIRST,
        event: Event::Timeout,
        due: 20,
        series: 1,
        period: 10,
    },
    Entry::Dropped { number: 2 },
    Entry::Destroyed { key: FIRST },
    Entry::Made { key: SECOND },
    Entry::Gave { turn: 2 },
];

// The handler of a periodic event destroys its own continuation and makes another.
#[test]
fn a_periodic_event_goes_with_its_key(rt: HostRuntime) {
    let world = Heir {
        plain: false,
        key: None,
        heirs: 1,
        done: 0,
        whole: false,
    };
    let mut group = Group::make(rt.alloc(), world, 0).expect(&rt, MEMORY);
    group.begin_turn(1, 0, 0).expect(&rt, MEMORY);
    let key = group.cx().make(0).expect(&rt, MEMORY);
    let action = group.cx().every(key, 10).expect(&rt, MEMORY);
    group.give_turn();
    let turns = group.journal().turns();
    group.begin_turn(2, 0, 10).expect(&rt, MEMORY);
    let handling = group.handle(1, 10).expect(&rt, MEMORY);
    assert!(rt; matches!(handling, Handling::Handled { events: 1 }));
    let done = group.cx().is_done(action);
    let cancelled = group.cx().cancel(action);
    group.give_turn();
    let (world, journal) = group.into_parts();
    assert_eq!(rt;
        (action, turns, done, cancelled, world.key),
        (Action { series: 1 }, 1, true, Cancel::Done, Some(SECOND))
    );
    assert_eq!(rt; journal.entries(), OF_AN_HEIR);
}

// A turn handles 64 events, the first and the direct calls of its handler, and leaves the rest pending.
#[test]
fn a_turn_handles_64_events(rt: HostRuntime) {
    let mut group = Burst::group(rt.alloc(), 1).expect(&rt, MEMORY);
    group.begin_turn(1, 0, 0).expect(&rt, MEMORY);
    group.start();
    let first = [group.next_news(), group.next_news()];
    let handling = group.handle(1, 0).expect(&rt, MEMORY);
    assert!(rt; matches!(handling, Handling::Handled { events: 64 }));
    let due = group.next_due();
    let rest = [group.next_news(), group.next_news(), group.next_news()];
    assert_eq!(rt;
        (
            first,
            due,
            rest,
            group.world().handled,
            group.journal().counts()
        ),
        (
            [Some((1, 0)), None],
            Some((0, 65)),
            [Some((65, 0)), Some((66, 0)), None],
            64,
            Counts {
                set: 66,
                handled: 64,
                cancelled: 0,
                dropped: 0,
                pending: 2
            }
        )
    );
}

// A world that does three steps is driven to its end.
#[test]
fn a_world_is_driven_to_its_end(rt: HostRuntime) {
    let mut group = Stepper::<Countdown>::group(rt.alloc(), 3).expect(&rt, MEMORY);
    group.begin_turn(1, 0, 0).expect(&rt, MEMORY);
    group.start();
    group.give_turn();
    let driven = drive(&mut group).expect(&rt, MEMORY);
    assert_eq!(rt;
        (
            driven,
            group.world().part.left,
            group.next_due(),
            group.journal().counts()
        ),
        (
            Driven::Done,
            0,
            None,
            Counts {
                set: 4,
                handled: 4,
                cancelled: 0,
                dropped: 0,
                pending: 0
            }
        )
    );
}

// Takes so many turns more, each for the event that is due first.
fn take_turns<W: World + Drop>(rt: &impl Abort, group: &mut Group<W>, count: u32)
where
    W::Question: Drop,
    requires idle { group.old.cx.log.state.held ≡ false }
    requires sound { Holds W.sound group.old }
    ensures idle { group.new.cx.log.state.held ≡ false }
    ensures sound { Holds W.sound group.new }
{
    'turns: for _ in 0..count {
        let (due, number) = group.next_due().expect(rt, OTHERWISE);
        group.begin_alone(u64::MAX, due).expect(rt, MEMORY);
        let Handling::Handled { .. } = group.handle(number, due).expect(rt, MEMORY) else {
            panic!(rt; "{}", OTHERWISE)
        };
        group.give_turn();
    }
}

// A journal is folded by the turn after which it would store 4,096 entries. Each turn makes four of them.
#[test]
fn a_long_journal_is_folded(rt: HostRuntime) {
    let mut group = Stepper::<Countdown>::group(rt.alloc(), 1_500).expect(&rt, MEMORY);
    group.begin_turn(1, 0, 0).expect(&rt, MEMORY);
    group.start();
    group.give_turn();
    take_turns(&rt, &mut group, 1_022);
    let before = group.journal().entries().len();
    take_turns(&rt, &mut group, 1);
    let folded = group.journal().entries().len();
    let turns = group.journal().turns();
    let counts = group.journal().counts();
    take_turns(&rt, &mut group, 1);
    assert_eq!(rt;
        (
            before,
            folded,
            turns,
            counts,
            group.journal().entries().len()
        ),
        (
            4_092,
            0,
            1_024,
            Counts {
                set: 1_024,
                handled: 1_023,
                cancelled: 0,
                dropped: 0,
                pending: 1
            },
            4
        )
    );
}

// A handler asks another group, and is told the reply.
#[test]
fn a_group_asks_another(rt: HostRuntime) {
    let mut asker = new_peer(rt.alloc(), false, true, 7).expect(&rt, MEMORY);
    let mut adder = new_peer(rt.alloc(), true, false, 0).expect(&rt, MEMORY);
    asker.begin_turn(1, 0, 0).expect(&rt, MEMORY);
    adder.begin_turn(1, 0, 0).expect(&rt, MEMORY);
    asker.start();
    let Handling::Asks {
        group,
        question,
        ..
    } = asker.handle(1, 0).expect(&rt, MEMORY)
    else {
        panic!(rt; "it asks")
    };
    ask_for(&mut asker, &mut adder, group, question, 0).expect(&rt, MEMORY);
    let journal = adder.journal();
    assert_eq!(rt;
        (
            (group, question),
            (asker.world().last, asker.world().todo),
            (journal.counts().handled, journal.entries().len())
        ),
        ((ASKED, 7), (8, 6), (1, 3))
    );
}

// The turns of a group that stands in a slot are recorded under the numbers that the slot gives, each with
// its seat.
#[test]
fn turns_at_a_slot_are_recorded(rt: HostRuntime) {
    let Ok(group) = Stepper::<Countdown>::group(rt.alloc(), 3) else {
        panic!(rt; "{}", MEMORY)
    };
    let mut groups = Vec::new(rt.alloc());
    let Ok(()) = groups.push(group) else {
        panic!(rt; "{}", MEMORY)
    };
    let mut tags = Vec::new(rt.alloc());
    let Ok(()) = tags.push(3) else {
        panic!(rt; "{}", MEMORY)
    };
    let Ok((slots, mut seat)) = Slots::make(rt.alloc(), groups, tags) else {
        panic!(rt; "{}", MEMORY)
    };
    let mut other = slots.split(&mut seat);
    let left = [
        visit(&slots, &mut other, 0, 5),
        visit(&slots, &mut seat, 0, 6),
    ];
    slots.join(&mut seat, other);
    let Ok(groups) = slots.close(rt.alloc(), seat) else {
        panic!(rt; "{}", MEMORY)
    };
    let [group] = groups.as_slice() else {
        panic!(rt; "there is one group")
    };
    assert_eq!(rt; left, [Ok(Left::Freed), Ok(Left::Freed)]);
    assert_eq!(rt;
        group.journal().entries(),
        [
            Entry::Took { turn: 1, seat: 1 },
            Entry::Gave { turn: 1 },
            Entry::Took { turn: 2, seat: 0 },
            Entry::Gave { turn: 2 },
        ]
        .as_slice()
    );
}
