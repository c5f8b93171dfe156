//! Rows of peers that are run and driven to their end, and single turns of a thread.

ghost use Rattle.std.specs.Prelude.{◌≤◌};

use crate::crowd::{CrowdTally, crowd_of, run_crowd};
use crate::row::{MEMORY, Tally, drive_row, first_seat, make_row, run_row, tally_of};
use crate::toys::{ToyTally, run_tally};
use crate::turns::{first_tokens, play, play_held, play_runs, play_shared};
use std::process::Abort;
use ts_link::{MeetGate, OpenGate};
use ts_queue::Token;
use ts_thread::{Did, MOST_ALONE, RunEnd, Unfinished};
use ts_toys::burst::Burst;
use ts_toys::heir::Heir;
use ts_toys::steps::{Countdown, Stepper};

// What stands of a row whose peers had three steps each: nothing pending, each that works whole, nothing to
// do, and the last of them was asked for each step of the four that ask.
const DONE: Tally = Tally {
    groups: 9,
    pending: 0,
    whole: 8,
    todo: 0,
    questions: 12,
};

// What a drive of a row answers whose groups get so many turns at most, and what the row is then.
fn driven(rt: &(impl AllocGlobal + Abort), limit: u64) -> (Result<(), Unfinished>, Tally)
    requires { limit ≤ MOST_ALONE }
{
    let mut groups = make_row(rt, rt.alloc(), 3, true);
    let answer = drive_row(&mut groups, limit);
    (answer, tally_of(&groups))
}

// Peers that ask and peers that work by themselves, driven on one thread.
#[test]
fn a_row_is_driven_to_its_end(rt: HostRuntime) {
    assert_eq!(rt; driven(&rt, MOST_ALONE), (Ok(()), DONE));
}

// Each peer that works was started in its first turn. It needs four more: one for each step, and a last one
// in which it has nothing to do. With a limit of one turn none has another, and with four the first peer's
// last event stays pending.
#[test]
fn a_worn_peer_has_no_more_turns(rt: HostRuntime) {
    let mut stands = Tally {
        groups: 9,
        pending: 8,
        whole: 8,
        todo: 24,
        questions: 0,
    };
    assert_eq!(rt; driven(&rt, 1), (Err(Unfinished::Worn), stands));
    stands.todo = 21;
    stands.questions = 3;
    assert_eq!(rt; driven(&rt, 4), (Err(Unfinished::Worn), stands));
}

// With five turns each peer that works could end, but the one that is asked has none for the sixth question,
// the last of the third peer. That peer waits to ask again, and is whole still.
#[test]
fn a_worn_peer_is_not_asked(rt: HostRuntime) {
    let stands = Tally {
        groups: 9,
        pending: 6,
        whole: 8,
        todo: 16,
        questions: 5,
    };
    assert_eq!(rt; driven(&rt, 5), (Err(Unfinished::Worn), stands));
}

// The same, run by 1, 2, 8 and 64 threads.
#[test]
fn threads_run_a_row_to_its_end(rt: HostRuntime) {
    let gate = OpenGate::make();
    let one = run_row(&rt, rt.alloc(), 3, 1, &gate).expect(&rt, MEMORY);
    let two = run_row(&rt, rt.alloc(), 3, 2, &gate).expect(&rt, MEMORY);
    let eight = run_row(&rt, rt.alloc(), 3, 8, &gate).expect(&rt, MEMORY);
    let most = run_row(&rt, rt.alloc(), 3, 64, &gate).expect(&rt, MEMORY);
    let tallies = [
        tally_of(&one),
        tally_of(&two),
        tally_of(&eight),
        tally_of(&most),
    ];
    assert_eq!(rt; tallies, [DONE; 4]);
}

// Two threads of which each waits for the other in its first handler: the first events of the two groups were
// handled under different seats.
#[test]
fn two_handlers_run_beside_each_other(rt: HostRuntime) {
    let gate = MeetGate::make(20_000_000);
    let groups = run_row(&rt, rt.alloc(), 3, 2, &gate).expect(&rt, MEMORY);
    let [one, other, ..] = groups.as_slice() else {
        panic!(rt; "there are nine groups")
    };
    let first = first_seat(one.journal().entries());
    let second = first_seat(other.journal().entries());
    let beside = first.is_some() && second.is_some() && first != second;
    assert_eq!(rt; (gate.met(), tally_of(&groups), beside), (true, DONE, true));
}

// What stands of a row of toy worlds that had three things to do each: nothing pending, each world whole, and
// all done.
const ENDED: ToyTally = ToyTally {
    groups: 8,
    pending: 0,
    whole: 8,
    done: 24,
};

// Worlds that count down, run by 1, 2, 8 and 64 threads.
#[test]
fn threads_run_countdowns_to_their_end(rt: HostRuntime) {
    let tallies = [
        run_tally::<Stepper<Countdown>, HostRuntime>(&rt, rt.alloc(), 3, 1),
        run_tally::<Stepper<Countdown>, HostRuntime>(&rt, rt.alloc(), 3, 2),
        run_tally::<Stepper<Countdown>, HostRuntime>(&rt, rt.alloc(), 3, 8),
        run_tally::<Stepper<Countdown>, HostRuntime>(&rt, rt.alloc(), 3, 64),
    ];
    assert_eq!(rt; tallies, [ENDED; 4]);
}

// Worlds that ask for more direct calls than a turn handles.
#[test]
fn threads_run_bursts_to_their_end(rt: HostRuntime) {
    let tallies = [
        run_tally::<Burst, HostRuntime>(&rt, rt.alloc(), 3, 1),
        run_tally::<Burst, HostRuntime>(&rt, rt.alloc(), 3, 2),
        run_tally::<Burst, HostRuntime>(&rt, rt.alloc(), 3, 8),
        run_tally::<Burst, HostRuntime>(&rt, rt.alloc(), 3, 64),
    ];
    assert_eq!(rt; tallies, [ENDED; 4]);
}

// Worlds whose continuations give their place to others.
#[test]
fn threads_run_heirs_to_their_end(rt: HostRuntime) {
    let tallies = [
        run_tally::<Heir, HostRuntime>(&rt, rt.alloc(), 3, 1),
        run_tally::<Heir, HostRuntime>(&rt, rt.alloc(), 3, 2),
        run_tally::<Heir, HostRuntime>(&rt, rt.alloc(), 3, 8),
        run_tally::<Heir, HostRuntime>(&rt, rt.alloc(), 3, 64),
    ];
    assert_eq!(rt; tallies, [ENDED; 4]);
}

// 4,000 worlds on 4 threads, each with 66 events, all due at once: the first and the 65 direct calls of its
// handler, of which its turn handles 63. What is left is due news, and stays with the thread that took the
// group's first token. So no other thread tries to enter the group. Were it missed, the token would be due 10
// milliseconds later, and its event be handled then.
#[test]
fn no_group_of_a_crowd_is_missed(rt: HostRuntime) {
    let groups = run_crowd::<Burst, HostRuntime>(&rt, rt.alloc(), 4000, 1, 4);
    let wanted = CrowdTally {
        groups: 4000,
        handled: 264_000,
        late: 0,
    };
    assert_eq!(rt; crowd_of(groups.as_slice()), wanted);
}

fn token(group: u32, number: u64) -> Token {
    Token { group, number }
}

// The token of the one event that each start sets stands in the queue, and no other.
#[test]
fn the_first_token_of_each_group_stands_in_the_queue(rt: HostRuntime) {
    assert_eq!(rt; first_tokens(&rt, rt.alloc(), 0).as_slice(), [].as_slice());
    assert_eq!(rt;
        first_tokens(&rt, rt.alloc(), 1).as_slice(),
        [(0u32, 1u64)].as_slice()
    );
    assert_eq!(rt;
        first_tokens(&rt, rt.alloc(), 3).as_slice(),
        [(0u32, 1u64), (1, 1), (2, 1)].as_slice()
    );
}

const RAN: Did = Did::Ran { events: 1 };

// A token of an event that was handled is stale, and one of no group is let go. Peers 0 and 1 have nothing to
// do.
#[test]
fn a_token_is_used_once(rt: HostRuntime) {
    let twice = play(
        &rt,
        rt.alloc(),
        0,
        1,
        [token(0, 1)].as_slice(),
        [0, 0, 0].as_slice(),
    );
    assert_eq!(rt; twice.as_slice(), [RAN, Did::Stale, Did::Idle].as_slice());
    let none = play(
        &rt,
        rt.alloc(),
        0,
        0,
        [token(9, 1)].as_slice(),
        [0].as_slice(),
    );
    assert_eq!(rt; none.as_slice(), [Did::Idle].as_slice());
}

// Peer 1 does a step and sets its second event, which is due a millisecond later. Of its two tokens one is
// taken too early. Peer 0's second event is due at once, so the thread goes on with it before the tokens of the
// queue, of which two name events that were handled then.
#[test]
fn an_event_waits_until_it_is_due(rt: HostRuntime) {
    let tokens = [token(0, 2), token(0, 1), token(1, 2)];
    let moments = [0, 0, 0, 0, 0, 0, 1, 1, 1];
    let answers = play(&rt, rt.alloc(), 1, 2, tokens.as_slice(), moments.as_slice());
    assert_eq!(rt;
        answers.as_slice(),
        [
            RAN,
            RAN,
            RAN,
            Did::Stale,
            Did::Stale,
            Did::NotDue { due: 1 },
            RAN,
            Did::Stale,
            Did::Idle,
        ]
        .as_slice()
    );
}

// In its turn n peer 0 handles its event n - 1 and sets the event n, which is due at once. The thread goes on
// with it, but a turn past 128 whose number is a multiple of 16 puts its token into the queue, where another
// pass sees it. The thread makes the turns 2 to 161, of which two do.
#[test]
fn each_sixteenth_turn_past_128_puts_its_news_into_the_queue(rt: HostRuntime) {
    let numbers = play_shared(&rt, rt.alloc(), 200, 160);
    assert_eq!(rt; numbers.as_slice(), [144u64, 160].as_slice());
}

// Another seat has the second turn of the token's group, and has left it before the thread's next turn; the
// token is due again 10 milliseconds after the miss.
#[test]
fn a_token_is_put_back(rt: HostRuntime) {
    let (first, later) = play_held(&rt, rt.alloc(), 0, 0, [9, 10].as_slice());
    assert_eq!(rt;
        (first, later.as_slice()),
        (
            Did::PutBack { group: 0, seen: 3 },
            [Did::Idle, RAN].as_slice()
        )
    );
}

// Another seat holds the group that is asked, and has left it before the next turn; the peer asks again 10
// milliseconds later.
#[test]
fn a_held_group_is_not_asked(rt: HostRuntime) {
    let (first, later) = play_held(&rt, rt.alloc(), 1, 8, [9, 10].as_slice());
    assert_eq!(rt;
        (first, later.as_slice()),
        (
            Did::AskMissed { group: 8, seen: 1 },
            [Did::Idle, RAN].as_slice()
        )
    );
}

// One turn is all that there is to do, and then the thread is idle.
#[test]
fn a_run_ends_at_its_budget_or_idle(rt: HostRuntime) {
    let ends = play_runs(&rt, rt.alloc(), 0, 1, 1);
    assert_eq!(rt; ends, (RunEnd::Budget, RunEnd::Idle));
}
