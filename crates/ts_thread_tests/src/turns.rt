//! Turns of one thread over a row of peers, one after the other.

ghost use Rattle.std.specs.Prelude.{◌≡◌, ◌≤◌};
ghost use Rattle.ts_toys.specs.declared.peer.TheConstants.{ASKED, MOST_TODO};
ghost use Rattle.ts_queue.specs.Passes.{IsPassOf};
ghost use Rattle.ts_slot.specs.Words.{tags_of, view};
ghost use Rattle.ts_thread.specs.declared.TheConstants.{MOST_THREADS};
ghost use Rattle.ts_thread.specs.Threads.{IsPair, HasOpened};
ghost use Rattle.ts_thread_tests.specs.Peers.{row_tags};

use crate::row::{MEMORY, make_row, make_tags};
use std::alloc::Global;
use std::process::Abort;
use std::sync::Wait;
use ts_group::Group;
use ts_link::OpenGate;
use ts_queue::{EventQueue, QueuePass, Token};
use ts_slot::{Seat, Slots};
use ts_thread::{Did, EventThread, RunEnd, Shared, start_groups};
use ts_toys::peer::{ASKED, Peer};

// What a row of peers in slots is run with.
struct Opened {
    slots: Slots<Group<Peer>>,
    seat: Seat<Group<Peer>>,
    queue: EventQueue,
    pass: QueuePass,
}

// Puts a token. A test puts fewer than a pass can.
fn put_one<R: Abort + Wait>(rt: &R, queue: &EventQueue, pass: &mut QueuePass, token: Token)
    requires { IsPassOf queue.now pass.old }
    ensures { IsPassOf queue.now pass.new }
{
    if pass.serial() == u64::MAX {
        panic!(rt; "a test puts few tokens")
    }
    queue.put(rt, pass, token).expect(rt, MEMORY);
}

// Puts these tokens, one after the other.
fn put_all<R: Abort + Wait>(rt: &R, queue: &EventQueue, pass: &mut QueuePass, tokens: &[Token])
    requires { IsPassOf queue.now pass.old }
    ensures { IsPassOf queue.now pass.new }
{
    'tokens: for token in tokens {
        put_one(rt, queue, pass, *token);
    }
}

// A row of peers with so many steps each, of which the first so many are started.
fn open_row<R: Abort + Wait>(rt: &R, alloc: Global, todo: u32, starts: u32) -> Opened
    requires { (todo ≤ MOST_TODO) × (starts ≤ ASKED) }
    ensures pair { IsPair result.slots result.queue result.seat result.pass }
    ensures opened { HasOpened starts result.seat result.pass }
    ensures tags { tags_of result.slots ≡ row_tags ASKED }
{
    let groups = make_row(rt, alloc, todo, false);
    let tags = make_tags(rt, alloc);
    let (slots, mut seat) = Slots::make(alloc, groups, tags).expect(rt, MEMORY);
    let (queue, mut pass) = EventQueue::make(alloc).expect(rt, MEMORY);
    let gate = OpenGate::make();
    let shared = Shared {
        rt,
        slots: &slots,
        queue: &queue,
        gate: &gate,
    };
    start_groups(&shared, alloc, &mut seat, &mut pass, starts).expect(rt, MEMORY);
    Opened {
        slots,
        seat,
        queue,
        pass,
    }
}

// Takes at most so many tokens, and gives of each the numbers of its group and of its event.
fn take_all<R: Abort + Wait>(
    rt: &R,
    alloc: Global,
    queue: &EventQueue,
    pass: &mut QueuePass,
    most: u32,
) -> Vec<(u32, u64)>
    requires { IsPassOf queue.now pass.old }
{
    let mut tokens = Vec::new(alloc);
    'takes: for _take in 0..most {
        let Some(ticket) = queue.take(rt, pass) else {
            return tokens;
        };
        tokens
            .push((ticket.token.group, ticket.token.number))
            .expect(rt, MEMORY);
    }
    tokens
}

/// Of each token in the queue, front to back, the numbers of its group and of its event, once so many groups
/// are started. Of more than there are groups the last are left out.
pub fn first_tokens<R: Abort + Wait>(rt: &R, alloc: Global, starts: u32) -> Vec<(u32, u64)>
    requires { starts ≤ ASKED }
{
    let Opened {
        slots: _,
        seat: _,
        queue,
        mut pass,
    } = open_row(rt, alloc, 0, starts);
    take_all(rt, alloc, &queue, &mut pass, ASKED + 1)
}

// Takes one turn.
#[tactic(auto, using(crate::proofs::Ends::row_can_ask))]
fn take_turn<R: Abort + Wait>(rt: &R, thread: &mut EventThread<Peer, OpenGate>, moment: u64) -> Did
    requires { tags_of thread.old.slots.now ≡ row_tags ASKED }
    ensures { tags_of thread.new.slots.now ≡ row_tags ASKED }
{
    thread.turn(rt, moment).expect(rt, MEMORY)
}

// Takes a turn at each of these moments.
fn take_turns<R: Abort + Wait>(
    rt: &R,
    alloc: Global,
    thread: &mut EventThread<Peer, OpenGate>,
    moments: &[u64],
) -> Vec<Did>
    requires { tags_of thread.old.slots.now ≡ row_tags ASKED }
    ensures { tags_of thread.new.slots.now ≡ row_tags ASKED }
{
    let mut answers = Vec::new(alloc);
    'moments: for moment in moments {
        let did = take_turn(rt, thread, *moment);
        answers.push(did).expect(rt, MEMORY);
    }
    answers
}

/// What a thread answers in turns at these moments. The queue has these tokens behind those of the groups
/// that were started.
pub fn play<R: Abort + Wait>(
    rt: &R,
    alloc: Global,
    todo: u32,
    starts: u32,
    tokens: &[Token],
    moments: &[u64],
) -> Vec<Did>
    requires { (todo ≤ MOST_TODO) × (starts ≤ ASKED) }
{
    let Opened {
        slots,
        seat,
        queue,
        mut pass,
    } = open_row(rt, alloc, todo, starts);
    put_all(rt, &queue, &mut pass, tokens);
    let gate = OpenGate::make();
    let Ok(mut thread) = EventThread::make(alloc, 0, &slots, seat, &queue, pass, &gate) else {
        panic!(rt; "{}", MEMORY)
    };
    take_turns(rt, alloc, &mut thread, moments)
}

// The number of the event whose token stands first in the queue. The token is put back.
fn first_in<R: Abort + Wait>(rt: &R, queue: &EventQueue, pass: &mut QueuePass) -> Option<u64>
    requires { IsPassOf queue.now pass.old }
    ensures { IsPassOf queue.now pass.new }
{
    let Some(ticket) = queue.take(rt, pass) else {
        return None;
    };
    put_one(rt, queue, pass, ticket.token);
    Some(ticket.token.number)
}

// The numbers of the events whose tokens another pass finds in the queue, after each of so many turns at the
// moment 0.
fn find_shared<R: Abort + Wait>(
    rt: &R,
    alloc: Global,
    thread: &mut EventThread<Peer, OpenGate>,
    queue: &EventQueue,
    other: &mut QueuePass,
    turns: u32,
) -> Vec<u64>
    requires tags { tags_of thread.old.slots.now ≡ row_tags ASKED }
    requires pass { IsPassOf queue.now other.old }
{
    let mut found = Vec::new(alloc);
    'turns: for _turn in 0..turns {
        take_turn(rt, thread, 0);
        if let Some(number) = first_in(rt, queue, other) {
            found.push(number).expect(rt, MEMORY);
        }
    }
    found
}

/// The numbers of the events whose tokens a thread puts into the queue in so many turns at the moment 0. The
/// first group is started, and its first token is taken in the first turn.
pub fn play_shared<R: Abort + Wait>(rt: &R, alloc: Global, todo: u32, turns: u32) -> Vec<u64>
    requires { todo ≤ MOST_TODO }
{
    let Opened {
        slots,
        seat,
        queue,
        mut pass,
    } = open_row(rt, alloc, todo, 1);
    let mut other = queue.split(&mut pass).expect(rt, MEMORY);
    let gate = OpenGate::make();
    let Ok(mut thread) = EventThread::make(alloc, 0, &slots, seat, &queue, pass, &gate) else {
        panic!(rt; "{}", MEMORY)
    };
    find_shared(rt, alloc, &mut thread, &queue, &mut other, turns)
}

/// What a thread answers in a turn at the moment 0, while another seat holds the group k, and then in turns
/// at these moments. The first group is started.
#[tactic(auto, using(ts_group::specs::Standing::stands_itself))]
pub fn play_held<R: Abort + Wait>(
    rt: &R,
    alloc: Global,
    todo: u32,
    k: u32,
    moments: &[u64],
) -> (Did, Vec<Did>)
    requires { (todo ≤ MOST_TODO) × (k ≤ ASKED) }
{
    let Opened {
        slots,
        mut seat,
        queue,
        pass,
    } = open_row(rt, alloc, todo, 1);
    let mut other = slots.split(&mut seat);
    let gate = OpenGate::make();
    let Ok(mut thread) = EventThread::make(alloc, 0, &slots, seat, &queue, pass, &gate) else {
        panic!(rt; "{}", MEMORY)
    };
    let Ok(held) = slots.try_enter(&mut other, k) else {
        panic!(rt; "nobody is inside")
    };
    let first = take_turn(rt, &mut thread, 0);
    slots.leave(&mut other, held);
    let later = take_turns(rt, alloc, &mut thread, moments);
    (first, later)
}

/// Why the runs of a thread with these budgets end. The first group is started.
#[tactic(auto, using(crate::proofs::Ends::row_can_ask))]
pub fn play_runs<R: Abort + Wait>(
    rt: &R,
    alloc: Global,
    todo: u32,
    first: u64,
    second: u64,
) -> (RunEnd, RunEnd)
    requires { todo ≤ MOST_TODO }
{
    let Opened {
        slots,
        seat,
        queue,
        pass,
    } = open_row(rt, alloc, todo, 1);
    let gate = OpenGate::make();
    let Ok(mut thread) = EventThread::make(alloc, 0, &slots, seat, &queue, pass, &gate) else {
        panic!(rt; "{}", MEMORY)
    };
    let one = thread.run(rt, first).expect(rt, MEMORY);
    let other = thread.run(rt, second).expect(rt, MEMORY);
    (one, other)
}
