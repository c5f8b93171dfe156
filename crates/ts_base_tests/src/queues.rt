//! Rows of the queue, and two threads that put and take.

ghost use Rattle.std.specs.Prelude.{◌≡◌, ◌+◌, ◌<◌, ◌≤◌, OnOk};
ghost use Rattle.ts_queue.specs.Tickets.{Exactly};
ghost use Rattle.ts_queue.specs.Passes.{pass_view, IsPassOf};

use crate::memory::MEMORY;
use std::sync::Wait;
use std::thread;
use std::thread::Threads;
use ts_queue::{EventQueue, QueuePass, Ticket, Token, WHOLE_SHARE};

const PUTS: u64 = 100;

fn token(number: u64) -> Token {
    Token { group: 0, number }
}

fn ticket(putter: u64, serial: u64, number: u64) -> Option<Ticket> {
    Some(Ticket {
        putter,
        serial,
        token: token(number),
    })
}

#[test]
fn tickets_come_in_the_order_of_puts(rt: HostRuntime) {
    let (queue, mut pass) = EventQueue::make(rt.alloc()).expect(&rt, MEMORY);
    queue.put(&rt, &mut pass, token(1)).expect(&rt, MEMORY);
    queue.put(&rt, &mut pass, token(2)).expect(&rt, MEMORY);
    let serial = pass.serial();
    let taken = [queue.take(&rt, &mut pass), queue.take(&rt, &mut pass)];
    let before = pass.empties();
    let none = queue.take(&rt, &mut pass);
    assert!(rt; taken == [ticket(0, 1, 1), ticket(0, 2, 2)] && none.is_none());
    assert!(rt; (serial, before, pass.empties()) == (2, 0, 1));
}

#[test]
fn passes_are_split_and_joined(rt: HostRuntime) {
    let (queue, mut first) = EventQueue::make(rt.alloc()).expect(&rt, MEMORY);
    queue.put(&rt, &mut first, token(7)).expect(&rt, MEMORY);
    let mut second = queue.split(&mut first).expect(&rt, MEMORY);
    let begun = second.serial();
    queue.put(&rt, &mut second, token(8)).expect(&rt, MEMORY);
    let seven = queue.take(&rt, &mut second);
    queue.join(&mut first, second);
    let joined = first.serial();
    let rest = [queue.take(&rt, &mut first), queue.take(&rt, &mut first)];
    assert!(rt; (begun, joined) == (0, 1));
    assert!(rt; (seven, rest) == (ticket(0, 1, 7), [ticket(1, 1, 8), None]));
}

// Puts tokens with the numbers from 1 on.
fn put_all<R: Wait>(rt: &R, queue: &EventQueue, mut pass: QueuePass) -> QueuePass
    requires { IsPassOf queue.now pass × ((pass_view pass).serial ≡ 0) }
    ensures { IsPassOf queue.now result × ((pass_view result).share ≡ (pass_view pass).share) }
{
    'puts: for number in 0..PUTS {
        let _ = queue.put(rt, &mut pass, token(number + 1));
    }
    pass
}

// Takes so many times as tokens were put, and adds up the numbers of the tokens that it got.
fn take_some<R: Wait>(rt: &R, queue: &EventQueue, mut pass: QueuePass) -> (QueuePass, u64)
    requires { IsPassOf queue.now pass }
    ensures { IsPassOf queue.now result.0 × ((pass_view result.0).share ≡ (pass_view pass).share) }
{
    let mut sum: u64 = 0;
    'takes: for _ in 0..PUTS {
        if let Some(taken) = queue.take(rt, &mut pass) {
            sum = sum.wrapping_add(taken.token.number);
        }
    }
    (pass, sum)
}

// One thread puts while another takes, and then their passes are joined. The sum is that of the numbers of
// the tokens that were taken.
fn put_and_take<R: Threads + Wait + Sync>(
    rt: &R,
    queue: &EventQueue,
    putter: QueuePass,
    taker: QueuePass,
) -> (QueuePass, u64)
    requires passes { IsPassOf queue.now putter × IsPassOf queue.now taker }
    requires serial { (pass_view putter).serial ≡ 0 }
    ensures pass { IsPassOf queue.now result.0 }
    ensures share { (pass_view result.0).share ≡ (pass_view putter).share + (pass_view taker).share }
{
    let (mut pass, (taker, sum)) = thread::join(
        rt,
        move || -> QueuePass
            requires { IsPassOf queue.now putter × ((pass_view putter).serial ≡ 0) }
            ensures { IsPassOf queue.entry.now result
                × ((pass_view result).share ≡ (pass_view putter).share) }
        { put_all(rt, queue, putter) },
        move || -> (QueuePass, u64)
            requires { IsPassOf queue.now taker }
            ensures { IsPassOf queue.entry.now result.0
                × ((pass_view result.0).share ≡ (pass_view taker).share) }
        { take_some(rt, queue, taker) },
    );
    queue.join(&mut pass, taker);
    (pass, sum)
}

// One thread puts while another takes, and then all that is left is taken.
fn exchange<R: Threads + Wait + Sync>(
    rt: &R,
    queue: &EventQueue,
    putter: QueuePass,
    taker: QueuePass,
) -> (QueuePass, u64)
    requires passes { IsPassOf queue.now putter × IsPassOf queue.now taker }
    requires serial { (pass_view putter).serial ≡ 0 }
    requires shares { (pass_view putter).share + (pass_view taker).share ≡ WHOLE_SHARE }
    ensures pass { IsPassOf queue.now result.0 }
    ensures all { Exactly (pass_view result.0).put (pass_view result.0).taken }
{
    let (mut pass, first) = put_and_take(rt, queue, putter, taker);
    let mut sum = first;
    'rest: for _ in rt.forever() {
        match queue.take(rt, &mut pass) {
            Some(taken) => sum = sum.wrapping_add(taken.token.number),
            None => return (pass, sum),
        }
    }
    unreachable!()
}

#[test]
fn what_one_thread_puts_another_takes(rt: HostRuntime) {
    let (queue, mut putter) = EventQueue::make(rt.alloc()).expect(&rt, MEMORY);
    let taker = queue.split(&mut putter).expect(&rt, MEMORY);
    let (pass, sum) = exchange(&rt, &queue, putter, taker);
    assert!(rt; pass.serial() == 100 && sum == 5050);
}
