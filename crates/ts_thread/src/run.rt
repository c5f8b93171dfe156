//! Groups that are put into slots, started, run by many threads and taken out again, and driven to their end
//! then.

ghost use Rattle.std.specs.Prelude.{◌*◌, ◌-◌, ◌+◌, ◌<◌, ◌≤◌, IfOk, OnOk};
ghost use Rattle.std.specs.Result.{IsErrOf};
ghost use Rattle.std.specs.Thread.{IsSync};
ghost use Rattle.ts_group.specs.Standing.{StandsAfter};
ghost use Rattle.ts_slot.specs.Views.{Coherent};
ghost use Rattle.ts_slot.specs.Words.{tags_of, view};
ghost use Rattle.ts_thread.specs.declared.TheConstants.{MOST_ENTERED, MOST_THREADS};
ghost use Rattle.ts_thread.specs.Ran.{TellsRuns, WereRun};
ghost use Rattle.ts_thread.specs.Seats.{More};
ghost use Rattle.ts_thread.specs.Started.{CanStart, IsFirst, AllStarted, HasPut};
ghost use Rattle.ts_thread.specs.Tags.{CanAsk};
ghost use Rattle.ts_thread.specs.Threads.{CanRun, ComesBack, HasOpened, IsOpening, IsPair, turns_of};
ghost use Rattle.ts_thread.specs.Whole.{CanBeRun, EachTells, EndSoon, HaveEnded, HaveRun};

use crate::MOST_ALONE;
use crate::desk::Desk;
use crate::did::Unfinished;
use crate::end::finish_within;
use crate::shared::Shared;
use crate::start::start_all;
use crate::thread::EventThread;
use std::alloc::Global;
use std::sync::Wait;
use std::thread::{Threads, join};
use ts_group::{Group, World};
use ts_link::{Gate, NoMemory};
use ts_queue::{EventQueue, QueuePass};
use ts_slot::{Seat, Slots, Slotted};
use ts_wheel::Wheel;

/// How groups are run: how many of them are started, on how many threads, and how many turns each thread
/// takes at most.
#[derive(Clone, Copy)]
pub struct Plan {
    pub starts: u32,
    pub threads: u32,
    pub budget: u64,
}

// The run of one thread. The last part of the answer is true exactly where it came to its end: memory did not
// lack.
fn run_thread<W: World + Drop, G: Gate, R: Wait>(
    shared: &Shared<'_, Group<W>, G, R>,
    alloc: Global,
    number: u32,
    budget: u64,
    seat: Seat<Group<W>>,
    pass: QueuePass,
) -> (Seat<Group<W>>, QueuePass, bool)
    requires ready { CanRun shared.now.slots.now shared.now.queue.now number 1 seat pass }
    requires asks { CanAsk W.fits W.only_asked W.may_ask W.right W.answers (tags_of shared.now.slots.now) }
    ensures back { ComesBack shared.now.slots.now shared.now.queue.now seat pass
        (MOST_ENTERED * budget) result }
    ensures ran { TellsRuns W.fits W.asking W.answers W.called W.heard W.left
        (tags_of shared.now.slots.now) budget 1 seat pass result }
{
    let (slots, queue, gate) = (shared.slots, shared.queue, shared.gate);
    let mut thread = match EventThread::make(alloc, number, slots, seat, queue, pass, gate) {
        Ok(thread) => thread,
        Err((_, seat, pass)) => return (seat, pass, false),
    };
    let ended = thread.run(shared.rt, budget);
    let (seat, pass) = thread.into_parts();
    (seat, pass, ended.is_ok())
}

/// Runs so many threads, from this number on, and joins their seats and passes into one. The last part of the
/// answer is true exactly where each of them came to its end: memory lacked in none of them, and not for the
/// parts of the seat and the pass.
pub fn run_threads<W: World + Drop + Send, G: Gate + Sync, R: Threads + Wait + Sync>(
    shared: &Shared<'_, Group<W>, G, R>,
    alloc: Global,
    number: u32,
    threads: u32,
    budget: u64,
    mut seat: Seat<Group<W>>,
    mut pass: QueuePass,
) -> (Seat<Group<W>>, QueuePass, bool)
    requires ready { CanRun shared.now.slots.now shared.now.queue.now number threads seat pass }
    requires asks { CanAsk W.fits W.only_asked W.may_ask W.right W.answers (tags_of shared.now.slots.now) }
    ensures back { ComesBack shared.now.slots.now shared.now.queue.now seat pass
        (threads * (MOST_ENTERED * budget)) result }
    ensures ran { TellsRuns W.fits W.asking W.answers W.called W.heard W.left
        (tags_of shared.now.slots.now) budget threads seat pass result }
{
    if threads == 1 {
        return run_thread(shared, alloc, number, budget, seat, pass);
    }
    let Ok(other_pass) = shared.queue.split(&mut pass) else {
        return (seat, pass, false);
    };
    let other_seat = shared.slots.split(&mut seat);
    let (one, rest) = join(
        shared.rt,
        move || -> (Seat<Group<W>>, QueuePass, bool)
            requires { CanRun shared.now.slots.now shared.now.queue.now number 1 other_seat other_pass
                × CanAsk W.fits W.only_asked W.may_ask W.right W.answers (tags_of shared.now.slots.now) }
            ensures { ComesBack shared.entry.now.slots.now shared.entry.now.queue.now other_seat other_pass
                (MOST_ENTERED * budget) result
                × TellsRuns W.fits W.asking W.answers W.called W.heard W.left
                (tags_of shared.entry.now.slots.now) budget 1 other_seat other_pass result }
        { run_thread(shared, alloc, number, budget, other_seat, other_pass) },
        move || -> (Seat<Group<W>>, QueuePass, bool)
            requires { CanRun shared.now.slots.now shared.now.queue.now (number + 1) (threads - 1) seat pass
                × (1 < threads)
                × CanAsk W.fits W.only_asked W.may_ask W.right W.answers (tags_of shared.now.slots.now)
                × IsSync R.row × IsSync G.row }
            ensures { ComesBack shared.entry.now.slots.now shared.entry.now.queue.now seat pass
                ((threads - 1) * (MOST_ENTERED * budget)) result
                × TellsRuns W.fits W.asking W.answers W.called W.heard W.left
                (tags_of shared.entry.now.slots.now) budget (threads - 1) seat pass result }
        { run_threads(shared, alloc, number + 1, threads - 1, budget, seat, pass) },
    );
    let (mut seat, mut pass, ended) = rest;
    shared.slots.join(&mut seat, one.0);
    shared.queue.join(&mut pass, one.1);
    (seat, pass, ended & one.2)
}

/// Starts the first so many groups, each in a turn of its own, by a seat and a pass of their own, which are
/// joined to these then. The tokens of their first events stand in the queue. Whatever is answered, the seat
/// and the pass are whole then, and the pass took nothing. Want of memory is answered where a pass has no
/// serial left too.
pub fn start_groups<W: World + Drop, G, R: Wait>(
    shared: &Shared<'_, Group<W>, G, R>,
    alloc: Global,
    seat: &mut Seat<Group<W>>,
    pass: &mut QueuePass,
    starts: u32,
) -> Result<(), NoMemory>
    requires pair { IsPair shared.now.slots.now shared.now.queue.now seat.old pass.old }
    requires opening { IsOpening seat.old pass.old }
    requires tags { CanStart W.only_asked (tags_of shared.now.slots.now) starts }
    ensures pair { IsPair shared.now.slots.now shared.now.queue.now seat.new pass.new }
    ensures opened { HasOpened starts seat.new pass.new }
    ensures knows { More (view seat.old).known (view seat.new).known }
    ensures later { OnOk result (Coherent (StandsAfter W.fits) (view seat.new).known) }
    ensures started { OnOk result (AllStarted W.Question W.Reply W.Trace W.fits
        (IsFirst W.is_first (tags_of shared.now.slots.now)) W.begun W.sound (HasPut pass.new)
        (view seat.new).known starts) }
{
    let wheel = Wheel::new(alloc)?;
    let own_pass = shared.queue.split(pass)?;
    let own_seat = shared.slots.split(seat);
    let mut desk = Desk {
        seat: own_seat,
        pass: own_pass,
        wheel,
    };
    let started = start_all(shared, &mut desk, starts);
    let waits = desk.wheel.next_due();
    let Desk {
        seat: own_seat,
        pass: own_pass,
        wheel: _,
    } = desk;
    shared.slots.join(seat, own_seat);
    shared.queue.join(pass, own_pass);
    let None = waits else {
        return Err(NoMemory);
    };
    started
}

/// Puts each group into a slot, starts the first so many in a turn of their own each, runs so many threads
/// with a budget of turns each, and takes the groups out again. Want of memory in one of the threads is that
/// of the whole.
pub fn run_groups<W: World + Drop + Send, G: Gate + Sync, R: Threads + Wait + Sync>(
    rt: &R,
    alloc: Global,
    groups: Vec<Group<W>>,
    tags: Vec<W::Tag>,
    plan: Plan,
    gate: &G,
) -> Result<Vec<Group<W>>, NoMemory>
where
    W::Tag: Drop,
    requires run { CanBeRun W.fits W.sound W.only_asked W.is_first W.may_ask W.right W.answers
        tags.items groups.items plan.starts plan.threads plan.budget }
    ensures groups { IfOk result (λ gs. HaveRun W.fits W.sound W.only_asked W.is_first W.begun
        tags.items groups.items plan.starts plan.threads plan.budget gs.items) }
    ensures ran { IfOk result (λ gs. WereRun ⟦<Group<W> as Slotted>⟧
        W.fits W.asking W.answers W.called W.heard W.left tags.items plan.budget
        (IsFirst W.is_first tags.items) W.begun W.sound plan.starts plan.threads gs.items) }
{
    let Ok((slots, mut seat)) = Slots::make(alloc, groups, tags) else {
        return Err(NoMemory);
    };
    let (queue, mut pass) = EventQueue::make(alloc)?;
    let shared = Shared {
        rt,
        slots: &slots,
        queue: &queue,
        gate,
    };
    start_groups(&shared, alloc, &mut seat, &mut pass, plan.starts)?;
    let (seat, _, ended) = run_threads(&shared, alloc, 0, plan.threads, plan.budget, seat, pass);
    if !ended {
        return Err(NoMemory);
    }
    let Ok(groups) = slots.close(alloc, seat) else {
        return Err(NoMemory);
    };
    Ok(groups)
}

/// Runs groups as `run_groups` does, and then handles what is still pending on this thread, until nothing is,
/// with the limit `MOST_ALONE`. The worlds tell what they have left to do.
pub fn run_whole<W: World + Drop + Send, G: Gate + Sync, R: Threads + Wait + Sync>(
    rt: &R,
    alloc: Global,
    groups: Vec<Group<W>>,
    tags: Vec<W::Tag>,
    plan: Plan,
    gate: &G,
) -> Result<Vec<Group<W>>, Unfinished>
where
    W::Tag: Drop,
    requires run { CanBeRun W.fits W.sound W.only_asked W.is_first W.may_ask W.right W.answers
        tags.items groups.items plan.starts plan.threads plan.budget }
    requires tells { EachTells W.Question W.Reply W.Trace W.fits W.sound W.only_asked W.is_first W.left
        tags.items }
    ensures ended { IfOk result (λ gs. HaveEnded W.fits W.sound W.only_asked W.is_first W.begun
        tags.items groups.items plan.starts plan.threads plan.budget gs.items) }
    ensures spares { EndSoon W.Question W.Reply W.Trace W.fits W.sound W.only_asked W.is_first W.left
        MOST_ALONE (turns_of plan.starts plan.threads plan.budget) tags.items
        → IsErrOf result Unfinished.Worn → ⊥ }
{
    let mut groups = run_groups(rt, alloc, groups, tags, plan, gate)?;
    finish_within(&mut groups, MOST_ALONE)?;
    Ok(groups)
}
