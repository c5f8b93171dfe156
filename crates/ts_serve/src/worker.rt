//! The threads that work beside the first one: each takes turns until a flag says that it is to stop.

ghost use Rattle.std.specs.Prelude.{◌≡◌, ◌+◌, ◌-◌, ◌<◌, ◌≤◌, OnOk, OnErr};
ghost use Rattle.std.specs.Thread.{IsSync};
ghost use Rattle.ts_slot.specs.Words.{tags_of};
ghost use Rattle.ts_thread.specs.declared.TheConstants.{MOST_ENTERED, MOST_THREADS};
ghost use Rattle.ts_thread.specs.Desks.{IsDeskOf, KeepsDesk};
ghost use Rattle.ts_thread.specs.Tags.{CanAsk};
ghost use Rattle.ts_serve.specs.Working.{CanWork, HasWorked, LacksInTurn, TakesTurn, TellWorks};

use crate::service::Service;
use std::sync::Wait;
use std::sync::atomic::Ordering;
use std::thread::{Threads, join};
use ts_group::{Group, World};
use ts_link::{Clock, Gate, NoMemory};
use ts_slot::Slotted;
use ts_thread::{Desk, Did, MOST_THREADS, turn_desk};

/// For how long a thread pauses that has nothing to do, in milliseconds, while clients are there.
pub const PAUSE: u64 = 1;

/// A desk at which threads worked.
#[derive(Drop)]
pub struct Worked<V: Slotted> {
    pub desk: Desk<V>,
    /// Memory lacked in none of their turns, and not for a part of the desk.
    pub whole: bool,
}

/// The work of the first thread, which is done beside those that work it.
pub trait Task {
    /// What comes of it.
    type Output;

    /// It can be done.
    ghost can_run: { Self → Type 0 };

    /// What holds of what comes of it.
    ghost gives: { Self → Self.Output → Type 0 };

    /// Does the work.
    fn run(self) -> Self::Output
        requires can { can_run self }
        ensures gives { gives self result };
}

// Takes a turn at a desk, as the thread of a number, and pauses where there was nothing to do.
fn work_once<W: World + Drop, G: Gate, C: Clock, R: Wait>(
    service: &Service<'_, Group<W>, G, C, R>,
    number: u32,
    desk: &mut Desk<Group<W>>,
) -> Result<(), NoMemory>
    requires desk { IsDeskOf service.now.shared.slots.now service.now.shared.queue.now desk.old }
    requires asks { CanAsk W.fits W.only_asked W.may_ask W.right W.answers
        (tags_of service.now.shared.slots.now) }
    ensures desk { IsDeskOf service.now.shared.slots.now service.now.shared.queue.now desk.new }
    ensures keeps { KeepsDesk desk.old desk.new MOST_ENTERED }
    ensures did { OnOk result (TakesTurn W.fits W.asking W.answers W.called W.heard W.left
        (tags_of service.now.shared.slots.now) desk.old desk.new) }
    ensures err { OnErr result (LacksInTurn (tags_of service.now.shared.slots.now) desk.old desk.new) }
{
    let moment = service.clock.now();
    let did = turn_desk(&service.shared, number, desk, moment)?;
    if let Did::Idle = did {
        let pause = service.pause.load(Ordering::SeqCst);
        service.clock.pause(pause);
    }
    Ok(())
}

// Takes turns at a desk, as the thread of a number, until the flag is set. Where memory lacks it sets the
// flag.
fn work<W: World + Drop, G: Gate, C: Clock, R: Wait>(
    service: &Service<'_, Group<W>, G, C, R>,
    number: u32,
    mut desk: Desk<Group<W>>,
) -> Worked<Group<W>>
    requires works { CanWork service.now.shared.slots.now service.now.shared.queue.now 1 desk }
    requires asks { CanAsk W.fits W.only_asked W.may_ask W.right W.answers
        (tags_of service.now.shared.slots.now) }
    ensures worked { HasWorked service.now.shared.slots.now service.now.shared.queue.now desk result.desk }
    ensures tells { TellWorks W.fits W.asking W.answers W.called W.heard W.left
        (tags_of service.now.shared.slots.now) 1 result.whole desk result.desk }
{
    'turns: for _ in service.shared.rt.forever() {
        if service.stop.load(Ordering::SeqCst) {
            return Worked { desk, whole: true };
        }
        let Ok(()) = work_once(service, number, &mut desk) else {
            service.stop.store(true, Ordering::SeqCst);
            return Worked { desk, whole: false };
        };
    }
    unreachable!()
}

// So many threads, from this number on, take turns until the flag is set. Where memory lacks in one of them,
// or for them, it is set.
fn work_all<W: World + Drop + Send, G: Gate + Sync, C: Clock + Sync, R: Threads + Wait + Sync>(
    service: &Service<'_, Group<W>, G, C, R>,
    number: u32,
    threads: u32,
    mut desk: Desk<Group<W>>,
) -> Worked<Group<W>>
    requires works { CanWork service.now.shared.slots.now service.now.shared.queue.now threads desk
        × (number + threads ≤ MOST_THREADS) }
    requires asks { CanAsk W.fits W.only_asked W.may_ask W.right W.answers
        (tags_of service.now.shared.slots.now) }
    ensures worked { HasWorked service.now.shared.slots.now service.now.shared.queue.now desk result.desk }
    ensures tells { TellWorks W.fits W.asking W.answers W.called W.heard W.left
        (tags_of service.now.shared.slots.now) threads result.whole desk result.desk }
{
    if threads == 1 {
        return work(service, number, desk);
    }
    let Ok(other) = desk.split(service.alloc, service.shared.slots, service.shared.queue) else {
        service.stop.store(true, Ordering::SeqCst);
        return Worked { desk, whole: false };
    };
    let (one, rest) = join(
        service.shared.rt,
        move || -> Worked<Group<W>>
            requires { CanWork service.now.shared.slots.now service.now.shared.queue.now 1 other
                × CanAsk W.fits W.only_asked W.may_ask W.right W.answers
                (tags_of service.now.shared.slots.now) }
            ensures { HasWorked service.entry.now.shared.slots.now service.entry.now.shared.queue.now
                other result.desk
                × TellWorks W.fits W.asking W.answers W.called W.heard W.left
                (tags_of service.entry.now.shared.slots.now) 1 result.whole other result.desk }
        { work(service, number, other) },
        move || -> Worked<Group<W>>
            requires { CanWork service.now.shared.slots.now service.now.shared.queue.now (threads - 1) desk
                × (1 < threads) × (number + threads ≤ MOST_THREADS)
                × CanAsk W.fits W.only_asked W.may_ask W.right W.answers
                (tags_of service.now.shared.slots.now)
                × IsSync R.row × IsSync G.row × IsSync C.row }
            ensures { HasWorked service.entry.now.shared.slots.now service.entry.now.shared.queue.now
                desk result.desk
                × TellWorks W.fits W.asking W.answers W.called W.heard W.left
                (tags_of service.entry.now.shared.slots.now) (threads - 1) result.whole desk result.desk }
        { work_all(service, number + 1, threads - 1, desk) },
    );
    let Worked {
        desk: other,
        whole: own,
    } = one;
    let Worked { mut desk, whole } = rest;
    desk.join(service.shared.slots, service.shared.queue, other);
    Worked {
        desk,
        whole: whole & own,
    }
}

/// Does a task in this thread, beside so many threads, from this number on, that take turns until the flag is
/// set. Where no thread can be made, the task is done first.
pub fn run_beside<
    W: World + Drop + Send,
    G: Gate + Sync,
    C: Clock + Sync,
    R: Threads + Wait + Sync,
    T: Task + Drop,
>(
    service: &Service<'_, Group<W>, G, C, R>,
    number: u32,
    threads: u32,
    desk: Desk<Group<W>>,
    task: T,
) -> (Worked<Group<W>>, T::Output)
    requires works { CanWork service.now.shared.slots.now service.now.shared.queue.now threads desk
        × (number + threads ≤ MOST_THREADS) }
    requires asks { CanAsk W.fits W.only_asked W.may_ask W.right W.answers
        (tags_of service.now.shared.slots.now) }
    requires task { T.can_run task }
    ensures { HasWorked service.now.shared.slots.now service.now.shared.queue.now desk result.0.desk
        × TellWorks W.fits W.asking W.answers W.called W.heard W.left
        (tags_of service.now.shared.slots.now) threads result.0.whole desk result.0.desk
        × T.gives task result.1 }
{
    join(
        service.shared.rt,
        move || -> Worked<Group<W>>
            requires { CanWork service.now.shared.slots.now service.now.shared.queue.now threads desk
                × (number + threads ≤ MOST_THREADS)
                × CanAsk W.fits W.only_asked W.may_ask W.right W.answers
                (tags_of service.now.shared.slots.now)
                × IsSync R.row × IsSync G.row × IsSync C.row }
            ensures { HasWorked service.entry.now.shared.slots.now service.entry.now.shared.queue.now
                desk result.desk
                × TellWorks W.fits W.asking W.answers W.called W.heard W.left
                (tags_of service.entry.now.shared.slots.now) threads result.whole desk result.desk }
        { work_all(service, number, threads, desk) },
        move || -> T::Output
            requires { T.can_run task }
            ensures { T.gives task result }
        { task.run() },
    )
}
