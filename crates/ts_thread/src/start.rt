//! The first turn of each group, in which its world sets its first events.

ghost use Rattle.std.specs.Prelude.{◌≡◌, ℕ, ◌<◌, ◌+◌, true, false, length, IfOk, OnOk};
ghost use Rattle.ts_journal.specs.declared.entry.TheConstants.{GREATEST};
ghost use Rattle.ts_slot.specs.Words.{tags_of, view, IsSeatOf, Misses};
ghost use Rattle.ts_thread.specs.Desks.{IsDeskOf, KeepsTokens, LeavesDesk};
ghost use Rattle.ts_thread.specs.Entering.{IsEntered, IsWon};
ghost use Rattle.ts_thread.specs.Held.{FitsHere};
ghost use Rattle.ts_thread.specs.News.{HasPlaceAt};
ghost use Rattle.ts_thread.specs.Started.{CanStart, MayStart, IsFirst, Started, AllStarted};

use crate::desk::Desk;
use crate::seat::leave;
use crate::shared::Shared;
use crate::turn::{begin, end_turn, start};
use std::sync::Wait;
use ts_group::{Group, World};
use ts_link::NoMemory;
use ts_slot::{Seat, Slots, Slotted, Turn};

// Enters the group k, however often it is missed.
fn enter_at<V: Slotted, R: Wait>(rt: &R, slots: &Slots<V>, seat: &mut Seat<V>, k: u32) -> Turn<V>
    requires seat { IsSeatOf slots.now seat.old }
    requires group { k < length (tags_of slots.now) }
    ensures seat { IsSeatOf slots.now seat.new }
    ensures entered { IsEntered (tags_of slots.now) k (view seat.old) (view seat.new) result }
{
    'tries: for _ in rt.forever() {
        if let Ok(turn) = slots.try_enter(seat, k) {
            return turn;
        }
    }
    unreachable!()
}

// Starts the group that the seat won last, in this turn of it, at a moment. The tokens of all its first
// events go into the queue, unless the pass has no serial left.
fn start_won<W: World + Drop, G, R: Wait>(
    shared: &Shared<'_, Group<W>, G, R>,
    desk: &mut Desk<Group<W>>,
    mut turn: Turn<Group<W>>,
    moment: u64,
) -> Result<(), NoMemory>
    requires desk { IsDeskOf shared.now.slots.now shared.now.queue.now desk.old }
    requires won { IsWon (view desk.old.seat) turn }
    requires fits { FitsHere W.fits W.sound W.only_asked W.is_first
        (tags_of shared.now.slots.now) turn.group turn.boxed.value }
    requires tag { MayStart W.only_asked (tags_of shared.now.slots.now) turn.group }
    ensures desk { IsDeskOf shared.now.slots.now shared.now.queue.now desk.new }
    ensures leaves { LeavesDesk desk.old desk.new }
    ensures started { OnOk result (Started W.Question W.Reply W.Trace W.fits
        (IsFirst W.is_first (tags_of shared.now.slots.now)) W.begun W.sound (HasPlaceAt GREATEST desk.new)
        (view desk.new.seat).known turn.group) }
{
    let owner = desk.seat.number();
    let number = turn.number();
    if let Err(_) = begin(turn.value(), number, owner, moment) {
        leave(shared.slots, &mut desk.seat, turn);
        return Err(NoMemory);
    }
    start(turn.value());
    end_turn(shared, desk, true, turn, u64::MAX)
}

// Starts the group k in a turn of its own, at the moment 0, however often it is missed.
fn start_one<W: World + Drop, G, R: Wait>(
    shared: &Shared<'_, Group<W>, G, R>,
    desk: &mut Desk<Group<W>>,
    k: u32,
) -> Result<(), NoMemory>
    requires desk { IsDeskOf shared.now.slots.now shared.now.queue.now desk.old }
    requires tags { CanStart W.only_asked (tags_of shared.now.slots.now) (k + 1) }
    ensures desk { IsDeskOf shared.now.slots.now shared.now.queue.now desk.new }
    ensures keeps { KeepsTokens desk.old desk.new 1 }
    ensures started { OnOk result (Started W.Question W.Reply W.Trace W.fits
        (IsFirst W.is_first (tags_of shared.now.slots.now)) W.begun W.sound (HasPlaceAt GREATEST desk.new)
        (view desk.new.seat).known k) }
{
    let turn = enter_at(shared.rt, shared.slots, &mut desk.seat, k);
    start_won(shared, desk, turn, 0)
}

/// Starts the group k in a turn of its own, at a moment, if no other seat holds it, and answers whether it
/// did. The tokens of its first events go into the queue, unless the pass has no serial left.
pub fn try_start<W: World + Drop, G, R: Wait>(
    shared: &Shared<'_, Group<W>, G, R>,
    desk: &mut Desk<Group<W>>,
    k: u32,
    moment: u64,
) -> Result<bool, NoMemory>
    requires desk { IsDeskOf shared.now.slots.now shared.now.queue.now desk.old }
    requires tag { MayStart W.only_asked (tags_of shared.now.slots.now) k }
    ensures desk { IsDeskOf shared.now.slots.now shared.now.queue.now desk.new }
    ensures keeps { KeepsTokens desk.old desk.new 1 }
    ensures started { IfOk result (λ done. done ≡ true → Started W.Question W.Reply W.Trace W.fits
        (IsFirst W.is_first (tags_of shared.now.slots.now)) W.begun W.sound (HasPlaceAt GREATEST desk.new)
        (view desk.new.seat).known k) }
    ensures missed { IfOk result (λ done. done ≡ false →
        (seen : ℕ) × Misses k seen (view desk.old.seat) (view desk.new.seat)) }
{
    let Ok(turn) = shared.slots.try_enter(&mut desk.seat, k) else {
        return Ok(false);
    };
    start_won(shared, desk, turn, moment)?;
    Ok(true)
}

/// Starts the first so many groups, each in a turn of its own.
pub fn start_all<W: World + Drop, G, R: Wait>(
    shared: &Shared<'_, Group<W>, G, R>,
    desk: &mut Desk<Group<W>>,
    starts: u32,
) -> Result<(), NoMemory>
    requires desk { IsDeskOf shared.now.slots.now shared.now.queue.now desk.old }
    requires tags { CanStart W.only_asked (tags_of shared.now.slots.now) starts }
    ensures desk { IsDeskOf shared.now.slots.now shared.now.queue.now desk.new }
    ensures keeps { KeepsTokens desk.old desk.new starts }
    ensures started { OnOk result (AllStarted W.Question W.Reply W.Trace W.fits
        (IsFirst W.is_first (tags_of shared.now.slots.now)) W.begun W.sound (HasPlaceAt GREATEST desk.new)
        (view desk.new.seat).known starts) }
{
    'starts: for k in 0..starts {
        start_one(shared, desk, k)?;
    }
    Ok(())
}
