//! A turn of a group in which its world brings its events forward.

ghost use Rattle.std.specs.Prelude.{◌≡◌, ℕ, true, false, IfOk, OnOk};
ghost use Rattle.ts_slot.specs.Words.{tags_of, view, Misses};
ghost use Rattle.ts_thread.specs.Desks.{IsDeskOf, KeepsTokens, LeavesDesk};
ghost use Rattle.ts_thread.specs.Entering.{IsWon};
ghost use Rattle.ts_thread.specs.Held.{FitsHere};
ghost use Rattle.ts_thread.specs.News.{HasPlaceAt};
ghost use Rattle.ts_thread.specs.Started.{MayStart, IsFirst, Roused};

use crate::desk::Desk;
use crate::seat::leave;
use crate::shared::Shared;
use crate::turn::{begin, end_turn, rouse};
use std::sync::Wait;
use ts_group::{Group, Rouse};
use ts_link::NoMemory;
use ts_slot::Turn;

// Rouses the group that the seat won last, in this turn of it, at a moment. The tokens of what is due then go
// into the queue, unless the pass has no serial left.
fn rouse_won<W: Rouse + Drop, G, R: Wait>(
    shared: &Shared<'_, Group<W>, G, R>,
    desk: &mut Desk<Group<W>>,
    mut turn: Turn<Group<W>>,
    moment: u64,
) -> Result<(), NoMemory>
    requires desk { IsDeskOf shared.now.slots.now shared.now.queue.now desk.old }
    requires won { IsWon (view desk.old.seat) turn }
    requires fits { FitsHere W.fits W.sound W.only_asked W.is_first
        (tags_of shared.now.slots.now) turn.group turn.boxed.value }
    requires tag { MayStart W.only_asked (tags_of shared.now.slots.now) turn.group }
    ensures desk { IsDeskOf shared.now.slots.now shared.now.queue.now desk.new }
    ensures leaves { LeavesDesk desk.old desk.new }
    ensures roused { OnOk result (Roused W.Question W.Reply W.Trace W.fits
        (IsFirst W.is_first (tags_of shared.now.slots.now)) W.sound (HasPlaceAt moment desk.new)
        (view desk.new.seat).known turn.group) }
{
    let owner = desk.seat.number();
    let number = turn.number();
    if let Err(_) = begin(turn.value(), number, owner, moment) {
        leave(shared.slots, &mut desk.seat, turn);
        return Err(NoMemory);
    }
    rouse(turn.value());
    end_turn(shared, desk, true, turn, moment)
}

/// Brings the events of the group k forward in a turn of its own, at a moment, if no other seat holds it, and
/// answers whether it did. No event is handled. The tokens of what is due then go into the queue, where any
/// thread finds them, unless the pass has no serial left.
pub fn try_rouse<W: Rouse + Drop, G, R: Wait>(
    shared: &Shared<'_, Group<W>, G, R>,
    desk: &mut Desk<Group<W>>,
    k: u32,
    moment: u64,
) -> Result<bool, NoMemory>
    requires desk { IsDeskOf shared.now.slots.now shared.now.queue.now desk.old }
    requires tag { MayStart W.only_asked (tags_of shared.now.slots.now) k }
    ensures desk { IsDeskOf shared.now.slots.now shared.now.queue.now desk.new }
    ensures keeps { KeepsTokens desk.old desk.new 1 }
    ensures roused { IfOk result (λ done. done ≡ true → Roused W.Question W.Reply W.Trace W.fits
        (IsFirst W.is_first (tags_of shared.now.slots.now)) W.sound (HasPlaceAt moment desk.new)
        (view desk.new.seat).known k) }
    ensures missed { IfOk result (λ done. done ≡ false →
        (seen : ℕ) × Misses k seen (view desk.old.seat) (view desk.new.seat)) }
{
    let Ok(turn) = shared.slots.try_enter(&mut desk.seat, k) else {
        return Ok(false);
    };
    rouse_won(shared, desk, turn, moment)?;
    Ok(true)
}
