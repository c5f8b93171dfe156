//! How a seat enters a group that another seat may hold, and leaves a group in which it had a turn.

ghost use Rattle.std.specs.Prelude.{◌≡◌, ◌<◌, length, IfNone, IfSome};
ghost use Rattle.ts_slot.specs.Views.{IsAfter};
ghost use Rattle.ts_slot.specs.Words.{tags_of, view, IsSeatOf, IsTop, MayLeave, MarksOwn};
ghost use Rattle.ts_thread.specs.Entering.{Finds, FindsHeld, KeepsOnceLeft};
ghost use Rattle.ts_thread.specs.Seats.{KnowsTurn, Leaves};

use ts_slot::{Seat, Slots, Slotted, Turn};

/// Enters the group k, if no other seat holds it. What is found there stands after all that the seat knew of
/// the group.
pub fn enter<V: Slotted>(slots: &Slots<V>, seat: &mut Seat<V>, k: u32) -> Option<Turn<V>>
    requires seat { IsSeatOf slots.now seat.old }
    requires group { k < length (tags_of slots.now) }
    ensures seat { IsSeatOf slots.now seat.new }
    ensures group { IfSome result (λ turn. turn.group ≡ k) }
    ensures finds { IfSome result (Finds (tags_of slots.now) (view seat.new)) }
    ensures again { IfSome result (λ turn.
        IsAfter V.follows k turn.number (V.trace turn.boxed.value) (view seat.old).known) }
    ensures keeps { IfSome result (λ turn. KeepsOnceLeft (view seat.old) (view seat.new)) }
    ensures none { IfNone result (FindsHeld k (view seat.old) (view seat.new)) }
{
    match slots.try_enter(seat, k) {
        Ok(turn) => Some(turn),
        Err(_missed) => None,
    }
}

/// Leaves the group that the seat won last.
#[tactic(auto, using(crate::proofs::Seats::left_seat))]
pub fn leave<V: Slotted>(slots: &Slots<V>, seat: &mut Seat<V>, turn: Turn<V>)
    requires seat { IsSeatOf slots.now seat.old }
    requires top { IsTop (view seat.old) turn.group turn.number (V.trace turn.found.value) }
    requires value { MayLeave (tags_of slots.now) turn }
    requires marks { MarksOwn turn seat.old.number }
    ensures seat { IsSeatOf slots.now seat.new }
    ensures leaves { Leaves (view seat.old) (view seat.new) }
    ensures knows { KnowsTurn turn.group turn.number (V.trace turn.boxed.value) (view seat.new).known }
{
    slots.leave(seat, turn);
}

/// Leaves the group that the seat won last, as it was found.
#[tactic(auto, using(crate::proofs::Seats::left_seat))]
pub fn leave_found<V: Slotted>(slots: &Slots<V>, seat: &mut Seat<V>, turn: Turn<V>)
    requires seat { IsSeatOf slots.now seat.old }
    requires finds { Finds (tags_of slots.now) (view seat.old) turn }
    ensures seat { IsSeatOf slots.now seat.new }
    ensures leaves { Leaves (view seat.old) (view seat.new) }
    ensures knows { KnowsTurn turn.group turn.number (V.trace turn.boxed.value) (view seat.new).known }
{
    slots.leave(seat, turn);
}
