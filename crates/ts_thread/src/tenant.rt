//! How another group is left in a slot, in the place of the one that a turn found there.

ghost use Rattle.std.specs.Prelude.{◌≡◌};
ghost use Rattle.ts_group.specs.Context.{IsFresh};
ghost use Rattle.ts_slot.specs.Words.{tags_of, view, IsSeatOf};
ghost use Rattle.ts_thread.specs.Entering.{Finds, FindsLived, IsSameTurn};
ghost use Rattle.ts_thread.specs.Held.{FitsHere};
ghost use Rattle.ts_thread.specs.Seats.{Leaves, KnowsTurn};

use crate::seat::leave;
use std::mem;
use ts_group::{Group, World};
use ts_slot::{Seat, Slots, Turn};

/// Takes the group of a turn out, and puts another one there.
pub fn take_tenant<W: World + Drop>(turn: &mut Turn<Group<W>>, other: Group<W>) -> Group<W>
    ensures out { result ≡ turn.old.boxed.value }
    ensures other { turn.new.boxed.value ≡ other }
    ensures turn { IsSameTurn turn.old turn.new }
{
    mem::replace(turn.value(), other)
}

/// Leaves a group in the slot that the seat won last, in the place of the one that stands in the turn, which
/// comes out. It was made with the number of the turn, and nothing was done with it since.
pub fn put_tenant<W: World + Drop>(
    slots: &Slots<Group<W>>,
    seat: &mut Seat<Group<W>>,
    mut turn: Turn<Group<W>>,
    next: Group<W>,
) -> Group<W>
    requires seat { IsSeatOf slots.now seat.old }
    requires finds { FindsLived (view seat.old) turn }
    requires fresh { IsFresh turn.number next.cx }
    requires fits { FitsHere W.fits W.sound W.only_asked W.is_first (tags_of slots.now) turn.group next }
    ensures seat { IsSeatOf slots.now seat.new }
    ensures leaves { Leaves (view seat.old) (view seat.new) }
    ensures out { result ≡ turn.boxed.value }
    ensures knows { KnowsTurn turn.group turn.number next (view seat.new).known }
{
    let other = mem::replace(turn.value(), next);
    leave(slots, seat, turn);
    other
}

/// Leaves another group in the place of the one that the seat found and has not changed, which comes out. The
/// other one was made with the number of this turn, and nothing was done with it since.
pub fn change_tenant<W: World + Drop>(
    slots: &Slots<Group<W>>,
    seat: &mut Seat<Group<W>>,
    mut turn: Turn<Group<W>>,
    next: Group<W>,
) -> Group<W>
    requires seat { IsSeatOf slots.now seat.old }
    requires finds { Finds (tags_of slots.now) (view seat.old) turn }
    requires fresh { IsFresh turn.number next.cx }
    requires fits { FitsHere W.fits W.sound W.only_asked W.is_first (tags_of slots.now) turn.group next }
    ensures seat { IsSeatOf slots.now seat.new }
    ensures leaves { Leaves (view seat.old) (view seat.new) }
    ensures out { result ≡ turn.boxed.value }
    ensures knows { KnowsTurn turn.group turn.number next (view seat.new).known }
{
    turn.value().journal().known();
    put_tenant(slots, seat, turn, next)
}
