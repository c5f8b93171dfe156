//! Groups that are entered, missed, left, split and joined, on one thread and on two.

ghost use Rattle.std.specs.Prelude.{⊤, ◌≡◌, ℕ, ◌<◌, ◌≤◌, [], List, length};
ghost use Rattle.std.proofs.Math.Nat.{le_refl, le_trans};
ghost use Rattle.ts_slot.specs.Limits.{whole_share};
ghost use Rattle.ts_slot.specs.Views.{opener};
ghost use Rattle.ts_slot.specs.Words.{tags_of, view, IsSeatOf};

use crate::memory::MEMORY;
use std::process::Abort;
use std::thread::{Threads, join};
use ts_slot::{Left, Missed, Seat, Slots, Slotted};

// Its trace is the number itself, which never falls.
#[derive(Drop)]
struct Rising(u64);

impl Slotted for Rising {
    type Tag = ();

    type Trace = u64;

    ghost fits = { λ tag x. ⊤ };

    ghost stamp = { λ x. 0 };

    ghost marks = { λ x. [] };

    ghost trace = { λ x. x.0 };

    ghost follows = { λ t u. u ≤ t };

    ghost follows_itself = { λ t. le_refl t };

    ghost follows_on = { λ t u v a b. le_trans b a };
}

// Slots of one group.
fn one_group(rt: &(impl AllocGlobal + Abort), number: u64) -> (Slots<Rising>, Seat<Rising>)
    ensures seat { IsSeatOf result.0 result.1 }
    ensures view { (ks : List (ℕ × ℕ × ℕ)) × (view result.1 ≡ opener (tags_of result.0) ks) }
    ensures count { length (tags_of result.0) ≡ 1 }
{
    let values = Vec::from_array(rt.alloc(), [Rising(number)]).expect(rt, MEMORY);
    let tags = Vec::from_array(rt.alloc(), [()]).expect(rt, MEMORY);
    Slots::make(rt.alloc(), values, tags).expect(rt, MEMORY)
}

// Slots of two groups.
fn two_groups(rt: &(impl AllocGlobal + Abort)) -> (Slots<Rising>, Seat<Rising>)
    ensures seat { IsSeatOf result.0 result.1 }
    ensures view { (ks : List (ℕ × ℕ × ℕ)) × (view result.1 ≡ opener (tags_of result.0) ks) }
    ensures count { length (tags_of result.0) ≡ 2 }
{
    let values = Vec::from_array(rt.alloc(), [Rising(5), Rising(6)]).expect(rt, MEMORY);
    let tags = Vec::from_array(rt.alloc(), [(), ()]).expect(rt, MEMORY);
    Slots::make(rt.alloc(), values, tags).expect(rt, MEMORY)
}

// One turn of group 0, in which the number grows by `by` and is at least `least` then. Answers the turn and
// what was found; `None` at a miss.
fn raise(slots: &Slots<Rising>, seat: &mut Seat<Rising>, by: u64, least: u64) -> Option<(u64, u64)>
    requires seat { IsSeatOf slots.now seat.old × (0 < length (tags_of slots.now)) }
    requires idle { (view seat.old).held ≡ [] }
    ensures seat { IsSeatOf slots.now seat.new }
    ensures idle { (view seat.new).held ≡ [] }
    ensures share { (view seat.new).share ≡ (view seat.old).share }
{
    let Ok(mut turn) = slots.try_enter(seat, 0) else {
        return None;
    };
    let number = turn.number();
    let found = turn.value().0;
    turn.value().0 = found.saturating_add(by).max(least);
    slots.leave(seat, turn);
    Some((number, found))
}

// The number of group 0, after all seats were joined.
fn close(rt: &(impl AllocGlobal + Abort), slots: Slots<Rising>, seat: Seat<Rising>) -> Option<u64>
    requires seat { IsSeatOf slots seat × ((view seat).held ≡ []) }
    requires share { (view seat).share ≡ whole_share }
{
    let Ok(values) = slots.close(rt.alloc(), seat) else {
        panic!(rt; "{MEMORY}")
    };
    values.first().map(|value| value.0)
}

// What four tries to enter and leave one group answer: a turn, a miss by the seat that holds it, what became
// of the group, and the next turn.
fn enters_twice(slots: &Slots<Rising>, seat: &mut Seat<Rising>) -> Option<(u64, u64, Left, u64)>
    requires seat { IsSeatOf slots.now seat.old × (0 < length (tags_of slots.now)) }
    requires idle { (view seat.old).held ≡ [] }
{
    let Ok(turn) = slots.try_enter(seat, 0) else {
        return None;
    };
    let first = turn.number();
    let tried = slots.try_enter(seat, 0);
    let Err(Missed { seen }) = tried else {
        unreachable!()
    };
    let left = slots.leave(seat, turn);
    let Ok(again) = slots.try_enter(seat, 0) else {
        return None;
    };
    let second = again.number();
    slots.leave(seat, again);
    Some((first, seen, left, second))
}

#[test]
fn a_held_group_is_missed(rt: HostRuntime) {
    let (slots, mut seat) = one_group(&rt, 5);
    let answers = enters_twice(&slots, &mut seat);
    let numbers = (slots.groups(), seat.number());
    assert!(rt; (answers, numbers) == (Some((1, 1, Left::Freed, 2)), (1, 0)));
}

// One turn of each of two groups at a time, of which the group that was entered first is left first.
fn crosses(slots: &Slots<Rising>, seat: &mut Seat<Rising>) -> Option<(Left, Left)>
    requires seat { IsSeatOf slots.now seat.old × (1 < length (tags_of slots.now)) }
    requires idle { (view seat.old).held ≡ [] }
{
    let Ok(first) = slots.try_enter(seat, 0) else {
        return None;
    };
    let Ok(second) = slots.try_enter(seat, 1) else {
        slots.leave(seat, first);
        return None;
    };
    let left = slots.leave(seat, first);
    Some((left, slots.leave(seat, second)))
}

#[test]
fn a_turn_of_two_groups_is_left_in_any_order(rt: HostRuntime) {
    let (slots, mut seat) = two_groups(&rt);
    let left = crosses(&slots, &mut seat);
    assert!(rt; (left, slots.groups()) == (Some((Left::Freed, Left::Freed)), 2));
}

// What the turns of two seats found, and the number at the end.
type HandedOver = ([Option<(u64, u64)>; 3], Option<u64>);

// What two seats find of one group: the second has two turns and leaves 7, and then the first has one. With
// the number at the end, after the second was joined.
fn hands_over(rt: &(impl AllocGlobal + Abort)) -> HandedOver {
    let (slots, mut first) = one_group(rt, 0);
    let mut second = slots.split(&mut first);
    let one = raise(&slots, &mut second, 1, 0);
    let two = raise(&slots, &mut second, 0, 7);
    let three = raise(&slots, &mut first, 0, 0);
    slots.join(&mut first, second);
    ([one, two, three], close(rt, slots, first))
}

// The same with the seats in threads of their own, which are joined before the first seat enters.
fn hands_over_from_a_thread(rt: &(impl AllocGlobal + Abort + Threads + Sync)) -> HandedOver {
    let (slots, mut first) = one_group(rt, 0);
    let mut second = slots.split(&mut first);
    let shared = &slots;
    let (theirs, mut first) = join(
        rt,
        move || -> (Seat<Rising>, Option<(u64, u64)>, Option<(u64, u64)>)
            requires seat { IsSeatOf shared.now second × (0 < length (tags_of shared.now)) }
            requires idle { (view second).held ≡ [] }
            ensures seat { IsSeatOf shared.entry.now result.0 × ((view result.0).held ≡ []) }
            ensures share { (view result.0).share ≡ (view second).share }
        {
            let one = raise(shared, &mut second, 1, 0);
            let two = raise(shared, &mut second, 0, 7);
            (second, one, two)
        },
        move || -> Seat<Rising>
            ensures { result ≡ first }
        { first },
    );
    let (second, one, two) = theirs;
    slots.join(&mut first, second);
    let three = raise(&slots, &mut first, 0, 0);
    ([one, two, three], close(rt, slots, first))
}

#[test]
fn a_seat_finds_what_another_left(rt: HostRuntime) {
    let found = [Some((1, 0)), Some((2, 1)), Some((3, 7))];
    assert!(rt; hands_over(&rt) == (found, Some(7)));
    assert!(rt; hands_over_from_a_thread(&rt) == (found, Some(7)));
}
