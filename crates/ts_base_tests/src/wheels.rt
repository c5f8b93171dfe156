//! Rows of the wheel: tokens come by their moments, and at one moment in the order in which they were added.
use crate::memory::MEMORY;
use std::process::Abort;
use ts_wheel::Wheel;

// Adds the tokens in this order, each at its moment, with its place as the token.
fn wheel_of(rt: &(impl AllocGlobal + Abort), moments: &[u64]) -> Wheel<usize> {
    let mut wheel = Wheel::new(rt.alloc()).expect(rt, MEMORY);
    for (token, due) in moments.iter().enumerate() {
        wheel.add(*due, token).expect(rt, MEMORY);
    }
    wheel
}

// The first of these takings that is not answered so.
fn other_taken(wheel: &mut Wheel<usize>, rows: &[(u64, Option<usize>)]) -> Option<usize> {
    for (row, (now, token)) in rows.iter().enumerate() {
        if wheel.take_due(*now) != *token {
            return Some(row);
        }
    }
    None
}

#[test]
fn the_first_that_is_due_is_taken(rt: HostRuntime) {
    let mut wheel = wheel_of(&rt, &[5, 3, 5]);
    let first = wheel.next_due();
    let early = other_taken(&mut wheel, &[(4, Some(1)), (4, None)]);
    let then = wheel.next_due();
    let late = other_taken(&mut wheel, &[(5, Some(0)), (5, Some(2)), (5, None)]);
    let due = [first, then, wheel.next_due()];
    assert!(rt; (early, late) == (None, None) && due == [Some(3), Some(5), None]);
}

#[test]
fn tokens_of_several_laps_come_in_order(rt: HostRuntime) {
    let mut wheel = wheel_of(&rt, &[0, 511, 512, 100_000, 511]);
    let end = 100_000;
    let rows = [
        (end, Some(0)),
        (end, Some(1)),
        (end, Some(4)),
        (end, Some(2)),
        (end, Some(3)),
        (end, None),
    ];
    let other = other_taken(&mut wheel, &rows);
    assert!(rt; other.is_none());
}

#[test]
fn a_lap_moves_on_and_earlier_tokens_still_come_first(rt: HostRuntime) {
    let mut wheel = wheel_of(&rt, &[u64::MAX, 7_000]);
    let first = other_taken(&mut wheel, &[(6_999, None), (7_000, Some(1))]);
    for (due, token) in [(10, 2), (7_511, 3), (10, 4)] {
        wheel.add(due, token).expect(&rt, MEMORY);
    }
    let end = u64::MAX;
    let rows = [
        (end, Some(2)),
        (end, Some(4)),
        (end, Some(3)),
        (end, Some(0)),
    ];
    let other = other_taken(&mut wheel, &rows);
    assert!(rt; (first, other, wheel.next_due()) == (None, None, None));
}
