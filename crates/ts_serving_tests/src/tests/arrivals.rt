//! Who comes: a net that is closed, waits, fails or gives as many as were to come.

use crate::command::MEMORY;
use crate::row::{Row, all_come, check, failing_at};
use ts_mem_nets::pages::{mixed_visits_of, pages_of, visits_of};

// A net that is closed ends the program with status 0, also where nobody came.
#[test]
fn a_closed_net_ends_it(rt: HostRuntime) {
    let pages = pages_of(rt.alloc(), 2).expect(&rt, MEMORY);
    let visits = visits_of(rt.alloc(), pages.as_slice()).expect(&rt, MEMORY);
    check(&rt, &all_come(&[]));
    check(&rt, &all_come(visits.as_slice()));
}

// An accept that waits is made again.
#[test]
fn a_net_that_waits_is_asked_again(rt: HostRuntime) {
    let pages = pages_of(rt.alloc(), 3).expect(&rt, MEMORY);
    let visits = mixed_visits_of(rt.alloc(), pages.as_slice()).expect(&rt, MEMORY);
    let row = Row {
        again: &[1, 2, 4, 5, 6],
        ..all_come(visits.as_slice())
    };
    check(&rt, &row);
}

// Who came before the net failed is served to the end, and nobody comes after.
#[test]
fn a_net_that_fails_ends_it_with_8(rt: HostRuntime) {
    let pages = pages_of(rt.alloc(), 3).expect(&rt, MEMORY);
    let visits = visits_of(rt.alloc(), pages.as_slice()).expect(&rt, MEMORY);
    for (number, came) in [(1, 0), (2, 1), (4, 3)] {
        let numbers = [number];
        check(&rt, &failing_at(visits.as_slice(), &numbers, came));
    }
}

// No more come than were asked for, though the net has more.
#[test]
fn as_many_come_as_are_asked_for(rt: HostRuntime) {
    let pages = pages_of(rt.alloc(), 3).expect(&rt, MEMORY);
    let visits = mixed_visits_of(rt.alloc(), pages.as_slice()).expect(&rt, MEMORY);
    for (connections, came) in [("1", 1), ("2", 2), ("+03", 3), ("4", 3)] {
        let row = Row {
            connections,
            came,
            ..all_come(visits.as_slice())
        };
        check(&rt, &row);
    }
}
