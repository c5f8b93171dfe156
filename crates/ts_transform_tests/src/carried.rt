//! Bodies between two links, driven to their ends.

use crate::links::{Ending, Plan, SINGLE, WHOLE, carry, end_of, make_links, start};
use crate::tail::{MEMORY, letter, letters, tails};
use std::process::Abort;
use ts_journal::{Event, MOST_KEYS};
use ts_transform::{DriveFault, Loss, drive_links};

// So many continuations a group has room for beside its own.
const PLACES: u32 = MOST_KEYS - 1;

// One null stage, and three of them.
const ONE: &[&[u8]] = &[b""];

const THREE: &[&[u8]] = &[b"", b"", b""];

// What came of a run: how it ended, how many bytes were written, and whether they are the front of the body.
#[derive(Clone, Copy)]
struct Carried {
    ending: Ending,
    written: usize,
    is_front: bool,
}

// Whether these bytes are letters in their order.
fn are_letters(bytes: &[u8]) -> bool {
    let mut place = 0;
    for byte in bytes {
        if *byte != letter(place) {
            return false;
        }
        place = place.saturating_add(1);
    }
    true
}

// Carries so many letters from one link through null stages to the other.
fn run_of(rt: &(impl AllocGlobal + Abort), plan: &Plan, texts: &[&[u8]], len: u32) -> Carried {
    let body = letters(rt.alloc(), len).expect(rt, MEMORY);
    let parts = tails(rt.alloc(), texts).expect(rt, MEMORY);
    let mut group = make_links(rt, plan, parts, body);
    let most = carry(rt, &mut group, plan);
    let (ending, output) = end_of(group, most);
    Carried {
        ending,
        written: output.written().len(),
        is_front: are_letters(output.written()),
    }
}

// Whether three letters came whole through a null stage, with so many waits.
fn comes_whole(rt: &(impl AllocGlobal + Abort), plan: &Plan, waits: (u64, u64)) -> bool {
    let came = run_of(rt, plan, ONE, 3);
    came.is_front && came.written == 3 && came.ending.is_well(waits)
}

#[test]
fn a_body_comes_whole_through_a_chain_to_another_link(rt: HostRuntime) {
    let cases = [
        (SINGLE, (0, 0)),
        (
            Plan {
                again_write: 1,
                ..SINGLE
            },
            (0, 1),
        ),
        (
            Plan {
                again_read: 2,
                ..SINGLE
            },
            (1, 0),
        ),
    ];
    for (plan, waits) in &cases {
        assert!(rt; comes_whole(&rt, plan, *waits));
    }
    let empty = run_of(&rt, &SINGLE, &[], 0);
    assert!(rt; empty.written == 0 && empty.ending.is_well((0, 0)));
}

#[test]
fn no_event_of_any_kind_ends_the_run_between_links(rt: HostRuntime) {
    let events = [
        Event::Error,
        Event::ReadReady,
        Event::Hook,
        Event::WriteComplete,
        Event::Timeout,
    ];
    for event in events {
        // That of nobody is the first, then come those of the writer, of the reader, and of the stage.
        for place in 1..5 {
            let plan = Plan {
                strangers: 1,
                told: Some((place, event)),
                ..SINGLE
            };
            assert!(rt; comes_whole(&rt, &plan, (0, 0)));
        }
    }
}

#[test]
fn a_fault_of_a_link_aborts_the_chain(rt: HostRuntime) {
    let cases = [
        (
            Plan {
                fail_read: 2,
                ..SINGLE
            },
            1,
        ),
        (
            Plan {
                fail_write: 1,
                ..SINGLE
            },
            0,
        ),
        (
            Plan {
                fail_write: 2,
                ..SINGLE
            },
            1,
        ),
    ];
    for (plan, most) in &cases {
        let came = run_of(&rt, plan, ONE, 3);
        assert!(rt; came.ending.is_cut_off() && came.written <= *most);
    }
}

#[test]
fn a_chain_is_lost_that_finds_the_table_full(rt: HostRuntime) {
    for places in [0, 2] {
        let plan = Plan {
            strangers: PLACES.saturating_sub(places),
            ..SINGLE
        };
        let came = run_of(&rt, &plan, ONE, 3);
        let ended = (came.ending.lost, came.ending.runs, came.ending.is_aborted);
        assert!(rt; came.written == 0 && ended == (Some(Loss::TableFull), false, false));
    }
}

#[test]
fn a_chain_is_driven_until_the_numbers_of_turns_are_used_up(rt: HostRuntime) {
    let plan = Plan {
        turns: u64::MAX - 2,
        ..SINGLE
    };
    let body = letters(rt.alloc(), 3).expect(&rt, MEMORY);
    let parts = tails(rt.alloc(), ONE).expect(&rt, MEMORY);
    let mut group = make_links(&rt, &plan, parts, body);
    start(&rt, &mut group, &plan);
    let driven = [drive_links(&mut group, 1), drive_links(&mut group, 1)];
    assert!(rt; driven == [Ok(false), Err(DriveFault::Spent)]);
}

#[test]
fn no_boundary_holds_as_much_as_a_full_one_and_a_read(rt: HostRuntime) {
    let plan = Plan {
        take: 1_000,
        ..WHOLE
    };
    let came = run_of(&rt, &plan, THREE, 200_000);
    assert!(rt; came.is_front && came.written == 200_000 && came.ending.is_well((0, 0)));
    assert!(rt; came.ending.most < 98_304);
}
