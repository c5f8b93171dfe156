//! `generate`: a write that fails, and two transactions beside each other.

use crate::command::{failing_sink, left_by, wide_sink};
use crate::comparison::{Comparison, Wanted, compare, done};
use crate::seats::are_of_two_seats;
use ts_link::{MeetGate, MemShelf, OpenGate};

// A transaction whose body is empty before it is transformed.
const ONE: &[&str] = &["generate", "0", "1", "0"];

// Two of them.
const TWO: &[&str] = &["generate", "7", "2", "0"];

// The second write fails.
#[test]
fn a_front_of_a_summary(rt: HostRuntime) {
    let wanted = Wanted {
        status: 6,
        out: b"transactio",
        err: b"tsx: cannot write\n",
        journals: 0,
    };
    let (shelf, out) = (MemShelf::make(rt.alloc()), failing_sink(&rt, 10, 2));
    let left = left_by(&rt, ONE, shelf, out, &OpenGate::make());
    assert_eq!(rt; compare(&left, &wanted), Comparison::AsStated);
}

// Two transactions, each of which waits in its first handler for the other: the first events of the two were
// handled under different seats.
#[test]
fn generated_transactions_run_beside_each_other(rt: HostRuntime) {
    let gate = MeetGate::make(20_000_000);
    let left = left_by(&rt, TWO, MemShelf::make(rt.alloc()), wide_sink(&rt), &gate);
    let wanted = done(b"transactions 2\nwhole 2\nbody 2\nsum 1920\n", 2);
    let found = compare(&left, &wanted);
    let seen = (
        gate.met(),
        found,
        are_of_two_seats(left.journals.as_slice()),
    );
    assert_eq!(rt; seen, (true, Comparison::AsStated, true));
}
