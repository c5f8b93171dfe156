//! Under which seat the events of a journal were handled.

use ts_journal::Entry;
use ts_link::MemLink;
use ts_txn::Retired;

// The seat of the turn in which a journal's first event was handled, if any was.
fn first_seat(entries: &[Entry]) -> Option<u64> {
    let mut owner = None;
    for entry in entries {
        match entry {
            Entry::Took { seat, .. } => owner = Some(*seat),
            Entry::Handled { .. } => return owner,
            _ => {}
        }
    }
    None
}

/// Whether these are two transactions, and the first event of the one was handled under another seat than
/// that of the other.
pub fn are_of_two_seats(retired: &[Retired<MemLink, MemLink>]) -> bool {
    let [one, other] = retired else {
        return false;
    };
    let first = first_seat(one.journal.entries());
    let second = first_seat(other.journal.entries());
    match (first, second) {
        (Some(first), Some(second)) => first != second,
        _ => false,
    }
}
