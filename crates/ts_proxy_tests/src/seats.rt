//! Under which seat the events of a journal were handled.

use ts_journal::{Entry, Journal};

// The seat of the turn in which a journal's first event was handled, if any was.
fn first_seat(entries: &[Entry]) -> Option<u64> {
    let mut owner = None;
    for entry in entries {
        match entry {
            Entry::Took { seat, .. } => owner = Some(*seat),
            Entry::Handled { .. } => return owner,
            _ => {}
        }
    }
    None
}

/// Whether these are two journals, and the first event of the one was handled under another seat than that of
/// the other.
pub fn are_of_two_seats(journals: &[Journal]) -> bool {
    let [one, other] = journals else {
        return false;
    };
    match (first_seat(one.entries()), first_seat(other.entries())) {
        (Some(first), Some(second)) => first != second,
        _ => false,
    }
}
