//! When the events of a journal were handled, and for when they were set, as far as its entries were not
//! folded.

use ts_journal::{Entry, Journal};

// How many of these events were handled later than at the moment 0.
fn late_in(entries: &[Entry]) -> u64 {
    let mut late: u64 = 0;
    for entry in entries {
        match entry {
            Entry::Handled { moment, .. } => {
                if *moment > 0 {
                    late = late.wrapping_add(1);
                }
            }
            _ => {}
        }
    }
    late
}

/// How many events of these journals were handled later than at the moment 0.
pub fn late_events(journals: &[Journal]) -> u64 {
    let mut late: u64 = 0;
    for journal in journals {
        late = late.wrapping_add(late_in(journal.entries()));
    }
    late
}

/// How many events were set for later than the moment of the one that was handled before. A recorded
/// transaction sets such an event where its plugin was missed, and where a line delays it.
pub fn waits_of(entries: &[Entry]) -> u64 {
    let mut now: u64 = 0;
    let mut waits: u64 = 0;
    for entry in entries {
        match entry {
            Entry::Handled { moment, .. } => now = *moment,
            Entry::Set { due, .. } => {
                if *due > now {
                    waits = waits.wrapping_add(1);
                }
            }
            _ => {}
        }
    }
    waits
}

/// How many of these entries are of an event that was handled.
pub fn handled_in(entries: &[Entry]) -> u64 {
    let mut handled: u64 = 0;
    for entry in entries {
        match entry {
            Entry::Handled { .. } => handled = handled.wrapping_add(1),
            _ => {}
        }
    }
    handled
}
