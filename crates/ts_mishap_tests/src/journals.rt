//! What the journal of a transaction tells of the moments of its events.

use ts_journal::{ContKey, Entry};

/// The moment of the last event that was handled, 0 where none was.
pub fn last_moment(entries: &[Entry]) -> u64 {
    let mut last = 0;
    for entry in entries {
        if let Entry::Handled { moment, .. } = entry {
            last = *moment;
        }
    }
    last
}

/// The continuation that was made last, if any was.
pub fn last_made(entries: &[Entry]) -> Option<ContKey> {
    let mut last = None;
    for entry in entries {
        if let Entry::Made { key } = entry {
            last = Some(*key);
        }
    }
    last
}

// Whether the event of a number was set for this continuation.
fn is_of(entries: &[Entry], event: u64, continuation: ContKey) -> bool {
    for entry in entries {
        if let Entry::Set { number, key, .. } = entry {
            if *number == event {
                return *key == continuation;
            }
        }
    }
    false
}

/// The least time between two events of a continuation that followed each other, and how many it had.
pub fn least_gap(entries: &[Entry], continuation: ContKey) -> (Option<u64>, u64) {
    let (mut least, mut last, mut count): (Option<u64>, Option<u64>, u64) = (None, None, 0);
    for entry in entries {
        let Entry::Handled { number, moment } = entry else {
            continue;
        };
        if !is_of(entries, *number, continuation) {
            continue;
        }
        if let Some(before) = last {
            let gap = moment.saturating_sub(before);
            least = Some(least.unwrap_or(gap).min(gap));
        }
        last = Some(*moment);
        count = count.saturating_add(1);
    }
    (least, count)
}
