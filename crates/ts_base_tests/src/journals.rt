//! What a journal records, run on small examples.
use crate::memory::MEMORY;
use ts_journal::{ContKey, Counts, Entry, Event, Journal};

const KEY: ContKey = ContKey {
    index: 0,
    generation: 1,
};

// The counts of a journal in which one event was set, which is pending.
const ONE_PENDING: Counts = Counts {
    set: 1,
    handled: 0,
    cancelled: 0,
    dropped: 0,
    pending: 1,
};

// The first turn of a group makes a continuation and sets a periodic event for it.
#[test]
fn a_turn_is_recorded(rt: HostRuntime) {
    let mut journal = Journal::make(rt.alloc(), 0).expect(&rt, MEMORY);
    journal.reserve(4).expect(&rt, MEMORY);
    let set = Entry::Set {
        number: 1,
        key: KEY,
        event: Event::Timeout,
        due: 10,
        series: 1,
        period: 10,
    };
    journal.push(Entry::Took { turn: 1, seat: 0 });
    journal.push(Entry::Made { key: KEY });
    journal.push(set);
    journal.push(Entry::Gave { turn: 1 });
    let entries = journal.entries();
    assert!(rt; entries.len() == 4 && entries.get(2).copied() == Some(set));
    assert!(rt; journal.live() == [KEY].as_slice() && journal.event(1).is_some());
    assert!(rt; journal.counts() == ONE_PENDING);
}

// A journal that gives its memory back has what it had, and room for what it was to keep.
#[test]
fn a_journal_is_trimmed(rt: HostRuntime) {
    let mut journal = Journal::make(rt.alloc(), 0).expect(&rt, MEMORY);
    journal.reserve(4).expect(&rt, MEMORY);
    journal.push(Entry::Took { turn: 1, seat: 3 });
    journal.push(Entry::Made { key: KEY });
    journal.trim(1).expect(&rt, MEMORY);
    let kept = [Entry::Took { turn: 1, seat: 3 }, Entry::Made { key: KEY }];
    assert!(rt; journal.entries() == kept.as_slice() && journal.live() == [KEY].as_slice());
    journal.push(Entry::Gave { turn: 1 });
    assert!(rt; (journal.is_held(), journal.turns()) == (false, 1));
}

// A group that has its own continuation handles one event of it and destroys it.
#[test]
fn a_key_goes(rt: HostRuntime) {
    let mut journal = Journal::with_key(rt.alloc(), 6, KEY).expect(&rt, MEMORY);
    journal.reserve(7).expect(&rt, MEMORY);
    journal.push(Entry::Took { turn: 7, seat: 2 });
    journal.push(Entry::Set {
        number: 1,
        key: KEY,
        event: Event::Hook,
        due: 5,
        series: 1,
        period: 0,
    });
    journal.push(Entry::Handled {
        number: 1,
        moment: 5,
    });
    journal.push(Entry::Destroyed { key: KEY });
    let wanted = Counts {
        set: 1,
        handled: 1,
        cancelled: 0,
        dropped: 0,
        pending: 0,
    };
    assert!(rt; journal.counts() == wanted && journal.live().is_empty());
    let seen = (journal.is_held(), journal.turns(), journal.next());
    assert!(rt; seen == (true, 7, 2));
}

// A journal that is folded in a turn stores no entry, has what it had, and goes on from there.
#[test]
fn a_journal_is_folded(rt: HostRuntime) {
    let mut journal = Journal::make(rt.alloc(), 0).expect(&rt, MEMORY);
    journal.reserve(4).expect(&rt, MEMORY);
    journal.push(Entry::Took { turn: 1, seat: 3 });
    journal.push(Entry::Made { key: KEY });
    journal.push(Entry::Set {
        number: 1,
        key: KEY,
        event: Event::Timeout,
        due: 10,
        series: 1,
        period: 10,
    });
    journal.fold();
    assert!(rt; journal.entries().is_empty() && journal.live() == [KEY].as_slice());
    let numbers = (
        journal.newest_generation(0),
        journal.turns(),
        journal.next(),
    );
    assert!(rt; numbers == (Some(1), 1, 2) && journal.event(1).is_some());
    journal.push(Entry::Gave { turn: 1 });
    assert!(rt; journal.entries() == [Entry::Gave { turn: 1 }].as_slice());
    assert!(rt; (journal.is_held(), journal.counts()) == (false, ONE_PENDING));
}
