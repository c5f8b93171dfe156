//! The plugin of a line in a group: what its journal records of a question.

use crate::asking::{MEMORY, Outcome, Replied, ask_at, deny_line, outcome_of, question_for};
use ts_group::{Group, ONLY_SEAT, OWN_KEY};
use ts_hooks::Hook;
use ts_journal::{Entry, Event};
use ts_plugin::{Plugin, asked_in_order};

// The journal of a plugin that is asked at the moment 5.
const OF_A_QUESTION: &[Entry] = &[
    Entry::Took {
        turn: 1,
        seat: ONLY_SEAT,
    },
    Entry::Set {
        number: 1,
        key: OWN_KEY,
        event: Event::Hook,
        due: 5,
        series: 1,
        period: 0,
    },
    Entry::Handled {
        number: 1,
        moment: 5,
    },
    Entry::Gave { turn: 1 },
];

// Whether nothing is pending in a group, and its journal has these entries.
fn has_recorded(group: &Group<Plugin>, entries: &[Entry]) -> bool {
    group.next_due().is_none() && group.journal().entries() == entries
}

#[test]
fn a_question_is_recorded_and_leaves_nothing_pending(rt: HostRuntime) {
    let line = deny_line(rt.alloc(), &[b"b"]).expect(&rt, MEMORY);
    let question = question_for(rt.alloc(), Hook::OsDns, b"B:80").expect(&rt, MEMORY);
    let Replied { group, reply } = ask_at(rt.alloc(), &line, question, 5).expect(&rt, MEMORY);
    let outcome = outcome_of(&reply.expect(&rt, MEMORY));
    let recorded = has_recorded(&group, OF_A_QUESTION);
    asked_in_order();
    assert_eq!(rt; (outcome, recorded), (Outcome::Refused, true));
}
