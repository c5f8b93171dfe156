//! Header rules: what they make of the fields at their own hook and at others, alone and in the order of
//! their lines.

use crate::asking::{
    MEMORY, MOST_LINES, Word, Written, ask_in_turn, deny_line, header_line, question_about,
    session_line, text_of,
};
use std::process::Abort;
use ts_config::{PluginLine, Side};
use ts_hooks::Hook;
use ts_link::Octets;
use ts_plugin::{hook_of, table_of};

// Some lines, the fields before them, and the fields after them at the hook of each side.
struct Row {
    lines: &'static [Written],
    before: &'static [(&'static [u8], &'static [u8])],
    request: &'static [u8],
    response: &'static [u8],
}

const ROWS: [Row; 8] = [
    // a rule of one side leaves the other as it is
    Row {
        lines: &[(Side::Request, Word::Set, b"X-A", b"1")],
        before: &[(b"x-a", b"0"), (b"b", b"2"), (b"X-a", b"3")],
        request: b"b: 2\nx-a: 1\n",
        response: b"x-a: 0\nb: 2\nx-a: 3\n",
    },
    Row {
        lines: &[(Side::Response, Word::Add, b"x-a", b"1")],
        before: &[(b"X-A", b"0"), (b"b", b"2")],
        request: b"x-a: 0\nb: 2\n",
        response: b"x-a: 0\nb: 2\nx-a: 1\n",
    },
    Row {
        lines: &[(Side::Response, Word::Remove, b"SERVER", b"")],
        before: &[(b"Server", b"z"), (b"b", b"2"), (b"server", b"y")],
        request: b"server: z\nb: 2\nserver: y\n",
        response: b"b: 2\n",
    },
    // what is not there is not removed, and a field is set where there was none
    Row {
        lines: &[
            (Side::Request, Word::Remove, b"x-a", b""),
            (Side::Request, Word::Set, b"x-b", b"Value 1"),
        ],
        before: &[],
        request: b"x-b: Value 1\n",
        response: b"",
    },
    // the order of the lines decides
    Row {
        lines: &[
            (Side::Response, Word::Set, b"X-A", b"1"),
            (Side::Response, Word::Add, b"x-a", b"2"),
        ],
        before: &[(b"server", b"z")],
        request: b"server: z\n",
        response: b"server: z\nx-a: 1\nx-a: 2\n",
    },
    Row {
        lines: &[
            (Side::Response, Word::Add, b"x-a", b"2"),
            (Side::Response, Word::Set, b"X-A", b"1"),
        ],
        before: &[(b"server", b"z")],
        request: b"server: z\n",
        response: b"server: z\nx-a: 1\n",
    },
    Row {
        lines: &[
            (Side::Request, Word::Add, b"x-a", b"1"),
            (Side::Request, Word::Remove, b"X-A", b""),
            (Side::Request, Word::Add, b"X-a", b"2"),
        ],
        before: &[],
        request: b"x-a: 2\n",
        response: b"",
    },
    // rules of both sides stand between each other
    Row {
        lines: &[
            (Side::Request, Word::Set, b"x-a", b"1"),
            (Side::Response, Word::Set, b"x-a", b"2"),
            (Side::Request, Word::Add, b"x-b", b"3"),
            (Side::Response, Word::Remove, b"x-b", b""),
        ],
        before: &[(b"x-b", b"0"), (b"x-a", b"0")],
        request: b"x-b: 0\nx-a: 1\nx-b: 3\n",
        response: b"x-a: 2\n",
    },
];

// The lines of a row, behind a deny list.
fn lines_of(rt: &(impl AllocGlobal + Abort), row: &Row) -> Vec<PluginLine> {
    let mut lines = Vec::new(rt.alloc());
    let first = deny_line(rt.alloc(), &[b"a"]).expect(rt, MEMORY);
    lines.push(first).expect(rt, MEMORY);
    for written in row.lines {
        lines.push(header_line(rt, *written)).expect(rt, MEMORY);
    }
    lines
}

// The fields of a row after the plugins of a hook were asked.
fn text_at(rt: &(impl AllocGlobal + Abort), row: &Row, hook: Hook) -> Octets {
    let question = question_about(rt, hook, row.before);
    let lines = lines_of(rt, row);
    let fields = ask_in_turn(rt, lines.as_slice(), question);
    text_of(rt, &fields)
}

#[test]
fn rules_are_applied_in_the_order_of_their_lines(rt: HostRuntime) {
    for (place, row) in ROWS.iter().enumerate() {
        let request = text_at(&rt, row, Hook::SendRequestHdr);
        let response = text_at(&rt, row, Hook::SendResponseHdr);
        assert_eq!(rt; request.bytes(), row.request, "request of row {place}");
        assert_eq!(rt; response.bytes(), row.response, "response of row {place}");
    }
}

// A rule of a session is applied behind one of all transactions, though its line stands before the other.
#[test]
fn rules_of_all_transactions_come_before_those_of_a_session(rt: HostRuntime) {
    let question = question_about(&rt, Hook::SendResponseHdr, &[]);
    let session = session_line(&rt, (Side::Response, Word::Add, b"x-a", b"2"));
    let header = header_line(&rt, (Side::Response, Word::Add, b"x-a", b"1"));
    let lines = Vec::from_array(rt.alloc(), [session, header]).expect(&rt, MEMORY);
    let fields = ask_in_turn(&rt, lines.as_slice(), question);
    let text = text_of(&rt, &fields);
    assert_eq!(rt; text.bytes(), b"x-a: 1\nx-a: 2\n".as_slice());
}

// The group of the first line's plugin.
const FIRST: u32 = 7;

// A hook, a place, and the group of the plugin that is asked there.
const PLACES: [(Hook, usize, Option<u32>); 10] = [
    (Hook::OsDns, 0, Some(7)),
    (Hook::OsDns, 1, None),
    (Hook::SendRequestHdr, 0, Some(8)),
    (Hook::SendRequestHdr, 1, Some(10)),
    (Hook::SendRequestHdr, 2, None),
    (Hook::SendRequestHdr, 4, None),
    (Hook::SendResponseHdr, 0, Some(9)),
    (Hook::SendResponseHdr, 1, Some(11)),
    (Hook::SendResponseHdr, 2, None),
    (Hook::TxnStart, 0, None),
];

#[test]
fn the_plugins_of_a_hook_are_asked_in_the_order_of_their_lines(rt: HostRuntime) {
    let lines = lines_of(&rt, &ROWS[7]);
    if lines.len() > MOST_LINES {
        panic!(rt; "a row has few lines")
    }
    let table = table_of(rt.alloc(), lines.as_slice(), FIRST).expect(&rt, MEMORY);
    for (row, (hook, place, group)) in PLACES.iter().enumerate() {
        assert_eq!(rt; table.next(*hook, *place), *group, "row {row}");
    }
    let Some(first) = lines.as_slice().first() else {
        panic!(rt; "a deny list stands first")
    };
    assert!(rt; matches!(hook_of(first), Hook::OsDns));
}
