//! A request through the link that chooses: what it gives, and what the origin took.
use crate::ends::{MEMORY, link, reads, setup_of, uploads};
use std::process::Abort;
use ts_intercept::{Chosen, named_hosts};
use ts_link::{Got, Link, MemLink, Put};

// The head of a request as it is sent.
const REQUEST: &[u8] = b"GET / HTTP/1.1\r\nhost: a\r\nvia: 1.1 tsx\r\nconnection: close\r\n\r\n";

// What the origin gives.
const ORIGIN: &[u8] = b"HTTP/1.1 200 OK\r\n\r\nabc";

// A file that is cut.
const CUT: &[u8] = b"HTTP/1.1 200 OK\r\nContent-Length: 9\r\n\r\nabc";

// What the head of an answer says before its length.
const OK: &[u8] = b"HTTP/1.1 200 OK\r\ncontent-type: text/plain\r\ncontent-length: ";

// The lines of a configuration, the parts of what the link gives, and what the origin took.
#[derive(Clone, Copy)]
struct Row<'a> {
    lines: &'a [u8],
    given: [&'a [u8]; 3],
    taken: &'a [u8],
}

// A link that chooses may go to another thread.
fn goes_to_a_thread<T: Send>(_link: &T) {}

fn joined(rt: &(impl AllocGlobal + Abort), parts: &[&[u8]]) -> Vec<u8> {
    let mut whole = Vec::new(rt.alloc());
    for part in parts {
        whole.extend_from_slice(part).expect(rt, MEMORY);
    }
    whole
}

// Whether the request came to what the row says.
#[tactic(auto, using(crate::proofs::Pairs::pair_any))]
fn comes_to(rt: &(impl AllocGlobal + Abort), row: &Row) -> bool {
    let setup = setup_of(rt, row.lines, CUT);
    let expected = joined(rt, row.given.as_slice());
    let mut client = link(rt, b"");
    let origin = link(rt, ORIGIN);
    let mut chosen = Chosen::make(rt.alloc(), Some(origin), setup).expect(rt, MEMORY);
    let put = chosen.write(REQUEST);
    let waits = !chosen.is_sent();
    let done = uploads(&mut client, &mut chosen) && chosen.is_sent();
    let given = reads(rt, &mut chosen);
    let faults = chosen.faults();
    let Some(origin) = chosen.into_origin() else {
        return false;
    };
    put == Put::Took(REQUEST.len())
        && waits == !row.taken.is_empty()
        && done
        && given.as_slice() == expected.as_slice()
        && faults == 0
        && origin.written() == row.taken
}

#[test]
fn the_first_line_of_a_host_serves_it(rt: HostRuntime) {
    named_hosts();
    let rows = [
        Row {
            lines: b"intercept.so a echo\n",
            given: [OK, b"60\r\n\r\n", REQUEST],
            taken: b"",
        },
        Row {
            lines: b"intercept.so A fill 5\n",
            given: [OK, b"5\r\n\r\n", b"xxxxx"],
            taken: b"",
        },
        Row {
            lines: b"intercept.so a fill 0\n",
            given: [OK, b"0\r\n\r\n", b""],
            taken: b"",
        },
        Row {
            lines: b"intercept.so a file f\n",
            given: [CUT, b"", b""],
            taken: b"",
        },
        Row {
            lines: b"intercept.so b echo\nintercept.so a fill 1\nintercept.so A fill 2\n",
            given: [OK, b"1\r\n\r\n", b"x"],
            taken: b"",
        },
        Row {
            lines: b"intercept.so b fill 5\n",
            given: [ORIGIN, b"", b""],
            taken: REQUEST,
        },
        Row {
            lines: b"",
            given: [ORIGIN, b"", b""],
            taken: REQUEST,
        },
    ];
    for row in rows {
        assert!(rt; comes_to(&rt, &row));
    }
}

#[test]
fn an_answer_comes_in_pieces_of_4096_bytes(rt: HostRuntime) {
    let setup = setup_of(&rt, b"intercept.so a fill 5000\n", b"");
    let origin: Option<MemLink> = None;
    let mut chosen = Chosen::make(rt.alloc(), origin, setup).expect(&rt, MEMORY);
    goes_to_a_thread(&chosen);
    assert!(rt; chosen.write(REQUEST) == Put::Took(REQUEST.len()));
    let mut room = [0u8; 8192];
    assert!(rt; chosen.read(&mut room) == Got::Bytes(4096));
    assert!(rt; chosen.read(&mut room) == Got::Bytes(971));
    assert!(rt; chosen.read(&mut room) == Got::End);
    assert!(rt; !chosen.was_early() && !chosen.has_origin());
}

#[tactic(auto, using(crate::proofs::Pairs::pair_any))]
#[test]
fn without_an_origin_another_host_is_at_its_end(rt: HostRuntime) {
    let setup = setup_of(&rt, b"intercept.so b echo\n", b"");
    let origin: Option<MemLink> = None;
    let mut client = link(&rt, b"");
    let mut chosen = Chosen::make(rt.alloc(), origin, setup).expect(&rt, MEMORY);
    assert!(rt; chosen.write(REQUEST) == Put::Took(REQUEST.len()));
    assert!(rt; uploads(&mut client, &mut chosen));
    assert!(rt; reads(&rt, &mut chosen).is_empty());
    assert!(rt; chosen.into_origin().is_none());
}

#[test]
fn a_read_before_a_head_is_whole_hands_on(rt: HostRuntime) {
    let setup = setup_of(&rt, b"intercept.so a echo\n", b"");
    let origin = link(&rt, ORIGIN);
    let mut chosen = Chosen::make(rt.alloc(), Some(origin), setup).expect(&rt, MEMORY);
    assert!(rt; chosen.has_origin());
    assert!(rt; reads(&rt, &mut chosen).as_slice() == ORIGIN);
    assert!(rt; chosen.was_early());
    assert!(rt; chosen.write(b"GET") == Put::Took(3));
}

// So many bytes.
fn zeros(rt: &(impl AllocGlobal + Abort), count: usize) -> Vec<u8> {
    vec![in rt.alloc(); 0u8; count].expect(rt, MEMORY)
}

// What a write of these bytes is answered, if there are any.
fn put<L: Link>(link: &mut L, piece: &[u8]) -> Option<Put> {
    if piece.is_empty() {
        return None;
    }
    Some(link.write(piece))
}

#[test]
fn no_more_is_held_than_4194304_bytes(rt: HostRuntime) {
    let setup = setup_of(&rt, b"intercept.so a echo\n", b"");
    let too_much = zeros(&rt, 4_194_304);
    let rest = zeros(&rt, 4_194_301);
    let origin = link(&rt, ORIGIN);
    let mut chosen = Chosen::make(rt.alloc(), Some(origin), setup).expect(&rt, MEMORY);
    assert!(rt; put(&mut chosen, b"GET") == Some(Put::Took(3)));
    assert!(rt; put(&mut chosen, &too_much) == Some(Put::NoMemory));
    assert!(rt; put(&mut chosen, &rest) == Some(Put::Took(4_194_301)));
    assert!(rt; put(&mut chosen, b"G") == Some(Put::NoMemory));
}
