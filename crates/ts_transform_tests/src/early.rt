//! Chains in which a limit finishes before its body ends: what each stage answers, what is cut off before
//! it, and that a body without an end is not read on.

use crate::by_hand::answers;
use crate::links::{Plan, WHOLE, carry, end_of, make_links};
use crate::tail::{MEMORY, letters};
use std::process::Abort;
use ts_config::read_config;
use ts_stock::Stock;
use ts_transform::{Chain, Pumped, Transform};

// The transforms of the lines of a configuration.
fn parts_of(rt: &(impl AllocGlobal + Abort), config: &[u8]) -> Vec<Stock> {
    let setup = read_config(rt.alloc(), config).expect(rt, "a configuration");
    let mut parts = Vec::new(rt.alloc());
    for line in setup.transforms.as_slice() {
        let part = Stock::fresh(rt.alloc(), line).expect(rt, MEMORY);
        parts.push(part).expect(rt, MEMORY);
    }
    parts
}

// A chain of these lines that got a piece of a body, and then another one between the steps of its rows.
struct Row {
    lines: &'static [u8],
    first: &'static [u8],
    steps: &'static [(usize, Pumped)],
    second: &'static [u8],
    rest: &'static [(usize, Pumped)],
    // What the client is left with.
    out: &'static [u8],
}

// In each row the limit finishes, and the stages before it are closed, whatever waits before them. What
// comes to the chain after that is dropped. A stage that holds its body back writes none of it.
const ROWS: [Row; 6] = [
    Row {
        lines: b"limit.so 0",
        first: b"",
        steps: &[],
        second: b"abc",
        rest: &[(0, Pumped::Ended), (0, Pumped::Idle)],
        out: b"",
    },
    Row {
        lines: b"limit.so 2",
        first: b"ab",
        steps: &[(0, Pumped::Moved(2)), (0, Pumped::Ended)],
        second: b"c",
        rest: &[(0, Pumped::Idle)],
        out: b"ab",
    },
    Row {
        lines: b"null_transform.so\nlimit.so 2\nmap.so b c",
        first: b"ab",
        steps: &[(0, Pumped::Moved(2)), (1, Pumped::Moved(2))],
        second: b"cd",
        rest: &[
            (0, Pumped::Moved(2)),
            (1, Pumped::Ended),
            (0, Pumped::Idle),
            (2, Pumped::Moved(2)),
            (2, Pumped::Ended),
        ],
        out: b"ac",
    },
    Row {
        lines: b"bnull_transform.so\nlimit.so 0",
        first: b"ab",
        steps: &[(0, Pumped::Moved(2)), (0, Pumped::Idle), (1, Pumped::Ended)],
        second: b"cd",
        rest: &[(0, Pumped::Idle), (1, Pumped::Idle)],
        out: b"",
    },
    Row {
        lines: b"prepend.so <\nlimit.so 3\nlimit.so 9",
        first: b"ab",
        steps: &[
            (0, Pumped::Moved(2)),
            (1, Pumped::Moved(3)),
            (2, Pumped::Moved(3)),
            (2, Pumped::Idle),
        ],
        second: b"c",
        rest: &[(1, Pumped::Ended), (0, Pumped::Idle), (2, Pumped::Ended)],
        out: b"<ab",
    },
    Row {
        lines: b"limit.so 9\nnull_transform.so\nlimit.so 1",
        first: b"a",
        steps: &[
            (0, Pumped::Moved(1)),
            (1, Pumped::Moved(1)),
            (2, Pumped::Moved(1)),
            (1, Pumped::Idle),
        ],
        second: b"b",
        rest: &[(2, Pumped::Ended), (1, Pumped::Idle), (0, Pumped::Idle)],
        out: b"a",
    },
];

// Gives a chain a piece and lets stages work, and tells whether each answers as its row says.
fn steps(
    rt: &impl Abort,
    chain: &mut Chain<Stock>,
    piece: &[u8],
    rows: &[(usize, Pumped)],
) -> bool {
    if chain.is_given() {
        return false;
    }
    chain.give(piece).expect(rt, MEMORY);
    answers(rt, chain, rows)
}

// Whether each stage of a chain has ended, and nothing waits before any.
fn is_empty(chain: &Chain<Stock>) -> bool {
    for stage in 0..chain.stages() {
        if chain.waiting(stage) > 0 || !chain.has_ended(stage) {
            return false;
        }
    }
    true
}

// Whether a chain wants no more, and drops what it is given.
fn is_closed(rt: &impl Abort, chain: &mut Chain<Stock>) -> bool {
    !chain.wants() && !chain.must_read() && steps(rt, chain, b"x", &[]) && is_empty(chain)
}

// Takes the first block that waits for the client, if there is one, and tells whether it is this text.
fn takes(chain: &mut Chain<Stock>, text: &[u8]) -> bool {
    let Some(block) = chain.out_block() else {
        return text.is_empty();
    };
    let is_text = block == text;
    let len = block.len();
    chain.take(len);
    is_text
}

// Whether a chain does as its row says, rests once nothing waits for its client, and has given all then.
fn does(rt: &impl Abort, chain: &mut Chain<Stock>, row: &Row) -> bool {
    if !chain.wants() || !chain.must_read() || !steps(rt, chain, row.first, row.steps) {
        return false;
    }
    if !steps(rt, chain, row.second, row.rest) || !is_closed(rt, chain) {
        return false;
    }
    let rests = chain.rests();
    let is_text = takes(chain, row.out);
    is_text && rests == row.out.is_empty() && chain.rests() && chain.is_finished()
}

// Whether the chain of a row does as it says.
fn check(rt: &(impl AllocGlobal + Abort), row: &Row) -> bool {
    let parts = parts_of(rt, row.lines);
    let mut chain = Chain::make(rt.alloc(), parts).expect(rt, MEMORY);
    does(rt, &mut chain, row)
}

#[test]
fn a_limit_closes_what_stands_before_it(rt: HostRuntime) {
    for (place, row) in ROWS.iter().enumerate() {
        assert!(rt; check(&rt, row), "row {place}");
    }
}

// So much waits behind a stage at most, before it is full.
const FULL: usize = 65_536;

// Whether the limit of a chain is done while its output is full, and ends once some of that was taken.
fn ends_behind(rt: &impl Abort, chain: &mut Chain<Stock>, body: &[u8]) -> bool {
    let rows = [
        (0, Pumped::Moved(FULL / 2)),
        (0, Pumped::Moved(FULL / 2)),
        (0, Pumped::Blocked { waiting: FULL }),
    ];
    if !steps(rt, chain, body, &rows) || !chain.wants() || chain.must_pump(0) {
        return false;
    }
    takes(chain, b"");
    chain.must_pump(0)
        && answers(rt, chain, &[(0, Pumped::Ended), (0, Pumped::Idle)])
        && !chain.wants()
}

#[test]
fn a_limit_ends_once_there_is_room_behind_it(rt: HostRuntime) {
    let body = vec![in rt.alloc(); b'x'; FULL].expect(&rt, MEMORY);
    let parts = parts_of(&rt, b"limit.so 65536");
    let mut chain = Chain::make(rt.alloc(), parts).expect(&rt, MEMORY);
    let ends = ends_behind(&rt, &mut chain, body.as_slice());
    assert!(rt; ends);
}

// How many letters a body without an end has, a read brings, and how many reads bring it.
const PIECE: u32 = 1_000;

const PIECES: usize = 1_000;

// What a run of an endless body through lines is to come to, and the read that fails: before each of the
// stages up to the limit fewer than 65,536 bytes wait before the last read, and so at most 66 reads.
const ENDLESS: [(&[u8], &[u8], u64); 5] = [
    (b"limit.so 0", b"", 133),
    (b"limit.so 3", b"abc", 133),
    (b"null_transform.so\nmap.so b x\nlimit.so 3", b"axc", 265),
    (
        b"limit.so 9\ndelay.so 7\nlimit.so 3\nprepend.so <",
        b"<abc",
        265,
    ),
    (b"prepend.so <\nlimit.so 1\nnull_transform.so", b"<", 199),
];

// Whether a body without an end comes through these lines as this text, with fewer reads than so many.
fn ends(rt: &(impl AllocGlobal + Abort), lines: &[u8], text: &[u8], too_far: u64) -> bool {
    let plan = Plan {
        cuts: PIECES,
        cut: PIECE,
        fail_read: too_far,
        ..WHOLE
    };
    let body = letters(rt.alloc(), PIECE * PIECES as u32).expect(rt, MEMORY);
    let parts = parts_of(rt, lines);
    let mut group = make_links(rt, &plan, parts, body);
    let most = carry(rt, &mut group, &plan);
    let (ending, output) = end_of(group, most);
    output.written() == text && ending.is_well((0, 0))
}

#[test]
fn a_body_without_an_end_is_not_read_on(rt: HostRuntime) {
    for (place, (lines, text, too_far)) in ENDLESS.iter().enumerate() {
        assert!(rt; ends(&rt, *lines, *text, *too_far), "row {place}");
    }
}
