//! The transform that quotes, with its body cut at every place.
ghost use Rattle.std.specs.Prelude.{◌≡◌, false};

use crate::links::{Plan, WHOLE, carry, end_of, make_links};
use crate::tail::MEMORY;
use std::process::Abort;
use ts_link::Octets;
use ts_quote::{Quote, QuoteLine};
use ts_transform::{Chain, Pumped, Transform};

const MARK: &[u8] = b"> ";

// Bodies, and what becomes of each.
const ROWS: [(&[u8], &[u8]); 4] = [
    (b"", b""),
    (b"a", b"> a"),
    (b"\n\nab\r\n", b"> \n> \n> ab\r\n"),
    (b"one\ntwo", b"> one\n> two"),
];

// One transform that quotes.
fn quotes(rt: &(impl AllocGlobal + Abort)) -> Vec<Quote> {
    let line = QuoteLine {
        mark: Octets::copy_of(rt.alloc(), MARK).expect(rt, MEMORY),
    };
    let quote = Quote::fresh(rt.alloc(), &line).expect(rt, MEMORY);
    Vec::from_array(rt.alloc(), [quote]).expect(rt, MEMORY)
}

// Lets the one stage of a chain work once, if there is one, and tells whether it moved bytes.
fn moves(rt: &impl Abort, chain: &mut Chain<Quote>) -> bool
    ensures { chain.new.given ≡ chain.old.given }
{
    if chain.stages() == 0 {
        panic!(rt; "there is a stage")
    }
    matches!(chain.pump(0).expect(rt, MEMORY), Pumped::Moved(_))
}

// Whether a chain that gets a body in two pieces gives this text.
fn gives(
    rt: &impl Abort,
    chain: &mut Chain<Quote>,
    first: &[u8],
    second: &[u8],
    text: &[u8],
) -> bool
    requires { chain.old.given ≡ false }
{
    chain.give(first).expect(rt, MEMORY);
    moves(rt, chain);
    chain.give(second).expect(rt, MEMORY);
    moves(rt, chain);
    chain.give_end();
    moves(rt, chain);
    chain.out_block().unwrap_or(b"") == text && chain.has_ended(0)
}

// Whether a body that is cut at a place is quoted by a chain.
fn is_quoted(rt: &(impl AllocGlobal + Abort), body: &[u8], cut: usize, text: &[u8]) -> bool {
    let (first, second) = body.split_at(cut.min(body.len()));
    let mut chain = Chain::make(rt.alloc(), quotes(rt)).expect(rt, MEMORY);
    gives(rt, &mut chain, first, second, text)
}

#[test]
fn a_chain_quotes_each_line_however_the_body_is_cut(rt: HostRuntime) {
    for (body, text) in &ROWS {
        for cut in 0..body.len() + 1 {
            assert!(rt; is_quoted(&rt, *body, cut, *text));
        }
    }
}

// Whether a body that a link gives in two pieces is quoted to the other link.
fn is_quoted_between(
    rt: &(impl AllocGlobal + Abort),
    body: &[u8],
    cut: usize,
    text: &[u8],
) -> bool {
    let plan = Plan {
        cuts: 1,
        cut: u32::try_from(cut).unwrap_or(1).max(1),
        ..WHOLE
    };
    let body = Octets::copy_of(rt.alloc(), body).expect(rt, MEMORY);
    let mut group = make_links(rt, &plan, quotes(rt), body);
    let most = carry(rt, &mut group, &plan);
    let (ending, output) = end_of(group, most);
    output.written() == text && ending.is_well((0, 0))
}

#[test]
fn each_line_is_quoted_from_one_link_to_another(rt: HostRuntime) {
    for (body, text) in &ROWS {
        for cut in 0..body.len() + 1 {
            assert!(rt; is_quoted_between(&rt, *body, cut, *text));
        }
    }
}
