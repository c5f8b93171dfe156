//! A chain whose stages are continuations of a group that is not its own, fed and drained by hand.
ghost use Rattle.std.specs.Prelude.{◌≡◌, true};

use crate::tail::{MEMORY, Tail, tails};
use crate::worlds::make_group;
use std::process::Abort;
use ts_group::Cx;
use ts_journal::Event;
use ts_transform::{Chain, DrivenChain};

// The role of the first stage; that of the second is 11.
const FIRST: u32 = 10;

// Events of two stages and of nobody. The second works at last.
const EVENTS: [(u32, Event); 9] = [
    (0, Event::Immediate),
    (11, Event::Error),
    (11, Event::Error),
    (10, Event::Error),
    (10, Event::ReadReady),
    (10, Event::WriteComplete),
    (12, Event::Timeout),
    (11, Event::Eos),
    (11, Event::Hook),
];

// Those after the end was given.
const LAST: [(u32, Event); 3] = [
    (10, Event::WriteReady),
    (11, Event::Immediate),
    (11, Event::Immediate),
];

// Whether a chain still runs after each of these events of these roles.
fn runs_through(driven: &mut DrivenChain<Tail>, events: &[(u32, Event)], cx: &mut Cx) -> bool
    requires turn { cx.old.log.state.held ≡ true }
    ensures turn { cx.new.log.state.held ≡ true }
{
    'events: for (role, event) in events {
        if driven.handle(FIRST, *role, *event, cx).is_err() {
            return false;
        }
    }
    driven.is_running() && driven.lost().is_none()
}

// Takes the first block that waits, and answers whether it is this text.
fn takes(rt: &impl Abort, driven: &mut DrivenChain<Tail>, text: &[u8], cx: &mut Cx) -> bool
    requires turn { cx.old.log.state.held ≡ true }
    ensures turn { cx.new.log.state.held ≡ true }
{
    let Some(block) = driven.chain().out_block() else {
        return false;
    };
    let is_text = block == text;
    let len = block.len();
    driven.take(len, cx).expect(rt, MEMORY);
    is_text
}

// Gives a chain its body, or its end.
fn gives(rt: &impl Abort, driven: &mut DrivenChain<Tail>, body: &[u8], cx: &mut Cx)
    requires turn { cx.old.log.state.held ≡ true }
    ensures turn { cx.new.log.state.held ≡ true }
{
    if driven.chain().is_given() {
        panic!(rt; "its end was given")
    }
    if body.is_empty() {
        driven.give_end(cx).expect(rt, MEMORY);
    } else {
        driven.give(body, cx).expect(rt, MEMORY);
    }
}

// Whether a chain that got a piece or the end runs through these events, and this text waits then.
fn passes(
    rt: &impl Abort,
    driven: &mut DrivenChain<Tail>,
    piece: &[u8],
    events: &[(u32, Event)],
    text: &[u8],
    cx: &mut Cx,
) -> bool
    requires turn { cx.old.log.state.held ≡ true }
    ensures turn { cx.new.log.state.held ≡ true }
{
    gives(rt, driven, piece, cx);
    runs_through(driven, events, cx) && takes(rt, driven, text, cx)
}

// Starts a chain of two tails, feeds and drains it, and answers whether it ran all the time and gave its
// body.
fn runs_by_hand(rt: &impl Abort, driven: &mut DrivenChain<Tail>, cx: &mut Cx) -> bool
    requires turn { cx.old.log.state.held ≡ true }
{
    if !driven.is_fresh() || driven.is_running() {
        return false;
    }
    driven.start(FIRST, cx);
    passes(rt, driven, b"abc", EVENTS.as_slice(), b"abc", cx)
        && passes(rt, driven, b"", LAST.as_slice(), b"11", cx)
}

// A chain of two tails that was not started.
fn make_driven(rt: &(impl AllocGlobal + Abort)) -> DrivenChain<Tail> {
    let parts = tails(rt.alloc(), &[b"1".as_slice(), b"1".as_slice()]).expect(rt, MEMORY);
    let chain = Chain::make(rt.alloc(), parts).expect(rt, MEMORY);
    DrivenChain::make(rt.alloc(), chain)
}

#[test]
fn a_driven_chain_is_fed_and_drained_by_hand(rt: HostRuntime) {
    let mut driven = make_driven(&rt);
    let mut group = make_group(&rt, &[], 0);
    group.begin_turn(1, 0, 0).expect(&rt, MEMORY);
    let runs = runs_by_hand(&rt, &mut driven, group.cx());
    assert!(rt; runs);
}
