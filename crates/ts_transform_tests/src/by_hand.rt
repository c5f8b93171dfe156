//! Chains whose stages are worked one by one.
ghost use Rattle.std.specs.Prelude.{◌≡◌, false};

use crate::tail::{MEMORY, Tail, letters, tails};
use std::process::Abort;
use ts_transform::{Chain, Pumped, Transform};

// A chain of tails of these texts, which got a body.
fn chain_over(rt: &(impl AllocGlobal + Abort), texts: &[&[u8]], body: &[u8]) -> Chain<Tail>
    ensures goes_on { result.given ≡ false }
{
    let parts = tails(rt.alloc(), texts).expect(rt, MEMORY);
    let mut chain = Chain::make(rt.alloc(), parts).expect(rt, MEMORY);
    chain.give(body).expect(rt, MEMORY);
    chain
}

/// Lets stages of a chain work, and tells whether each answers as its row says.
pub fn answers<P: Transform + Drop>(
    rt: &impl Abort,
    chain: &mut Chain<P>,
    rows: &[(usize, Pumped)],
) -> bool {
    for (at, answer) in rows {
        if *at >= chain.stages() || chain.pump(*at).expect(rt, MEMORY) != *answer {
            return false;
        }
    }
    true
}

// Takes the first block that waits for the client, and tells whether it is this text and all is finished
// then.
fn ends_with(chain: &mut Chain<Tail>, text: &[u8]) -> bool {
    let Some(block) = chain.out_block() else {
        return false;
    };
    let is_text = block == text;
    let len = block.len();
    chain.take(len);
    is_text && chain.is_finished()
}

#[test]
fn two_tails_are_written_in_the_order_of_the_chain(rt: HostRuntime) {
    let mut chain = chain_over(&rt, &[b"1".as_slice(), b"2".as_slice()], b"ab");
    chain.give_end();
    let before = (chain.stages(), chain.waiting(0));
    let rows = [
        (1, Pumped::Idle),
        (0, Pumped::Moved(2)),
        (1, Pumped::Moved(2)),
        (0, Pumped::Ended),
        (0, Pumped::Idle),
        (1, Pumped::Moved(1)),
        (1, Pumped::Ended),
    ];
    let answered = answers(&rt, &mut chain, &rows);
    let finished = chain.is_finished();
    let ended = ends_with(&mut chain, b"ab12");
    assert_eq!(rt;
        (before, answered, finished, ended),
        ((2, 2), true, false, true)
    );
}

#[test]
fn a_stage_is_blocked_where_65_536_bytes_wait_after_it(rt: HostRuntime) {
    let body = vec![in rt.alloc(); b'x'; 65_537].expect(&rt, MEMORY);
    let mut chain = chain_over(&rt, &[b"".as_slice()], body.as_slice());
    let rows = [
        (0, Pumped::Moved(32_768)),
        (0, Pumped::Moved(32_768)),
        (0, Pumped::Blocked { waiting: 65_536 }),
    ];
    let answered = answers(&rt, &mut chain, &rows);
    assert!(rt; answered);
}

// Whether the one stage of a chain has moved so many bytes, and then gives nothing more once it is aborted.
fn gives_nothing_more(rt: &impl Abort, chain: &mut Chain<Tail>, moves: usize) -> bool {
    if !chain.must_pump(0) || !answers(rt, chain, &[(0, Pumped::Moved(moves))]) {
        return false;
    }
    let goes_on = !chain.has_ended(0) && !chain.is_last_full() && chain.pause(0) == 0;
    chain.abort();
    goes_on && chain.has_ended(0) && chain.is_finished() && chain.out_block().is_none()
}

#[test]
fn a_chain_that_is_aborted_gives_nothing_more(rt: HostRuntime) {
    let body = letters(rt.alloc(), 100_000).expect(&rt, MEMORY);
    let parts = tails(rt.alloc(), &[b"1".as_slice()]).expect(&rt, MEMORY);
    let mut chain = Chain::over(rt.alloc(), parts, body).expect(&rt, MEMORY);
    let gives_nothing = gives_nothing_more(&rt, &mut chain, 32_768);
    assert!(rt; gives_nothing);
}
