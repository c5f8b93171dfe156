//! A watcher that leaves bytes: they wait for it, and a tap is lost where more wait than may.
ghost use Rattle.std.specs.Prelude.{◌≤◌};

use crate::memory::{ALL, IN_CHUNKS, MEMORY, Taking, client, send};
use crate::slow::Slow;
use std::process::Abort;
use std::thread::map_indices;
use ts_link::MemLink;
use ts_tap::{MOST_UNREAD, Tapped, limits};

// A tap with a watcher that takes at most `most` bytes an offer.
fn slowly(rt: &(impl AllocGlobal + Abort), taking: Taking, most: usize) -> Tapped<MemLink, Slow>
    requires { 1 ≤ taking.most }
{
    let alloc = rt.alloc();
    let link = client(rt, taking);
    Tapped::make(alloc, link, Slow::make(alloc, most)).expect(rt, MEMORY)
}

// Bytes `x`, so many.
fn many(rt: &(impl AllocGlobal + Abort), count: usize) -> Vec<u8> {
    vec![in rt.alloc(); b'x'; count].expect(rt, MEMORY)
}

const AS_IT_IS: &[u8] = b"HTTP/1.1 200 OK\r\nconnection: close\r\n\r\n";

// How many bytes each body here has.
const BODY: usize = 100_000;

// What came of a tap: whether nothing was left of the response, whether the tap is lost, whether the client has
// the whole response, and how many bytes the watcher took in the end.
type Outcome = (bool, bool, bool, usize);

// A response with a long body, in pieces of at most so many bytes, past a watcher that takes a byte an offer.
fn take_a_byte_an_offer(rt: &(impl AllocGlobal + Abort), piece: usize) -> Outcome {
    let body = many(rt, BODY);
    let mut response = Vec::from_slice(rt.alloc(), AS_IT_IS).expect(rt, MEMORY);
    response.extend_from_slice(&body).expect(rt, MEMORY);
    let mut tap = slowly(rt, ALL, 1);
    let left = (
        send(&mut tap, AS_IT_IS, piece),
        send(&mut tap, &body, piece),
    );
    let is_lost = tap.is_lost();
    let (link, watcher) = tap.into_parts();
    let is_whole = link.written() == response.as_slice();
    (left == (0, 0), is_lost, is_whole, watcher.kept.len())
}

#[test]
fn a_watcher_that_takes_a_byte_an_offer_loses_100000_bytes_and_the_client_has_them(
    rt: HostRuntime,
) {
    limits();
    // The size of the pieces, and how many bytes the watcher took in the end.
    for (piece, kept) in [(100_000, 1), (32_768, 3), (1_460, 45)] {
        assert!(rt; take_a_byte_an_offer(&rt, piece) == (true, true, true, kept));
    }
}

#[test]
fn taps_on_eight_threads_are_lost_as_one_is(rt: HostRuntime) {
    let outcomes = map_indices(
        &rt,
        rt.alloc(),
        8,
        &|_thread| take_a_byte_an_offer(&rt, 32_768),
    )
    .expect(&rt, MEMORY);
    assert!(rt; outcomes.as_slice() == [(true, true, true, 3); 8].as_slice());
}

#[test]
fn a_tap_is_lost_where_one_byte_more_waits_than_may(rt: HostRuntime) {
    for (count, lost) in [(MOST_UNREAD, false), (MOST_UNREAD + 1, true)] {
        let body = many(&rt, count);
        let mut tap = slowly(&rt, ALL, 0);
        let left = (send(&mut tap, AS_IT_IS, 4096), send(&mut tap, &body, 4096));
        assert!(rt; left == (0, 0) && tap.is_lost() == lost);
    }
}

#[test]
fn what_waits_is_offered_again_behind_each_write_and_at_the_end(rt: HostRuntime) {
    let taking = Taking { again: &[3], ..ALL };
    let mut tap = slowly(&rt, taking, 2);
    assert!(rt; send(&mut tap, IN_CHUNKS, 100) == 0);
    // Of six bytes two are taken at once, two behind a write that waits, two behind the next one; and so it
    // is with the next six, of which two are left at the end.
    assert!(rt; send(&mut tap, b"6\r\nabcdef\r\n", 100) == 0);
    assert!(rt; send(&mut tap, b"6\r\nghijkl\r\n", 100) == 0);
    assert!(rt; !tap.is_lost());
    let (_link, watcher) = tap.into_parts();
    assert!(rt; watcher.kept.as_slice() == b"abcdefghij".as_slice() && watcher.lefts == 4);
}
