//! A client with a tap, and one with none, as one type.
ghost use Rattle.std.specs.Prelude.{◌≤◌};

use crate::memory::{ALL, IN_CHUNKS, MEMORY, Taking, client, send};
use std::process::Abort;
use ts_link::{Got, Link, MemLink, Put, Sourced};
use ts_tap::{Lifted, Watched};
use ts_upstream::{Uploaded, Upstream};

// A client that takes so, with a tap that counts the first `most` bytes where that is told.
fn watched(rt: &(impl AllocGlobal + Abort), taking: Taking, most: Option<u64>) -> Watched<MemLink>
    requires { 1 ≤ taking.most }
{
    let link = client(rt, taking);
    Watched::make(rt.alloc(), link, most).expect(rt, MEMORY)
}

// A link may go to another thread.
fn goes_to_a_thread<L: Link + Send>(_link: &L) {}

#[test]
fn a_client_takes_the_same_with_a_tap_and_without(rt: HostRuntime) {
    let body = b"4\r\n<abc\r\n0\r\n\r\n".as_slice();
    for (most, told) in [
        (None, None),
        (Some(2), Some((2, 1_957))),
        (Some(9), Some((4, 1_883_814))),
    ] {
        let mut link = watched(&rt, ALL, most);
        assert!(rt; (send(&mut link, IN_CHUNKS, 7), send(&mut link, body, 7)) == (0, 0));
        let (client, sum) = link.into_parts();
        assert!(rt; client.written().len() == 94);
        let counted = sum.map(|sum| (sum.count(), sum.sum()));
        assert!(rt; counted == told);
    }
}

#[test]
fn the_calls_of_either_are_those_of_the_client(rt: HostRuntime) {
    let taking = Taking { fail: &[2], ..ALL };
    for most in [None, Some(1)] {
        let mut link = watched(&rt, taking, most);
        let mut origin = Lifted::make(client(&rt, ALL));
        link.known();
        goes_to_a_thread(&link);
        goes_to_a_thread(&origin);
        assert!(rt; origin.upload(&mut link) == Uploaded::Done);
        let mut room = [0u8; 4];
        assert!(rt; link.read(&mut room) == Got::Bytes(4));
        assert!(rt; link.write(b"ab") == Put::Took(2) && link.write(b"c") == Put::Failed);
        assert!(rt; link.faults() == 1);
    }
}
