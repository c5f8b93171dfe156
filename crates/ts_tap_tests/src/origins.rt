//! The calls of a tap and of a lifted origin that hand on to the link inside.
use crate::memory::{ALL, Taking, client, summed};
use ts_link::{Got, Link, Put, Sourced};
use ts_tap::{Lifted, sent_bodies};
use ts_upstream::{Uploaded, Upstream};

#[test]
fn a_lifted_origin_is_the_origin_of_the_client_inside_the_tap(rt: HostRuntime) {
    sent_bodies();
    let taking = Taking { fail: &[2], ..ALL };
    let mut tap = summed(&rt, taking, 1);
    let mut origin = Lifted::make(client(&rt, taking));
    tap.known();
    origin.known();
    assert!(rt; origin.upload(&mut tap) == Uploaded::Done);
    let mut room = [0u8; 4];
    assert!(rt; tap.read(&mut room) == Got::Bytes(4) && origin.read(&mut room) == Got::Bytes(4));
    assert!(rt; origin.write(b"ab") == Put::Took(2) && origin.write(b"c") == Put::Failed);
    assert!(rt; tap.write(b"ab") == Put::Took(2) && tap.write(b"c") == Put::Failed);
    assert!(rt; origin.faults() == 1 && tap.faults() == 1);
    assert!(rt; origin.into_origin().written() == b"ab".as_slice());
}
