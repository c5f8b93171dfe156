//! A link in memory as an origin, which has no upload to move.
use crate::memory::{PLAIN, Plan, link};
use ts_link::{Got, Link};
use ts_upstream::{Uploaded, Upstream};

#[test]
fn a_link_in_memory_has_no_upload(rt: HostRuntime) {
    let bytes = b"abc".as_slice();
    let mut client = link(&rt, Plan { bytes, ..PLAIN });
    let mut origin = link(&rt, PLAIN);
    let uploaded = origin.upload(&mut client);
    let got = client.read(&mut [0; 8]);
    assert!(rt; (uploaded, got) == (Uploaded::Done, Got::Bytes(3)));
    assert!(rt; origin.written().is_empty());
}
