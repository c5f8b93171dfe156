//! Clients that stall before they ask, and clients that leave at each byte of what they get.

use crate::command::MEMORY;
use crate::server::row::{all_come, check};
use crate::visits::{all_leaving, late};

#[test]
fn clients_leave_at_each_byte(rt: HostRuntime) {
    let visits = all_leaving(rt.alloc()).expect(&rt, MEMORY);
    check(&rt, &all_come(visits.as_slice()));
}

// Who waits longer is served later, and nobody waits for it.
#[test]
fn clients_that_stall_are_served(rt: HostRuntime) {
    check(&rt, &all_come(&[late(100), late(0), late(1), late(10)]));
}
