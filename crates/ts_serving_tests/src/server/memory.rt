//! Nets of which an allocation may be refused: each is served whole, or not for want of memory, and whole
//! when it is served again.

use crate::server::row::{Outcome, Row, all_come, compare, net_of_row, serve_net, setup_of};
use std::process::Abort;
use std::sync::Wait;
use std::thread::Threads;
use ts_link::{NoMemory, OpenGate};
use ts_mem_nets::pages::{mixed_visits_of, pages_of};

// What comes of a net of three clients on two threads.
fn serve_three<R: Abort + AllocGlobal + Threads + Wait + Sync>(
    rt: &R,
) -> Result<Outcome, NoMemory> {
    let alloc = rt.alloc();
    let pages = pages_of(alloc, 3)?;
    let visits = mixed_visits_of(alloc, pages.as_slice())?;
    let row = Row {
        lines: b"denylist.so b\n",
        ..all_come(visits.as_slice())
    };
    let setup = setup_of(rt, alloc, row.lines)?;
    let mut net = net_of_row(alloc, &row)?;
    let served = serve_net(rt, alloc, 2, setup, row.most, &OpenGate::make(), &mut net);
    Ok(compare(alloc, &row, &net, served))
}

// With ample memory it is served whole. Run with each allocation refused in turn (`rt try --test --fail-alloc
// N`, N from 1 on), serving it ends for want of memory, or a client's transaction does, and it is whole when
// it is served again.
#[test]
fn a_net_is_served_whole_or_memory_lacked(rt: HostRuntime) {
    let found = match serve_three(&rt) {
        Ok(Outcome::Lacks) => serve_three(&rt),
        Err(NoMemory) => serve_three(&rt),
        other => other,
    };
    assert_eq!(rt; found, Ok(Outcome::AsStated));
}
