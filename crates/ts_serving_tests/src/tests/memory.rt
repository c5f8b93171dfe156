//! A net of which an allocation may be refused: it is served whole, or not for want of memory, and whole when
//! it is served again.

use crate::command::{left_of, shelf_of, texts_of, wide_sink};
use crate::row::{Outcome, Row, all_come, compare, words_of};
use std::alloc::Global;
use std::sync::Wait;
use std::thread::Threads;
use ts_link::{NoMemory, OpenGate};
use ts_mem_nets::net::net_of;
use ts_mem_nets::pages::{mixed_visits_of, pages_of};

// What comes of a net of three clients on two threads.
fn serve_three<R: Threads + Wait + Sync>(rt: &R, alloc: Global) -> Result<Outcome, NoMemory> {
    let pages = pages_of(alloc, 3)?;
    let visits = mixed_visits_of(alloc, pages.as_slice())?;
    let row = Row {
        config: b"denylist.so b\n",
        ..all_come(visits.as_slice())
    };
    let words = texts_of(alloc, &words_of(&row, "2"))?;
    let shelf = shelf_of(alloc, row.config)?;
    let net = net_of(alloc, row.visits, row.again, row.failing)?;
    let (out, gate) = (wide_sink(alloc), OpenGate::make());
    let left = left_of(rt, alloc, words.as_slice(), shelf, net, out, &gate);
    Ok(compare(alloc, &row, &left))
}

// With ample memory it is served whole. Run with each allocation refused in turn (`rt try --test --fail-alloc
// N`, N from 1 on), the program ends with status 7, or a client's transaction does so, and it is served whole
// the second time.
#[test]
fn a_net_is_served_whole_or_memory_lacked(rt: HostRuntime) {
    let found = match serve_three(&rt, rt.alloc()) {
        Ok(Outcome::Lacks) => serve_three(&rt, rt.alloc()),
        Err(NoMemory) => serve_three(&rt, rt.alloc()),
        other => other,
    };
    assert_eq!(rt; found, Ok(Outcome::AsStated));
}
