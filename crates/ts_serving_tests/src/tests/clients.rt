//! What single clients get: ones whose origin is not reached, ones that a line serves, ones that stall, ones
//! that get the front of a page, and ones that leave at each byte.

use crate::command::MEMORY;
use crate::row::{Row, all_come, check};
use crate::visits::{all_leaving, late, late_at};
use std::alloc::Global;
use ts_link::NoMemory;
use ts_mem_nets::links::{Side, Stalling, staying};
use ts_mem_nets::stated::{ABC, CHUNKED, GET};
use ts_mem_nets::visit::{Visit, page, unreached};

// A dial that fails gives its client the proxy's own answer.
#[test]
fn an_origin_that_is_not_reached_is_answered_for(rt: HostRuntime) {
    let visits = [unreached(page()), page(), unreached(page())];
    check(&rt, &all_come(&visits));
}

// What a line `fill 0` serves.
const SERVED: &[u8] = b"HTTP/1.1 200 OK\r\ncontent-type: text/plain\r\nvia: 1.1 tsx\r\n\
content-length: 0\r\nconnection: close\r\n\r\n";

// A line serves its host whether the origin is reached or not, and leaves that alone. A tap changes nothing.
#[test]
fn a_host_that_a_line_serves_needs_no_origin(rt: HostRuntime) {
    let served = Visit {
        sent: b"",
        taken: SERVED,
        ..page()
    };
    let alone = Visit {
        origin: None,
        ..served
    };
    let visits = [served, alone];
    let row = Row {
        config: b"intercept.so a fill 0\ntap.so 1\n",
        ..all_come(&visits)
    };
    check(&rt, &row);
}

// Every other host has its origin, or the proxy's own answer where that is not reached.
#[test]
fn another_host_than_that_of_a_line_has_its_origin(rt: HostRuntime) {
    let visits = [page(), unreached(page())];
    let row = Row {
        config: b"intercept.so b fill 0\n",
        ..all_come(&visits)
    };
    check(&rt, &row);
}

// Who waits longer is served later, and nobody waits for it.
#[test]
fn clients_that_stall_are_served(rt: HostRuntime) {
    check(&rt, &all_come(&[late(100), late(0), late(1), late(10)]));
}

// Clients that wait before each byte, and one that waits behind the last.
fn all_stalling<'a>(alloc: Global) -> Result<Vec<Visit<'a>>, NoMemory> {
    let mut visits = Vec::new(alloc);
    for at in 0..=GET.len() {
        visits.push(late_at(at, 3))?;
    }
    Ok(visits)
}

#[test]
fn clients_stall_at_each_byte(rt: HostRuntime) {
    let visits = all_stalling(rt.alloc()).expect(&rt, MEMORY);
    check(&rt, &all_come(visits.as_slice()));
}

// The page without its last letter.
const CUT: &[u8] = b"HTTP/1.1 200 OK\r\nContent-Length: 3\r\n\r\nab";

// A client that gets the first two letters of the page that this origin gives.
fn first_letters<'a>(origin: Stalling<'a>) -> Visit<'a> {
    Visit {
        origin: Some(Side::Stalling(origin)),
        taken: CHUNKED,
        chunks: Some(b"ab"),
        ..page()
    }
}

// A line lets two letters of a page pass. Its client gets them whole, whether the origin gives the third one,
// ends before it, or makes its reader wait for it without an end.
#[test]
fn clients_get_the_first_letters_of_a_page(rt: HostRuntime) {
    let stalling = Stalling {
        stalls_at: CUT.len(),
        stall: u32::MAX,
        ..staying(ABC)
    };
    let visits = [
        first_letters(staying(ABC)),
        first_letters(staying(CUT)),
        first_letters(stalling),
    ];
    let row = Row {
        config: b"limit.so 2\n",
        ..all_come(&visits)
    };
    check(&rt, &row);
}

#[test]
fn clients_leave_at_each_byte(rt: HostRuntime) {
    let visits = all_leaving(rt.alloc()).expect(&rt, MEMORY);
    check(&rt, &all_come(visits.as_slice()));
}
