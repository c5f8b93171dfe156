//! Sockets that the system watches: of which it tells, by which names, and how long a wait for them takes.
use crate::loopback::{MEMORY, PATIENCE, accept, dial, listen, pair, read_waiting};
use std::net::Net;
use std::process::Abort;
use ts_link::{Clock, Got, Link, Put};
use ts_net::{LISTENER, MOST_TOLD, MonotonicClock, Poller, SocketLink};

// The name of the client that comes next.
const NEXT: u64 = 9;

fn new_poller<R: Abort + AllocGlobal + Net>(rt: &R) -> Poller {
    Poller::new(rt, rt.alloc()).expect(rt, MEMORY)
}

// Of how many names a wait of so many milliseconds tells, and the first and the last of them, 0 where it
// tells of none.
fn told<R: Abort + AllocGlobal>(rt: &R, poller: &mut Poller, most: u64) -> [u64; 3] {
    let mut names = Vec::new(rt.alloc());
    assert!(rt; poller.wait(most));
    poller.add_names(NEXT, &mut names).expect(rt, MEMORY);
    let first = names.first().copied().unwrap_or(0);
    let last = names.last().copied().unwrap_or(0);
    [names.len() as u64, first, last]
}

// A client that comes is told of once, and so is a connection that can be written or read, where that
// changed.
#[test]
fn what_became_ready_is_told_of_once(rt: HostRuntime) {
    let mut poller = new_poller(&rt);
    let mut listener = listen(&rt);
    assert!(rt; listener.watch(&poller));
    let early = told(&rt, &mut poller, 0);
    let mut client = dial(&rt, &listener);
    let came = told(&rt, &mut poller, PATIENCE);
    let is_listener = poller.has_told(LISTENER);
    let mut served = accept(&rt, &mut listener);
    assert!(rt; served.watch(&poller, 5));
    let writable = told(&rt, &mut poller, PATIENCE);
    let again = told(&rt, &mut poller, 0);
    let sent = client.write(b"hello");
    let readable = told(&rt, &mut poller, PATIENCE);
    let heard = read_waiting(&rt, &mut served, &mut [0; 8]);
    drop(client);
    let ended = told(&rt, &mut poller, PATIENCE);
    assert!(rt; (sent, heard) == (Put::Took(5), Got::Bytes(5)));
    assert!(rt; (early, came, is_listener) == ([0; 3], [1, NEXT, NEXT], true));
    assert!(rt; [writable, again, readable, ended] == [[1, 5, 5], [0; 3], [1, 5, 5], [1, 5, 5]]);
}

// Both links of a transaction have one name. A connection is watched under one name alone.
#[test]
fn two_sockets_of_one_name_are_told_of_by_it(rt: HostRuntime) {
    let mut poller = new_poller(&rt);
    let (mut client, mut served) = pair(&rt);
    let watched = [
        client.watch(&poller, 3),
        served.watch(&poller, 3),
        client.watch(&poller, 4),
    ];
    let names = told(&rt, &mut poller, PATIENCE);
    assert!(rt; watched == [true, true, false] && names == [2, 3, 3]);
}

// A wait that is told of nothing takes its time, and one that is told of something does not.
#[test]
fn a_wait_takes_no_longer_than_it_may(rt: HostRuntime) {
    let clock = MonotonicClock::new(&rt);
    let mut poller = new_poller(&rt);
    let (_client, mut served) = pair(&rt);
    let before = clock.now();
    let nobody = told(&rt, &mut poller, 20);
    let waited = clock.now();
    assert!(rt; served.watch(&poller, 1));
    let names = told(&rt, &mut poller, PATIENCE);
    let after = clock.now();
    assert!(rt; (nobody, names) == ([0; 3], [1; 3]) && waited >= before.saturating_add(20));
    assert!(rt; after < waited.saturating_add(1_000));
}

// Who watches nothing does not wait, and tells of nothing.
#[test]
fn where_nothing_is_watched_nothing_is_told_of(rt: HostRuntime) {
    let mut poller = Poller::idle(rt.alloc()).expect(&rt, MEMORY);
    let mut names = Vec::new(rt.alloc());
    let (_client, mut served) = pair(&rt);
    let watched = served.watch(&poller, 1);
    let waited = poller.wait(PATIENCE);
    let told = poller.has_told(1);
    poller.add_names(NEXT, &mut names).expect(&rt, MEMORY);
    assert!(rt; (watched, waited, told, names.len()) == (false, false, false, 0));
}

// More sockets than one wait tells of.
#[test]
fn of_what_one_wait_does_not_tell_the_next_one_does(rt: HostRuntime) {
    let mut poller = new_poller(&rt);
    let listener = listen(&rt);
    let mut links: Vec<SocketLink> = Vec::new(rt.alloc());
    for name in 0..MOST_TOLD as u64 + 4 {
        let mut link = dial(&rt, &listener);
        assert!(rt; link.watch(&poller, name));
        links.push(link).expect(&rt, MEMORY);
    }
    let counts = [PATIENCE, PATIENCE, 0].map(|most| told(&rt, &mut poller, most)[0]);
    assert!(rt; counts == [MOST_TOLD as u64, 4, 0]);
}
