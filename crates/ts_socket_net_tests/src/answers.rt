//! What a net over sockets answers, and what it counts.
use crate::loopback::{
    accept, begin, connect, free_port, listen, read_waiting, retired, text_of, try_connect,
};
use std::process::Abort;
use std::{net, time};
use ts_link::{Clock, Got, Link, Put};
use ts_net::MonotonicClock;
use ts_socket_net::SocketNet;
use ts_txn::{Accepted, Began, Dialed, Net, NetCounts};

// What comes of the next client of a net, which says something and is served: its number, what it wrote and
// what was read of it, and whether the net took what is left of it.
fn serve_next<R: net::Net + time::Clock + AllocGlobal + Abort, C: Clock>(
    rt: &R,
    net: &mut SocketNet<'_, R, C>,
    port: u16,
) -> (u64, Put, Got, bool) {
    let mut client = connect(rt, port);
    let mut served = accept(rt, net);
    let number = served.name();
    let sent = client.write(b"hello");
    let heard = read_waiting(rt, &mut served, &mut [0; 8]);
    let taken = net.retire(retired(rt, served, None)).is_ok();
    (number, sent, heard, taken)
}

// Begins a net whose origin is dialed twice, the second time when nobody listens any more, and answers
// whether each dial gave an origin, and the net's port.
fn dial_twice<R: net::Net + AllocGlobal + Abort, C: Clock>(
    rt: &R,
    net: &mut SocketNet<'_, R, C>,
) -> ([bool; 2], u16) {
    let (origin, origin_port) = listen(rt);
    let port = begin(rt, net, origin_port);
    let early = matches!(net.dial(), Dialed::Origin(_));
    drop(origin);
    let late = matches!(net.dial(), Dialed::Origin(_));
    ([early, late], port)
}

#[test]
fn clients_come_by_number_and_each_answer_is_counted(rt: HostRuntime) {
    let clock = MonotonicClock::new(&rt);
    let mut net = SocketNet::new(&rt, rt.alloc(), &clock);
    let (dialed, port) = dial_twice(&rt, &mut net);
    let early = matches!(net.accept(), Accepted::Again);
    let waits = net.counts().waits;
    let first = serve_next(&rt, &mut net, port);
    let _second = connect(&rt, port);
    let second = accept(&rt, &mut net).name();
    let NetCounts {
        faults,
        misdials,
        waits: _,
        ends,
    } = net.counts();
    assert!(rt; dialed == [true, false] && early && waits == 1);
    assert!(rt; first == (1, Put::Took(5), Got::Bytes(5), true) && second == 2);
    assert!(rt; (faults, misdials, ends) == (0, 1, 0));
}

// Begins a net with addresses of which each is free, taken, or none, and answers how each try went.
fn tries<R: net::Net + time::Clock + AllocGlobal, C: Clock>(
    net: &mut SocketNet<'_, R, C>,
    taken: &str,
    free: &str,
) -> [Began; 5] {
    [
        net.begin(taken, free),
        net.begin("example.org:80", free),
        net.begin(free, "nowhere"),
        net.begin(free, taken),
        net.begin(free, taken),
    ]
}

// So a net begins once, and somebody can listen at the port of the free address then.
fn begins_once<R: net::Net + time::Clock + AllocGlobal + Abort, C: Clock>(
    rt: &R,
    net: &mut SocketNet<'_, R, C>,
) -> ([Began; 5], u16) {
    let (_taken, taken_port) = listen(rt);
    let port = free_port(rt);
    let taken = text_of(rt, taken_port);
    let free = text_of(rt, port);
    (tries(net, taken.as_str(), free.as_str()), port)
}

#[test]
fn a_net_begins_once_where_the_texts_say(rt: HostRuntime) {
    let clock = MonotonicClock::new(&rt);
    let mut net = SocketNet::new(&rt, rt.alloc(), &clock);
    let early = matches!(net.accept(), Accepted::Closed) && matches!(net.dial(), Dialed::Failed);
    let (began, port) = begins_once(&rt, &mut net);
    let counts = net.counts();
    net.finish();
    let late = matches!(net.accept(), Accepted::Closed) && try_connect(&rt, port).is_none();
    let stated = [
        Began::Failed,
        Began::Failed,
        Began::Failed,
        Began::Ready,
        Began::Failed,
    ];
    let counted = NetCounts {
        faults: 4,
        misdials: 1,
        waits: 0,
        ends: 1,
    };
    assert!(rt; early && began == stated && counts == counted && late);
}
