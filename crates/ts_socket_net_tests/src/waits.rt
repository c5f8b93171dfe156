//! Waits of a net over sockets: the clients that are named, of which a socket is ready.
use crate::loopback::{
    MEMORY, PATIENCE, REFUSED, accept, begin, connect, listen, noted, read_waiting,
};
use mio::net::TcpListener;
use std::net;
use std::process::Abort;
use ts_link::{Clock, Got, Link, Put};
use ts_net::{MonotonicClock, SocketLink, StreamLink};
use ts_socket_net::SocketNet;
use ts_txn::{Accepted, Dialed, Net};

// The first and the last name that a wait adds behind another one, if it adds any.
fn named<R: net::Net + AllocGlobal + Abort, C: Clock>(
    rt: &R,
    net: &mut SocketNet<'_, R, C>,
    most: u64,
) -> Option<(u64, u64)> {
    let mut ready = Vec::new(rt.alloc());
    ready.push(7).expect(rt, MEMORY);
    net.wait(most, &mut ready);
    assert!(rt; ready.first().copied() == Some(7));
    let added = ready.as_slice().split_at(1).1;
    match (added.first(), added.last()) {
        (Some(first), Some(last)) => Some((*first, *last)),
        _ => None,
    }
}

// A client is named before it is accepted, where its origin is reached, and where either of them sends.
#[test]
fn a_client_is_named_where_it_or_its_origin_is_ready(rt: HostRuntime) {
    let clock = MonotonicClock::new(&rt);
    let mut net = SocketNet::new(&rt, rt.alloc(), &clock);
    let unbegun = named(&rt, &mut net, 0);
    let (listener, origin_port) = listen(&rt);
    let port = begin(&rt, &mut net, origin_port);
    let early = named(&rt, &mut net, 0);
    let mut client = connect(&rt, port);
    let came = named(&rt, &mut net, PATIENCE);
    let mut served = accept(&rt, &mut net);
    let Dialed::Origin(mut dialed) = net.dial() else {
        panic!(rt; "no origin");
    };
    let reached = named(&rt, &mut net, PATIENCE);
    let (stream, _) = listener.accept().expect(&rt, REFUSED);
    let mut origin = StreamLink::new(stream, 0);
    let sent = client.write(b"asked");
    let asked = named(&rt, &mut net, PATIENCE);
    let heard = read_waiting(&rt, &mut served, &mut [0; 8]);
    let answered = origin.write(b"answer");
    let told = named(&rt, &mut net, PATIENCE);
    let read = read_waiting(&rt, &mut dialed, &mut [0; 8]);
    assert!(rt; (unbegun, early) == (None, None));
    assert!(rt; [came, reached, asked, told] == [Some((1, 1)); 4]);
    assert!(rt; (sent, answered) == (Put::Took(5), Put::Took(6)));
    assert!(rt; (heard, read) == (Got::Bytes(5), Got::Bytes(6)));
}

// Nobody was there, and then somebody is of whom the system told.
#[test]
fn a_client_is_accepted_once_it_was_told_of(rt: HostRuntime) {
    let clock = MonotonicClock::new(&rt);
    let mut net = SocketNet::new(&rt, rt.alloc(), &clock);
    let port = begin(&rt, &mut net, 1);
    for number in 1..4 {
        let nobody = matches!(net.accept(), Accepted::Again);
        let _client = connect(&rt, port);
        let named = named(&rt, &mut net, PATIENCE);
        let name = match net.accept() {
            Accepted::Client(link) => link.name(),
            Accepted::Again | Accepted::Closed | Accepted::Failed => 0,
        };
        assert!(rt; nobody && named == Some((number, number)) && name == number);
    }
}

// Both ends of a connection to the origin, and the first and the last name that waits gave, once it was
// reached and once the origin had spoken.
#[derive(Drop)]
struct Spoken {
    dialed: SocketLink,
    _origin: SocketLink,
    named: [Option<(u64, u64)>; 2],
}

// Dials the origin, which says something then.
fn dial_spoken<R: net::Net + AllocGlobal + Abort, C: Clock>(
    rt: &R,
    net: &mut SocketNet<'_, R, C>,
    listener: &TcpListener,
) -> Spoken {
    let _others = named(rt, net, 0);
    let Dialed::Origin(dialed) = net.dial() else {
        panic!(rt; "no origin");
    };
    let reached = named(rt, net, PATIENCE);
    let (stream, _) = listener.accept().expect(rt, REFUSED);
    let mut origin = StreamLink::new(stream, 0);
    let spoke = origin.write(b"answer");
    let heard = named(rt, net, PATIENCE);
    assert!(rt; spoke == Put::Took(6));
    Spoken {
        dialed,
        _origin: origin,
        named: [reached, heard],
    }
}

// The origin is dialed for the client that came last, and then for another one that was noted since.
#[test]
fn a_client_that_goes_on_is_named_where_its_next_origin_is_ready(rt: HostRuntime) {
    let clock = MonotonicClock::new(&rt);
    let mut net = SocketNet::new(&rt, rt.alloc(), &clock);
    let (listener, origin_port) = listen(&rt);
    let port = begin(&rt, &mut net, origin_port);
    let _one = connect(&rt, port);
    let _served_one = accept(&rt, &mut net);
    let first = dial_spoken(&rt, &mut net, &listener);
    let _two = connect(&rt, port);
    let _served_two = accept(&rt, &mut net);
    let second = dial_spoken(&rt, &mut net, &listener);
    let taken = net.note(noted(&rt, 1, first.dialed)).is_ok();
    let next = dial_spoken(&rt, &mut net, &listener);
    assert!(rt; first.named == [Some((1, 1)); 2] && second.named == [Some((2, 2)); 2]);
    assert!(rt; taken && next.named == [Some((1, 1)); 2]);
}
