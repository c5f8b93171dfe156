//! A client whose transaction was handed over gets its answer whole, and a clean end, whatever it sent that
//! nobody read.
use crate::loopback::{
    MEMORY, PATIENCE, REFUSED, accept, begin, connect, listen, read_waiting, retired,
};
use std::process::Abort;
use std::{net, time};
use ts_link::{Clock, Got, Link, Put};
use ts_net::{MonotonicClock, SocketLink, StreamLink};
use ts_socket_net::SocketNet;
use ts_txn::{Dialed, Net};

// How long the answer is. Of so much the system drops the greater part where a connection is closed over
// bytes that wait unread.
const ANSWER: usize = 1_000_000;

const REQUEST: &[u8] = b"GET / HTTP/1.1\r\nHost: a.example\r\n\r\n";

// Reads what is there, and gives how many bytes that was, and the end where it came.
fn hear(client: &mut SocketLink) -> (usize, bool) {
    let mut room = [0u8; 4096];
    match client.read(&mut room) {
        Got::Bytes(count) => (count, false),
        Got::End => (0, true),
        Got::Again | Got::Failed => (0, false),
    }
}

// Writes an answer to a client that reads, and gives how much of it the client has read.
fn answer(
    rt: &impl Abort,
    served: &mut SocketLink,
    client: &mut SocketLink,
    bytes: &[u8],
) -> usize {
    let mut rest = bytes;
    let mut heard = 0usize;
    for _ in 0..u64::MAX {
        if rest.is_empty() {
            return heard;
        }
        match served.write(rest) {
            Put::Took(count) => rest = &rest[count..],
            Put::Again => heard = heard.saturating_add(hear(client).0),
            Put::Failed | Put::NoMemory => break,
        }
    }
    panic!(rt; "a write failed")
}

// Sends all these bytes, which are some, in one write.
fn send(rt: &impl Abort, client: &mut SocketLink, bytes: &[u8]) {
    assert!(rt; !bytes.is_empty());
    assert!(rt; client.write(bytes) == Put::Took(bytes.len()));
}

// A client sends all these bytes, of which one read takes some, and is answered and handed over. Gives the
// client, and how much it has read.
fn serve<R: net::Net + time::Clock + AllocGlobal + Abort, C: Clock>(
    rt: &R,
    net: &mut SocketNet<'_, R, C>,
    port: u16,
    sent: &[u8],
) -> (SocketLink, usize) {
    let bytes = vec![in rt.alloc(); b'a'; ANSWER].expect(rt, MEMORY);
    let mut client = connect(rt, port);
    let mut served = accept(rt, net);
    send(rt, &mut client, sent);
    let _first = read_waiting(rt, &mut served, &mut [0; 35]);
    let heard = answer(rt, &mut served, &mut client, bytes.as_slice());
    let taken = net.retire(retired(rt, served, None));
    assert!(rt; taken.is_ok());
    (client, heard)
}

// Whether a client gets the whole answer and a clean end, of which it has read so much.
fn hears_all<R: time::Clock>(rt: &R, client: &mut SocketLink, heard: usize) -> bool {
    let clock = MonotonicClock::new(rt);
    let mut total = heard;
    for _ in 0..PATIENCE {
        let (count, ended) = hear(client);
        total = total.saturating_add(count);
        if ended {
            return total == ANSWER;
        }
        if count == 0 {
            clock.pause(1);
        }
    }
    false
}

#[test]
fn an_answer_over_an_unread_body_comes_whole(rt: HostRuntime) {
    let clock = MonotonicClock::new(&rt);
    let mut sent = Vec::from_slice(rt.alloc(), REQUEST).expect(&rt, MEMORY);
    sent.resize(20_000, b'b').expect(&rt, MEMORY);
    let mut net = SocketNet::new(&rt, rt.alloc(), &clock);
    let port = begin(&rt, &mut net, 1);
    let (mut client, heard) = serve(&rt, &mut net, port, sent.as_slice());
    for _ in 0..20 {
        let _none = net.accept();
    }
    let more = client.write(b"and more");
    let _none = net.accept();
    assert!(rt; more == Put::Took(8) && hears_all(&rt, &mut client, heard));
}

#[test]
fn an_answer_before_a_second_request_comes_whole_at_the_end(rt: HostRuntime) {
    let clock = MonotonicClock::new(&rt);
    let mut both = Vec::from_slice(rt.alloc(), REQUEST).expect(&rt, MEMORY);
    both.extend_from_slice(REQUEST).expect(&rt, MEMORY);
    let mut net = SocketNet::new(&rt, rt.alloc(), &clock);
    let port = begin(&rt, &mut net, 1);
    let (mut client, heard) = serve(&rt, &mut net, port, both.as_slice());
    let before = clock.now();
    net.finish();
    let after = clock.now();
    assert!(rt; after < before.saturating_add(1_000) && hears_all(&rt, &mut client, heard));
}

// Lets a net take a client and dial its origin, hands both over, and gives the two other ends.
fn hand_over<R: net::Net + time::Clock + AllocGlobal + Abort, C: Clock>(
    rt: &R,
    net: &mut SocketNet<'_, R, C>,
) -> (SocketLink, SocketLink) {
    let (listener, origin_port) = listen(rt);
    let port = begin(rt, net, origin_port);
    let client = connect(rt, port);
    let served = accept(rt, net);
    let Dialed::Origin(dialed) = net.dial() else {
        panic!(rt; "no origin");
    };
    MonotonicClock::new(rt).pause(5);
    let (stream, _) = listener.accept().expect(rt, REFUSED);
    let taken = net.retire(retired(rt, served, Some(dialed)));
    assert!(rt; taken.is_ok());
    (client, StreamLink::new(stream, 0))
}

// Only the client lingers: its origin is closed at once.
#[test]
fn an_origin_is_closed_where_its_client_lingers(rt: HostRuntime) {
    let clock = MonotonicClock::new(&rt);
    let mut net = SocketNet::new(&rt, rt.alloc(), &clock);
    let (mut client, mut origin) = hand_over(&rt, &mut net);
    let mut room = [0u8; 8];
    let ends = [
        read_waiting(&rt, &mut client, &mut room),
        read_waiting(&rt, &mut origin, &mut room),
    ];
    let sent = [client.write(b"late"), origin.write(b"late")];
    clock.pause(5);
    let later = [client.write(b"later"), origin.write(b"later")];
    assert!(rt; ends == [Got::End; 2] && sent == [Put::Took(4); 2]);
    assert!(rt; later == [Put::Took(5), Put::Failed]);
}
