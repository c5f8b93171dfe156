//! The command `serve` over sockets: a client and its origin in a thread, and the program in another.
use crate::loopback::{MEMORY, PATIENCE, REFUSED, free_port, local, text_of, try_connect};
use std::net::Net;
use std::process::Abort;
use std::sync::Wait;
use std::thread::Threads;
use std::{thread, time};
use ts_link::{Clock, Got, Link, MemShelf, MemSink, OpenGate, Put};
use ts_net::{Arrival, MonotonicClock, SocketLink, SystemListener};
use ts_proxy::run;
use ts_socket_net::SocketNet;

// What the client asks, and what its origin is asked: by one more on the way, over a connection that ends.
const ASKED: &[u8] = b"GET / HTTP/1.1\r\nHost: a\r\n\r\n";

const PASSED_ON: &[u8] = b"GET / HTTP/1.1\r\nhost: a\r\nvia: 1.1 tsx\r\nconnection: close\r\n\r\n";

// What the origin answers, and what the client gets of it with nothing configured.
const ANSWERED: &[u8] = b"HTTP/1.1 200 OK\r\nContent-Length: 3\r\n\r\nabc";

const TAKEN: &[u8] =
    b"HTTP/1.1 200 OK\r\nvia: 1.1 tsx\r\ncontent-length: 3\r\nconnection: close\r\n\r\nabc";

// What the origin was asked, and what the client got.
#[derive(Drop)]
struct Seen {
    asked: Vec<u8>,
    taken: Vec<u8>,
}

// What a run left: its status, what out and err took, and how many journals it answered.
#[derive(Drop)]
struct Remains {
    status: u8,
    out: MemSink,
    err: MemSink,
    journals: usize,
}

// A connection to a port, at which somebody will listen.
fn connect_waiting<R: Net + time::Clock + Abort>(rt: &R, port: u16) -> SocketLink {
    let clock = MonotonicClock::new(rt);
    for _ in 0..PATIENCE {
        match try_connect(rt, port) {
            Some(link) => return link,
            None => clock.pause(1),
        }
    }
    panic!(rt; "nobody listens")
}

// The next connection of an origin, which is waited for.
fn accept_waiting<R: time::Clock + Abort>(rt: &R, origin: &mut SystemListener) -> SocketLink {
    let clock = MonotonicClock::new(rt);
    for _ in 0..PATIENCE {
        match origin.accept() {
            Arrival::Client(link) => return link,
            Arrival::Again => clock.pause(1),
            Arrival::Closed | Arrival::Failed => break,
        }
    }
    panic!(rt; "the origin was not dialed")
}

// All that comes, up to the end or up to so many bytes.
fn read_up_to<R: time::Clock + AllocGlobal + Abort>(
    rt: &R,
    link: &mut SocketLink,
    most: usize,
) -> Vec<u8> {
    let clock = MonotonicClock::new(rt);
    let mut bytes = Vec::new(rt.alloc());
    let mut room = [0u8; 64];
    for _ in 0..PATIENCE {
        if bytes.len() >= most {
            return bytes;
        }
        match link.read(&mut room) {
            Got::Bytes(count) => bytes.extend_from_slice(&room[..count]).expect(rt, MEMORY),
            Got::End => return bytes,
            Got::Again => clock.pause(1),
            Got::Failed => break,
        }
    }
    panic!(rt; "not all came")
}

// A client asks at a port, and its origin answers.
fn visit<R: Net + time::Clock + AllocGlobal + Abort>(
    rt: &R,
    port: u16,
    mut origin: SystemListener,
) -> Seen {
    let mut client = connect_waiting(rt, port);
    assert!(rt; client.write(ASKED) == Put::Took(ASKED.len()));
    let mut dialed = accept_waiting(rt, &mut origin);
    let asked = read_up_to(rt, &mut dialed, PASSED_ON.len());
    assert!(rt; dialed.write(ANSWERED) == Put::Took(ANSWERED.len()));
    let taken = read_up_to(rt, &mut client, usize::MAX);
    Seen { asked, taken }
}

// The words that serve one connection at a port and dial another.
fn words_of<R: AllocGlobal + Abort>(rt: &R, port: u16, origin: u16) -> Vec<String> {
    let alloc = rt.alloc();
    let listen = text_of(rt, port);
    let origin = text_of(rt, origin);
    let words = [
        "serve",
        "--listen",
        listen.as_str(),
        "--origin",
        origin.as_str(),
        "--config",
        "c",
        "--connections",
        "1",
    ];
    let mut texts = Vec::new(alloc);
    for word in words {
        let text = String::from_str(alloc, word).expect(rt, MEMORY);
        texts.push(text).expect(rt, MEMORY);
    }
    texts
}

// The program, which serves one connection at a port and dials another.
fn serve_one<R: Net + Threads + Wait + time::Clock + AllocGlobal + Abort + Sync>(
    rt: &R,
    port: u16,
    origin: u16,
) -> Remains {
    let alloc = rt.alloc();
    let words = words_of(rt, port, origin);
    let mut shelf = MemShelf::make(alloc);
    shelf.add("c", b"").expect(rt, MEMORY);
    let mut out = MemSink::make(alloc, usize::MAX, Vec::new(alloc));
    let mut err = MemSink::make(alloc, usize::MAX, Vec::new(alloc));
    let clock = MonotonicClock::new(rt);
    let mut net = SocketNet::new(rt, alloc, &clock);
    let words = words.as_slice();
    let gate = OpenGate::make();
    let ended = run(
        rt, alloc, words, &mut shelf, &mut net, &mut out, &mut err, &clock, &gate,
    );
    net.finish();
    Remains {
        status: ended.status,
        out,
        err,
        journals: ended.journals.len(),
    }
}

#[test]
fn a_client_is_served_and_the_program_ends(rt: HostRuntime) {
    let origin = SystemListener::bind(&rt, local(0)).expect(&rt, REFUSED);
    let origin_port = origin.address().expect(&rt, REFUSED).port();
    let port = free_port(&rt);
    let shared = &rt;
    let (seen, left) = thread::join(
        shared,
        move || visit(shared, port, origin),
        move || serve_one(shared, port, origin_port),
    );
    assert!(rt; (left.status, left.journals) == (0, 0));
    assert!(rt; left.out.written().is_empty() && left.err.written().is_empty());
    assert!(rt; seen.asked.as_slice() == PASSED_ON && seen.taken.as_slice() == TAKEN);
}
