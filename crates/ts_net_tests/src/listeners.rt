//! Who listens: clients by number, and which errors are faults.
ghost use Rattle.std.specs.Prelude.{⊤};

use crate::loopback::{MEMORY, REFUSED, accept, dial, listen, pair, read_waiting};
use mio::net::TcpStream;
use std::net::Net;
use std::process::Abort;
use std::{io, time};
use ts_link::{Got, Link, Put};
use ts_net::{Acceptor, Arrival, Listener, Poller, Watched, is_final};

#[test]
fn clients_have_their_number_as_name(rt: HostRuntime) {
    let mut listener = listen(&rt);
    let port = listener.address().expect(&rt, REFUSED).port();
    let early = matches!(listener.accept(), Arrival::Again);
    let before = listener.given();
    let _clients = (dial(&rt, &listener), dial(&rt, &listener));
    let names = [
        accept(&rt, &mut listener).name(),
        accept(&rt, &mut listener).name(),
    ];
    assert!(rt; port > 0 && early && (before, names, listener.given()) == (0, [1, 2], 2));
}

// More clients than a backlog of 128 holds.
const BURST: u64 = 200;

#[test]
fn a_burst_of_clients_is_accepted(rt: HostRuntime) {
    let mut listener = listen(&rt);
    let mut links = Vec::new(rt.alloc());
    for _ in 0..BURST {
        links.push(dial(&rt, &listener)).expect(&rt, MEMORY);
    }
    for number in 1..=BURST {
        let Arrival::Client(link) = listener.accept() else {
            panic!(rt; "no client {number}");
        };
        assert!(rt; link.name() == number);
        links.push(link).expect(&rt, MEMORY);
    }
    assert!(rt; matches!(listener.accept(), Arrival::Again));
}

// Whether a connection sends at once by its option, behind so many writes of its link.
fn sends_at_once<R: Abort + Net + time::Clock>(rt: &R, writes: u64) -> [bool; 2] {
    let (mut client, mut served) = pair(rt);
    for _ in 0..writes {
        let sent = [client.write(b"a"), served.write(b"b")];
        assert!(rt; sent == [Put::Took(1); 2]);
    }
    [client, served].map(|link| link.into_stream().nodelay().expect(rt, REFUSED))
}

// What is written first goes out at once as it is, and so no option is set for it.
#[test]
fn both_ends_send_at_once_from_the_second_write_on(rt: HostRuntime) {
    let seen = [0, 1, 2, 3].map(|writes| sends_at_once(&rt, writes));
    assert!(rt; seen == [[false; 2], [false; 2], [true; 2], [true; 2]]);
}

// A client that left before it was accepted comes, and has ended.
#[test]
fn a_client_that_left_has_ended(rt: HostRuntime) {
    let mut listener = listen(&rt);
    drop(dial(&rt, &listener));
    let mut served = accept(&rt, &mut listener);
    let end = read_waiting(&rt, &mut served, &mut [0]);
    assert!(rt; end == Got::End);
}

// Whoever asks for a client is answered with the error of this number.
#[derive(Drop)]
struct Refusing {
    code: i32,
}

impl Watched for Refusing {
    ghost watches = { λ name answer before after. ⊤ };

    fn watch(&mut self, _poller: &Poller, _name: u64) -> bool {
        false
    }
}

impl Acceptor for Refusing {
    type Stream = TcpStream;

    ghost accepts = { λ before after answer. ⊤ };

    fn next_stream(&mut self) -> io::Result<TcpStream> {
        Err(io::Error::from_raw_os_error(self.code))
    }
}

// The numbers are those of accept(2): EPERM, EINTR, EBADF, EAGAIN, ENOMEM, EINVAL, ENFILE, EMFILE, EPROTO,
// ENOTSOCK, ENOPROTOOPT, EOPNOTSUPP, ENETDOWN, ENETUNREACH, ECONNABORTED, ENOBUFS, EHOSTDOWN, EHOSTUNREACH.
const ERRORS: [(i32, bool); 18] = [
    (1, false),
    (4, false),
    (9, true),
    (11, false),
    (12, false),
    (22, true),
    (23, false),
    (24, false),
    (71, false),
    (88, true),
    (92, false),
    (95, false),
    (100, false),
    (101, false),
    (103, false),
    (105, false),
    (112, false),
    (113, false),
];

#[test]
fn only_what_cannot_be_mended_is_a_fault(rt: HostRuntime) {
    for (code, fails) in ERRORS {
        let mut listener = Listener::new(Refusing { code });
        let answer = listener.accept();
        assert!(rt; matches!(answer, Arrival::Failed) == fails, "at {code}");
        assert!(rt; matches!(answer, Arrival::Again) != fails, "at {code}");
        assert!(rt; is_final(&io::Error::from_raw_os_error(code)) == fails);
    }
}
