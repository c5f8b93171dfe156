//! Closing in stages: a client whose bytes were not all read gets its answer whole, and a clean end.
ghost use Rattle.std.specs.Prelude.{◌<◌, length, ⊤};

use crate::loopback::{MEMORY, PATIENCE, pair, read_waiting, write_all};
use mio::net::TcpStream;
use std::io::ErrorKind;
use std::net::Net;
use std::process::Abort;
use std::sync::atomic::{AtomicU64, Ordering};
use std::{io, time};
use ts_link::{Clock, Got, Link, Put};
use ts_net::{
    HalfClosed, LINGER, Lingering, MOST_LINGERING, MonotonicClock, Poller, SocketLink, Stream,
    StreamLink, Watched,
};

// How long the answer is. Of so much the system drops the greater part where a connection is closed over
// bytes that wait unread.
const ANSWER: usize = 1_000_000;

const REQUEST: &[u8] = b"GET / HTTP/1.1\r\nHost: a.example\r\n\r\n";

// What a client got, and how its reads ended.
#[derive(Clone, Copy, PartialEq, Eq)]
struct Heard {
    bytes: u64,
    end: Got,
}

// The whole answer, and a clean end.
const WHOLE: Heard = Heard {
    bytes: 1_000_000,
    end: Got::End,
};

// A client that has sent all of its bytes and read so many, and the connection, of which one read was made
// and the whole answer was written.
#[derive(Drop)]
struct Served {
    client: SocketLink,
    connection: SocketLink,
    read: u64,
}

// Serves a client that sends these bytes; one read is made of them, into this room.
fn serve<R: Net + time::Clock + AllocGlobal + Abort>(rt: &R, sent: &[u8], room: &mut [u8]) -> Served
    requires { 0 < length room.old }
{
    let answer = vec![in rt.alloc(); b'a'; ANSWER].expect(rt, MEMORY);
    let (mut client, mut connection) = pair(rt);
    write_all(rt, &mut client, sent, &mut connection);
    let _first = read_waiting(rt, &mut connection, room);
    let read = write_all(rt, &mut connection, answer.as_slice(), &mut client);
    Served {
        client,
        connection,
        read,
    }
}

// Reads what comes to a client that sends on, while those who linger are looked at.
fn hear<R: time::Clock>(
    rt: &R,
    client: &mut SocketLink,
    read: u64,
    sends: bool,
    lingering: &mut Lingering<TcpStream>,
) -> Heard {
    let clock = MonotonicClock::new(rt);
    let mut room = [0u8; 4096];
    let mut bytes = read;
    for _ in 0..PATIENCE {
        lingering.look(clock.now());
        if sends && client.write(b"and more") == Put::Failed {
            break;
        }
        match client.read(&mut room) {
            Got::Bytes(count) => bytes = bytes.saturating_add(count as u64),
            Got::Again => clock.pause(1),
            end => return Heard { bytes, end },
        }
    }
    Heard {
        bytes,
        end: Got::Again,
    }
}

// A request with a body of 100,000 bytes, of which 37 bytes are read; and the client sends on.
#[test]
fn an_answer_over_an_unread_body_comes_whole(rt: HostRuntime) {
    let clock = MonotonicClock::new(&rt);
    let body = vec![in rt.alloc(); b'b'; 100_000].expect(&rt, MEMORY);
    for sends in [false, true] {
        let mut lingering = Lingering::new(rt.alloc()).expect(&rt, MEMORY);
        let mut room = [0u8; 37];
        let Served {
            mut client,
            connection,
            read,
        } = serve(&rt, body.as_slice(), &mut room);
        lingering.keep(connection, clock.now());
        assert!(rt; hear(&rt, &mut client, read, sends, &mut lingering) == WHOLE);
        drop(client);
        clock.pause(5);
        for _ in 0..4 {
            lingering.look(clock.now());
        }
        assert!(rt; lingering.count() == 0);
    }
}

// Two requests in one piece, of which the first is read; the program ends as soon as it may.
#[test]
fn an_answer_before_a_second_request_comes_whole(rt: HostRuntime) {
    let clock = MonotonicClock::new(&rt);
    let mut lingering = Lingering::new(rt.alloc()).expect(&rt, MEMORY);
    let mut both = Vec::from_slice(rt.alloc(), REQUEST).expect(&rt, MEMORY);
    both.extend_from_slice(REQUEST).expect(&rt, MEMORY);
    let mut room = [0u8; 35];
    let Served {
        mut client,
        connection,
        read,
    } = serve(&rt, both.as_slice(), &mut room);
    let before = clock.now();
    lingering.keep(connection, before);
    lingering.finish(&clock);
    let count = lingering.count();
    let after = clock.now();
    let heard = hear(&rt, &mut client, read, false, &mut lingering);
    assert!(rt; room.as_slice() == REQUEST && after < before.saturating_add(1_000));
    assert!(rt; count == 0 && heard == WHOLE);
}

// A clock that jumps: each moment that it tells is a second after the last one.
#[derive(Drop)]
struct JumpingClock {
    moment: AtomicU64,
}

impl Clock for JumpingClock {
    fn now(&self) -> u64 {
        self.moment.fetch_add(1_000, Ordering::SeqCst)
    }

    fn pause(&self, _ms: u64) {}
}

// A request with a body of 100 bytes, of which 37 bytes are read; and the clock jumps over all the time in
// which whoever lingers is kept at the end.
#[test]
fn an_answer_comes_whole_where_the_clock_jumps(rt: HostRuntime) {
    let clock = JumpingClock {
        moment: AtomicU64::new(0),
    };
    let mut lingering = Lingering::new(rt.alloc()).expect(&rt, MEMORY);
    let body = vec![in rt.alloc(); b'b'; 100].expect(&rt, MEMORY);
    let mut room = [0u8; 37];
    let Served {
        mut client,
        connection,
        read,
    } = serve(&rt, body.as_slice(), &mut room);
    lingering.keep(connection, clock.now());
    lingering.finish(&clock);
    let count = lingering.count();
    let heard = hear(&rt, &mut client, read, false, &mut lingering);
    assert!(rt; count == 0 && heard == WHOLE);
}

// A peer that neither sends nor ends, and takes nothing.
#[derive(Drop)]
struct Silent;

impl Watched for Silent {
    ghost watches = { λ name answer before after. ⊤ };

    fn watch(&mut self, _poller: &Poller, _name: u64) -> bool {
        false
    }
}

impl Stream for Silent {
    ghost reads = { λ before after answer room. ⊤ };

    ghost writes = { λ before after piece answer. ⊤ };

    ghost hurries = { λ before after. ⊤ };

    ghost shuts = { λ before after. ⊤ };

    fn receive(&mut self, _into: &mut [u8]) -> io::Result<usize> {
        Err(io::Error::from(ErrorKind::WouldBlock))
    }

    fn send(&mut self, _piece: &[u8]) -> io::Result<usize> {
        Err(io::Error::from(ErrorKind::WouldBlock))
    }

    fn send_at_once(&mut self) {}

    fn end_sending(&mut self) {}
}

#[test]
fn nobody_lingers_longer_and_no_more_linger_than_may(rt: HostRuntime) {
    let mut lingering = Lingering::new(rt.alloc()).expect(&rt, MEMORY);
    for moment in 0..300u64 {
        lingering.keep(StreamLink::new(Silent, 0), moment);
    }
    let full = lingering.count();
    // The first that was kept has come at 44.
    lingering.look(LINGER + 43);
    let all = lingering.count();
    lingering.look(LINGER + 44);
    let others = lingering.count();
    lingering.look(LINGER + 299);
    let counts = [full, all, others, lingering.count()];
    assert!(rt; counts == [MOST_LINGERING, MOST_LINGERING, MOST_LINGERING - 1, 0]);
}

// What a peer still sends to a connection that lingers no longer is refused, whatever closed it.
#[test]
fn who_lingers_no_longer_is_closed(rt: HostRuntime) {
    let clock = MonotonicClock::new(&rt);
    let mut lingering = Lingering::new(rt.alloc()).expect(&rt, MEMORY);
    let (mut late, served) = pair(&rt);
    lingering.keep(served, 7);
    lingering.look(LINGER + 7);
    let (mut last, served) = pair(&rt);
    lingering.keep(served, clock.now());
    lingering.finish(&clock);
    let count = lingering.count();
    let sent = [late.write(b"late"), last.write(b"late")];
    clock.pause(5);
    let refused = [late.write(b"later"), last.write(b"later")];
    assert!(rt; count == 0 && sent == [Put::Took(4); 2] && refused == [Put::Failed; 2]);
}

#[test]
fn a_connection_that_is_half_closed_is_read_on(rt: HostRuntime) {
    let clock = MonotonicClock::new(&rt);
    let (mut client, served) = pair(&rt);
    let mut half = HalfClosed::of(served.into_stream(), 7);
    let over = (half.is_over(LINGER + 6), half.is_over(LINGER + 7));
    let mut room = [0u8; 64];
    let end = read_waiting(&rt, &mut client, &mut [0]);
    let before = half.pass_over(&mut room);
    let sent = client.write(b"late");
    let after = half.pass_over(&mut room);
    drop(client);
    assert!(rt; over == (false, true) && (end, sent) == (Got::End, Put::Took(4)));
    assert!(rt; before && after);
    clock.pause(5);
    let mut more = true;
    for _ in 0..4 {
        more = more && half.pass_over(&mut room);
    }
    assert!(rt; !more);
}
