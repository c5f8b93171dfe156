//! Nets over loopback, and clients and origins of theirs, for the tests: where one does not come to stand,
//! the test ends.
ghost use Rattle.std.specs.Prelude.{◌<◌, length};

use mio::net::TcpListener;
use std::net::{Ipv4Addr, Net, SocketAddr};
use std::process::Abort;
use std::time;
use ts_journal::Journal;
use ts_link::{Clock, Got, Link};
use ts_net::{Dialing, MonotonicClock, SocketLink, SystemConnector, dial};
use ts_socket_net::SocketNet;
use ts_txn::{Accepted, Began, Noted, Retired, TxnParts};
use ts_wire::Mode;

/// How many milliseconds a test waits for what is to come.
pub const PATIENCE: u64 = 5_000;

/// What a test says where the system refuses a socket.
pub const REFUSED: &str = "the system gives a socket";

/// What a test that wants memory says.
pub const MEMORY: &str = "ample memory";

/// The address of a port of this machine.
pub fn local(port: u16) -> SocketAddr {
    SocketAddr::from((Ipv4Addr::LOCALHOST, port))
}

/// Who listens at a free port, and the port.
pub fn listen<R: Net + Abort>(rt: &R) -> (TcpListener, u16) {
    let listener = TcpListener::bind(rt, local(0)).expect(rt, REFUSED);
    let port = listener.local_addr().expect(rt, REFUSED).port();
    (listener, port)
}

/// A port at which nobody listens.
pub fn free_port<R: Net + Abort>(rt: &R) -> u16 {
    let (listener, port) = listen(rt);
    drop(listener);
    port
}

/// A connection to a port of this machine, if somebody listens there.
pub fn try_connect<R: Net>(rt: &R, port: u16) -> Option<SocketLink> {
    match dial(&mut SystemConnector::new(rt, local(port))) {
        Dialing::Origin(link) => Some(link),
        Dialing::Failed => None,
    }
}

/// A connection to a port of this machine, at which somebody listens.
pub fn connect<R: Net + Abort>(rt: &R, port: u16) -> SocketLink {
    match try_connect(rt, port) {
        Some(link) => link,
        None => panic!(rt; "nobody listens"),
    }
}

/// The text of the address of a port of this machine.
pub fn text_of<R: AllocGlobal + Abort>(rt: &R, port: u16) -> String {
    format!(in rt.alloc(); "localhost:{port}").expect(rt, MEMORY)
}

/// Lets a net begin before an origin, and gives the port at which it listens.
pub fn begin<R: Net + AllocGlobal + Abort, C: Clock>(
    rt: &R,
    net: &mut SocketNet<'_, R, C>,
    origin: u16,
) -> u16 {
    let port = free_port(rt);
    let listen = text_of(rt, port);
    let origin = text_of(rt, origin);
    let began = ts_txn::Net::begin(net, listen.as_str(), origin.as_str());
    assert!(rt; began == Began::Ready);
    port
}

/// The next client of a net, which is waited for.
pub fn accept<R: Net + time::Clock + Abort, C: Clock>(
    rt: &R,
    net: &mut SocketNet<'_, R, C>,
) -> SocketLink {
    let clock = MonotonicClock::new(rt);
    for _ in 0..PATIENCE {
        match ts_txn::Net::accept(net) {
            Accepted::Client(link) => return link,
            Accepted::Again => clock.pause(1),
            Accepted::Closed | Accepted::Failed => break,
        }
    }
    panic!(rt; "no client came")
}

/// What is left of a transaction of this client and its origin, if it had one.
pub fn retired<R: AllocGlobal + Abort>(
    rt: &R,
    client: SocketLink,
    origin: Option<SocketLink>,
) -> Retired<SocketLink, SocketLink> {
    let journal = Journal::make(rt.alloc(), 0).expect(rt, MEMORY);
    let parts = TxnParts {
        number: client.name(),
        client,
        origin,
        head: 0,
        mode: Mode::Plain,
        client_faults: 0,
        origin_faults: 0,
        cuts: Vec::new(rt.alloc()),
        end: None,
    };
    Retired { parts, journal }
}

/// What is left of the first transaction of the client of this number, which goes on.
pub fn noted<R: AllocGlobal + Abort>(rt: &R, number: u64, origin: SocketLink) -> Noted<SocketLink> {
    Noted {
        number,
        place: 1,
        origin: Some(origin),
        cuts: Vec::new(rt.alloc()),
        end: None,
        journal: Journal::make(rt.alloc(), 0).expect(rt, MEMORY),
    }
}

/// Reads until there are bytes, and gives the answer.
pub fn read_waiting<R: time::Clock>(rt: &R, link: &mut SocketLink, room: &mut [u8]) -> Got
    requires { 0 < length room.old }
{
    let clock = MonotonicClock::new(rt);
    for _ in 0..PATIENCE {
        match link.read(room) {
            Got::Again => clock.pause(1),
            other => return other,
        }
    }
    Got::Again
}
