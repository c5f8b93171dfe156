//! Connections of this machine with itself, for the tests: where one does not come to stand, the test ends.
ghost use Rattle.std.specs.Prelude.{◌<◌, length};

use std::net::{Ipv4Addr, Net, SocketAddr};
use std::process::Abort;
use std::time;
use ts_link::{Clock, Got, Link, Put};
use ts_net::{Arrival, Dialing, MonotonicClock, SocketLink, SystemConnector, SystemListener};

/// How many milliseconds a test waits for what is to come.
pub const PATIENCE: u64 = 5_000;

/// What a test says where the system refuses a socket.
pub const REFUSED: &str = "the system gives a socket";

/// What a test that wants memory says.
pub const MEMORY: &str = "ample memory";

/// Who listens at a free port.
pub fn listen<R: Net + Abort>(rt: &R) -> SystemListener {
    SystemListener::bind(rt, SocketAddr::from((Ipv4Addr::LOCALHOST, 0))).expect(rt, REFUSED)
}

/// A connection to who listens.
pub fn dial<R: Net + Abort>(rt: &R, listener: &SystemListener) -> SocketLink {
    let address = listener.address().expect(rt, REFUSED);
    let mut connector = SystemConnector::new(rt, address);
    match ts_net::dial(&mut connector) {
        Dialing::Origin(link) => link,
        Dialing::Failed => panic!(rt; "a dial failed"),
    }
}

/// The next client, which is waited for.
pub fn accept<R: time::Clock + Abort>(rt: &R, listener: &mut SystemListener) -> SocketLink {
    let clock = MonotonicClock::new(rt);
    for _ in 0..PATIENCE {
        match listener.accept() {
            Arrival::Client(link) => return link,
            Arrival::Again => clock.pause(1),
            Arrival::Closed | Arrival::Failed => break,
        }
    }
    panic!(rt; "no client came")
}

/// Both ends of a new connection: the client's, and the one that was accepted.
pub fn pair<R: Net + time::Clock + Abort>(rt: &R) -> (SocketLink, SocketLink) {
    let mut listener = listen(rt);
    let client = dial(rt, &listener);
    let served = accept(rt, &mut listener);
    (client, served)
}

/// Writes all the bytes. Where the link waits, what the other end can read is read, and added up.
pub fn write_all(
    rt: &impl Abort,
    link: &mut SocketLink,
    bytes: &[u8],
    other: &mut SocketLink,
) -> u64 {
    let mut rest = bytes;
    let mut read = 0u64;
    for _ in 0..u64::MAX {
        if rest.is_empty() {
            return read;
        }
        match link.write(rest) {
            Put::Took(count) => rest = &rest[count..],
            Put::Again => read = read.saturating_add(read_some(other)),
            Put::Failed | Put::NoMemory => break,
        }
    }
    panic!(rt; "a write failed")
}

// How many bytes one read gives.
fn read_some(link: &mut SocketLink) -> u64 {
    let mut room = [0u8; 4096];
    match link.read(&mut room) {
        Got::Bytes(count) => count as u64,
        Got::End | Got::Again | Got::Failed => 0,
    }
}

/// Reads until there are bytes, and gives the answer.
pub fn read_waiting<R: time::Clock>(rt: &R, link: &mut SocketLink, room: &mut [u8]) -> Got
    requires { 0 < length room.old }
{
    let clock = MonotonicClock::new(rt);
    for _ in 0..PATIENCE {
        match link.read(room) {
            Got::Again => clock.pause(1),
            other => return other,
        }
    }
    Got::Again
}
