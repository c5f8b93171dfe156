//! Links over sockets: what comes through, what is answered and counted.
use crate::loopback::{pair, read_waiting};
use std::io;
use ts_link::{Got, Link, Put};
use ts_net::{got_of, put_of};
use ts_upstream::{Uploaded, Upstream};

// A link may go to another thread.
fn goes_to_a_thread<L: Link + Send>(_link: &L) {}

#[test]
fn bytes_come_through_and_each_answer_is_counted(rt: HostRuntime) {
    let (mut client, mut served) = pair(&rt);
    goes_to_a_thread(&served);
    let mut room = [0u8; 8];
    let names = (served.name(), client.name());
    let early = (served.read(&mut room), served.waits(), served.faults());
    let ping = client.write(b"ping");
    let came = read_waiting(&rt, &mut served, &mut room);
    let text = &room[..4] == b"ping".as_slice();
    let uploaded = served.upload(&mut client);
    assert!(rt; names == (1, 0) && early == (Got::Again, 1, 0));
    assert!(rt; (ping, came, text) == (Put::Took(4), Got::Bytes(4), true));
    // A peer that closes over bytes that it has not read breaks the connection.
    let pong = served.write(b"pong");
    drop(client);
    let broken = read_waiting(&rt, &mut served, &mut room);
    let late = served.write(b"pong");
    assert!(rt; (uploaded, pong) == (Uploaded::Done, Put::Took(4)));
    assert!(rt; (broken, late, served.faults()) == (Got::Failed, Put::Failed, 2));
}

#[test]
fn a_peer_that_has_read_all_closes_cleanly(rt: HostRuntime) {
    let (client, mut served) = pair(&rt);
    drop(client);
    let mut room = [0u8; 8];
    let end = read_waiting(&rt, &mut served, &mut room);
    assert!(rt; end == Got::End);
}

// The error of a number of Linux.
fn error(code: i32) -> io::Result<usize> {
    Err(io::Error::from_raw_os_error(code))
}

// The numbers are those of errno(3): EINTR, EAGAIN, ENOMEM, EPIPE, ECONNRESET, ETIMEDOUT, ECONNREFUSED.
#[test]
fn the_systems_answers_are_these_of_a_link(rt: HostRuntime) {
    assert!(rt; got_of(Ok(0)) == Got::End && put_of(Ok(0)) == Put::Failed);
    assert!(rt; got_of(Ok(7)) == Got::Bytes(7) && put_of(Ok(7)) == Put::Took(7));
    let rows: [(i32, Got, Put); 7] = [
        (4, Got::Again, Put::Again),
        (11, Got::Again, Put::Again),
        (12, Got::Failed, Put::NoMemory),
        (32, Got::Failed, Put::Failed),
        (104, Got::Failed, Put::Failed),
        (110, Got::Failed, Put::Failed),
        (111, Got::Failed, Put::Failed),
    ];
    for (code, got, put) in rows {
        assert!(rt;
            got_of(error(code)) == got && put_of(error(code)) == put,
            "at {code}"
        );
    }
}
