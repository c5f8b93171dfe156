//! Who dials: a connection that comes to stand, and one that nobody takes.
use crate::loopback::{REFUSED, accept, listen, read_waiting};
use ts_link::{Got, Link, Put};
use ts_net::{Dialing, ORIGIN_NAME, SystemConnector, dial};

#[test]
fn a_dial_gives_an_origin(rt: HostRuntime) {
    let mut listener = listen(&rt);
    let address = listener.address().expect(&rt, REFUSED);
    let mut connector = SystemConnector::new(&rt, address);
    let Dialing::Origin(mut origin) = dial(&mut connector) else {
        panic!(rt; "no origin");
    };
    let mut room = [0u8; 4];
    let first = (origin.read(&mut room), origin.name());
    let mut served = accept(&rt, &mut listener);
    let written = served.write(b"hi");
    let came = read_waiting(&rt, &mut origin, &mut room);
    drop(listener);
    let late = dial(&mut connector);
    assert!(rt; first == (Got::Again, ORIGIN_NAME) && matches!(late, Dialing::Failed));
    assert!(rt; written == Put::Took(2) && came == Got::Bytes(2));
}
