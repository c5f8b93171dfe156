//! Addresses by number.
use std::alloc::Global;
use std::net::{Ipv4Addr, Ipv6Addr, SocketAddr};
use ts_net::{AddressFault, address_of};

// Whether the text writes this address.
fn writes(alloc: Global, text: &str, address: SocketAddr) -> bool {
    match address_of(alloc, text) {
        Ok(read) => read == address,
        Err(_) => false,
    }
}

#[test]
fn addresses_are_given_by_number(rt: HostRuntime) {
    let local = SocketAddr::from((Ipv4Addr::LOCALHOST, 8080));
    let rows = [
        ("127.0.0.1:8080", local),
        ("localhost:8080", local),
        ("[::1]:80", SocketAddr::from((Ipv6Addr::LOCALHOST, 80))),
        ("0.0.0.0:0", SocketAddr::from((Ipv4Addr::UNSPECIFIED, 0))),
    ];
    for (text, address) in rows {
        assert!(rt; writes(rt.alloc(), text, address), "at {text}");
    }
    let refused = [
        "",
        "8080",
        "localhost",
        "localhost:",
        "localhost:+80",
        "localhost5:80",
        "Localhost:80",
        "127.0.0.1",
        "127.0.0.1:65536",
        "127.0.0.256:80",
        "example.org:80",
    ];
    for text in refused {
        let answer = address_of(rt.alloc(), text);
        assert!(rt; matches!(answer, Err(AddressFault::NoAddress)), "at {text}");
    }
}
