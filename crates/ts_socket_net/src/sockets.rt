//! What gives a net its sockets: who listens at an address, who dials one, and a descriptor that is held.
ghost use Rattle.std.specs.Prelude.{◌≡◌, ⊤, IfOk, Result};
ghost use Rattle.std.specs.declared.io.Error.{Error};
ghost use Rattle.std.specs.declared.net.socket_addr.SocketAddr.{SocketAddr};

use mio::Poll;
use std::alloc::Global;
use std::io;
use std::net::{Net, SocketAddr};
use ts_link::NoMemory;
use ts_net::{Acceptor, Connector, Poller, SystemAcceptor, SystemConnector};

/// What gives a net its sockets: those of the system, or others in their place.
pub trait Sockets {
    type Acceptor: Acceptor + Drop;

    type Connector: Connector + Drop;

    /// A descriptor that is held until a socket is to have it.
    type Spare: Drop;

    // This came of listening at the address.
    ghost listens: { SocketAddr → Result Self.Acceptor Error → Type 0 };

    // This connects to the address.
    ghost connects: { SocketAddr → Self.Connector → Type 0 };

    // This came of opening one descriptor more.
    ghost spares: { Result Self.Spare Error → Type 0 };

    /// Listens at this address.
    fn listen(&self, address: SocketAddr) -> io::Result<Self::Acceptor>
        ensures { listens address result };

    /// Who connects to this address.
    fn connector(&self, address: SocketAddr) -> Self::Connector
        ensures { connects address result };

    /// Opens one descriptor more.
    fn spare(&self) -> io::Result<Self::Spare>
        ensures { spares result };

    /// What tells which of the sockets are ready.
    fn poller(&self, alloc: Global) -> Result<Poller, NoMemory>;
}

/// The sockets of the system.
#[derive(Drop)]
pub struct SystemSockets<'a, R> {
    rt: &'a R,
}

impl<'a, R> SystemSockets<'a, R> {
    /// The sockets of this system.
    pub fn new(rt: &'a R) -> SystemSockets<'a, R> {
        SystemSockets { rt }
    }
}

// The spare descriptor is that of an empty set of sockets to wait for, which takes no port and no file.
impl<'a, R: Net> Sockets for SystemSockets<'a, R> {
    type Acceptor = SystemAcceptor;

    type Connector = SystemConnector<'a, R>;

    type Spare = Poll;

    ghost listens = { λ address answer. IfOk answer (λ acceptor. acceptor.address ≡ address) };

    ghost connects = { λ address connector. connector.address ≡ address };

    ghost spares = { λ answer. ⊤ };

    fn listen(&self, address: SocketAddr) -> io::Result<SystemAcceptor> {
        SystemAcceptor::bind(self.rt, address)
    }

    fn connector(&self, address: SocketAddr) -> SystemConnector<'a, R> {
        SystemConnector::new(self.rt, address)
    }

    fn spare(&self) -> io::Result<Poll> {
        Poll::new(self.rt)
    }

    fn poller(&self, alloc: Global) -> Result<Poller, NoMemory> {
        Poller::new(self.rt, alloc)
    }
}
