//! Who listens: clients are accepted one after the other, each with the number of clients so far as its name.
ghost use Rattle.std.specs.Prelude.{◌≡◌, Result, IfOk};
ghost use Rattle.std.specs.declared.io.Error.{Error};
ghost use Rattle.ts_net.specs.Arrivals.{IsArrival, IsNamed, IsWatchedListener, ListensAt};
ghost use Rattle.ts_net.specs.Arrivals.{after_arrival, fresh_listener};

use crate::heard::is_final;
use crate::poller::{LISTENER, Poller, Watched};
use crate::stream::Stream;
use crate::stream_link::StreamLink;
use mio::net::{TcpListener, TcpStream};
use std::io;
use std::net::{Net, SocketAddr};

/// What clients of the system connect to.
pub trait Acceptor: Watched {
    type Stream: Stream + Drop;

    // The second is what an accept left of the first, with this answer.
    ghost accepts: { Self → Self → Result Self.Stream Error → Type 0 };

    /// The next connection. Where none is there, the answer is `WouldBlock`.
    fn next_stream(&mut self) -> io::Result<Self::Stream>
        ensures { accepts self.old self.new result };
}

/// What clients of the system connect to at one address.
#[derive(Drop)]
pub struct SystemAcceptor {
    listener: TcpListener,
    address: SocketAddr,
}

impl SystemAcceptor {
    /// Listens at this address, with the longest backlog that the system allows. The port 0 stands for any
    /// free one.
    pub fn bind<R: Net>(rt: &R, address: SocketAddr) -> io::Result<SystemAcceptor>
        ensures { IfOk result (λ acceptor. acceptor.address ≡ address) }
    {
        Ok(SystemAcceptor {
            listener: TcpListener::bind(rt, address)?,
            address,
        })
    }
}

// To be watched leaves it the one that it was.
impl Watched for SystemAcceptor {
    ghost watches = { λ name answer before after. after ≡ before };

    fn watch(&mut self, poller: &Poller, name: u64) -> bool {
        poller.watch(&mut self.listener, name)
    }
}

impl Acceptor for SystemAcceptor {
    type Stream = TcpStream;

    ghost accepts = { λ before after answer. after ≡ before };

    fn next_stream(&mut self) -> io::Result<TcpStream> {
        Ok(self.listener.accept()?.0)
    }
}

/// What comes of an accept. After `Again` a later one may give a client, after `Closed` and `Failed` none:
/// `Failed` where the system says that none can come, `Closed` where clients cannot be counted any more.
#[derive(Drop)]
pub enum Arrival<S> {
    Client(StreamLink<S>),
    Again,
    Closed,
    Failed,
}

/// Accepts clients, and counts them.
#[derive(Drop)]
pub struct Listener<A> {
    acceptor: A,
    given: u64,
}

impl<A> Listener<A> {
    /// A listener that has accepted nobody.
    pub fn new(acceptor: A) -> Listener<A>
        ensures { result ≡ fresh_listener acceptor }
    {
        Listener { acceptor, given: 0 }
    }

    /// How many clients it gave.
    pub fn given(&self) -> u64
        ensures { result ≡ self.now.given }
    {
        self.given
    }
}

/// Accepts clients of the system.
pub type SystemListener = Listener<SystemAcceptor>;

impl Listener<SystemAcceptor> {
    /// Listens at this address, as `SystemAcceptor` does. It fails only where the system refuses to.
    pub fn bind<R: Net>(rt: &R, address: SocketAddr) -> io::Result<SystemListener>
        ensures { IfOk result (ListensAt address) }
    {
        Ok(Listener::new(SystemAcceptor::bind(rt, address)?))
    }

    /// The address that it listens at, with the port that the system chose if any was asked for.
    pub fn address(&self) -> io::Result<SocketAddr> {
        self.acceptor.listener.local_addr()
    }
}

impl<A: Acceptor> Listener<A> {
    /// Has the poller tell where a client may be there. Answers whether it does.
    pub fn watch(&mut self, poller: &Poller) -> bool
        ensures { IsWatchedListener A.watches result self.old self.new }
    {
        self.acceptor.watch(poller, LISTENER)
    }

    /// The next client, if one is there. Its name is the number of clients given, itself among them.
    pub fn accept(&mut self) -> Arrival<A::Stream>
        ensures heard { IsArrival A.accepts self.old self.new.acceptor result }
        ensures after { self.new ≡ after_arrival result self.new.acceptor self.old }
        ensures named { IsNamed result self.new.given }
    {
        let Some(number) = self.given.checked_add(1) else {
            return Arrival::Closed;
        };
        match self.acceptor.next_stream() {
            Ok(stream) => {
                self.given = number;
                Arrival::Client(StreamLink::new(stream, number))
            }
            Err(error) => {
                if is_final(&error) {
                    Arrival::Failed
                } else {
                    Arrival::Again
                }
            }
        }
    }
}
