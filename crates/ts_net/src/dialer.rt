//! Who dials: a connection to the origin is begun, and nobody waits for it.
ghost use Rattle.std.specs.Prelude.{◌≡◌, Result};
ghost use Rattle.std.specs.declared.io.Error.{Error};
ghost use Rattle.ts_net.specs.Dials.{HearsDial};

use crate::stream::Stream;
use crate::stream_link::StreamLink;
use mio::net::TcpStream;
use std::io;
use std::net::{Net, SocketAddr};

/// What begins connections to one origin.
pub trait Connector {
    type Stream: Stream + Drop;

    // The second is what a connect left of the first, with this answer.
    ghost connects: { Self → Self → Result Self.Stream Error → Type 0 };

    /// Begins a connection and returns at once. That it fails may be known at once, or at a later call on it.
    fn connect(&mut self) -> io::Result<Self::Stream>
        ensures { connects self.old self.new result };
}

/// Connects to one address of the system.
#[derive(Drop)]
pub struct SystemConnector<'a, R> {
    rt: &'a R,
    address: SocketAddr,
}

impl<'a, R: Net> SystemConnector<'a, R> {
    /// Connects to this address.
    pub fn new(rt: &'a R, address: SocketAddr) -> SystemConnector<'a, R>
        ensures { result.address ≡ address }
    {
        SystemConnector { rt, address }
    }
}

// One that the peer refused already is none.
impl<'a, R: Net> Connector for SystemConnector<'a, R> {
    type Stream = TcpStream;

    ghost connects = { λ before after answer. after ≡ before };

    fn connect(&mut self) -> io::Result<TcpStream> {
        let stream = TcpStream::connect(self.rt, self.address)?;
        if let Some(error) = stream.take_error()? {
            return Err(error);
        }
        Ok(stream)
    }
}

/// What comes of a dial. Until the connection stands, reads and writes of its link answer `Again`. Where it is
/// refused late, the next call on it answers `Failed`, and later reads `End`.
#[derive(Drop)]
pub enum Dialing<S> {
    Origin(StreamLink<S>),
    Failed,
}

/// The name of each link to an origin.
pub const ORIGIN_NAME: u64 = 0;

/// A link to the origin, whose connection is begun. `Failed` comes where the system refuses it at once.
pub fn dial<K: Connector>(connector: &mut K) -> Dialing<K::Stream>
    ensures { HearsDial K.connects connector.old connector.new result }
{
    match connector.connect() {
        Ok(stream) => Dialing::Origin(StreamLink::new(stream, ORIGIN_NAME)),
        Err(_) => Dialing::Failed,
    }
}
