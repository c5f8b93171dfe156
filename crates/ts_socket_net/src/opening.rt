//! What a net over sockets works with once it has begun.
ghost use Rattle.std.specs.Prelude.{◌≡◌};
ghost use Rattle.ts_socket_net.specs.Opening.{IsOpening, fault_of_address, fault_of_error};
ghost use Rattle.ts_socket_net.specs.declared.opening.OpenFault.TheVariants.{NoMemory as LacksMemory};

use crate::sockets::Sockets;
use std::alloc::Global;
use std::io;
use std::io::ErrorKind;
use ts_link::NoMemory;
use ts_net::{Acceptor, AddressFault, Backlog, Lingering, Listener, Poller, address_of};

/// Who listens, who dials, the number of the client that is dialed for next (who came last, or was noted
/// since), the clients that linger, the descriptor that is held for the next dial, what tells which sockets
/// are ready, and what is known of the clients that wait.
#[derive(Drop)]
pub struct Opened<S: Sockets> {
    pub listener: Listener<S::Acceptor>,
    pub connector: S::Connector,
    pub dials_for: u64,
    pub lingering: Lingering<<S::Acceptor as Acceptor>::Stream>,
    pub spare: Option<S::Spare>,
    pub poller: Poller,
    pub backlog: Backlog,
}

/// Why a net does not begin: a text writes no address, the system refuses to listen, or memory is lacking.
#[derive(Clone, Copy, Debug)]
pub enum OpenFault {
    NoAddress,
    Refused(io::Error),
    NoMemory,
}

impl From<NoMemory> for OpenFault {
    ghost from_gives = { λ _ fault. fault ≡ LacksMemory };

    fn from(_refusal: NoMemory) -> OpenFault {
        OpenFault::NoMemory
    }
}

impl From<AddressFault> for OpenFault {
    ghost from_gives = { λ refusal fault. fault ≡ fault_of_address refusal };

    fn from(refusal: AddressFault) -> OpenFault {
        match refusal {
            AddressFault::NoAddress => OpenFault::NoAddress,
            AddressFault::NoMemory => OpenFault::NoMemory,
        }
    }
}

impl From<io::Error> for OpenFault {
    ghost from_gives = { λ error fault. fault ≡ fault_of_error error };

    fn from(error: io::Error) -> OpenFault {
        match error.kind() {
            ErrorKind::OutOfMemory => OpenFault::NoMemory,
            _ => OpenFault::Refused(error),
        }
    }
}

/// Listens at the address that the first text writes, for clients whose origin has the address that the
/// second one writes.
pub fn open<S: Sockets>(
    sockets: &S,
    alloc: Global,
    listen: &str,
    origin: &str,
) -> Result<Opened<S>, OpenFault>
    ensures { IsOpening S.listens S.connects S.Acceptor.watches listen.now origin.now result }
{
    let place = address_of(alloc, listen)?;
    let target = address_of(alloc, origin)?;
    let lingering = Lingering::new(alloc)?;
    let poller = sockets.poller(alloc)?;
    let acceptor = sockets.listen(place)?;
    let mut listener = Listener::new(acceptor);
    let backlog = Backlog::new(listener.watch(&poller));
    Ok(Opened {
        listener,
        connector: sockets.connector(target),
        dials_for: 0,
        lingering,
        spare: None,
        poller,
        backlog,
    })
}
