//! What a net that has begun asks its sockets: clients, connections to the origin, and a descriptor that is
//! held for the next of these.
ghost use Rattle.std.specs.Prelude.{◌≡◌, true, false};
ghost use Rattle.ts_net.specs.Arrivals.{IsNamed};
ghost use Rattle.ts_socket_net.specs.Asking.{AcceptsOne, DialsOnce, HoldsSpare, KeepsClient, LacksSpare};
ghost use Rattle.ts_socket_net.specs.Asking.{given_with};

use crate::opening::Opened;
use crate::sockets::Sockets;
use ts_net::{Acceptor, Arrival, Connector, Dialing, StreamLink, dial};

// Holds a descriptor, if one can be had, and answers whether it does.
fn hold_spare<S: Sockets>(sockets: &S, spare: &mut Option<S::Spare>) -> bool
    ensures holds { result ≡ true → HoldsSpare S.spares spare.old spare.new }
    ensures lacks { result ≡ false → LacksSpare S.spares spare.old spare.new }
{
    if spare.is_some() {
        return true;
    }
    match sockets.spare() {
        Ok(opened) => {
            *spare = Some(opened);
            true
        }
        Err(_) => false,
    }
}

/// Looks at who lingers, and then asks for the next client, where a descriptor is held for the dial of its
/// origin. Where none can be had, nobody is asked for.
#[tactic(auto, using(crate::proofs::Given::given_after))]
pub fn accept_client<S: Sockets>(
    sockets: &S,
    opened: &mut Opened<S>,
    moment: u64,
) -> Arrival<<S::Acceptor as Acceptor>::Stream>
    ensures accepts { AcceptsOne S.Acceptor.accepts S.Acceptor.Stream.reads S.spares moment
        opened.old opened.new result }
    ensures named { IsNamed result opened.new.listener.given }
    ensures given { opened.new.listener.given ≡ given_with result opened.old.listener.given }
{
    opened.lingering.look(moment);
    if !hold_spare(sockets, &mut opened.spare) {
        return Arrival::Again;
    }
    opened.listener.accept()
}

/// Dials the origin. Its connection gets the descriptor that was held.
pub fn dial_origin<S: Sockets>(
    opened: &mut Opened<S>,
) -> Dialing<<S::Connector as Connector>::Stream>
    ensures { DialsOnce S.Connector.connects opened.old opened.new result }
{
    opened.spare = None;
    dial(&mut opened.connector)
}

/// Lets a client linger from this moment on.
pub fn keep_client<S: Sockets>(
    opened: &mut Opened<S>,
    moment: u64,
    client: StreamLink<<S::Acceptor as Acceptor>::Stream>,
)
    ensures { KeepsClient S.Acceptor.Stream.shuts client moment opened.old opened.new }
{
    opened.lingering.keep(client, moment);
}
