//! When a net asks for clients: where one may be there. Whoever came and its origin are watched, and a wait
//! names those that are ready.
ghost use Rattle.std.specs.Prelude.{◌≡◌, ℕ};
ghost use Rattle.ts_net.specs.Arrivals.{IsNamed};
ghost use Rattle.ts_net.specs.Polls.{AddsSome};
ghost use Rattle.ts_socket_net.specs.Asking.{given_with};
ghost use Rattle.ts_socket_net.specs.Watching.{AsksWhereDue, DialsWatched, IsWatchedArrival, IsWatchedDial};
ghost use Rattle.ts_socket_net.specs.Watching.{WaitsOnce, backlog_after, dials_for_after};

use crate::asking;
use crate::opening::Opened;
use crate::sockets::Sockets;
use ts_link::Clock;
use ts_net::{Acceptor, Arrival, Backlog, Connector, Dialing, LISTENER, Poller, Stream};

// Watches the client that came, if one did, under its number.
fn watch_client<T: Stream>(poller: &Poller, arrival: Arrival<T>) -> Arrival<T>
    ensures watched { IsWatchedArrival T.watches arrival result }
    ensures named { (given : ℕ) → IsNamed arrival given → IsNamed result given }
    ensures given { (given : ℕ) → given_with result given ≡ given_with arrival given }
{
    match arrival {
        Arrival::Client(link) => {
            let mut link = link;
            let number = link.name();
            let _ = link.watch(poller, number);
            Arrival::Client(link)
        }
        Arrival::Again => Arrival::Again,
        Arrival::Closed => Arrival::Closed,
        Arrival::Failed => Arrival::Failed,
    }
}

// Watches the origin that was reached, if one was, under the number of its client.
fn watch_origin<U: Stream>(poller: &Poller, client: u64, dialing: Dialing<U>) -> Dialing<U>
    ensures { IsWatchedDial U.watches client dialing result }
{
    match dialing {
        Dialing::Origin(link) => {
            let mut link = link;
            let _ = link.watch(poller, client);
            Dialing::Origin(link)
        }
        Dialing::Failed => Dialing::Failed,
    }
}

// What is known of the clients that wait, once this came of asking for one at a moment.
fn backlog_after<T>(backlog: Backlog, arrival: &Arrival<T>, moment: u64) -> Backlog
    ensures { result ≡ backlog_after moment arrival.now backlog }
{
    match arrival {
        Arrival::Again => backlog.once_empty(moment),
        Arrival::Client(_) | Arrival::Closed | Arrival::Failed => backlog,
    }
}

// The number of the client that is dialed for next, once this came of asking for one.
fn dials_for_after<T>(before: u64, arrival: &Arrival<T>) -> u64
    ensures { result ≡ dials_for_after arrival.now before }
{
    match arrival {
        Arrival::Client(link) => link.name(),
        Arrival::Again | Arrival::Closed | Arrival::Failed => before,
    }
}

/// Asks for the next client where one may be there, and watches it. It is dialed for next. Those who linger
/// are looked at then.
pub fn accept_client<S: Sockets>(
    sockets: &S,
    opened: &mut Opened<S>,
    moment: u64,
) -> Arrival<<S::Acceptor as Acceptor>::Stream>
    ensures accepts { AsksWhereDue S.Acceptor.accepts S.Acceptor.Stream.reads S.Acceptor.Stream.watches
        S.spares moment opened.old opened.new result }
    ensures named { IsNamed result opened.new.listener.given }
    ensures given { opened.new.listener.given ≡ given_with result opened.old.listener.given }
{
    if !opened.backlog.asks(moment) {
        return Arrival::Again;
    }
    let backlog = opened.backlog;
    let dials_for = opened.dials_for;
    let arrival = asking::accept_client(sockets, opened, moment);
    opened.backlog = backlog_after(backlog, &arrival, moment);
    opened.dials_for = dials_for_after(dials_for, &arrival);
    watch_client(&opened.poller, arrival)
}

/// Dials the origin, and watches it under the number of the client that is dialed for.
pub fn dial_origin<S: Sockets>(
    opened: &mut Opened<S>,
) -> Dialing<<S::Connector as Connector>::Stream>
    ensures { DialsWatched S.Connector.connects S.Connector.Stream.watches opened.old opened.new result }
{
    let dialing = asking::dial_origin(opened);
    watch_origin(&opened.poller, opened.dials_for, dialing)
}

/// Waits at most so many milliseconds until a client or an origin is ready, and adds the names of clients of
/// which one is. Where the system does not wait, this much of the clock's time is let pass.
pub fn wait<S: Sockets, C: Clock>(
    opened: &mut Opened<S>,
    clock: &C,
    most: u64,
    ready: &mut Vec<u64>,
)
    ensures waits { WaitsOnce opened.old opened.new }
    ensures adds { AddsSome ready.old.items ready.new.items }
{
    let waited = opened.poller.wait(most);
    let is_told = opened.poller.has_told(LISTENER);
    opened.backlog = opened.backlog.once_waited(is_told);
    if !waited {
        clock.pause(most);
        return;
    }
    let next = opened.listener.given().saturating_add(1);
    let _ = opened.poller.add_names(next, ready);
}
