//! A net over sockets.
ghost use Rattle.std.specs.Prelude.{◌≡◌, false, None, OnOk, OnErr};
ghost use Rattle.ts_link.specs.Counts.{greatest};
ghost use Rattle.ts_socket_net.specs.SocketNet.{AcceptsNow, Accepts, BeginsOnce, Dials, DialsNow, Gives};
ghost use Rattle.ts_socket_net.specs.SocketNet.{LingersNow, TakesNone, TakesOne, Waits, no_counts, seen_of};
ghost use Rattle.ts_socket_net.specs.SocketNet.{once_noted, stream_link, stream_origin};
ghost use Rattle.ts_txn.specs.Net.{AddsNames, CountsRise, GivesClient, GivesNobody, GivesOrigin, IsFreshNet};
ghost use Rattle.ts_txn.specs.Net.{IsHanded, IsHandedNothing, IsNoted};
ghost use Rattle.ts_txn.specs.Net.{raised_by_accept, raised_by_begin, raised_by_dial};

use crate::opening::{OpenFault, Opened, open};
use crate::sockets::{Sockets, SystemSockets};
use crate::{asking, watching};
use std::alloc::Global;
use std::net;
use ts_link::{Clock, NoMemory};
use ts_net::{Acceptor, Arrival, Connector, Dialing, StreamLink};
use ts_txn::{Accepted, Began, Dialed, Net, NetCounts, Noted, Retired};

/// Listens at one address and dials another, each with an address and a port as `127.0.0.1:8080`. It begins
/// once. A client is taken where a descriptor is left for its origin too; else it waits, as if it had not
/// come. It is asked for where the system told of one, and from time to time; and a wait names the clients of
/// which a socket is ready, their own or their origin's. An origin is dialed for the client that came last,
/// or was noted since. A client whose transaction is handed over lingers: what it still sends is read and
/// passed over, so that it gets its answer whole. It tells nothing of the bytes that pass.
#[derive(Drop)]
pub struct StreamNet<'a, S: Sockets, C> {
    sockets: S,
    alloc: Global,
    clock: &'a C,
    opened: Option<Opened<S>>,
    handed: u64,
    notes: u64,
    counts: NetCounts,
}

/// The net over the sockets of the system.
pub type SocketNet<'a, R, C> = StreamNet<'a, SystemSockets<'a, R>, C>;

// A client of a net over these sockets, and the origin of one.
type ClientOf<S> = StreamLink<<<S as Sockets>::Acceptor as Acceptor>::Stream>;

type OriginOf<S> = StreamLink<<<S as Sockets>::Connector as Connector>::Stream>;

impl<'a, R: net::Net, C> StreamNet<'a, SystemSockets<'a, R>, C> {
    /// A net over the system's sockets that has not begun. By this clock it knows how long a client lingers.
    pub fn new(rt: &'a R, alloc: Global, clock: &'a C) -> SocketNet<'a, R, C>
        ensures fresh { IsFreshNet (seen_of result) }
        ensures opened { result.opened ≡ None }
        ensures counts { result.counts ≡ no_counts }
    {
        StreamNet::over(SystemSockets::new(rt), alloc, clock)
    }
}

impl<'a, S: Sockets, C> StreamNet<'a, S, C> {
    /// A net over these sockets that has not begun. By this clock it knows how long a client lingers.
    pub fn over(sockets: S, alloc: Global, clock: &'a C) -> StreamNet<'a, S, C>
        ensures fresh { IsFreshNet (seen_of result) }
        ensures opened { result.opened ≡ None }
        ensures counts { result.counts ≡ no_counts }
    {
        StreamNet {
            sockets,
            alloc,
            clock,
            opened: None,
            handed: 0,
            notes: 0,
            counts: NetCounts {
                faults: 0,
                misdials: 0,
                waits: 0,
                ends: 0,
            },
        }
    }

    /// How many answers of each kind it has given.
    pub fn counts(&self) -> NetCounts
        ensures { result ≡ self.now.counts }
    {
        self.counts
    }
}

// Accepts the next client, where one may be there and a descriptor is held for its origin.
fn accept_client<S: Sockets, C: Clock>(
    sockets: &S,
    opened: &mut Opened<S>,
    clock: &C,
) -> Accepted<ClientOf<S>>
    ensures accepts { AcceptsNow S.Acceptor.accepts S.Acceptor.Stream.reads S.Acceptor.Stream.watches
        S.spares opened.old opened.new result }
    ensures gives { Gives result opened.old.listener.given opened.new.listener.given }
{
    match watching::accept_client(sockets, opened, clock.now()) {
        Arrival::Client(link) => Accepted::Client(link),
        Arrival::Again => Accepted::Again,
        Arrival::Closed => Accepted::Closed,
        Arrival::Failed => Accepted::Failed,
    }
}

// Dials the origin.
fn dial_origin<S: Sockets>(opened: &mut Opened<S>) -> Dialed<OriginOf<S>>
    ensures { DialsNow S.Connector.connects S.Connector.Stream.watches opened.old opened.new result }
{
    match watching::dial_origin(opened) {
        Dialing::Origin(link) => Dialed::Origin(link),
        Dialing::Failed => Dialed::Failed,
    }
}

// Lets a client linger.
fn keep_client<S: Sockets, C: Clock>(opened: &mut Opened<S>, clock: &C, client: ClientOf<S>)
    ensures { LingersNow S.Acceptor.Stream.shuts client opened.old opened.new }
{
    asking::keep_client(opened, clock.now(), client);
}

impl<'a, S: Sockets, C: Clock> StreamNet<'a, S, C> {
    /// Listens no more. Whoever lingers is kept until it has its answer, for 100 milliseconds at most.
    pub fn finish(&mut self)
        ensures { self.new ≡ record self.old { opened = None } }
    {
        if let Some(opened) = self.opened.take() {
            let Opened {
                listener,
                connector: _,
                dials_for: _,
                mut lingering,
                spare: _,
                poller: _,
                backlog: _,
            } = opened;
            drop(listener);
            lingering.finish(self.clock);
        }
    }
}

impl<'a, S: Sockets, C: Clock> Net for StreamNet<'a, S, C>
where
    <S::Acceptor as Acceptor>::Stream: Send,
    <S::Connector as Connector>::Stream: Send,
{
    type Client = ClientOf<S>;

    type Origin = OriginOf<S>;

    ghost tells = { false };

    ghost seen = { seen_of };

    ghost begins = { BeginsOnce S.listens S.connects S.Acceptor.watches };

    fn begin(&mut self, listen: &str, origin: &str) -> Began
        ensures nobody { GivesNobody (seen_of self.old) (seen_of self.new) }
        ensures counts { CountsRise (raised_by_begin result) (seen_of self.old) (seen_of self.new) }
        ensures begins { BeginsOnce S.listens S.connects S.Acceptor.watches listen.now origin.now result
            self.old self.new }
    {
        if self.opened.is_some() {
            self.counts.faults = self.counts.faults.saturating_add(1);
            return Began::Failed;
        }
        match open(&self.sockets, self.alloc, listen, origin) {
            Ok(opened) => {
                self.opened = Some(opened);
                Began::Ready
            }
            Err(OpenFault::NoAddress | OpenFault::Refused(_)) => {
                self.counts.faults = self.counts.faults.saturating_add(1);
                Began::Failed
            }
            Err(OpenFault::NoMemory) => Began::NoMemory,
        }
    }

    // Before it has begun nobody is ready.
    fn wait(&mut self, most: u64, ready: &mut Vec<u64>)
        ensures seen { seen_of self.new ≡ seen_of self.old }
        ensures adds { AddsNames ready.old.items ready.new.items }
        ensures waits { Waits self.old.opened self.new.opened }
        ensures same { self.new ≡ record self.old { opened = self.new.opened } }
    {
        match &mut self.opened {
            Some(opened) => watching::wait(opened, self.clock, most, ready),
            None => self.clock.pause(most),
        }
    }

    fn accept(&mut self) -> Accepted<ClientOf<S>>
        ensures client { GivesClient stream_link result (seen_of self.old) (seen_of self.new) }
        ensures handed { IsHandedNothing (seen_of self.old) (seen_of self.new) }
        ensures counts { CountsRise (raised_by_accept result) (seen_of self.old) (seen_of self.new) }
        ensures accepts { Accepts S.Acceptor.accepts S.Acceptor.Stream.reads S.Acceptor.Stream.watches
            S.spares result self.old.opened self.new.opened }
    {
        let answer = match &mut self.opened {
            Some(opened) => accept_client(&self.sockets, opened, self.clock),
            None => Accepted::Closed,
        };
        match answer {
            Accepted::Client(_) => {}
            Accepted::Again => self.counts.waits = self.counts.waits.saturating_add(1),
            Accepted::Closed => self.counts.ends = self.counts.ends.saturating_add(1),
            Accepted::Failed => self.counts.faults = self.counts.faults.saturating_add(1),
        }
        answer
    }

    fn dial(&mut self) -> Dialed<OriginOf<S>>
        ensures origin { GivesOrigin stream_link (stream_origin {T = S.Acceptor.Stream}) result }
        ensures nobody { GivesNobody (seen_of self.old) (seen_of self.new) }
        ensures counts { CountsRise (raised_by_dial result) (seen_of self.old) (seen_of self.new) }
        ensures dials { Dials S.Connector.connects S.Connector.Stream.watches result
            self.old.opened self.new.opened }
    {
        let answer = match &mut self.opened {
            Some(opened) => dial_origin(opened),
            None => Dialed::Failed,
        };
        if let Dialed::Failed = answer {
            self.counts.misdials = self.counts.misdials.saturating_add(1);
        }
        answer
    }

    fn retire(&mut self, retired: Retired<ClientOf<S>, OriginOf<S>>) -> Result<(), NoMemory>
        ensures ok { OnOk result (IsHanded false retired (seen_of self.old) (seen_of self.new)) }
        ensures err { OnErr result (seen_of self.new ≡ seen_of self.old) }
        ensures takes { OnOk result (TakesOne S.Acceptor.Stream.shuts retired self.old self.new) }
        ensures none { OnErr result (TakesNone self.old self.new) }
    {
        let Some(handed) = self.handed.checked_add(1) else {
            return Err(NoMemory);
        };
        self.handed = handed;
        let Retired { parts, journal: _ } = retired;
        if let Some(opened) = &mut self.opened {
            keep_client(opened, self.clock, parts.client);
        }
        Ok(())
    }

    // The origin's socket is closed, and the client is dialed for next.
    fn note(&mut self, noted: Noted<OriginOf<S>>) -> Result<(), NoMemory>
        ensures ok { OnOk result (IsNoted false noted (seen_of self.old) (seen_of self.new)) }
        ensures err { OnErr result (seen_of self.new ≡ seen_of self.old) }
        ensures counts { OnOk result (self.new ≡ once_noted noted self.old) }
        ensures none { OnErr result ((self.old.notes ≡ greatest) × (self.new ≡ self.old)) }
    {
        let Some(notes) = self.notes.checked_add(1) else {
            return Err(NoMemory);
        };
        self.notes = notes;
        if let Some(opened) = &mut self.opened {
            opened.dials_for = noted.number;
        }
        Ok(())
    }
}
