//! Sockets that the system watches: it tells which of them are ready, each once at a change.
ghost use Rattle.std.specs.Prelude.{◌≡◌, ℕ, Bool, ◌≤◌, ◌==◌, ◌++◌, [], false, length, map, IfOk, OnOk, OnErr};
ghost use Rattle.std.specs.List.{list_any};
ghost use Rattle.mio.specs.Events.{items};
ghost use Rattle.ts_net.specs.Polls.{AddsSome, IsKept, name_of, named_as, tells};

use mio::event::Source;
use mio::{Events, Interest, Poll, Token};
use std::alloc::{AllocError, Global};
use std::marker::Model;
use std::net::Net;
use std::time::Duration;
use ts_link::NoMemory;

/// Of how many sockets one wait tells at most. The next one tells of the others.
pub const MOST_TOLD: usize = 256;

/// The name under which who listens is watched. No client has it.
pub const LISTENER: u64 = 0;

/// What can be watched.
pub trait Watched {
    // The second is the first once the system was asked to watch it under this name, with this answer.
    ghost watches: { ℕ → Bool → Self → Self → Type 0 };

    /// Has the system tell under this name where it is ready. Answers whether the system does.
    fn watch(&mut self, poller: &Poller, name: u64) -> bool
        ensures { watches name result self.old self.new };
}

/// Has the system watch sockets, and waits until some are ready. Where the system gives nothing to watch them
/// with, none is watched. Contracts see the names of which the last wait told.
#[derive(Drop)]
pub struct Poller {
    poll: Option<Poll>,
    events: Events,
}

impl Model for Poller {
    ghost use Rattle.std.specs.Prelude.{ℕ, List};

    ghost Value = { List ℕ };

    ghost use Rattle.std.specs.Prelude.{◌≡◌, map};
    ghost use Rattle.mio.specs.Events.{capacity, items};
    ghost use Rattle.ts_net.specs.Polls.{name_of};
    ghost use Rattle.ts_net.specs.declared.poller.TheConstants.{MOST_TOLD};

    ghost view = { λ p. map name_of (items p.events) };

    ghost invariant = { λ p. capacity p.events ≡ MOST_TOLD };
}

// Whether these are events of a socket of this name.
fn has_name(events: &Events, name: u64) -> bool
    ensures { result ≡ list_any (λ e. name_of e == name) (items events.now) }
{
    events.iter().any(|event| event.token().0 as u64 == name)
}

// The name of a socket as it is handed on.
fn named_as(next: u64, name: u64) -> u64
    ensures { result ≡ named_as next name }
{
    if name == LISTENER { next } else { name }
}

// Adds the names of these events, as they are handed on.
fn push_names(events: &Events, next: u64, ready: &mut Vec<u64>) -> Result<(), AllocError>
    ensures ok { OnOk result (ready.new.items ≡ ready.old.items
        ++ map (λ e. named_as next (name_of e)) (items events.now)) }
    ensures err { OnErr result (AddsSome ready.old.items ready.new.items) }
{
    ready.extend(
        events
            .iter()
            .map(|event| named_as(next, event.token().0 as u64)),
    )
}

impl Poller {
    /// Nothing is watched yet.
    pub fn new<R: Net>(rt: &R, alloc: Global) -> Result<Poller, NoMemory>
        ensures { IfOk result (λ p. p ≡ []) }
    {
        let events = Events::with_capacity(alloc, MOST_TOLD)?;
        Ok(Poller {
            poll: Poll::new(rt).ok(),
            events,
        })
    }

    /// Nothing is ever watched, as where the system gives nothing to watch sockets with.
    pub fn idle(alloc: Global) -> Result<Poller, NoMemory>
        ensures { IfOk result (λ p. p ≡ []) }
    {
        let events = Events::with_capacity(alloc, MOST_TOLD)?;
        Ok(Poller { poll: None, events })
    }

    /// Has the system watch a socket under a name from now on: it tells where it can be read or written, now
    /// and at each change. Answers whether the system does.
    pub fn watch<S: Source>(&self, source: &mut S, name: u64) -> bool
        ensures { IsKept S.keeps source.old source.new }
    {
        let Some(poll) = &self.poll else {
            return false;
        };
        let both_ways = Interest::READABLE | Interest::WRITABLE;
        poll.registry()
            .register(source, Token(name as usize), both_ways)
            .is_ok()
    }

    /// Waits at most so many milliseconds until something that is watched is ready. Answers whether the
    /// system waited: else it tells of nothing.
    pub fn wait(&mut self, most: u64) -> bool
        ensures waited { result ≡ false → self.new ≡ [] }
        ensures most { length self.new ≤ MOST_TOLD }
    {
        let Some(poll) = &mut self.poll else {
            self.events.clear();
            return false;
        };
        poll.poll(&mut self.events, Some(Duration::from_millis(most)))
            .is_ok()
    }

    /// Whether the last wait told of this name.
    pub fn has_told(&self, name: u64) -> bool
        ensures { result ≡ tells name self.now }
    {
        has_name(&self.events, name)
    }

    /// Adds the names of which the last wait told. Who listens is named as the client that comes next. At
    /// want of memory some are missing.
    pub fn add_names(&self, next: u64, ready: &mut Vec<u64>) -> Result<(), NoMemory>
        ensures ok { OnOk result (ready.new.items ≡ ready.old.items ++ map (named_as next) self.now) }
        ensures err { OnErr result (AddsSome ready.old.items ready.new.items) }
    {
        push_names(&self.events, next, ready)?;
        Ok(())
    }
}
