//! The request that a span shows, as far as it is known.
ghost use Rattle.std.specs.Prelude.{◌≡◌, ◌≤◌, [], length, IfOk};
ghost use Rattle.ts_session.specs.Course.{fresh_request, is_head};
ghost use Rattle.ts_session.specs.Finding.{Decides, GoesOnChunked, IsHeadFound};
ghost use Rattle.ts_session.specs.Held.{before_last};
ghost use Rattle.ts_wire.specs.Heads.{LacksRequest};
ghost use Rattle.ts_wire.specs.Limits.{head_limit};

use crate::chunks::{Chunks, Followed};
use crate::finding::{Found, FoundHead, find_request};
use crate::held::Held;
use std::alloc::Global;
use ts_link::NoMemory;
use ts_wire::RequestEnd;

/// How far a request is.
#[derive(Clone, Copy)]
pub enum Reading {
    /// Its head is still read, and nothing of it was given.
    Head,
    /// So many bytes of it are still to be given.
    Known(u64),
    /// Its body comes in chunks, and goes on behind all that is held.
    Chunks,
    /// All that the client gives belongs to it.
    Open,
}

/// A request, and the bytes that the client gave and that were not given on.
#[derive(Drop)]
pub struct Request {
    pub(crate) held: Held,
    // Of a body in chunks: how far it is.
    pub(crate) chunks: Chunks,
    pub(crate) reading: Reading,
    // Of a request of which it is known where it ends: whether its client lets the connection go on, and
    // whether it asks for the head of an answer alone.
    pub(crate) persists: bool,
    pub(crate) asks_head: bool,
}

impl Request {
    // A request of which nothing came. It takes all the memory that it ever needs.
    pub(crate) fn make(alloc: Global) -> Result<Request, NoMemory>
        ensures { IfOk result (λ r. r ≡ fresh_request r.chunks []) }
    {
        let held = Held::make(alloc)?;
        let chunks = Chunks::make(alloc)?;
        Ok(Request {
            held,
            chunks,
            reading: Reading::Head,
            persists: false,
            asks_head: false,
        })
    }

    // The request that begins with these bytes, which are held. It takes no memory.
    pub(crate) fn behind(held: Held, chunks: Chunks) -> Request
        ensures { Decides (fresh_request chunks held) result }
    {
        let mut request = Request {
            held,
            chunks,
            reading: Reading::Head,
            persists: false,
            asks_head: false,
        };
        let fresh = request.held.len();
        request.decide(fresh);
        request
    }

    pub(crate) fn is_head(&self) -> bool
        ensures { result ≡ is_head self.now.reading }
    {
        matches!(self.reading, Reading::Head)
    }

    // Its body comes in chunks, and the last `fresh` bytes that are held were not looked at.
    pub(crate) fn follow(&mut self, fresh: usize)
        requires { fresh ≤ length self.old.held }
        ensures { GoesOnChunked fresh self.old self.new }
    {
        let seen = self.held.len() - fresh;
        match self.chunks.follow(self.held.bytes().split_at(seen).1) {
            Followed::On => self.reading = Reading::Chunks,
            Followed::Ended(count) => self.reading = Reading::Known((seen + count) as u64),
            Followed::Never => self.reading = Reading::Open,
        }
    }

    // Its head is known.
    fn begin(&mut self, found: FoundHead)
        requires found { IsHeadFound self.old.held found }
        requires fits { length self.old.held ≤ head_limit }
        ensures { Decides self.old self.new }
    {
        self.persists = found.persists;
        self.asks_head = found.asks_head;
        match found.end {
            RequestEnd::Sized(size) => self.reading = Reading::Known(found.used as u64 + size),
            RequestEnd::Chunked => {
                self.chunks.restart();
                let fresh = self.held.len() - found.used;
                self.follow(fresh);
            }
            RequestEnd::Unknown => self.reading = Reading::Open,
        }
    }

    // Looks whether it is known by now where it ends, once `fresh` more bytes of it came.
    pub(crate) fn decide(&mut self, fresh: usize)
        requires head { self.old.reading ≡ Reading.Head }
        requires fresh { fresh ≤ length self.old.held }
        requires lacks { LacksRequest (before_last fresh self.old.held) }
        ensures { Decides self.old self.new }
    {
        if !self.held.may_end(fresh) {
            return;
        }
        match find_request(self.held.bytes()) {
            Found::More => {}
            Found::Never => self.reading = Reading::Open,
            Found::Head(found) => self.begin(found),
        }
    }
}
