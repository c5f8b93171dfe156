//! What a link gave that was not used yet, and how far a head was looked for in it.
ghost use Rattle.std.specs.Prelude.{◌≡◌, ◌<◌, ◌≤◌, ◌↔◌, [], length, take, drop, IsTrue, IfOk, MatchOption, OnErr};
ghost use Rattle.ts_phases.specs.Fronts.{HasFront};
ghost use Rattle.ts_vconn.specs.Moves.{PullsOn};
ghost use Rattle.ts_vconn.specs.declared.moves.TheConstants.{MOST_PULLED};

use crate::head::Head;
use crate::looking::look;
use crate::place::Place;
use std::alloc::Global;
use std::marker::Model;
use ts_iobuf::Waiting;
use ts_link::{Link, NoMemory};
use ts_vconn::{Pulled, pull_waiting};
use ts_wire::Read;

/// Bytes that a link gave and that were not used yet. Contracts see the list of them. A head is looked for in
/// what came since the last look, and is read anew only where a byte of that may end or break it.
#[derive(Drop)]
pub struct Received {
    waiting: Waiting,
    // How many of the bytes were looked at, and where in a head these end.
    looked: usize,
    place: Place,
}

impl Model for Received {
    ghost use Rattle.std.specs.Prelude.{List, ℕ};

    ghost Value = { List ℕ };

    ghost use Rattle.ts_phases.specs.Place.{IsLookedAt};

    ghost view = { λ r. r.waiting };

    ghost invariant = { λ r. IsLookedAt r.looked r.place r.waiting };
}

impl Received {
    /// No bytes.
    pub fn new(alloc: Global) -> Result<Received, NoMemory>
        ensures { IfOk result (λ r. r ≡ []) }
    {
        Ok(Received {
            waiting: Waiting::new(alloc)?,
            looked: 0,
            place: Place::Before,
        })
    }

    /// Whether there are none.
    pub fn is_empty(&self) -> bool
        ensures { IsTrue result ↔ (self.now ≡ []) }
    {
        self.waiting.is_empty()
    }

    /// How many there are.
    pub fn len(&self) -> usize
        ensures { result ≡ length self.now }
    {
        self.waiting.len()
    }

    /// Lends the first block of the bytes, without a copy; `None` where there are none.
    pub fn block(&self) -> Option<&[u8]>
        ensures { MatchOption result (self.now ≡ [])
            (λ b. (0 < length b.now) × (length b.now ≤ length self.now)
            × (b.now ≡ take (length b.now) self.now)) }
    {
        self.waiting.block()
    }

    /// Takes the first `n` bytes away.
    pub fn take(&mut self, n: usize)
        requires { n ≤ length self.old }
        ensures { self.new ≡ drop n self.old }
    {
        self.waiting.take(n);
        self.looked = 0;
        self.place = Place::Before;
    }

    /// Gives the memory of what the bytes stand in back, where none does. It takes no memory.
    pub fn give_back(&mut self)
        ensures { self.new ≡ self.old }
    {
        self.waiting.give_back();
    }

    /// Makes one read of the link, of at most so many bytes, which come behind the others.
    pub(crate) fn pull<L: Link>(&mut self, link: &mut L, most: usize) -> Result<Pulled, NoMemory>
        requires { (1 ≤ most) × (most ≤ MOST_PULLED) }
        ensures moved { IfOk result (λ p.
            PullsOn L.tells (L.look link.old) (L.look link.new) self.old self.new p most) }
        ensures goes { L.goes link.old link.new }
        ensures err { OnErr result ((link.new ≡ link.old) × (self.new ≡ self.old)) }
    {
        pull_waiting(link, &mut self.waiting, most)
    }

    /// What stands at the front of the bytes.
    pub(crate) fn read_head<H: Head>(&mut self, alloc: Global) -> Result<Read<H>, NoMemory>
        ensures same { self.new ≡ self.old }
        ensures front { IfOk result (HasFront H.has H.lacks self.old) }
    {
        look(alloc, &self.waiting, &mut self.looked, &mut self.place)
    }
}
