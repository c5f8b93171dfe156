//! A net in memory.
ghost use Rattle.std.specs.Prelude.{◌≡◌, [], true, OnOk, OnErr};
ghost use Rattle.std.specs.List.{All};
ghost use Rattle.ts_link.specs.MemLink.{look_of};
ghost use Rattle.ts_txn.specs.Making.{IsNewLink, IsNewLinkIf};
ghost use Rattle.ts_txn.specs.MemNet.{BeginsInMemory, accept_answer, after_accept, after_dial, after_note};
ghost use Rattle.ts_txn.specs.MemNet.{after_retire, dial_answer, fresh_net, seen_of};
ghost use Rattle.ts_txn.specs.Net.{CountsRise, GivesClient, GivesNobody, GivesOrigin, IsFreshNet, IsHanded};
ghost use Rattle.ts_txn.specs.Net.{IsHandedNothing, IsNoted, raised_by_accept, raised_by_begin, raised_by_dial};
ghost use Rattle.ts_txn.specs.PairStock.{IsNewPair, full_stock, one_client};
ghost use Rattle.ts_upstream.specs.InMemory.{memory_link, memory_origin};

use crate::net::{Accepted, Began, Dialed, Net, NetCounts};
use crate::pair_stock::PairStock;
use crate::retired::{Noted, Retired};
use std::alloc::Global;
use std::marker::Model;
use ts_link::{MemLink, NoMemory, is_listed};

/// A net in memory: it gives links in memory in their order, fails or has its caller wait exactly where it
/// was told to, and keeps what it is handed.
#[derive(Drop)]
pub struct MemNet {
    stock: PairStock,
    failing: Vec<u64>,
    again: Vec<u64>,
    // How many accept calls were made.
    accepts: u64,
    retired: Vec<Retired<MemLink, MemLink>>,
    noted: Vec<Noted<MemLink>>,
    counts: NetCounts,
}

impl Model for MemNet {
    ghost use Rattle.ts_txn.specs.MemNet.{NetState};

    ghost Value = { NetState };

    ghost view = { λ s. record {
      stock = s.stock;
      accepts = record { fail = s.failing.items; again = s.again.items; made = s.accepts };
      retired = s.retired.items;
      noted = s.noted.items;
      counts = s.counts;
    } };
}

impl MemNet {
    /// A net that gives the clients of these pairs in their order and then is closed. Where a pair has no
    /// origin, the dial for its client fails. Accept calls are numbered from 1: those of the numbers in
    /// `failing` fail, of the others those in `again` wait, and neither uses up a pair. No link was used.
    pub fn make(
        alloc: Global,
        pairs: Vec<(MemLink, Option<MemLink>)>,
        again: Vec<u64>,
        failing: Vec<u64>,
    ) -> MemNet
        requires { All IsNewPair pairs.items }
        ensures made { result ≡ fresh_net (full_stock pairs.items) again.items failing.items }
        ensures fresh { IsFreshNet (seen_of result) }
    {
        MemNet::over(alloc, PairStock::make(alloc, pairs), again, failing)
    }

    /// A net that gives one client, and then is closed. Its origins are given to the dials in their order:
    /// one that is none, and each dial after the last one, fails. No link was used.
    pub fn with_origins(alloc: Global, client: MemLink, origins: Vec<Option<MemLink>>) -> MemNet
        requires client { IsNewLink (look_of client) }
        requires origins { All (IsNewLinkIf look_of) origins.items }
        ensures made { result ≡ fresh_net (one_client client origins.items) [] [] }
        ensures fresh { IsFreshNet (seen_of result) }
    {
        let stock = PairStock::of_client(alloc, client, origins);
        MemNet::over(alloc, stock, Vec::new(alloc), Vec::new(alloc))
    }

    // A net over this stock.
    fn over(alloc: Global, stock: PairStock, again: Vec<u64>, failing: Vec<u64>) -> MemNet
        ensures { result ≡ fresh_net stock again.items failing.items }
    {
        MemNet {
            stock,
            failing,
            again,
            accepts: 0,
            retired: Vec::new(alloc),
            noted: Vec::new(alloc),
            counts: NetCounts {
                faults: 0,
                misdials: 0,
                waits: 0,
                ends: 0,
            },
        }
    }

    /// What it was handed, in order.
    pub fn retired(&self) -> &[Retired<MemLink, MemLink>]
        ensures { result.now ≡ self.now.retired }
    {
        self.retired.as_slice()
    }

    /// What it was noted, in order.
    pub fn noted(&self) -> &[Noted<MemLink>]
        ensures { result.now ≡ self.now.noted }
    {
        self.noted.as_slice()
    }

    /// How many answers of each kind it has given.
    pub fn counts(&self) -> NetCounts
        ensures { result ≡ self.now.counts }
    {
        self.counts
    }
}

impl Net for MemNet {
    type Client = MemLink;

    type Origin = MemLink;

    ghost tells = { true };

    ghost seen = { seen_of };

    ghost begins = { BeginsInMemory };

    fn begin(&mut self, _listen: &str, _origin: &str) -> Began
        ensures nobody { GivesNobody (seen_of self.old) (seen_of self.new) }
        ensures counts { CountsRise (raised_by_begin result) (seen_of self.old) (seen_of self.new) }
        ensures begins { BeginsInMemory _listen.now _origin.now result self.old self.new }
    {
        Began::Ready
    }

    // It waits not, and names nobody.
    fn wait(&mut self, _most: u64, ready: &mut Vec<u64>)
        ensures same { self.new ≡ self.old }
        ensures adds { ready.new ≡ ready.old }
    {
        let _ = ready.len();
    }

    fn accept(&mut self) -> Accepted<MemLink>
        ensures client { GivesClient memory_link result (seen_of self.old) (seen_of self.new) }
        ensures handed { IsHandedNothing (seen_of self.old) (seen_of self.new) }
        ensures counts { CountsRise (raised_by_accept result) (seen_of self.old) (seen_of self.new) }
        ensures answer { result ≡ accept_answer self.old }
        ensures after { self.new ≡ after_accept self.old result }
    {
        let fails = is_listed(self.accepts, self.failing.as_slice());
        let waits = is_listed(self.accepts, self.again.as_slice());
        self.accepts = self.accepts.saturating_add(1);
        if fails {
            self.counts.faults = self.counts.faults.saturating_add(1);
            return Accepted::Failed;
        }
        if waits {
            self.counts.waits = self.counts.waits.saturating_add(1);
            return Accepted::Again;
        }
        match self.stock.next() {
            Some(client) => Accepted::Client(client),
            None => {
                self.counts.ends = self.counts.ends.saturating_add(1);
                Accepted::Closed
            }
        }
    }

    fn dial(&mut self) -> Dialed<MemLink>
        ensures origin { GivesOrigin memory_link memory_origin result }
        ensures nobody { GivesNobody (seen_of self.old) (seen_of self.new) }
        ensures counts { CountsRise (raised_by_dial result) (seen_of self.old) (seen_of self.new) }
        ensures answer { result ≡ dial_answer self.old }
        ensures after { self.new ≡ after_dial self.old result }
    {
        match self.stock.take_origin() {
            Some(origin) => Dialed::Origin(origin),
            None => {
                self.counts.misdials = self.counts.misdials.saturating_add(1);
                Dialed::Failed
            }
        }
    }

    fn retire(&mut self, retired: Retired<MemLink, MemLink>) -> Result<(), NoMemory>
        ensures ok { OnOk result (IsHanded true retired (seen_of self.old) (seen_of self.new)) }
        ensures err { OnErr result (self.new ≡ self.old) }
        ensures after { OnOk result (self.new ≡ after_retire self.old retired) }
    {
        self.retired.push(retired)?;
        Ok(())
    }

    fn note(&mut self, noted: Noted<MemLink>) -> Result<(), NoMemory>
        ensures ok { OnOk result (IsNoted true noted (seen_of self.old) (seen_of self.new)) }
        ensures err { OnErr result (self.new ≡ self.old) }
        ensures after { OnOk result (self.new ≡ after_note self.old noted) }
    {
        self.noted.push(noted)?;
        Ok(())
    }
}
