//! A net in memory that keeps the texts with which it is begun, fails where it is asked for a client before
//! that, and may lack memory for what it is handed first.
ghost use Rattle.std.specs.Prelude.{◌≡◌, true, IfOk, OnOk, OnErr};
ghost use Rattle.ts_mem_nets.specs.Keeping.{AreTexts, KeepsTexts, seen_with};
ghost use Rattle.ts_txn.specs.MemNet.{seen_of};
ghost use Rattle.ts_txn.specs.Net.{IsFreshNet, IsHanded, IsNoted};

use std::alloc::Global;
use ts_link::{MemLink, NoMemory};
use ts_txn::{Accepted, Began, Dialed, MemNet, Net, NetCounts, Noted, Retired};

// The texts with which a net is begun: where it listens, and where its origins are.
#[derive(Drop)]
struct Addresses {
    listen: String,
    origin: String,
}

/// A net over one in memory, with counts of its own.
#[derive(Drop)]
pub struct KeepingNet {
    alloc: Global,
    inner: MemNet,
    counts: NetCounts,
    begun: Option<Addresses>,
    lacks: bool,
    dropped: Option<u64>,
}

impl KeepingNet {
    /// A net to which the clients of another one come, and which lacks memory for the first transaction that
    /// it is handed, if it is told to.
    pub fn make(alloc: Global, inner: MemNet, lacks: bool) -> KeepingNet
        requires { IsFreshNet (seen_of inner) }
        ensures { IsFreshNet (seen_with result.inner result.counts) }
    {
        KeepingNet {
            alloc,
            inner,
            counts: NetCounts {
                faults: 0,
                misdials: 0,
                waits: 0,
                ends: 0,
            },
            begun: None,
            lacks,
            dropped: None,
        }
    }

    /// Whether it was begun with these texts.
    pub fn is_begun_with(&self, listen: &str, origin: &str) -> bool {
        match &self.begun {
            Some(begun) => begun.listen.as_str() == listen && begun.origin.as_str() == origin,
            None => false,
        }
    }

    /// The number of the transaction for which memory lacked, if it did.
    pub fn dropped(&self) -> Option<u64> {
        self.dropped
    }

    /// What it was handed and kept, in order.
    pub fn retired(&self) -> &[Retired<MemLink, MemLink>] {
        self.inner.retired()
    }
}

// The texts with which a net is begun, kept.
fn addresses_of(alloc: Global, listen: &str, origin: &str) -> Result<Addresses, NoMemory>
    ensures { IfOk result (AreTexts listen.now origin.now) }
{
    Ok(Addresses {
        listen: String::from_str(alloc, listen)?,
        origin: String::from_str(alloc, origin)?,
    })
}

impl Net for KeepingNet {
    type Client = MemLink;

    type Origin = MemLink;

    ghost tells = { true };

    ghost seen = { λ net. seen_with net.inner net.counts };

    ghost begins = { KeepsTexts };

    fn begin(&mut self, listen: &str, origin: &str) -> Began {
        match addresses_of(self.alloc, listen, origin) {
            Ok(addresses) => {
                self.begun = Some(addresses);
                Began::Ready
            }
            Err(NoMemory) => Began::NoMemory,
        }
    }

    fn wait(&mut self, most: u64, ready: &mut Vec<u64>) {
        self.inner.wait(most, ready);
    }

    fn accept(&mut self) -> Accepted<MemLink> {
        if self.begun.is_none() {
            self.counts.faults = self.counts.faults.saturating_add(1);
            return Accepted::Failed;
        }
        let answer = self.inner.accept();
        match answer {
            Accepted::Client(_) => {}
            Accepted::Again => self.counts.waits = self.counts.waits.saturating_add(1),
            Accepted::Closed => self.counts.ends = self.counts.ends.saturating_add(1),
            Accepted::Failed => self.counts.faults = self.counts.faults.saturating_add(1),
        }
        answer
    }

    fn dial(&mut self) -> Dialed<MemLink> {
        let answer = self.inner.dial();
        if let Dialed::Failed = answer {
            self.counts.misdials = self.counts.misdials.saturating_add(1);
        }
        answer
    }

    fn retire(&mut self, retired: Retired<MemLink, MemLink>) -> Result<(), NoMemory>
        ensures ok { OnOk result (IsHanded true retired
            (seen_with self.old.inner self.old.counts) (seen_with self.new.inner self.new.counts)) }
        ensures err { OnErr result
            (seen_with self.new.inner self.new.counts ≡ seen_with self.old.inner self.old.counts) }
    {
        if self.lacks {
            self.lacks = false;
            self.dropped = Some(retired.parts.number);
            return Err(NoMemory);
        }
        self.inner.retire(retired)
    }

    fn note(&mut self, noted: Noted<MemLink>) -> Result<(), NoMemory>
        ensures ok { OnOk result (IsNoted true noted
            (seen_with self.old.inner self.old.counts) (seen_with self.new.inner self.new.counts)) }
        ensures err { OnErr result
            (seen_with self.new.inner self.new.counts ≡ seen_with self.old.inner self.old.counts) }
    {
        self.inner.note(noted)
    }
}
