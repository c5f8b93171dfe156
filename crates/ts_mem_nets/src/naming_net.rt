//! A net in memory that names clients each time that somebody waits, whether they are ready or not.
ghost use Rattle.std.specs.Prelude.{◌≡◌, true, OnOk, OnErr};
ghost use Rattle.ts_txn.specs.MemNet.{BeginsInMemory, seen_of};
ghost use Rattle.ts_txn.specs.Net.{AddsNames, IsFreshNet, IsHanded, IsNoted};

use ts_link::{MemLink, NoMemory};
use ts_txn::{Accepted, Began, Dialed, MemNet, Net, Noted, Retired};

/// A net over one in memory, each wait of which names the same clients.
#[derive(Drop)]
pub struct NamingNet {
    inner: MemNet,
    names: Vec<u64>,
}

impl NamingNet {
    /// A net to which the clients of another one come, and which names clients of these numbers.
    pub fn make(inner: MemNet, names: Vec<u64>) -> NamingNet
        requires { IsFreshNet (seen_of inner) }
        ensures { IsFreshNet (seen_of result.inner) }
    {
        NamingNet { inner, names }
    }

    /// What it was handed, in order.
    pub fn retired(&self) -> &[Retired<MemLink, MemLink>] {
        self.inner.retired()
    }
}

// Adds names behind those that are there. At want of memory none is added.
fn add_names(names: &[u64], ready: &mut Vec<u64>)
    ensures { AddsNames ready.old.items ready.new.items }
{
    let _ = ready.extend_from_slice(names);
}

impl Net for NamingNet {
    type Client = MemLink;

    type Origin = MemLink;

    ghost tells = { true };

    ghost seen = { λ net. seen_of net.inner };

    ghost begins = { λ listen origin began old new. BeginsInMemory listen origin began old.inner new.inner };

    fn begin(&mut self, listen: &str, origin: &str) -> Began {
        self.inner.begin(listen, origin)
    }

    // It waits not.
    fn wait(&mut self, _most: u64, ready: &mut Vec<u64>) {
        add_names(self.names.as_slice(), ready);
    }

    fn accept(&mut self) -> Accepted<MemLink> {
        self.inner.accept()
    }

    fn dial(&mut self) -> Dialed<MemLink> {
        self.inner.dial()
    }

    fn retire(&mut self, retired: Retired<MemLink, MemLink>) -> Result<(), NoMemory>
        ensures ok { OnOk result (IsHanded true retired (seen_of self.old.inner) (seen_of self.new.inner)) }
        ensures err { OnErr result (seen_of self.new.inner ≡ seen_of self.old.inner) }
    {
        self.inner.retire(retired)
    }

    fn note(&mut self, noted: Noted<MemLink>) -> Result<(), NoMemory>
        ensures ok { OnOk result (IsNoted true noted (seen_of self.old.inner) (seen_of self.new.inner)) }
        ensures err { OnErr result (seen_of self.new.inner ≡ seen_of self.old.inner) }
    {
        self.inner.note(noted)
    }
}
