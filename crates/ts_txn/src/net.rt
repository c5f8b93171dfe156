//! The net, from which clients come, over which an origin is dialed for each of them, and to which what is
//! left of their transactions is handed.
ghost use Rattle.std.specs.Prelude.{◌≡◌, ℕ, List, Bool, OnOk, OnErr};
ghost use Rattle.ts_txn.specs.Net.{AddsNames, CountsRise, GivesClient, GivesNobody, GivesOrigin, IsHanded};
ghost use Rattle.ts_txn.specs.Net.{IsHandedNothing, IsNoted, NetSeen, raised_by_accept, raised_by_begin};
ghost use Rattle.ts_txn.specs.Net.{raised_by_dial};

use crate::retired::{Noted, Retired};
use ts_link::{NoMemory, Sourced};
use ts_upstream::Upstream;

/// What comes of beginning to listen.
#[derive(Clone, Copy, Debug, PartialEq, Eq)]
pub enum Began {
    Ready,
    Failed,
    NoMemory,
}

/// What comes of accepting. `Again` where no client is there yet, `Closed` where none comes any more. Each
/// answer but `Client` is counted.
#[derive(Drop)]
pub enum Accepted<C> {
    Client(C),
    Again,
    Closed,
    Failed,
}

/// What comes of dialing the origin.
#[derive(Drop)]
pub enum Dialed<O> {
    Origin(O),
    Failed,
}

/// How many answers of each kind a net has given. A count stays at the greatest `u64`.
#[derive(Clone, Copy, Debug, PartialEq, Eq)]
pub struct NetCounts {
    /// How often beginning or accepting was `Failed`.
    pub faults: u64,
    /// How often dialing was `Failed`.
    pub misdials: u64,
    /// How often accepting was `Again`.
    pub waits: u64,
    /// How often accepting was `Closed`.
    pub ends: u64,
}

/// Gives clients and origins, and takes what is left of their transactions. What a client gave and may still
/// give is its source, so that of a request's body that went to an origin it is known what the client sent.
pub trait Net {
    ghost use Rattle.ts_txn.specs.declared.net.Began.{Began};

    type Client: Sourced + Drop + Send;

    type Origin: Upstream<Self::Client> + Drop + Send;

    // Whether contracts see what it was handed. How much that was, they see of any net.
    ghost tells: { Bool };

    // How many clients it gave, what it was handed and what it was noted, and its counts.
    ghost seen: { Self → NetSeen Self.Client Self.Origin };

    // The first net was let begin at these two addresses, with this answer, and was the second one then.
    ghost begins: { List ℕ → List ℕ → Began → Self → Self → Type 0 };

    /// Begins to listen for clients at the first address, each of which has its origin at the second one.
    fn begin(&mut self, listen: &str, origin: &str) -> Began
        ensures nobody { GivesNobody (seen self.old) (seen self.new) }
        ensures counts { CountsRise (raised_by_begin result) (seen self.old) (seen self.new) }
        ensures begins { begins listen.now origin.now result self.old self.new };

    /// Waits at most so many milliseconds until a client or the origin of one may be ready, and adds the names
    /// of clients of which one is. A name may be of nobody, and one that is ready may be missing.
    fn wait(&mut self, most: u64, ready: &mut Vec<u64>)
        ensures same { seen self.new ≡ seen self.old }
        ensures adds { AddsNames ready.old.items ready.new.items };

    /// The next client, if one is there. The k-th client that it gives, counted from 1, has the name k.
    fn accept(&mut self) -> Accepted<Self::Client>
        ensures client { GivesClient Self.Client.Link result (seen self.old) (seen self.new) }
        ensures handed { IsHandedNothing (seen self.old) (seen self.new) }
        ensures counts { CountsRise (raised_by_accept result) (seen self.old) (seen self.new) };

    /// The origin of the client that came last. It belongs to any client, and refuses no upload.
    fn dial(&mut self) -> Dialed<Self::Origin>
        ensures origin { GivesOrigin Self.Origin.Link Self.Origin.Upstream.own result }
        ensures nobody { GivesNobody (seen self.old) (seen self.new) }
        ensures counts { CountsRise (raised_by_dial result) (seen self.old) (seen self.new) };

    /// Takes what is left of a transaction, and counts it. At want of memory it is dropped.
    fn retire(&mut self, retired: Retired<Self::Client, Self::Origin>) -> Result<(), NoMemory>
        ensures ok { OnOk result (IsHanded tells retired (seen self.old) (seen self.new)) }
        ensures err { OnErr result (seen self.new ≡ seen self.old) };

    /// Takes what is left of a transaction after which its client goes on, and counts it. At want of memory it
    /// is dropped.
    fn note(&mut self, noted: Noted<Self::Origin>) -> Result<(), NoMemory>
        ensures ok { OnOk result (IsNoted tells noted (seen self.old) (seen self.new)) }
        ensures err { OnErr result (seen self.new ≡ seen self.old) };
}
