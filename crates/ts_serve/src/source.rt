//! What the first thread asks of a net.

ghost use Rattle.std.specs.Prelude.{◌≡◌, Bool, OnOk, OnErr};
ghost use Rattle.ts_txn.specs.Net.{AddsNames, CountsRise, GivesClient, GivesNobody, GivesOrigin, IsHanded};
ghost use Rattle.ts_txn.specs.Net.{IsHandedNothing, IsNoted, NetSeen, raised_by_accept, raised_by_dial};

use ts_link::{Link, NoMemory};
use ts_txn::{Accepted, Dialed, Net, Noted, Retired};
use ts_upstream::Upstream;

/// A net that has begun to listen, as the first thread sees it. That thread alone takes clients from it and
/// hands what is left of them to it, so their links need not be such as go to other threads. Each `Net` is
/// one.
pub trait ClientSource {
    type Client: Link + Drop;

    type Origin: Upstream<Self::Client> + Drop;

    // Whether contracts see what it was handed. How much that was, they see of any net.
    ghost tells: { Bool };

    // How many clients it gave, what it was handed, and its counts.
    ghost seen: { Self → NetSeen Self.Client Self.Origin };

    /// Waits at most so many milliseconds until a client or the origin of one may be ready, and adds the
    /// names of clients of which one is. A name may be of nobody, and one that is ready may be missing.
    fn wait(&mut self, most: u64, ready: &mut Vec<u64>)
        ensures same { seen self.new ≡ seen self.old }
        ensures adds { AddsNames ready.old.items ready.new.items };

    /// The next client, if one is there. The k-th client that it gives, counted from 1, has the name k.
    fn accept(&mut self) -> Accepted<Self::Client>
        ensures client { GivesClient Self.Client.Link result (seen self.old) (seen self.new) }
        ensures handed { IsHandedNothing (seen self.old) (seen self.new) }
        ensures counts { CountsRise (raised_by_accept result) (seen self.old) (seen self.new) };

    /// The origin of the client that came last, or goes on. It belongs to any client, and refuses no upload.
    fn dial(&mut self) -> Dialed<Self::Origin>
        ensures origin { GivesOrigin Self.Origin.Link Self.Origin.Upstream.own result }
        ensures nobody { GivesNobody (seen self.old) (seen self.new) }
        ensures counts { CountsRise (raised_by_dial result) (seen self.old) (seen self.new) };

    /// Takes what is left of a transaction, and counts it. At want of memory it is dropped.
    fn retire(&mut self, retired: Retired<Self::Client, Self::Origin>) -> Result<(), NoMemory>
        ensures ok { OnOk result (IsHanded tells retired (seen self.old) (seen self.new)) }
        ensures err { OnErr result (seen self.new ≡ seen self.old) };

    /// Takes what is left of a transaction after which its client goes on, and counts it. At want of memory
    /// it is dropped.
    fn note(&mut self, noted: Noted<Self::Origin>) -> Result<(), NoMemory>
        ensures ok { OnOk result (IsNoted tells noted (seen self.old) (seen self.new)) }
        ensures err { OnErr result (seen self.new ≡ seen self.old) };
}

impl<N: Net> ClientSource for N {
    type Client = N::Client;

    type Origin = N::Origin;

    ghost tells = { N.tells };

    ghost seen = { N.seen };

    fn wait(&mut self, most: u64, ready: &mut Vec<u64>) {
        <N as Net>::wait(self, most, ready);
    }

    fn accept(&mut self) -> Accepted<N::Client> {
        <N as Net>::accept(self)
    }

    fn dial(&mut self) -> Dialed<N::Origin> {
        <N as Net>::dial(self)
    }

    fn retire(&mut self, retired: Retired<N::Client, N::Origin>) -> Result<(), NoMemory>
        ensures ok { OnOk result (IsHanded N.tells retired (N.seen self.old) (N.seen self.new)) }
        ensures err { OnErr result (N.seen self.new ≡ N.seen self.old) }
    {
        <N as Net>::retire(self, retired)
    }

    fn note(&mut self, noted: Noted<N::Origin>) -> Result<(), NoMemory>
        ensures ok { OnOk result (IsNoted N.tells noted (N.seen self.old) (N.seen self.new)) }
        ensures err { OnErr result (N.seen self.new ≡ N.seen self.old) }
    {
        <N as Net>::note(self, noted)
    }
}
