//! The net that a command may serve.
ghost use Rattle.std.specs.List.{All};
ghost use Rattle.std.specs.Prelude.{IfOk};
ghost use Rattle.ts_link.specs.MemLink.{look_of};
ghost use Rattle.ts_txn.specs.Making.{IsNewLink};
ghost use Rattle.ts_txn.specs.MemNet.{seen_of};
ghost use Rattle.ts_txn.specs.Net.{IsFreshNet};
ghost use Rattle.ts_txn.specs.PairStock.{IsNewPair};

use std::alloc::Global;
use ts_link::{MemLink, NoMemory, Octets};
use ts_txn::MemNet;

const REQUEST: &[u8] = b"GET / HTTP/1.1\r\nHost: a\r\n\r\n";

const RESPONSE: &[u8] = b"HTTP/1.1 200 OK\r\nContent-Length: 3\r\n\r\nabc";

// A link that gives these bytes at once.
fn link_of(alloc: Global, gives: &[u8]) -> Result<MemLink, NoMemory>
    ensures { IfOk result (λ l. IsNewLink (look_of l)) }
{
    let gives = Octets::copy_of(alloc, gives)?;
    Ok(MemLink::make(
        alloc,
        gives,
        Vec::new(alloc),
        usize::MAX,
        Vec::new(alloc),
        Vec::new(alloc),
        Vec::new(alloc),
        Vec::new(alloc),
    ))
}

// Adds the links of the client.
fn add_pair(alloc: Global, pairs: &mut Vec<(MemLink, Option<MemLink>)>) -> Result<(), NoMemory>
    requires { All IsNewPair pairs.old.items }
    ensures { All IsNewPair pairs.new.items }
{
    let client = link_of(alloc, REQUEST)?;
    let origin = link_of(alloc, RESPONSE)?;
    pairs.push((client, Some(origin)))?;
    Ok(())
}

/// A net to which one client comes, whose origin gives three bytes.
pub fn net_of_one(alloc: Global) -> Result<MemNet, NoMemory>
    ensures { IfOk result (λ net. IsFreshNet (seen_of net)) }
{
    let mut pairs = Vec::new(alloc);
    add_pair(alloc, &mut pairs)?;
    Ok(MemNet::make(alloc, pairs, Vec::new(alloc), Vec::new(alloc)))
}
