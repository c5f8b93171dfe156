//! Nets in memory, made of the clients that come.
ghost use Rattle.std.specs.Prelude.{IfOk};
ghost use Rattle.std.specs.List.{All};
ghost use Rattle.ts_txn.specs.MemNet.{seen_of};
ghost use Rattle.ts_txn.specs.Net.{IsFreshNet};
ghost use Rattle.ts_txn.specs.PairStock.{IsNewPair};

use crate::links::{link_if, link_of};
use crate::visit::Visit;
use std::alloc::Global;
use ts_link::{MemLink, NoMemory};
use ts_txn::MemNet;

// Adds the links of a client.
fn add_pair(
    alloc: Global,
    pairs: &mut Vec<(MemLink, Option<MemLink>)>,
    visit: &Visit<'_>,
) -> Result<(), NoMemory>
    requires { All IsNewPair pairs.old.items }
    ensures { All IsNewPair pairs.new.items }
{
    let client = link_of(alloc, &visit.client)?;
    let origin = link_if(alloc, visit.origin)?;
    pairs.push((client, origin))?;
    Ok(())
}

// The links of these clients, in order.
fn pairs_of(
    alloc: Global,
    visits: &[Visit<'_>],
) -> Result<Vec<(MemLink, Option<MemLink>)>, NoMemory>
    ensures { IfOk result (λ pairs. All IsNewPair pairs.items) }
{
    let mut pairs = Vec::new(alloc);
    for visit in visits {
        add_pair(alloc, &mut pairs, visit)?;
    }
    Ok(pairs)
}

/// A net to which these clients come, whose accept calls of the first numbers wait, and those of the others
/// fail, counted from 1.
pub fn net_of(
    alloc: Global,
    visits: &[Visit<'_>],
    again: &[u64],
    failing: &[u64],
) -> Result<MemNet, NoMemory>
    ensures { IfOk result (λ net. IsFreshNet (seen_of net)) }
{
    let pairs = pairs_of(alloc, visits)?;
    let again = Vec::from_slice(alloc, again)?;
    let failing = Vec::from_slice(alloc, failing)?;
    Ok(MemNet::make(alloc, pairs, again, failing))
}
