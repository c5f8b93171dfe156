//! What a link in memory gives and does.
ghost use Rattle.std.specs.Prelude.{IfOk};
ghost use Rattle.ts_link.specs.MemLink.{look_of};
ghost use Rattle.ts_txn.specs.Making.{IsNewLink, IsNewLinkIf};

use crate::refusal::Refusal;
use std::alloc::Global;
use ts_link::{MemLink, Octets, Piece};

// How many bytes a link takes a write that takes few.
const FEW: usize = 16;

/// What a link gives, how long its first piece is, if it is told, and how many pieces of one length follow;
/// how many bytes a write takes at most, and which calls fail or wait. No call has the number 0. Or it gives
/// all at once and leaves when it has taken so many bytes.
#[derive(Clone, Copy)]
pub struct Plan<'a> {
    pub gives: &'a [u8],
    pub first: u32,
    pub piece: u32,
    pub pieces: usize,
    pub take: usize,
    pub fail_read: u64,
    pub fail_write: u64,
    pub again_reads: (u64, u64),
    pub again_writes: (u64, u64),
    pub leaves_at: Option<u64>,
}

/// A link that gives these bytes at once, and takes what it is given.
pub fn giving(gives: &[u8]) -> Plan<'_> {
    Plan {
        gives,
        first: 0,
        piece: 1,
        pieces: 0,
        take: usize::MAX,
        fail_read: 0,
        fail_write: 0,
        again_reads: (0, 0),
        again_writes: (0, 0),
        leaves_at: None,
    }
}

/// A link that gives these bytes one by one, and takes one byte a write.
pub fn dripping(gives: &[u8]) -> Plan<'_> {
    Plan {
        pieces: gives.len(),
        take: 1,
        ..giving(gives)
    }
}

/// A link that gives so many bytes at once and then one by one, and takes few bytes a write.
pub fn dripping_after(gives: &[u8], front: u32) -> Plan<'_> {
    Plan {
        first: front,
        pieces: gives.len(),
        take: FEW,
        ..giving(gives)
    }
}

/// A link that gives these bytes at once, and leaves when it has taken so many.
pub fn leaving(gives: &[u8], at: u64) -> Plan<'_> {
    Plan {
        leaves_at: Some(at),
        ..giving(gives)
    }
}

// The lengths of the pieces of a plan but for the last.
fn cuts_of(alloc: Global, plan: &Plan<'_>) -> Result<Vec<u32>, Refusal> {
    let mut cuts = Vec::new(alloc);
    if plan.first > 0 {
        cuts.push(plan.first)?;
    }
    cuts.extend_from_slice(vec![in alloc; plan.piece.max(1); plan.pieces]?.as_slice())?;
    Ok(cuts)
}

// The link of a plan that does not leave.
fn staying_link(alloc: Global, plan: &Plan<'_>) -> Result<MemLink, Refusal>
    ensures { IfOk result (λ l. IsNewLink (look_of l)) }
{
    let cuts = cuts_of(alloc, plan)?;
    let fail_reads = vec![in alloc; plan.fail_read; 1]?;
    let fail_writes = vec![in alloc; plan.fail_write; 1]?;
    let again_reads = vec![in alloc; plan.again_reads.0, plan.again_reads.1]?;
    let again_writes = vec![in alloc; plan.again_writes.0, plan.again_writes.1]?;
    let input = Octets::copy_of(alloc, plan.gives)?;
    Ok(MemLink::make(
        alloc,
        input,
        cuts,
        plan.take.max(1),
        fail_reads,
        fail_writes,
        again_reads,
        again_writes,
    ))
}

// One that gives these bytes at once, and leaves when it has taken so many.
fn leaving_link(alloc: Global, gives: &[u8], at: u64) -> Result<MemLink, Refusal>
    ensures { IfOk result (λ l. IsNewLink (look_of l)) }
{
    let mut pieces = Vec::new(alloc);
    pieces.push(Piece::Bytes(Octets::copy_of(alloc, gives)?))?;
    Ok(MemLink::of_pieces(alloc, pieces, Some(at)))
}

/// The link of a plan.
pub fn link_of(alloc: Global, plan: &Plan<'_>) -> Result<MemLink, Refusal>
    ensures { IfOk result (λ l. IsNewLink (look_of l)) }
{
    match plan.leaves_at {
        Some(at) => leaving_link(alloc, plan.gives, at),
        None => staying_link(alloc, plan),
    }
}

/// The origin of a plan, if there is one.
pub fn origin_of(alloc: Global, plan: Option<Plan<'_>>) -> Result<Option<MemLink>, Refusal>
    ensures { IfOk result (IsNewLinkIf look_of) }
{
    match plan {
        Some(plan) => {
            let link = link_of(alloc, &plan)?;
            Ok(Some(link))
        }
        None => Ok(None),
    }
}
