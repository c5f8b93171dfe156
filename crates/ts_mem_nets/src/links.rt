//! Links in memory, made of what they give and of how their calls go.
ghost use Rattle.std.specs.Prelude.{IfOk};
ghost use Rattle.ts_link.specs.MemLink.{look_of};
ghost use Rattle.ts_txn.specs.Making.{IsNewLink, IsNewLinkIf};

use std::alloc::Global;
use ts_link::{MemLink, NoMemory, Octets, Piece};

/// A link that waits for so many reads once it gave so many of its bytes, then gives the others and its end,
/// and leaves after so many bytes, if it does.
#[derive(Clone, Copy)]
pub struct Stalling<'a> {
    pub gives: &'a [u8],
    pub stalls_at: usize,
    pub stall: u32,
    pub leave: Option<u64>,
}

/// A link that gives its bytes in pieces of these lengths and the rest at once, takes so many bytes a write,
/// and whose reads and writes of some numbers, counted from 1, fail or wait.
#[derive(Clone, Copy)]
pub struct Counting<'a> {
    pub gives: &'a [u8],
    pub cuts: &'a [u32],
    pub take: usize,
    pub failing_reads: &'a [u64],
    pub failing_writes: &'a [u64],
    pub waiting_reads: &'a [u64],
    pub waiting_writes: &'a [u64],
}

/// How a link goes.
#[derive(Clone, Copy)]
pub enum Side<'a> {
    Stalling(Stalling<'a>),
    Counting(Counting<'a>),
}

/// A link that gives these bytes and never stalls or leaves.
pub fn staying(gives: &[u8]) -> Stalling<'_> {
    Stalling {
        gives,
        stalls_at: 0,
        stall: 0,
        leave: None,
    }
}

/// A link that gives these bytes and takes all that it is given, of which no call fails or waits.
pub fn steady(gives: &[u8]) -> Counting<'_> {
    Counting {
        gives,
        cuts: &[],
        take: usize::MAX,
        failing_reads: &[],
        failing_writes: &[],
        waiting_reads: &[],
        waiting_writes: &[],
    }
}

/// A side that gives these bytes at once and takes what it is given.
pub fn at_once(gives: &[u8]) -> Side<'_> {
    Side::Stalling(staying(gives))
}

// The link that stalls so.
fn stalling_link(alloc: Global, side: &Stalling<'_>) -> Result<MemLink, NoMemory>
    ensures { IfOk result (λ l. IsNewLink (look_of l)) }
{
    let (front, back) = side.gives.split_at(side.stalls_at.min(side.gives.len()));
    let mut pieces = Vec::new(alloc);
    pieces.push(Piece::Bytes(Octets::copy_of(alloc, front)?))?;
    if side.stall > 0 {
        pieces.push(Piece::Stall(side.stall))?;
    }
    pieces.push(Piece::Bytes(Octets::copy_of(alloc, back)?))?;
    Ok(MemLink::of_pieces(alloc, pieces, side.leave))
}

// The link whose calls go so.
fn counting_link(alloc: Global, side: &Counting<'_>) -> Result<MemLink, NoMemory>
    ensures { IfOk result (λ l. IsNewLink (look_of l)) }
{
    Ok(MemLink::make(
        alloc,
        Octets::copy_of(alloc, side.gives)?,
        Vec::from_slice(alloc, side.cuts)?,
        side.take.max(1),
        Vec::from_slice(alloc, side.failing_reads)?,
        Vec::from_slice(alloc, side.failing_writes)?,
        Vec::from_slice(alloc, side.waiting_reads)?,
        Vec::from_slice(alloc, side.waiting_writes)?,
    ))
}

/// The link of a side.
pub fn link_of(alloc: Global, side: &Side<'_>) -> Result<MemLink, NoMemory>
    ensures { IfOk result (λ l. IsNewLink (look_of l)) }
{
    match side {
        Side::Stalling(stalling) => stalling_link(alloc, stalling),
        Side::Counting(counting) => counting_link(alloc, counting),
    }
}

/// The link of a side, if there is one.
pub fn link_if(alloc: Global, side: Option<Side<'_>>) -> Result<Option<MemLink>, NoMemory>
    ensures { IfOk result (IsNewLinkIf look_of) }
{
    match side {
        Some(side) => {
            let link = link_of(alloc, &side)?;
            Ok(Some(link))
        }
        None => Ok(None),
    }
}
