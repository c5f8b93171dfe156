//! The pieces and stalls of one side of a transaction.
ghost use Rattle.std.specs.Prelude.{◌≡◌, ◌<◌, ◌≤◌, ◌+◌, ◌∷◌, ◌++◌, [], IfOk, IfErr, IfNone, IfSome};
ghost use Rattle.std.specs.List.{AllByRecursion};
ghost use Rattle.ts_link.specs.Inputs.{stalled_reads};
ghost use Rattle.ts_record.specs.Grammar.{IsItem, items_before};
ghost use Rattle.ts_record.specs.Keywords.{LacksKeyword, keyword_text, stall_keyword};
ghost use Rattle.ts_record.specs.Refusing.{IsItemOf, LacksItem, StopsItem, StopsItems};
ghost use Rattle.ts_record.specs.declared.items.PartRefusal.TheVariants as p;
ghost use Rattle.ts_record.specs.declared.recording.TheConstants.{MOST_STALLED};

use crate::keyword::{Side, after};
use crate::piece::{read_number, read_piece};
use crate::recording::MOST_STALL;
use std::alloc::{AllocFailed, Global};
use ts_link::{NoMemory, Octets, Piece};

/// Why a part of a recording was not read.
#[derive(Clone, Copy)]
pub enum PartRefusal {
    /// So many bytes are left behind the longest front that the part can begin with.
    Left(usize),
    NoMemory,
}

impl From<NoMemory> for PartRefusal {
    ghost from_gives = { λ _ e. e ≡ p.NoMemory };

    fn from(_refusal: NoMemory) -> PartRefusal {
        PartRefusal::NoMemory
    }
}

impl<T: Drop> From<AllocFailed<T>> for PartRefusal {
    ghost from_gives = { λ _ e. e ≡ p.NoMemory };

    fn from(_refusal: AllocFailed<T>) -> PartRefusal {
        PartRefusal::NoMemory
    }
}

// How many reads wait at a piece or stall.
fn reads_at(item: &Piece) -> u32
    ensures { result ≡ stalled_reads (item.now ∷ []) }
{
    match item {
        Piece::Bytes(_) => 0,
        Piece::Stall(reads) => *reads,
    }
}

// The bytes behind the keyword of a stall, if it stands at the front and some reads may still wait.
fn after_stall(bytes: &[u8], side: Side, room: u32) -> Option<&[u8]>
    ensures room { IfSome result (λ behind. 0 < room) }
    ensures some { IfSome result (λ behind. bytes.now ≡ keyword_text (stall_keyword side) ++ behind.now) }
    ensures none { IfNone result (0 < room → LacksKeyword bytes.now (stall_keyword side)) }
{
    if room == 0 {
        return None;
    }
    after(bytes, side.stall_keyword())
}

// A piece or a stall of this side, and the bytes behind it, if one stands at the front. At a stall at most as
// many reads wait as there is room for.
fn read_item(
    alloc: Global,
    bytes: &[u8],
    side: Side,
    room: u32,
) -> Result<Option<(Piece, &[u8])>, PartRefusal>
    requires room { room ≤ MOST_STALLED }
    ensures read { IfOk result (λ found. IfSome found (λ cut. IsItemOf side room bytes.now cut.0 cut.1.now)) }
    ensures lacks { IfOk result (λ found. IfNone found (LacksItem side room bytes.now)) }
    ensures refused { IfErr result (StopsItem side room bytes.now) }
{
    if let Some(inside) = after(bytes, side.piece_keyword()) {
        return match read_piece(inside) {
            Ok((piece, behind)) => {
                Ok(Some((Piece::Bytes(Octets::copy_of(alloc, piece)?), behind)))
            }
            Err(left) => Err(PartRefusal::Left(left)),
        };
    }
    if let Some(inside) = after_stall(bytes, side, room) {
        return match read_number(inside, room.min(MOST_STALL) as usize) {
            Ok((reads, behind)) => Ok(Some((Piece::Stall(reads as u32), behind))),
            Err(left) => Err(PartRefusal::Left(left)),
        };
    }
    Ok(None)
}

/// The pieces and stalls of this side, how many reads may wait at those that are still to come, and the bytes
/// behind them, at whose front no more of them stands.
pub fn read_items(
    alloc: Global,
    bytes: &[u8],
    side: Side,
    room: u32,
) -> Result<(Vec<Piece>, u32, &[u8]), PartRefusal>
    requires room { room ≤ MOST_STALLED }
    ensures each { IfOk result (λ cut. AllByRecursion IsItem cut.0.items) }
    ensures stalls { IfOk result (λ cut. cut.1 + stalled_reads cut.0.items ≡ room) }
    ensures text { IfOk result (λ cut. bytes.now ≡ items_before side cut.2.now cut.0.items) }
    ensures lacks { IfOk result (λ cut. LacksItem side cut.1 cut.2.now) }
    ensures refused { IfErr result (StopsItems side room bytes.now) }
{
    let mut items = Vec::new(alloc);
    let mut room = room;
    let mut rest = bytes;
    'items: while let Some((item, behind)) = read_item(alloc, rest, side, room)? {
        room -= reads_at(&item);
        items.push(item)?;
        rest = behind;
    }
    Ok((items, room, rest))
}
