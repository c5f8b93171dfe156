//! Printing a recording: the one text that is read as it.
ghost use Rattle.std.specs.Prelude.{◌≡◌, IfOk, OnOk};
ghost use Rattle.ts_record.specs.Grammar.{KeepsLimits, IsRecording, contents, text_of};
ghost use Rattle.ts_record.specs.Keywords.{header_of};
ghost use Rattle.ts_record.specs.Printing.{PrintsItem, PrintsItems, PrintsLeave, PrintsNumber, PrintsPiece};
ghost use Rattle.ts_record.specs.Printing.{PrintsTxn};

use crate::keyword::{Keyword, Side};
use crate::recording::{FIRST_VERSION, RecordedTxn, Recording};
use itoa::Buffer;
use std::alloc::Global;
use ts_link::{NoMemory, Octets, Piece};

fn print_piece(out: &mut Vec<u8>, keyword: Keyword, piece: &[u8]) -> Result<(), NoMemory>
    ensures { OnOk result (PrintsPiece keyword piece.now out.old.items out.new.items) }
{
    let mut number = Buffer::new();
    out.extend_from_slice(keyword.spelling())?;
    out.extend_from_slice(number.format(piece.len()).as_bytes())?;
    out.push(b'\n')?;
    out.extend_from_slice(piece)?;
    out.push(b'\n')?;
    Ok(())
}

fn print_number(out: &mut Vec<u8>, keyword: Keyword, number: u64) -> Result<(), NoMemory>
    ensures { OnOk result (PrintsNumber keyword number out.old.items out.new.items) }
{
    let mut digits = Buffer::new();
    out.extend_from_slice(keyword.spelling())?;
    out.extend_from_slice(digits.format(number).as_bytes())?;
    out.push(b'\n')?;
    Ok(())
}

fn print_item(out: &mut Vec<u8>, side: Side, item: &Piece) -> Result<(), NoMemory>
    ensures { OnOk result (PrintsItem side item.now out.old.items out.new.items) }
{
    match item {
        Piece::Bytes(bytes) => print_piece(out, side.piece_keyword(), bytes.bytes()),
        Piece::Stall(reads) => print_number(out, side.stall_keyword(), u64::from(*reads)),
    }
}

fn print_items(out: &mut Vec<u8>, side: Side, items: &[Piece]) -> Result<(), NoMemory>
    ensures { OnOk result (PrintsItems side items.now out.old.items out.new.items) }
{
    for item in items {
        print_item(out, side, item)?;
    }
    Ok(())
}

// Prints how many bytes the client takes, where it leaves.
fn print_leave(out: &mut Vec<u8>, leave: Option<u64>) -> Result<(), NoMemory>
    ensures { OnOk result (PrintsLeave leave out.old.items out.new.items) }
{
    match leave {
        Some(most) => print_number(out, Keyword::Leave, most),
        None => Ok(()),
    }
}

fn print_txn(out: &mut Vec<u8>, txn: &RecordedTxn) -> Result<(), NoMemory>
    ensures { OnOk result (PrintsTxn txn.now out.old.items out.new.items) }
{
    out.extend_from_slice(Keyword::Txn.spelling())?;
    print_items(out, Side::Client, txn.client.as_slice())?;
    print_items(out, Side::Origin, txn.origin.as_slice())?;
    print_leave(out, txn.leave)?;
    out.extend_from_slice(Keyword::Close.spelling())?;
    Ok(())
}

// The first line of a recording of this version.
fn header_of(version: u8) -> Keyword
    ensures { result ≡ header_of version }
{
    if version == FIRST_VERSION {
        Keyword::HeaderOne
    } else {
        Keyword::HeaderTwo
    }
}

fn print_txns(alloc: Global, version: u8, txns: &[RecordedTxn]) -> Result<Vec<u8>, NoMemory>
    ensures { IfOk result (λ out. out.items ≡ text_of (contents version txns.now)) }
{
    let mut out = Vec::from_slice(alloc, header_of(version).spelling())?;
    for txn in txns {
        print_txn(&mut out, txn)?;
    }
    out.extend_from_slice(Keyword::End.spelling())?;
    Ok(out)
}

/// The text of a recording within its limits: of version 1, one without stalls whose clients do not leave.
pub fn print_recording(alloc: Global, recording: &Recording) -> Result<Octets, NoMemory>
    requires { KeepsLimits recording.now }
    ensures text { IfOk result (λ o. o ≡ text_of recording.now) }
    // So it is read as the same recording.
    ensures again { IfOk result (λ o. IsRecording o recording.now) }
{
    let out = print_txns(alloc, recording.version, recording.txns.as_slice())?;
    Ok(Octets::of_vec(out))
}
