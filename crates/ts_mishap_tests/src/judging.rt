//! What is left of a transaction, and the block of all bytes, held against what a row states.

use crate::exchange::{NUMBER, setup_of};
use crate::refusal::Refusal;
use crate::row::{Finding, Row};
use crate::stated::text_of;
use std::alloc::Global;
use ts_hooks::TxnEnd;
use ts_link::MemLink;
use ts_txn::{Block, TxnParts, block_of};

// What the origin got.
fn request_of(origin: &Option<MemLink>) -> &[u8] {
    match origin {
        Some(link) => link.written(),
        None => b"",
    }
}

// The text that the client of a row gets in these pieces, if they are pieces of its body.
fn stated_text(
    alloc: Global,
    row: &Row<'_>,
    cuts: &[u32],
    ended: bool,
) -> Result<Option<Vec<u8>>, Refusal> {
    text_of(alloc, row.head, row.mode, row.body, cuts, ended)
}

/// Whether a transaction came out as the row states.
pub fn judge(
    alloc: Global,
    row: &Row<'_>,
    parts: &TxnParts<MemLink, MemLink>,
) -> Result<Finding, Refusal> {
    if parts.end != Some(row.end) {
        return Ok(Finding::OtherEnd);
    }
    if parts.number != NUMBER {
        return Ok(Finding::OtherNumber);
    }
    if request_of(&parts.origin) != row.sent {
        return Ok(Finding::OtherRequest);
    }
    if parts.head != row.head.len() as u64 || parts.mode != row.mode {
        return Ok(Finding::OtherHead);
    }
    let whole = row.end == TxnEnd::Whole;
    let Some(text) = stated_text(alloc, row, parts.cuts.as_slice(), whole)? else {
        return Ok(Finding::OtherPieces);
    };
    if parts.client.written() != text.as_slice() {
        return Ok(Finding::OtherText);
    }
    Ok(judge_length(row, parts.cuts.as_slice()))
}

// Whether the pieces of a body are all that the client gets at least: of one that ends whole all of it.
fn judge_length(row: &Row<'_>, cuts: &[u32]) -> Finding {
    let mut sum: u64 = 0;
    for cut in cuts {
        sum = sum.saturating_add(u64::from(*cut));
    }
    let least = match row.end {
        TxnEnd::Whole => row.body.len(),
        _ => row.least,
    };
    if sum < least as u64 {
        return Finding::OtherPieces;
    }
    Finding::AsStated
}

/// Whether a client got a front of what the row states, however the transaction ended.
pub fn judge_front(
    alloc: Global,
    row: &Row<'_>,
    parts: &TxnParts<MemLink, MemLink>,
) -> Result<Finding, Refusal> {
    let Some(text) = stated_text(alloc, row, parts.cuts.as_slice(), true)? else {
        return Ok(Finding::OtherPieces);
    };
    if !text.as_slice().starts_with(parts.client.written()) {
        return Ok(Finding::OtherText);
    }
    Ok(Finding::AsStated)
}

// Whether a block is as the row states. That of an exchange that does not end whole has no body.
fn judge_block(row: &Row<'_>, block: &Block) -> Finding {
    let body: &[u8] = match row.end {
        TxnEnd::Whole => row.body,
        _ => b"",
    };
    let ends = block.end == row.end && block.request.bytes() == row.sent;
    let answers = block.head.bytes() == row.head && block.mode == row.mode;
    if ends && answers && block.body.bytes() == body {
        return Finding::AsStated;
    }
    Finding::OtherBlock
}

/// Whether the block of all bytes that the links of a row give is as it states, under the setup of its lines,
/// where the origin takes the upload or refuses it.
pub fn check_block(alloc: Global, refuses: bool, row: &Row<'_>) -> Result<Finding, Refusal> {
    let setup = setup_of(alloc, row.lines, row.file)?;
    let (dialed, gives) = (row.origin.is_some(), row.origin.unwrap_or(b""));
    let block = block_of(alloc, &setup, row.request, dialed, refuses, gives)?;
    Ok(judge_block(row, &block))
}
