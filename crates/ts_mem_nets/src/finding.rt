//! Whether what is left of the clients of a net is what is stated of them.

use crate::visit::Visit;
use std::alloc::Global;
use ts_hooks::TxnEnd;
use ts_link::{MemLink, NoMemory};
use ts_txn::Retired;

/// What came of the clients of a net: all as it is stated, or the first that is other.
#[derive(Clone, Copy, Debug, PartialEq, Eq)]
pub enum Finding {
    AsStated,
    /// Another number of transactions was handed over.
    OtherCount,
    /// The transaction of a client was not handed over, or more than once.
    OtherNumber,
    OtherEnd,
    /// The origin got another request, or was reached where it is not to be.
    OtherRequest,
    OtherText,
    /// Memory lacked.
    Lacks,
}

// Writes pieces of data as chunks: the size of each in hexadecimal, and its bytes. Answers whether these are
// all of the data.
fn write_chunks(
    alloc: Global,
    text: &mut Vec<u8>,
    data: &[u8],
    cuts: &[u32],
) -> Result<bool, NoMemory> {
    let mut rest = data;
    for cut in cuts {
        let cut = *cut as usize;
        if cut == 0 || cut > rest.len() {
            return Ok(false);
        }
        let (piece, behind) = rest.split_at(cut);
        let size = format!(in alloc; "{cut:x}\r\n")?;
        text.extend_from_slice(size.as_bytes())?;
        text.extend_from_slice(piece)?;
        text.extend_from_slice(b"\r\n")?;
        rest = behind;
    }
    Ok(rest.is_empty())
}

// What a client gets whose body is sent in these pieces, if they are pieces of it.
fn text_of(alloc: Global, visit: &Visit<'_>, cuts: &[u32]) -> Result<Option<Vec<u8>>, NoMemory> {
    let mut text = Vec::from_slice(alloc, visit.taken)?;
    if let Some(data) = visit.chunks {
        if !write_chunks(alloc, &mut text, data, cuts)? {
            return Ok(None);
        }
        text.extend_from_slice(b"0\r\n\r\n")?;
    }
    Ok(Some(text))
}

// What the origin of a client got.
fn sent_to(origin: &Option<MemLink>) -> &[u8] {
    match origin {
        Some(link) => link.written(),
        None => b"",
    }
}

// Whether what is left of a transaction is as its client states.
fn judge_one(
    alloc: Global,
    visit: &Visit<'_>,
    retired: &Retired<MemLink, MemLink>,
) -> Result<Finding, NoMemory> {
    let parts = &retired.parts;
    if parts.end == Some(TxnEnd::NoMemory) {
        return Ok(Finding::Lacks);
    }
    if parts.end != Some(visit.end) {
        return Ok(Finding::OtherEnd);
    }
    if parts.origin.is_some() != visit.origin.is_some() || sent_to(&parts.origin) != visit.sent {
        return Ok(Finding::OtherRequest);
    }
    let Some(text) = text_of(alloc, visit, parts.cuts.as_slice())? else {
        return Ok(Finding::OtherText);
    };
    if parts.client.written() != text.as_slice() {
        return Ok(Finding::OtherText);
    }
    Ok(Finding::AsStated)
}

// What is left of the only transaction of this number, if there is one and no other.
fn only_one<'a>(
    retired: &'a [Retired<MemLink, MemLink>],
    number: u64,
) -> Option<&'a Retired<MemLink, MemLink>> {
    let mut found = None;
    for one in retired {
        if one.parts.number == number {
            if found.is_some() {
                return None;
            }
            found = Some(one);
        }
    }
    found
}

/// Whether a net was handed one transaction for each of these clients but the one of this number, if it is
/// told, as they state.
pub fn judge_but(
    alloc: Global,
    visits: &[Visit<'_>],
    dropped: Option<u64>,
    retired: &[Retired<MemLink, MemLink>],
) -> Result<Finding, NoMemory> {
    let mut number: u64 = 0;
    for visit in visits {
        number = number.saturating_add(1);
        if dropped == Some(number) {
            continue;
        }
        let Some(one) = only_one(retired, number) else {
            return Ok(Finding::OtherNumber);
        };
        let finding = judge_one(alloc, visit, one)?;
        if finding != Finding::AsStated {
            return Ok(finding);
        }
    }
    Ok(Finding::AsStated)
}

/// Whether a net was handed one transaction for each of the first so many clients, as they state, and no
/// other.
pub fn judge(
    alloc: Global,
    visits: &[Visit<'_>],
    came: usize,
    retired: &[Retired<MemLink, MemLink>],
) -> Result<Finding, NoMemory> {
    if retired.len() != came {
        return Ok(Finding::OtherCount);
    }
    let (first, _) = visits.split_at(came.min(visits.len()));
    judge_but(alloc, first, None, retired)
}
