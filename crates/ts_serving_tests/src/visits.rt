//! Clients that stall, and clients that leave at each byte of what they get.

use std::alloc::Global;
use ts_hooks::TxnEnd;
use ts_link::NoMemory;
use ts_mem_nets::links::{Side, Stalling, staying};
use ts_mem_nets::stated::{ABC_TAKEN, GET};
use ts_mem_nets::visit::{Visit, page};

/// A client that waits for so many reads once it gave so many bytes of its request.
pub fn late_at<'a>(stalls_at: usize, stall: u32) -> Visit<'a> {
    let client = Side::Stalling(Stalling {
        stalls_at,
        stall,
        ..staying(GET)
    });
    Visit { client, ..page() }
}

/// A client that waits for so many reads before it asks.
pub fn late<'a>(stall: u32) -> Visit<'a> {
    late_at(0, stall)
}

// A client that leaves when it took so many bytes of its page.
fn leaving<'a>(at: usize) -> Visit<'a> {
    let client = Side::Stalling(Stalling {
        leave: Some(at as u64),
        ..staying(GET)
    });
    let text: &[u8] = ABC_TAKEN;
    if at >= text.len() {
        return Visit { client, ..page() };
    }
    let (taken, _) = text.split_at(at);
    Visit {
        client,
        taken,
        end: TxnEnd::ClientFault,
        ..page()
    }
}

/// Clients that leave at each byte, and one that leaves behind the last.
pub fn all_leaving<'a>(alloc: Global) -> Result<Vec<Visit<'a>>, NoMemory> {
    let mut visits = Vec::new(alloc);
    for at in 0..=ABC_TAKEN.len() {
        visits.push(leaving(at))?;
    }
    Ok(visits)
}
