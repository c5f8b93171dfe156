//! What comes of an exchange between links in memory, as plain data.

use crate::exchange::{Asked, EndedTxn, Told, exchange, setting_of};
use crate::journals::last_moment;
use crate::judging::{check_block, judge, judge_front};
use crate::plan::{Plan, dripping, giving, link_of, origin_of};
use crate::refusal::Refusal;
use crate::row::{Finding, Row};
use std::alloc::Global;
use ts_hooks::TxnEnd;
use ts_journal::Journal;
use ts_link::MemLink;

/// What a test that wants memory says.
pub const MEMORY: &str = "ample memory";

/// What came of an exchange under the lines of a row.
#[derive(Clone, Copy, Debug, PartialEq, Eq)]
pub struct Seen {
    /// Whether both ends are as the row states.
    pub finding: Finding,
    /// Whether the client got a front of what the row states, however it ended.
    pub front: Finding,
    pub end: Option<TxnEnd>,
    /// What it told before it was driven.
    pub told: Option<Told>,
    pub asked: Asked,
    /// How many bytes the client took.
    pub taken: u64,
    /// In how many pieces the body was framed.
    pub pieces: usize,
    /// How often the client made its caller wait, and how often the origin.
    pub waits: (u64, u64),
    /// The moment of the last event.
    pub last: u64,
}

// How often a link made its caller wait, if there is one.
fn waits_of(link: &Option<MemLink>) -> u64 {
    match link {
        Some(link) => link.waits(),
        None => 0,
    }
}

// What is seen of what is left of an exchange.
fn seen_of(alloc: Global, row: &Row<'_>, ended: &EndedTxn) -> Result<Seen, Refusal> {
    let parts = &ended.parts;
    Ok(Seen {
        finding: judge(alloc, row, parts)?,
        front: judge_front(alloc, row, parts)?,
        end: parts.end,
        told: ended.told,
        asked: ended.asked,
        taken: parts.client.written().len() as u64,
        pieces: parts.cuts.len(),
        waits: (parts.client.waits(), waits_of(&parts.origin)),
        last: last_moment(ended.journal.entries()),
    })
}

// What is left of an exchange under the lines of a row, between the links of these plans.
fn ended_between(
    alloc: Global,
    row: &Row<'_>,
    client: &Plan<'_>,
    origin: Option<Plan<'_>>,
) -> Result<EndedTxn, Refusal> {
    let setting = setting_of(alloc, row.lines, row.file)?;
    let client = link_of(alloc, client)?;
    let origin = origin_of(alloc, origin)?;
    exchange(alloc, &setting, client, origin)
}

/// What comes of a row between the links of these plans.
pub fn run(
    alloc: Global,
    row: &Row<'_>,
    client: &Plan<'_>,
    origin: Option<Plan<'_>>,
) -> Result<Seen, Refusal> {
    let ended = ended_between(alloc, row, client, origin)?;
    seen_of(alloc, row, &ended)
}

/// The journal of the same.
pub fn journal_of(
    alloc: Global,
    row: &Row<'_>,
    client: &Plan<'_>,
    origin: Option<Plan<'_>>,
) -> Result<Journal, Refusal> {
    let EndedTxn { journal, .. } = ended_between(alloc, row, client, origin)?;
    Ok(journal)
}

/// Whether a row comes out as stated between the links of these plans.
pub fn check_between(
    alloc: Global,
    row: &Row<'_>,
    client: &Plan<'_>,
    origin: Option<Plan<'_>>,
) -> Result<Finding, Refusal> {
    let seen = run(alloc, row, client, origin)?;
    Ok(seen.finding)
}

/// Whether it ended so, and its client got a front of what the row states.
pub fn front_at(seen: &Seen, end: TxnEnd) -> Finding {
    if seen.end != Some(end) {
        return Finding::OtherEnd;
    }
    seen.front
}

/// Whether a row comes out as stated where the links give and take all at once, and its block is so.
pub fn check_at_once(alloc: Global, row: &Row<'_>) -> Result<Finding, Refusal> {
    let block = check_block(alloc, false, row)?;
    if block != Finding::AsStated {
        return Ok(block);
    }
    check_between(alloc, row, &giving(row.request), row.origin.map(giving))
}

/// Whether a row comes out as stated, both where the links give and take all at once and where each call of
/// them moves one byte, and its block is so.
pub fn check(alloc: Global, row: &Row<'_>) -> Result<Finding, Refusal> {
    let at_once = check_at_once(alloc, row)?;
    if at_once != Finding::AsStated {
        return Ok(at_once);
    }
    check_between(alloc, row, &dripping(row.request), row.origin.map(dripping))
}
