//! What is handed over of a transaction that has ended.

use crate::making::TxnParts;
use ts_hooks::TxnEnd;
use ts_journal::Journal;

/// What is left of a transaction, and the journal of its group.
#[derive(Drop)]
pub struct Retired<C, O> {
    pub parts: TxnParts<C, O>,
    pub journal: Journal,
}

/// What is left of a transaction after which its client goes on.
#[derive(Drop)]
pub struct Noted<O> {
    /// The number that it was made with.
    pub number: u64,
    /// Its place among the transactions of its client, counted from 1.
    pub place: u32,
    /// The origin's link, if there is one.
    pub origin: Option<O>,
    /// The lengths of the pieces of body that were framed, in bytes.
    pub cuts: Vec<u32>,
    /// How the transaction ended, if it has.
    pub end: Option<TxnEnd>,
    pub journal: Journal,
}
