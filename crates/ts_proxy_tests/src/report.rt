//! Reports as texts, made of what is stated of each transaction.

use crate::parts::{add_number, add_part};
use std::alloc::Global;
use ts_link::NoMemory;

/// How a transaction ends: with a whole answer, whose body this is, or with a front of one.
#[derive(Clone, Copy)]
pub enum StatedEnd<'a> {
    Whole(&'a [u8]),
    Cut,
    Bad,
}

/// What is stated of a transaction: the head that the origin got, empty where it got none, the head that the
/// client got, and how it ended.
#[derive(Clone, Copy)]
pub struct Stated<'a> {
    pub request: &'a [u8],
    pub head: &'a [u8],
    pub came: StatedEnd<'a>,
}

// Adds what is stated of the transaction of this number.
fn add_stated(text: &mut Vec<u8>, number: usize, stated: &Stated<'_>) -> Result<(), NoMemory> {
    add_number(text, b"txn ", number)?;
    add_part(text, b"request ", stated.request)?;
    let end: &[u8] = match stated.came {
        StatedEnd::Whole(_) => b"end whole\n",
        StatedEnd::Cut => b"end cut\n",
        StatedEnd::Bad => b"end bad\n",
    };
    text.extend_from_slice(end)?;
    add_part(text, b"head ", stated.head)?;
    if let StatedEnd::Whole(body) = stated.came {
        add_part(text, b"body ", body)?;
    }
    Ok(())
}

/// The report in which this is stated of the transactions, in their order.
pub fn report_of(alloc: Global, all: &[Stated<'_>]) -> Result<Vec<u8>, NoMemory> {
    let mut text = Vec::from_slice(alloc, b"tsx-report 1\n")?;
    for (place, stated) in all.iter().enumerate() {
        add_stated(&mut text, place.saturating_add(1), stated)?;
    }
    text.extend_from_slice(b"done\n")?;
    Ok(text)
}
