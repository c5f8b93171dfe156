//! The summary of transactions that were run: how many, how many ended whole, and their bodies by length and
//! sum.
ghost use Rattle.std.specs.Prelude.{◌≡◌, ◌≤◌, ◌++◌, IfOk, OnOk};
ghost use Rattle.ts_proxy.specs.Summary.{number_line, summary_of, summary_text, whole_once};

use itoa::Buffer;
use std::alloc::Global;
use ts_hooks::TxnEnd;
use ts_link::NoMemory;
use ts_record::{ReportBlock, sum_of};

/// What is said of transactions that were run.
#[derive(Clone, Copy)]
pub struct Summary {
    pub transactions: u64,
    /// How many of them ended whole.
    pub whole: u64,
    /// How many bytes their bodies have, without framing.
    pub body: u64,
    /// The sum of these bytes: of each it is 31 times the sum before and the byte, modulo 2^64.
    pub sum: u64,
}

// One for a transaction that ended whole, and else none.
fn whole_once(end: TxnEnd) -> u64
    ensures count { result ≡ whole_once end }
    ensures most { result ≤ 1 }
{
    match end {
        TxnEnd::Whole => 1,
        _ => 0,
    }
}

// The summary of transactions that came to these blocks. Bodies of more bytes than 64 bits count are answered
// as want of memory.
fn summary_of(blocks: &[ReportBlock]) -> Result<Summary, NoMemory>
    ensures { IfOk result (λ s. s ≡ summary_of blocks.now) }
{
    let mut whole = 0;
    let mut body: u64 = 0;
    let mut sum = 0;
    for block in blocks {
        let content = block.content.bytes();
        let Some(longer) = body.checked_add(content.len() as u64) else {
            return Err(NoMemory);
        };
        body = longer;
        whole += whole_once(block.end);
        sum = sum_of(sum, content);
    }
    Ok(Summary {
        transactions: blocks.len() as u64,
        whole,
        body,
        sum,
    })
}

// Adds a line of a word and a number.
fn add_number(text: &mut Vec<u8>, word: &[u8], number: u64) -> Result<(), NoMemory>
    ensures { OnOk result (text.new.items ≡ text.old.items ++ number_line word.now number) }
{
    let mut digits = Buffer::new();
    text.extend_from_slice(word)?;
    text.extend_from_slice(digits.format(number).as_bytes())?;
    text.push(b'\n')?;
    Ok(())
}

// The lines of a summary.
fn summary_text(alloc: Global, summary: Summary) -> Result<Vec<u8>, NoMemory>
    ensures { IfOk result (λ text. text.items ≡ summary_text summary) }
{
    let mut text = Vec::new(alloc);
    add_number(&mut text, b"transactions ", summary.transactions)?;
    add_number(&mut text, b"whole ", summary.whole)?;
    add_number(&mut text, b"body ", summary.body)?;
    add_number(&mut text, b"sum ", summary.sum)?;
    Ok(text)
}

/// The text of the summary of transactions that came to these blocks.
pub fn summarize(alloc: Global, blocks: &[ReportBlock]) -> Result<Vec<u8>, NoMemory>
    ensures { IfOk result (λ text. text.items ≡ summary_text (summary_of blocks.now)) }
{
    let summary = summary_of(blocks)?;
    summary_text(alloc, summary)
}
