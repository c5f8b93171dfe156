//! What a command is to leave, and whether it does.

use crate::command::Remains;

/// What a command is to leave: its status, what out and err took, and how many journals.
#[derive(Clone, Copy)]
pub struct Wanted<'a> {
    pub status: u8,
    pub out: &'a [u8],
    pub err: &'a [u8],
    pub journals: usize,
}

/// What a command is to leave that writes this text, with so many journals.
pub fn done(text: &[u8], journals: usize) -> Wanted<'_> {
    Wanted {
        status: 0,
        out: text,
        err: b"",
        journals,
    }
}

/// What a command is to leave that writes nothing: its status, and its line.
pub fn stopped(status: u8, line: &[u8]) -> Wanted<'_> {
    Wanted {
        status,
        out: b"",
        err: line,
        journals: 0,
    }
}

/// What came of a command or a row: as it is stated, or the first that is other.
#[derive(Clone, Copy, Debug, PartialEq, Eq)]
pub enum Comparison {
    AsStated,
    OtherStatus,
    OtherText,
    OtherLine,
    OtherJournals,
}

/// Whether a command left what it is to leave, with each journal at rest.
pub fn compare(left: &Remains, wanted: &Wanted<'_>) -> Comparison {
    if left.status != wanted.status {
        return Comparison::OtherStatus;
    }
    if left.out.written() != wanted.out {
        return Comparison::OtherText;
    }
    if left.err.written() != wanted.err {
        return Comparison::OtherLine;
    }
    for journal in left.journals.as_slice() {
        if journal.is_held() || !journal.pending().is_empty() {
            return Comparison::OtherJournals;
        }
    }
    if left.journals.len() != wanted.journals {
        return Comparison::OtherJournals;
    }
    Comparison::AsStated
}
