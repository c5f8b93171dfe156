//! A text is written into a sink, and how far a text or a chain got.
ghost use Rattle.std.specs.Prelude.{◌≡◌, true};
ghost use Rattle.ts_link.specs.Counts.{Counted};
ghost use Rattle.ts_proxy.specs.Sending.{WroteAll, is_failed, is_no_memory};

use ts_link::{Sink, Wrote};

/// How far a text or a chain got.
#[derive(Clone, Copy, Debug, PartialEq, Eq)]
pub enum SendEnd {
    Done,
    Failed,
    NoMemory,
}

/// Writes a text to its end, if nothing fails.
pub fn write_all<K: Sink>(out: &mut K, text: &[u8]) -> SendEnd
    ensures told { K.tells ≡ true → WroteAll result (K.seen out.old) (K.seen out.new) text.now }
    ensures faults { Counted (is_failed result) (K.seen out.old).faults (K.seen out.new).faults }
    ensures lacks { Counted (is_no_memory result) (K.seen out.old).lacks (K.seen out.new).lacks }
{
    let mut rest = text;
    while !rest.is_empty() {
        match out.write(rest) {
            Wrote::Took(count) => rest = rest.split_at(count).1,
            Wrote::Failed => return SendEnd::Failed,
            Wrote::NoMemory => return SendEnd::NoMemory,
        }
    }
    SendEnd::Done
}
