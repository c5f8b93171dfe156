//! The report on transactions that were run goes out block by block, so that the whole of it stands nowhere.
ghost use Rattle.std.specs.Prelude.{◌≡◌, ◌++◌, true};
ghost use Rattle.ts_link.specs.Counts.{Counted};
ghost use Rattle.ts_proxy.specs.Sending.{IsSent, WroteSome, is_failed};
ghost use Rattle.ts_record.specs.Report.{AreReported, IsReported, block_text, report_text};

use crate::writing::{SendEnd, write_all};
use std::alloc::Global;
use std::collections::VecDeque;
use ts_link::Sink;
use ts_record::{REPORT_END, ReportBlock, add_block, begin_report};

// Lines are gathered until they have so many bytes, so that small blocks share a write.
const LEAST_WRITTEN: usize = 65_536;

// Gathers the lines on one block more, and writes all that was gathered where that is much.
fn send_block<K: Sink>(
    out: &mut K,
    lines: &mut Vec<u8>,
    number: u64,
    block: &ReportBlock,
) -> SendEnd
    requires { IsReported block.now.end }
    ensures told { K.tells ≡ true → WroteSome result (K.seen out.old) (K.seen out.new)
        (lines.old.items ++ block_text number block.now) lines.new.items }
    ensures faults { Counted (is_failed result) (K.seen out.old).faults (K.seen out.new).faults }
{
    let Ok(()) = add_block(lines, number, block) else {
        return SendEnd::NoMemory;
    };
    if lines.len() < LEAST_WRITTEN {
        return SendEnd::Done;
    }
    let end = write_all(out, lines.as_slice());
    lines.clear();
    end
}

/// Writes the report on the transactions of a recording of this version that came to these blocks, in their
/// order. Of its text there are at no time more than the lines on one block and 65,536 bytes in front of them.
/// A block is let go once its lines are made. Where memory lacks for those of a later one, a front of the
/// report may have been written.
pub fn write_report<K: Sink>(
    alloc: Global,
    version: u8,
    blocks: Vec<ReportBlock>,
    out: &mut K,
) -> SendEnd
    requires { AreReported blocks.items }
    ensures { IsSent result K.tells (K.seen out.old) (K.seen out.new) (report_text version blocks.items) }
{
    let Ok(mut lines) = begin_report(alloc, version) else {
        return SendEnd::NoMemory;
    };
    let mut rest = VecDeque::from_vec(blocks);
    let mut number = 0;
    'report: while let Some(block) = rest.pop_front() {
        number += 1;
        match send_block(out, &mut lines, number, &block) {
            SendEnd::Done => {}
            SendEnd::Failed => return SendEnd::Failed,
            SendEnd::NoMemory => return SendEnd::NoMemory,
        }
    }
    let Ok(()) = lines.extend_from_slice(REPORT_END) else {
        return SendEnd::NoMemory;
    };
    write_all(out, lines.as_slice())
}
