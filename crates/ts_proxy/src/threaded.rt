//! What `replay` and `generate` share: transactions are run on event threads, and what comes of them where a
//! text on them was written.
ghost use Rattle.std.specs.Prelude.{◌<◌, ◌≤◌, Bool, List, ℕ, length, IfOk};
ghost use Rattle.ts_config.specs.Setup.{lines_of};
ghost use Rattle.ts_proxy.specs.Outcome.{Outcome};
ghost use Rattle.ts_link.specs.Seen.{SinkSeen};
ghost use Rattle.ts_proxy.specs.Performed.{AreOfThreads, IsCarriedOut, IsRunTo};
ghost use Rattle.ts_proxy.specs.Sending.{IsSent};
ghost use Rattle.ts_record.specs.declared.recording.TheConstants.{MOST_TXNS};
ghost use Rattle.ts_replay.specs.Recorded.{AllTakeSome, HasPlainLines};
ghost use Rattle.ts_replay.specs.Replayed.{IsReplayed};
ghost use Rattle.ts_thread.specs.declared.TheConstants.{MOST_THREADS};

use crate::answer::{Answer, Performed};
use crate::writing::SendEnd;
use std::alloc::Global;
use std::sync::Wait;
use std::thread::Threads;
use ts_config::Setup;
use ts_journal::Journal;
use ts_link::{Gate, NoMemory};
use ts_record::RecordedTxn;
use ts_replay::{ReplayFault, Replayed};

/// Runs transactions under the lines of a configuration on so many event threads, which pass the gate. A
/// client that leaves takes at least one byte before. Where a group had all the turns that it gets, it
/// answers as where memory lacks.
pub fn run_txns<G: Gate + Sync, R: Threads + Wait + Sync>(
    rt: &R,
    alloc: Global,
    setup: Setup,
    txns: Vec<RecordedTxn>,
    threads: u32,
    gate: &G,
) -> Result<Replayed, NoMemory>
    requires lines { HasPlainLines setup }
    requires txns { length txns.items ≤ MOST_TXNS }
    requires leaves { AllTakeSome txns.items }
    requires threads { (0 < threads) × (threads ≤ MOST_THREADS) }
    ensures { IfOk result (IsReplayed (lines_of setup) txns.items) }
{
    match ts_replay::replay(rt, alloc, setup, txns, threads, gate) {
        Ok(replayed) => Ok(replayed),
        Err(ReplayFault::NoMemory) => Err(NoMemory),
        Err(ReplayFault::Worn) => Err(NoMemory),
    }
}

/// What a job came to whose text got so far into a sink. Where all of it was taken, the job is done, and the
/// journals of its groups are left.
pub fn performed_after(alloc: Global, end: SendEnd, journals: Vec<Journal>) -> Performed
    ensures { (o : Outcome) (text : List ℕ) (tells : Bool) (old new : SinkSeen)
        → IsRunTo o text journals.items → IsSent end tells old new text
        → IsCarriedOut AreOfThreads o tells old new result.answer result.journals.items }
{
    match end {
        SendEnd::Done => Performed {
            answer: Answer::Done,
            journals,
        },
        SendEnd::Failed => Performed::without(alloc, Answer::CannotWrite),
        SendEnd::NoMemory => Performed::without(alloc, Answer::OutOfMemory),
    }
}
