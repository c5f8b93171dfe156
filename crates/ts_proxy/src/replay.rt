//! The command `replay`: the transactions of a recording are run on event threads, and the report on them is
//! written.
ghost use Rattle.std.specs.Prelude.{◌<◌, ◌≤◌, ℕ, List, IfErr, IfOk};
ghost use Rattle.ts_config.specs.Setup.{ConfigLines, lines_of};
ghost use Rattle.ts_proxy.specs.Answers.{IsOfRunning};
ghost use Rattle.ts_proxy.specs.Outcome.{Report};
ghost use Rattle.ts_proxy.specs.Performed.{AreOfThreads, IsCarriedOut, IsPerformed, IsReplayIn};
ghost use Rattle.ts_proxy.specs.Words.{Over, Replay};
ghost use Rattle.ts_record.specs.Grammar.{IsRecording};
ghost use Rattle.ts_record.specs.Report.{AreReported};
ghost use Rattle.ts_replay.specs.Recorded.{HasPlainLines};
ghost use Rattle.ts_thread.specs.declared.TheConstants.{MOST_THREADS};

use crate::answer::{Answer, Performed};
use crate::command::ReplayTask;
use crate::reading::{Files, read_files};
use crate::report::write_report;
use crate::threaded::{performed_after, run_txns};
use std::alloc::Global;
use std::sync::Wait;
use std::thread::Threads;
use ts_config::Setup;
use ts_link::{Gate, NoMemory, Octets, Shelf, Sink};
use ts_record::{Recording, RecordingRefusal, read_recording};
use ts_replay::Replayed;

// What a recording came to that was run, and its version, which the report names.
#[derive(Drop)]
struct RanRecording {
    version: u8,
    replayed: Replayed,
}

// The recording in these bytes.
fn read_contents(alloc: Global, bytes: Octets) -> Result<Recording, Answer>
    ensures recording { IfOk result (IsRecording bytes) }
    ensures refusal { IfErr result (IsOfRunning bytes) }
{
    match read_recording(alloc, bytes.bytes()) {
        Ok(recording) => Ok(recording),
        Err(RecordingRefusal::Fault { offset }) => Err(Answer::BadRecording { offset }),
        Err(RecordingRefusal::NoMemory) => Err(Answer::OutOfMemory),
    }
}

// Runs the transactions of the recording in these bytes under the lines of a configuration.
#[tactic(auto, using(crate::proofs::Performing::all_take_some))]
fn run_recording<G: Gate + Sync, R: Threads + Wait + Sync>(
    rt: &R,
    alloc: Global,
    setup: Setup,
    bytes: Octets,
    threads: u32,
    gate: &G,
) -> Result<RanRecording, Answer>
    requires lines { HasPlainLines setup }
    requires threads { (0 < threads) × (threads ≤ MOST_THREADS) }
    ensures replayed { IfOk result (λ ran. IsReplayIn (lines_of setup) bytes ran.version ran.replayed) }
    ensures refusal { IfErr result (IsOfRunning bytes) }
{
    let Recording { version, txns } = match read_contents(alloc, bytes) {
        Ok(recording) => recording,
        Err(answer) => return Err(answer),
    };
    match run_txns(rt, alloc, setup, txns, threads, gate) {
        Ok(replayed) => Ok(RanRecording { version, replayed }),
        Err(NoMemory) => Err(Answer::OutOfMemory),
    }
}

// Writes the report on a recording that was run. The journals are left.
fn send_report<K: Sink>(alloc: Global, ran: RanRecording, out: &mut K) -> Performed
    requires reported { AreReported ran.replayed.blocks.items }
    ensures { (lines : ConfigLines) (bytes : List ℕ) → IsReplayIn lines bytes ran.version ran.replayed →
        IsCarriedOut AreOfThreads (Report lines bytes) K.tells (K.seen out.old) (K.seen out.new)
        result.answer result.journals.items }
{
    let RanRecording { version, replayed } = ran;
    let Replayed { blocks, journals } = replayed;
    let end = write_report(alloc, version, blocks, out);
    performed_after(alloc, end, journals)
}

/// Runs a recording under the lines of a configuration, both of which the shelf has under these names, on so
/// many event threads, which pass the gate, and writes the report.
pub fn perform_replay<S: Shelf, K: Sink, G: Gate + Sync, R: Threads + Wait + Sync>(
    rt: &R,
    alloc: Global,
    task: &ReplayTask<'_>,
    shelf: &mut S,
    out: &mut K,
    gate: &G,
) -> Performed
    requires threads { (0 < task.now.threads) × (task.now.threads ≤ MOST_THREADS) }
    ensures { IsPerformed (Over Replay task.now.config.now task.now.recording.now)
        S.tells K.tells (S.seen shelf.old) (S.seen shelf.new) (K.seen out.old) (K.seen out.new)
        result.answer result.journals.items }
{
    let Files { setup, input } = match read_files(alloc, shelf, task.config, task.recording) {
        Ok(files) => files,
        Err(answer) => return Performed::without(alloc, answer),
    };
    match run_recording(rt, alloc, setup, input, task.threads, gate) {
        Ok(ran) => send_report(alloc, ran, out),
        Err(answer) => Performed::without(alloc, answer),
    }
}
