//! The command `generate`: a recording is made of three numbers and run on event threads under one
//! configuration, and the summary of what its transactions came to is written. It reads no file.
ghost use Rattle.std.specs.Prelude.{◌≡◌, ◌≤◌, IfOk};
ghost use Rattle.ts_config.specs.Setup.{lines_of};
ghost use Rattle.ts_proxy.specs.Outcome.{Summary};
ghost use Rattle.ts_proxy.specs.Performed.{AreOfThreads, IsCarriedOut};
ghost use Rattle.ts_proxy.specs.Summary.{fixed_lines, txns_of};
ghost use Rattle.ts_proxy.specs.declared.command.GenerateTask.{GenerateTask};
ghost use Rattle.ts_record.specs.declared.recording.TheConstants.{MOST_TXNS};
ghost use Rattle.ts_replay.specs.Replayed.{IsReplayed};

use crate::answer::{Answer, Performed};
use crate::command::GenerateTask;
use crate::summary::summarize;
use crate::threaded::{performed_after, run_txns};
use crate::writing::write_all;
use std::alloc::Global;
use std::sync::Wait;
use std::thread::Threads;
use ts_config::{Setup, TransformLine};
use ts_link::{Gate, NoMemory, Octets, Sink};
use ts_record::generate;
use ts_replay::Replayed;

// On how many event threads the transactions run.
const THREADS: u32 = 4;

// The configuration:
// null_transform.so
// map.so a A
// drop.so q
// bnull_transform.so
// prepend.so <
fn fixed_setup(alloc: Global) -> Result<Setup, NoMemory>
    ensures { IfOk result (λ setup. lines_of setup ≡ fixed_lines) }
{
    let text = Octets::copy_of(alloc, b"<")?;
    let mut transforms = Vec::with_capacity(alloc, 5)?;
    transforms.push(TransformLine::Null)?;
    transforms.push(TransformLine::Map {
        from: b'a',
        to: b'A',
    })?;
    transforms.push(TransformLine::Drop { byte: b'q' })?;
    transforms.push(TransformLine::Bnull)?;
    transforms.push(TransformLine::Prepend { text })?;
    Ok(Setup {
        transforms,
        requests: Vec::new(alloc),
        intercepts: Vec::new(alloc),
        plugins: Vec::new(alloc),
        tap: None,
        files: Vec::new(alloc),
    })
}

// Makes the recording that the numbers stand for, and runs it. It is held once: its pieces become the links
// of the transactions.
fn run_generated<G: Gate + Sync, R: Threads + Wait + Sync>(
    rt: &R,
    alloc: Global,
    numbers: GenerateTask,
    gate: &G,
) -> Result<Replayed, NoMemory>
    requires { numbers.count ≤ MOST_TXNS }
    ensures { IfOk result (IsReplayed fixed_lines (txns_of numbers)) }
{
    let setup = fixed_setup(alloc)?;
    let recording = generate(alloc, numbers.seed, numbers.count, numbers.size)?;
    run_txns(rt, alloc, setup, recording.txns, THREADS, gate)
}

// Writes the summary of transactions that were run.
fn send_summary<K: Sink>(alloc: Global, replayed: Replayed, out: &mut K) -> Performed
    ensures { (n : GenerateTask) → IsReplayed fixed_lines (txns_of n) replayed →
        IsCarriedOut AreOfThreads (Summary n) K.tells (K.seen out.old) (K.seen out.new)
        result.answer result.journals.items }
{
    let Ok(text) = summarize(alloc, replayed.blocks.as_slice()) else {
        return Performed::without(alloc, Answer::OutOfMemory);
    };
    let end = write_all(out, text.as_slice());
    performed_after(alloc, end, replayed.journals)
}

/// Makes the recording that the numbers stand for, runs it on four event threads, which pass the gate, and
/// writes the summary.
pub fn perform_generate<K: Sink, G: Gate + Sync, R: Threads + Wait + Sync>(
    rt: &R,
    alloc: Global,
    numbers: GenerateTask,
    out: &mut K,
    gate: &G,
) -> Performed
    requires { numbers.count ≤ MOST_TXNS }
    ensures { IsCarriedOut AreOfThreads (Summary numbers) K.tells (K.seen out.old) (K.seen out.new)
        result.answer result.journals.items }
{
    let Ok(replayed) = run_generated(rt, alloc, numbers, gate) else {
        return Performed::without(alloc, Answer::OutOfMemory);
    };
    send_summary(alloc, replayed, out)
}
