//! What the words after the program's name ask for: the command, its files by name or its numbers, and the
//! number of threads.
ghost use Rattle.std.specs.Prelude.{◌≡◌, ◌≤◌, ◌<◌, None, Some, true, false, option_map, IfOk, IfSome, MatchOption, OnErr};
ghost use Rattle.ts_proxy.specs.Words.{IsInLimits, Over, Serve, Transform, begins_serve, begins_transform, config_in, generate_asked};
ghost use Rattle.ts_proxy.specs.Words.{generate_of, input_in, ordered_task, task_of, threaded_task, threads_asked, threads_of};
ghost use Rattle.ts_proxy.specs.Words.{word_bytes};
ghost use Rattle.ts_record.specs.declared.recording.TheConstants.{MOST_TXNS};
ghost use Rattle.ts_thread.specs.declared.TheConstants.{MOST_THREADS};
ghost use Rattle.ts_words.specs.Serve.{serve_asked};

use crate::number::number_of;
use std::alloc::Global;
use ts_link::NoMemory;
use ts_record::MOST_TXNS;
use ts_thread::MOST_THREADS;
use ts_words::{ServeTask, serve_task};

// The most bytes that a body of `generate` may have.
const MOST_SIZE: u64 = 1_048_576;

// How many bytes are counted for each transaction of `generate` beside its body.
const TXN_ROOM: u64 = 1_024;

// The most bytes that are counted for all of them.
const MOST_MADE: u64 = 67_108_864;

/// How `transform` is asked for, with its files by name.
#[derive(Clone, Copy)]
pub struct TransformTask<'a> {
    pub config: &'a str,
    pub body: &'a str,
}

/// How `replay` is asked for, with its files by name.
#[derive(Clone, Copy)]
pub struct ReplayTask<'a> {
    pub threads: u32,
    pub config: &'a str,
    pub recording: &'a str,
}

/// How `generate` is asked for: the seed of its recording, how many transactions that has, and how many bytes
/// a body has at most.
#[derive(Clone, Copy)]
pub struct GenerateTask {
    pub seed: u64,
    pub count: u32,
    pub size: u32,
}

/// How a command is asked for that runs event threads.
#[derive(Clone, Copy)]
pub enum ThreadedTask<'a> {
    Replay(ReplayTask<'a>),
    Generate(GenerateTask),
    Serve(ServeTask<'a>),
}

/// Whether the first word is `transform`.
pub fn begins_transform(words: &[String]) -> bool
    ensures { result ≡ begins_transform (word_bytes words.now) }
{
    match words {
        [word, ..] => word.as_str() == "transform",
        [] => false,
    }
}

/// How `transform` is asked for, if words that begin with it are of that command.
#[tactic(auto, using(crate::proofs::Words::transform_ordered))]
pub fn transform_task(words: &[String]) -> Option<TransformTask<'_>>
    requires { begins_transform (word_bytes words.now) ≡ true }
    ensures { MatchOption result (task_of words.now ≡ None) (λ task. task_of words.now ≡
        Some (Over Transform task.config.now task.body.now)) }
{
    match words {
        [_, config, body] => Some(TransformTask {
            config: config.as_str(),
            body: body.as_str(),
        }),
        _ => None,
    }
}

// The number of threads that a word stands for.
fn threads_of(word: &str) -> Option<u32>
    ensures number { result ≡ threads_of word.now }
    ensures range { IfSome result (λ n. (0 < n) × (n ≤ MOST_THREADS)) }
{
    let threads = number_of(word, u64::from(MOST_THREADS))?;
    if threads == 0 {
        return None;
    }
    Some(threads as u32)
}

// The number of threads of words that begin with these three, if they are of `replay`.
fn threads_asked(word: &str, option: &str, number: &str) -> Option<u32>
    ensures number { result ≡ threads_asked word.now option.now number.now }
    ensures range { IfSome result (λ n. (0 < n) × (n ≤ MOST_THREADS)) }
{
    if word == "replay" && option == "--threads" {
        threads_of(number)
    } else {
        None
    }
}

// The numbers that three words stand for, if they are within their limits.
fn generate_of(seed: &str, count: &str, size: &str) -> Option<GenerateTask>
    ensures numbers { result ≡ generate_of seed.now count.now size.now }
    ensures most { IfSome result (λ n. n.count ≤ MOST_TXNS) }
{
    let seed = number_of(seed, u64::MAX)?;
    let count = number_of(count, MOST_TXNS as u64)?;
    let size = number_of(size, MOST_SIZE)?;
    if count == 0 {
        return None;
    }
    if count * (size + TXN_ROOM) > MOST_MADE {
        return None;
    }
    Some(GenerateTask {
        seed,
        count: count as u32,
        size: size as u32,
    })
}

// The numbers of four words, if they are of `generate`.
fn generate_asked(word: &str, seed: &str, count: &str, size: &str) -> Option<GenerateTask>
    ensures numbers { result ≡ generate_asked word.now seed.now count.now size.now }
    ensures most { IfSome result (λ n. n.count ≤ MOST_TXNS) }
{
    if word == "generate" {
        generate_of(seed, count, size)
    } else {
        None
    }
}

// What words in a fixed order ask for that don't begin with `transform`, if they are of a command. `replay`
// is asked for on one thread where they name no number.
#[tactic(auto, using(crate::proofs::Words::none_other))]
fn ordered_task(words: &[String]) -> Option<ThreadedTask<'_>>
    requires { begins_transform (word_bytes words.now) ≡ false }
    ensures task { MatchOption result (ordered_task (word_bytes words.now) ≡ None) (λ task.
        ordered_task (word_bytes words.now) ≡ Some (threaded_task task)) }
    ensures most { IfSome result IsInLimits }
{
    match words {
        [word, config, recording] => {
            if word.as_str() != "replay" {
                return None;
            }
            Some(ThreadedTask::Replay(ReplayTask {
                threads: 1,
                config: config.as_str(),
                recording: recording.as_str(),
            }))
        }
        [word, seed, count, size] => Some(ThreadedTask::Generate(generate_asked(
            word.as_str(),
            seed.as_str(),
            count.as_str(),
            size.as_str(),
        )?)),
        [word, option, number, config, recording] => Some(ThreadedTask::Replay(ReplayTask {
            threads: threads_asked(word.as_str(), option.as_str(), number.as_str())?,
            config: config.as_str(),
            recording: recording.as_str(),
        })),
        _ => None,
    }
}

// What the words after `serve` ask for, if `clap` takes them.
fn served_task<'a>(alloc: Global, words: &'a [String]) -> Result<Option<ThreadedTask<'a>>, NoMemory>
    ensures task { IfOk result (λ asked.
        option_map threaded_task asked
        ≡ option_map (λ found. Serve found) (serve_asked (word_bytes words.entry.now))) }
    ensures most { IfOk result (λ asked. IfSome asked IsInLimits) }
{
    let Some(task) = serve_task(alloc, words)? else {
        return Ok(None);
    };
    Ok(Some(ThreadedTask::Serve(task)))
}

/// What words that don't begin with `transform` ask for, if they are of a command. Those of `serve` take
/// memory to read.
pub fn threaded_task<'a>(
    alloc: Global,
    words: &'a [String],
) -> Result<Option<ThreadedTask<'a>>, NoMemory>
    requires { begins_transform (word_bytes words.now) ≡ false }
    ensures task { IfOk result (λ asked. MatchOption asked (task_of words.entry.now ≡ None) (λ task.
        task_of words.entry.now ≡ Some (threaded_task task))) }
    ensures most { IfOk result (λ asked. IfSome asked IsInLimits) }
    ensures memory { OnErr result (begins_serve (word_bytes words.entry.now) ≡ true) }
{
    match words {
        [first, rest @ ..] if first.as_str() == "serve" => served_task(alloc, rest),
        _ => Ok(ordered_task(words)),
    }
}

/// The name of the configuration that a task has, or none.
pub fn config_name<'a>(task: &ThreadedTask<'a>) -> &'a str
    ensures { result.now ≡ config_in (threaded_task task.now) }
{
    match task {
        ThreadedTask::Replay(replay) => replay.config,
        ThreadedTask::Generate(_) => "",
        ThreadedTask::Serve(serve) => serve.config,
    }
}

/// The name of the recording that a task has, or none.
pub fn input_name<'a>(task: &ThreadedTask<'a>) -> &'a str
    ensures { result.now ≡ input_in (threaded_task task.now) }
{
    match task {
        ThreadedTask::Replay(replay) => replay.recording,
        ThreadedTask::Generate(_) => "",
        ThreadedTask::Serve(_) => "",
    }
}
