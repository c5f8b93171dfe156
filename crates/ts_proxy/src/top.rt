//! The top call: it runs the command that the program's words name, and answers the status.
ghost use Rattle.std.specs.Prelude.{◌≡◌, [], true, None, Some};
ghost use Rattle.ts_proxy.specs.Answers.{HasOutput};
ghost use Rattle.ts_proxy.specs.Ends.{status_of, out_of_memory, Completes, HasCause, IsStatusOf, JournalsAt, Takes};
ghost use Rattle.ts_proxy.specs.Lines.{IsAnswerOf, SaysLine, line_of, LineTold};
ghost use Rattle.ts_proxy.specs.Outcome.{outcome_of};
ghost use Rattle.ts_proxy.specs.Performed.{IsPerformed};
ghost use Rattle.ts_proxy.specs.Serving.{LeavesNet};
ghost use Rattle.ts_proxy.specs.Words.{IsInLimits, begins_serve, begins_transform, is_told, task_of, threaded_task, word_bytes};
ghost use Rattle.ts_proxy.specs.declared.answer.Answer.{Answer};
ghost use Rattle.ts_proxy.specs.declared.answer.Answer.TheVariants.{OutOfMemory};
ghost use Rattle.ts_txn.specs.Net.{IsFreshNet};

use crate::answer::{Answer, Performed};
use crate::command::{
    ThreadedTask, begins_transform, config_name, input_name, threaded_task, transform_task,
};
use crate::generate::perform_generate;
use crate::replay::perform_replay;
use crate::serve::perform_serve;
use crate::telling::say;
use crate::transform::perform_transform;
use std::alloc::Global;
use std::sync::Wait;
use std::thread::Threads;
use ts_journal::Journal;
use ts_link::{Clock, Gate, NoMemory, Shelf, Sink};
use ts_txn::Net;

/// How the program ended: 0 the job was done; 2 the words are of no command; 3 a line of the configuration is
/// not in the grammar; 4 the input is no recording; 5 a file could not be read; 6 the output could not be
/// written; 7 memory was lacking, or a group had all the turns that it gets, which takes years; 8 the net
/// failed; 9 a file is longer than its limit. With status 0 there are the journals of the groups that did the
/// job, but for `serve`, which hands each to the net; with another there are none.
#[derive(Drop)]
pub struct Ended {
    pub status: u8,
    pub journals: Vec<Journal>,
}

fn status(answer: &Answer) -> u8
    ensures { result ≡ status_of answer.now }
{
    match answer {
        Answer::Done => 0,
        Answer::Usage => 2,
        Answer::BadLine(_) => 3,
        Answer::BadRecording { offset: _ } => 4,
        Answer::CannotRead(_) => 5,
        Answer::CannotWrite => 6,
        Answer::OutOfMemory => 7,
        Answer::Network => 8,
        Answer::TooLong(_) => 9,
    }
}

// Says the line of what a command with these files by name came to, and how the program ended.
fn end<E: Sink>(err: &mut E, performed: Performed, config: &str, input: &str) -> Ended
    ensures status { result.status ≡ status_of performed.answer }
    ensures journals { result.journals.items ≡ performed.journals.items }
    ensures told { E.tells ≡ true →
        LineTold (E.seen err.old) (E.seen err.new) (line_of config.now input.now performed.answer) }
{
    say(err, &performed.answer, config, input);
    Ended {
        status: status(&performed.answer),
        journals: performed.journals,
    }
}

/// Says that memory lacked for the words after the program's name, and ends with that status.
pub fn end_without_words<E: Sink>(alloc: Global, err: &mut E) -> Ended
    ensures status { result.status ≡ out_of_memory }
    ensures journals { result.journals.items ≡ [] }
    ensures told { SaysLine E.tells (E.seen err.old) (E.seen err.new) None result.status OutOfMemory }
{
    end(err, Performed::without(alloc, Answer::OutOfMemory), "", "")
}

// Runs what is asked for that runs event threads, which pass the gate.
fn perform<S: Shelf, N: Net, K: Sink, C: Clock + Sync, G: Gate + Sync, R: Threads + Wait + Sync>(
    rt: &R,
    alloc: Global,
    task: &ThreadedTask<'_>,
    shelf: &mut S,
    net: &mut N,
    out: &mut K,
    clock: &C,
    gate: &G,
) -> Performed
    requires most { IsInLimits task.now }
    requires net { IsFreshNet (N.seen net.old) }
    ensures performed { IsPerformed (threaded_task task.now)
        S.tells K.tells (S.seen shelf.old) (S.seen shelf.new) (K.seen out.old) (K.seen out.new)
        result.answer result.journals.items }
    ensures net { LeavesNet N.Client.Link N.Origin.Link N.Origin.Upstream.own N.begins N.seen S.tells N.tells
        (S.seen shelf.old) (S.seen shelf.new) (Some (threaded_task task.now)) (status_of result.answer)
        net.old net.new }
{
    match task {
        ThreadedTask::Replay(replay) => perform_replay(rt, alloc, replay, shelf, out, gate),
        ThreadedTask::Generate(numbers) => perform_generate(rt, alloc, *numbers, out, gate),
        ThreadedTask::Serve(serve) => perform_serve(rt, alloc, serve, shelf, net, clock, gate),
    }
}

/// Runs the command that the words name, which are those after the program's name: it reads from the shelf,
/// serves the net, writes to `out`, and says on `err` in one line why it did not end with status 0. Where it
/// runs event threads, they pass the gate, and those of `serve` go by the clock.
///
/// What it comes to is a function of what the words ask for and the files, the outcome, in which the number
/// of threads does not stand; that of `generate` is a function of its three numbers, and that of `serve` says
/// under which lines the net is served. Each clause on content holds where the shelf tells its files, if the
/// command names any, the sink tells what it took, and the net what it was handed.
#[tactic(auto, using(crate::proofs::Ending::asked_command))]
pub fn run<
    S: Shelf,
    N: Net,
    K: Sink,
    E: Sink,
    C: Clock + Sync,
    G: Gate + Sync,
    R: Threads + Wait + Sync,
>(
    rt: &R,
    alloc: Global,
    words: &[String],
    shelf: &mut S,
    net: &mut N,
    out: &mut K,
    err: &mut E,
    clock: &C,
    gate: &G,
) -> Ended
    // The net has given no client and was handed nothing.
    requires net { IsFreshNet (N.seen net.old) }
    // The status of usage comes exactly where the words are of no command. Each outcome has its own status,
    // which comes there alone and always, unless a read failed, memory lacked, the net failed or, where there
    // is a text, a write failed.
    ensures status { IsStatusOf (begins_serve (word_bytes words.now)) S.tells (S.seen shelf.old)
        (task_of words.now) result.status }
    // A failure is one of the shelf or the sink that was handed in. The shelf stays as it is where no file is
    // named, and the sink where a net is served.
    ensures cause { HasCause (task_of words.now) result.status
        (S.seen shelf.old) (S.seen shelf.new) (K.seen out.old) (K.seen out.new) }
    // Where there is a text and neither failed, the job is done, unless memory lacked.
    ensures completes { is_told S.tells (task_of words.now) ≡ true →
        HasOutput (outcome_of (S.seen shelf.old) (task_of words.now)) →
        Completes result.status (S.seen shelf.old) (S.seen shelf.new) (K.seen out.old) (K.seen out.new) }
    // What out took: with status 0 the whole text, else a front of it, and nothing where there is none.
    ensures takes { K.tells ≡ true → Takes (is_told S.tells (task_of words.now))
        (outcome_of (S.seen shelf.old) (task_of words.now)) result.status (K.seen out.old) (K.seen out.new) }
    // With status 0 the journal of the group of `transform`, which is that of a serial driver, or those of
    // the groups of the recorded or generated transactions, in their order, and behind them those of the
    // hook plugins, in the order of their lines. Each is lawful and not held, with nothing pending. `serve`
    // hands its journals to the net.
    ensures journals { JournalsAt S.tells (S.seen shelf.old) (task_of words.now)
        result.status result.journals.items }
    // What err took: the line of an answer that has this status, and that comes at the outcome. After a
    // failed read it names a file that the work came to.
    ensures line { (answer : Answer) × IsAnswerOf S.tells (S.seen shelf.old) (task_of words.now) answer
        × SaysLine E.tells (E.seen err.old) (E.seen err.new) (task_of words.now) result.status answer }
    // What the net gave and was handed where it was served, and that it failed or ended where that is said;
    // it was let begin at the two addresses of the words, or was not used. Another command leaves it as it
    // is.
    ensures served { LeavesNet N.Client.Link N.Origin.Link N.Origin.Upstream.own N.begins N.seen
        S.tells N.tells (S.seen shelf.old) (S.seen shelf.new) (task_of words.now) result.status
        net.old net.new }
{
    if begins_transform(words) {
        return run_transform(alloc, words, shelf, out, err);
    }
    let task = match threaded_task(alloc, words) {
        Ok(Some(task)) => task,
        Ok(None) => return end(err, Performed::without(alloc, Answer::Usage), "", ""),
        Err(NoMemory) => return end(err, Performed::without(alloc, Answer::OutOfMemory), "", ""),
    };
    let performed = perform(rt, alloc, &task, shelf, net, out, clock, gate);
    end(err, performed, config_name(&task), input_name(&task))
}

/// Runs words that begin with `transform`, as `run` does. It starts no thread and waits for nothing.
#[tactic(auto, using(crate::proofs::Ending::asked_command))]
pub fn run_transform<S: Shelf, K: Sink, E: Sink>(
    alloc: Global,
    words: &[String],
    shelf: &mut S,
    out: &mut K,
    err: &mut E,
) -> Ended
    requires first { begins_transform (word_bytes words.now) ≡ true }
    // What is said of `run` holds of it, in the same words.
    ensures status { IsStatusOf (begins_serve (word_bytes words.now)) S.tells (S.seen shelf.old)
        (task_of words.now) result.status }
    ensures cause { HasCause (task_of words.now) result.status
        (S.seen shelf.old) (S.seen shelf.new) (K.seen out.old) (K.seen out.new) }
    ensures completes { is_told S.tells (task_of words.now) ≡ true →
        HasOutput (outcome_of (S.seen shelf.old) (task_of words.now)) →
        Completes result.status (S.seen shelf.old) (S.seen shelf.new) (K.seen out.old) (K.seen out.new) }
    ensures takes { K.tells ≡ true → Takes (is_told S.tells (task_of words.now))
        (outcome_of (S.seen shelf.old) (task_of words.now)) result.status (K.seen out.old) (K.seen out.new) }
    ensures journals { JournalsAt S.tells (S.seen shelf.old) (task_of words.now)
        result.status result.journals.items }
    ensures line { (answer : Answer) × IsAnswerOf S.tells (S.seen shelf.old) (task_of words.now) answer
        × SaysLine E.tells (E.seen err.old) (E.seen err.new) (task_of words.now) result.status answer }
{
    let Some(task) = transform_task(words) else {
        return end(err, Performed::without(alloc, Answer::Usage), "", "");
    };
    let performed = perform_transform(alloc, &task, shelf, out);
    end(err, performed, task.config, task.body)
}
