//! The words after the program's name, and the command that they are of.
ghost use Rattle.std.specs.Prelude.{◌≡◌, true};
ghost use Rattle.ts_proxy.specs.Answers.{HasOutput};
ghost use Rattle.ts_proxy.specs.Ends.{Completes, HasCause, Takes};
ghost use Rattle.ts_proxy.specs.Lines.{IsAnswerOf, SaysLine};
ghost use Rattle.ts_proxy.specs.Outcome.{outcome_of};
ghost use Rattle.ts_proxy.specs.Serving.{LeavesNet};
ghost use Rattle.ts_proxy.specs.Words.{is_told};
ghost use Rattle.ts_proxy.specs.declared.answer.Answer.{Answer};
ghost use Rattle.ts_txn.specs.Net.{IsFreshNet};
ghost use Rattle.tsx.specs.CommandLine.{EndsAs, task_asked};

use crate::fault::lacks_memory;
use std::alloc::Global;
use std::env::Env;
use std::sync::Wait;
use std::thread::Threads;
use std::{env, io};
use ts_link::{Clock, Gate, Shelf, Sink};
use ts_proxy::{end_without_words, run};
use ts_txn::Net;

/// The words after the program's name, each of them text.
pub fn program_words<R: Env + AllocGlobal>(rt: &R) -> io::Result<Vec<String>> {
    let mut words = Vec::new(rt.alloc());
    for word in env::args(rt)?.skip(1) {
        words.push(word)?;
    }
    Ok(words)
}

/// Runs the command that the words after the program's name are of, and answers the program's status, as
/// `run` does. Words that are no text are of no command; where memory lacked for them, it lacks here.
pub fn run_words<
    S: Shelf,
    N: Net,
    K: Sink,
    E: Sink,
    C: Clock + Sync,
    G: Gate + Sync,
    R: Threads + Wait + Sync,
>(
    rt: &R,
    alloc: Global,
    words: io::Result<Vec<String>>,
    shelf: &mut S,
    net: &mut N,
    out: &mut K,
    err: &mut E,
    clock: &C,
    gate: &G,
) -> u8
    requires net { IsFreshNet (N.seen net.old) }
    ensures status { EndsAs S.tells (S.seen shelf.old) words result }
    ensures cause { HasCause (task_asked words) result
        (S.seen shelf.old) (S.seen shelf.new) (K.seen out.old) (K.seen out.new) }
    ensures completes { is_told S.tells (task_asked words) ≡ true →
        HasOutput (outcome_of (S.seen shelf.old) (task_asked words)) →
        Completes result (S.seen shelf.old) (S.seen shelf.new) (K.seen out.old) (K.seen out.new) }
    ensures takes { K.tells ≡ true → Takes (is_told S.tells (task_asked words))
        (outcome_of (S.seen shelf.old) (task_asked words)) result (K.seen out.old) (K.seen out.new) }
    ensures line { (answer : Answer) × IsAnswerOf S.tells (S.seen shelf.old) (task_asked words) answer
        × SaysLine E.tells (E.seen err.old) (E.seen err.new) (task_asked words) result answer }
    ensures served { LeavesNet N.Client.Link N.Origin.Link N.Origin.Upstream.own N.begins N.seen
        S.tells N.tells (S.seen shelf.old) (S.seen shelf.new) (task_asked words) result
        net.old net.new }
{
    let words = match words {
        Ok(words) => words,
        Err(error) if lacks_memory(&error) => return end_without_words(alloc, err).status,
        Err(_) => Vec::new(alloc),
    };
    let ended = run(
        rt,
        alloc,
        words.as_slice(),
        shelf,
        net,
        out,
        err,
        clock,
        gate,
    );
    ended.status
}
