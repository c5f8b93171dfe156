//! The command `serve`: a net is served under a configuration, by event threads.
ghost use Rattle.std.specs.Prelude.{◌≡◌, ◌<◌, ◌≤◌, [], Bool, false, true};
ghost use Rattle.std.specs.Arc.{arc_value};
ghost use Rattle.ts_link.specs.Seen.{SinkSeen};
ghost use Rattle.ts_proxy.specs.Ends.{status_of};
ghost use Rattle.ts_proxy.specs.Performed.{IsPerformed};
ghost use Rattle.ts_proxy.specs.Serving.{HasSessionsIf, HasSessionsUnder, IsLetBegin, IsNetLeft};
ghost use Rattle.ts_proxy.specs.Serving.{IsServedNet};
ghost use Rattle.ts_proxy.specs.Words.{Serve};
ghost use Rattle.ts_replay.specs.Recorded.{HasPlainLines};
ghost use Rattle.ts_serve.specs.Served.{AreRetired};
ghost use Rattle.ts_history.specs.Done.{IsTxnDone};
ghost use Rattle.ts_serve.specs.declared.acceptor.TheConstants.{PLACES};
ghost use Rattle.ts_stock.specs.StockTransform.{stock_transform};
ghost use Rattle.ts_thread.specs.declared.TheConstants.{MOST_THREADS};
ghost use Rattle.ts_txn.specs.Net.{IsFreshNet};
ghost use Rattle.ts_words.specs.Serve.{words_of};

use crate::answer::{Answer, Performed};
use crate::reading::set_up;
use std::alloc::Global;
use std::sync::{Arc, Wait};
use std::thread::Threads;
use ts_config::Setup;
use ts_link::{Clock, Gate, Shelf};
use ts_serve::{Host, Served, serve_sessions, serve_transactions};
use ts_stock::Stock;
use ts_txn::{Began, Net};
use ts_words::ServeTask;

// Serves a net that has begun to listen, under the lines of a configuration. Each connection carries one
// transaction.
fn serve_by_transactions<N: Net, G: Gate + Sync, C: Clock + Sync, R: Threads + Wait + Sync>(
    host: &Host<'_, G, C, R>,
    task: &ServeTask<'_>,
    setup: Arc<Setup>,
    net: &mut N,
) -> Answer
    requires lines { HasPlainLines (arc_value setup) }
    requires threads { (0 < task.now.threads) × (task.now.threads ≤ MOST_THREADS) }
    requires net { IsFreshNet (N.seen net.old) }
    ensures retired { N.tells ≡ true → AreRetired
        (IsTxnDone N.Client.Link N.Origin.Link N.Origin.Upstream.own stock_transform (arc_value setup) PLACES)
        (N.seen net.old) (N.seen net.new) }
    ensures noted { N.tells ≡ true → (N.seen net.new).noted ≡ [] }
    ensures left { IsNetLeft result task.now.connections (N.seen net.old) (N.seen net.new) }
{
    match serve_transactions::<N, Stock, G, C, R>(
        host,
        setup,
        task.threads,
        task.connections,
        net,
    ) {
        Served::Whole => Answer::Done,
        Served::Failed => Answer::Network,
        Served::NoMemory => Answer::OutOfMemory,
    }
}

// The same, where each connection carries several transactions, one after the other.
fn serve_by_sessions<N: Net, G: Gate + Sync, C: Clock + Sync, R: Threads + Wait + Sync>(
    host: &Host<'_, G, C, R>,
    task: &ServeTask<'_>,
    setup: Arc<Setup>,
    net: &mut N,
) -> Answer
    requires lines { HasPlainLines (arc_value setup) }
    requires threads { (0 < task.now.threads) × (task.now.threads ≤ MOST_THREADS) }
    requires net { IsFreshNet (N.seen net.old) }
    ensures sessions { N.tells ≡ true → HasSessionsUnder N.Client.Link N.Origin.Link (arc_value setup) result
        (N.seen net.old) (N.seen net.new) }
    ensures left { IsNetLeft result task.now.connections (N.seen net.old) (N.seen net.new) }
{
    match serve_sessions::<N, Stock, G, C, R>(host, setup, task.threads, task.connections, net) {
        Served::Whole => Answer::Done,
        Served::Failed => Answer::Network,
        Served::NoMemory => Answer::OutOfMemory,
    }
}

// Serves a net that has begun to listen, under the lines of a configuration, as it is asked for.
fn serve_begun<N: Net, G: Gate + Sync, C: Clock + Sync, R: Threads + Wait + Sync>(
    host: &Host<'_, G, C, R>,
    task: &ServeTask<'_>,
    setup: Arc<Setup>,
    net: &mut N,
) -> Answer
    requires lines { HasPlainLines (arc_value setup) }
    requires threads { (0 < task.now.threads) × (task.now.threads ≤ MOST_THREADS) }
    requires net { IsFreshNet (N.seen net.old) }
    ensures retired { task.now.sessions ≡ false → N.tells ≡ true → AreRetired
        (IsTxnDone N.Client.Link N.Origin.Link N.Origin.Upstream.own stock_transform (arc_value setup) PLACES)
        (N.seen net.old) (N.seen net.new) }
    ensures noted { task.now.sessions ≡ false → N.tells ≡ true → (N.seen net.new).noted ≡ [] }
    ensures sessions { task.now.sessions ≡ true → N.tells ≡ true → HasSessionsUnder N.Client.Link
        N.Origin.Link (arc_value setup) result (N.seen net.old) (N.seen net.new) }
    ensures left { IsNetLeft result task.now.connections (N.seen net.old) (N.seen net.new) }
{
    if task.sessions {
        return serve_by_sessions(host, task, setup, net);
    }
    serve_by_transactions(host, task, setup, net)
}

// Lets a net begin to listen, and serves it under the lines of a configuration.
fn serve_net<N: Net, G: Gate + Sync, C: Clock + Sync, R: Threads + Wait + Sync>(
    rt: &R,
    alloc: Global,
    task: &ServeTask<'_>,
    setup: Setup,
    net: &mut N,
    clock: &C,
    gate: &G,
) -> Answer
    requires lines { HasPlainLines setup }
    requires threads { (0 < task.now.threads) × (task.now.threads ≤ MOST_THREADS) }
    requires net { IsFreshNet (N.seen net.old) }
    ensures retired { task.now.sessions ≡ false → N.tells ≡ true → AreRetired
        (IsTxnDone N.Client.Link N.Origin.Link N.Origin.Upstream.own stock_transform setup PLACES)
        (N.seen net.old) (N.seen net.new) }
    ensures noted { task.now.sessions ≡ false → N.tells ≡ true → (N.seen net.new).noted ≡ [] }
    ensures sessions { task.now.sessions ≡ true → N.tells ≡ true → HasSessionsIf N.Client.Link
        N.Origin.Link setup result (N.seen net.old) (N.seen net.new) }
    ensures left { IsNetLeft result task.now.connections (N.seen net.old) (N.seen net.new) }
    ensures begun { IsLetBegin N.begins (words_of task.now).listen (words_of task.now).origin
        net.old net.new }
{
    let Ok(setup) = Arc::new(alloc, setup) else {
        return Answer::OutOfMemory;
    };
    let host = Host {
        rt,
        alloc,
        gate,
        clock,
    };
    match net.begin(task.listen, task.origin) {
        Began::Ready => serve_begun(&host, task, setup, net),
        Began::Failed => Answer::Network,
        Began::NoMemory => Answer::OutOfMemory,
    }
}

/// Serves a net under the lines of a configuration, which the shelf has under the name that is asked for, on
/// so many event threads, which pass the gate. Nothing is written.
pub fn perform_serve<S: Shelf, N: Net, G: Gate + Sync, C: Clock + Sync, R: Threads + Wait + Sync>(
    rt: &R,
    alloc: Global,
    task: &ServeTask<'_>,
    shelf: &mut S,
    net: &mut N,
    clock: &C,
    gate: &G,
) -> Performed
    requires threads { (0 < task.now.threads) × (task.now.threads ≤ MOST_THREADS) }
    requires net { IsFreshNet (N.seen net.old) }
    ensures performed { (out_tells : Bool) (out : SinkSeen) → IsPerformed (Serve (words_of task.now))
        S.tells out_tells (S.seen shelf.old) (S.seen shelf.new) out out result.answer result.journals.items }
    ensures net { IsServedNet N.Client.Link N.Origin.Link N.Origin.Upstream.own S.tells N.tells
        (S.seen shelf.old) (S.seen shelf.new) (words_of task.now) (status_of result.answer)
        (N.seen net.old) (N.seen net.new) }
    ensures begun { IsLetBegin N.begins (words_of task.now).listen (words_of task.now).origin
        net.old net.new }
{
    let setup = match set_up(alloc, shelf, task.config, task.sessions) {
        Ok(setup) => setup,
        Err(answer) => return Performed::without(alloc, answer),
    };
    let answer = serve_net(rt, alloc, task, setup, net, clock, gate);
    Performed::without(alloc, answer)
}
