//! The whole of serving a net: its server is opened, run by event threads, and closed.

ghost use Rattle.std.specs.Prelude.{◌≡◌, ◌≢◌, ◌<◌, ◌≤◌, true};
ghost use Rattle.ts_thread.specs.declared.TheConstants.{MOST_THREADS};
ghost use Rattle.ts_txn.specs.Net.{IsFreshNet};
ghost use Rattle.ts_serve.specs.Notes.{HadSessions};
ghost use Rattle.ts_serve.specs.declared.acceptor.Served.TheVariants as served;
ghost use Rattle.ts_serve.specs.Served.{AreRetired, AreSessions, IsServed, served_by};
ghost use Rattle.ts_serve.specs.Servers.{CanAskInServer, CanStandBeside, server_tags};

use crate::acceptor::{Acceptor, Listening, Served};
use crate::server::{Server, close_server, new_acceptor, open_server};
use crate::service::{Host, Service};
use crate::tenant::Handler;
use crate::worker::PAUSE;
use crate::workers::{Joined, run_event_threads};
use std::sync::Wait;
use std::sync::atomic::{AtomicBool, AtomicU64};
use std::thread::Threads;
use ts_exchange::Tagged;
use ts_group::Rouse;
use ts_link::{Clock, Gate};
use ts_thread::{MOST_THREADS, Shared};
use ts_txn::Net;

// How serving ended where the threads did what they were to: the net failed, or gave as many clients as were
// to come, or is closed.
fn served_by(acceptor: &Acceptor) -> Served
    ensures { result ≡ served_by acceptor.now.listening }
{
    match acceptor.listening {
        Listening::Open => Served::Whole,
        Listening::Closed => Served::Whole,
        Listening::Failed => Served::Failed,
    }
}

/// Serves a net that has begun to listen, with so many event threads, until so many clients came, or it is
/// closed or fails, and what is left of each client was handed to it. At most 256 are served at a time, each
/// by a handler that is made with the setting; the other worlds stand beside them, and are only asked. A net
/// that fails is asked for nobody more. Where memory lacks in one thread, all stop, and what is pending is
/// handled by the caller's thread, as far as memory goes. It may wait without end for a client that does not
/// come.
pub fn serve<
    N: Net,
    W: Handler<N::Client, N::Origin> + Drop + Send,
    P: Rouse<Question = W::Question, Reply = W::Reply> + Drop + Send,
    G: Gate + Sync,
    C: Clock + Sync,
    R: Threads + Wait + Sync,
>(
    host: &Host<'_, G, C, R>,
    setting: &W::Setting,
    others: Vec<Tagged<P, P::Tag>>,
    threads: u32,
    most: u32,
    net: &mut N,
) -> Served
where
    W::Terms: Drop,
    P::Tag: Drop,
    requires setting { W.is_setting setting.now }
    requires others { CanStandBeside P.fits P.sound P.only_asked others.items
        × ((terms : W.Terms) → W.are_terms setting.now terms
        → CanAskInServer W.fits W.keeps W.may_ask W.right W.answers
        P.fits P.only_asked P.may_ask P.right P.answers (server_tags terms others.items)) }
    requires threads { (0 < threads) × (threads ≤ MOST_THREADS) }
    requires net { IsFreshNet (N.seen net.old) }
    ensures retired { N.tells ≡ true → (terms : W.Terms) → W.are_terms setting.now terms
        → AreRetired (W.is_done terms) (N.seen net.old) (N.seen net.new) }
    ensures sessions { N.tells ≡ true → (terms : W.Terms) → W.are_terms setting.now terms
        → AreSessions (W.is_note terms) (λ notes. W.is_done (W.behind terms notes))
        (N.seen net.old) (N.seen net.new) }
    ensures spent { N.tells ≡ true → result ≢ served.NoMemory → (terms : W.Terms)
        → W.are_terms setting.now terms
        → HadSessions (λ notes. W.is_spent (W.behind terms notes)) (N.seen net.new) }
    ensures served { IsServed result most (N.seen net.old) (N.seen net.new) }
{
    let Ok(acceptor) = new_acceptor(host.alloc, most) else {
        return Served::NoMemory;
    };
    let Ok(server) = open_server::<N::Client, N::Origin, W, P>(host.alloc, setting, others) else {
        return Served::NoMemory;
    };
    let Server { slots, queue, desk } = server;
    let stop = AtomicBool::new(false);
    let pause = AtomicU64::new(PAUSE);
    let service = Service {
        shared: Shared {
            rt: host.rt,
            slots: &slots,
            queue: &queue,
            gate: host.gate,
        },
        alloc: host.alloc,
        clock: host.clock,
        stop: &stop,
        pause: &pause,
    };
    let joined = run_event_threads(&service, setting, threads, net, desk, acceptor);
    let Joined {
        desk,
        mut acceptor,
        ended,
    } = joined;
    if let Ok(()) = ended {
        return served_by(&acceptor);
    }
    let server = Server { slots, queue, desk };
    let _ = close_server(host, net, server, &mut acceptor.row);
    Served::NoMemory
}
