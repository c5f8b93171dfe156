//! The event threads of a server: the first, which accepts clients, and those that work beside it, joined
//! again once it is done.

ghost use Rattle.std.specs.Prelude.{◌≡◌, ◌<◌, ◌≤◌, true, Ok, OnOk};
ghost use Rattle.ts_slot.specs.Words.{tags_of};
ghost use Rattle.ts_thread.specs.declared.TheConstants.{MOST_THREADS};
ghost use Rattle.ts_thread.specs.Desks.{IsDeskOf};
ghost use Rattle.ts_serve.specs.Acceptor.{IsAcceptorOf, IsOpenServer, IsOver, Serves};
ghost use Rattle.ts_serve.specs.Servers.{CanAskInServer};
ghost use Rattle.ts_serve.specs.Working.{CanWork, WorkWholeInServer};

use crate::acceptor::Acceptor;
use crate::place::PlaceGroup;
use crate::rounds::serve_rounds;
use crate::service::Service;
use crate::source::ClientSource;
use crate::tenant::Handler;
use crate::worker::{Task, Worked, run_beside};
use std::sync::Wait;
use std::sync::atomic::Ordering;
use std::thread::Threads;
use ts_group::Rouse;
use ts_link::{Clock, Gate, NoMemory};
use ts_slot::Slotted;
use ts_thread::{Desk, MOST_THREADS};

// The number of the first thread that works beside the first one.
const SECOND: u32 = 1;

/// What the event threads hand back once they are joined.
#[derive(Drop)]
pub struct Joined<V: Slotted> {
    /// The desk that was split among them.
    pub desk: Desk<V>,
    /// The acceptor that the first of them kept.
    pub acceptor: Acceptor,
    /// How it ended: nobody more comes and nobody is there, or memory lacked.
    pub ended: Result<(), NoMemory>,
}

// The work of the first thread: it serves until it is done, and tells the others then to stop.
#[derive(Drop)]
struct FirstTask<'a, 'n, N, S, V: Slotted, G, C, R> {
    service: &'a Service<'a, V, G, C, R>,
    setting: &'a S,
    net: &'n mut N,
    desk: Desk<V>,
    acceptor: Acceptor,
}

impl<
    'a,
    'n,
    N: ClientSource,
    W: Handler<N::Client, N::Origin> + Drop,
    P: Rouse<Question = W::Question, Reply = W::Reply> + Drop,
    G: Gate,
    C: Clock,
    R: Wait,
> Task for FirstTask<'a, 'n, N, W::Setting, PlaceGroup<W, P>, G, C, R> {
    type Output = (&'n mut N, Joined<PlaceGroup<W, P>>);

    ghost can_run = { λ t.
        IsOpenServer W.is_setting W.are_terms t.setting.now (tags_of t.service.now.shared.slots.now)
        × CanAskInServer W.fits W.keeps W.may_ask W.right W.answers
        P.fits P.only_asked P.may_ask P.right P.answers (tags_of t.service.now.shared.slots.now)
        × IsDeskOf t.service.now.shared.slots.now t.service.now.shared.queue.now t.desk
        × IsAcceptorOf t.acceptor (N.seen t.net.now) };

    ghost gives = { λ t r. (r.0.ghost_name ≡ t.net.ghost_name)
        × Serves W.fits W.keeps P.fits W.behind W.is_done W.is_spent W.is_note N.tells
        t.service.now.shared.slots.now t.service.now.shared.queue.now r.1.ended
        t.desk r.1.desk t.acceptor r.1.acceptor (N.seen t.net.now) (N.seen r.0.now)
        × OnOk r.1.ended (IsOver r.1.acceptor) };

    fn run(self) -> (&'n mut N, Joined<PlaceGroup<W, P>>) {
        let FirstTask {
            service,
            setting,
            net,
            mut desk,
            mut acceptor,
        } = self;
        let ended = serve_rounds(service, setting, net, &mut desk, &mut acceptor);
        service.stop.store(true, Ordering::SeqCst);
        (
            net,
            Joined {
                desk,
                acceptor,
                ended,
            },
        )
    }
}

// Does nothing. That the reference is used shows that it is the one that was lent.
fn take_back<N>(net: &mut N)
    ensures { net.new ≡ net.old }
{}

// The first thread serves alone.
fn serve_alone<
    N: ClientSource,
    W: Handler<N::Client, N::Origin> + Drop,
    P: Rouse<Question = W::Question, Reply = W::Reply> + Drop,
    G: Gate,
    C: Clock,
    R: Wait,
>(
    service: &Service<'_, PlaceGroup<W, P>, G, C, R>,
    setting: &W::Setting,
    net: &mut N,
    mut desk: Desk<PlaceGroup<W, P>>,
    mut acceptor: Acceptor,
) -> Joined<PlaceGroup<W, P>>
    requires server { IsOpenServer W.is_setting W.are_terms setting.now
        (tags_of service.now.shared.slots.now) }
    requires asks { CanAskInServer W.fits W.keeps W.may_ask W.right W.answers
        P.fits P.only_asked P.may_ask P.right P.answers (tags_of service.now.shared.slots.now) }
    requires here { IsDeskOf service.now.shared.slots.now service.now.shared.queue.now desk
        × IsAcceptorOf acceptor (N.seen net.old) }
    ensures serves { Serves W.fits W.keeps P.fits W.behind W.is_done W.is_spent W.is_note N.tells
        service.now.shared.slots.now service.now.shared.queue.now
        result.ended desk result.desk acceptor result.acceptor (N.seen net.old) (N.seen net.new) }
    ensures over { OnOk result.ended (IsOver result.acceptor) }
{
    let ended = serve_rounds(service, setting, net, &mut desk, &mut acceptor);
    Joined {
        desk,
        acceptor,
        ended,
    }
}

// How the first thread ended, unless memory lacked in another one.
fn ended_whole(ended: Result<(), NoMemory>, whole: bool) -> Result<(), NoMemory>
    ensures { OnOk result ((ended ≡ Ok tt) × (whole ≡ true)) }
{
    ended?;
    if !whole {
        return Err(NoMemory);
    }
    Ok(())
}

// Of so many threads, more than one, the first accepts clients beside the others, each with a part of the
// desk.
fn serve_beside<
    N: ClientSource,
    W: Handler<N::Client, N::Origin> + Drop + Send,
    P: Rouse<Question = W::Question, Reply = W::Reply> + Drop + Send,
    G: Gate + Sync,
    C: Clock + Sync,
    R: Threads + Wait + Sync,
>(
    service: &Service<'_, PlaceGroup<W, P>, G, C, R>,
    setting: &W::Setting,
    threads: u32,
    net: &mut N,
    mut desk: Desk<PlaceGroup<W, P>>,
    acceptor: Acceptor,
) -> Joined<PlaceGroup<W, P>>
    requires server { IsOpenServer W.is_setting W.are_terms setting.now
        (tags_of service.now.shared.slots.now) }
    requires asks { CanAskInServer W.fits W.keeps W.may_ask W.right W.answers
        P.fits P.only_asked P.may_ask P.right P.answers (tags_of service.now.shared.slots.now) }
    requires works { CanWork service.now.shared.slots.now service.now.shared.queue.now threads desk
        × (1 < threads) × (threads ≤ MOST_THREADS) }
    requires acceptor { IsAcceptorOf acceptor (N.seen net.old) }
    ensures serves { Serves W.fits W.keeps P.fits W.behind W.is_done W.is_spent W.is_note N.tells
        service.now.shared.slots.now service.now.shared.queue.now
        result.ended desk result.desk acceptor result.acceptor (N.seen net.old) (N.seen net.new) }
    ensures over { OnOk result.ended (IsOver result.acceptor) }
    ensures helped { OnOk result.ended (WorkWholeInServer W.fits W.keeps W.asking W.answers W.called
        W.heard W.left P.fits P.asking P.answers P.called P.heard P.left
        (tags_of service.now.shared.slots.now) threads desk result.desk) }
{
    let Ok(first) = desk.split(service.alloc, service.shared.slots, service.shared.queue) else {
        return Joined {
            desk,
            acceptor,
            ended: Err(NoMemory),
        };
    };
    let task = FirstTask {
        service,
        setting,
        net,
        desk: first,
        acceptor,
    };
    let (worked, (net, joined)) = run_beside(service, SECOND, threads - 1, desk, task);
    take_back(net);
    let Worked { mut desk, whole } = worked;
    let Joined {
        desk: first,
        acceptor,
        ended,
    } = joined;
    desk.join(service.shared.slots, service.shared.queue, first);
    Joined {
        desk,
        acceptor,
        ended: ended_whole(ended, whole),
    }
}

/// Serves the net with so many event threads. The first of them is this one and accepts clients; the others
/// take turns until it is done. Where no thread can be made, it does all the work. Where memory lacks in one
/// of them, they all stop, and the answer says so, even if the first one was done before.
pub fn run_event_threads<
    N: ClientSource,
    W: Handler<N::Client, N::Origin> + Drop + Send,
    P: Rouse<Question = W::Question, Reply = W::Reply> + Drop + Send,
    G: Gate + Sync,
    C: Clock + Sync,
    R: Threads + Wait + Sync,
>(
    service: &Service<'_, PlaceGroup<W, P>, G, C, R>,
    setting: &W::Setting,
    threads: u32,
    net: &mut N,
    desk: Desk<PlaceGroup<W, P>>,
    acceptor: Acceptor,
) -> Joined<PlaceGroup<W, P>>
    requires server { IsOpenServer W.is_setting W.are_terms setting.now
        (tags_of service.now.shared.slots.now) }
    requires asks { CanAskInServer W.fits W.keeps W.may_ask W.right W.answers
        P.fits P.only_asked P.may_ask P.right P.answers (tags_of service.now.shared.slots.now) }
    requires works { CanWork service.now.shared.slots.now service.now.shared.queue.now threads desk
        × (threads ≤ MOST_THREADS) }
    requires acceptor { IsAcceptorOf acceptor (N.seen net.old) }
    ensures serves { Serves W.fits W.keeps P.fits W.behind W.is_done W.is_spent W.is_note N.tells
        service.now.shared.slots.now service.now.shared.queue.now
        result.ended desk result.desk acceptor result.acceptor (N.seen net.old) (N.seen net.new) }
    ensures over { OnOk result.ended (IsOver result.acceptor) }
    ensures helped { OnOk result.ended (WorkWholeInServer W.fits W.keeps W.asking W.answers W.called
        W.heard W.left P.fits P.asking P.answers P.called P.heard P.left
        (tags_of service.now.shared.slots.now) threads desk result.desk) }
{
    if threads == 1 {
        return serve_alone(service, setting, net, desk, acceptor);
    }
    serve_beside(service, setting, threads, net, desk, acceptor)
}
