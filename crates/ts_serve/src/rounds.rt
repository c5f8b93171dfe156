//! The first thread: it accepts clients, starts their handlers, goes on with the clients of those that have
//! ended, and takes turns as the other threads do.

ghost use Rattle.std.specs.Prelude.{◌≡◌, false, true, OnOk};
ghost use Rattle.std.specs.List.{sum_by};
ghost use Rattle.ts_slot.specs.Words.{tags_of};
ghost use Rattle.ts_thread.specs.Desks.{IsDeskOf};
ghost use Rattle.ts_serve.specs.Acceptor.{IsAcceptorOf, IsOpenServer, IsOver, Serves};
ghost use Rattle.ts_serve.specs.Balance.{is_taken};
ghost use Rattle.ts_serve.specs.Servers.{CanAskInServer};
ghost use Rattle.ts_serve.specs.Starting.{is_waiting};

use crate::accept::accept_all;
use crate::acceptor::{Acceptor, Listening};
use crate::connection::Connection;
use crate::place::PlaceGroup;
use crate::ready::{LONGEST_PAUSE, Ready, ask_ready, rouse_ready};
use crate::service::Service;
use crate::source::ClientSource;
use crate::start::start_handlers;
use crate::steps::{step_all, step_next};
use crate::tenant::Handler;
use crate::worker::PAUSE;
use std::sync::Wait;
use std::sync::atomic::Ordering;
use ts_group::{Rouse, World};
use ts_link::{Clock, Gate, NoMemory};
use ts_thread::{Desk, Did, turn_desk};

// The number of the first thread.
const FIRST: u32 = 0;

// Whether no client is accepted that was not retired.
fn is_empty(row: &[Connection]) -> bool
    ensures { result ≡ true → sum_by is_taken row.now ≡ 0 }
{
    for connection in row {
        if let Connection::Accepted { .. } = *connection {
            return false;
        }
    }
    true
}

// Whether the handler of each client in the row was started.
fn are_started(row: &[Connection]) -> bool
    ensures { result ≡ true → sum_by is_waiting row.now ≡ 0 }
{
    for connection in row {
        if let Connection::Accepted { started: false, .. } = *connection {
            return false;
        }
    }
    true
}

// Whether nothing was to be done in a round: nobody came, and nobody waits to be started.
fn was_idle(came: bool, row: &[Connection]) -> bool
    ensures { result ≡ true → (came ≡ false) × (sum_by is_waiting row.now ≡ 0) }
{
    !came && are_started(row)
}

/// Whether nobody more is accepted, and what is left of each client was handed over.
pub fn is_over(acceptor: &Acceptor) -> bool
    ensures { result ≡ true → IsOver acceptor.now }
{
    (acceptor.listening != Listening::Open || acceptor.came >= acceptor.most)
        && is_empty(&acceptor.row)
}

// Accepts clients, starts their handlers, and looks at one place. Answers whether a client came.
fn tend<
    N: ClientSource,
    W: Handler<N::Client, N::Origin> + Drop,
    P: World<Question = W::Question, Reply = W::Reply> + Drop,
    G,
    C,
    R: Wait,
>(
    service: &Service<'_, PlaceGroup<W, P>, G, C, R>,
    setting: &W::Setting,
    net: &mut N,
    desk: &mut Desk<PlaceGroup<W, P>>,
    acceptor: &mut Acceptor,
    moment: u64,
) -> Result<bool, NoMemory>
    requires server { IsOpenServer W.is_setting W.are_terms setting.now
        (tags_of service.now.shared.slots.now) }
    requires here { IsDeskOf service.now.shared.slots.now service.now.shared.queue.now desk.old
        × IsAcceptorOf acceptor.old (N.seen net.old) }
    ensures { Serves W.fits W.keeps P.fits W.behind W.is_done W.is_spent W.is_note N.tells
        service.now.shared.slots.now service.now.shared.queue.now result desk.old desk.new
        acceptor.old acceptor.new (N.seen net.old) (N.seen net.new) }
{
    let slots = service.shared.slots;
    let came = accept_all(service.alloc, setting, net, slots, &mut desk.seat, acceptor)?;
    start_handlers(&service.shared, desk, &mut acceptor.row, moment)?;
    step_next(service.alloc, setting, net, slots, &mut desk.seat, acceptor)?;
    Ok(came)
}

// One round of the first thread: it tends the clients and takes a turn. Where that was idle it looks at all
// places. Answers whether there was nothing to do, and nobody waits to be started.
fn take_round<
    N: ClientSource,
    W: Handler<N::Client, N::Origin> + Drop,
    P: World<Question = W::Question, Reply = W::Reply> + Drop,
    G: Gate,
    C,
    R: Wait,
>(
    service: &Service<'_, PlaceGroup<W, P>, G, C, R>,
    setting: &W::Setting,
    net: &mut N,
    desk: &mut Desk<PlaceGroup<W, P>>,
    acceptor: &mut Acceptor,
    moment: u64,
) -> Result<bool, NoMemory>
    requires server { IsOpenServer W.is_setting W.are_terms setting.now
        (tags_of service.now.shared.slots.now) }
    requires asks { CanAskInServer W.fits W.keeps W.may_ask W.right W.answers
        P.fits P.only_asked P.may_ask P.right P.answers (tags_of service.now.shared.slots.now) }
    requires here { IsDeskOf service.now.shared.slots.now service.now.shared.queue.now desk.old
        × IsAcceptorOf acceptor.old (N.seen net.old) }
    ensures { Serves W.fits W.keeps P.fits W.behind W.is_done W.is_spent W.is_note N.tells
        service.now.shared.slots.now service.now.shared.queue.now result desk.old desk.new
        acceptor.old acceptor.new (N.seen net.old) (N.seen net.new) }
{
    let came = tend(service, setting, net, desk, acceptor, moment)?;
    let Did::Idle = turn_desk(&service.shared, FIRST, desk, moment)? else {
        return Ok(false);
    };
    step_all(
        service.alloc,
        setting,
        net,
        service.shared.slots,
        &mut desk.seat,
        acceptor,
    )?;
    Ok(was_idle(came, &acceptor.row))
}

// For how long nothing is to be done behind a round, in milliseconds, as far as is known: where nobody is
// there, only a new client brings something.
fn free_for(is_idle: bool, row: &[Connection]) -> u64 {
    if !is_idle {
        return 0;
    }
    if is_empty(row) {
        return LONGEST_PAUSE;
    }
    PAUSE
}

// One round of the first thread, behind which the net is asked who is ready, and the handlers of these are
// roused.
fn go_round<
    N: ClientSource,
    W: Handler<N::Client, N::Origin> + Drop,
    P: Rouse<Question = W::Question, Reply = W::Reply> + Drop,
    G: Gate,
    C: Clock,
    R: Wait,
>(
    service: &Service<'_, PlaceGroup<W, P>, G, C, R>,
    setting: &W::Setting,
    net: &mut N,
    desk: &mut Desk<PlaceGroup<W, P>>,
    acceptor: &mut Acceptor,
    ready: &mut Ready,
) -> Result<(), NoMemory>
    requires server { IsOpenServer W.is_setting W.are_terms setting.now
        (tags_of service.now.shared.slots.now) }
    requires asks { CanAskInServer W.fits W.keeps W.may_ask W.right W.answers
        P.fits P.only_asked P.may_ask P.right P.answers (tags_of service.now.shared.slots.now) }
    requires here { IsDeskOf service.now.shared.slots.now service.now.shared.queue.now desk.old
        × IsAcceptorOf acceptor.old (N.seen net.old) }
    ensures { Serves W.fits W.keeps P.fits W.behind W.is_done W.is_spent W.is_note N.tells
        service.now.shared.slots.now service.now.shared.queue.now result desk.old desk.new
        acceptor.old acceptor.new (N.seen net.old) (N.seen net.new) }
{
    let moment = service.clock.now();
    let is_idle = take_round(service, setting, net, desk, acceptor, moment)?;
    let most = free_for(is_idle, &acceptor.row);
    ask_ready(net, ready, most, moment);
    service.pause.store(ready.pause, Ordering::SeqCst);
    let later = service.clock.now();
    rouse_ready(&service.shared, desk, &acceptor.row, ready, later)
}

/// Serves the net until nobody more is accepted and what is left of each client was handed over. Where the
/// flag is set before, another thread lacked memory.
pub fn serve_rounds<
    N: ClientSource,
    W: Handler<N::Client, N::Origin> + Drop,
    P: Rouse<Question = W::Question, Reply = W::Reply> + Drop,
    G: Gate,
    C: Clock,
    R: Wait,
>(
    service: &Service<'_, PlaceGroup<W, P>, G, C, R>,
    setting: &W::Setting,
    net: &mut N,
    desk: &mut Desk<PlaceGroup<W, P>>,
    acceptor: &mut Acceptor,
) -> Result<(), NoMemory>
    requires server { IsOpenServer W.is_setting W.are_terms setting.now
        (tags_of service.now.shared.slots.now) }
    requires asks { CanAskInServer W.fits W.keeps W.may_ask W.right W.answers
        P.fits P.only_asked P.may_ask P.right P.answers (tags_of service.now.shared.slots.now) }
    requires here { IsDeskOf service.now.shared.slots.now service.now.shared.queue.now desk.old
        × IsAcceptorOf acceptor.old (N.seen net.old) }
    ensures serves { Serves W.fits W.keeps P.fits W.behind W.is_done W.is_spent W.is_note N.tells
        service.now.shared.slots.now service.now.shared.queue.now result desk.old desk.new
        acceptor.old acceptor.new (N.seen net.old) (N.seen net.new) }
    ensures over { OnOk result (IsOver acceptor.new) }
{
    let mut ready = Ready::new(service.alloc);
    'rounds: for _ in service.shared.rt.forever() {
        if service.stop.load(Ordering::SeqCst) {
            return Err(NoMemory);
        }
        if is_over(acceptor) {
            return Ok(());
        }
        go_round(service, setting, net, desk, acceptor, &mut ready)?;
    }
    unreachable!()
}
