//! How clients are accepted, each into the least empty place.

ghost use Rattle.std.specs.Prelude.{⊤, ◌≡◌, ◌<◌, false, length, get_or, IfOk, IfSome, MatchOption, OnOk};
ghost use Rattle.ts_slot.specs.Words.{tags_of, view, IsSeatOf};
ghost use Rattle.ts_thread.specs.Entering.{FindsLived};
ghost use Rattle.ts_thread.specs.Seats.{KeepsSeat, Leaves};
ghost use Rattle.ts_serve.specs.declared.connection.Connection.TheVariants as Connection;
ghost use Rattle.ts_serve.specs.declared.acceptor.Listening.TheVariants as Listening;
ghost use Rattle.ts_serve.specs.Arrivals.{CameAs, given_after};
ghost use Rattle.ts_serve.specs.Acceptor.{HasPlacesOf, IsAcceptorOf, IsOpenServer, KeepsAcceptor};
ghost use Rattle.ts_serve.specs.Acceptor.{KeepsAccount};
ghost use Rattle.ts_serve.specs.Acceptor.{KeepsSome, LosesNobody};
ghost use Rattle.ts_serve.specs.Balance.{row_after};
ghost use Rattle.ts_serve.specs.Knowledge.{KnowsPlace};
ghost use Rattle.ts_serve.specs.Notes.{KeepsBooks};
ghost use Rattle.ts_journal.specs.Machine.{HasLived};
ghost use Rattle.ts_serve.specs.Tenants.{HoldsHandler, IsEmptyGroup, IsPlace, MayLive, MayLiveAt};
ghost use Rattle.ts_serve.specs.Tenants.{StandsAccepted};
ghost use Rattle.ts_txn.specs.Net.{IsHandedNothing};

use crate::acceptor::{Acceptor, Listening, PLACES};
use crate::arrival::{Arrival, receive};
use crate::connection::Connection;
use crate::place::{Place, PlaceGroup};
use crate::source::ClientSource;
use crate::tenant::{Handler, Tenant};
use std::alloc::Global;
use ts_group::{Either, Group, World};
use ts_link::NoMemory;
use ts_slot::{Seat, Slots, Turn};
use ts_thread::{enter, leave_found, put_tenant};

/// The group of an empty place, which has made so many turns elsewhere.
pub fn empty_group<W: Tenant + Drop, P: World<Question = W::Question, Reply = W::Reply> + Drop>(
    alloc: Global,
    turns: u64,
) -> Result<PlaceGroup<W, P>, NoMemory>
    ensures { IfOk result (IsEmptyGroup turns) }
{
    Group::make(alloc, Either::One(Place::Empty), turns)
}

/// The group of a turn has lived, as each has.
pub fn open_turn<W: Tenant + Drop, P: World<Question = W::Question, Reply = W::Reply> + Drop>(
    turn: &mut Turn<PlaceGroup<W, P>>,
)
    ensures same { turn.new ≡ turn.old }
    ensures lived { HasLived turn.old.boxed.value.cx.log.base.made turn.old.boxed.value.cx.log.state }
{
    turn.value().journal().known();
}

/// Leaves a handler in the place that the seat won last, in a group of its own. Where there is none, or at
/// want of memory, the group of an empty place is left there.
pub fn put_next<W: Tenant + Drop, P: World<Question = W::Question, Reply = W::Reply> + Drop>(
    alloc: Global,
    slots: &Slots<PlaceGroup<W, P>>,
    seat: &mut Seat<PlaceGroup<W, P>>,
    turn: Turn<PlaceGroup<W, P>>,
    next: Option<W>,
    spare: PlaceGroup<W, P>,
) -> Result<(), NoMemory>
    requires seat { IsSeatOf slots.now seat.old }
    requires finds { FindsLived (view seat.old) turn }
    requires spare { IsEmptyGroup turn.number spare × IsPlace (tags_of slots.now) turn.group }
    requires lives { IfSome next (MayLiveAt W.fits W.keeps W.sound (tags_of slots.now) turn.group) }
    ensures seat { IsSeatOf slots.now seat.new }
    ensures leaves { Leaves (view seat.old) (view seat.new) }
    ensures holds { OnOk result (IfSome next (λ handler.
        HoldsHandler turn.group turn.number handler (view seat.new).known)) }
    ensures left { (terms : W.Terms) → IfSome next (MayLive W.fits W.keeps W.sound terms)
        → KnowsPlace W.fits W.keeps P.fits terms (view seat.new).known turn.group turn.number }
{
    let Some(handler) = next else {
        put_tenant(slots, seat, turn, spare);
        return Ok(());
    };
    match Group::make(alloc, Either::One(Place::Tenant(handler)), turn.number()) {
        Ok(group) => {
            put_tenant(slots, seat, turn, group);
            Ok(())
        }
        Err(_) => {
            put_tenant(slots, seat, turn, spare);
            Err(NoMemory)
        }
    }
}

// The least place that is free.
fn free_place(row: &[Connection]) -> Option<u32>
    requires { length row.now ≡ PLACES }
    ensures { IfSome result (λ k. (k < PLACES) × (get_or row.now k Connection.Free ≡ Connection.Free)) }
{
    'places: for k in 0..PLACES {
        if let Connection::Free = row[k as usize] {
            return Some(k);
        }
    }
    None
}

// Receives whoever is there for the place k, which is free, and keeps account of the answer. The group of its
// handler is made with so many turns.
fn receive_at<N: ClientSource, W: Handler<N::Client, N::Origin>>(
    net: &mut N,
    acceptor: &mut Acceptor,
    k: u32,
    made: u64,
) -> Arrival<N::Client, N::Origin>
    requires acceptor { IsAcceptorOf acceptor.old (N.seen net.old) }
    requires open { (acceptor.old.listening ≡ Listening.Open) × (acceptor.old.came < acceptor.old.most) }
    requires free { (k < PLACES) × (get_or acceptor.old.row.items k Connection.Free ≡ Connection.Free) }
    ensures acceptor { IsAcceptorOf acceptor.new (N.seen net.new) }
    ensures came { CameAs N.Client.Link N.Origin.Link N.Origin.Upstream.own acceptor.new.came result }
    ensures keeps { KeepsAccount acceptor.old acceptor.new (N.seen net.old) (N.seen net.new)
        × IsHandedNothing (N.seen net.old) (N.seen net.new)
        × KeepsBooks N.tells W.is_done W.is_note (λ terms. ⊤) acceptor.old.row.items (N.seen net.old)
        acceptor.new.row.items (N.seen net.new) }
    ensures row { (acceptor.new.row.items ≡ row_after k acceptor.new.came made result acceptor.old.row.items)
        × (acceptor.new.came ≡ given_after acceptor.old.came result) }
    ensures all { LosesNobody acceptor.old acceptor.new (N.seen net.old) (N.seen net.new) }
{
    let number = u64::from(acceptor.came) + 1;
    match receive::<N, W>(net, &mut acceptor.row, k, number, made) {
        Arrival::Came { client, origin } => {
            acceptor.came += 1;
            Arrival::Came { client, origin }
        }
        Arrival::Nobody => Arrival::Nobody,
        Arrival::Closed => {
            acceptor.listening = Listening::Closed;
            Arrival::Closed
        }
        Arrival::Failed => {
            acceptor.listening = Listening::Failed;
            Arrival::Failed
        }
    }
}

/// Accepts one client, if more may come, a place is free, no other seat holds it and one is there. Answers
/// the place of whoever came, in which its handler stands then, and `None` where nobody came. At want of
/// memory the handler is dropped.
pub fn accept_one<
    N: ClientSource,
    W: Handler<N::Client, N::Origin> + Drop,
    P: World<Question = W::Question, Reply = W::Reply> + Drop,
>(
    alloc: Global,
    setting: &W::Setting,
    net: &mut N,
    slots: &Slots<PlaceGroup<W, P>>,
    seat: &mut Seat<PlaceGroup<W, P>>,
    acceptor: &mut Acceptor,
) -> Result<Option<u32>, NoMemory>
    requires server { IsOpenServer W.is_setting W.are_terms setting.now (tags_of slots.now) }
    requires seat { IsSeatOf slots.now seat.old }
    requires acceptor { IsAcceptorOf acceptor.old (N.seen net.old) }
    ensures seat { IsSeatOf slots.now seat.new × KeepsSeat (view seat.old) (view seat.new) 1 }
    ensures acceptor { IsAcceptorOf acceptor.new (N.seen net.new) }
    ensures keeps { KeepsAcceptor W.fits W.keeps P.fits W.behind W.is_done W.is_spent W.is_note N.tells
        (HasPlacesOf (tags_of slots.now)) (view seat.old).known (view seat.new).known acceptor.old
        acceptor.new
        (N.seen net.old) (N.seen net.new) }
    ensures all { LosesNobody acceptor.old acceptor.new (N.seen net.old) (N.seen net.new) }
    ensures stands { IfOk result (λ came. MatchOption came (acceptor.new.came ≡ acceptor.old.came)
        (StandsAccepted W.whose_of (view seat.new).known acceptor.new.row.items)) }
{
    if acceptor.listening != Listening::Open || acceptor.came >= acceptor.most {
        return Ok(None);
    }
    let Some(k) = free_place(&acceptor.row) else {
        return Ok(None);
    };
    let Some(mut turn) = enter(slots, seat, k) else {
        return Ok(None);
    };
    let Ok(spare) = empty_group(alloc, turn.number()) else {
        leave_found(slots, seat, turn);
        return Err(NoMemory);
    };
    let Arrival::Came { client, origin } = receive_at::<N, W>(net, acceptor, k, turn.number())
    else {
        leave_found(slots, seat, turn);
        return Ok(None);
    };
    let number = u64::from(acceptor.came);
    open_turn(&mut turn);
    match W::make(alloc, setting, number, client, origin) {
        Ok(handler) => {
            put_next(alloc, slots, seat, turn, Some(handler), spare)?;
            Ok(Some(k))
        }
        Err(_) => {
            put_next(alloc, slots, seat, turn, None, spare)?;
            Err(NoMemory)
        }
    }
}

/// Accepts clients until none comes, none more may come, or no place is free for one. Answers whether one
/// came.
pub fn accept_all<
    N: ClientSource,
    W: Handler<N::Client, N::Origin> + Drop,
    P: World<Question = W::Question, Reply = W::Reply> + Drop,
>(
    alloc: Global,
    setting: &W::Setting,
    net: &mut N,
    slots: &Slots<PlaceGroup<W, P>>,
    seat: &mut Seat<PlaceGroup<W, P>>,
    acceptor: &mut Acceptor,
) -> Result<bool, NoMemory>
    requires server { IsOpenServer W.is_setting W.are_terms setting.now (tags_of slots.now) }
    requires seat { IsSeatOf slots.now seat.old }
    requires acceptor { IsAcceptorOf acceptor.old (N.seen net.old) }
    ensures seat { IsSeatOf slots.now seat.new × KeepsSome (view seat.old) (view seat.new) }
    ensures acceptor { IsAcceptorOf acceptor.new (N.seen net.new) }
    ensures keeps { KeepsAcceptor W.fits W.keeps P.fits W.behind W.is_done W.is_spent W.is_note N.tells
        (HasPlacesOf (tags_of slots.now)) (view seat.old).known (view seat.new).known acceptor.old
        acceptor.new
        (N.seen net.old) (N.seen net.new) }
    ensures all { LosesNobody acceptor.old acceptor.new (N.seen net.old) (N.seen net.new) }
    ensures came { IfOk result (λ came. came ≡ false → acceptor.new.came ≡ acceptor.old.came) }
{
    let mut came = false;
    'arrivals: for _ in 0..PLACES {
        if accept_one(alloc, setting, net, slots, seat, acceptor)?.is_none() {
            return Ok(came);
        }
        came = true;
    }
    Ok(came)
}
