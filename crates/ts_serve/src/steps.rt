//! How the first thread looks at places, one after the other.

ghost use Rattle.std.specs.Prelude.{◌≡◌, ◌+◌, ◌%◌, OnOk};
ghost use Rattle.ts_slot.specs.Words.{tags_of, view, IsSeatOf};
ghost use Rattle.ts_thread.specs.Seats.{KeepsSeat};
ghost use Rattle.ts_serve.specs.Acceptor.{HasPlacesOf, IsAcceptorOf, IsOpenServer, KeepsAcceptor};
ghost use Rattle.ts_serve.specs.Acceptor.{KeepsSome, LosesNobody};
ghost use Rattle.ts_serve.specs.declared.acceptor.TheConstants.{PLACES};
ghost use Rattle.ts_serve.specs.TakingOut.{IsLookedAt};

use crate::acceptor::{Acceptor, PLACES};
use crate::place::PlaceGroup;
use crate::source::ClientSource;
use crate::step::step_at;
use crate::tenant::Handler;
use std::alloc::Global;
use ts_group::World;
use ts_link::NoMemory;
use ts_slot::{Seat, Slots};

/// Looks at one place, and goes on with its client; the next time at the one that follows.
pub fn step_next<
    N: ClientSource,
    W: Handler<N::Client, N::Origin> + Drop,
    P: World<Question = W::Question, Reply = W::Reply> + Drop,
>(
    alloc: Global,
    setting: &W::Setting,
    net: &mut N,
    slots: &Slots<PlaceGroup<W, P>>,
    seat: &mut Seat<PlaceGroup<W, P>>,
    acceptor: &mut Acceptor,
) -> Result<(), NoMemory>
    requires seat { IsSeatOf slots.now seat.old }
    requires server { IsOpenServer W.is_setting W.are_terms setting.now (tags_of slots.now) }
    requires acceptor { IsAcceptorOf acceptor.old (N.seen net.old) }
    ensures seat { IsSeatOf slots.now seat.new × KeepsSeat (view seat.old) (view seat.new) 1 }
    ensures acceptor { IsAcceptorOf acceptor.new (N.seen net.new) }
    ensures keeps { KeepsAcceptor W.fits W.keeps P.fits W.behind W.is_done W.is_spent W.is_note N.tells
        (HasPlacesOf (tags_of slots.now)) (view seat.old).known (view seat.new).known acceptor.old
        acceptor.new
        (N.seen net.old) (N.seen net.new) }
    ensures all { OnOk result (LosesNobody acceptor.old acceptor.new (N.seen net.old) (N.seen net.new)) }
    ensures looks { OnOk result ((acceptor.new.next ≡ (acceptor.old.next + 1) % PLACES)
        × IsLookedAt W.sound W.whose_of W.is_ended W.is_lacking acceptor.old.next
        acceptor.old.row.items acceptor.new.row.items (view seat.old) (view seat.new)) }
{
    let k = acceptor.next;
    acceptor.next = (k + 1) % PLACES;
    step_at(alloc, setting, net, slots, seat, &mut acceptor.row, k)
}

/// Looks at all places, and goes on with their clients.
pub fn step_all<
    N: ClientSource,
    W: Handler<N::Client, N::Origin> + Drop,
    P: World<Question = W::Question, Reply = W::Reply> + Drop,
>(
    alloc: Global,
    setting: &W::Setting,
    net: &mut N,
    slots: &Slots<PlaceGroup<W, P>>,
    seat: &mut Seat<PlaceGroup<W, P>>,
    acceptor: &mut Acceptor,
) -> Result<(), NoMemory>
    requires seat { IsSeatOf slots.now seat.old }
    requires server { IsOpenServer W.is_setting W.are_terms setting.now (tags_of slots.now) }
    requires acceptor { IsAcceptorOf acceptor.old (N.seen net.old) }
    ensures seat { IsSeatOf slots.now seat.new × KeepsSome (view seat.old) (view seat.new) }
    ensures acceptor { IsAcceptorOf acceptor.new (N.seen net.new) }
    ensures keeps { KeepsAcceptor W.fits W.keeps P.fits W.behind W.is_done W.is_spent W.is_note N.tells
        (HasPlacesOf (tags_of slots.now)) (view seat.old).known (view seat.new).known acceptor.old
        acceptor.new
        (N.seen net.old) (N.seen net.new) }
    ensures all { OnOk result (LosesNobody acceptor.old acceptor.new (N.seen net.old) (N.seen net.new)) }
{
    'places: for _ in 0..PLACES {
        step_next(alloc, setting, net, slots, seat, acceptor)?;
    }
    Ok(())
}
