//! How a server is opened, with its slots, its queue, the first thread's desk and the acceptor, and closed
//! where its threads ended early.

ghost use Rattle.std.specs.Prelude.{◌≡◌, ◌+◌, ◌≤◌, ◌++◌, [], All, Ok, length, map, replicate, IfOk};
ghost use Rattle.ts_group.specs.declared.either.EitherTag.TheVariants as EitherTag;
ghost use Rattle.ts_slot.specs.Limits.{most_groups, whole_share};
ghost use Rattle.ts_slot.specs.Words.{AreLast, IsSeatOf, tags_of, view};
ghost use Rattle.ts_thread.specs.Desks.{IsDeskOf};
ghost use Rattle.ts_serve.specs.Acceptor.{HasPlacesOf, IsNotAsked, IsServerOf};
ghost use Rattle.ts_serve.specs.Balance.{HasNoMore, KeepsBalance};
ghost use Rattle.ts_serve.specs.Closing.{KeepsSessions};
ghost use Rattle.ts_serve.specs.Knowledge.{KnowsAll};
ghost use Rattle.ts_serve.specs.Leftover.{CanGoOn};
ghost use Rattle.ts_serve.specs.Opening.{AreNewGroups, IsNewAcceptor, IsNewServer};
ghost use Rattle.ts_serve.specs.Servers.{CanAskInServer, CanStandBeside, StandsBeside, server_tags};
ghost use Rattle.ts_serve.specs.TakingOut.{IsClosedOver};

use crate::accept::empty_group;
use crate::acceptor::{Acceptor, Listening, PLACES};
use crate::clear::clear_places;
use crate::connection::Connection;
use crate::leftover::finish_left;
use crate::place::PlaceGroup;
use crate::service::Host;
use crate::tenant::{Handler, Tenant};
use std::alloc::Global;
use std::collections::VecDeque;
use std::snapshot::Snapshot;
use std::sync::Wait;
use ts_exchange::Tagged;
use ts_group::{Either, EitherTag, Group, World};
use ts_link::{Clock, Link, NoMemory};
use ts_queue::EventQueue;
use ts_slot::{Seat, Slots, Slotted};
use ts_thread::{Desk, Unfinished};
use ts_txn::Net;
use ts_upstream::Upstream;

/// A server that was opened.
#[derive(Drop)]
pub struct Server<V: Slotted> {
    pub slots: Slots<V>,
    pub queue: EventQueue,
    /// That of the first thread.
    pub desk: Desk<V>,
}

/// An acceptor of so many clients at most, before anybody came.
pub fn new_acceptor(alloc: Global, most: u32) -> Result<Acceptor, NoMemory>
    ensures { IfOk result (IsNewAcceptor most) }
{
    let row = vec![in alloc; Connection::Free; PLACES as usize]?;
    Ok(Acceptor {
        row,
        came: 0,
        most,
        listening: Listening::Open,
        next: 0,
    })
}

// The groups of empty places, each with the tag of its slot, and room for so many more.
fn make_places<
    C: Link,
    O: Upstream<C>,
    W: Handler<C, O> + Drop,
    P: World<Question = W::Question, Reply = W::Reply> + Drop,
>(
    alloc: Global,
    setting: &W::Setting,
    more: usize,
) -> Result<(Vec<PlaceGroup<W, P>>, Vec<EitherTag<W::Terms, P::Tag>>), NoMemory>
where
    W::Terms: Drop,
    P::Tag: Drop,
    requires few { PLACES + more ≤ most_groups }
    ensures tags { IfOk result (λ r. (terms : W.Terms) → W.are_terms setting.now terms
        → r.1.items ≡ replicate PLACES (EitherTag.One terms)) }
    ensures groups { IfOk result (λ r. AreNewGroups
        W.fits W.keeps W.sound P.fits P.sound P.only_asked P.is_first r.1.items r.0.items) }
{
    let mut groups = Vec::with_capacity(alloc, PLACES as usize + more)?;
    let mut tags = Vec::with_capacity(alloc, PLACES as usize + more)?;
    'places: for _place in 0..PLACES {
        let group = empty_group(alloc, 0)?;
        groups.push(group)?;
        tags.push(EitherTag::One(W::terms(setting)))?;
    }
    Ok((groups, tags))
}

// The groups of the worlds that stand beside the places behind those of the places, with their tags.
fn add_others<W: Tenant + Drop, P: World<Question = W::Question, Reply = W::Reply> + Drop>(
    alloc: Global,
    mut groups: Vec<PlaceGroup<W, P>>,
    mut tags: Vec<EitherTag<W::Terms, P::Tag>>,
    others: Vec<Tagged<P, P::Tag>>,
) -> Result<(Vec<PlaceGroup<W, P>>, Vec<EitherTag<W::Terms, P::Tag>>), NoMemory>
where
    W::Terms: Drop,
    P::Tag: Drop,
    requires others { All (StandsBeside P.fits P.sound P.only_asked) others.items }
    requires groups { AreNewGroups W.fits W.keeps W.sound P.fits P.sound P.only_asked P.is_first
        tags.items groups.items }
    ensures tags { IfOk result (λ r.
        r.1.items ≡ tags.items ++ map (λ b. EitherTag.Other b.tag) others.items) }
    ensures groups { IfOk result (λ r. AreNewGroups
        W.fits W.keeps W.sound P.fits P.sound P.only_asked P.is_first r.1.items r.0.items) }
{
    let mut rest = VecDeque::from_vec(others);
    'others: while let Some(beside) = rest.pop_front() {
        let Tagged { world, tag } = beside;
        let group = Group::make(alloc, Either::Other(world), 0)?;
        groups.push(group)?;
        tags.push(EitherTag::Other(tag))?;
    }
    Ok((groups, tags))
}

/// Opens a server: places of the terms of a setting, all of them empty, and behind them the groups of the
/// worlds that stand beside the places.
pub fn open_server<
    C: Link,
    O: Upstream<C>,
    W: Handler<C, O> + Drop,
    P: World<Question = W::Question, Reply = W::Reply> + Drop,
>(
    alloc: Global,
    setting: &W::Setting,
    others: Vec<Tagged<P, P::Tag>>,
) -> Result<Server<PlaceGroup<W, P>>, NoMemory>
where
    W::Terms: Drop,
    P::Tag: Drop,
    requires others { CanStandBeside P.fits P.sound P.only_asked others.items }
    ensures opened { IfOk result (λ server. (terms : W.Terms) → W.are_terms setting.now terms
        → IsNewServer (server_tags terms others.items) server) }
    ensures places { IfOk result (λ server. IsServerOf W.are_terms setting.now (tags_of server.slots)) }
{
    // There are terms, which are those of all places.
    let _terms = W::terms(setting);
    let (groups, tags) = make_places::<C, O, W, P>(alloc, setting, others.len())?;
    let (groups, tags) = add_others(alloc, groups, tags, others)?;
    let Ok((slots, seat)) = Slots::make(alloc, groups, tags) else {
        return Err(NoMemory);
    };
    let (queue, pass) = EventQueue::make(alloc)?;
    match Desk::make(alloc, seat, pass) {
        Ok(desk) => Ok(Server { slots, queue, desk }),
        Err(_) => Err(NoMemory),
    }
}

// What was found, where all events were handled and all places cleared.
fn found_whole<T: Drop>(
    found: T,
    handled: Result<(), Unfinished>,
    cleared: Result<(), NoMemory>,
) -> Result<T, NoMemory>
    ensures { IfOk result (λ whole. (whole ≡ found) × (handled ≡ Ok tt) × (cleared ≡ Ok tt)) }
{
    let Ok(()) = handled else {
        return Err(NoMemory);
    };
    let Ok(()) = cleared else {
        return Err(NoMemory);
    };
    Ok(found)
}

// Closes the slots of a server: its groups as they stood last, which go on as their tags allow.
fn close_slots<W: Tenant + Drop, P: World<Question = W::Question, Reply = W::Reply> + Drop>(
    alloc: Global,
    slots: Slots<PlaceGroup<W, P>>,
    seat: Seat<PlaceGroup<W, P>>,
) -> Result<Vec<PlaceGroup<W, P>>, NoMemory>
where
    W::Terms: Drop,
    P::Tag: Drop,
    requires seat { IsSeatOf slots seat }
    requires whole { ((view seat).share ≡ whole_share) × ((view seat).held ≡ []) }
    requires asks { CanAskInServer W.fits W.keeps W.may_ask W.right W.answers
        P.fits P.only_asked P.may_ask P.right P.answers (tags_of slots) }
    ensures count { IfOk result (λ groups. length groups.items ≡ length (tags_of slots)) }
    ensures last { IfOk result (λ groups. AreLast slots seat groups.items) }
    ensures can { IfOk result (λ groups. CanGoOn W.fits W.keeps W.sound P.fits P.sound P.only_asked P.is_first
        W.may_ask W.right W.answers P.may_ask P.right P.answers groups.items) }
{
    let Ok(groups) = slots.close(alloc, seat) else {
        return Err(NoMemory);
    };
    Ok(groups)
}

/// Closes a server that nobody else uses: what is pending in its groups is handled, but where handlers may
/// wait for their clients without end, and what is left of each client that is accepted, and whose handler
/// has ended or may wait, is handed to the net. Answers its groups as they were found then, for contracts
/// alone, which takes no memory. Where memory lacked, or a group had no turn left, the rest is dropped.
#[tactic(auto, using(crate::proofs::Leftovers::goes_same))]
pub fn close_server<
    N: Net,
    W: Handler<N::Client, N::Origin> + Drop,
    P: World<Question = W::Question, Reply = W::Reply> + Drop,
    G,
    C: Clock,
    R: Wait,
>(
    host: &Host<'_, G, C, R>,
    net: &mut N,
    server: Server<PlaceGroup<W, P>>,
    row: &mut Vec<Connection>,
) -> Result<Snapshot<Vec<PlaceGroup<W, P>>>, NoMemory>
where
    W::Terms: Drop,
    P::Tag: Drop,
    requires desk { IsDeskOf server.slots server.queue server.desk }
    requires whole { ((view server.desk.seat).share ≡ whole_share) × ((view server.desk.seat).held ≡ []) }
    requires asks { CanAskInServer W.fits W.keeps W.may_ask W.right W.answers
        P.fits P.only_asked P.may_ask P.right P.answers (tags_of server.slots) }
    requires places { length row.old.items ≡ PLACES }
    ensures balance { KeepsBalance N.tells W.is_done (HasPlacesOf (tags_of server.slots))
        row.old.items (N.seen net.old) row.new.items (N.seen net.new) }
    ensures sessions { KeepsSessions N.tells W.behind W.is_done W.is_note
        (λ terms. HasPlacesOf (tags_of server.slots) terms × KnowsAll W.fits W.keeps P.fits W.behind terms
        (view server.desk.seat).known row.old.items (N.seen net.old))
        row.old.items (N.seen net.old) row.new.items (N.seen net.new) }
    ensures net { IsNotAsked (N.seen net.old) (N.seen net.new)
        × (HasNoMore row.old.items (N.seen net.old) → HasNoMore row.new.items (N.seen net.new)) }
    ensures closed { IfOk result (λ found. IsClosedOver W.whose_of W.is_ended W.may_wait
        (tags_of server.slots) found.value.items row.old.items row.new.items) }
{
    let Server {
        slots,
        queue: _queue,
        desk,
    } = server;
    let (seat, _pass) = desk.into_parts();
    let mut groups = close_slots::<W, P>(host.alloc, slots, seat)?;
    let handled = finish_left::<N::Client, N::Origin, W, P, C, R>(
        host.rt,
        host.clock,
        groups.as_mut_slice(),
    );
    let found = Snapshot::of(&groups);
    let cleared = clear_places(net, row, groups);
    found_whole(found, handled, cleared)
}
