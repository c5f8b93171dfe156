//! How the first thread goes on with a client whose handler has ended: what is left of it is handed to the
//! net, or another handler stands in its place.

ghost use Rattle.std.specs.Prelude.{◌≡◌, ◌<◌, ◌↔◌, true, false, length, is_some, set};
ghost use Rattle.std.specs.Prelude.{IfOk, IfSome, MatchOption, OnOk, OnErr};
ghost use Rattle.ts_slot.specs.Words.{tags_of, view, IsSeatOf};
ghost use Rattle.ts_thread.specs.Entering.{Finds};
ghost use Rattle.ts_thread.specs.Seats.{KeepsSeat, Leaves};
ghost use Rattle.ts_txn.specs.Net.{IsNextOrigin};
ghost use Rattle.ts_serve.specs.Acceptor.{IsOpenServer};
ghost use Rattle.ts_group.specs.Either.{EitherFits};
ghost use Rattle.ts_serve.specs.Balance.{HasAll, HasNoMore};
ghost use Rattle.ts_serve.specs.Knowledge.{DoneAndSpent, KeepsServing, ServesOn};
ghost use Rattle.ts_serve.specs.Leaving.{BecomesOf, LeavesWhose};
ghost use Rattle.ts_serve.specs.Notes.{KeepsBooks, NotesAndDials, notes_of};
ghost use Rattle.ts_serve.specs.Places.{PlaceFits};
ghost use Rattle.ts_serve.specs.Stepping.{ChangesAt, ComesTo, IsFollowed, IsNextIn, IsOpened, IsStartedIn};
ghost use Rattle.ts_serve.specs.Stepping.{KeepsGiven};
ghost use Rattle.ts_serve.specs.Stepping.{next_in};
ghost use Rattle.ts_serve.specs.TakingOut.{EntersEnded, FindsLacking, HasEndedAt, IsLeftThere, IsLookedAt};
ghost use Rattle.ts_serve.specs.TakingOut.{lacks_in};
ghost use Rattle.ts_serve.specs.Tenants.{FitsTerms, HasEndedIn, IsEmptyGroup, IsPlaceOf, MayLive};
ghost use Rattle.ts_serve.specs.Whose.{next_of, noted_of};
ghost use Rattle.ts_serve.specs.declared.connection.Connection.TheVariants as connection;
ghost use Rattle.ts_serve.specs.declared.acceptor.TheConstants.{PLACES};
ghost use Rattle.ts_serve.specs.declared.whose.TheConstants.{LAST_PLACE};

use crate::accept::{empty_group, open_turn, put_next};
use crate::connection::{Connection, add_connection};
use crate::leaving::Leaving;
use crate::place::{Place, PlaceGroup};
use crate::retire::has_ended;
use crate::source::ClientSource;
use crate::tenant::Handler;
use crate::whose::Whose;
use std::alloc::Global;
use ts_group::{Either, World};
use ts_journal::Journal;
use ts_link::{Link, NoMemory};
use ts_slot::{Seat, Slots, Turn};
use ts_thread::{enter, leave_found, take_tenant};
use ts_txn::{Dialed, Noted};
use ts_upstream::Upstream;

// A handler that was taken out of its place, with the journal of its group, and the group of an empty place,
// which is left there if nobody comes next.
#[derive(Drop)]
struct TakenOut<W, G> {
    handler: W,
    journal: Journal,
    spare: G,
}

// Whether this handler has ended in the group that a turn found, which stays as it is.
fn finds_ended<
    C: Link,
    O: Upstream<C>,
    W: Handler<C, O> + Drop,
    P: World<Question = W::Question, Reply = W::Reply> + Drop,
>(turn: &mut Turn<PlaceGroup<W, P>>, whose: Whose, made: u64) -> bool
    ensures same { turn.new ≡ turn.old }
    ensures over { (result ≡ true) ↔ HasEndedAt W.sound W.whose_of W.is_ended whose made
        turn.old.boxed.value }
{
    has_ended(turn.value(), whose, made)
}

// Whether memory lacked in the handler of a place.
fn lacks_memory<
    C: Link,
    O: Upstream<C>,
    W: Handler<C, O> + Drop,
    P: World<Question = W::Question, Reply = W::Reply> + Drop,
>(group: &PlaceGroup<W, P>) -> bool
    ensures { result ≡ lacks_in W.is_lacking group.now.world }
{
    match group.world() {
        Either::One(Place::Tenant(handler)) => handler.lacks_memory(),
        _ => false,
    }
}

// Whether memory lacked in the handler of the group that a turn found, which stays as it is.
fn finds_lacking<
    C: Link,
    O: Upstream<C>,
    W: Handler<C, O> + Drop,
    P: World<Question = W::Question, Reply = W::Reply> + Drop,
>(turn: &mut Turn<PlaceGroup<W, P>>) -> bool
    ensures same { turn.new ≡ turn.old }
    ensures lacks { result ≡ lacks_in W.is_lacking turn.old.boxed.value.world }
{
    lacks_memory(turn.value())
}

// The turn of the place k, if this handler has ended there. Else the place is left as it was found. Where
// memory lacked in whoever lives there, the answer says so.
fn enter_ended<
    C: Link,
    O: Upstream<C>,
    W: Handler<C, O> + Drop,
    P: World<Question = W::Question, Reply = W::Reply> + Drop,
>(
    slots: &Slots<PlaceGroup<W, P>>,
    seat: &mut Seat<PlaceGroup<W, P>>,
    k: u32,
    whose: Whose,
    made: u64,
) -> Result<Option<Turn<PlaceGroup<W, P>>>, NoMemory>
    requires seat { IsSeatOf slots.now seat.old }
    requires place { k < length (tags_of slots.now) }
    ensures seat { IsSeatOf slots.now seat.new }
    ensures found { IfOk result (λ found. MatchOption found
        (IsLeftThere W.sound W.whose_of W.is_ended W.is_lacking whose made k (view seat.old) (view seat.new)
        × KeepsSeat (view seat.old) (view seat.new) 1)
        (EntersEnded W.sound W.whose_of W.is_ended (EitherFits (PlaceFits W.fits W.keeps) P.fits)
        (tags_of slots.now) whose made k (view seat.old) (view seat.new))) }
    ensures err { OnErr result (KeepsSeat (view seat.old) (view seat.new) 1
        × FindsLacking W.is_lacking k (view seat.old) (view seat.new)) }
{
    let Some(mut turn) = enter(slots, seat, k) else {
        return Ok(None);
    };
    if finds_lacking(&mut turn) {
        leave_found(slots, seat, turn);
        return Err(NoMemory);
    }
    if !finds_ended(&mut turn, whose, made) {
        leave_found(slots, seat, turn);
        return Ok(None);
    }
    open_turn(&mut turn);
    Ok(Some(turn))
}

// Takes the handler out of the group of a turn, in which it has ended.
fn take_out<
    C: Link,
    O: Upstream<C>,
    W: Handler<C, O> + Drop,
    P: World<Question = W::Question, Reply = W::Reply> + Drop,
>(
    alloc: Global,
    turn: &mut Turn<PlaceGroup<W, P>>,
    whose: Whose,
    made: u64,
) -> Result<TakenOut<W, PlaceGroup<W, P>>, NoMemory>
    requires ended { HasEndedAt W.sound W.whose_of W.is_ended whose made turn.old.boxed.value }
    ensures whose { IfOk result (λ out. W.whose_of out.handler ≡ whose) }
    ensures ended { IfOk result (λ out. (terms : W.Terms)
        → FitsTerms W.fits W.keeps W.sound P.fits P.sound P.only_asked P.is_first terms turn.old.boxed.value
        → HasEndedIn W.fits W.keeps W.sound W.is_ended terms out.handler out.journal) }
    ensures spare { IfOk result (λ out. IsEmptyGroup turn.old.number out.spare) }
    ensures turn { OnOk result (IsOpened turn.old turn.new) }
    ensures err { OnErr result (turn.new ≡ turn.old) }
{
    let spare = empty_group(alloc, turn.number())?;
    let empty = empty_group(alloc, turn.number())?;
    let group = take_tenant(turn, empty);
    group.known();
    let journal = group.journal();
    journal.known();
    journal.entries();
    let (world, journal) = group.into_parts();
    let Either::One(Place::Tenant(handler)) = world else {
        unreachable!()
    };
    Ok(TakenOut {
        handler,
        journal,
        spare,
    })
}

/// Notes what is left of the transaction of the client in the row for the place k, and dials an origin for
/// its next one, which is in the row then, with a group that is made with so many turns. At want of memory
/// what is left is dropped, and nothing else is done.
pub fn note_and_dial<N: ClientSource, W: Handler<N::Client, N::Origin>>(
    net: &mut N,
    row: &mut Vec<Connection>,
    k: u32,
    made: u64,
    noted: Noted<N::Origin>,
) -> Result<Option<N::Origin>, NoMemory>
    requires row { IsStartedIn k (noted_of noted) row.old.items }
    requires place { noted.place < LAST_PLACE }
    ensures net { IfOk result (λ origin. NotesAndDials N.tells noted (is_some origin)
        (N.seen net.old) (N.seen net.new)) }
    ensures row { IfOk result (λ origin. row.new.items
        ≡ set row.old.items k (connection.Accepted (next_of noted (is_some origin)) false made)) }
    ensures books { OnOk result (KeepsBooks N.tells W.is_done W.is_note (λ terms. W.is_note terms noted)
        row.old.items (N.seen net.old) row.new.items (N.seen net.new)) }
    ensures all { OnOk result ((HasAll row.old.items (N.seen net.old) → HasAll row.new.items (N.seen net.new))
        × (HasNoMore row.old.items (N.seen net.old) → HasNoMore row.new.items (N.seen net.new))) }
    ensures origin { IfOk result (λ origin. IfSome origin
        (IsNextOrigin N.Origin.Link N.Origin.Upstream.own)) }
    ensures err { OnErr result ((N.seen net.new ≡ N.seen net.old) × (row.new ≡ row.old)) }
{
    let whose = Whose {
        number: noted.number,
        place: noted.place + 1,
        has_origin: true,
    };
    net.note(noted)?;
    match net.dial() {
        Dialed::Origin(origin) => {
            add_connection(row, k, whose, made);
            Ok(Some(origin))
        }
        Dialed::Failed => {
            let without = Whose {
                has_origin: false,
                ..whose
            };
            add_connection(row, k, without, made);
            Ok(None)
        }
    }
}

// Goes on with the client in the row for the place k, whose handler was taken apart: what is left of it is
// handed to the net and the place is free, or another handler comes next, in a group that is made with so
// many turns.
fn follow<N: ClientSource, W: Handler<N::Client, N::Origin> + Drop>(
    alloc: Global,
    setting: &W::Setting,
    net: &mut N,
    row: &mut Vec<Connection>,
    k: u32,
    whose: Whose,
    made: u64,
    leaving: Leaving<N::Client, N::Origin, W, W::Next>,
) -> Result<Option<W>, NoMemory>
    requires row { IsStartedIn k whose row.old.items × LeavesWhose W.whose_of whose leaving }
    requires becomes { W.is_setting setting.now × (terms : W.Terms) × W.are_terms setting.now terms
        × BecomesOf (W.is_done terms) (W.is_spent terms) (W.is_note terms) (W.is_next terms)
        (MayLive W.fits W.keeps W.sound terms) leaving }
    ensures row { ChangesAt k row.old.items row.new.items }
    ensures next { IfOk result (IsNextIn W.whose_of k made whose row.old.items row.new.items) }
    ensures books { KeepsBooks N.tells W.is_done W.is_note
        (λ terms. BecomesOf (W.is_done terms) (W.is_spent terms) (W.is_note terms) (W.is_next terms)
        (MayLive W.fits W.keeps W.sound terms) leaving)
        row.old.items (N.seen net.old) row.new.items (N.seen net.new) }
    ensures all { OnOk result (HasAll row.old.items (N.seen net.old)
        → HasAll row.new.items (N.seen net.new)) }
    ensures net { KeepsGiven row.old.items row.new.items (N.seen net.old) (N.seen net.new) }
    ensures comes { IsFollowed N.tells
        (λ terms. BecomesOf (W.is_done terms) (W.is_spent terms) (W.is_note terms) (W.is_next terms)
        (MayLive W.fits W.keeps W.sound terms) leaving)
        (W.are_terms setting.now) (MayLive W.fits W.keeps W.sound) W.behind
        (DoneAndSpent W.is_done W.is_spent)
        k made whose row.old.items row.new.items (N.seen net.old) (N.seen net.new) (next_in result) }
{
    match leaving {
        Leaving::Retires(retired) => {
            net.retire(retired)?;
            row[k as usize] = Connection::Free;
            Ok(None)
        }
        Leaving::Stays(handler) => {
            add_connection(row, k, whose, made);
            Ok(Some(handler))
        }
        Leaving::GoesOn { noted, next } => {
            let origin = note_and_dial::<N, W>(net, row, k, made, noted)?;
            let handler = W::make_next(alloc, setting, next, origin)?;
            Ok(Some(handler))
        }
    }
}

// Goes on with the client of the place that the seat won last, whose handler has ended there.
fn advance<
    N: ClientSource,
    W: Handler<N::Client, N::Origin> + Drop,
    P: World<Question = W::Question, Reply = W::Reply> + Drop,
>(
    alloc: Global,
    setting: &W::Setting,
    net: &mut N,
    slots: &Slots<PlaceGroup<W, P>>,
    seat: &mut Seat<PlaceGroup<W, P>>,
    row: &mut Vec<Connection>,
    mut turn: Turn<PlaceGroup<W, P>>,
    whose: Whose,
    made: u64,
) -> Result<(), NoMemory>
    requires server { IsOpenServer W.is_setting W.are_terms setting.now (tags_of slots.now) }
    requires finds { IsSeatOf slots.now seat.old × Finds (tags_of slots.now) (view seat.old) turn
        × HasEndedAt W.sound W.whose_of W.is_ended whose made turn.boxed.value }
    requires row { IsStartedIn turn.group whose row.old.items × (turn.group < PLACES) }
    ensures seat { IsSeatOf slots.now seat.new × Leaves (view seat.old) (view seat.new) }
    ensures row { ChangesAt turn.group row.old.items row.new.items }
    ensures serving { N.tells ≡ true → (terms : W.Terms) → IsPlaceOf (tags_of slots.now) turn.group terms
        → FitsTerms W.fits W.keeps W.sound P.fits P.sound P.only_asked P.is_first
        (W.behind terms (notes_of whose.number (N.seen net.old).noted)) turn.boxed.value
        → ServesOn W.fits W.keeps P.fits W.behind W.is_done W.is_spent W.is_note terms (view seat.new).known
        row.old.items row.new.items (N.seen net.old) (N.seen net.new) }
    ensures all { OnOk result ((HasAll row.old.items (N.seen net.old) → HasAll row.new.items (N.seen net.new))
        × ComesTo W.whose_of turn.group whose row.old.items row.new.items (view seat.new).known) }
    ensures net { KeepsGiven row.old.items row.new.items (N.seen net.old) (N.seen net.new) }
{
    let Ok(
        TakenOut {
            handler,
            journal,
            spare,
        },
    ) = take_out(alloc, &mut turn, whose, made)
    else {
        leave_found(slots, seat, turn);
        return Err(NoMemory);
    };
    let leaving = handler.leave(journal);
    let k = turn.group();
    match follow(alloc, setting, net, row, k, whose, turn.number(), leaving) {
        Ok(next) => put_next(alloc, slots, seat, turn, next, spare),
        Err(_) => {
            put_next(alloc, slots, seat, turn, None, spare)?;
            Err(NoMemory)
        }
    }
}

/// Goes on with the client in the place k, if its handler was started and has ended: what is left of it is
/// handed to the net and the place is free, or another handler stands there, which is to be started. Where
/// memory lacked in the handler, the answer says so.
pub fn step_at<
    N: ClientSource,
    W: Handler<N::Client, N::Origin> + Drop,
    P: World<Question = W::Question, Reply = W::Reply> + Drop,
>(
    alloc: Global,
    setting: &W::Setting,
    net: &mut N,
    slots: &Slots<PlaceGroup<W, P>>,
    seat: &mut Seat<PlaceGroup<W, P>>,
    row: &mut Vec<Connection>,
    k: u32,
) -> Result<(), NoMemory>
    requires server { IsOpenServer W.is_setting W.are_terms setting.now (tags_of slots.now) }
    requires seat { IsSeatOf slots.now seat.old }
    requires place { (k < PLACES) × (k < length row.old.items) }
    ensures seat { IsSeatOf slots.now seat.new × KeepsSeat (view seat.old) (view seat.new) 1 }
    ensures row { ChangesAt k row.old.items row.new.items }
    ensures serving { KeepsServing W.fits W.keeps P.fits W.behind W.is_done W.is_spent W.is_note N.tells
        (IsPlaceOf (tags_of slots.now) k) (view seat.old).known (view seat.new).known
        row.old.items row.new.items (N.seen net.old) (N.seen net.new) }
    ensures all { OnOk result ((HasAll row.old.items (N.seen net.old) → HasAll row.new.items (N.seen net.new))
        × IsLookedAt W.sound W.whose_of W.is_ended W.is_lacking k row.old.items row.new.items
        (view seat.old) (view seat.new)) }
    ensures net { KeepsGiven row.old.items row.new.items (N.seen net.old) (N.seen net.new) }
{
    let Connection::Accepted {
        whose,
        started,
        made,
    } = row[k as usize]
    else {
        return Ok(());
    };
    if !started {
        return Ok(());
    }
    let Some(turn) = enter_ended(slots, seat, k, whose, made)? else {
        return Ok(());
    };
    advance(alloc, setting, net, slots, seat, row, turn, whose, made)
}
