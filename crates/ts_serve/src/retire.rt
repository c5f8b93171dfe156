//! Who stands in a place, and how what is left of a handler that has ended, or waits, is handed to the net.

ghost use Rattle.std.specs.Prelude.{◌≡◌, ◌+◌, ◌↔◌, true, false, OnOk, OnErr};
ghost use Rattle.ts_group.specs.declared.either.Either.TheVariants.{One};
ghost use Rattle.ts_serve.specs.declared.place.Place.TheVariants.{Tenant};
ghost use Rattle.ts_serve.specs.Acceptor.{IsNotAsked};
ghost use Rattle.ts_serve.specs.TakingOut.{HasEndedAt, HasWaitedAt, MayHandOver, MayHandOverAt, StillRuns};
ghost use Rattle.ts_serve.specs.Tenants.{FitsTerms, HandsJournal, HandsOver};

use crate::place::{Place, PlaceGroup};
use crate::source::ClientSource;
use crate::tenant::Handler;
use crate::whose::Whose;
use ts_group::{Either, World};
use ts_link::{Link, NoMemory};
use ts_upstream::Upstream;

/// Whether in a place lives this handler, in a group that was made with so many turns, and has ended.
pub fn has_ended<
    C: Link,
    O: Upstream<C>,
    W: Handler<C, O> + Drop,
    P: World<Question = W::Question, Reply = W::Reply> + Drop,
>(group: &PlaceGroup<W, P>, whose: Whose, made: u64) -> bool
    ensures { (result ≡ true) ↔ HasEndedAt W.sound W.whose_of W.is_ended whose made group.now }
{
    match group.world() {
        Either::One(Place::Tenant(handler)) => {
            handler.has_ended() && handler.whose() == whose && group.journal().made() == made
        }
        _ => false,
    }
}

/// Whether in a place lives this handler, in a group that was made with so many turns, and may wait for its
/// client without end.
fn has_waited<
    C: Link,
    O: Upstream<C>,
    W: Handler<C, O> + Drop,
    P: World<Question = W::Question, Reply = W::Reply> + Drop,
>(group: &PlaceGroup<W, P>, whose: Whose, made: u64) -> bool
    ensures { (result ≡ true) ↔ HasWaitedAt W.whose_of W.may_wait whose made group.now }
{
    match group.world() {
        Either::One(Place::Tenant(handler)) => {
            handler.may_wait() && handler.whose() == whose && group.journal().made() == made
        }
        _ => false,
    }
}

/// Whether in a place lives this handler, in a group that was made with so many turns, and may be handed over
/// as it stands.
pub fn may_hand_over<
    C: Link,
    O: Upstream<C>,
    W: Handler<C, O> + Drop,
    P: World<Question = W::Question, Reply = W::Reply> + Drop,
>(group: &PlaceGroup<W, P>, whose: Whose, made: u64) -> bool
    ensures { (result ≡ true) ↔ MayHandOverAt W.sound W.whose_of W.is_ended W.may_wait whose made group.now }
{
    has_ended(group, whose, made) || has_waited(group, whose, made)
}

/// Whether in a place lives this handler, which has not ended, and may not wait for its client without end.
pub fn is_running<
    C: Link,
    O: Upstream<C>,
    W: Handler<C, O> + Drop,
    P: World<Question = W::Question, Reply = W::Reply> + Drop,
>(group: &PlaceGroup<W, P>, whose: Whose) -> bool
    ensures { (result ≡ true) ↔ StillRuns W.whose_of W.is_ended W.may_wait whose group.now }
{
    match group.world() {
        Either::One(Place::Tenant(handler)) => {
            !handler.has_ended() && !handler.may_wait() && handler.whose() == whose
        }
        _ => false,
    }
}

/// Hands what is left of the handler of a place over to the net as it stands, which has ended or may wait for
/// its client, with the journal of its group.
pub fn hand_over<
    N: ClientSource,
    W: Handler<N::Client, N::Origin> + Drop,
    P: World<Question = W::Question, Reply = W::Reply> + Drop,
>(net: &mut N, whose: Whose, group: PlaceGroup<W, P>) -> Result<(), NoMemory>
    requires over { MayHandOver W.sound W.whose_of W.is_ended W.may_wait whose group.world }
    ensures ok { OnOk result ((terms : W.Terms)
        → FitsTerms W.fits W.keeps W.sound P.fits P.sound P.only_asked P.is_first terms group
        → HandsOver N.tells (W.is_done terms) whose (N.seen net.old) (N.seen net.new)) }
    ensures journal { OnOk result ((handler : W) → group.world ≡ One (Tenant handler)
        → W.may_wait handler ≡ false → HandsJournal N.tells group.cx.log (N.seen net.old) (N.seen net.new)) }
    ensures more { OnOk result ((N.seen net.new).handed ≡ (N.seen net.old).handed + 1) }
    ensures net { IsNotAsked (N.seen net.old) (N.seen net.new) }
    ensures err { OnErr result (N.seen net.new ≡ N.seen net.old) }
{
    group.known();
    let journal = group.journal();
    journal.known();
    journal.entries();
    let (world, journal) = group.into_parts();
    let Either::One(Place::Tenant(handler)) = world else {
        unreachable!()
    };
    net.retire(handler.retire(journal))
}
