//! What is left where the event threads ended early: groups that nobody else has are handled on one thread,
//! over the moments of a clock, but for those that wait for their clients.

ghost use Rattle.std.specs.Prelude.{◌≡◌, ◌<◌, All, List, true, length, IfOk, OnOk};
ghost use Rattle.ts_thread.specs.Tags.{CanAsk, GroupsFit};
ghost use Rattle.ts_serve.specs.Leftover.{AreMadeAlike, CanGoOn, HasHandled, IsIdleOrWaits, ServerStaysFit};
ghost use Rattle.ts_serve.specs.Leftover.{StayFit, waits_in};

use crate::place::{Place, PlaceGroup};
use crate::tenant::Handler;
use crate::worker::PAUSE;
use std::sync::Wait;
use ts_group::{Either, Group, World};
use ts_link::{Clock, Link};
use ts_thread::{Unfinished, step_at};
use ts_upstream::Upstream;

// Whether whoever lives in a place may wait for its client without end.
fn may_wait<
    C: Link,
    O: Upstream<C>,
    W: Handler<C, O> + Drop,
    P: World<Question = W::Question, Reply = W::Reply> + Drop,
>(group: &PlaceGroup<W, P>) -> bool
    ensures { result ≡ waits_in W.may_wait group.now.world }
{
    match group.world() {
        Either::One(Place::Tenant(handler)) => handler.may_wait(),
        _ => false,
    }
}

// Whether no event of this group is pending, or its handler may wait.
fn is_idle_or_waits<
    C: Link,
    O: Upstream<C>,
    W: Handler<C, O> + Drop,
    P: World<Question = W::Question, Reply = W::Reply> + Drop,
>(group: &PlaceGroup<W, P>) -> bool
    ensures { result ≡ true → IsIdleOrWaits W.may_wait group.now }
{
    group.next_due().is_none() || may_wait::<C, O, W, P>(group)
}

// Whether no event of these groups is pending, but for those whose handlers may wait.
fn are_idle<
    C: Link,
    O: Upstream<C>,
    W: Handler<C, O> + Drop,
    P: World<Question = W::Question, Reply = W::Reply> + Drop,
>(groups: &[PlaceGroup<W, P>]) -> bool
    ensures { result ≡ true → All (IsIdleOrWaits W.may_wait) groups.now }
{
    for group in groups {
        if !is_idle_or_waits::<C, O, W, P>(group) {
            return false;
        }
    }
    true
}

// Handles the event of the group at this place that is due first, in a turn of its own, if it is due at a
// moment. Answers whether it was.
fn handle_due<W: World + Drop>(
    groups: &mut [Group<W>],
    place: usize,
    moment: u64,
) -> Result<bool, Unfinished>
    requires place { place < length groups.old }
    requires fits { (tags : List W.Tag) × CanAsk W.fits W.only_asked W.may_ask W.right W.answers tags
        × GroupsFit W.fits W.sound W.only_asked W.is_first tags groups.old }
    ensures fit { StayFit W.fits W.sound W.only_asked W.is_first groups.old groups.new }
    ensures made { AreMadeAlike groups.old groups.new }
    ensures count { length groups.new ≡ length groups.old }
    ensures handled { IfOk result (HasHandled place groups.old groups.new) }
{
    let Some((due, _number)) = groups[place].next_due() else {
        return Ok(false);
    };
    if moment < due {
        return Ok(false);
    }
    step_at(groups, place)?;
    Ok(true)
}

// Does the same at a place of a server, unless the handler in it may wait.
fn handle_in_place<
    C: Link,
    O: Upstream<C>,
    W: Handler<C, O> + Drop,
    P: World<Question = W::Question, Reply = W::Reply> + Drop,
>(groups: &mut [PlaceGroup<W, P>], place: usize, moment: u64) -> Result<bool, Unfinished>
    requires place { place < length groups.old }
    requires fits { CanGoOn W.fits W.keeps W.sound P.fits P.sound P.only_asked P.is_first
        W.may_ask W.right W.answers P.may_ask P.right P.answers groups.old }
    ensures fit { ServerStaysFit W.fits W.keeps W.sound P.fits P.sound P.only_asked P.is_first
        groups.old groups.new }
    ensures made { AreMadeAlike groups.old groups.new }
    ensures count { length groups.new ≡ length groups.old }
    ensures handled { IfOk result (HasHandled place groups.old groups.new) }
{
    if may_wait::<C, O, W, P>(&groups[place]) {
        return Ok(false);
    }
    handle_due(groups, place, moment)
}

// Handles an event of each group that has one due at a moment, each in a turn of its own, but for those whose
// handlers may wait. Answers whether one had.
fn handle_all_due<
    C: Link,
    O: Upstream<C>,
    W: Handler<C, O> + Drop,
    P: World<Question = W::Question, Reply = W::Reply> + Drop,
>(groups: &mut [PlaceGroup<W, P>], moment: u64) -> Result<bool, Unfinished>
    requires fits { CanGoOn W.fits W.keeps W.sound P.fits P.sound P.only_asked P.is_first
        W.may_ask W.right W.answers P.may_ask P.right P.answers groups.old }
    ensures fit { ServerStaysFit W.fits W.keeps W.sound P.fits P.sound P.only_asked P.is_first
        groups.old groups.new }
    ensures made { AreMadeAlike groups.old groups.new }
    ensures count { length groups.new ≡ length groups.old }
{
    let mut handled = false;
    'groups: for place in 0..groups.len() {
        if handle_in_place::<C, O, W, P>(groups, place, moment)? {
            handled = true;
        }
    }
    Ok(handled)
}

/// Handles the events of the groups of a server, each in a turn of its own once the clock has come to its
/// moment, until none is pending but in groups whose handlers may wait for their clients without end: these
/// are passed over. Where memory lacks, or a group has no turn left, it ends before.
#[tactic(auto, using(crate::proofs::Leftovers::goes_on))]
pub fn finish_left<
    C: Link,
    O: Upstream<C>,
    W: Handler<C, O> + Drop,
    P: World<Question = W::Question, Reply = W::Reply> + Drop,
    K: Clock,
    R: Wait,
>(rt: &R, clock: &K, groups: &mut [PlaceGroup<W, P>]) -> Result<(), Unfinished>
    requires fits { CanGoOn W.fits W.keeps W.sound P.fits P.sound P.only_asked P.is_first
        W.may_ask W.right W.answers P.may_ask P.right P.answers groups.old }
    ensures fit { ServerStaysFit W.fits W.keeps W.sound P.fits P.sound P.only_asked P.is_first
        groups.old groups.new }
    ensures made { AreMadeAlike groups.old groups.new }
    ensures count { length groups.new ≡ length groups.old }
    ensures idle { OnOk result (All (IsIdleOrWaits W.may_wait) groups.new) }
{
    'rounds: for _ in rt.forever() {
        if are_idle::<C, O, W, P>(groups) {
            return Ok(());
        }
        if !handle_all_due::<C, O, W, P>(groups, clock.now())? {
            clock.pause(PAUSE);
        }
    }
    unreachable!()
}
