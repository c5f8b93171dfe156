//! The handler of a stage: it moves a piece, reenables its output, and calls its upstream once there is room
//! (the Developer's Guide, "Writing a Transformation Plugin").
ghost use Rattle.std.specs.Prelude.{◌≡◌, ◌≢◌, ℕ, ◌+◌, ◌*◌, ◌<◌, ◌≤◌, List, length, slice_get, true, false, is_ok, IfErr, OnOk};
ghost use Rattle.std.specs.Bool.{OnTrue};
ghost use Rattle.ts_journal.specs.declared.entry.Event.{Event};
ghost use Rattle.ts_journal.specs.declared.entry.Event.TheVariants.{Error, WriteComplete};
ghost use Rattle.ts_journal.specs.declared.entry.Pending.{Pending};
ghost use Rattle.ts_transform.specs.declared.continuation.Rouser.TheVariants as Rouser;
ghost use Rattle.ts_transform.specs.Flow.{MustWork, ended_at, pause_at};
ghost use Rattle.ts_transform.specs.Driving.{ActsWithin, AddsEvents, AreLive, AreOfStages, ClosesAt, HasNobodyToTell, IsCalledUnless, IsCause, IsHandled, IsRoused, IsTellingBefore, IsToldBefore, KeepsOthers, KeepsStages, Lessens, SetsFew, SetsOnly, OnlyTellsBefore, changed, error_passed, gone, is_there_at, is_there_before, may_pass_error_at, unroused_at, works_at, most_by_stage, most_round};
ghost use Rattle.ts_transform.specs.Cover.{AreAllLive, CallsBefore, IsDriven, IsDrivenBut, IsDrivenFor, IsRoundRoused, OnlyRouses, OnlySets};
ghost use Rattle.ts_transform.specs.Seats.{KeepsSeated};
ghost use Rattle.ts_transform.specs.Acting.{ActsAt, Covers, CoversHandled, GivesOn, GivesUpCall, IsStage, LivesOn, PaysCalls, TellsBefore, WorksAt};

use crate::chain::Chain;
use crate::continuation::{Rouser, StageContinuation, works};
use crate::pump::Pumped;
use crate::rousing::{is_there, mark_error_passed, rouse_at, take_at, tell, unrouse_for};
use crate::transform::Transform;
use ts_group::{Cx, SetFault};
use ts_journal::Event;

/// Rouses the stage at a place if it must work.
#[tactic(auto, using(crate::proofs::Kept::stages_same, crate::proofs::MaySet::none_roused))]
pub fn rouse_if_ready<P: Transform + Drop>(
    chain: &Chain<P>,
    table: &mut [Option<StageContinuation>],
    at: usize,
    rouser: Rouser,
    cx: &mut Cx,
) -> Result<(), SetFault>
    requires turn { cx.old.log.state.held ≡ true }
    ensures adds { AddsEvents 1 (AreAllLive chain.now table.new cx.new) result cx.old cx.new }
    ensures stages { KeepsStages cx.old cx.new table.old table.new }
    ensures only { OnlyRouses P.pause chain.now table.old cx.old cx.new }
    ensures ready { OnOk result (MustWork chain.now at → IsRoused table.new at) }
    ensures called { rouser ≡ Rouser.Downstream → pause_at P.pause chain.now.stages at ≡ 0
        → OnOk result (MustWork chain.now at
        → IsCalledUnless table.old cx.new.log.state.pending table.new at) }
    ensures others { (j : ℕ) → j ≢ at → slice_get table.new j ≡ slice_get table.old j }
{
    if !chain.must_pump(at) {
        return Ok(());
    }
    if at >= table.len() {
        return Err(SetFault::Dead);
    }
    rouse_at(table, at, rouser, chain.pause(at), cx)
}

// Rouses the stage before a place, if there is one that must work.
#[tactic(auto, using(crate::proofs::Kept::stages_same, crate::proofs::MaySet::none_roused))]
fn rouse_before<P: Transform + Drop>(
    chain: &Chain<P>,
    table: &mut [Option<StageContinuation>],
    at: usize,
    cx: &mut Cx,
) -> Result<(), SetFault>
    requires turn { cx.old.log.state.held ≡ true }
    ensures adds { AddsEvents 1 (AreAllLive chain.now table.new cx.new) result cx.old cx.new }
    ensures stages { KeepsStages cx.old cx.new table.old table.new }
    ensures only { OnlyRouses P.pause chain.now table.old cx.old cx.new }
    ensures ready { OnOk result ((j : ℕ) → j + 1 ≡ at → MustWork chain.now j → IsRoused table.new j) }
    ensures called { OnOk result
        (CallsBefore P.pause chain.now table.old table.new cx.new.log.state.pending at) }
{
    if at == 0 {
        return Ok(());
    }
    rouse_if_ready(chain, table, at - 1, Rouser::Downstream, cx)
}

// Rouses the stages round one that worked, those of them that must work: the next, since its output has
// more; the one before, since there is room; and itself.
#[tactic(auto, using(crate::proofs::Kept::stages_trans))]
fn rouse_round<P: Transform + Drop>(
    chain: &Chain<P>,
    table: &mut [Option<StageContinuation>],
    at: usize,
    cx: &mut Cx,
) -> Result<(), SetFault>
    requires turn { cx.old.log.state.held ≡ true }
    requires at { at < length table.old }
    ensures adds { AddsEvents most_round (AreAllLive chain.now table.new cx.new) result cx.old cx.new }
    ensures stages { KeepsStages cx.old cx.new table.old table.new }
    ensures only { OnlyRouses P.pause chain.now table.old cx.old cx.new }
    ensures round { OnOk result (IsRoundRoused chain.now table.new at) }
    ensures called { OnOk result
        (CallsBefore P.pause chain.now table.old table.new cx.new.log.state.pending at) }
{
    rouse_if_ready(chain, table, at + 1, Rouser::Upstream, cx)?;
    rouse_before(chain, table, at, cx)?;
    rouse_if_ready(chain, table, at, Rouser::Upstream, cx)
}

/// Rouses the stages before a place that must work.
#[tactic(auto, using(crate::proofs::Kept::stages_trans, crate::proofs::MaySet::none_roused))]
pub fn rouse_below<P: Transform + Drop>(
    chain: &Chain<P>,
    table: &mut [Option<StageContinuation>],
    count: usize,
    cx: &mut Cx,
) -> Result<(), SetFault>
    requires turn { cx.old.log.state.held ≡ true }
    ensures adds { AddsEvents count (AreAllLive chain.now table.new cx.new) result cx.old cx.new }
    ensures stages { KeepsStages cx.old cx.new table.old table.new }
    ensures only { OnlyRouses P.pause chain.now table.old cx.old cx.new }
    ensures ready { OnOk result ((j : ℕ) → j < count → MustWork chain.now j → IsRoused table.new j) }
{
    if count == 0 {
        return Ok(());
    }
    rouse_if_ready(chain, table, count - 1, Rouser::Upstream, cx)?;
    rouse_below(chain, table, count - 1, cx)
}

// Lets a stage work whose event was handled, and rouses those round it that then must work. Where it ends,
// the stage before it is told so.
#[tactic(auto, using(crate::proofs::Kept::stages_same))]
fn work<P: Transform + Drop>(
    chain: &mut Chain<P>,
    table: &mut [Option<StageContinuation>],
    at: usize,
    cx: &mut Cx,
) -> Result<(), SetFault>
    requires turn { cx.old.log.state.held ≡ true }
    requires stage { IsStage chain.old table.old at }
    ensures adds { AddsEvents most_by_stage (AreAllLive chain.new table.new cx.new) result cx.old cx.new }
    ensures stages { KeepsStages cx.old cx.new table.old table.new }
    ensures works { WorksAt P.rest P.soon at result chain.old chain.new cx.old cx.new }
    ensures only { (event : Event) → OnlySets P.pause chain.old chain.new table.old at event cx.old cx.new }
    ensures driven { OnOk result (Covers true at chain.old chain.new table.old table.new cx.old cx.new) }
    ensures tells { OnOk result
        (TellsBefore P.pause at chain.old chain.new table.old table.new cx.new.log.state.pending) }
{
    let Ok(pumped) = chain.pump(at) else {
        return Err(SetFault::NoMemory);
    };
    match pumped {
        Pumped::Moved(_) => rouse_round(chain, table, at, cx),
        Pumped::Ended => {
            rouse_round(chain, table, at, cx)?;
            tell_before(table, at, Event::WriteComplete, cx)
        }
        Pumped::Blocked { waiting: _ } => Ok(()),
        Pumped::Idle => Ok(()),
    }
}

// Calls the stage before a place with an event at which it does not work, if there is one.
#[tactic(auto, using(crate::proofs::Setting::only_none))]
fn tell_before(
    table: &[Option<StageContinuation>],
    at: usize,
    event: Event,
    cx: &mut Cx,
) -> Result<(), SetFault>
    requires turn { cx.old.log.state.held ≡ true }
    requires at { at < length table.now }
    ensures adds { AddsEvents 1 (AreLive cx.new.log.state.live table.now) result cx.old cx.new }
    ensures told { OnOk result (IsToldBefore cx.new.log.state.pending event table.now at) }
    ensures seated { KeepsSeated table.now table.now cx.old cx.new }
    ensures only { OnlyTellsBefore event at table.now cx.old cx.new }
    ensures quiet { is_there_before table.now at ≡ false → (is_ok result ≡ true) × (cx.new ≡ cx.old) }
{
    if at == 0 {
        return Ok(());
    }
    tell(table, at - 1, event, cx)
}

// Tells the stage before a place that the one there finds itself ended, if that still has its continuation.
fn tell_ended(table: &[Option<StageContinuation>], at: usize, cx: &mut Cx) -> Result<(), SetFault>
    requires turn { cx.old.log.state.held ≡ true }
    requires at { at < length table.now }
    ensures adds { AddsEvents 1 (AreLive cx.new.log.state.live table.now) result cx.old cx.new }
    ensures told { OnOk result (is_there_at table.now at ≡ true
        → IsToldBefore cx.new.log.state.pending WriteComplete table.now at) }
    ensures seated { KeepsSeated table.now table.now cx.old cx.new }
    ensures only { OnlyTellsBefore WriteComplete at table.now cx.old cx.new }
    ensures quiet { HasNobodyToTell table.now at → (is_ok result ≡ true) × (cx.new ≡ cx.old) }
{
    if !is_there(table, at) {
        return Ok(());
    }
    tell_before(table, at, Event::WriteComplete, cx)
}

// Passes an error on from the stage at a place, where that has passed none on, to the stage before it.
#[tactic(auto, using(crate::proofs::PassedErrors::passed_less, crate::proofs::PassedErrors::passed_same))]
fn pass_error(
    table: &mut [Option<StageContinuation>],
    at: usize,
    cx: &mut Cx,
) -> Result<(), SetFault>
    requires turn { cx.old.log.state.held ≡ true }
    requires at { at < length table.old }
    ensures adds { AddsEvents 1 (AreLive cx.new.log.state.live table.new) result cx.old cx.new }
    ensures table { (table.new ≡ changed error_passed table.old at)
        × KeepsSeated table.old table.new cx.old cx.new }
    ensures told { OnOk result (may_pass_error_at table.old at ≡ true
        → IsToldBefore cx.new.log.state.pending Error table.new at) }
    ensures only { OnlyTellsBefore Error at table.old cx.old cx.new }
    ensures quiet { may_pass_error_at table.old at ≡ false → (is_ok result ≡ true) × SetsFew 0 cx.old cx.new }
    ensures pays { PaysCalls table.old table.new cx.old cx.new }
{
    if !mark_error_passed(table, at) {
        return Ok(());
    }
    tell_before(table, at, Event::Error, cx)
}

// Destroys the continuation of the stage at a place.
fn destroy_at(table: &mut [Option<StageContinuation>], at: usize, cx: &mut Cx)
    requires turn { cx.old.log.state.held ≡ true }
    requires at { at < length table.old }
    ensures lessens { Lessens cx.old cx.new }
    ensures table { (table.new ≡ changed gone table.old at) × KeepsSeated table.old table.new cx.old cx.new }
    ensures pays { GivesUpCall table.old table.new at cx.old cx.new }
    ensures of_stages { (first : ℕ) → AreOfStages cx.old.log.state.pending cx.old.roles first table.old
        → AreOfStages cx.new.log.state.pending cx.new.roles first table.new }
    ensures others { (first : ℕ) → KeepsOthers first table.old cx.old cx.new }
    ensures closed { ClosesAt cx.old cx.new table.old at }
{
    cx.known();
    if let Some(continuation) = take_at(table, at) {
        let _destroyed = cx.destroy(continuation.key);
    }
}

// Acts at an event of the stage at a place, which was handled. Where the stage finds itself ended, it tells
// the one before it so, and then its own continuation is destroyed; it passes an error on; at the end of
// its output it has nothing more to write there; else it works.
fn act<P: Transform + Drop>(
    chain: &mut Chain<P>,
    table: &mut [Option<StageContinuation>],
    at: usize,
    event: Event,
    cx: &mut Cx,
) -> Result<(), SetFault>
    requires turn { cx.old.log.state.held ≡ true }
    requires stage { IsStage chain.old table.old at }
    ensures within { ActsWithin most_by_stage cx.old cx.new }
    ensures acts { ActsAt P.rest P.pause at event chain.old chain.new table.old table.old table.new
        true (is_ok result) cx.old cx.new }
    ensures gives { GivesOn P.rest P.soon chain.old chain.new table.old table.new cx.old cx.new }
    ensures driven { OnOk result
        (Covers (works_at event) at chain.old chain.new table.old table.new cx.old cx.new) }
    ensures others { (first : ℕ) → KeepsOthers first table.old cx.old cx.new }
    ensures live { LivesOn result chain.old chain.new table.old table.new cx.old cx.new }
{
    if chain.has_ended(at) {
        let told = tell_ended(table, at, cx);
        destroy_at(table, at, cx);
        return told;
    }
    if works(event) {
        return work(chain, table, at, cx);
    }
    match event {
        Event::Error => pass_error(table, at, cx),
        _ => Ok(()),
    }
}

/// Handles an event of the stage at a place.
pub fn handle_at<P: Transform + Drop>(
    chain: &mut Chain<P>,
    table: &mut [Option<StageContinuation>],
    at: usize,
    event: Event,
    cx: &mut Cx,
) -> Result<(), SetFault>
    requires turn { cx.old.log.state.held ≡ true }
    requires stage { IsStage chain.old table.old at }
    ensures within { ActsWithin most_by_stage cx.old cx.new }
    ensures acts { ActsAt P.rest P.pause at event chain.old chain.new table.old
        (unroused_at event table.old at) table.new true (is_ok result) cx.old cx.new }
    ensures gives { GivesOn P.rest P.soon chain.old chain.new table.old table.new cx.old cx.new }
    ensures driven { OnOk result
        (CoversHandled at event chain.old chain.new table.old table.new cx.old cx.new) }
    ensures others { (first : ℕ) → KeepsOthers first table.old cx.old cx.new }
    ensures live { LivesOn result chain.old chain.new table.old table.new cx.old cx.new }
{
    unrouse_for(table, at, event);
    act(chain, table, at, event, cx)
}
