//! The continuations of a chain's stages, in the order of the stages, and how those at a place are roused
//! and told.
ghost use Rattle.std.specs.Prelude.{◌≡◌, ◌≢◌, ℕ, ◌+◌, ◌<◌, length, slice_get, Some, None, true, false, is_ok, OnOk, IfOk, IfErr, IfSome};
ghost use Rattle.ts_group.specs.declared.action.SetFault.TheVariants.{Dead};
ghost use Rattle.ts_journal.specs.declared.entry.Event.TheVariants.{WriteReady};
ghost use Rattle.ts_transform.specs.Seats.{KeepsSeated};
ghost use Rattle.ts_transform.specs.declared.continuation.Rouser.TheVariants as Rouser;
ghost use Rattle.ts_transform.specs.Driving.{AddsEvents, AreLive, AreNamed, HasLive, IsCalledUnless, IsLastMarked, IsMarked, IsRoused, IsRousedIf, IsTelling, IsTold, KeepsStages, RousesAt, SetsOnly, all_unroused, changed, error_passed, gone, is_there_at, last_of, may_pass_error_at, unroused, unroused_at};

use crate::continuation::{Rouser, StageContinuation, rouse, works};
use ts_group::{Cx, SetFault};
use ts_journal::{ContKey, Event};

/// Sees that an event of the stage at a place is pending at which it works.
#[tactic(auto, using(crate::proofs::Kept::kept_if, crate::proofs::Kept::kept_all))]
pub fn rouse_at(
    table: &mut [Option<StageContinuation>],
    at: usize,
    rouser: Rouser,
    pause: u64,
    cx: &mut Cx,
) -> Result<(), SetFault>
    requires turn { cx.old.log.state.held ≡ true }
    requires at { at < length table.old }
    ensures adds { AddsEvents 1 (HasLive cx.new.log.state.live table.new at) result cx.old cx.new }
    ensures stages { KeepsStages cx.old cx.new table.old table.new }
    ensures rouses { RousesAt at pause table.old cx.old cx.new }
    ensures roused { OnOk result (IsRoused table.new at) }
    ensures called { rouser ≡ Rouser.Downstream → pause ≡ 0
        → OnOk result (IsCalledUnless table.old cx.new.log.state.pending table.new at) }
    ensures others { (j : ℕ) → j ≢ at → slice_get table.new j ≡ slice_get table.old j }
{
    let Some((first, others)) = table.split_first_mut() else {
        unreachable!()
    };
    if at == 0 {
        rouse(first, rouser, pause, cx)
    } else {
        rouse_at(others, at - 1, rouser, pause, cx)
    }
}

// Says that the event of the stage at a place is handled.
fn unrouse_at(table: &mut [Option<StageContinuation>], at: usize)
    requires { at < length table.old }
    ensures { table.new ≡ changed unroused table.old at }
{
    let Some((first, others)) = table.split_first_mut() else {
        unreachable!()
    };
    if at > 0 {
        unrouse_at(others, at - 1);
    } else if let Some(continuation) = first {
        continuation.roused = false;
    }
}

/// Says that an event of the stage at a place is handled: it is roused no more, if it works at that event.
#[tactic(auto, using(crate::proofs::Told::same_unroused))]
pub fn unrouse_for(table: &mut [Option<StageContinuation>], at: usize, event: Event)
    requires { at < length table.old }
    ensures table { table.new ≡ unroused_at event table.old at }
    ensures same { all_unroused table.new ≡ all_unroused table.old }
{
    if works(event) {
        unrouse_at(table, at);
    }
}

/// Says that the stage at a place has passed an error on. It answers whether there is a continuation that
/// had not.
pub fn mark_error_passed(table: &mut [Option<StageContinuation>], at: usize) -> bool
    requires { at < length table.old }
    ensures first { result ≡ may_pass_error_at table.old at }
    ensures table { table.new ≡ changed error_passed table.old at }
{
    let Some((first, others)) = table.split_first_mut() else {
        unreachable!()
    };
    if at > 0 {
        return mark_error_passed(others, at - 1);
    }
    let Some(continuation) = first else {
        return false;
    };
    let is_first = !continuation.passed_error;
    continuation.passed_error = true;
    is_first
}

/// Takes the continuation of the stage at a place out of the table.
pub fn take_at(table: &mut [Option<StageContinuation>], at: usize) -> Option<StageContinuation>
    requires { at < length table.old }
    ensures table { table.new ≡ changed gone table.old at }
    ensures taken { Some result ≡ slice_get table.old at }
{
    let Some((first, others)) = table.split_first_mut() else {
        unreachable!()
    };
    if at == 0 {
        first.take()
    } else {
        take_at(others, at - 1)
    }
}

/// Whether the stage at a place has its continuation.
pub fn is_there(table: &[Option<StageContinuation>], at: usize) -> bool
    ensures { result ≡ is_there_at table.now at }
{
    matches!(table.get(at), Some(Some(_)))
}

/// Calls the stage at a place with an event at which it does not work, if it has a continuation.
#[tactic(auto, using(crate::proofs::Setting::only_none, crate::proofs::Kept::set_kind))]
pub fn tell(
    table: &[Option<StageContinuation>],
    at: usize,
    event: Event,
    cx: &mut Cx,
) -> Result<(), SetFault>
    requires turn { cx.old.log.state.held ≡ true }
    requires at { at < length table.now }
    ensures adds { AddsEvents 1 (AreLive cx.new.log.state.live table.now) result cx.old cx.new }
    ensures told { OnOk result (IsTold cx.new.log.state.pending event table.now at) }
    ensures seated { KeepsSeated table.now table.now cx.old cx.new }
    ensures only { (first : ℕ) → AreNamed cx.old.roles first table.now
        → SetsOnly (IsTelling event (first + at) cx.old.roles) cx.old cx.new }
    ensures quiet { is_there_at table.now at ≡ false → (is_ok result ≡ true) × (cx.new ≡ cx.old) }
{
    let Some(Some(continuation)) = table.get(at) else {
        return Ok(());
    };
    cx.call(continuation.key, event)?;
    Ok(())
}

// Marks a continuation as roused, and answers the key for which an event has then to be set; `None` where
// it was roused before.
#[tactic(auto, using(crate::proofs::Kept::kept_if, crate::proofs::Kept::roused_if))]
fn mark(slot: &mut Option<StageContinuation>) -> Result<Option<ContKey>, SetFault>
    ensures marked { IfOk result (λ key. IsMarked key slot.old slot.new) }
    ensures roused { OnOk result (IsRousedIf slot.new) }
    ensures still { IsRousedIf slot.old → IsRousedIf slot.new }
    ensures same { unroused slot.new ≡ unroused slot.old }
    ensures key { IfOk result (λ key. IfSome key
        (λ k. (t : StageContinuation) → slot.old ≡ Some t → k ≡ t.key)) }
    ensures rests { IfOk result (λ key. IfSome key (λ k. IsRousedIf slot.old → ⊥)) }
    ensures dead { IfErr result (λ fault. (fault ≡ Dead) × (slot.old ≡ None)) }
{
    let Some(continuation) = slot else {
        return Err(SetFault::Dead);
    };
    if continuation.roused {
        return Ok(None);
    }
    continuation.roused = true;
    Ok(Some(continuation.key))
}

/// Marks the last stage as roused, and answers the key for which an event has then to be set; `None` where
/// it was roused before. It refuses where there is none, or it has no continuation.
pub fn mark_last(table: &mut [Option<StageContinuation>]) -> Result<Option<ContKey>, SetFault>
    ensures marked { IfOk result (λ key. IsLastMarked key table.old table.new) }
    ensures last { OnOk result ((j : ℕ) → j + 1 ≡ length table.old → IsRoused table.new j) }
    ensures still { (j : ℕ) → IsRoused table.old j → IsRoused table.new j }
    ensures same { all_unroused table.new ≡ all_unroused table.old }
    ensures key { IfOk result (λ key. IfSome key
        (λ k. (t : StageContinuation) → last_of table.old ≡ Some t → k ≡ t.key)) }
    ensures rests { IfOk result (λ key. IfSome key
        (λ k. (j : ℕ) → j + 1 ≡ length table.old → IsRoused table.old j → ⊥)) }
    ensures dead { IfErr result (λ fault. (fault ≡ Dead) × (last_of table.old ≡ None)) }
{
    let Some((first, others)) = table.split_first_mut() else {
        return Err(SetFault::Dead);
    };
    if others.is_empty() {
        mark(first)
    } else {
        mark_last(others)
    }
}
