//! The continuations of stages, and how one is roused.
ghost use Rattle.std.specs.Prelude.{[], ◌∷◌, ◌≡◌, ◌<◌, ◌⊎◌, true, is_ok, Err, OnOk};
ghost use Rattle.ts_journal.specs.declared.entry.TheConstants.{GREATEST};
ghost use Rattle.ts_group.specs.declared.action.SetFault.TheVariants.{NoMemory};
ghost use Rattle.ts_journal.specs.declared.entry.Event.TheVariants.{WriteReady};
ghost use Rattle.ts_journal.specs.State.{IsLive};
ghost use Rattle.ts_transform.specs.Seats.{KeepsSeated};
ghost use Rattle.ts_transform.specs.declared.continuation.Rouser.TheVariants as Rouser;
ghost use Rattle.ts_transform.specs.Driving.{works_at, AddsEvents, HasEvent, HasKind, HasLiveIf, IsRousedIf, IsToldIf, IsWorkOf, IsWorkOfIf, KeepsStage, SetsOnly};

use ts_group::{Action, Cx, SetFault};
use ts_journal::{ContKey, Event};

/// The continuation of a stage: whether an event of it is pending at which the stage works, and whether it
/// has passed an error on.
#[derive(Clone, Copy)]
pub struct StageContinuation {
    pub key: ContKey,
    pub roused: bool,
    pub passed_error: bool,
}

/// Who rouses a stage: the stage itself or its upstream, which reenables its output, or its downstream,
/// which calls it once there is room.
#[derive(Clone, Copy)]
pub enum Rouser {
    Upstream,
    Downstream,
}

/// Whether a stage works at an event.
pub fn works(event: Event) -> bool
    ensures { result ≡ works_at event }
{
    match event {
        Event::Error | Event::WriteComplete => false,
        _ => true,
    }
}

// Sets an event at which the stage works: after its pause, and if it has none, at once.
#[tactic(auto, using(crate::proofs::Kept::set_adds, crate::proofs::Kept::set_kind))]
fn set_event(key: ContKey, rouser: Rouser, pause: u64, cx: &mut Cx) -> Result<Action, SetFault>
    requires turn { cx.old.log.state.held ≡ true }
    ensures adds { AddsEvents 1 (IsLive cx.new.log.state.live key) result cx.old cx.new }
    ensures only { SetsOnly (IsWorkOf key pause cx.old.moment) cx.old cx.new }
    ensures event { OnOk result (HasEvent cx.new.log.state.pending key) }
    ensures called { rouser ≡ Rouser.Downstream → pause ≡ 0
        → OnOk result (HasKind cx.new.log.state.pending key WriteReady) }
    ensures unspent { result ≡ Err NoMemory → cx.old.log.state.next < GREATEST }
{
    if pause > 0 {
        return cx.schedule(key, pause);
    }
    match rouser {
        Rouser::Upstream => cx.schedule(key, 0),
        Rouser::Downstream => cx.call(key, Event::WriteReady),
    }
}

/// Sees that an event of the continuation is pending at which its stage works.
#[tactic(auto, using(crate::proofs::Kept::kept_if, crate::proofs::Kept::roused_if))]
pub fn rouse(
    slot: &mut Option<StageContinuation>,
    rouser: Rouser,
    pause: u64,
    cx: &mut Cx,
) -> Result<(), SetFault>
    requires turn { cx.old.log.state.held ≡ true }
    ensures adds { AddsEvents 1 (HasLiveIf cx.new.log.state.live slot.new) result cx.old cx.new }
    ensures stage { KeepsStage cx.old cx.new slot.old slot.new }
    ensures rests { IsRousedIf slot.old
        → (slot.new ≡ slot.old) × (cx.new ≡ cx.old) × (is_ok result ≡ true) }
    ensures only { SetsOnly (IsWorkOfIf slot.old pause cx.old.moment) cx.old cx.new }
    ensures roused { OnOk result (IsRousedIf slot.new)
        × (result ≡ Err NoMemory → cx.old.log.state.next < GREATEST) }
    ensures seated { KeepsSeated (slot.old ∷ []) (slot.new ∷ []) cx.old cx.new }
    ensures called { rouser ≡ Rouser.Downstream → pause ≡ 0
        → OnOk result (IsRousedIf slot.old ⊎ IsToldIf cx.new.log.state.pending WriteReady slot.new) }
{
    let Some(continuation) = slot else {
        return Err(SetFault::Dead);
    };
    if continuation.roused {
        return Ok(());
    }
    set_event(continuation.key, rouser, pause, cx)?;
    continuation.roused = true;
    Ok(())
}
