//! The two ends of a chain between links: the continuations that read and write.
ghost use Rattle.std.specs.Prelude.{[], ◌∷◌, ◌≡◌, ℕ, ◌<◌, ◌⊎◌, Some, true, false, is_ok, Err, IfOk, IfErr, OnOk, ⊤};
ghost use Rattle.ts_journal.specs.declared.entry.TheConstants.{GREATEST};
ghost use Rattle.ts_group.specs.declared.action.SetFault.TheVariants.{NoMemory};
ghost use Rattle.ts_journal.specs.State.{IsLive};
ghost use Rattle.ts_group.specs.Context.{role_at};
ghost use Rattle.ts_group.specs.Entries.{Grows};
ghost use Rattle.ts_group.specs.Changes.{SameEvents, KeepsKeys};
ghost use Rattle.ts_transform.specs.Driving.{AddsEvents, HasLiveIf, IsNamedIf, IsRousedIf, IsRousingOf, IsWorkOfIf, KeepsStage, SetsOnly, unroused};
ghost use Rattle.ts_transform.specs.Seats.{KeepsSeated};
ghost use Rattle.ts_transform.specs.Loss.{IsCauseOf, making_loss};

use crate::continuation::{Rouser, StageContinuation, rouse};
use ts_group::{Cx, MakeFault, SetFault};

/// Makes the continuation of a role, without an event.
#[tactic(auto, using(ts_group::proofs::Grows::grows_refl))]
pub fn make_end(role: u32, cx: &mut Cx) -> Result<StageContinuation, MakeFault>
    requires turn { cx.old.log.state.held ≡ true }
    ensures grows { Grows cx.old cx.new }
    ensures turn { cx.new.log.state.held ≡ true }
    ensures events { SameEvents cx.old.log.state cx.new.log.state }
    ensures keys { KeepsKeys cx.old.log.state cx.new.log.state cx.old.roles cx.new.roles }
    ensures named { IfOk result (λ t. (role_at t.key.index cx.new.roles ≡ Some role) × (t.roused ≡ false)) }
    ensures live { IfOk result (λ t. IsLive cx.new.log.state.live t.key) }
    ensures cause { IfErr result (λ fault. IsCauseOf ⊤ (making_loss fault) cx.new) }
{
    let key = cx.make(role)?;
    Ok(StageContinuation {
        key,
        roused: false,
        passed_error: false,
    })
}

/// Says that an event of it was handled.
pub fn unrouse(slot: &mut Option<StageContinuation>)
    ensures { slot.new ≡ unroused slot.old }
{
    if let Some(continuation) = slot {
        continuation.roused = false;
    }
}

/// Sees that an event of it is pending, if it must work: after so many milliseconds, where it has none yet.
/// It refuses with `Dead` where there is none or it is not live, with `Spent` where the event numbers are
/// used up, and with `NoMemory`, and sets nothing then.
pub fn rouse_end(
    slot: &mut Option<StageContinuation>,
    must: bool,
    after: u64,
    cx: &mut Cx,
) -> Result<(), SetFault>
    requires turn { cx.old.log.state.held ≡ true }
    ensures adds { AddsEvents 1 (HasLiveIf cx.new.log.state.live slot.new) result cx.old cx.new }
    ensures stage { KeepsStage cx.old cx.new slot.old slot.new }
    ensures only { (role : ℕ) → IsNamedIf cx.old.roles role slot.old
        → SetsOnly (IsRousingOf role after cx.old.moment cx.old.roles) cx.old cx.new }
    ensures work { SetsOnly (IsWorkOfIf slot.old after cx.old.moment) cx.old cx.new
        × (result ≡ Err NoMemory → cx.old.log.state.next < GREATEST) }
    ensures rests { (must ≡ false) ⊎ IsRousedIf slot.old
        → (slot.new ≡ slot.old) × (cx.new ≡ cx.old) × (is_ok result ≡ true) }
    ensures roused { must ≡ true → OnOk result (IsRousedIf slot.new) }
    ensures seated { KeepsSeated (slot.old ∷ []) (slot.new ∷ []) cx.old cx.new }
{
    if !must {
        return Ok(());
    }
    rouse(slot, Rouser::Upstream, after, cx)
}
