//! How the stages of a chain begin: a continuation for each, and an event for each that must work.
ghost use Rattle.std.specs.Prelude.{◌≡◌, ℕ, ◌+◌, ◌<◌, [], length, true, false, Some, OnOk, IfOk, IfErr, IfSome, ⊤};
ghost use Rattle.ts_journal.specs.State.{IsLive};
ghost use Rattle.ts_group.specs.Context.{role_at};
ghost use Rattle.ts_group.specs.Entries.{Grows};
ghost use Rattle.ts_group.specs.Changes.{SameEvents, KeepsKeys};
ghost use Rattle.ts_transform.specs.Driving.{ActsWithin, AreOfStages, BeginsBeside, EachIsLive, SetsOnly};
ghost use Rattle.ts_transform.specs.Cover.{AreAllLive, IsDriven, IsRousing};
ghost use Rattle.ts_transform.specs.Loss.{IsCauseOf, making_loss};

use crate::chain::Chain;
use crate::continuation::StageContinuation;
use crate::handler::rouse_below;
use crate::link_ends::make_end;
use crate::loss::Loss;
use crate::transform::Transform;
use ts_group::{Cx, MakeFault};

// The role of the stage at a place, where the stages have the roles from the first on.
fn role_of(first: u32, at: usize) -> Option<u32>
    ensures { IfSome result (λ role. role ≡ first + at) }
{
    first.checked_add(u32::try_from(at).ok()?)
}

// Makes a continuation for the stage at a place, without an event. For want of a role memory lacks: there
// are not so many places in it.
#[tactic(auto, using(ts_group::proofs::Grows::grows_refl))]
fn make_one(first: u32, at: usize, cx: &mut Cx) -> Result<StageContinuation, MakeFault>
    requires turn { cx.old.log.state.held ≡ true }
    ensures grows { Grows cx.old cx.new }
    ensures turn { cx.new.log.state.held ≡ true }
    ensures events { SameEvents cx.old.log.state cx.new.log.state }
    ensures keys { KeepsKeys cx.old.log.state cx.new.log.state cx.old.roles cx.new.roles }
    ensures named { IfOk result
        (λ t. (role_at t.key.index cx.new.roles ≡ Some (first + at)) × (t.roused ≡ false)) }
    ensures live { IfOk result (λ t. IsLive cx.new.log.state.live t.key) }
    ensures cause { IfErr result (λ fault. IsCauseOf ⊤ (making_loss fault) cx.new) }
{
    let Some(role) = role_of(first, at) else {
        return Err(MakeFault::NoMemory);
    };
    make_end(role, cx)
}

// Makes a continuation for each of so many stages, without an event.
#[tactic(auto, using(ts_group::proofs::Grows::grows_trans))]
fn make_all(
    first: u32,
    table: &mut Vec<Option<StageContinuation>>,
    stages: usize,
    cx: &mut Cx,
) -> Result<(), MakeFault>
    requires turn { cx.old.log.state.held ≡ true }
    requires empty { table.old.items ≡ [] }
    ensures grows { Grows cx.old cx.new }
    ensures turn { cx.new.log.state.held ≡ true }
    ensures events { SameEvents cx.old.log.state cx.new.log.state }
    ensures ok { OnOk result ((length table.new.items ≡ stages)
        × AreOfStages cx.new.log.state.pending cx.new.roles first table.new.items
        × EachIsLive cx.new.log.state.live table.new.items) }
    ensures cause { IfErr result (λ fault. IsCauseOf ⊤ (making_loss fault) cx.new) }
    ensures keys { KeepsKeys cx.old.log.state cx.new.log.state cx.old.roles cx.new.roles }
{
    for at in 0..stages {
        let continuation = make_one(first, at, cx)?;
        if let Err(_) = table.push(Some(continuation)) {
            return Err(MakeFault::NoMemory);
        }
    }
    Ok(())
}

/// Makes a continuation for each stage of a chain, with the roles from the first on, and rouses each stage
/// that must work.
#[tactic(auto, using(ts_group::proofs::Grows::grows_trans))]
pub fn begin<P: Transform + Drop>(
    first: u32,
    chain: &Chain<P>,
    table: &mut Vec<Option<StageContinuation>>,
    cx: &mut Cx,
) -> Result<(), Loss>
    requires turn { cx.old.log.state.held ≡ true }
    requires empty { table.old.items ≡ [] }
    ensures within { ActsWithin (length chain.now.stages) cx.old cx.new }
    ensures only { SetsOnly (IsRousing P.pause first chain.now [] cx.old.moment cx.new.roles) cx.old cx.new }
    ensures driven { OnOk result
        (IsDriven first chain.now table.new.items cx.new.log.state.pending cx.new.roles) }
    ensures cause { IfErr result (λ loss. IsCauseOf ⊤ loss cx.new) }
    ensures rest { BeginsBeside table.new.items cx.old cx.new }
    ensures live { OnOk result (AreAllLive chain.now table.new.items cx.new) }
{
    if let Err(fault) = make_all(first, table, chain.stages(), cx) {
        return Err(Loss::of_make(&fault));
    }
    match rouse_below(chain, table, chain.stages(), cx) {
        Ok(()) => Ok(()),
        Err(fault) => Err(Loss::of_set(&fault)),
    }
}
