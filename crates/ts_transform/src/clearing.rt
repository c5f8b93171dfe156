//! How a driven chain is closed, and its continuations are destroyed.
ghost use Rattle.std.specs.Prelude.{◌≡◌, ◌++◌, ◌∷◌, List, Option, [], true, false};
ghost use Rattle.ts_transform.specs.Flow.{aborted};
ghost use Rattle.ts_transform.specs.Driving.{ActsWithin};
ghost use Rattle.ts_transform.specs.Destroying.{Clears};
ghost use Rattle.ts_transform.specs.Seats.{AllSeated};
ghost use Rattle.ts_transform.specs.declared.continuation.StageContinuation.{StageContinuation};

use crate::continuation::StageContinuation;
use crate::driven::DrivenChain;
use crate::transform::Transform;
use ts_group::Cx;

// Destroys a continuation, if there is one.
#[tactic(auto, using(crate::proofs::Seats::clears_one, crate::proofs::Seats::clears_none))]
fn destroy_one(slot: &Option<StageContinuation>, cx: &mut Cx)
    requires turn { cx.old.log.state.held ≡ true }
    ensures clears { Clears (slot.now ∷ []) cx.old cx.new }
    ensures turn { cx.new.log.state.held ≡ true }
{
    cx.known();
    if let Some(continuation) = slot {
        let _destroyed = cx.destroy(continuation.key);
    }
}

// Destroys the continuations of stages.
#[tactic(auto, using(crate::proofs::Seats::clears_then, crate::proofs::Seats::clears_empty))]
fn destroy_all(table: &[Option<StageContinuation>], cx: &mut Cx)
    requires turn { cx.old.log.state.held ≡ true }
    ensures clears { Clears table.now cx.old cx.new }
    ensures turn { cx.new.log.state.held ≡ true }
{
    let Some((first, others)) = table.split_first() else {
        return;
    };
    destroy_one(first, cx);
    destroy_all(others, cx);
}

impl<P: Transform + Drop> DrivenChain<P> {
    /// Closes it: all that waits is dropped, and the continuations of its stages are destroyed, with their events. It
    /// runs no more.
    #[tactic(auto, using(crate::proofs::Seats::seated_cleared, crate::proofs::Seats::cleared_acts))]
    pub fn close(&mut self, cx: &mut Cx)
        requires turn { cx.old.log.state.held ≡ true }
        ensures chain { self.new.chain ≡ aborted self.old.chain }
        ensures ended { (self.new.table.items ≡ []) × (self.new.running ≡ false)
            × (self.new.lost ≡ self.old.lost) }
        ensures within { ActsWithin 0 cx.old cx.new }
        ensures clears { Clears self.old.table.items cx.old cx.new }
        ensures seated { (ts : List (Option StageContinuation))
            → AllSeated cx.old.log.state.pending (ts ++ self.old.table.items)
            → AllSeated cx.new.log.state.pending ts }
    {
        destroy_all(self.table.as_slice(), cx);
        self.table.clear();
        self.chain.abort();
        self.running = false;
    }
}
