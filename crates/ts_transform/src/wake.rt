//! How a last stage goes on that found its client's boundary full, in the world of a chain with its body.
ghost use Rattle.std.specs.Prelude.{◌≡◌, true, IfErr, OnOk};
ghost use Rattle.ts_transform.specs.Cover.{IsAwake};
ghost use Rattle.ts_transform.specs.Driven.{MarkLoses};
ghost use Rattle.ts_transform.specs.World.{IsSoundGroup, IsWakeCause, WakeKeeps, Wakes};

use crate::loss::Loss;
use crate::transform::Transform;
use crate::world::ChainWorld;
use ts_group::{Group, SetFault};

impl<P: Transform + Drop> ChainWorld<P> {
    /// Sets an event for the last stage, where that has not ended, 65,536 bytes or more wait after it, and
    /// it has none; so it goes on once its client has taken bytes. It is asked in a turn, after its
    /// events, and bytes are taken before the next: where none are, the stage finds its output full again.
    /// It refuses where the stage's continuation is not live, the event numbers are used up, or memory
    /// lacks; then no event was set.
    #[tactic(auto, using(ts_group::proofs::Grows::grows_refl, crate::proofs::PassedErrors::calls_same))]
    pub fn wake(group: &mut Group<ChainWorld<P>>) -> Result<(), SetFault>
        requires turn { group.old.cx.log.state.held ≡ true }
        requires sound { IsSoundGroup group.old }
        ensures sound { IsSoundGroup group.new }
        ensures keeps { WakeKeeps group.old.world group.new.world group.old.cx group.new.cx }
        ensures wakes { Wakes P.pause group.old.world.driven.chain group.old.world.driven.table.items
            group.old.cx group.new.cx }
        ensures awake { OnOk result (group.new.world.driven.running ≡ true
            → IsAwake group.new.world.driven.chain group.new.world.driven.table.items) }
        ensures loses { MarkLoses result group.old.world.driven group.new.world.driven }
        ensures cause { IfErr result
            (λ fault. IsWakeCause fault group.old.world.driven.table.items group.old.cx group.new.cx) }
    {
        let pause = group.world().last_pause();
        let Some(key) = group.world_mut().mark()? else {
            return Ok(());
        };
        if let Err(fault) = group.cx().schedule(key, pause) {
            group.world_mut().lose(Loss::of_set(&fault));
            return Err(fault);
        }
        Ok(())
    }
}
