//! Turns of a group that nobody else has: their seat, and how the next one begins.

ghost use Rattle.std.specs.Prelude.{◌≡◌, ◌+◌, false, OnOk, OnErr};
ghost use Rattle.ts_group.specs.Acts.{BeginsTurn, KeepsRoles};
ghost use Rattle.ts_group.specs.Alone.{IsWithin};
ghost use Rattle.ts_group.specs.Answers.{Holds};
ghost use Rattle.ts_group.specs.Context.{IsSame};
ghost use Rattle.ts_group.specs.declared.alone.TheConstants.{ONLY_SEAT};

use crate::group::Group;
use crate::world::World;

/// The seat under which the turns of a group are taken that nobody else has.
pub const ONLY_SEAT: u64 = 0;

/// Why a group that nobody else has got no turn.
#[derive(Clone, Copy, Debug, PartialEq, Eq)]
pub enum TurnFault {
    NoMemory,
    /// It has had as many turns as it may have.
    Worn,
}

impl<W: World + Drop> Group<W> {
    /// Begins the next turn of a group that nobody else has, at a moment, if it has had fewer turns than the
    /// limit. The limit `u64::MAX` is that of the numbers of turns.
    pub fn begin_alone(&mut self, limit: u64, moment: u64) -> Result<(), TurnFault>
        requires idle { self.old.cx.log.state.held ≡ false }
        ensures within { IsWithin limit self.old.cx.log.state.turns result }
        ensures begins { OnOk result
            (BeginsTurn self.old.cx self.new.cx (self.old.cx.log.state.turns + 1) ONLY_SEAT moment) }
        ensures kept { KeepsRoles self.old.cx self.new.cx }
        ensures world { self.new.world ≡ self.old.world }
        ensures sound { Holds W.sound self.old → Holds W.sound self.new }
        ensures left { W.left self.new.world self.new.cx.log.state
            ≡ W.left self.old.world self.old.cx.log.state }
        ensures err { OnErr result (IsSame self.old.cx self.new.cx) }
    {
        let turns = self.journal().turns();
        if turns >= limit {
            return Err(TurnFault::Worn);
        }
        match self.begin_turn(turns + 1, ONLY_SEAT, moment) {
            Ok(()) => Ok(()),
            Err(_) => Err(TurnFault::NoMemory),
        }
    }
}
