//! What a mutex slot promises of a group, and what a seat keeps of it.

ghost use Rattle.std.specs.Prelude.{◌≡◌};
ghost use Rattle.std.specs.Bool.{OnTrue};
ghost use Rattle.ts_group.specs.Slot.{IsAtRest, marks_in};
ghost use Rattle.ts_group.specs.Standing.{StandsAfter, stands_itself, stands_on};

use crate::group::Group;
use crate::world::World;
use ts_journal::Slotted;

/// How many events are set for one turn at most, in a group that stands in a slot.
pub const MOST_IN_TURN: u64 = 8192;

/// What stands of a group after a turn is the group itself.
impl<W: World> Slotted for Group<W> {
    type Tag = W::Tag;

    type Trace = Group<W>;

    ghost fits = { λ tag g.
        W.fits tag g.world × W.sound g.world g.cx.log.state g.cx.roles
        × IsAtRest (W.only_asked tag) g.cx.log.state
        × OnTrue (W.is_first tag) (g.cx.log.base.made ≡ 0) };

    ghost stamp = { λ g. g.cx.log.state.turns };

    ghost marks = { λ g. marks_in g.cx.log };

    ghost trace = { λ g. g };

    ghost follows = { λ t u. StandsAfter W.fits t u };

    ghost follows_itself = { λ t. stands_itself W.fits t };

    ghost follows_on = { λ t u v a b. stands_on W.fits t u v a b };
}

impl<W: World + Drop> Group<W> {
    ghost use Rattle.ts_group.specs.Context.{IsOrderly};

    /// What holds of the state and the roles at any time.
    pub fn known(&self)
        ensures { IsOrderly self.now.cx }
    {
        self.cx.known();
    }
}
