//! What a group lends for writing.

ghost use Rattle.std.specs.Prelude.{◌≡◌};
ghost use Rattle.std.specs.Borrow.{Lends, sem};
ghost use Rattle.ts_group.specs.contracts.group.Group.{the_row};
ghost use Rattle.ts_group.specs.contracts.cx.Cx.{the_row as cx_row};

use crate::cx::Cx;
use crate::group::Group;
use crate::world::World;

impl<W: World + Drop> Group<W> {
    /// Lends the world for writing. The journal stays as it is.
    pub fn world_mut(&mut self) -> &mut W
        ensures* writes_back { sem 𝓛 (Lends
            (the_row W.row W.Question.row W.Reply.row W.Tag.row W.Trace.row) W.row
            self.entry result (λ w. record self.old { world = w })) }
        ensures value { result.now ≡ self.old.world }
    {
        &mut self.world
    }

    /// Lends the continuations. The world stays as it is.
    pub fn cx(&mut self) -> &mut Cx
        ensures* writes_back { sem 𝓛 (Lends
            (the_row W.row W.Question.row W.Reply.row W.Tag.row W.Trace.row) cx_row
            self.entry result (λ c. record self.old { cx = c })) }
        ensures value { result.now ≡ self.old.cx }
    {
        &mut self.cx
    }
}
