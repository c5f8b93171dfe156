//! Worlds whose events can be brought forward.

ghost use Rattle.std.specs.Prelude.{◌≡◌, true};
ghost use Rattle.ts_group.specs.Answers.{Falls, KeepsPromises, SetsAtMost};
ghost use Rattle.ts_group.specs.Context.{IsOrderly};
ghost use Rattle.ts_group.specs.Entries.{Grows};

use crate::cx::Cx;
use crate::world::{MOST_SET, World};

/// A world that can bring its events forward where what it waits for may have come.
pub trait Rouse: World {
    /// Brings forward what waits for a later moment. No event is handled.
    fn rouse(&mut self, cx: &mut Cx)
        requires turn { cx.old.log.state.held ≡ true }
        requires orderly { IsOrderly cx.old }
        requires sound { Self.sound self.old cx.old.log.state cx.old.roles }
        ensures grows { Grows cx.old cx.new }
        ensures sound { Self.sound self.new cx.new.log.state cx.new.roles }
        ensures falls { Falls (Self.left self.old cx.old.log.state) 0 (Self.left self.new cx.new.log.state) }
        ensures promises { KeepsPromises Self.fits Self.right Self.may_ask self.old self.new }
        ensures few { SetsAtMost Self.fits self.old MOST_SET cx.old cx.new };
}
