//! The value of a turn, lent for writing. It has a file of its own, since its clause names the row of `Turn`.

ghost use Rattle.std.specs.Prelude.{◌≡◌};
ghost use Rattle.std.specs.Borrow.{Lends, sem};
ghost use Rattle.ts_slot.specs.contracts.seat.Turn.{the_row};
ghost use Rattle.ts_slot.specs.Lent.{with_value};

use crate::seat::Turn;
use ts_journal::Slotted;

impl<V: Slotted> Turn<V> {
    /// The value, to read and to change.
    pub fn value(&mut self) -> &mut V
        ensures* writes_back { sem 𝓛 (Lends
            (the_row V.row V.Tag.row V.Trace.row V.Slotted) V.row self.entry result (with_value self.old)) }
        ensures value { result.now ≡ self.old.boxed.value }
    {
        &mut *self.boxed
    }
}
