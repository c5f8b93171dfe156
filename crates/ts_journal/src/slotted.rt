//! What can stand in a mutex slot.

ghost use Rattle.std.specs.Prelude.{ℕ, List};

/// What can stand in a mutex slot. The members are for contracts alone.
pub trait Slotted {
    /// What a slot promises of whatever value stands in it.
    type Tag;

    /// What a turn leaves behind for those who come later.
    type Trace;

    /// A value keeps the promise of a tag.
    ghost fits: { Self.Tag → Self → Type 0 };

    /// The number of the last turn that the value has recorded.
    ghost stamp: { Self → ℕ };

    /// The turns that the value has recorded, each with the number of the seat that took it.
    ghost marks: { Self → List (ℕ × ℕ) };

    ghost trace: { Self → Self.Trace };

    /// The first trace was left after the second, or is the same.
    ghost follows: { Self.Trace → Self.Trace → Type 0 };

    ghost follows_itself: { (t : Self.Trace) → follows t t };

    ghost follows_on: { (t u v : Self.Trace) → follows t u → follows u v → follows t v };
}
