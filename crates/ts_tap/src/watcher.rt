//! Who watches the body data that a client takes.
ghost use Rattle.std.specs.Prelude.{ℕ, ◌<◌, List, length};
ghost use Rattle.ts_tap.specs.Watching.{Offers};

/// Is offered bytes, and takes some of them.
pub trait Watcher {
    // It may have taken these bytes, in this order.
    ghost took: { Self → List ℕ → Type 0 };

    // How many offers it did not take whole. The count stays at the greatest `u64`.
    ghost lefts: { Self → ℕ };

    // The second is the first after some offers.
    ghost goes: { Self → Self → Type 0 };

    /// Offers it bytes, which are not empty. It takes a front of them, and answers how many that are.
    fn offer(&mut self, bytes: &[u8]) -> usize
        requires { 0 < length bytes.now }
        ensures offers { Offers took lefts self.old self.new result bytes.now }
        ensures goes { goes self.old self.new };

    // No offer at all, and offers after offers.
    ghost stays: { (w : Self) → goes w w };

    ghost goes_on: { (v w x : Self) → goes v w → goes w x → goes v x };
}
