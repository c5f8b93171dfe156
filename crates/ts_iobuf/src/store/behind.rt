//! The free bytes of a store, lent to be filled in place.
ghost use Rattle.std.specs.Prelude.{◌≡◌, ◌≤◌, length, take};
ghost use Rattle.std.specs.Borrow.{sem};
ghost use Rattle.ts_iobuf.specs.StoreLending.{LendsBehind};

use crate::store::Store;

impl Store {
    /// The first `n` of the free bytes.
    pub fn behind_mut(&mut self, n: usize) -> &mut [u8]
        requires { n ≤ length self.old.behind }
        ensures* writes_back { sem 𝓛 (LendsBehind self.entry result) }
        ensures bytes { result.now ≡ take n self.old.behind }
    {
        let from = self.filled;
        self.filling.slice_mut(from..from + n)
    }
}
