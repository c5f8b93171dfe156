//! A watcher that takes a few bytes an offer, and keeps them.
ghost use Rattle.std.specs.Prelude.{◌≡◌, [], refl};
ghost use Rattle.std.proofs.Common.{◌∙◌};

use std::alloc::Global;
use ts_tap::Watcher;

/// Takes at most `most` bytes an offer, and none at want of memory.
#[derive(Drop)]
pub struct Slow {
    pub most: usize,
    pub kept: Vec<u8>,
    pub lefts: u64,
}

impl Slow {
    /// One that took nothing.
    pub fn make(alloc: Global, most: usize) -> Slow
        ensures { result.kept.items ≡ [] }
    {
        Slow {
            most,
            kept: Vec::new(alloc),
            lefts: 0,
        }
    }
}

impl Watcher for Slow {
    ghost took = { λ s taken. s.kept.items ≡ taken };

    ghost lefts = { λ s. s.lefts };

    ghost goes = { λ s t. t.most ≡ s.most };

    fn offer(&mut self, bytes: &[u8]) -> usize {
        let (front, left) = bytes.split_at(self.most.min(bytes.len()));
        let Ok(()) = self.kept.extend_from_slice(front) else {
            self.lefts = self.lefts.saturating_add(1);
            return 0;
        };
        if !left.is_empty() {
            self.lefts = self.lefts.saturating_add(1);
        }
        front.len()
    }

    ghost stays = { λ s. refl };

    ghost goes_on = { λ s t u g h. h ∙ g };
}
