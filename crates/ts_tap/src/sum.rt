//! A watcher that counts bytes and sums them up.
ghost use Rattle.std.specs.Prelude.{◌≡◌, ℕ, ◌<◌, [], length, refl};
ghost use Rattle.std.proofs.Common.{◌∙◌};
ghost use Rattle.ts_tap.specs.Sums.{HasSummed};
ghost use Rattle.ts_tap.specs.Watching.{Offers};

use crate::watcher::Watcher;
use ts_record::sum_of;

/// Takes everything, counts the first `most` bytes of it, and sums these up.
#[derive(Clone, Copy)]
pub struct Sum {
    most: u64,
    count: u64,
    sum: u64,
}

impl Sum {
    /// A sum of the first `most` bytes, which took nothing.
    pub fn make(most: u64) -> Sum
        ensures most { result.most ≡ most }
        ensures none { HasSummed result [] }
    {
        Sum {
            most,
            count: 0,
            sum: 0,
        }
    }

    /// How many of the bytes that it took it counted: at most the first `most`.
    pub fn count(&self) -> u64
        ensures { result ≡ self.now.count }
    {
        self.count
    }

    /// The sum of these bytes: from 0 on, 31 times the sum before and the byte, modulo 2^64.
    pub fn sum(&self) -> u64
        ensures { result ≡ self.now.sum }
    {
        self.sum
    }
}

impl Watcher for Sum {
    ghost took = { HasSummed };

    ghost lefts = { λ s. 0 };

    ghost goes = { λ s t. t.most ≡ s.most };

    // It takes everything.
    fn offer(&mut self, bytes: &[u8]) -> usize
        requires { 0 < length bytes.now }
        ensures offers { Offers HasSummed (λ (s : Sum). 0) self.old self.new result bytes.now }
        ensures goes { self.new.most ≡ self.old.most }
        ensures all { result ≡ length bytes.now }
    {
        let left = self.most.saturating_sub(self.count);
        let counted = left.min(bytes.len() as u64);
        let (front, _) = bytes.split_at(counted as usize);
        self.count += counted;
        self.sum = sum_of(self.sum, front);
        bytes.len()
    }

    ghost stays = { λ s. refl };

    ghost goes_on = { λ s t u g h. h ∙ g };
}
