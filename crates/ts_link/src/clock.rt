//! Clocks, which tell the moment in milliseconds.
ghost use Rattle.std.specs.Prelude.{◌≡◌};

use std::marker::Model;
use std::sync::atomic::{AtomicU64, Ordering};

/// How many milliseconds what was not to be had is tried again after: a link that waited, or a group that
/// another seat held.
pub const RETRY_AFTER: u64 = 10;

/// Tells the moment, in milliseconds.
pub trait Clock {
    /// The moment. Nothing is promised of it.
    fn now(&self) -> u64;

    /// Lets so many milliseconds pass, if it can. Nothing is promised of it.
    fn pause(&self, ms: u64);
}

/// A clock for tests, of which nobody has to wait: its moment rises by 1 after each `now`, and by `ms` at
/// each `pause`, modulo 2^64.
#[derive(Drop)]
pub struct StepClock {
    first: u64,
    // How many milliseconds passed since.
    passed: AtomicU64,
}

// A contract sees its first moment. What passed since stands in an atomic word, of which a contract sees
// nothing.
impl Model for StepClock {
    ghost use Rattle.std.specs.Prelude.{ℕ};

    ghost Value = { ℕ };

    ghost view = { λ c. c.first };
}

impl StepClock {
    /// A clock whose first moment is `at`.
    pub fn make(at: u64) -> StepClock
        ensures { result ≡ at }
    {
        StepClock {
            first: at,
            passed: AtomicU64::new(0),
        }
    }
}

impl Clock for StepClock {
    fn now(&self) -> u64 {
        let passed = self.passed.fetch_add(1, Ordering::SeqCst);
        self.first.wrapping_add(passed)
    }

    fn pause(&self, ms: u64) {
        self.passed.fetch_add(ms, Ordering::SeqCst);
    }
}
