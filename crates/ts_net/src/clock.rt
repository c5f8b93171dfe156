//! The system's clock.
ghost use Rattle.std.specs.Prelude.{◌≡◌};
ghost use Rattle.std.specs.Duration.{as_nanos};
ghost use Rattle.ts_net.specs.Moments.{milliseconds};

use std::time::Duration;
use std::{thread, time};
use ts_link::Clock;

/// The system's monotonic clock. It tells the moment in milliseconds since some start. A clock that cannot be
/// read stands at 0.
#[derive(Drop)]
pub struct MonotonicClock<'a, R> {
    rt: &'a R,
}

impl<'a, R: time::Clock> MonotonicClock<'a, R> {
    /// The clock of this system.
    pub fn new(rt: &'a R) -> MonotonicClock<'a, R> {
        MonotonicClock { rt }
    }
}

/// The whole milliseconds of a time, at most the greatest `u64`.
pub fn whole_milliseconds(time: Duration) -> u64
    ensures { result ≡ milliseconds (as_nanos time) }
{
    u64::try_from(time.as_millis()).unwrap_or(u64::MAX)
}

impl<'a, R: time::Clock> Clock for MonotonicClock<'a, R> {
    fn now(&self) -> u64 {
        match self.rt.monotonic() {
            Ok(time) => whole_milliseconds(time),
            Err(_) => 0,
        }
    }

    fn pause(&self, ms: u64) {
        thread::sleep(self.rt, Duration::from_millis(ms));
    }
}
