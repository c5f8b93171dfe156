//! The system's clock.
use std::time::Duration;
use ts_link::Clock;
use ts_net::{MonotonicClock, whole_milliseconds};

#[test]
fn a_pause_takes_its_time(rt: HostRuntime) {
    let clock = MonotonicClock::new(&rt);
    let before = clock.now();
    clock.pause(5);
    assert!(rt; before > 0 && clock.now() >= before.saturating_add(5));
    assert!(rt; whole_milliseconds(Duration::from_micros(7_999)) == 7);
    assert!(rt; whole_milliseconds(Duration::MAX) == u64::MAX);
}
