//! The counts of an adapter rise by one, and stay at the greatest `u64`.
ghost use Rattle.ts_link.specs.Counts.{Rose};

/// One more, or the greatest `u64`.
pub fn raised(count: u64) -> u64
    ensures { Rose count result }
{
    count.saturating_add(1)
}
