//! What is said of threads once, apart from their calls.

ghost use Rattle.ts_thread.specs.Limits.{AreLimits};

/// The limits of threads.
pub fn are_limits()
    ensures { AreLimits }
{}
