//! What is said of a group once, apart from its calls.

ghost use Rattle.ts_group.specs.Limits.{AreLimits};

/// The limits of a group.
pub fn are_limits()
    ensures { AreLimits }
{}
