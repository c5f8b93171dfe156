//! What is said of serving once, apart from its calls.

ghost use Rattle.ts_serve.specs.Limits.{AreLimits};

/// The limits of serving.
pub fn are_limits()
    ensures { AreLimits }
{}
