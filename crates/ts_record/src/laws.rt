//! Laws: the limits of a recording.
ghost use Rattle.ts_record.specs.Limits.{AreLimits};

/// The limits of a recording. This is a law: the function does nothing.
pub fn limits()
    ensures { AreLimits }
{}
