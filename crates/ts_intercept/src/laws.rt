//! The law of the host that an intercept reads off a head.
ghost use Rattle.ts_intercept.specs.Named.{HeadsNameHost};

/// A head that is sent names the host that its request is for, as an intercept reads it. This is a law: the
/// function does nothing.
pub fn named_hosts()
    ensures { HeadsNameHost }
{}
