//! What is said of a transaction once, apart from its calls.

ghost use Rattle.ts_txn.specs.Limits.{AreLimits};

/// The limits of a transaction.
pub fn are_limits()
    ensures { AreLimits }
{}
