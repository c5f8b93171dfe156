//! What is said of the links over sockets once, apart from their calls.

ghost use Rattle.ts_net.specs.Limits.{AreErrorNumbers, AreLimits, AreNames};

/// The limits of the links over sockets.
pub fn are_limits()
    ensures { AreLimits }
{}

/// The names that no client has.
pub fn are_names()
    ensures { AreNames }
{}

/// The numbers of the errors that end the listening.
pub fn are_error_numbers()
    ensures { AreErrorNumbers }
{}
