//! Laws: what the requests of a connection's transactions are among all that its client gives.
ghost use Rattle.ts_history.specs.History.{HaveRequests, TakeFirst};

/// The requests of a connection's transactions are the first ones of all that its client gives, in their
/// order, none skipped and none twice; the last may be what is left. This is a law: the function does
/// nothing.
pub fn take_first()
    ensures { TakeFirst }
{}

/// All bytes of a client can be cut into requests. This is a law: the function does nothing.
pub fn have_requests()
    ensures { HaveRequests }
{}
