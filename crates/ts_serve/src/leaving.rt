//! What becomes of a client whose handler has ended.

use ts_txn::{Noted, Retired};

/// What becomes of a client whose handler has ended.
#[derive(Drop)]
pub enum Leaving<C, O, W, X> {
    /// It goes: what is left of it.
    Retires(Retired<C, O>),
    /// It stays, and another handler stands in its place, as one that waits for its next request.
    Stays(W),
    /// It goes on with its next request: what is left of the transaction before, and what the next handler is
    /// made with, beside its origin.
    GoesOn { noted: Noted<O>, next: X },
}
