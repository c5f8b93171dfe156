//! How a transaction ends.

/// The end of a transaction, which it tells and a report names.
#[derive(Clone, Copy, Debug, PartialEq, Eq)]
pub enum TxnEnd {
    /// The answer was sent whole, or the client ended before its first byte.
    Whole,
    /// The origin ended in the middle of its body.
    OriginCut,
    /// The body of the origin's response broke its framing.
    OriginBad,
    /// The origin's link failed.
    OriginFault,
    /// The client's link failed.
    ClientFault,
    /// Memory was lacking.
    NoMemory,
}
