//! Tokens, which name events, and tickets, which are tokens in the queue.

/// An event of a mutex group: the number of the group, and that of the event in it.
#[derive(Clone, Copy, PartialEq, Eq)]
pub struct Token {
    pub group: u32,
    pub number: u64,
}

/// A token as it stands in the queue.
#[derive(Clone, Copy, PartialEq, Eq)]
pub struct Ticket {
    /// The number of the pass that put it.
    pub putter: u64,
    /// Which of the puts of that pass it was, counted from 1.
    pub serial: u64,
    pub token: Token,
}
