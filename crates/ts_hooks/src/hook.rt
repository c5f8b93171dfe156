//! The hooks of a transaction, and what a plugin that is asked at one answers.

ghost use Rattle.std.specs.Prelude.{◌≡◌};
ghost use Rattle.ts_hooks.specs.Hooks.{is_same};

/// The places of a transaction at which plugins are asked, in the order in which it comes to them.
#[derive(Clone, Copy, PartialEq, Eq)]
pub enum Hook {
    /// The transaction begins.
    TxnStart,
    /// The client's request head was read.
    ReadRequestHdr,
    /// The origin's name is about to be looked up.
    OsDns,
    /// The request head is about to be sent to the origin.
    SendRequestHdr,
    /// The origin's response head was read.
    ReadResponseHdr,
    /// The transforms of the response are chosen.
    ResponseTransform,
    /// The response head is about to be sent to the client.
    SendResponseHdr,
    /// The transaction ends.
    TxnClose,
}

impl Hook {
    /// Whether this hook is the other one.
    pub fn is_same(self, other: Hook) -> bool
        ensures { result ≡ is_same self other }
    {
        self == other
    }
}

/// What a plugin says to the transaction that asked it.
#[derive(Clone, Copy)]
pub enum HookAnswer {
    /// The transaction goes on.
    Continue,
    /// The transaction answers the client with an error of the proxy's own.
    Error,
}
