//! The phases of a transaction, and what an event of one leads to.

use ts_block::OwnStatus;
use ts_hooks::TxnEnd;
use ts_link::Octets;
use ts_plugin::HookQuestion;
use ts_wire::{Fields, RequestHead, ResponseHead};

/// A request that passed the check: its head, the target that the origin gets, and the host.
#[derive(Drop)]
pub struct Request {
    pub head: RequestHead,
    pub target: Octets,
    pub host: Octets,
}

/// An answer of the proxy's own: its status, whether it goes without its body, as to a HEAD request, and how
/// the transaction ends once it is sent.
#[derive(Clone, Copy)]
pub struct OwnAnswer {
    pub status: OwnStatus,
    pub to_head: bool,
    pub end: TxnEnd,
}

/// Where a transaction stands. A phase with the name of a hook is where the transaction comes to it, and the
/// hook's first plugin is asked. Those behind it are asked in `OsDns`, and, at the hooks of a head that is
/// about to be sent, in the phases whose names begin with `Rule`.
#[derive(Drop)]
pub enum Phase {
    /// It was not started.
    Fresh,
    TxnStart,
    /// The client's request head is read, and checked.
    ReadRequest,
    ReadRequestHdr {
        request: Request,
    },
    /// So many of the hook's plugins have let the request pass.
    OsDns {
        request: Request,
        place: usize,
    },
    SendRequestHdr {
        request: Request,
    },
    /// So many of the plugins at SEND_REQUEST_HDR have answered, and these are the fields after them.
    RuleRequest {
        request: Request,
        place: usize,
        fields: Fields,
    },
    /// The request head is written to the origin.
    SendRequest {
        request: Request,
    },
    /// The origin's link moves the upload that follows the head.
    Upload {
        request: Request,
    },
    /// The origin's response head is read.
    ReadResponse {
        request: Request,
    },
    ReadResponseHdr {
        request: Request,
        head: ResponseHead,
    },
    ResponseTransform {
        request: Request,
        head: ResponseHead,
    },
    /// So many of the plugins at SEND_RESPONSE_HDR have answered for a response that is passed on, and these
    /// are the fields after them.
    RuleResponse {
        request: Request,
        head: ResponseHead,
        place: usize,
        fields: Fields,
    },
    SendResponseHdr {
        answer: OwnAnswer,
    },
    /// The same for an answer of the proxy's own.
    RuleAnswer {
        answer: OwnAnswer,
        place: usize,
        fields: Fields,
    },
    /// What was queued is written to the client.
    Sending {
        answer: OwnAnswer,
    },
    TxnClose {
        end: TxnEnd,
    },
    Ended {
        end: TxnEnd,
    },
}

impl Phase {
    /// The transaction has ended for want of memory.
    pub const LACKS: Phase = Phase::Ended {
        end: TxnEnd::NoMemory,
    };
}

/// What the driver does after a step.
#[derive(Clone, Copy)]
pub enum Next {
    /// The next step is made at once.
    Go,
    /// A link was not ready: the next step is made 10 milliseconds later.
    Wait,
    /// The transaction has ended.
    Done,
}

/// What a step answers: where the transaction stands then, and what comes next.
#[derive(Drop)]
pub struct Step {
    pub phase: Phase,
    pub next: Next,
}

impl Step {
    /// Memory lacked, and the transaction has ended for that.
    pub const LACKS: Step = Step {
        phase: Phase::LACKS,
        next: Next::Done,
    };

    /// The client's link failed, and the transaction closes for that.
    pub const CLIENT_FAILED: Step = Step {
        phase: Phase::TxnClose {
            end: TxnEnd::ClientFault,
        },
        next: Next::Go,
    };
}

/// What an event of a phase leads to.
#[derive(Drop)]
pub enum Led {
    /// A step was made.
    Steps(Step),
    /// The plugin of a group is asked, at a hook's phase whose fields stand in the question until its reply.
    Asks {
        phase: Phase,
        group: u32,
        question: HookQuestion,
    },
    /// All plugins have answered for the head of a response that is passed on, and these are the fields after
    /// them: its body begins.
    Enters {
        request: Request,
        head: ResponseHead,
        fields: Fields,
    },
}
