//! The phase in which the client's request head is read and checked.
ghost use Rattle.std.specs.Prelude.{◌≡◌, IfOk};
ghost use Rattle.ts_phases.specs.Lowering.{StepFallsFrom};
ghost use Rattle.ts_phases.specs.Owed.{StepOwes};
ghost use Rattle.ts_phases.specs.Cover.{StepLeads};
ghost use Rattle.ts_phases.specs.Holding.{PhaseHolds, HoldsAfter};
ghost use Rattle.ts_phases.specs.Checking.{IsCheckedAs};

use crate::head_reader::Found;
use crate::parts::Core;
use crate::phase::{Next, OwnAnswer, Phase, Request, Step};
use std::alloc::Global;
use ts_block::{OwnStatus, asks_head};
use ts_hooks::TxnEnd;
use ts_link::{Link, NoMemory};
use ts_upstream::Upstream;
use ts_vconn::Pulled;
use ts_wire::{RequestHead, Verdict, check_request};

// The client gave what is no request: the 400 answer is next.
const NO_HEAD: Step = Step {
    phase: Phase::SendResponseHdr {
        answer: OwnAnswer {
            status: OwnStatus::BadRequest,
            to_head: false,
            end: TxnEnd::Whole,
        },
    },
    next: Next::Go,
};

// The client gave nothing: the transaction closes without an answer.
const SILENT: Step = Step {
    phase: Phase::TxnClose { end: TxnEnd::Whole },
    next: Next::Go,
};

/// What the check makes of a head that was read.
#[derive(Drop)]
pub enum Checked {
    /// A request.
    Pass(Request),
    /// The answer that refuses it.
    Refused(OwnAnswer),
}

/// Checks a head that was read.
fn check(alloc: Global, head: RequestHead) -> Result<Checked, NoMemory>
    ensures { IfOk result (IsCheckedAs head) }
{
    match check_request(alloc, &head)? {
        Verdict::Pass { target, host } => Ok(Checked::Pass(Request { head, target, host })),
        Verdict::Refuse(status) => Ok(Checked::Refused(OwnAnswer {
            status: OwnStatus::of_refusal(status),
            to_head: asks_head(&head),
            end: TxnEnd::Whole,
        })),
    }
}

impl<C: Link, O: Upstream<C>> Core<C, O> {
    /// Looks for the request's head in what the client gave, and checks it, or reads on.
    pub(crate) fn read_request(&mut self) -> Step
        requires fact { PhaseHolds C.Link O.Link O.Upstream.own self.old Phase.ReadRequest }
        ensures leads { StepLeads result }
        ensures fact { HoldsAfter C.Link O.Link O.Upstream.own self.old self.new result }
        ensures owes { StepOwes C.Link O.Link O.Upstream.own self.old self.new
            Phase.ReadRequest result }
        ensures falls { StepFallsFrom C.Link O.Link O.Upstream.own self.old self.new
            Phase.ReadRequest result }
    {
        match self.seek_request() {
            Found::Head(head) => match check(self.alloc, head) {
                Ok(Checked::Pass(request)) => Step {
                    phase: Phase::ReadRequestHdr { request },
                    next: Next::Go,
                },
                Ok(Checked::Refused(answer)) => Step {
                    phase: Phase::SendResponseHdr { answer },
                    next: Next::Go,
                },
                Err(_) => Step::LACKS,
            },
            Found::Never => NO_HEAD,
            Found::Read(Pulled::Some(_)) => Step {
                phase: Phase::ReadRequest,
                next: Next::Go,
            },
            Found::Read(Pulled::End) => {
                if self.client.inbox.is_empty() {
                    SILENT
                } else {
                    NO_HEAD
                }
            }
            Found::Read(Pulled::Again) => Step {
                phase: Phase::ReadRequest,
                next: Next::Wait,
            },
            Found::Read(Pulled::Failed) => Step::CLIENT_FAILED,
            Found::NoMemory => Step::LACKS,
        }
    }
}
