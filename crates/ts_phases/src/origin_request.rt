//! The phases in which a request is denied or goes to its origin.
ghost use Rattle.std.specs.Prelude.{◌≡◌, IfOk};
ghost use Rattle.std.specs.Arc.{arc_value};
ghost use Rattle.ts_hooks.specs.declared.hook.Hook.TheVariants as Hook;
ghost use Rattle.ts_wire.specs.Check.{plugin_host};
ghost use Rattle.ts_block.specs.Relayed.{asks_head};
ghost use Rattle.ts_phases.specs.View.{IsPaired};
ghost use Rattle.ts_phases.specs.Leading.{LeadsTo};
ghost use Rattle.ts_phases.specs.Lowering.{StepFallsFrom};
ghost use Rattle.ts_phases.specs.Owed.{NoneLeft, StepOwes};
ghost use Rattle.ts_phases.specs.Cover.{StepLeads};
ghost use Rattle.ts_phases.specs.Holding.{HasTable, PhaseHolds, HoldsAfter};

use crate::parts::Core;
use crate::phase::{Led, Next, OwnAnswer, Phase, Request, Step};
use std::alloc::Global;
use ts_block::{OwnStatus, asks_head, request_with};
use ts_hooks::{Hook, TxnEnd};
use ts_link::{Link, NoMemory, Octets};
use ts_plugin::HookQuestion;
use ts_upstream::{Uploaded, Upstream};
use ts_vconn::Pushed;
use ts_wire::{Fields, forward_fields, plugin_host};

/// The host of a request as plugins see it.
pub(crate) fn host_of(alloc: Global, request: &Request) -> Result<Octets, NoMemory>
    ensures { IfOk result (λ host. host ≡ plugin_host request.now.host) }
{
    plugin_host(alloc, request.host.bytes())
}

/// The answer of this status to a request, and the end after it.
pub(crate) fn answer_to(request: &Request, status: OwnStatus, end: TxnEnd) -> OwnAnswer
    ensures { result ≡ record { status = status; to_head = asks_head request.now.head; end = end } }
{
    OwnAnswer {
        status,
        to_head: asks_head(&request.head),
        end,
    }
}

impl<C: Link, O: Upstream<C>> Core<C, O> {
    /// Asks the next plugin at OS_DNS; where none is left, the request goes on.
    pub(crate) fn os_dns(&self, request: Request, place: usize) -> Led
        requires fact { PhaseHolds C.Link O.Link O.Upstream.own self.now (Phase.OsDns request place) }
        requires table { HasTable self.now }
        ensures { LeadsTo C.Link O.Link O.Upstream.own self.now self.now
            (Phase.OsDns request place) result }
    {
        let Some(group) = self.hooks.next(Hook::OsDns, place) else {
            return Led::Steps(self.dial(request, place));
        };
        let Ok(host) = host_of(self.alloc, &request) else {
            return Led::Steps(Step::LACKS);
        };
        Led::Asks {
            phase: Phase::OsDns { request, place },
            group,
            question: HookQuestion {
                hook: Hook::OsDns,
                host,
                fields: Fields::new(self.alloc),
            },
        }
    }

    // Finds that the request has no origin, or lets it go on to that.
    fn dial(&self, request: Request, place: usize) -> Step
        requires fact { PhaseHolds C.Link O.Link O.Upstream.own self.now (Phase.OsDns request place) }
        requires none { NoneLeft (arc_value self.now.setup).plugins.items Hook.OsDns place }
        ensures leads { StepLeads result }
        ensures fact { HoldsAfter C.Link O.Link O.Upstream.own self.now self.now result }
        ensures owes { StepOwes C.Link O.Link O.Upstream.own self.now self.now
            (Phase.OsDns request place) result }
        ensures falls { StepFallsFrom C.Link O.Link O.Upstream.own self.now self.now
            (Phase.OsDns request place) result }
    {
        if self.origin.is_none() {
            let answer = answer_to(&request, OwnStatus::BadGateway, TxnEnd::Whole);
            return Step {
                phase: Phase::SendResponseHdr { answer },
                next: Next::Go,
            };
        }
        Step {
            phase: Phase::SendRequestHdr { request },
            next: Next::Go,
        }
    }

    /// Takes the fields that are sent on, and begins to ask the plugins at SEND_REQUEST_HDR.
    pub(crate) fn send_request_hdr(&mut self, request: Request) -> Led
        requires fact { PhaseHolds C.Link O.Link O.Upstream.own self.old
            (Phase.SendRequestHdr request) }
        requires table { HasTable self.old }
        ensures { LeadsTo C.Link O.Link O.Upstream.own self.old self.new
            (Phase.SendRequestHdr request) result }
    {
        let Ok(fields) = forward_fields(self.alloc, &request.head.fields) else {
            return Led::Steps(Step::LACKS);
        };
        self.rule_request(request, 0, fields)
    }

    /// Asks the next plugin at SEND_REQUEST_HDR; where none is left, the request's head is queued.
    pub(crate) fn rule_request(&mut self, request: Request, place: usize, fields: Fields) -> Led
        requires fact { PhaseHolds C.Link O.Link O.Upstream.own self.old
            (Phase.RuleRequest request place fields) }
        requires table { HasTable self.old }
        ensures { LeadsTo C.Link O.Link O.Upstream.own self.old self.new
            (Phase.RuleRequest request place fields) result }
    {
        let Some(group) = self.hooks.next(Hook::SendRequestHdr, place) else {
            return Led::Steps(self.queue_ruled(request, place, fields));
        };
        let Ok(host) = host_of(self.alloc, &request) else {
            return Led::Steps(Step::LACKS);
        };
        Led::Asks {
            phase: Phase::RuleRequest {
                request,
                place,
                fields: Fields::new(self.alloc),
            },
            group,
            question: HookQuestion {
                hook: Hook::SendRequestHdr,
                host,
                fields,
            },
        }
    }

    // Queues the request's head for the origin, with the fields after all plugins.
    fn queue_ruled(&mut self, request: Request, place: usize, fields: Fields) -> Step
        requires fact { PhaseHolds C.Link O.Link O.Upstream.own self.old
            (Phase.RuleRequest request place fields) }
        requires none { NoneLeft (arc_value self.old.setup).plugins.items Hook.SendRequestHdr place }
        ensures leads { StepLeads result }
        ensures fact { HoldsAfter C.Link O.Link O.Upstream.own self.old self.new result }
        ensures owes { StepOwes C.Link O.Link O.Upstream.own self.old self.new
            (Phase.RuleRequest request place fields) result }
        ensures falls { StepFallsFrom C.Link O.Link O.Upstream.own self.old self.new
            (Phase.RuleRequest request place fields) result }
    {
        let Request { head, target, host } = &request;
        let Ok(text) = request_with(self.alloc, head, target, host, &fields) else {
            return Step::LACKS;
        };
        match self.queue_request(text.bytes()) {
            Ok(()) => Step {
                phase: Phase::SendRequest { request },
                next: Next::Go,
            },
            Err(_) => Step::LACKS,
        }
    }

    /// Writes once of the request's head.
    pub(crate) fn send_request(&mut self, request: Request) -> Step
        requires fact { PhaseHolds C.Link O.Link O.Upstream.own self.old
            (Phase.SendRequest request) }
        ensures leads { StepLeads result }
        ensures fact { HoldsAfter C.Link O.Link O.Upstream.own self.old self.new result }
        ensures owes { StepOwes C.Link O.Link O.Upstream.own self.old self.new
            (Phase.SendRequest request) result }
        ensures falls { StepFallsFrom C.Link O.Link O.Upstream.own self.old self.new
            (Phase.SendRequest request) result }
    {
        match self.write_origin() {
            Pushed::Some(_) => Step {
                phase: Phase::SendRequest { request },
                next: Next::Go,
            },
            Pushed::Nothing => Step {
                phase: Phase::Upload { request },
                next: Next::Go,
            },
            Pushed::Again => Step {
                phase: Phase::SendRequest { request },
                next: Next::Wait,
            },
            Pushed::Failed => {
                let answer = answer_to(&request, OwnStatus::BadGateway, TxnEnd::OriginFault);
                Step {
                    phase: Phase::SendResponseHdr { answer },
                    next: Next::Go,
                }
            }
            Pushed::NoMemory => Step::LACKS,
        }
    }

    /// Moves some of the upload that follows the request's head.
    pub(crate) fn upload_some(&mut self, request: Request) -> Step
        requires fact { PhaseHolds C.Link O.Link O.Upstream.own self.old (Phase.Upload request) }
        requires pair { IsPaired O.Upstream.own self.old }
        ensures leads { StepLeads result }
        ensures fact { HoldsAfter C.Link O.Link O.Upstream.own self.old self.new result }
        ensures owes { StepOwes C.Link O.Link O.Upstream.own self.old self.new
            (Phase.Upload request) result }
        ensures falls { StepFallsFrom C.Link O.Link O.Upstream.own self.old self.new
            (Phase.Upload request) result }
    {
        match self.upload() {
            Uploaded::Done => Step {
                phase: Phase::ReadResponse { request },
                next: Next::Go,
            },
            Uploaded::More => Step {
                phase: Phase::Upload { request },
                next: Next::Go,
            },
            Uploaded::Again => Step {
                phase: Phase::Upload { request },
                next: Next::Wait,
            },
            Uploaded::ClientFailed => Step::CLIENT_FAILED,
            Uploaded::OriginFailed => {
                let answer = answer_to(&request, OwnStatus::BadGateway, TxnEnd::OriginFault);
                Step {
                    phase: Phase::SendResponseHdr { answer },
                    next: Next::Go,
                }
            }
            Uploaded::Refused => {
                let answer = answer_to(&request, OwnStatus::BadRequest, TxnEnd::Whole);
                Step {
                    phase: Phase::SendResponseHdr { answer },
                    next: Next::Go,
                }
            }
            Uploaded::NoMemory => Step::LACKS,
        }
    }
}
