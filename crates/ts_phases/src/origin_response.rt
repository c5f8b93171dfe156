//! The phases in which the origin's response head is read and its plugins are asked.
ghost use Rattle.ts_phases.specs.Leading.{LeadsTo};
ghost use Rattle.ts_phases.specs.Lowering.{StepFallsFrom};
ghost use Rattle.ts_phases.specs.Owed.{StepOwes};
ghost use Rattle.ts_phases.specs.Cover.{StepLeads};
ghost use Rattle.ts_phases.specs.Holding.{HasTable, PhaseHolds, HoldsAfter};

use crate::head_reader::Found;
use crate::origin_request::{answer_to, host_of};
use crate::parts::Core;
use crate::phase::{Led, Next, Phase, Request, Step};
use ts_block::{OwnStatus, is_good, is_interim};
use ts_hooks::{Hook, TxnEnd};
use ts_link::Link;
use ts_plugin::HookQuestion;
use ts_upstream::Upstream;
use ts_vconn::Pulled;
use ts_wire::{Fields, ResponseHead, forward_fields};

impl<C: Link, O: Upstream<C>> Core<C, O> {
    /// Looks for the head of the final response in what the origin gave, or reads on. Interim heads are
    /// dropped.
    pub(crate) fn read_response(&mut self, request: Request) -> Step
        requires fact { PhaseHolds C.Link O.Link O.Upstream.own self.old
            (Phase.ReadResponse request) }
        ensures leads { StepLeads result }
        ensures fact { HoldsAfter C.Link O.Link O.Upstream.own self.old self.new result }
        ensures owes { StepOwes C.Link O.Link O.Upstream.own self.old self.new
            (Phase.ReadResponse request) result }
        ensures falls { StepFallsFrom C.Link O.Link O.Upstream.own self.old self.new
            (Phase.ReadResponse request) result }
    {
        let bad = answer_to(&request, OwnStatus::BadGateway, TxnEnd::Whole);
        let fault = answer_to(&request, OwnStatus::BadGateway, TxnEnd::OriginFault);
        match self.seek_response() {
            Found::Head(head) => {
                if is_interim(head.status) {
                    return Step {
                        phase: Phase::ReadResponse { request },
                        next: Next::Go,
                    };
                }
                if is_good(&request.head, &head) {
                    return Step {
                        phase: Phase::ReadResponseHdr { request, head },
                        next: Next::Go,
                    };
                }
                Step {
                    phase: Phase::SendResponseHdr { answer: bad },
                    next: Next::Go,
                }
            }
            Found::Never => Step {
                phase: Phase::SendResponseHdr { answer: bad },
                next: Next::Go,
            },
            Found::Read(Pulled::End) => Step {
                phase: Phase::SendResponseHdr { answer: bad },
                next: Next::Go,
            },
            Found::Read(Pulled::Some(_)) => Step {
                phase: Phase::ReadResponse { request },
                next: Next::Go,
            },
            Found::Read(Pulled::Again) => Step {
                phase: Phase::ReadResponse { request },
                next: Next::Wait,
            },
            Found::Read(Pulled::Failed) => Step {
                phase: Phase::SendResponseHdr { answer: fault },
                next: Next::Go,
            },
            Found::NoMemory => Step::LACKS,
        }
    }
    /// Takes the fields that are sent on, and begins to ask the plugins at SEND_RESPONSE_HDR.
    pub(crate) fn response_transform(&self, request: Request, head: ResponseHead) -> Led
        requires fact { PhaseHolds C.Link O.Link O.Upstream.own self.now
            (Phase.ResponseTransform request head) }
        requires table { HasTable self.now }
        ensures { LeadsTo C.Link O.Link O.Upstream.own self.now self.now
            (Phase.ResponseTransform request head) result }
    {
        let Ok(fields) = forward_fields(self.alloc, &head.fields) else {
            return Led::Steps(Step::LACKS);
        };
        self.rule_response(request, head, 0, fields)
    }

    /// Asks the next plugin at SEND_RESPONSE_HDR; where none is left, the body of the response begins.
    pub(crate) fn rule_response(
        &self,
        request: Request,
        head: ResponseHead,
        place: usize,
        fields: Fields,
    ) -> Led
        requires fact { PhaseHolds C.Link O.Link O.Upstream.own self.now
            (Phase.RuleResponse request head place fields) }
        requires table { HasTable self.now }
        ensures { LeadsTo C.Link O.Link O.Upstream.own self.now self.now
            (Phase.RuleResponse request head place fields) result }
    {
        let Some(group) = self.hooks.next(Hook::SendResponseHdr, place) else {
            return Led::Enters {
                request,
                head,
                fields,
            };
        };
        let Ok(host) = host_of(self.alloc, &request) else {
            return Led::Steps(Step::LACKS);
        };
        Led::Asks {
            phase: Phase::RuleResponse {
                request,
                head,
                place,
                fields: Fields::new(self.alloc),
            },
            group,
            question: HookQuestion {
                hook: Hook::SendResponseHdr,
                host,
                fields,
            },
        }
    }
}
