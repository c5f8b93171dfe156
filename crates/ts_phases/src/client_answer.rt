//! The phases in which an answer of the proxy's own is queued and written to the client.
ghost use Rattle.std.specs.Arc.{arc_value};
ghost use Rattle.ts_hooks.specs.declared.hook.Hook.TheVariants as Hook;
ghost use Rattle.ts_phases.specs.Leading.{LeadsTo};
ghost use Rattle.ts_phases.specs.Lowering.{StepFallsFrom};
ghost use Rattle.ts_phases.specs.Owed.{NoneLeft, StepOwes};
ghost use Rattle.ts_phases.specs.Cover.{StepLeads};
ghost use Rattle.ts_phases.specs.Holding.{HasTable, PhaseHolds, HoldsAfter};

use crate::parts::Core;
use crate::phase::{Led, Next, OwnAnswer, Phase, Step};
use ts_block::own_fields;
use ts_hooks::Hook;
use ts_link::{Link, Octets};
use ts_plugin::HookQuestion;
use ts_upstream::Upstream;
use ts_vconn::Pushed;
use ts_wire::Fields;

impl<C: Link, O: Upstream<C>> Core<C, O> {
    /// Takes the fields of an answer of the proxy's own, and begins to ask the plugins at SEND_RESPONSE_HDR.
    pub(crate) fn send_response_hdr(&mut self, answer: OwnAnswer) -> Led
        requires fact { PhaseHolds C.Link O.Link O.Upstream.own self.old
            (Phase.SendResponseHdr answer) }
        requires table { HasTable self.old }
        ensures { LeadsTo C.Link O.Link O.Upstream.own self.old self.new
            (Phase.SendResponseHdr answer) result }
    {
        let Ok(fields) = own_fields(self.alloc) else {
            return Led::Steps(Step::LACKS);
        };
        self.rule_answer(answer, 0, fields)
    }

    /// Asks the next plugin at SEND_RESPONSE_HDR; where none is left, the answer is queued.
    pub(crate) fn rule_answer(&mut self, answer: OwnAnswer, place: usize, fields: Fields) -> Led
        requires fact { PhaseHolds C.Link O.Link O.Upstream.own self.old
            (Phase.RuleAnswer answer place fields) }
        requires table { HasTable self.old }
        ensures { LeadsTo C.Link O.Link O.Upstream.own self.old self.new
            (Phase.RuleAnswer answer place fields) result }
    {
        let Some(group) = self.hooks.next(Hook::SendResponseHdr, place) else {
            return Led::Steps(self.queue_answer(answer, place, fields));
        };
        Led::Asks {
            phase: Phase::RuleAnswer {
                answer,
                place,
                fields: Fields::new(self.alloc),
            },
            group,
            question: HookQuestion {
                hook: Hook::SendResponseHdr,
                host: Octets::of_vec(Vec::new(self.alloc)),
                fields,
            },
        }
    }

    // Queues an answer of the proxy's own, with the fields after all plugins.
    fn queue_answer(&mut self, answer: OwnAnswer, place: usize, fields: Fields) -> Step
        requires fact { PhaseHolds C.Link O.Link O.Upstream.own self.old
            (Phase.RuleAnswer answer place fields) }
        requires none { NoneLeft (arc_value self.old.setup).plugins.items Hook.SendResponseHdr place }
        ensures leads { StepLeads result }
        ensures fact { HoldsAfter C.Link O.Link O.Upstream.own self.old self.new result }
        ensures owes { StepOwes C.Link O.Link O.Upstream.own self.old self.new
            (Phase.RuleAnswer answer place fields) result }
        ensures falls { StepFallsFrom C.Link O.Link O.Upstream.own self.old self.new
            (Phase.RuleAnswer answer place fields) result }
    {
        let Ok(head) = answer.status.head(self.alloc, &fields) else {
            return Step::LACKS;
        };
        match self.queue_own(head.bytes(), answer.status.sent(answer.to_head)) {
            Ok(()) => Step {
                phase: Phase::Sending { answer },
                next: Next::Go,
            },
            Err(_) => Step::LACKS,
        }
    }

    /// Writes once of what was queued.
    pub(crate) fn send(&mut self, answer: OwnAnswer) -> Step
        requires fact { PhaseHolds C.Link O.Link O.Upstream.own self.old (Phase.Sending answer) }
        ensures leads { StepLeads result }
        ensures fact { HoldsAfter C.Link O.Link O.Upstream.own self.old self.new result }
        ensures owes { StepOwes C.Link O.Link O.Upstream.own self.old self.new
            (Phase.Sending answer) result }
        ensures falls { StepFallsFrom C.Link O.Link O.Upstream.own self.old self.new
            (Phase.Sending answer) result }
    {
        match self.write_client() {
            Pushed::Some(_) => Step {
                phase: Phase::Sending { answer },
                next: Next::Go,
            },
            Pushed::Nothing => Step {
                phase: Phase::TxnClose { end: answer.end },
                next: Next::Go,
            },
            Pushed::Again => Step {
                phase: Phase::Sending { answer },
                next: Next::Wait,
            },
            Pushed::Failed => Step::CLIENT_FAILED,
            Pushed::NoMemory => Step::LACKS,
        }
    }
}
