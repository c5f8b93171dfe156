//! What the event of a transaction leads to, by its phase.
ghost use Rattle.std.specs.Prelude.{◌≡◌};
ghost use Rattle.ts_phases.specs.View.{IsPaired};
ghost use Rattle.ts_phases.specs.Leading.{LeadsTo};
ghost use Rattle.ts_phases.specs.Holding.{HasTable, PhaseHolds};

use crate::parts::Core;
use crate::phase::{Led, Next, Phase, Request, Step};
use ts_hooks::TxnEnd;
use ts_link::Link;
use ts_upstream::Upstream;
use ts_wire::ResponseHead;

/// A step that goes on to a phase at once.
pub(crate) fn step_to(phase: Phase) -> Step
    ensures { result ≡ record { phase = phase; next = Next.Go } }
{
    Step {
        phase,
        next: Next::Go,
    }
}

// The origin's name is looked up next: no plugin of that hook has answered yet.
fn look_up(request: Request) -> Step
    ensures { result ≡ record { phase = Phase.OsDns request 0; next = Next.Go } }
{
    step_to(Phase::OsDns { request, place: 0 })
}

// The transforms of a response are chosen next.
fn choose_transforms(request: Request, head: ResponseHead) -> Step
    ensures { result ≡ record { phase = Phase.ResponseTransform request head; next = Next.Go } }
{
    step_to(Phase::ResponseTransform { request, head })
}

// A transaction has ended.
fn ended(end: TxnEnd) -> Step
    ensures { result ≡ record { phase = Phase.Ended end; next = Next.Done } }
{
    Step {
        phase: Phase::Ended { end },
        next: Next::Done,
    }
}

impl<C: Link, O: Upstream<C>> Core<C, O> {
    /// What the event of a phase leads to: a step is made, a plugin of the phase's hook is asked, or the body
    /// of a response begins, which makes continuations and is not done here.
    pub fn lead(&mut self, phase: Phase) -> Led
        requires stands { PhaseHolds C.Link O.Link O.Upstream.own self.old phase
            × IsPaired O.Upstream.own self.old }
        requires table { HasTable self.old }
        ensures { LeadsTo C.Link O.Link O.Upstream.own self.old self.new phase result }
    {
        match phase {
            Phase::Fresh => Led::Steps(step_to(Phase::TxnStart)),
            Phase::TxnStart => Led::Steps(step_to(Phase::ReadRequest)),
            Phase::ReadRequest => Led::Steps(self.read_request()),
            Phase::ReadRequestHdr { request } => Led::Steps(look_up(request)),
            Phase::OsDns { request, place } => self.os_dns(request, place),
            Phase::SendRequestHdr { request } => self.send_request_hdr(request),
            Phase::RuleRequest {
                request,
                place,
                fields,
            } => self.rule_request(request, place, fields),
            Phase::SendRequest { request } => Led::Steps(self.send_request(request)),
            Phase::Upload { request } => Led::Steps(self.upload_some(request)),
            Phase::ReadResponse { request } => Led::Steps(self.read_response(request)),
            Phase::ReadResponseHdr { request, head } => {
                Led::Steps(choose_transforms(request, head))
            }
            Phase::ResponseTransform { request, head } => self.response_transform(request, head),
            Phase::RuleResponse {
                request,
                head,
                place,
                fields,
            } => self.rule_response(request, head, place, fields),
            Phase::SendResponseHdr { answer } => self.send_response_hdr(answer),
            Phase::RuleAnswer {
                answer,
                place,
                fields,
            } => self.rule_answer(answer, place, fields),
            Phase::Sending { answer } => Led::Steps(self.send(answer)),
            Phase::TxnClose { end } => Led::Steps(self.close(end)),
            Phase::Ended { end } => Led::Steps(ended(end)),
        }
    }

    // Ends a transaction, which keeps its links, and the bytes that wait on its sides.
    fn close(&mut self, end: TxnEnd) -> Step
        ensures same { self.new ≡ self.old }
        ensures ended { result ≡ record { phase = Phase.Ended end; next = Next.Done } }
    {
        self.give_back();
        ended(end)
    }
}
