//! Where what came of a question leads a transaction.
ghost use Rattle.std.specs.Prelude.{◌≡◌, ◌<◌};
ghost use Rattle.ts_phases.specs.Asking.{AsksPlugins, asked_phase, continued_step, denial_of, most_places};
ghost use Rattle.ts_phases.specs.Asking.{place_in, refused_step, replied_step, told_step};

use crate::lead::step_to;
use crate::origin_request::answer_to;
use crate::phase::{Next, Phase, Request, Step};
use ts_block::OwnStatus;
use ts_group::Asked;
use ts_hooks::{HookAnswer, TxnEnd};
use ts_plugin::{HookQuestion, HookReply};
use ts_wire::Fields;

// The phase of a question, with its fields put back.
fn asked_phase(phase: Phase, question: HookQuestion) -> Phase
    ensures { result ≡ asked_phase phase question }
{
    let HookQuestion {
        hook: _hook,
        host: _host,
        fields,
    } = question;
    match phase {
        Phase::RuleRequest { request, place, .. } => Phase::RuleRequest {
            request,
            place,
            fields,
        },
        Phase::RuleResponse {
            request,
            head,
            place,
            ..
        } => Phase::RuleResponse {
            request,
            head,
            place,
            fields,
        },
        Phase::RuleAnswer { answer, place, .. } => Phase::RuleAnswer {
            answer,
            place,
            fields,
        },
        phase => phase,
    }
}

// A plugin let the transaction go on, with these fields.
fn continued_step(phase: Phase, fields: Fields) -> Step
    requires asks { AsksPlugins phase }
    requires room { place_in phase < most_places }
    ensures { result ≡ continued_step phase fields }
{
    match phase {
        Phase::OsDns { request, place } => step_to(Phase::OsDns {
            request,
            place: place + 1,
        }),
        Phase::RuleRequest {
            request,
            place,
            fields: _none,
        } => step_to(Phase::RuleRequest {
            request,
            place: place + 1,
            fields,
        }),
        Phase::RuleResponse {
            request,
            head,
            place,
            fields: _none,
        } => step_to(Phase::RuleResponse {
            request,
            head,
            place: place + 1,
            fields,
        }),
        Phase::RuleAnswer {
            answer,
            place,
            fields: _none,
        } => step_to(Phase::RuleAnswer {
            answer,
            place: place + 1,
            fields,
        }),
        _other => unreachable!(),
    }
}

// The 403 answer to a request is next.
fn denied(request: Request) -> Step
    ensures { result ≡ record { phase = Phase.SendResponseHdr (denial_of request); next = Next.Go } }
{
    let answer = answer_to(&request, OwnStatus::Forbidden, TxnEnd::Whole);
    step_to(Phase::SendResponseHdr { answer })
}

// A plugin answered with an error: no response is sent yet where the request is denied for that.
fn refused_step(phase: Phase, fields: Fields) -> Step
    requires asks { AsksPlugins phase }
    requires room { place_in phase < most_places }
    ensures { result ≡ refused_step phase fields }
{
    match phase {
        Phase::OsDns { request, .. } => denied(request),
        Phase::RuleRequest { request, .. } => denied(request),
        phase => continued_step(phase, fields),
    }
}

// A plugin replied.
fn replied_step(phase: Phase, reply: HookReply) -> Step
    requires asks { AsksPlugins phase }
    requires room { place_in phase < most_places }
    ensures { result ≡ replied_step phase reply.answer reply.fields }
{
    let HookReply { answer, fields } = reply;
    match answer {
        Ok(HookAnswer::Continue) => continued_step(phase, fields),
        Ok(HookAnswer::Error) => refused_step(phase, fields),
        Err(_) => Step::LACKS,
    }
}

/// Where what came of a phase's question leads: a reply goes on to the hook's next plugin, or to the 403
/// answer; a group that was missed is asked again later; and want of memory, here or of the plugin, ends the
/// transaction.
pub fn told_step(phase: Phase, asked: Asked<HookQuestion, HookReply>) -> Step
    requires asks { AsksPlugins phase }
    requires room { place_in phase < most_places }
    ensures { result ≡ told_step phase asked }
{
    match asked {
        Asked::Reply(reply) => replied_step(phase, reply),
        Asked::Missed { seen: _, question } => Step {
            phase: asked_phase(phase, question),
            next: Next::Wait,
        },
        Asked::NoMemory(_question) => Step::LACKS,
    }
}
