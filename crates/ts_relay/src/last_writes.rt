//! The last writes of a transaction that passed a body on: all that the client gets was queued.
ghost use Rattle.ts_relay.specs.BodyLinks.{SendsRest};
ghost use Rattle.ts_relay.specs.Finishing.{FinishHolds, FinishLeads};
ghost use Rattle.ts_relay.specs.StepsOwed.{RestLowers};
ghost use Rattle.ts_phases.specs.Holding.{StepKeeps};
ghost use Rattle.ts_phases.specs.View.{view_of};

use ts_hooks::TxnEnd;
use ts_link::Link;
use ts_phases::Core;
use ts_upstream::Upstream;
use ts_vconn::Pushed;

/// Where a step of a body leads.
#[derive(Clone, Copy)]
pub enum BodyStep {
    /// The next step of its kind is made as it is due.
    Goes,
    /// A link was not ready: the next step is made 10 milliseconds later.
    Waits,
    /// All that the client gets was queued, and once it is written the transaction ends so.
    Finishes(TxnEnd),
    /// The transaction closes at once.
    Closes(TxnEnd),
    /// Memory was lacking.
    Lacks,
}

/// Writes once of what was queued, behind which nothing is queued any more.
pub fn send_rest<C: Link, O: Upstream<C>>(core: &mut Core<C, O>, end: TxnEnd) -> BodyStep
    requires fact { FinishHolds C.Link O.Link O.Upstream.own core.old end }
    ensures leads { FinishLeads C.Link O.Link O.Upstream.own core.old core.new end result }
    ensures keeps { StepKeeps C.Link O.Link O.Upstream.own core.old core.new }
    ensures falls { RestLowers C.Link O.Link core.old core.new result }
    ensures links { SendsRest C.tells end
        (view_of C.Link O.Link core.old) (view_of C.Link O.Link core.new) result }
{
    match core.write_client() {
        Pushed::Some(_) => BodyStep::Goes,
        Pushed::Nothing => BodyStep::Closes(end),
        Pushed::Again => BodyStep::Waits,
        Pushed::Failed => BodyStep::Closes(TxnEnd::ClientFault),
        Pushed::NoMemory => BodyStep::Lacks,
    }
}
