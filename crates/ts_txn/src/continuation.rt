//! The first continuation of a transaction: how it is made, and why an event of it could not be set.
ghost use Rattle.std.specs.Prelude.{◌≡◌, ◌≢◌, true, false, None};
ghost use Rattle.ts_transform.specs.Driving.{IsDueAfter, SetsOnly};
ghost use Rattle.ts_txn.specs.CourseCover.{is_fresh_on, CoversAlone, SetsOneOrNone, StaysOnOrLacks};

use crate::course::Course;
use crate::course_leads::{AT_ONCE, Lead, lead_to};
use ts_group::{Cx, SetFault};
use ts_phases::Phase;
use ts_relay::MAIN;
use ts_transform::{StageContinuation, make_end};

/// Whether the numbers of events are used up.
pub fn is_spent(fault: &SetFault) -> bool
    ensures spent { result ≡ true → fault.now ≡ SetFault.Spent }
    ensures other { result ≡ false → fault.now ≢ SetFault.Spent }
{
    match fault {
        SetFault::Spent => true,
        SetFault::Dead => false,
        SetFault::NoMemory => false,
    }
}

/// Makes the continuation of a transaction that was not started, and sets its first event; it answers where
/// the transaction is then.
#[tactic(auto, using(crate::proofs::Events::stays_started))]
pub fn begin<P: Drop>(main: &mut Option<StageContinuation>, cx: &mut Cx) -> Course<P>
    requires turn { cx.old.log.state.held ≡ true }
    requires none { main.old ≡ None }
    ensures course { StaysOnOrLacks (Course.Phased Phase.TxnStart) result }
    ensures started { is_fresh_on result ≡ false }
    ensures within { SetsOneOrNone cx.old cx.new }
    ensures due { SetsOnly (IsDueAfter AT_ONCE cx.old.moment) cx.old cx.new }
    ensures covered { CoversAlone main.old main.new result cx.old cx.new }
{
    let Ok(made) = make_end(MAIN, cx) else {
        return Course::Phased(Phase::LACKS);
    };
    *main = Some(made);
    lead_to(Lead::TxnStart, AT_ONCE, main, cx)
}
