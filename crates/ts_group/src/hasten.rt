//! An event that is due later, brought forward.

ghost use Rattle.std.specs.Prelude.{◌≡◌, true};
ghost use Rattle.ts_group.specs.Changes.{CallsStay};
ghost use Rattle.ts_group.specs.Context.{HasNeeded};
ghost use Rattle.ts_group.specs.Entries.{GrowsLog};
ghost use Rattle.ts_group.specs.Late.{Hastens, is_late, late_in};

use crate::action::SetFault;
use crate::events::{cancel_event, set_event};
use crate::keys::is_same;
use ts_journal::{ContKey, Event, Journal, Pending};

// Whether an event is a `Timeout` of a key and no periodic one, and due later than a moment.
fn is_late(event: Pending, key: ContKey, moment: u64) -> bool
    ensures { result ≡ is_late key moment event }
{
    is_same(event.key, key)
        && matches!(event.event, Event::Timeout)
        && event.period == 0
        && moment < event.due
}

// The first late event of a key.
#[tactic(auto, using(crate::proofs::Late::late_past, crate::proofs::Late::late_here))]
fn late_event(pending: &[Pending], key: ContKey, moment: u64) -> Option<Pending>
    ensures { result ≡ late_in key moment pending.now }
{
    for event in pending {
        if is_late(*event, key, moment) {
            return Some(*event);
        }
    }
    None
}

/// Brings the first late event of a key forward.
pub fn hasten_event(journal: &mut Journal, key: ContKey, moment: u64) -> Result<bool, SetFault>
    requires turn { journal.old.state.held ≡ true }
    requires room { HasNeeded journal.old }
    ensures hastens { Hastens journal.old journal.new key moment result }
    ensures room { HasNeeded journal.new }
    ensures stay { CallsStay journal.old.state journal.new.state }
    ensures grows { GrowsLog journal.old journal.new }
{
    let Some(late) = late_event(journal.pending(), key, moment) else {
        return Ok(false);
    };
    journal.known();
    match set_event(journal, key, Event::Immediate, moment, 0) {
        Ok(_action) => {
            cancel_event(journal, late.number);
            Ok(true)
        }
        Err(fault) => Err(fault),
    }
}
