//! Events in a journal: how one is set, cancelled and handled.

ghost use Rattle.std.specs.Prelude.{◌≡◌, ◌↔◌, true, [], ◌∷◌, None, IsTrue, OnOk, OnErr};
ghost use Rattle.ts_journal.specs.declared.entry.Entry.TheVariants as Entry;
ghost use Rattle.ts_journal.specs.State.{first_in_series};
ghost use Rattle.ts_journal.specs.Log.{Extends, IsSameLog};
ghost use Rattle.ts_journal.specs.Tables.{entry_of};
ghost use Rattle.ts_group.specs.Context.{HasNeeded};
ghost use Rattle.ts_group.specs.Entries.{GrowsLog, CanSet, CanCancel, CanBeAsked};
ghost use Rattle.ts_group.specs.Changes.{CallsStay, HasClosed, HasSet};
ghost use Rattle.ts_group.specs.Acts.{Sets, Cancels, EntersEvent, EntersQuestion};
ghost use Rattle.ts_group.specs.Calls.{IsReady};

use crate::action::{Action, Cancel, SetFault};
use crate::keys::OWN_KEY;
use crate::reserve::spare;
use ts_journal::{ContKey, Entry, Event, GREATEST, Journal, Pending};
use ts_link::NoMemory;

// Adds an event under the next number.
#[tactic(auto, using(crate::proofs::Room::needed_set))]
fn add_event(journal: &mut Journal, event: Pending)
    requires can { CanSet journal.old event }
    ensures log { Extends journal.old journal.new (entry_of event ∷ []) }
    ensures set { HasSet journal.old.state journal.new.state event }
    ensures turn { journal.new.state.held ≡ true }
    ensures room { HasNeeded journal.new }
    ensures stay { CallsStay journal.old.state journal.new.state }
{
    journal.known();
    journal.push(Entry::Set {
        number: event.number,
        key: event.key,
        event: event.event,
        due: event.due,
        series: event.series,
        period: event.period,
    });
}

/// Sets an event.
#[tactic(auto, using(crate::proofs::Grows::set_steps))]
pub fn set_event(
    journal: &mut Journal,
    key: ContKey,
    event: Event,
    due: u64,
    period: u64,
) -> Result<Action, SetFault>
    requires turn { journal.old.state.held ≡ true }
    requires room { HasNeeded journal.old }
    ensures sets { Sets journal.old journal.new result key event due period }
    ensures room { HasNeeded journal.new }
    ensures stay { CallsStay journal.old.state journal.new.state }
    ensures grows { GrowsLog journal.old journal.new }
{
    if !journal.is_live(key) {
        return Err(SetFault::Dead);
    }
    let number = journal.next();
    if number == GREATEST {
        return Err(SetFault::Spent);
    }
    if let Err(_) = spare(journal, 2) {
        return Err(SetFault::NoMemory);
    }
    add_event(
        journal,
        Pending {
            number,
            key,
            event,
            due,
            series: number,
            period,
        },
    );
    Ok(Action { series: number })
}

// The number of the first event of a series.
#[tactic(auto, using(crate::proofs::Scans::series_past, crate::proofs::Scans::series_here))]
fn number_of(pending: &[Pending], series: u64) -> Option<u64>
    ensures { result ≡ first_in_series series pending.now }
{
    for event in pending {
        if event.series == series {
            return Some(event.number);
        }
    }
    None
}

/// Whether a series has no pending event.
pub fn is_series_done(journal: &Journal, series: u64) -> bool
    ensures { IsTrue result ↔ (first_in_series series journal.now.state.pending ≡ None) }
{
    number_of(journal.pending(), series).is_none()
}

/// Enters that the pending event of a number is cancelled.
pub fn cancel_event(journal: &mut Journal, number: u64)
    requires can { CanCancel journal.old number }
    ensures log { Extends journal.old journal.new (Entry.Cancelled number ∷ []) }
    ensures closed { HasClosed journal.old.state journal.new.state number }
    ensures turn { journal.new.state.held ≡ true }
    ensures room { HasNeeded journal.new }
    ensures stay { CallsStay journal.old.state journal.new.state }
{
    journal.known();
    journal.push(Entry::Cancelled { number });
}

/// Cancels the pending event of a series.
pub fn cancel_series(journal: &mut Journal, series: u64) -> Cancel
    requires turn { journal.old.state.held ≡ true }
    requires room { HasNeeded journal.old }
    ensures cancels { Cancels journal.old journal.new result series }
    ensures room { HasNeeded journal.new }
    ensures stay { CallsStay journal.old.state journal.new.state }
    ensures grows { GrowsLog journal.old journal.new }
{
    journal.known();
    match number_of(journal.pending(), series) {
        Some(number) => {
            cancel_event(journal, number);
            Cancel::Cancelled
        }
        None => Cancel::Done,
    }
}

/// Enters that an event is handled, and then sets the next of its series.
pub fn enter_event(journal: &mut Journal, event: Pending, moment: u64)
    requires turn { journal.old.state.held ≡ true }
    requires ready { IsReady journal.old moment event }
    requires room { HasNeeded journal.old }
    ensures enters { EntersEvent journal.old journal.new event moment }
    ensures room { HasNeeded journal.new }
    ensures stay { CallsStay journal.old.state journal.new.state }
{
    journal.known();
    journal.push(Entry::Handled {
        number: event.number,
        moment,
    });
    let renewed = journal.next();
    if event.period > 0 && renewed < GREATEST {
        journal.push(Entry::Set {
            number: renewed,
            key: event.key,
            event: Event::Timeout,
            due: moment.saturating_add(event.period),
            series: event.series,
            period: event.period,
        });
    }
}

/// Sets an event of the group's own key, and enters that it is handled.
pub fn enter_question(journal: &mut Journal, moment: u64) -> Result<(), NoMemory>
    requires can { CanBeAsked journal.old.state }
    requires room { HasNeeded journal.old }
    ensures ok { OnOk result (EntersQuestion journal.old journal.new moment) }
    ensures err { OnErr result (IsSameLog journal.old journal.new) }
    ensures room { HasNeeded journal.new }
    ensures live { journal.new.state.live ≡ journal.old.state.live }
    ensures stay { CallsStay journal.old.state journal.new.state }
{
    if let Err(_) = spare(journal, 2) {
        return Err(NoMemory);
    }
    journal.known();
    let number = journal.next();
    journal.push(Entry::Set {
        number,
        key: OWN_KEY,
        event: Event::Hook,
        due: moment,
        series: number,
        period: 0,
    });
    journal.push(Entry::Handled { number, moment });
    Ok(())
}
