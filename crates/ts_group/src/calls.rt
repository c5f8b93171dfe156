//! The direct calls that handlers ask for.

ghost use Rattle.std.specs.Prelude.{◌≡◌, ℕ, ◌+◌, ◌<◌, ◌≤◌, true, None, Some, IfSome, drop, length};
ghost use Rattle.ts_group.specs.Context.{AllCalls, HasNeeded};
ghost use Rattle.ts_group.specs.Entries.{GrowsCalls};
ghost use Rattle.ts_group.specs.Acts.{Sets, Queues};
ghost use Rattle.ts_group.specs.Calls.{IsReady, next_in};

use crate::action::{Action, SetFault};
use crate::events::set_event;
use ts_journal::{ContKey, Event, GREATEST, Journal, Pending};

/// Sets a direct call, which waits behind the others.
#[tactic(auto, using(crate::proofs::Grows::call_steps))]
pub fn call_event(
    journal: &mut Journal,
    calls: &mut Vec<u64>,
    key: ContKey,
    event: Event,
    moment: u64,
) -> Result<Action, SetFault>
    requires turn { journal.old.state.held ≡ true }
    requires room { HasNeeded journal.old }
    ensures sets { Sets journal.old journal.new result key event moment 0 }
    ensures room { HasNeeded journal.new }
    ensures calls { Queues result calls.old.items calls.new.items }
    ensures longer { length calls.old.items ≤ length calls.new.items }
    ensures waits { (k : ℕ) → k ≤ length calls.old.items →
        AllCalls journal.old.state moment (drop k calls.old.items)
        → AllCalls journal.new.state moment (drop k calls.new.items) }
    ensures grows { (k : ℕ) → k ≤ length calls.old.items →
        GrowsCalls journal.old journal.new moment (drop k calls.old.items) (drop k calls.new.items) }
{
    if !journal.is_live(key) {
        return Err(SetFault::Dead);
    }
    if journal.next() == GREATEST {
        return Err(SetFault::Spent);
    }
    if let Err(_) = calls.reserve(1) {
        return Err(SetFault::NoMemory);
    }
    match set_event(journal, key, event, moment, 0) {
        Ok(action) => {
            calls.push_reserved(action.series);
            Ok(action)
        }
        Err(fault) => Err(fault),
    }
}

/// The first call from a place on whose event is pending, with its place.
pub fn first_call(
    journal: &Journal,
    calls: &[u64],
    from: usize,
    moment: u64,
) -> Option<(usize, Pending)>
    requires calls { AllCalls journal.now.state moment (drop from calls.now) }
    requires place { from ≤ length calls.now }
    ensures place { IfSome result (λ r. r.0 < length calls.now) }
    ensures found { IfSome result (λ r.
        next_in journal.now.state.pending (drop from calls.now)
        ≡ Some (r.1.number, drop (r.0 + 1) calls.now)) }
    ensures ready { IfSome result (λ r. IsReady journal.now moment r.1) }
    ensures rest { IfSome result (λ r. AllCalls journal.now.state moment (drop (r.0 + 1) calls.now)) }
    ensures none { result ≡ None → next_in journal.now.state.pending (drop from calls.now) ≡ None }
{
    for place in from..calls.len() {
        if let Some(event) = journal.event(calls[place]) {
            return Some((place, event));
        }
    }
    None
}
