//! Which pending event of a journal comes first, and which is news.

ghost use Rattle.std.specs.Prelude.{◌≡◌, ◌<◌, ◌≤◌, [], None, Some, IfSome};
ghost use Rattle.ts_group.specs.Due.{IsFirstDue, IsNews, NoNews, sooner};

use ts_journal::{GREATEST, Journal, Pending};

/// The event that is due first, with the least number of those that are due then.
#[tactic(auto, using(crate::proofs::First::soonest_more))]
pub fn first_due(journal: &Journal) -> Option<Pending>
    ensures none { result ≡ None → journal.now.state.pending ≡ [] }
    ensures first { IfSome result (λ p. IsFirstDue journal.now.state p) }
{
    journal.known();
    let mut first: Option<Pending> = None;
    for event in journal.pending() {
        first = Some(sooner(first, *event));
    }
    first
}

// The one that stands first so far, or this event if it is due before.
fn sooner(first: Option<Pending>, event: Pending) -> Pending
    ensures { result ≡ sooner first event }
{
    match first {
        Some(first) if first.due <= event.due => first,
        _ => event,
    }
}

/// The pending event with the least number that is not below the bound.
#[tactic(auto, using(crate::proofs::First::from_past, crate::proofs::First::from_here))]
pub fn first_news(journal: &Journal, from: u64) -> Option<Pending>
    ensures none { result ≡ None → NoNews from journal.now.state }
    ensures news { IfSome result (λ p. IsNews from journal.now.state p) }
    ensures below { IfSome result (λ p. p.number < GREATEST) }
{
    journal.known();
    for event in journal.pending() {
        if event.number >= from {
            return Some(*event);
        }
    }
    None
}
