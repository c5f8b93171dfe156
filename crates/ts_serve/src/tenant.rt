//! Who stands in a place: worlds of which one comes after the other, and those among them that serve a
//! client.

ghost use Rattle.std.specs.Prelude.{◌≡◌, List, [], ◌∷◌, ◌++◌, true, false, Bool, is_some, IfOk, IfSome};
ghost use Rattle.ts_group.specs.declared.action.Named.{Named};
ghost use Rattle.ts_journal.specs.State.{State};
ghost use Rattle.ts_txn.specs.Net.{IsNextOrigin};
ghost use Rattle.ts_txn.specs.declared.retired.Noted.{Noted};
ghost use Rattle.ts_txn.specs.declared.retired.Retired.{Retired};
ghost use Rattle.ts_serve.specs.Arrivals.{IsArrival};
ghost use Rattle.ts_serve.specs.Leaving.{BecomesOf, LeavesWhose};
ghost use Rattle.ts_serve.specs.Tenants.{HasEndedIn, HasStoodIn, MayLive};
ghost use Rattle.ts_serve.specs.Whose.{first_of, next_of};
ghost use Rattle.ts_serve.specs.declared.whose.Whose.{Whose};

use crate::leaving::Leaving;
use crate::whose::Whose;
use std::alloc::Global;
use ts_group::Rouse;
use ts_journal::Journal;
use ts_link::{Link, NoMemory};
use ts_txn::Retired;
use ts_upstream::Upstream;

/// A world that may stand in a place where others stood before it.
pub trait Tenant: Rouse {
    /// What a place promises of whoever lives in it.
    type Terms;

    /// Whoever fits the tag keeps the terms of a place.
    ghost keeps: { Self.Terms → Self.Tag → Type 0 };

    /// What an empty place replies to a question. Nobody asks it one.
    fn reply_empty(question: Self::Question) -> Self::Reply;
}

/// A tenant that serves a client, which came with a number, and an origin, if one was reached for it. A
/// client whose handler has ended may go on with another one.
pub trait Handler<C: Link, O: Upstream<C>>: Tenant {
    /// What all handlers of a server are made with.
    type Setting;

    /// What the handler of a client that goes on is made with, beside its origin.
    type Next: Drop;

    /// The terms of a place are those of a setting.
    ghost are_terms: { Self.Setting → Self.Terms → Type 0 };

    /// Handlers can be made with a setting.
    ghost is_setting: { Self.Setting → Type 0 };

    /// The terms of a place whose client has these transactions behind it.
    ghost behind: { Self.Terms → List (Noted O) → Self.Terms };

    /// Whose handler it is.
    ghost whose_of: { Self → Whose };

    /// It has ended.
    ghost is_ended: { Self → Bool };

    /// Memory lacked in it.
    ghost is_lacking: { Self → Bool };

    /// It may wait for its client without end.
    ghost may_wait: { Self → Bool };

    /// What holds of what is left of a handler that stood in a place of these terms.
    ghost is_done: { Self.Terms → Retired C O → Type 0 };

    /// Of a client that could have gone on, nothing is left over.
    ghost is_spent: { Self.Terms → Retired C O → Type 0 };

    /// What holds of what is left of a transaction after which its client goes on.
    ghost is_note: { Self.Terms → Noted O → Type 0 };

    /// The client goes on so after a transaction.
    ghost is_next: { Self.Terms → Noted O → Self.Next → Type 0 };

    /// The terms of a place of a setting. There are no others.
    fn terms(setting: &Self::Setting) -> Self::Terms
        ensures are { are_terms setting.now result }
        ensures only { (other : Self.Terms) → are_terms setting.now other → other ≡ result };

    /// A handler for the client of a number. It was not started.
    fn make(
        alloc: Global,
        setting: &Self::Setting,
        number: u64,
        client: C,
        origin: Option<O>,
    ) -> Result<Self, NoMemory>
        requires setting { is_setting setting.now }
        requires arrival { IsArrival C.Link O.Link O.Upstream.own number client origin }
        ensures whose { IfOk result (λ handler. whose_of handler ≡ first_of number (is_some origin)) }
        ensures lives { IfOk result (λ handler. (terms : Self.Terms) → are_terms setting.now terms
            → MayLive Self.fits Self.keeps Self.sound terms handler) }
        ensures first { IfOk result (λ handler. (terms : Self.Terms) → are_terms setting.now terms
            → MayLive Self.fits Self.keeps Self.sound (behind terms []) handler) };

    /// A handler for a client that goes on, with an origin, if one was reached for it. It was not started.
    fn make_next(
        alloc: Global,
        setting: &Self::Setting,
        next: Self::Next,
        origin: Option<O>,
    ) -> Result<Self, NoMemory>
        requires setting { is_setting setting.now }
        requires next { (terms : Self.Terms) × (noted : Noted O) × are_terms setting.now terms
            × is_next terms noted next }
        requires origin { IfSome origin (IsNextOrigin O.Link O.Upstream.own) }
        ensures whose { IfOk result (λ handler. (terms : Self.Terms) (noted : Noted O)
            → is_next terms noted next → whose_of handler ≡ next_of noted (is_some origin)) }
        ensures lives { IfOk result (λ handler. (terms : Self.Terms) (noted : Noted O)
            → are_terms setting.now terms → is_next terms noted next
            → MayLive Self.fits Self.keeps Self.sound terms handler) }
        ensures behind { IfOk result (λ handler. (terms : Self.Terms) (notes : List (Noted O))
            (noted : Noted O)
            → are_terms setting.now terms → is_next (behind terms notes) noted next
            → MayLive Self.fits Self.keeps Self.sound (behind terms (notes ++ noted ∷ [])) handler) };

    /// Whose handler it is.
    fn whose(&self) -> Whose
        ensures { result ≡ whose_of self.now };

    /// Whether it has ended. Nothing of one that has ended is pending.
    fn has_ended(&self) -> bool
        ensures ended { result ≡ is_ended self.now }
        ensures rests { result ≡ true → (s : State) (roles : List Named) → Self.sound self.now s roles
            → s.pending ≡ [] };

    /// Whether memory lacked in it.
    fn lacks_memory(&self) -> bool
        ensures { result ≡ is_lacking self.now };

    /// Whether it may wait for its client without end.
    fn may_wait(&self) -> bool
        ensures { result ≡ may_wait self.now };

    /// Takes it apart, with the journal of its group, and tells what becomes of its client.
    fn leave(self, journal: Journal) -> Leaving<C, O, Self, Self::Next>
        ensures whose { LeavesWhose whose_of (whose_of self) result }
        ensures becomes { (terms : Self.Terms)
            → HasEndedIn Self.fits Self.keeps Self.sound is_ended terms self journal
            → BecomesOf (is_done terms) (is_spent terms) (is_note terms) (is_next terms)
            (MayLive Self.fits Self.keeps Self.sound terms) result };

    /// Takes it apart as it stands, with the journal of its group: what is left of it.
    fn retire(self, journal: Journal) -> Retired<C, O>
        ensures number { result.parts.number ≡ (whose_of self).number }
        ensures origin { is_some result.parts.origin ≡ (whose_of self).has_origin }
        ensures journal { may_wait self ≡ false → result.journal ≡ journal }
        ensures done { (terms : Self.Terms)
            → HasStoodIn Self.fits Self.keeps Self.sound is_ended may_wait terms self journal
            → is_done terms result };
}
