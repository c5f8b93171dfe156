//! A chain with its body, as a world of a mutex group.
ghost use Rattle.std.specs.Prelude.{◌≡◌, ℕ, ◌+◌, ◌*◌, ◌≤◌, ◌⊎◌, List, [], length, map, true, false, refl, ⊤, Some, None, IfOk, IfErr, IfSome, OnOk, OnErr};
ghost use Rattle.ts_group.specs.declared.action.SetFault.TheVariants.{Dead};
ghost use Rattle.ts_journal.specs.declared.entry.Pending.{Pending};
ghost use Rattle.ts_group.specs.declared.action.Named.{Named};
ghost use Rattle.ts_group.specs.declared.world.Want.TheVariants as Want;
ghost use Rattle.ts_group.specs.Calls.{IsCalled};
ghost use Rattle.ts_group.specs.Context.{AllPlain, IsSame};
ghost use Rattle.ts_group.specs.Entries.{Grows};
ghost use Rattle.ts_transform.specs.Flow.{IsFinished, PumpsOnce, TakesAway, aborted, client_wait, compose, flow, fresh_stage, left_to_do, pause_at};
ghost use Rattle.ts_transform.specs.declared.continuation.StageContinuation.{StageContinuation};
ghost use Rattle.ts_transform.specs.Driving.{ActsWithin, IsRoused, SetsFew, SetsOnly, all_unroused, upstream_calls, last_of, most_by_stage};
ghost use Rattle.ts_transform.specs.Cover.{IsAwake, IsRousing};
ghost use Rattle.ts_transform.specs.Acting.{IsStage, step_weight};
ghost use Rattle.ts_transform.specs.Driven.{Acts, HasAllLive, HasBegun, HasBegunFrom, IsMarkedFor, IsOfNoStage, MarkLoses, MayLose, MayWake, SameCourse};
ghost use Rattle.ts_transform.specs.declared.world.TheConstants.{FIRST};
ghost use Rattle.ts_transform.specs.World.{FitsBody, GoesOnWith, IsSound};

use crate::chain::Chain;
use crate::driven::DrivenChain;
use crate::loss::Loss;
use crate::rousing::mark_last;
use crate::transform::Transform;
use std::alloc::Global;
use ts_group::{Asked, Cx, SetFault, Want, World};
use ts_journal::{ContKey, Event, Slotted};
use ts_link::{NoMemory, Octets};

/// A chain with its body. Each stage is a continuation, with the roles from the first on.
#[derive(Drop)]
pub struct ChainWorld<P> {
    pub(crate) driven: DrivenChain<P>,
}

/// The role of the first stage.
pub const FIRST: u32 = 1;

impl<P: Transform + Drop> ChainWorld<P> {
    /// A chain of these parts, the first of which acts first, with the whole body before it. It was not
    /// started.
    pub fn make(alloc: Global, parts: Vec<P>, body: Octets) -> Result<ChainWorld<P>, NoMemory>
        ensures flow { IfOk result (λ w. flow P.rest w.driven.chain [] ≡ compose P.rest parts.items body) }
        ensures made { IfOk result (λ w. w.driven.chain
            ≡ record { first = body; stages = map (fresh_stage P.soon P.pause) parts.items; given = true }) }
        ensures fresh { IfOk result
            (λ w. (w.driven.table.items ≡ []) × (w.driven.running ≡ false) × (w.driven.lost ≡ None)) }
        ensures sound { IfOk result (λ w. (pending : List Pending) → (roles : List Named)
            → AllPlain pending → IsSound w pending roles) }
    {
        let chain = Chain::over(alloc, parts, body)?;
        Ok(ChainWorld {
            driven: DrivenChain::make(alloc, chain),
        })
    }

    /// The chain.
    pub fn chain(&self) -> &Chain<P>
        ensures { result.now ≡ self.now.driven.chain }
    {
        self.driven.chain()
    }

    /// Whether it was started and nothing was lost: each stage that must work has an event. So it has
    /// given all once nothing is pending and nothing waits for its client.
    #[tactic(auto, using(crate::proofs::Taking::all_given))]
    pub fn is_running(&self) -> bool
        ensures running { result ≡ self.now.driven.running }
        ensures all { result ≡ true → (roles : List Named) → IsSound self.now [] roles
            → client_wait self.now.driven.chain ≡ [] → flow P.rest self.now.driven.chain [] ≡ [] }
        ensures finished { result ≡ true → (roles : List Named) → IsSound self.now [] roles
            → client_wait self.now.driven.chain ≡ [] → IsFinished self.now.driven.chain }
    {
        self.driven.is_running()
    }

    /// Why an event was lost, the last time; `None` where none was.
    pub fn lost(&self) -> Option<Loss>
        ensures { result ≡ self.now.driven.lost }
    {
        self.driven.lost()
    }
}

impl<P: Transform + Drop> ChainWorld<P> {
    /// Takes away the first `n` bytes that wait for the client. It stays sound, where `wake` was asked
    /// since a handler ran.
    #[tactic(auto, using(crate::proofs::Taking::taken_awake))]
    pub fn take(&mut self, n: usize)
        requires { n ≤ length (client_wait self.old.driven.chain) }
        ensures takes { TakesAway P.rest n self.old.driven.chain self.new.driven.chain }
        ensures kept { SameCourse self.old.driven self.new.driven }
        ensures sound { (pending : List Pending) → (roles : List Named) → IsSound self.old pending roles
            → (self.old.driven.running ≡ true → IsAwake self.old.driven.chain self.old.driven.table.items)
            → IsSound self.new pending roles }
        ensures awake { IsAwake self.old.driven.chain self.old.driven.table.items
            → IsAwake self.new.driven.chain self.new.driven.table.items }
    {
        self.driven.chain.take(n);
    }

    /// Drops all that waits, and closes every stage: each destroys its continuation at its next event.
    #[tactic(auto, using(crate::proofs::Taking::aborted_awake))]
    pub fn abort(&mut self)
        ensures chain { self.new.driven.chain ≡ aborted self.old.driven.chain }
        ensures flow { flow P.rest self.new.driven.chain [] ≡ [] }
        ensures left { left_to_do P.rest self.new.driven.chain [] ≡ 0 }
        ensures kept { SameCourse self.old.driven self.new.driven }
        ensures sound { (pending : List Pending) → (roles : List Named) → IsSound self.old pending roles
            → IsSound self.new pending roles }
        ensures awake { IsAwake self.new.driven.chain self.new.driven.table.items }
    {
        self.driven.chain.abort();
    }

    // The milliseconds between two events of the last stage.
    pub(crate) fn last_pause(&self) -> u64
        ensures { (at : ℕ) → at + 1 ≡ length self.now.driven.chain.stages
            → result ≡ pause_at P.pause self.now.driven.chain.stages at }
    {
        match self.driven.chain.stages().checked_sub(1) {
            Some(last) => self.driven.chain.pause(last),
            None => 0,
        }
    }

    // Says that an event was lost.
    pub(crate) fn lose(&mut self, loss: Loss)
        ensures kept { (self.new.driven.chain ≡ self.old.driven.chain)
            × (self.new.driven.table.items ≡ self.old.driven.table.items) }
        ensures lost { (self.new.driven.running ≡ false) × (self.new.driven.lost ≡ Some loss) }
    {
        self.driven.lose(loss);
    }

    // Marks the last stage as roused, where that has not ended and 65,536 bytes or more wait after it. It
    // answers the key for which an event has then to be set, and refuses where that stage has no
    // continuation.
    pub(crate) fn mark(&mut self) -> Result<Option<ContKey>, SetFault>
        ensures chain { self.new.driven.chain ≡ self.old.driven.chain }
        ensures course { MarkLoses result self.old.driven self.new.driven }
        ensures same { all_unroused self.new.driven.table.items ≡ all_unroused self.old.driven.table.items }
        ensures key { IfOk result (λ key. IfSome key (λ k. (t : StageContinuation)
            → last_of self.old.driven.table.items ≡ Some t → k ≡ t.key)) }
        ensures rests { IfOk result (λ key. IfSome key (λ k. MayWake self.old.driven)) }
        ensures driven { IfOk result (λ key. IsMarkedFor key self.old.driven self.new.driven) }
        ensures awake { OnOk result (length self.old.driven.table.items ≡ length self.old.driven.chain.stages
            → IsAwake self.new.driven.chain self.new.driven.table.items) }
        ensures dead { IfErr result (λ fault. (fault ≡ Dead) × (last_of self.old.driven.table.items ≡ None)) }
    {
        if !self.driven.chain.is_last_full() {
            return Ok(None);
        }
        let marked = mark_last(&mut self.driven.table);
        if marked.is_err() {
            self.driven.lose(Loss::Dead);
        }
        marked
    }
}

impl<P: Transform + Drop> Slotted for ChainWorld<P> {
    type Tag = Octets;

    type Trace = ();

    // What the chain still gives; and it has no more stages than may be roused at once.
    ghost fits = { FitsBody P.rest };

    ghost stamp = { λ w. 0 };

    ghost marks = { λ w. [] };

    ghost trace = { λ w. tt };

    ghost follows = { λ t u. ⊤ };

    ghost follows_itself = { λ t. tt };

    ghost follows_on = { λ t u v a b. tt };
}

#[tactic(auto, using(ts_group::proofs::Grows::grows, ts_group::proofs::Grows::grows_refl))]
impl<P: Transform + Drop> World for ChainWorld<P> {
    type Question = ();

    type Reply = ();

    ghost sound = { λ w s roles. IsSound w s.pending roles };

    ghost asking = { λ w s roles role group question. IsSound w s.pending roles };

    ghost left = { λ w s. Some (step_weight * (left_to_do P.rest w.driven.chain []
        + upstream_calls w.driven.table.items) + length s.pending) };

    ghost right = { λ w group question reply. ⊤ };

    ghost answers = { λ w question reply. ⊤ };

    ghost may_ask = { λ w group. ⊥ };

    ghost only_asked = { λ t. false };

    ghost is_first = { λ t. false };

    // The chain is as it was; and where it had not begun, it runs from then on, or tells why it was lost.
    ghost begun = { λ old new. HasBegunFrom old.driven new.driven };

    ghost heard = { λ old new asked. new ≡ old };

    // A handler lets at most one stage work, by one pump.
    ghost called = { λ old new asked. PumpsOnce P.rest old.driven.chain new.driven.chain };

    // Each event that is set rouses a stage that must work, after its pause. A second start does nothing.
    fn start(&mut self, cx: &mut Cx)
        requires turn { cx.old.log.state.held ≡ true }
        requires sound { IsSound self.old cx.old.log.state.pending cx.old.roles }
        ensures grows { Grows cx.old cx.new }
        ensures sound { IsSound self.new cx.new.log.state.pending cx.new.roles }
        ensures few { SetsFew (length self.old.driven.chain.stages) cx.old cx.new }
        ensures only { SetsOnly (IsRousing P.pause FIRST self.old.driven.chain self.old.driven.table.items
            cx.old.moment cx.new.roles) cx.old cx.new }
        ensures begun { (length self.old.driven.table.items ≡ 0
            → HasBegun self.new.driven cx.new)
            × (self.new.driven.chain ≡ self.old.driven.chain) }
        ensures again { (length self.old.driven.table.items ≡ 0 → ⊥)
            → (self.new ≡ self.old) × IsSame cx.old cx.new }
    {
        if self.driven.is_fresh() {
            self.driven.start(FIRST, cx);
        }
    }

    fn handle(&mut self, role: u32, event: Event, cx: &mut Cx) -> Want<()>
        requires turn { cx.old.log.state.held ≡ true }
        requires called { IsCalled (λ s roles. IsSound self.old s.pending roles) cx.old role event }
        ensures sound { (result ≡ Want.Nothing) × IsSound self.new cx.new.log.state.pending cx.new.roles }
        ensures within { ActsWithin most_by_stage cx.old cx.new }
        ensures goes_on { GoesOnWith P.rest self.old self.new cx.old cx.new }
        ensures loses { MayLose (HasAllLive self.old.driven cx.old)
            self.old.driven self.new.driven cx.new }

        // The stage of the role handles the event; of another role all is left as it was.
        ensures acts { (at : ℕ) → role ≡ FIRST + at
            → IsStage self.old.driven.chain self.old.driven.table.items at
            → Acts P.rest P.pause at event self.old.driven self.new.driven cx.old cx.new }
        ensures other { IsOfNoStage FIRST role self.old.driven
            → (self.new ≡ self.old) × IsSame cx.old cx.new }
    {
        let _told = self.driven.handle(FIRST, role, event, cx);
        Want::Nothing
    }

    fn told(&mut self, _role: u32, _asked: Asked<(), ()>, _cx: &mut Cx)
        requires turn { _cx.old.log.state.held ≡ true }
        requires sound { IsSound self.old _cx.old.log.state.pending _cx.old.roles }
        ensures grows { Grows _cx.old _cx.new }
        ensures same { (_cx.new.log.state ≡ _cx.old.log.state) × (_cx.new.roles ≡ _cx.old.roles)
            × (self.new ≡ self.old) }
    {}

    fn asked(&mut self, _question: (), _cx: &mut Cx) {}

    ghost sound_taken = { λ w s turn seat roles h. h };

    ghost sound_given = { λ w s turn roles h. h };

    ghost left_taken = { λ w s turn seat. refl };

    ghost left_given = { λ w s turn. refl };

    ghost rests = { λ t w s roles f h. tt };
}
