//! A chain whose stages are continuations of one group: what drives them, whoever owns the chain.
ghost use Rattle.std.specs.Prelude.{◌≡◌, ℕ, ◌+◌, ◌<◌, [], length, true, false, None, MatchOption};
ghost use Rattle.ts_group.specs.Context.{IsSame};
ghost use Rattle.ts_transform.specs.Driving.{ActsWithin, BeginsBeside, SetsOnly, most_by_stage};
ghost use Rattle.ts_transform.specs.Cover.{IsRousing};
ghost use Rattle.ts_transform.specs.Acting.{IsStage, StillGives};
ghost use Rattle.ts_transform.specs.Driven.{Acts, HandlesDriven, HasBegun, IsDrivenWhile, IsOfNoStage, KeepsRest, Loses};

use crate::chain::Chain;
use crate::continuation::StageContinuation;
use crate::handler::handle_at;
use crate::loss::Loss;
use crate::start::begin;
use crate::transform::Transform;
use std::alloc::Global;
use ts_group::{Cx, SetFault};
use ts_journal::Event;

/// A chain whose stages are continuations of one group. Their roles are the numbers from one on, which its
/// owner chooses.
#[derive(Drop)]
pub struct DrivenChain<P> {
    pub(crate) chain: Chain<P>,
    pub(crate) table: Vec<Option<StageContinuation>>,
    // It was started, and each stage that must work has an event.
    pub(crate) running: bool,
    // Why an event was lost, the last time.
    pub(crate) lost: Option<Loss>,
}

impl<P: Transform + Drop> DrivenChain<P> {
    /// The chain, whose stages were not started.
    pub fn make(alloc: Global, chain: Chain<P>) -> DrivenChain<P>
        ensures chain { result.chain ≡ chain }
        ensures fresh { (result.table.items ≡ []) × (result.running ≡ false) × (result.lost ≡ None) }
    {
        DrivenChain {
            chain,
            table: Vec::new(alloc),
            running: false,
            lost: None,
        }
    }

    /// The chain.
    pub fn chain(&self) -> &Chain<P>
        ensures { result.now ≡ self.now.chain }
    {
        &self.chain
    }

    /// Whether no stage has a continuation yet.
    pub fn is_fresh(&self) -> bool
        ensures fresh { result ≡ true → self.now.table.items ≡ [] }
        ensures started { result ≡ false → length self.now.table.items ≡ 0 → ⊥ }
    {
        self.table.is_empty()
    }

    /// Whether it was started and nothing was lost: each stage that must work has an event.
    pub fn is_running(&self) -> bool
        ensures { result ≡ self.now.running }
    {
        self.running
    }

    /// Why an event was lost, the last time; `None` where none was.
    pub fn lost(&self) -> Option<Loss>
        ensures { result ≡ self.now.lost }
    {
        self.lost
    }

    // Says that an event was lost.
    pub(crate) fn lose(&mut self, loss: Loss)
        ensures { self.new ≡ record self.old { running = false; lost = Some loss } }
    {
        self.running = false;
        self.lost = Some(loss);
    }

    /// Makes a continuation for each stage, with the roles from the first on, and rouses each stage that
    /// must work.
    pub fn start(&mut self, first: u32, cx: &mut Cx)
        requires turn { cx.old.log.state.held ≡ true }
        requires fresh { self.old.table.items ≡ [] }
        ensures within { ActsWithin (length self.old.chain.stages) cx.old cx.new }
        ensures only { SetsOnly (IsRousing P.pause first self.old.chain [] cx.old.moment cx.new.roles)
            cx.old cx.new }
        ensures chain { self.new.chain ≡ self.old.chain }
        ensures driven { IsDrivenWhile first self.new cx.new.log.state.pending cx.new.roles }
        ensures begun { HasBegun self.new cx.new }
        ensures rest { BeginsBeside self.new.table.items cx.old cx.new }
    {
        match begin(first, &self.chain, &mut self.table, cx) {
            Ok(()) => {
                self.running = true;
                self.lost = None;
            }
            Err(loss) => self.lose(loss),
        }
    }

    // The place of the stage of a role, where the stages have the roles from the first on.
    fn place_of(&self, first: u32, role: u32) -> Option<usize>
        ensures { MatchOption result
            ((at : ℕ) → role ≡ first + at → IsStage self.now.chain self.now.table.items at → ⊥)
            (λ at. (role ≡ first + at) × IsStage self.now.chain self.now.table.items at) }
    {
        let at = role.checked_sub(first)? as usize;
        if at < self.table.len() && self.table.len() == self.chain.stages() {
            Some(at)
        } else {
            None
        }
    }

    /// Handles an event of a role, where the stages have the roles from the first on; of the role of no
    /// stage, nothing is done. It refuses where memory lacks or an event could not be set, and no longer
    /// runs then.
    pub fn handle(
        &mut self,
        first: u32,
        role: u32,
        event: Event,
        cx: &mut Cx,
    ) -> Result<(), SetFault>
        requires turn { cx.old.log.state.held ≡ true }
        ensures acts { (at : ℕ) → role ≡ first + at → IsStage self.old.chain self.old.table.items at
            → Acts P.rest P.pause at event self.old self.new cx.old cx.new }
        ensures other { IsOfNoStage first role self.old → (self.new ≡ self.old) × IsSame cx.old cx.new }
        ensures gives { StillGives P.rest P.soon self.old.chain self.new.chain
            self.old.table.items self.new.table.items cx.old cx.new }
        ensures driven { HandlesDriven first role event self.old self.new cx.old cx.new }
        ensures within { ActsWithin most_by_stage cx.old cx.new }
        ensures rest { KeepsRest first self.old self.new cx.old cx.new }
        ensures loses { Loses result self.old self.new cx.old cx.new }
    {
        let Some(at) = self.place_of(first, role) else {
            return Ok(());
        };
        match handle_at(&mut self.chain, &mut self.table, at, event, cx) {
            Ok(()) => Ok(()),
            Err(fault) => {
                self.running = false;
                self.lost = Some(Loss::of_set(&fault));
                Err(fault)
            }
        }
    }
}
