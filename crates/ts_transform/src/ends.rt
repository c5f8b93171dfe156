//! What comes to a driven chain at its front, and what is taken from its end.
ghost use Rattle.std.specs.Prelude.{◌≡◌, ℕ, ◌≤◌, ◌++◌, List, length, true, false, OnOk};
ghost use Rattle.ts_transform.specs.Flow.{ChainState, Takes, TakesAway, client_wait};
ghost use Rattle.ts_transform.specs.Driving.{AddsEvents};
ghost use Rattle.ts_transform.specs.Cover.{IsDriven, OnlyRouses};
ghost use Rattle.ts_transform.specs.Driven.{DrivenAgain, Gives, HasAllLive, IsDrivenWhile, Loses, SameSeats, StaysDriven};

use crate::continuation::Rouser;
use crate::driven::DrivenChain;
use crate::handler::rouse_if_ready;
use crate::loss::Loss;
use crate::transform::Transform;
use ts_group::{Cx, SetFault};

impl<P: Transform + Drop> DrivenChain<P> {
    /// Gives the chain more bytes, and rouses its first stage if that must work. Where memory lacked for
    /// the bytes, they were not given.
    pub fn give(&mut self, bytes: &[u8], cx: &mut Cx) -> Result<(), SetFault>
        requires turn { cx.old.log.state.held ≡ true }
        requires goes_on { self.old.chain.given ≡ false }
        ensures gives { Gives result P.rest bytes.now self.old.chain self.new.chain }
        ensures driven { StaysDriven self.old self.new cx.old cx.new }
        ensures only { OnlyRouses P.pause self.new.chain self.old.table.items cx.old cx.new }
        ensures adds { AddsEvents 1 (HasAllLive self.old cx.old) result cx.old cx.new }
        ensures same { SameSeats self.old self.new cx.old cx.new }
        ensures loses { Loses result self.old self.new cx.old cx.new }
    {
        if let Err(_) = self.chain.give(bytes) {
            self.lose(Loss::NoMemory);
            return Err(SetFault::NoMemory);
        }
        self.rouse_first(cx)
    }

    /// Says that no more bytes come, and rouses the first stage if that must work.
    pub fn give_end(&mut self, cx: &mut Cx) -> Result<(), SetFault>
        requires turn { cx.old.log.state.held ≡ true }
        requires goes_on { self.old.chain.given ≡ false }
        ensures chain { self.new.chain ≡ record self.old.chain { given = true } }
        ensures driven { StaysDriven self.old self.new cx.old cx.new }
        ensures only { OnlyRouses P.pause self.new.chain self.old.table.items cx.old cx.new }
        ensures adds { AddsEvents 1 (HasAllLive self.old cx.old) result cx.old cx.new }
        ensures same { SameSeats self.old self.new cx.old cx.new }
        ensures loses { Loses result self.old self.new cx.old cx.new }
    {
        self.chain.give_end();
        self.rouse_first(cx)
    }

    /// Takes away the first `n` bytes that wait for the client, and rouses the last stage if that must work.
    pub fn take(&mut self, n: usize, cx: &mut Cx) -> Result<(), SetFault>
        requires turn { cx.old.log.state.held ≡ true }
        requires within { n ≤ length (client_wait self.old.chain) }
        ensures takes { TakesAway P.rest n self.old.chain self.new.chain }
        ensures driven { StaysDriven self.old self.new cx.old cx.new }
        ensures only { OnlyRouses P.pause self.new.chain self.old.table.items cx.old cx.new }
        ensures adds { AddsEvents 1 (HasAllLive self.old cx.old) result cx.old cx.new }
        ensures same { SameSeats self.old self.new cx.old cx.new }
        ensures loses { Loses result self.old self.new cx.old cx.new }
    {
        self.chain.take(n);
        self.rouse_last(cx)
    }

    // Rouses the first stage if it must work, since more came to the chain.
    pub(crate) fn rouse_first(&mut self, cx: &mut Cx) -> Result<(), SetFault>
        requires turn { cx.old.log.state.held ≡ true }
        ensures chain { self.new.chain ≡ self.old.chain }
        ensures driven { (first : ℕ) (c : ChainState P) → c.stages ≡ self.old.chain.stages
            → DrivenAgain first c self.old self.new cx.old cx.new }
        ensures only { OnlyRouses P.pause self.old.chain self.old.table.items cx.old cx.new }
        ensures adds { AddsEvents 1 (HasAllLive self.old cx.old) result cx.old cx.new }
        ensures same { SameSeats self.old self.new cx.old cx.new }
        ensures loses { Loses result self.old self.new cx.old cx.new }
    {
        match rouse_if_ready(&self.chain, &mut self.table, 0, Rouser::Upstream, cx) {
            Ok(()) => Ok(()),
            Err(fault) => {
                self.lose(Loss::of_set(&fault));
                Err(fault)
            }
        }
    }

    // Rouses the last stage if it must work, since bytes were taken from the chain.
    pub(crate) fn rouse_last(&mut self, cx: &mut Cx) -> Result<(), SetFault>
        requires turn { cx.old.log.state.held ≡ true }
        ensures chain { self.new.chain ≡ self.old.chain }
        ensures driven { (first n : ℕ) (c : ChainState P)
            → Takes c.first c.stages n self.old.chain.first self.old.chain.stages
            → self.old.chain.given ≡ c.given
            → DrivenAgain first c self.old self.new cx.old cx.new }
        ensures only { OnlyRouses P.pause self.old.chain self.old.table.items cx.old cx.new }
        ensures adds { AddsEvents 1 (HasAllLive self.old cx.old) result cx.old cx.new }
        ensures same { SameSeats self.old self.new cx.old cx.new }
        ensures loses { Loses result self.old self.new cx.old cx.new }
    {
        let Some(last) = self.chain.stages().checked_sub(1) else {
            return Ok(());
        };
        match rouse_if_ready(&self.chain, &mut self.table, last, Rouser::Downstream, cx) {
            Ok(()) => Ok(()),
            Err(fault) => {
                self.lose(Loss::of_set(&fault));
                Err(fault)
            }
        }
    }
}
