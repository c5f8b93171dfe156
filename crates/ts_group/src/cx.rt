//! The continuations of a group, and the calls that a handler makes on them.

ghost use Rattle.std.specs.Prelude.{◌≡◌, ◌≢◌, ◌↔◌, ◌+◌, ◌<◌, ◌==◌, true, false, [], Some, None, IfSome, IsTrue, IfOk, OnOk, OnErr, if◌then◌else◌};
ghost use Rattle.ts_journal.specs.declared.entry.Event.TheVariants as Event;
ghost use Rattle.ts_journal.specs.State.{pending_at, first_in_series};
ghost use Rattle.ts_journal.specs.Machine.{IsKnown};
ghost use Rattle.ts_group.specs.Context.{IsFresh, IsOrderly, IsSame, HasSpare, own_key, role_at};
ghost use Rattle.ts_link.specs.Moments.{moment_after};
ghost use Rattle.ts_group.specs.Entries.{Grows, CanBeAsked};
ghost use Rattle.ts_group.specs.Acts.{Sets, Queues, Cancels, Makes, Destroys, BeginsTurn, GivesTurn, KeepsRoles, RunsNow, AsksOwn, EntersEvent, EntersQuestion};
ghost use Rattle.ts_group.specs.Calls.{IsReady, next_in};
ghost use Rattle.ts_group.specs.Late.{Hastens};
ghost use Rattle.ts_group.specs.Due.{IsFirstDue, IsNews, NoNews};

use crate::action::{Action, Cancel, Destroy, MakeFault, Named, SetFault};
use crate::calls::{call_event, first_call};
use crate::due::{first_due, first_news};
use crate::events::{cancel_series, enter_event, enter_question, is_series_done, set_event};
use crate::hasten::hasten_event;
use crate::keys::{OWN_KEY, destroy_key, make_key, role_of};
use crate::reserve::spare;
use crate::turns::{begin_turn, give_turn};
use std::alloc::Global;
use std::marker::Model;
use ts_journal::{ContKey, Event, Journal, Pending};
use ts_link::NoMemory;

/// The continuations of a group, as a handler sees them. All calls but `key`, `now` and `is_done` are made in
/// a turn.
#[derive(Drop)]
pub struct Cx {
    journal: Journal,
    roles: Vec<Named>,
    moment: u64,
    running: Option<ContKey>,
    role: u32,
    news_from: u64,
    calls: Vec<u64>,
    first_call: usize,
}

impl Model for Cx {
    ghost use Rattle.std.specs.Prelude.{◌≤◌, drop, length};
    ghost use Rattle.ts_group.specs.Context.{Context};

    ghost Value = { Context };

    ghost use Rattle.ts_group.specs.Context.{IsKept, AllCalls};

    ghost view = { λ c. record {
      log = c.journal;
      roles = c.roles.items;
      moment = c.moment;
      running = c.running;
      role = c.role;
      news_from = c.news_from;
      calls = drop c.first_call c.calls.items;
    } };

    ghost invariant = { λ c. IsKept c.journal c.roles.items
        × AllCalls c.journal.state c.moment (drop c.first_call c.calls.items)
        × (c.first_call ≤ length c.calls.items) };
}

impl Cx {
    /// The key of the handler that runs.
    pub fn key(&self) -> ContKey
        requires { self.now.running ≢ None }
        ensures { self.now.running ≡ Some result }
    {
        match self.running {
            Some(key) => key,
            None => unreachable!(),
        }
    }

    /// The moment, in milliseconds: that of the last `begin_turn`, `handle` or `ask` of the group that made
    /// an entry.
    pub fn now(&self) -> u64
        ensures { result ≡ self.now.moment }
    {
        self.moment
    }

    /// Makes a continuation of a role, under the least index that is neither live nor used up.
    pub fn make(&mut self, role: u32) -> Result<ContKey, MakeFault>
        requires turn { self.old.log.state.held ≡ true }
        ensures makes { Makes self.old.log self.new.log self.old.roles self.new.roles result role }
        ensures calls { self.new.calls ≡ self.old.calls }
        ensures grows { Grows self.old self.new }
    {
        make_key(&mut self.journal, &mut self.roles, role)
    }

    /// Destroys a continuation and drops its pending events, in the order of their numbers. A handler may
    /// destroy its own continuation. It takes no memory.
    pub fn destroy(&mut self, key: ContKey) -> Destroy
        requires turn { self.old.log.state.held ≡ true }
        ensures destroys { Destroys self.old.log self.new.log self.old.roles self.new.roles result key }
        ensures calls { self.new.calls ≡ self.old.calls }
        ensures grows { Grows self.old self.new }
    {
        destroy_key(&mut self.journal, &mut self.roles, key)
    }

    /// Sets an event that is due so many milliseconds later: `Immediate` if that is none, else `Timeout`.
    pub fn schedule(&mut self, key: ContKey, after: u64) -> Result<Action, SetFault>
        requires turn { self.old.log.state.held ≡ true }
        ensures sets { Sets self.old.log self.new.log result key
            (if after == 0 then Event.Immediate else Event.Timeout) (moment_after self.old.moment after) 0 }
        ensures roles { self.new.roles ≡ self.old.roles }
        ensures calls { self.new.calls ≡ self.old.calls }
        ensures grows { Grows self.old self.new }
    {
        let event = if after == 0 {
            Event::Immediate
        } else {
            Event::Timeout
        };
        let due = self.moment.saturating_add(after);
        self.set(key, event, due, 0)
    }

    /// Sets a `Timeout` that is due one period later, and again one period after each time that it is
    /// handled. The period is at least one millisecond.
    pub fn every(&mut self, key: ContKey, period: u64) -> Result<Action, SetFault>
        requires turn { self.old.log.state.held ≡ true }
        requires period { 0 < period }
        ensures sets { Sets self.old.log self.new.log result key
            Event.Timeout (moment_after self.old.moment period) period }
        ensures roles { self.new.roles ≡ self.old.roles }
        ensures calls { self.new.calls ≡ self.old.calls }
        ensures grows { Grows self.old self.new }
    {
        let due = self.moment.saturating_add(period);
        self.set(key, Event::Timeout, due, period)
    }

    /// Sets a direct call: an event that is due at once. The call of `Group::handle` that runs this handler
    /// handles it before it returns, after the handler and in the order asked for, unless 64 events were
    /// handled then.
    pub fn call(&mut self, key: ContKey, event: Event) -> Result<Action, SetFault>
        requires turn { self.old.log.state.held ≡ true }
        ensures sets { Sets self.old.log self.new.log result key event self.old.moment 0 }
        ensures roles { self.new.roles ≡ self.old.roles }
        ensures calls { Queues result self.old.calls self.new.calls }
        ensures grows { Grows self.old self.new }
    {
        call_event(&mut self.journal, &mut self.calls, key, event, self.moment)
    }

    /// Cancels the pending event of an action's series. It takes no memory.
    pub fn cancel(&mut self, action: Action) -> Cancel
        requires turn { self.old.log.state.held ≡ true }
        ensures cancels { Cancels self.old.log self.new.log result action.series }
        ensures roles { self.new.roles ≡ self.old.roles }
        ensures calls { self.new.calls ≡ self.old.calls }
        ensures grows { Grows self.old self.new }
    {
        cancel_series(&mut self.journal, action.series)
    }

    /// Brings the first event of a key forward that is a plain `Timeout` and due later than the moment: sets an
    /// `Immediate` of the key in its place. Answers whether there was one.
    pub fn hasten(&mut self, key: ContKey) -> Result<bool, SetFault>
        requires turn { self.old.log.state.held ≡ true }
        ensures hastens { Hastens self.old.log self.new.log key self.old.moment result }
        ensures roles { self.new.roles ≡ self.old.roles }
        ensures calls { self.new.calls ≡ self.old.calls }
        ensures grows { Grows self.old self.new }
    {
        hasten_event(&mut self.journal, key, self.moment)
    }

    /// Whether an action's series has no pending event.
    pub fn is_done(&self, action: Action) -> bool
        ensures { IsTrue result ↔ (first_in_series action.series self.now.log.state.pending ≡ None) }
    {
        is_series_done(&self.journal, action.series)
    }

    /// What holds of the state and the roles at any time.
    #[tactic(auto, using(crate::proofs::Roles::orderly))]
    pub fn known(&self)
        ensures { IsOrderly self.now }
    {
        self.journal.known();
    }

    // Sets an event.
    fn set(&mut self, key: ContKey, event: Event, due: u64, period: u64) -> Result<Action, SetFault>
        requires turn { self.old.log.state.held ≡ true }
        ensures sets { Sets self.old.log self.new.log result key event due period }
        ensures roles { self.new.roles ≡ self.old.roles }
        ensures calls { self.new.calls ≡ self.old.calls }
        ensures grows { Grows self.old self.new }
    {
        set_event(&mut self.journal, key, event, due, period)
    }
}

// What a group does with its continuations.
impl Cx {
    // The continuations of a group that is made: its own alone.
    pub(crate) fn make_new(alloc: Global, turns: u64) -> Result<Cx, NoMemory>
        ensures { IfOk result (IsFresh turns) }
    {
        let Ok(mut journal) = Journal::with_key(alloc, turns, OWN_KEY) else {
            return Err(NoMemory);
        };
        if let Err(_) = spare(&mut journal, 0) {
            return Err(NoMemory);
        }
        let mut roles = Vec::new(alloc);
        if let Err(_) = roles.push(Named {
            key: OWN_KEY,
            role: 0,
        }) {
            return Err(NoMemory);
        }
        Ok(Cx {
            journal,
            roles,
            moment: 0,
            running: None,
            role: 0,
            news_from: 0,
            calls: Vec::new(alloc),
            first_call: 0,
        })
    }

    pub(crate) fn journal(&self) -> &Journal
        ensures { result.now ≡ self.now.log }
    {
        &self.journal
    }

    pub(crate) fn into_journal(self) -> Journal
        ensures { result ≡ self.log }
    {
        let Cx {
            journal,
            roles: _,
            moment: _,
            running: _,
            role: _,
            news_from: _,
            calls: _,
            first_call: _,
        } = self;
        journal
    }

    // Begins a turn.
    pub(crate) fn begin_turn(&mut self, turn: u64, seat: u64, moment: u64) -> Result<(), NoMemory>
        requires idle { self.old.log.state.held ≡ false }
        requires later { self.old.log.state.turns < turn }
        ensures begins { OnOk result (BeginsTurn self.old self.new turn seat moment) }
        ensures kept { KeepsRoles self.old self.new }
        ensures err { OnErr result (IsSame self.old self.new) }
    {
        if let Err(_) = begin_turn(&mut self.journal, turn, seat) {
            return Err(NoMemory);
        }
        self.calls.clear();
        self.first_call = 0;
        self.moment = moment;
        Ok(())
    }

    // Gives the turn back.
    pub(crate) fn give_turn(&mut self)
        requires turn { self.old.log.state.held ≡ true }
        ensures gives { GivesTurn self.old self.new }
        ensures kept { KeepsRoles self.old self.new }
    {
        give_turn(&mut self.journal);
    }

    // Makes room for the next event of a series.
    pub(crate) fn spare_renewal(&mut self) -> Result<(), NoMemory>
        ensures same { IsSame self.old self.new }
        ensures ok { OnOk result (HasSpare self.new.log 2) }
    {
        spare(&mut self.journal, 2)
    }

    // The event of a number, if it is pending.
    pub(crate) fn event(&self, number: u64) -> Option<Pending>
        ensures event { result ≡ pending_at number self.now.log.state.pending }
        ensures known { IfSome result (λ p. IsKnown self.now.log.state number p) }
    {
        self.journal.event(number)
    }

    // The event that is due first, with the least number of those that are due then.
    pub(crate) fn first_event(&self) -> Option<Pending>
        ensures none { result ≡ None → self.now.log.state.pending ≡ [] }
        ensures first { IfSome result (λ p. IsFirstDue self.now.log.state p) }
    {
        first_due(&self.journal)
    }

    // The first pending event that is news. It is no news from then on.
    pub(crate) fn next_news(&mut self) -> Option<Pending>
        ensures news { IfSome result (IsNews self.old.news_from self.old.log.state) }
        ensures once { IfSome result (λ p. self.new.news_from ≡ p.number + 1) }
        ensures none { result ≡ None → NoNews self.old.news_from self.old.log.state }
        ensures still { result ≡ None → self.new.news_from ≡ self.old.news_from }
        ensures same { IsSame (record self.old { news_from = self.new.news_from }) self.new }
    {
        let news = first_news(&self.journal, self.news_from);
        if let Some(event) = news {
            self.news_from = event.number + 1;
        }
        news
    }

    // Enters that an event is handled, and answers the role of its handler, which runs from then on.
    #[tactic(auto, using(crate::proofs::Roles::has_role))]
    pub(crate) fn enter_event(&mut self, event: Pending) -> u32
        requires turn { self.old.log.state.held ≡ true }
        requires ready { IsReady self.old.log self.old.moment event }
        ensures enters { EntersEvent self.old.log self.new.log event self.old.moment }
        ensures role { role_at event.key.index self.old.roles ≡ Some result }
        ensures runs { RunsNow self.old self.new event.key result }
    {
        let Some(role) = role_of(&self.roles, event.key.index) else {
            unreachable!()
        };
        enter_event(&mut self.journal, event, self.moment);
        self.running = Some(event.key);
        self.role = role;
        role
    }

    // No handler runs any more.
    pub(crate) fn leave(&mut self)
        ensures { self.new ≡ record self.old { running = None } }
    {
        self.running = None;
    }

    // The role of the handler that ran last.
    pub(crate) fn role(&self) -> u32
        ensures { result ≡ self.now.role }
    {
        self.role
    }

    // Enters that the group's own key is asked, whose handler runs from then on.
    pub(crate) fn enter_question(&mut self, moment: u64) -> Result<(), NoMemory>
        requires can { CanBeAsked self.old.log.state }
        ensures ok { OnOk result (EntersQuestion self.old.log self.new.log moment) }
        ensures runs { OnOk result (AsksOwn self.old self.new moment) }
        ensures err { OnErr result (IsSame self.old self.new) }
    {
        if let Err(_) = enter_question(&mut self.journal, moment) {
            return Err(NoMemory);
        }
        self.calls.clear();
        self.first_call = 0;
        self.moment = moment;
        self.running = Some(OWN_KEY);
        Ok(())
    }

    // The first direct call that waits and is pending, which is handled next. It and those before it wait no
    // more.
    pub(crate) fn next_call(&mut self) -> Option<Pending>
        ensures found { IfSome result (λ p.
            next_in self.old.log.state.pending self.old.calls ≡ Some (p.number, self.new.calls)) }
        ensures ready { IfSome result (IsReady self.new.log self.new.moment) }
        ensures none { result ≡ None → next_in self.old.log.state.pending self.old.calls ≡ None }
        ensures still { result ≡ None → self.new.calls ≡ self.old.calls }
        ensures same { IsSame (record self.old { calls = self.new.calls }) self.new }
    {
        let Some((place, event)) = first_call(
            &self.journal,
            &self.calls,
            self.first_call,
            self.moment,
        ) else {
            return None;
        };
        self.first_call = place + 1;
        Some(event)
    }

    // Forgets the direct calls that wait, at a new moment.
    pub(crate) fn begin_calls(&mut self, moment: u64)
        ensures { self.new ≡ record self.old { calls = []; moment = moment } }
    {
        self.calls.clear();
        self.first_call = 0;
        self.moment = moment;
    }
}
