//! A group, that is a world with its continuations: its turns, and the calls of its handlers.

ghost use Rattle.std.specs.Prelude.{◌≡◌, ◌*◌, ◌+◌, ◌<◌, true, false, [], None, IfSome, IfOk, OnOk, OnErr, IfErr};
ghost use Rattle.ts_group.specs.Context.{IsFresh, IsSame};
ghost use Rattle.ts_group.specs.Entries.{Grows, CanBeAsked};
ghost use Rattle.ts_group.specs.Changes.{StaysInTurn};
ghost use Rattle.ts_group.specs.Acts.{BeginsTurn, GivesTurn, KeepsRoles};
ghost use Rattle.ts_group.specs.Calls.{IsReady, HasRun};
ghost use Rattle.ts_group.specs.Due.{IsDueFirst, IsFirstNews, NoNews};
ghost use Rattle.ts_group.specs.Answers.{Holds, AwaitsReply, MayAwait, MatchWant, MatchHandling, IfEvents, IsAnswered, IsSameGroup, HandleGives, LacksRenewal, HasReplied, LeavesLess, Hears, KeepsPromises, SetsAtMost, SetsQuestion};

use crate::cx::Cx;
use crate::rouse::Rouse;
use crate::world::{Asked, Handling, MOST_SET, Want, World};
use std::alloc::Global;
use ts_journal::{Journal, Pending};
use ts_link::NoMemory;

/// How many events one turn handles at most.
pub const MOST_EVENTS: u32 = 64;

/// The continuations of one mutex with their data.
#[derive(Drop)]
pub struct Group<W: World> {
    pub(crate) world: W,
    pub(crate) cx: Cx,
}

impl<W: World + Drop> Group<W> {
    /// A group of a world that has its own continuation alone, with the role 0. It has made so many turns
    /// elsewhere.
    pub fn make(alloc: Global, world: W, turns: u64) -> Result<Group<W>, NoMemory>
        ensures world { IfOk result (λ g. g.world ≡ world) }
        ensures fresh { IfOk result (λ g. IsFresh turns g.cx) }
    {
        match Cx::make_new(alloc, turns) {
            Ok(cx) => Ok(Group { world, cx }),
            Err(_) => Err(NoMemory),
        }
    }

    /// Begins a turn at a moment. It takes the memory of all that has to be closed, destroyed and given back
    /// then.
    pub fn begin_turn(&mut self, turn: u64, seat: u64, moment: u64) -> Result<(), NoMemory>
        requires idle { self.old.cx.log.state.held ≡ false }
        requires later { self.old.cx.log.state.turns < turn }
        ensures begins { OnOk result (BeginsTurn self.old.cx self.new.cx turn seat moment) }
        ensures kept { KeepsRoles self.old.cx self.new.cx }
        ensures world { self.new.world ≡ self.old.world }
        ensures sound { Holds W.sound self.old → Holds W.sound self.new }
        ensures left { W.left self.new.world self.new.cx.log.state
            ≡ W.left self.old.world self.old.cx.log.state }
        ensures err { OnErr result (IsSame self.old.cx self.new.cx) }
    {
        self.cx.begin_turn(turn, seat, moment)
    }

    /// Gives the turn back, and folds a journal that stores `MOST_STORED` entries or more then. It cannot lack
    /// memory.
    pub fn give_turn(&mut self)
        requires turn { self.old.cx.log.state.held ≡ true }
        ensures gives { GivesTurn self.old.cx self.new.cx }
        ensures kept { KeepsRoles self.old.cx self.new.cx }
        ensures world { self.new.world ≡ self.old.world }
        ensures sound { Holds W.sound self.old → Holds W.sound self.new }
        ensures left { W.left self.new.world self.new.cx.log.state
            ≡ W.left self.old.world self.old.cx.log.state }
    {
        self.cx.give_turn();
    }

    /// The world.
    pub fn world(&self) -> &W
        ensures { result.now ≡ self.now.world }
    {
        &self.world
    }

    /// The journal.
    pub fn journal(&self) -> &Journal
        ensures { result.now ≡ self.now.cx.log }
    {
        self.cx.journal()
    }

    /// The world and the journal.
    pub fn into_parts(self) -> (W, Journal)
        ensures { (result.0 ≡ self.world) × (result.1 ≡ self.cx.log) }
    {
        let Group { world, cx } = self;
        (world, cx.into_journal())
    }

    /// The due moment and the number of the pending event with the least such pair.
    pub fn next_due(&self) -> Option<(u64, u64)>
        ensures none { result ≡ None → self.now.cx.log.state.pending ≡ [] }
        ensures first { IfSome result (λ r. IsDueFirst self.now.cx.log.state r.0 r.1) }
    {
        match self.cx.first_event() {
            Some(event) => Some((event.due, event.number)),
            None => None,
        }
    }

    /// The least pending number that is news, with its due moment. It is no news from then on.
    pub fn next_news(&mut self) -> Option<(u64, u64)>
        ensures news { IfSome result (λ r. IsFirstNews self.old.cx r.0 r.1) }
        ensures once { IfSome result (λ r. self.new.cx.news_from ≡ r.0 + 1) }
        ensures none { result ≡ None → NoNews self.old.cx.news_from self.old.cx.log.state }
        ensures still { result ≡ None → self.new.cx.news_from ≡ self.old.cx.news_from }
        ensures same { IsSame (record self.old.cx { news_from = self.new.cx.news_from }) self.new.cx }
        ensures world { self.new.world ≡ self.old.world }
    {
        match self.cx.next_news() {
            Some(event) => Some((event.number, event.due)),
            None => None,
        }
    }

    /// Runs the world's `start`.
    pub fn start(&mut self)
        requires turn { self.old.cx.log.state.held ≡ true }
        requires sound { Holds W.sound self.old }
        ensures grows { Grows self.old.cx self.new.cx }
        ensures turn { StaysInTurn self.old.cx.log.state self.new.cx.log.state }
        ensures sound { Holds W.sound self.new }
        ensures begun { W.begun self.old.world self.new.world }
        ensures promises { KeepsPromises W.fits W.right W.may_ask self.old.world self.new.world }
        ensures few { SetsAtMost W.fits self.old.world MOST_SET self.old.cx self.new.cx }
    {
        self.cx.known();
        self.world.start(&mut self.cx);
    }

    /// Brings the world's events forward. No event is handled.
    pub fn rouse(&mut self)
    where
        W: Rouse,
        requires turn { self.old.cx.log.state.held ≡ true }
        requires sound { Holds W.sound self.old }
        ensures grows { Grows self.old.cx self.new.cx }
        ensures turn { StaysInTurn self.old.cx.log.state self.new.cx.log.state }
        ensures sound { Holds W.sound self.new }
        ensures falls { LeavesLess W.left self.old 0 self.new }
        ensures promises { KeepsPromises W.fits W.right W.may_ask self.old.world self.new.world }
        ensures few { SetsAtMost W.fits self.old.world MOST_SET self.old.cx self.new.cx }
    {
        self.cx.known();
        self.world.rouse(&mut self.cx);
    }

    /// Handles the pending event of a number, if it is due at the moment, and then the direct calls that its
    /// handler and theirs ask for, in the order asked for, until none of them is pending or 64 events were
    /// handled. It stops at a handler that wants to ask. A periodic event is set again before its handler
    /// runs, under the next number, due one period after the moment; it alone can want memory, and then
    /// nothing was entered.
    pub fn handle(&mut self, number: u64, moment: u64) -> Result<Handling<W::Question>, NoMemory>
        requires turn { self.old.cx.log.state.held ≡ true }
        requires sound { Holds W.sound self.old }
        ensures gives { IfOk result (HandleGives W.called self.old self.new number moment) }
        ensures keeps { IfOk result (λ handling.
            MatchHandling handling (Holds W.sound self.new) (MayAwait W.asking W.may_ask self.new)) }
        ensures falls { IfOk result (λ handling.
            IfEvents handling (λ events. LeavesLess W.left self.old events self.new)) }
        ensures promises { KeepsPromises W.fits W.right W.may_ask self.old.world self.new.world }
        ensures few { SetsAtMost W.fits self.old.world
            (MOST_EVENTS * (MOST_SET + 1)) self.old.cx self.new.cx }
        ensures err { OnErr result (LacksRenewal self.old self.new number moment) }
    {
        let Some(event) = self.cx.event(number) else {
            return Ok(Handling::NotPending);
        };
        if moment < event.due {
            return Ok(Handling::NotDue { due: event.due });
        }
        if event.period > 0 {
            if let Err(_) = self.cx.spare_renewal() {
                return Err(NoMemory);
            }
        }
        Ok(self.run_all(event, moment))
    }

    // Handles an event, and the direct calls that its handler and theirs ask for.
    fn run_all(&mut self, first: Pending, moment: u64) -> Handling<W::Question>
        requires turn { self.old.cx.log.state.held ≡ true }
        requires sound { Holds W.sound self.old }
        requires ready { IsReady self.old.cx.log moment first }
        ensures gives { HandleGives W.called self.old self.new first.number moment result }
        ensures keeps { MatchHandling result (Holds W.sound self.new) (MayAwait W.asking W.may_ask self.new) }
        ensures falls { IfEvents result (λ events. LeavesLess W.left self.old events self.new) }
        ensures promises { KeepsPromises W.fits W.right W.may_ask self.old.world self.new.world }
        ensures few { SetsAtMost W.fits self.old.world
            (MOST_EVENTS * (MOST_SET + 1)) self.old.cx self.new.cx }
    {
        self.cx.begin_calls(moment);
        let mut event = first;
        let mut events = 0;
        'runs: loop {
            let want = self.run_one(event);
            events += 1;
            if let Want::Ask { group, question } = want {
                return Handling::Asks {
                    events,
                    group,
                    question,
                };
            }
            if events == MOST_EVENTS {
                return Handling::Handled { events };
            }
            match self.cx.next_call() {
                Some(call) => event = call,
                None => return Handling::Handled { events },
            }
        }
    }

    // Handles one event at the moment that the continuations have.
    fn run_one(&mut self, event: Pending) -> Want<W::Question>
        requires turn { self.old.cx.log.state.held ≡ true }
        requires sound { Holds W.sound self.old }
        requires ready { IsReady self.old.cx.log self.old.cx.moment event }
        ensures run { HasRun W.called self.old self.new event.number }
        ensures keeps { MatchWant result (Holds W.sound self.new) (MayAwait W.asking W.may_ask self.new) }
        ensures falls { LeavesLess W.left self.old 1 self.new }
        ensures promises { KeepsPromises W.fits W.right W.may_ask self.old.world self.new.world }
        ensures few { SetsAtMost W.fits self.old.world (MOST_SET + 1) self.old.cx self.new.cx }
    {
        self.cx.known();
        let role = self.cx.enter_event(event);
        self.cx.known();
        let want = self.world.handle(role, event.event, &mut self.cx);
        self.cx.leave();
        want
    }

    /// Tells the handler that asked last what came of its question. Nothing was handled since.
    pub fn answered(&mut self, asked: Asked<W::Question, W::Reply>)
        requires turn { self.old.cx.log.state.held ≡ true }
        requires asking { IsAnswered (AwaitsReply W.asking self.old) (W.right self.old.world) asked }
        ensures grows { Grows self.old.cx self.new.cx }
        ensures turn { StaysInTurn self.old.cx.log.state self.new.cx.log.state }
        ensures sound { Holds W.sound self.new }
        ensures hears { Hears W.heard W.left self.old.world self.new.world
            self.old.cx.log.state self.new.cx.log.state asked }
        ensures promises { KeepsPromises W.fits W.right W.may_ask self.old.world self.new.world }
        ensures few { SetsAtMost W.fits self.old.world MOST_SET self.old.cx self.new.cx }
    {
        let role = self.cx.role();
        self.cx.known();
        self.world.told(role, asked, &mut self.cx);
    }

    /// Asks the group's own continuation: an event `Hook` of it is set and handled. At want of memory the
    /// question comes back, and nothing was entered.
    pub fn ask(
        &mut self,
        question: W::Question,
        moment: u64,
    ) -> Result<W::Reply, (NoMemory, W::Question)>
        requires can { CanBeAsked self.old.cx.log.state }
        requires sound { Holds W.sound self.old }
        ensures replied { IfOk result (HasReplied W.answers self.old self.new question moment) }
        ensures falls { OnOk result (LeavesLess W.left self.old 0 self.new) }
        ensures sound { Holds W.sound self.new }
        ensures promises { KeepsPromises W.fits W.right W.may_ask self.old.world self.new.world }
        ensures few { SetsQuestion W.fits self.old.world self.old.cx self.new.cx }
        ensures err { IfErr result (λ e. (e.1 ≡ question) × IsSameGroup self.old self.new) }
    {
        if let Err(_) = self.cx.enter_question(moment) {
            return Err((NoMemory, question));
        }
        self.cx.known();
        let reply = self.world.asked(question, &mut self.cx);
        self.cx.leave();
        Ok(reply)
    }
}
