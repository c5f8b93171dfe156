//! An event thread, which takes tokens and handles their events in turns of their groups. Traffic Server's
//! Developer's Guide calls what runs the continuations its event system.

ghost use Rattle.std.specs.Prelude.{◌≡◌, []};
ghost use Rattle.ts_slot.specs.Words.{view};
ghost use Rattle.ts_thread.specs.Desks.{IsDeskOf};

use crate::desk::Desk;
use crate::did::{Did, RunEnd};
use crate::shared::Shared;
use crate::token::{run_desk, turn_desk};
use std::alloc::Global;
use std::sync::Wait;
use ts_group::{Group, World};
use ts_link::{Gate, NoMemory};
use ts_queue::{EventQueue, QueuePass};
use ts_slot::{Seat, Slots, Slotted};

/// A thread that takes turns on the groups of some slots. It holds none of them between its calls.
#[derive(Drop)]
pub struct EventThread<'a, W: World, G: Gate>
where
    Group<W>: Slotted,
{
    number: u32,
    slots: &'a Slots<Group<W>>,
    queue: &'a EventQueue,
    gate: &'a G,
    desk: Desk<Group<W>>,
    ghost ready: { IsDeskOf slots.now queue.now desk },
    ghost idle: { (view desk.seat).held ≡ [] },
}

impl<'a, W: World + Drop, G: Gate> EventThread<'a, W, G> {
    ghost use Rattle.std.specs.Prelude.{◌*◌, length, IfOk, IfErr, OnErr};
    ghost use Rattle.ts_queue.specs.Passes.{IsPassOf};
    ghost use Rattle.ts_slot.specs.Words.{tags_of, IsSeatOf};
    ghost use Rattle.ts_thread.specs.declared.TheConstants.{MOST_ENTERED};
    ghost use Rattle.ts_thread.specs.Desks.{KeepsDesk};
    ghost use Rattle.ts_thread.specs.Runs.{HasRunTo, HasLacked};
    ghost use Rattle.ts_thread.specs.Tags.{CanAsk};
    ghost use Rattle.ts_thread.specs.Turning.{IsDid, LosesOne};

    /// A thread with an empty wheel. At want of memory the seat and the pass come back.
    pub fn make(
        alloc: Global,
        number: u32,
        slots: &'a Slots<Group<W>>,
        seat: Seat<Group<W>>,
        queue: &'a EventQueue,
        pass: QueuePass,
        gate: &'a G,
    ) -> Result<EventThread<'a, W, G>, (NoMemory, Seat<Group<W>>, QueuePass)>
        requires seat { IsSeatOf slots.now seat × ((view seat).held ≡ []) }
        requires pass { IsPassOf queue.now pass }
        ensures tables { IfOk result (λ t. (t.slots ≡ slots.entry) × (t.queue ≡ queue.entry)) }
        ensures desk { IfOk result (λ t. (t.desk.seat ≡ seat) × (t.desk.pass ≡ pass) × (t.desk.wheel ≡ [])) }
        ensures err { IfErr result (λ e. (e.1 ≡ seat) × (e.2 ≡ pass)) }
    {
        match Desk::make(alloc, seat, pass) {
            Ok(desk) => Ok(EventThread {
                number,
                slots,
                queue,
                gate,
                desk,
            }),
            Err(lack) => Err(lack),
        }
    }

    /// Takes a token, the first of the wheel where it is due and else the next of the queue, and handles its
    /// event in a turn of its group. No group is held when it returns, at want of memory either.
    pub fn turn<R: Wait>(&mut self, rt: &R, moment: u64) -> Result<Did, NoMemory>
        requires asks { CanAsk W.fits W.only_asked W.may_ask W.right W.answers (tags_of self.old.slots.now) }
        ensures tables { (self.new.slots ≡ self.old.slots) × (self.new.queue ≡ self.old.queue) }
        ensures keeps { KeepsDesk self.old.desk self.new.desk MOST_ENTERED }
        ensures did { IfOk result (IsDid W.fits W.asking W.answers W.called W.heard W.left
            (tags_of self.old.slots.now) moment self.old.desk self.new.desk) }
        ensures err { OnErr result (LosesOne (length (tags_of self.old.slots.now)) moment
            self.old.desk self.new.desk) }
    {
        let shared = Shared {
            rt,
            slots: self.slots,
            queue: self.queue,
            gate: self.gate,
        };
        turn_desk(&shared, self.number, &mut self.desk, moment)
    }

    /// Takes at most so many turns, the first at the moment 0. After an idle turn it goes on at the moment at
    /// which the first token of the wheel is due, and ends where there is none. No group is held when it
    /// returns, at want of memory either.
    pub fn run<R: Wait>(&mut self, rt: &R, budget: u64) -> Result<RunEnd, NoMemory>
        requires asks { CanAsk W.fits W.only_asked W.may_ask W.right W.answers (tags_of self.old.slots.now) }
        ensures tables { (self.new.slots ≡ self.old.slots) × (self.new.queue ≡ self.old.queue) }
        ensures keeps { KeepsDesk self.old.desk self.new.desk (MOST_ENTERED * budget) }
        ensures ran { IfOk result (HasRunTo W.fits W.asking W.answers W.called W.heard W.left
            (tags_of self.old.slots.now) budget self.old.desk self.new.desk) }
        ensures err { OnErr result (HasLacked W.fits W.asking W.answers W.called W.heard W.left
            (tags_of self.old.slots.now) budget self.old.desk self.new.desk) }
    {
        let shared = Shared {
            rt,
            slots: self.slots,
            queue: self.queue,
            gate: self.gate,
        };
        run_desk(&shared, self.number, &mut self.desk, budget)
    }

    /// The seat and the pass.
    pub fn into_parts(self) -> (Seat<Group<W>>, QueuePass)
        ensures seat { IsSeatOf self.entry.slots.now result.0 × ((view result.0).held ≡ []) }
        ensures pass { IsPassOf self.entry.queue.now result.1 }
        ensures same { (result.0 ≡ self.entry.desk.seat) × (result.1 ≡ self.entry.desk.pass) }
    {
        let EventThread {
            number: _,
            slots: _,
            queue: _,
            gate: _,
            desk,
        } = self;
        desk.into_parts()
    }
}
