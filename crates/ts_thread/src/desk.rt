//! What a thread has of its own: its seat at the slots, its pass of the queue, and its wheel.

ghost use Rattle.std.specs.Prelude.{◌≡◌, length, [], IfSome, IfNone, IfOk, IfErr, OnOk, OnErr};
ghost use Rattle.ts_queue.specs.Passes.{IsPassOf, pass_view, empties_of};
ghost use Rattle.ts_wheel.specs.Due.{after_due};
ghost use Rattle.ts_thread.specs.Tokens.{AllName, TakesNext, FindsNone, Gets, FindsNothing, Places, SamePlaces, is_shared};

use std::alloc::Global;
use std::sync::Wait;
use ts_link::NoMemory;
use ts_queue::{EventQueue, QueuePass, Token};
use ts_slot::{Seat, Slots, Slotted};
use ts_wheel::Wheel;

/// What a thread has of its own: its seat at the slots, its pass of the queue, and its wheel.
#[derive(Drop)]
pub struct Desk<V: Slotted> {
    /// With it groups are entered, between the turns of tokens too.
    pub seat: Seat<V>,
    pub(crate) pass: QueuePass,
    pub(crate) wheel: Wheel<Token>,
}

impl<V: Slotted> Desk<V> {
    ghost use Rattle.ts_slot.specs.Words.{view};
    ghost use Rattle.ts_thread.specs.Desks.{IsDeskOf, KeepsDesk, SplitsDesk, JoinsDesk};
    ghost use Rattle.ts_thread.specs.Threads.{CanSplit};

    /// A desk with an empty wheel. At want of memory the seat and the pass come back.
    pub fn make(
        alloc: Global,
        seat: Seat<V>,
        pass: QueuePass,
    ) -> Result<Desk<V>, (NoMemory, Seat<V>, QueuePass)>
        ensures desk { IfOk result (λ d. (d.seat ≡ seat) × (d.pass ≡ pass) × (d.wheel ≡ [])) }
        ensures err { IfErr result (λ e. (e.1 ≡ seat) × (e.2 ≡ pass)) }
    {
        match Wheel::new(alloc) {
            Ok(wheel) => Ok(Desk { seat, pass, wheel }),
            Err(NoMemory) => Err((NoMemory, seat, pass)),
        }
    }

    /// The seat and the pass. Tokens that wait in the wheel are dropped.
    pub fn into_parts(self) -> (Seat<V>, QueuePass)
        ensures { (result.0 ≡ self.seat) × (result.1 ≡ self.pass) }
    {
        let Desk {
            seat,
            pass,
            wheel: _,
        } = self;
        (seat, pass)
    }

    /// Splits a desk off, which gets one part of the shares, knows what this one knows, and has an empty
    /// wheel.
    pub fn split(
        &mut self,
        alloc: Global,
        slots: &Slots<V>,
        queue: &EventQueue,
    ) -> Result<Desk<V>, NoMemory>
        requires desk { IsDeskOf slots.now queue.now self.old }
        requires splits { CanSplit 2 self.old.seat self.old.pass }
        ensures desk { IsDeskOf slots.now queue.now self.new }
        ensures other { IfOk result (λ other. IsDeskOf slots.now queue.now other) }
        ensures ok { IfOk result (λ other. SplitsDesk self.old self.new other) }
        ensures err { OnErr result (KeepsDesk self.old self.new 0) }
        ensures same { OnErr result (SamePlaces self.old self.new) }
    {
        let wheel = Wheel::new(alloc)?;
        let pass = queue.split(&mut self.pass)?;
        let seat = slots.split(&mut self.seat);
        Ok(Desk { seat, pass, wheel })
    }

    /// Joins a desk to this one, which gets its shares and its turns, and knows what it knows. Tokens that
    /// wait in its wheel are dropped.
    pub fn join(&mut self, slots: &Slots<V>, queue: &EventQueue, other: Desk<V>)
        requires desks { IsDeskOf slots.now queue.now self.old × IsDeskOf slots.now queue.now other }
        requires idle { (view other.seat).held ≡ [] }
        ensures desk { IsDeskOf slots.now queue.now self.new }
        ensures joins { JoinsDesk self.old other self.new }
    {
        let (seat, pass) = other.into_parts();
        slots.join(&mut self.seat, seat);
        queue.join(&mut self.pass, pass);
    }
}

// Takes the next token of the queue that names one of so many groups.
fn next_ticket<R: Wait>(
    rt: &R,
    queue: &EventQueue,
    pass: &mut QueuePass,
    groups: u32,
) -> Option<Token>
    requires pass { IsPassOf queue.now pass.old }
    ensures pass { IsPassOf queue.now pass.new }
    ensures token { IfSome result (TakesNext groups (pass_view pass.old) (pass_view pass.new)) }
    ensures empties { IfSome result (λ token. empties_of pass.new ≡ empties_of pass.old) }
    ensures none { IfNone result (FindsNone groups pass.old pass.new) }
{
    'looks: for _ in rt.forever() {
        let ticket = queue.take(rt, pass)?;
        if ticket.token.group < groups {
            return Some(ticket.token);
        }
    }
    unreachable!()
}

/// Takes a token of one of so many groups: the first of the wheel, if it is due, and else the next of the
/// queue. One that names none of them is let go.
pub fn next_token<V: Slotted, R: Wait>(
    rt: &R,
    queue: &EventQueue,
    desk: &mut Desk<V>,
    groups: u32,
    moment: u64,
) -> Option<Token>
    requires pass { IsPassOf queue.now desk.old.pass }
    requires wheel { AllName groups desk.old.wheel }
    ensures pass { IsPassOf queue.now desk.new.pass }
    ensures seat { desk.new.seat ≡ desk.old.seat }
    ensures wheel { desk.new.wheel ≡ after_due moment desk.old.wheel }
    ensures token { IfSome result (Gets groups moment desk.old desk.new) }
    ensures none { IfNone result (FindsNothing groups moment desk.old desk.new) }
{
    if let Some(token) = desk.wheel.take_due(moment) {
        return Some(token);
    }
    next_ticket(rt, queue, &mut desk.pass, groups)
}

// So many turns of a group, its first ones, hand nothing over to other threads: what takes no more of them
// ends with its thread, and not behind all that waits in the queue.
const OWN_TURNS: u64 = 128;

// Of so many turns after them one does.
const SHARED_EVERY: u64 = 16;

/// Whether a turn of a group with this number hands what is due of its news over to any thread. (The turn of
/// its start does so too.)
pub fn is_shared(turn: u64) -> bool
    ensures { result ≡ is_shared turn }
{
    turn > OWN_TURNS && turn % SHARED_EVERY == 0
}

/// Adds a token to the wheel, so that this thread goes on with its group. But a token that is due is put into
/// the queue by a turn that hands over, and any thread takes it there, unless the pass has no serial left.
pub fn place<V: Slotted, R: Wait>(
    rt: &R,
    queue: &EventQueue,
    desk: &mut Desk<V>,
    hands_over: bool,
    token: Token,
    due: u64,
    moment: u64,
) -> Result<(), NoMemory>
    requires pass { IsPassOf queue.now desk.old.pass }
    ensures pass { IsPassOf queue.now desk.new.pass }
    ensures empties { empties_of desk.new.pass ≡ empties_of desk.old.pass }
    ensures seat { desk.new.seat ≡ desk.old.seat }
    ensures ok { OnOk result (Places hands_over token due moment desk.old desk.new) }
    ensures err { OnErr result (SamePlaces desk.old desk.new) }
{
    if due <= moment && hands_over && desk.pass.serial() < u64::MAX {
        queue.put(rt, &mut desk.pass, token)
    } else {
        desk.wheel.add(due, token)
    }
}
