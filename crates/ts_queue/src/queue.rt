//! The queue, and what a thread has of it.

ghost use Rattle.std.specs.Prelude.{◌≡◌, ◌<◌, ◌≤◌};
ghost use Rattle.ts_queue.specs.declared.TheConstants.{WHOLE_SHARE};

use crate::WHOLE_SHARE;
use crate::rule::{EachTicketOnce, JoinStep, PutStep, SplitStep, TakeStep};
use crate::ticket::{Ticket, Token};
use crate::view::PassView;
use crossbeam_queue::{RuledSegQueue, SegPass};
use std::alloc::Global;
use std::sync::Wait;
use ts_link::NoMemory;

/// A queue of tickets that many threads share by reference.
pub struct EventQueue {
    line: RuledSegQueue<Ticket, PassView, EachTicketOnce>,
}

/// What one thread has of a queue. A pass that is dropped takes its share with it: join it to another
/// instead.
#[derive(Drop)]
pub struct QueuePass {
    seat: SegPass<Ticket, PassView>,
    number: u64,
    serial: u64,
    free_from: u64,
    empties: u64,
    ghost number_is: { seat.me.view.client.number ≡ number },
    ghost serial_is: { seat.me.view.client.serial ≡ serial },
    ghost free_from_is: { seat.me.view.client.free_from ≡ free_from },
    ghost has_share: { 0 < seat.me.view.client.share },
    ghost in_range: { seat.me.view.client.free_to ≤ WHOLE_SHARE },
}

impl Drop for EventQueue {
    fn drop(self) {
        let EventQueue { line } = self;
        line.destroy();
    }
}

impl QueuePass {
    ghost use Rattle.ts_queue.specs.Passes.{pass_view, empties_of};

    /// How many takes of this pass were answered with `None`. The count stays at the greatest `u64`.
    pub fn empties(&self) -> u64
        ensures { result ≡ empties_of self.now }
    {
        self.empties
    }

    /// The serial of this pass's last put that was answered with `Ok`, 0 at first.
    pub fn serial(&self) -> u64
        ensures { result ≡ (pass_view self.now).serial }
    {
        self.serial
    }
}

impl EventQueue {
    ghost use Rattle.std.specs.Prelude.{IfOk, OnOk, OnErr, IfSome, IfNone, is_none};
    ghost use Rattle.ts_link.specs.Counts.{Counted};
    ghost use Rattle.ts_queue.specs.Views.{first_view, kept_part, split_part, with_joined, putting_next};
    ghost use Rattle.ts_queue.specs.Passes.{pass_view, empties_of, IsPassOf, TakesTicket, FindsEmpty};

    /// An empty queue, and its first pass.
    pub fn make(alloc: Global) -> Result<(EventQueue, QueuePass), NoMemory>
        ensures pass { IfOk result (λ made. IsPassOf made.0 made.1 × (pass_view made.1 ≡ first_view)) }
        ensures empties { IfOk result (λ made. empties_of made.1 ≡ 0) }
    {
        let (line, seat) = RuledSegQueue::with_rule(alloc)?;
        let pass = QueuePass {
            seat,
            number: 0,
            serial: 0,
            free_from: 1,
            empties: 0,
        };
        Ok((EventQueue { line }, pass))
    }

    /// A new pass, with one part of this pass's share and its least free number.
    pub fn split(&self, pass: &mut QueuePass) -> Result<QueuePass, NoMemory>
        requires pass { IsPassOf self.now pass.old }
        requires share { 2 ≤ (pass_view pass.old).share }
        requires free { (pass_view pass.old).free_from < (pass_view pass.old).free_to }
        ensures pass { IsPassOf self.now pass.new × (empties_of pass.new ≡ empties_of pass.old) }
        ensures kept { OnOk result (pass_view pass.new ≡ kept_part (pass_view pass.old)) }
        ensures split { IfOk result (λ new. IsPassOf self.now new
            × (pass_view new ≡ split_part (pass_view pass.old))) }
        ensures empties { IfOk result (λ new. empties_of new ≡ 0) }
        ensures err { OnErr result (pass_view pass.new ≡ pass_view pass.old) }
    {
        let number = pass.free_from;
        let seat = self.line.another::<SplitStep>(&mut pass.seat);
        pass.free_from = number + 1;
        Ok(QueuePass {
            seat,
            number,
            serial: 0,
            free_from: 0,
            empties: 0,
        })
    }

    /// Ends a pass: its share, and what it put and took, go to another.
    pub fn join(&self, into: &mut QueuePass, from: QueuePass)
        requires passes { IsPassOf self.now into.old × IsPassOf self.now from }
        ensures pass { IsPassOf self.now into.new × (empties_of into.new ≡ empties_of into.old) }
        ensures both { pass_view into.new ≡ with_joined (pass_view into.old) (pass_view from) }
    {
        let QueuePass {
            seat,
            number: _,
            serial: _,
            free_from: _,
            empties: _,
        } = from;
        self.line.absorb::<JoinStep>(&mut into.seat, seat);
    }

    /// Puts a token at the back, in a ticket with this pass's number and its next serial. Want of memory comes
    /// after nearly 2^62 puts too.
    pub fn put<R: Wait>(&self, rt: &R, pass: &mut QueuePass, token: Token) -> Result<(), NoMemory>
        requires pass { IsPassOf self.now pass.old }
        requires serial { (pass_view pass.old).serial < u64.MAX }
        ensures pass { IsPassOf self.now pass.new × (empties_of pass.new ≡ empties_of pass.old) }
        ensures put { OnOk result (pass_view pass.new ≡ putting_next token (pass_view pass.old)) }
        ensures err { OnErr result (pass_view pass.new ≡ pass_view pass.old) }
    {
        let ticket = Ticket {
            putter: pass.number,
            serial: pass.serial + 1,
            token,
        };
        let pushed = self.line.push_as::<PutStep, R>(rt, &mut pass.seat, ticket);
        match pushed {
            Ok(()) => {
                pass.serial = ticket.serial;
                Ok(())
            }
            Err(_refused) => Err(NoMemory),
        }
    }

    /// Takes the ticket at the front. `None` comes only where the queue was empty at one moment of the call. The
    /// call takes no memory.
    pub fn take<R: Wait>(&self, rt: &R, pass: &mut QueuePass) -> Option<Ticket>
        requires { IsPassOf self.now pass.old }
        ensures pass { IsPassOf self.now pass.new }
        ensures empties { Counted (is_none result) (empties_of pass.old) (empties_of pass.new) }
        ensures took { IfSome result (λ t. TakesTicket (pass_view pass.old) t (pass_view pass.new)) }
        ensures same { IfNone result (pass_view pass.new ≡ pass_view pass.old) }
        ensures empty { IfNone result (FindsEmpty (pass_view pass.new)) }
    {
        let taken = self.line.pop_as::<TakeStep, R>(rt, &mut pass.seat);
        if taken.is_none() {
            pass.empties = pass.empties.saturating_add(1);
        }
        taken
    }
}
