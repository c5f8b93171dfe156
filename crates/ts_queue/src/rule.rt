//! The rule that each step on the queue keeps, and what each kind of step tells.

use crate::ticket::Ticket;
use crate::view::PassView;
use crossbeam_queue::protocol::{Join, Lesson, Outcome, Protocol, Split};

/// Each ticket is put once, and then stands in the queue or was taken once, in the order of its putter.
pub struct EachTicketOnce;

impl Protocol<Ticket, PassView> for EachTicketOnce {
    ghost use Rattle.ts_queue.specs.Views.{first_view};
    ghost use Rattle.ts_queue.specs.Rule.{IsLawfulQueue};

    ghost holds = { IsLawfulQueue };

    ghost first = { first_view };
}

/// A ticket is put at the back.
pub struct PutStep;

impl Outcome<Ticket, PassView> for PutStep {
    ghost use Rattle.std.specs.Prelude.{◌≡◌};
    ghost use Rattle.ts_queue.specs.Views.{putting};

    ghost then = { λ old t new. new ≡ putting t old };
}

/// The ticket at the front is taken, or the queue is found empty.
pub struct TakeStep;

impl Outcome<Ticket, PassView> for TakeStep {
    ghost use Rattle.ts_queue.specs.Passes.{TakesTicket};

    ghost then = { TakesTicket };
}

impl Lesson<Ticket, PassView> for TakeStep {
    ghost use Rattle.ts_queue.specs.Passes.{Looks};

    ghost fact = { Looks };
}

/// A pass is split off another.
pub struct SplitStep;

impl Split<PassView> for SplitStep {
    ghost use Rattle.ts_queue.specs.Views.{kept_part, split_part};

    ghost left = { kept_part };

    ghost right = { split_part };
}

/// A pass is joined to another.
pub struct JoinStep;

impl Join<PassView> for JoinStep {
    ghost use Rattle.ts_queue.specs.Views.{with_joined, spent};

    ghost both = { with_joined };

    ghost spent = { spent };
}
