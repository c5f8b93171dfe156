//! What holds of every lawful journal: each function is a law, which its contract says, and there is nothing
//! to do.

ghost use Rattle.ts_journal.specs.Laws.{StepIsAllowed, RunIsLawful, NumbersRise, ClosedOnce, HandledLive, StandInTurns, CountsBalance, NeverAgain, ClosedForGood};
ghost use Rattle.ts_journal.specs.Later.{NeverBack, IsOrder};

/// The machine's function gives the new state exactly where the entry is allowed, and nothing elsewhere.
pub fn step_is_allowed()
    ensures { StepIsAllowed }
{}

/// A journal is lawful exactly where the machine gives a state after each of its entries.
pub fn run_is_lawful()
    ensures { RunIsLawful }
{}

/// A number is set at most once, above all that were set before.
pub fn numbers_rise()
    ensures { NumbersRise }
{}

/// An event is handled, cancelled or dropped at most once in all, and only after it was set.
pub fn closed_once()
    ensures { ClosedOnce }
{}

/// Where an event is handled, its key was made and not destroyed since.
pub fn handled_live()
    ensures { HandledLive }
{}

/// Each entry stands in a turn, whose end stands after it where the journal is at rest.
pub fn stand_in_turns()
    ensures { StandInTurns }
{}

/// Each event that was set is handled, cancelled, dropped or pending.
pub fn counts_balance()
    ensures { CountsBalance }
{}

/// A key that was destroyed is never live again.
pub fn never_again()
    ensures { NeverAgain }
{}

/// What was set before the base and is not pending there is never handled, cancelled or dropped again.
pub fn closed_for_good()
    ensures { ClosedForGood }
{}

/// A journal never goes back: a number that was closed stays so, a key that was given away and is not live
/// stays so, and no count falls.
pub fn never_back()
    ensures { NeverBack }
{}

/// That a state does not go back behind another is an order: each follows itself, and what follows one that
/// follows a third follows that.
pub fn later_is_order()
    ensures { IsOrder }
{}
