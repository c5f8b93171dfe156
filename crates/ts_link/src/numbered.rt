//! The calls of a memory form by their numbers, and those that go wrong.
ghost use Rattle.std.specs.Prelude.{◌≡◌, ◌≤◌};
ghost use Rattle.ts_link.specs.Counts.{greatest};
ghost use Rattle.ts_link.specs.Numbered.{is_listed, no_calls, mishap_at, after_call};

use std::marker::Model;

/// What goes wrong at a call.
#[derive(Clone, Copy)]
pub enum Mishap {
    Nothing,
    Fails,
    Waits,
}

/// Whether the call after so many has a number of the list. Calls are numbered from 1, and a call after as
/// many as the greatest `u64` has no number.
pub fn is_listed(made: u64, numbers: &[u64]) -> bool
    ensures { result ≡ is_listed made numbers.now }
{
    match made.checked_add(1) {
        Some(number) => numbers.contains(&number),
        None => false,
    }
}

/// The calls of one kind: the numbers of those that fail and of those that wait, and how many were made.
#[derive(Drop)]
pub struct NumberedCalls {
    fail: Vec<u64>,
    again: Vec<u64>,
    made: u64,
}

impl Model for NumberedCalls {
    ghost use Rattle.ts_link.specs.Numbered.{Numbered};

    ghost Value = { Numbered };

    ghost view = { λ c. record { fail = c.fail.items; again = c.again.items; made = c.made } };
}

impl NumberedCalls {
    /// Calls of which none was made.
    pub fn make(fail: Vec<u64>, again: Vec<u64>) -> NumberedCalls
        ensures { result ≡ no_calls fail.items again.items }
    {
        NumberedCalls {
            fail,
            again,
            made: 0,
        }
    }

    /// What goes wrong at the next call.
    pub fn mishap(&self) -> Mishap
        ensures mishap { result ≡ mishap_at self.now }
        ensures count { self.now.made ≤ greatest }
    {
        if is_listed(self.made, self.fail.as_slice()) {
            return Mishap::Fails;
        }
        if is_listed(self.made, self.again.as_slice()) {
            return Mishap::Waits;
        }
        Mishap::Nothing
    }

    /// Counts a call.
    pub fn count(&mut self)
        ensures { self.new ≡ after_call self.old }
    {
        self.made = self.made.saturating_add(1);
    }
}
