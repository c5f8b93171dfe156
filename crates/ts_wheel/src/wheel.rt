//! The wheel: the tokens of a lap in its rows, and those that are due before or after it in ordered maps.

ghost use Rattle.std.specs.Prelude.{◌≡◌, ◌++◌, [], IfOk, OnOk, OnErr, None};
ghost use Rattle.ts_wheel.specs.Due.{added, first_due, after_due, next_moment};
ghost use Rattle.ts_wheel.specs.Parts.{IsParted, all_tokens};

use crate::ROWS;
use crate::lap::{LAST_ROW, LAST_START, LapRows};
use crate::rows::Rows;
use std::alloc::Global;
use std::marker::Model;
use ts_link::NoMemory;

/// Tokens with due moments in milliseconds, of which `take_due` takes the first that is due. A clause sees the
/// list of its tokens with their due moments, in the order in which they come due.
#[derive(Drop)]
pub struct Wheel<T> {
    past: Rows<T>,
    lap: LapRows<T>,
    later: Rows<T>,
}

impl<T> Model for Wheel<T> {
    ghost use Rattle.std.specs.Prelude.{ℕ, List};
    ghost use Rattle.ts_wheel.specs.Parts.{IsParted, all_tokens};

    ghost Value = { List (ℕ × T) };

    ghost view = { λ w. all_tokens w.past w.lap w.later };

    ghost invariant = { λ w. IsParted w.past w.lap w.later };
}

fn add_to<T: Copy>(
    past: &mut Rows<T>,
    lap: &mut LapRows<T>,
    later: &mut Rows<T>,
    due: u64,
    token: T,
) -> Result<(), NoMemory>
    requires { IsParted past.old lap.old later.old }
    ensures parted { IsParted past.new lap.new later.new }
    ensures ok { OnOk result
        (all_tokens past.new lap.new later.new ≡ added due token (all_tokens past.old lap.old later.old)) }
    ensures err { OnErr result
        (all_tokens past.new lap.new later.new ≡ all_tokens past.old lap.old later.old) }
{
    let start = lap.start();
    if due < start {
        past.add(due, token)
    } else if due - start < ROWS as u64 {
        lap.add(due, token)
    } else {
        later.add(due, token)
    }
}

// Moves a lap without tokens on to the first token after it, if that is due, and fills it with the rows that
// are due within it.
fn turn<T: Copy>(lap: &mut LapRows<T>, later: &mut Rows<T>, now: u64)
    requires parted { IsParted [] lap.old later.old }
    requires empty { lap.old.tokens ≡ [] }
    ensures parted { IsParted [] lap.new later.new }
    ensures moved { lap.new.tokens ++ later.new ≡ later.old }
    ensures due { lap.new.tokens ≡ [] → first_due now later.old ≡ None }
{
    let Some(due) = later.first() else {
        return;
    };
    if due > now {
        return;
    }
    let start = due.min(LAST_START);
    lap.restart(start);
    'rows: while let Some((due, row)) = later.take_row(start + LAST_ROW) {
        lap.put_row(due, row);
    }
}

// Takes the first token, where none is due before the lap.
fn take_in_lap<T: Copy>(lap: &mut LapRows<T>, later: &mut Rows<T>, now: u64) -> Option<T>
    requires { IsParted [] lap.old later.old }
    ensures parted { IsParted [] lap.new later.new }
    ensures token { result ≡ first_due now (lap.old.tokens ++ later.old) }
    ensures rest { lap.new.tokens ++ later.new ≡ after_due now (lap.old.tokens ++ later.old) }
{
    if lap.is_empty() {
        turn(lap, later, now);
    }
    lap.take_due(now)
}

fn take_from<T: Copy>(
    past: &mut Rows<T>,
    lap: &mut LapRows<T>,
    later: &mut Rows<T>,
    now: u64,
) -> Option<T>
    requires { IsParted past.old lap.old later.old }
    ensures parted { IsParted past.new lap.new later.new }
    ensures token { result ≡ first_due now (all_tokens past.old lap.old later.old) }
    ensures rest { all_tokens past.new lap.new later.new
        ≡ after_due now (all_tokens past.old lap.old later.old) }
{
    if past.is_empty() {
        return take_in_lap(lap, later, now);
    }
    past.take_due(now)
}

fn moment_of<T: Copy>(past: &Rows<T>, lap: &LapRows<T>, later: &Rows<T>) -> Option<u64>
    ensures { result ≡ next_moment (all_tokens past.now lap.now later.now) }
{
    if let Some(due) = past.first() {
        return Some(due);
    }
    if let Some(due) = lap.first() {
        return Some(due);
    }
    later.first()
}

impl<T: Copy> Wheel<T> {
    /// A wheel without tokens.
    pub fn new(alloc: Global) -> Result<Wheel<T>, NoMemory>
        ensures { IfOk result (λ wheel. wheel ≡ []) }
    {
        Ok(Wheel {
            past: Rows::new(alloc),
            lap: LapRows::new(alloc)?,
            later: Rows::new(alloc),
        })
    }

    /// Adds a token behind those that are due no later.
    pub fn add(&mut self, due: u64, token: T) -> Result<(), NoMemory>
        ensures ok { OnOk result (self.new ≡ added due token self.old) }
        ensures err { OnErr result (self.new ≡ self.old) }
    {
        add_to(&mut self.past, &mut self.lap, &mut self.later, due, token)
    }

    /// Takes the first token, if it is due at or before the moment. It takes no memory.
    pub fn take_due(&mut self, now: u64) -> Option<T>
        ensures token { result ≡ first_due now self.old }
        ensures rest { self.new ≡ after_due now self.old }
    {
        take_from(&mut self.past, &mut self.lap, &mut self.later, now)
    }

    /// The least due moment, `None` exactly where there is no token.
    pub fn next_due(&self) -> Option<u64>
        ensures { result ≡ next_moment self.now }
    {
        moment_of(&self.past, &self.lap, &self.later)
    }
}
