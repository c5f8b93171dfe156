//! Rows of tokens in an ordered map, one row for each due moment that has tokens.

ghost use Rattle.std.specs.Prelude.{◌≡◌, ℕ, ◌<◌, ◌≤◌, [], ◌∷◌, ◌++◌, length, All, ◌↔◌, IsTrue, IfOk, OnOk, OnErr, IfSome, IfNone, Some};
ghost use Rattle.ts_wheel.specs.Due.{added, first_due, after_due, next_moment};
ghost use Rattle.ts_wheel.specs.Rows.{all_at, row_tokens, AllFull};

use std::alloc::Global;
use std::collections::{BTreeMap, VecDeque};
use std::marker::Model;
use ts_link::NoMemory;

/// Tokens in the order in which they come due. A clause sees the list of them.
#[derive(Drop)]
pub(crate) struct Rows<T> {
    alloc: Global,
    rows: BTreeMap<u64, VecDeque<T>>,
}

impl<T> Model for Rows<T> {
    ghost use Rattle.std.specs.Prelude.{ℕ, List};
    ghost use Rattle.ts_wheel.specs.Rows.{row_tokens, AllFull};

    ghost Value = { List (ℕ × T) };

    ghost view = { λ r. row_tokens r.rows.entries };

    ghost invariant = { λ r. AllFull r.rows.entries };
}

fn row_of<T: Copy>(alloc: Global, token: T) -> Result<VecDeque<T>, NoMemory>
    ensures { IfOk result (λ row. row.items ≡ token ∷ []) }
{
    let mut row = VecDeque::new(alloc);
    row.push_back(token)?;
    Ok(row)
}

fn add_row<T: Copy>(
    alloc: Global,
    rows: &mut BTreeMap<u64, VecDeque<T>>,
    due: u64,
    token: T,
) -> Result<(), NoMemory>
    requires { AllFull rows.old.entries }
    ensures full { AllFull rows.new.entries }
    ensures ok { OnOk result (row_tokens rows.new.entries ≡ added due token (row_tokens rows.old.entries)) }
    ensures err { OnErr result (row_tokens rows.new.entries ≡ row_tokens rows.old.entries) }
{
    match rows.get_mut(&due) {
        Some(row) => {
            row.push_back(token)?;
            Ok(())
        }
        None => {
            let row = row_of(alloc, token)?;
            rows.insert(due, row)?;
            Ok(())
        }
    }
}

// The due moment of the first row.
fn moment_of<T>(rows: &BTreeMap<u64, VecDeque<T>>) -> Option<u64>
    requires { AllFull rows.now.entries }
    ensures first { result ≡ next_moment (row_tokens rows.now.entries) }
    ensures least { IfSome result (λ due. All (λ e. due ≤ e.0) (row_tokens rows.now.entries)) }
{
    let (due, _row) = rows.first_key_value()?;
    Some(*due)
}

// Takes the first token, which is due at this moment.
fn pop_token<T: Copy>(rows: &mut BTreeMap<u64, VecDeque<T>>, due: u64) -> T
    requires full { AllFull rows.old.entries }
    requires first { next_moment (row_tokens rows.old.entries) ≡ Some due }
    ensures full { AllFull rows.new.entries }
    ensures token { row_tokens rows.old.entries ≡ (due, result) ∷ row_tokens rows.new.entries }
{
    let row = rows.get_mut(&due).unwrap();
    let token = row.pop_front().unwrap();
    if row.is_empty() {
        let _emptied = rows.remove(&due);
    }
    token
}

// Takes the first row whole, whose tokens are due at this moment.
fn pop_row<T>(rows: &mut BTreeMap<u64, VecDeque<T>>, due: u64) -> VecDeque<T>
    requires full { AllFull rows.old.entries }
    requires first { next_moment (row_tokens rows.old.entries) ≡ Some due }
    ensures full { AllFull rows.new.entries × (0 < length result.items) }
    ensures row { row_tokens rows.old.entries ≡ all_at due result.items ++ row_tokens rows.new.entries }
    ensures later { All (λ e. due < e.0) (row_tokens rows.new.entries) }
{
    let (_due, row) = rows.pop_first().unwrap();
    row
}

impl<T: Copy> Rows<T> {
    pub(crate) fn new(alloc: Global) -> Rows<T>
        ensures { result ≡ [] }
    {
        Rows {
            alloc,
            rows: BTreeMap::new(alloc),
        }
    }

    /// Adds a token behind those that are due no later.
    pub(crate) fn add(&mut self, due: u64, token: T) -> Result<(), NoMemory>
        ensures ok { OnOk result (self.new ≡ added due token self.old) }
        ensures err { OnErr result (self.new ≡ self.old) }
    {
        add_row(self.alloc, &mut self.rows, due, token)
    }

    pub(crate) fn is_empty(&self) -> bool
        ensures { IsTrue result ↔ (self.now ≡ []) }
    {
        self.rows.is_empty()
    }

    /// The due moment of the first token.
    pub(crate) fn first(&self) -> Option<u64>
        ensures first { result ≡ next_moment self.now }
        ensures least { IfSome result (λ due. All (λ e. due ≤ e.0) self.now) }
    {
        moment_of(&self.rows)
    }

    /// Takes the first token, if it is due at or before the moment.
    pub(crate) fn take_due(&mut self, now: u64) -> Option<T>
        ensures token { result ≡ first_due now self.old }
        ensures rest { self.new ≡ after_due now self.old }
    {
        let due = moment_of(&self.rows)?;
        if due > now {
            return None;
        }
        Some(pop_token(&mut self.rows, due))
    }

    /// Takes the first row whole, if it is due at or before the moment.
    pub(crate) fn take_row(&mut self, last: u64) -> Option<(u64, VecDeque<T>)>
        ensures none { IfNone result ((self.new ≡ self.old) × All (λ e. last < e.0) self.old) }
        ensures due { IfSome result (λ r. r.0 ≤ last) }
        ensures full { IfSome result (λ r. 0 < length r.1.items) }
        ensures rest { IfSome result (λ r. self.old ≡ all_at r.0 r.1.items ++ self.new) }
        ensures later { IfSome result (λ r. All (λ e. r.0 < e.0) self.new) }
    {
        let due = moment_of(&self.rows)?;
        if due > last {
            return None;
        }
        Some((due, pop_row(&mut self.rows, due)))
    }
}
