//! The tokens that are due within a lap, in a row for each of its milliseconds.

ghost use Rattle.std.specs.Prelude.{◌≡◌, ◌+◌, ◌<◌, ◌≤◌, ◌↔◌, [], ◌++◌, length, All, IsTrue, IfOk, OnOk, OnErr};
ghost use Rattle.ts_wheel.specs.Due.{added, first_due, after_due, next_moment};
ghost use Rattle.ts_wheel.specs.Rows.{all_at, AreEmptyBelow, HasToken, KeepsEmpty, SameRows, PushesAt, PopsAt, PutsAt};

use crate::ROWS;
use std::alloc::Global;
use std::collections::VecDeque;
use std::marker::Model;
use ts_link::NoMemory;

/// The place of the last row of a lap.
pub(crate) const LAST_ROW: u64 = ROWS as u64 - 1;

/// The last moment at which a lap can start.
pub(crate) const LAST_START: u64 = u64::MAX - LAST_ROW;

/// The rows of a lap. A clause sees the moment of the first row and the list of the tokens.
#[derive(Drop)]
pub(crate) struct LapRows<T> {
    start: u64,
    // No row below this one has a token.
    first: usize,
    rows: Vec<VecDeque<T>>,
}

impl<T> Model for LapRows<T> {
    ghost use Rattle.ts_wheel.specs.Rows.{Lap, spread, AreOfLap};

    ghost Value = { Lap T };

    ghost view = { λ l. record { start = l.start; tokens = spread l.start l.rows.items } };

    ghost invariant = { λ l. AreOfLap l.start l.first l.rows.items };
}

fn empty_rows<T: Copy>(alloc: Global) -> Result<Vec<VecDeque<T>>, NoMemory>
    ensures length { IfOk result (λ rows. length rows.items ≡ ROWS) }
    ensures empty { IfOk result (λ rows. AreEmptyBelow ROWS rows.items) }
{
    let mut rows = Vec::with_capacity(alloc, ROWS)?;
    for _ in 0..ROWS {
        rows.push(VecDeque::new(alloc))?;
    }
    Ok(rows)
}

// The first row that has a token, from this place on, or the number of the rows.
fn next_row<T>(rows: &Vec<VecDeque<T>>, from: usize) -> usize
    requires length { length rows.now.items ≡ ROWS }
    requires from { (from ≤ ROWS) × AreEmptyBelow from rows.now.items }
    ensures range { result ≤ ROWS }
    ensures empty { AreEmptyBelow result rows.now.items }
    ensures full { result < ROWS → HasToken rows.now.items result }
{
    'rows: for place in from..ROWS {
        if !rows[place].is_empty() {
            return place;
        }
    }
    ROWS
}

// Adds a token at the end of a row.
fn push_at<T: Copy>(rows: &mut Vec<VecDeque<T>>, place: usize, token: T) -> Result<(), NoMemory>
    requires { place < length rows.old.items }
    ensures length { length rows.new.items ≡ length rows.old.items }
    ensures empty { KeepsEmpty place rows.old.items rows.new.items }
    ensures ok { OnOk result (PushesAt place token rows.old.items rows.new.items) }
    ensures err { OnErr result (SameRows rows.old.items rows.new.items) }
{
    rows[place].push_back(token)?;
    Ok(())
}

// Takes the first token of a row that has one, where no row before it has one.
fn pop_at<T: Copy>(rows: &mut Vec<VecDeque<T>>, place: usize) -> T
    requires place { (place < length rows.old.items) × AreEmptyBelow place rows.old.items }
    requires full { HasToken rows.old.items place }
    ensures length { length rows.new.items ≡ length rows.old.items }
    ensures empty { AreEmptyBelow place rows.new.items }
    ensures token { PopsAt place result rows.old.items rows.new.items }
{
    rows[place].pop_front().unwrap()
}

// Puts a row where neither it nor a later one has a token.
fn put_at<T: Copy>(rows: &mut Vec<VecDeque<T>>, place: usize, row: VecDeque<T>)
    requires { place < length rows.old.items }
    ensures length { length rows.new.items ≡ length rows.old.items }
    ensures empty { KeepsEmpty place rows.old.items rows.new.items }
    ensures put { PutsAt place row.items rows.old.items rows.new.items }
{
    rows[place] = row;
}

impl<T: Copy> LapRows<T> {
    /// A lap from the moment 0 on, without tokens.
    pub(crate) fn new(alloc: Global) -> Result<LapRows<T>, NoMemory>
        ensures { IfOk result (λ lap. lap ≡ record { start = 0; tokens = [] }) }
    {
        let rows = empty_rows(alloc)?;
        Ok(LapRows {
            start: 0,
            first: ROWS,
            rows,
        })
    }

    /// The moment of the first row.
    pub(crate) fn start(&self) -> u64
        ensures start { result ≡ self.now.start }
        ensures range { result ≤ LAST_START }
    {
        self.start
    }

    /// Adds a token that is due within the lap, behind those that are due no later.
    pub(crate) fn add(&mut self, due: u64, token: T) -> Result<(), NoMemory>
        requires due { (self.old.start ≤ due) × (due < self.old.start + ROWS) }
        ensures start { self.new.start ≡ self.old.start }
        ensures ok { OnOk result (self.new.tokens ≡ added due token self.old.tokens) }
        ensures err { OnErr result (self.new.tokens ≡ self.old.tokens) }
    {
        let place = (due - self.start) as usize;
        self.first = self.first.min(place);
        push_at(&mut self.rows, place, token)
    }

    /// Whether there is no token.
    pub(crate) fn is_empty(&mut self) -> bool
        ensures same { self.new ≡ self.old }
        ensures empty { IsTrue result ↔ (self.old.tokens ≡ []) }
    {
        self.first = next_row(&self.rows, self.first);
        self.first == ROWS
    }

    /// The due moment of the first token.
    pub(crate) fn first(&self) -> Option<u64>
        ensures { result ≡ next_moment self.now.tokens }
    {
        let place = next_row(&self.rows, self.first);
        if place == ROWS {
            return None;
        }
        Some(self.start + place as u64)
    }

    /// Takes the first token, if it is due at or before the moment.
    pub(crate) fn take_due(&mut self, now: u64) -> Option<T>
        ensures start { self.new.start ≡ self.old.start }
        ensures token { result ≡ first_due now self.old.tokens }
        ensures rest { self.new.tokens ≡ after_due now self.old.tokens }
    {
        let place = next_row(&self.rows, self.first);
        self.first = place;
        if place == ROWS || self.start + place as u64 > now {
            return None;
        }
        Some(pop_at(&mut self.rows, place))
    }

    /// Lets a lap without tokens start at another moment.
    pub(crate) fn restart(&mut self, start: u64)
        requires start { start ≤ LAST_START }
        requires empty { self.old.tokens ≡ [] }
        ensures start { self.new.start ≡ start }
        ensures empty { self.new.tokens ≡ [] }
    {
        self.start = start;
        self.first = 0;
    }

    /// Puts a row of tokens behind all others.
    pub(crate) fn put_row(&mut self, due: u64, row: VecDeque<T>)
        requires due { (self.old.start ≤ due) × (due < self.old.start + ROWS) }
        requires last { All (λ e. e.0 < due) self.old.tokens }
        ensures start { self.new.start ≡ self.old.start }
        ensures put { self.new.tokens ≡ self.old.tokens ++ all_at due row.items }
    {
        let place = (due - self.start) as usize;
        self.first = self.first.min(place);
        put_at(&mut self.rows, place, row);
    }
}
