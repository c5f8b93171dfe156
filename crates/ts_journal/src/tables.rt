//! What is kept in memory of a journal's state, and what each entry changes of it.

ghost use Rattle.std.specs.Prelude.{◌≡◌, ℕ, ◌+◌, ◌<◌, ◌≤◌, List, ◌∷◌, [], ◌++◌, None, IfSome, IfOk, OnOk, length, slice_get, slice_set, remove};
ghost use Rattle.ts_journal.specs.State.{State, fresh, fresh_with, pending_at, without, generation_at, without_index, with_key, latest_of};
ghost use Rattle.ts_journal.specs.Machine.{Allowed, after, IsValid};
ghost use Rattle.ts_journal.specs.Log.{set_places, key_places};
ghost use Rattle.ts_journal.specs.Tables.{CanHold, HasPlaces, KeepsMemory, IsFitted, state_in, set_room_of, key_room_of, set_room_over, key_room_over, IsPlaceOf, IsPlaceAt, entry_of};
ghost use Rattle.std.specs.Vec.{vec_capacity};
ghost use Rattle.ts_journal.specs.declared.entry.ContKey.{ContKey as Key};
ghost use Rattle.ts_journal.specs.declared.entry.Entry.TheVariants as Entry;

use crate::entry::{ContKey, Entry, GREATEST, Latest, NoMemory, Pending};
use crate::room::{moved, reserve_moved};
use std::alloc::Global;

/// The parts of a state.
#[derive(Drop)]
pub struct Tables {
    pub turns: u64,
    pub held: bool,
    pub next: u64,
    pub pending: Vec<Pending>,
    pub latest: Option<Latest>,
    pub live: Vec<ContKey>,
    pub newest: Vec<ContKey>,
    pub set_count: u64,
    pub handled_count: u64,
    pub cancelled_count: u64,
    pub dropped_count: u64,
}

// Where the event of a number stands.
#[tactic(auto, using(crate::proofs::Scans::find_pending_steps))]
fn find_pending(pending: &[Pending], number: u64) -> Option<usize>
    ensures found { IfSome result (IsPlaceOf number pending.now) }
    ensures none { result ≡ None → pending_at number pending.now ≡ None }
    ensures same { result ≡ None → without number pending.now ≡ pending.now }
{
    for (i, event) in pending.iter().enumerate() {
        if event.number == number {
            return Some(i);
        }
    }
    None
}

// Where the key of an index stands.
#[tactic(auto, using(crate::proofs::Scans::find_index_steps))]
fn find_index(keys: &[ContKey], index: u32) -> Option<usize>
    ensures found { IfSome result (IsPlaceAt index keys.now) }
    ensures same { result ≡ None → without_index index keys.now ≡ keys.now }
    ensures new { result ≡ None →
        (key : Key) → key.index ≡ index → with_key key keys.now ≡ keys.now ++ key ∷ [] }
{
    for (i, key) in keys.iter().enumerate() {
        if key.index == index {
            return Some(i);
        }
    }
    None
}

/// The event of a number.
#[tactic(auto, using(crate::proofs::Scans::event_at_steps))]
pub fn event_at(pending: &[Pending], number: u64) -> Option<Pending>
    ensures { result ≡ pending_at number pending.now }
{
    for event in pending {
        if event.number == number {
            return Some(*event);
        }
    }
    None
}

/// The generation of the key of an index.
#[tactic(auto, using(crate::proofs::Scans::generation_of_steps))]
pub fn generation_of(keys: &[ContKey], index: u32) -> Option<u64>
    ensures { result ≡ generation_at index keys.now }
{
    for key in keys {
        if key.index == index {
            return Some(key.generation);
        }
    }
    None
}

// The series of an event, as it is kept once that event was handled.
fn latest_of(event: Pending) -> Latest
    ensures { result ≡ latest_of event }
{
    Latest {
        key: event.key,
        series: event.series,
        period: event.period,
    }
}

// Makes room in a list until it has the memory that another has.
fn reserve_like<T: Copy>(list: &mut Vec<T>, other: &Vec<T>) -> Result<(), NoMemory>
    ensures items { list.new.items ≡ list.old.items }
    ensures ok { OnOk result (vec_capacity other.now ≤ vec_capacity list.new) }
    ensures kept { vec_capacity list.old ≤ vec_capacity list.new }
{
    let lacking = other.capacity().saturating_sub(list.len());
    reserve_moved(list, lacking)
}

// Makes a list the same as another, for which it has the memory.
fn refill<T: Copy>(list: &mut Vec<T>, from: &[T])
    requires { length from.now ≤ vec_capacity list.old }
    ensures items { list.new.items ≡ from.now }
    ensures kept { vec_capacity list.old ≤ vec_capacity list.new }
{
    list.clear();
    match list.extend_from_slice(from) {
        Ok(()) => {}
        Err(_) => unreachable!(),
    }
}

/// Makes room in tables for so many events and keys, and in a base that can hold them then.
pub fn reserve_over(base: &mut Tables, tables: &mut Tables, places: usize) -> Result<(), NoMemory>
    requires hold { CanHold base.old tables.old }
    ensures base { state_in base.new ≡ state_in base.old }
    ensures tables { state_in tables.new ≡ state_in tables.old }
    ensures ok { OnOk result ((places ≤ set_room_over base.new tables.new)
        × (places ≤ key_room_over base.new tables.new)) }
    ensures set_room { set_room_over base.old tables.old ≤ set_room_over base.new tables.new }
    ensures key_room { key_room_over base.old tables.old ≤ key_room_over base.new tables.new }
    ensures hold { CanHold base.new tables.new }
{
    tables.reserve(places)?;
    reserve_like(&mut base.pending, &tables.pending)?;
    reserve_like(&mut base.live, &tables.live)?;
    reserve_like(&mut base.newest, &tables.newest)
}

/// The same tables and a base that can hold them, neither with room for more.
pub fn fitted_over(base: &Tables, tables: &Tables) -> Result<(Tables, Tables), NoMemory>
    ensures base { IfOk result (λ fitted. state_in fitted.0 ≡ state_in base.now) }
    ensures tables { IfOk result (λ fitted. state_in fitted.1 ≡ state_in tables.now) }
    ensures hold { IfOk result (λ fitted. CanHold fitted.0 fitted.1) }
    ensures set_room { IfOk result (λ fitted. set_room_over fitted.0 fitted.1 ≡ 0) }
    ensures key_room { IfOk result (λ fitted. key_room_over fitted.0 fitted.1 ≡ 0) }
{
    let fitted_base = base.fitted(tables)?;
    let fitted_tables = tables.fitted(tables)?;
    Ok((fitted_base, fitted_tables))
}

/// Does what an entry says, in tables that a base can hold then too.
#[tactic(auto, using(crate::proofs::Folding::apply_steps))]
pub fn apply_over(base: &Tables, tables: &mut Tables, entry: Entry)
    requires valid { IsValid (state_in tables.old) }
    requires allowed { Allowed (state_in tables.old) entry }
    requires places { HasPlaces base.now tables.old entry }
    requires hold { CanHold base.now tables.old }
    ensures state { state_in tables.new ≡ after (state_in tables.old) entry }
    ensures set_room { set_room_over base.now tables.old
        ≤ set_room_over base.now tables.new + set_places entry }
    ensures key_room { key_room_over base.now tables.old
        ≤ key_room_over base.now tables.new + key_places entry }
    ensures hold { CanHold base.now tables.new }
{
    tables.apply(entry);
}

/// Makes a base the same as tables that it can hold.
pub fn fold_into(base: &mut Tables, tables: &Tables)
    requires hold { CanHold base.old tables.now }
    ensures state { state_in base.new ≡ state_in tables.now }
    ensures memory { KeepsMemory base.old base.new }
{
    refill(&mut base.pending, &tables.pending);
    refill(&mut base.live, &tables.live);
    refill(&mut base.newest, &tables.newest);
    base.turns = tables.turns;
    base.held = tables.held;
    base.next = tables.next;
    base.latest = tables.latest;
    base.set_count = tables.set_count;
    base.handled_count = tables.handled_count;
    base.cancelled_count = tables.cancelled_count;
    base.dropped_count = tables.dropped_count;
}

impl Tables {
    /// The tables of a group that has made so many turns elsewhere, and nothing else.
    pub fn make(alloc: Global, turns: u64) -> Tables
        ensures { state_in result ≡ fresh turns }
    {
        Tables {
            turns,
            held: false,
            next: 1,
            pending: Vec::new(alloc),
            latest: None,
            live: Vec::new(alloc),
            newest: Vec::new(alloc),
            set_count: 0,
            handled_count: 0,
            cancelled_count: 0,
            dropped_count: 0,
        }
    }

    /// The tables of such a group that has one key, which is live.
    pub fn with_key(alloc: Global, turns: u64, key: ContKey) -> Result<Tables, NoMemory>
        ensures { IfOk result (λ t. state_in t ≡ fresh_with turns key) }
    {
        let mut live = Vec::new(alloc);
        let mut newest = Vec::new(alloc);
        live.push(key)?;
        newest.push(key)?;
        Ok(Tables {
            turns,
            held: false,
            next: 1,
            pending: Vec::new(alloc),
            latest: None,
            live,
            newest,
            set_count: 0,
            handled_count: 0,
            cancelled_count: 0,
            dropped_count: 0,
        })
    }

    // The same tables, with room for their own items, or for those of others, and for no more.
    fn fitted(&self, others: &Tables) -> Result<Tables, NoMemory>
        ensures state { IfOk result (λ t. state_in t ≡ state_in self.now) }
        ensures places { IfOk result (λ t. IsFitted others.now t) }
    {
        Ok(Tables {
            turns: self.turns,
            held: self.held,
            next: self.next,
            pending: moved(&self.pending, self.pending.len().max(others.pending.len()))?,
            latest: self.latest,
            live: moved(&self.live, self.live.len().max(others.live.len()))?,
            newest: moved(&self.newest, self.newest.len().max(others.newest.len()))?,
            set_count: self.set_count,
            handled_count: self.handled_count,
            cancelled_count: self.cancelled_count,
            dropped_count: self.dropped_count,
        })
    }

    // Makes room for so many events and keys.
    fn reserve(&mut self, places: usize) -> Result<(), NoMemory>
        ensures same { state_in self.new ≡ state_in self.old }
        ensures ok { OnOk result ((places ≤ set_room_of self.new) × (places ≤ key_room_of self.new)) }
        ensures set_room { set_room_of self.old ≤ set_room_of self.new }
        ensures key_room { key_room_of self.old ≤ key_room_of self.new }
    {
        reserve_moved(&mut self.pending, places)?;
        reserve_moved(&mut self.live, places)?;
        reserve_moved(&mut self.newest, places)
    }

    // Does what an entry says.
    fn apply(&mut self, entry: Entry)
        requires valid { IsValid (state_in self.old) }
        requires allowed { Allowed (state_in self.old) entry }
        requires sets { set_places entry ≤ set_room_of self.old }
        requires keys { key_places entry ≤ key_room_of self.old }
        ensures state { state_in self.new ≡ after (state_in self.old) entry }
        ensures set_room { set_room_of self.old ≤ set_room_of self.new + set_places entry }
        ensures key_room { key_room_of self.old ≤ key_room_of self.new + key_places entry }
    {
        match entry {
            Entry::Took { turn, .. } => {
                self.turns = turn;
                self.held = true;
            }
            Entry::Gave { .. } => {
                self.held = false;
            }
            Entry::Made { key } => {
                self.add_key(key);
            }
            Entry::Set {
                number,
                key,
                event,
                due,
                series,
                period,
            } => {
                self.add_event(Pending {
                    number,
                    key,
                    event,
                    due,
                    series,
                    period,
                });
            }
            Entry::Handled { number, .. } => {
                self.close_handled(number);
            }
            Entry::Cancelled { number } => {
                let _event = self.close(number);
                self.cancelled_count += 1;
            }
            Entry::Dropped { number } => {
                let _event = self.close(number);
                self.dropped_count += 1;
            }
            Entry::Destroyed { key } => {
                self.remove_key(key);
            }
        }
    }

    // Removes the event of a number.
    fn close(&mut self, number: u64) -> Option<Pending>
        ensures state { state_in self.new ≡
            record (state_in self.old) { pending = without number (state_in self.old).pending } }
        ensures closed { result ≡ pending_at number (state_in self.old).pending }
        ensures set_room { set_room_of self.old ≤ set_room_of self.new }
        ensures key_room { key_room_of self.old ≡ key_room_of self.new }
    {
        match find_pending(&self.pending, number) {
            Some(i) => Some(self.pending.remove(i)),
            None => None,
        }
    }

    // Removes the event of a number, which is handled.
    fn close_handled(&mut self, number: u64)
        requires { self.old.handled_count < GREATEST }
        ensures state { state_in self.new ≡ after (state_in self.old) (Entry.Handled number 0) }
        ensures set_room { set_room_of self.old ≤ set_room_of self.new }
        ensures key_room { key_room_of self.old ≡ key_room_of self.new }
    {
        self.latest = match self.close(number) {
            Some(event) => Some(latest_of(event)),
            None => None,
        };
        self.handled_count += 1;
    }

    // Adds a key, which is the newest of its index.
    fn add_key(&mut self, key: ContKey)
        requires { 0 < key_room_of self.old }
        ensures state { state_in self.new ≡ after (state_in self.old) (Entry.Made key) }
        ensures set_room { set_room_of self.old ≡ set_room_of self.new }
        ensures key_room { key_room_of self.old ≤ key_room_of self.new + 1 }
    {
        self.live.push_reserved(key);
        match find_index(&self.newest, key.index) {
            Some(i) => self.newest[i] = key,
            None => self.newest.push_reserved(key),
        }
    }

    // Adds an event under the next number.
    fn add_event(&mut self, event: Pending)
        requires room { 0 < set_room_of self.old }
        requires next { self.old.next < GREATEST }
        requires count { self.old.set_count < GREATEST }
        ensures state { state_in self.new ≡ after (state_in self.old) (entry_of event) }
        ensures set_room { set_room_of self.old ≤ set_room_of self.new + 1 }
        ensures key_room { key_room_of self.old ≡ key_room_of self.new }
    {
        self.pending.push_reserved(event);
        self.next += 1;
        self.set_count += 1;
    }

    // Removes a key.
    fn remove_key(&mut self, key: ContKey)
        ensures state { state_in self.new ≡ after (state_in self.old) (Entry.Destroyed key) }
        ensures set_room { set_room_of self.old ≡ set_room_of self.new }
        ensures key_room { key_room_of self.old ≤ key_room_of self.new }
    {
        if let Some(i) = find_index(&self.live, key.index) {
            let _key = self.live.remove(i);
        }
    }
}
