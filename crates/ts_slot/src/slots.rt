//! The slots: how groups are entered and left, and how seats are split and joined.

ghost use Rattle.std.specs.Prelude.{◌≡◌, ℕ, ◌<◌, ◌≤◌, [], length, map, Some, IfOk, IfErr, vec_capacity, box_value};
ghost use Rattle.std.specs.Mem.Slots.{IsFull, slots_items, slots_len};
ghost use Rattle.ts_slot.specs.Boxed.{unboxed};
ghost use Rattle.ts_slot.specs.Limits.{most_groups};
ghost use Rattle.ts_slot.specs.Lists.{HasValue};

use crate::rule::{Cut, Enter, Fetch, Free, Glue, Key, Law, Learn, Wear};
use crate::seat::{Left, Missed, Seat, Turn};
use crate::view::SeatView;
use atomic_table::{Closed, Table};
use std::alloc::{AllocError, Global};
use std::snapshot::Snapshot;
use ts_journal::{NoMemory, Slotted};

// The last turn of a group, after which its word stays odd.
const LAST_TURN: u64 = 1 << 63;

/// A word and a place for each group. The word is twice the number of the group's finished turns, and 1 more
/// while it is held.
#[derive(Drop)]
pub struct Slots<V: Slotted> {
    table: Table<Option<Box<V>>, SeatView<V::Tag, V::Trace>, Key<V>, Law<V>, Global>,
    groups: u32,
    ghost sized: { (table.shared.table_id.words ≡ groups) × (table.shared.table_id.slots ≡ groups) },
    ghost named: { groups ≡ length table.shared.key.0.value.items },
    ghost few: { (0 < groups) × (groups ≤ most_groups) },
}

/// Slots that were not closed, for want of memory, and the seat with which they can be.
#[derive(Drop)]
pub struct NotClosed<V: Slotted> {
    pub slots: Slots<V>,
    pub seat: Seat<V>,
}

// Each value in a box of its own, so that it need not be moved to enter its group and to leave it.
fn put_into_boxes<V: Drop>(alloc: Global, values: Vec<V>) -> Result<Vec<Box<V>>, AllocError>
    ensures { IfOk result (λ boxes. map box_value boxes.items ≡ values.items) }
{
    let mut boxes = Vec::with_capacity(alloc, values.len())?;
    for value in values {
        boxes.push(Box::new(alloc, value)?)?;
    }
    Ok(boxes)
}

// Each value in a place of its own.
fn placed<V: Drop>(alloc: Global, values: Vec<V>) -> Result<Vec<Option<V>>, AllocError>
    ensures { IfOk result (λ places. places.items ≡ map Some values.items) }
{
    let mut places = Vec::with_capacity(alloc, values.len())?;
    for value in values {
        places.push(Some(value))?;
    }
    Ok(places)
}

// The values whose boxes stand in the slots, where each has one.
fn unload<V: Drop>(mut closed: Closed<Option<Box<V>>, Global>, mut values: Vec<V>) -> Vec<V>
    requires full { IsFull closed.slots }
    requires each { (k : ℕ) → k < slots_len closed.slots → HasValue (slots_items closed.slots) k }
    requires room { (values.items ≡ []) × (slots_len closed.slots ≤ vec_capacity values) }
    ensures { map Some result.items ≡ map unboxed (slots_items closed.slots) }
{
    let count = closed.slot_count();
    let mut k = 0;
    while k < count {
        let Some(boxed) = closed.take(k) else {
            unreachable!()
        };
        values.push_reserved(Box::into_inner(boxed));
        k += 1;
    }
    closed.free();
    values
}

impl<V: Slotted + Drop> Slots<V>
where
    V::Tag: Drop,
{
    ghost use Rattle.std.specs.List.{AllZip};
    ghost use Rattle.ts_slot.specs.Limits.{whole_share};
    ghost use Rattle.ts_slot.specs.Lists.{Each};
    ghost use Rattle.ts_slot.specs.Views.{opener, firsts};
    ghost use Rattle.ts_slot.specs.Words.{tags_of, view, IsSeatOf, AreLast};

    /// Makes slots of 1 to 4,096 groups, each with a value and a tag, and the first seat.
    pub fn make(
        alloc: Global,
        values: Vec<V>,
        tags: Vec<V::Tag>,
    ) -> Result<(Slots<V>, Seat<V>), NoMemory>
        requires count { (0 < length values.items) × (length values.items ≤ most_groups) }
        requires fits { AllZip V.fits tags.items values.items }
        requires stamps { Each (λ x. V.stamp x ≡ 0) values.items }
        ensures tags { IfOk result (λ r. tags_of r.0 ≡ tags.items) }
        ensures seat { IfOk result (λ r. IsSeatOf r.0 r.1) }
        ensures view { IfOk result (λ r. view r.1 ≡ opener tags.items (firsts V.trace 0 values.items)) }
    {
        let groups = values.len();
        let boxes = put_into_boxes(alloc, values)?;
        let key = (Snapshot::of(&tags), Snapshot::of(&boxes));
        let words = vec![in alloc; 0u64; groups]?;
        let places = placed(alloc, boxes)?;
        let Ok((table, place)) = Table::new(alloc, words.as_slice(), places, &key) else {
            return Err(NoMemory);
        };
        let slots = Slots {
            table,
            groups: groups as u32,
        };
        let seat = Seat {
            place,
            number: 0,
            next: 1,
        };
        Ok((slots, seat))
    }

    /// Gives the values in the order of their groups. Every other seat was joined, and no turn is out. Their
    /// room is taken first: where it cannot be had, slots and seat come back as they were.
    pub fn close(self, alloc: Global, seat: Seat<V>) -> Result<Vec<V>, NotClosed<V>>
        requires seat { IsSeatOf self seat }
        requires share { (view seat).share ≡ whole_share }
        requires idle { (view seat).held ≡ [] }
        ensures count { IfOk result (λ xs. length xs.items ≡ length (tags_of self)) }
        ensures values { IfOk result (λ xs. AreLast self seat xs.items) }
        ensures err { IfErr result (λ left. (left.slots ≡ self) × (left.seat ≡ seat)) }
    {
        let Ok(values) = Vec::with_capacity(alloc, self.groups as usize) else {
            return Err(NotClosed { slots: self, seat });
        };
        let Slots { table, groups: _ } = self;
        let closed = table.close_with(seat.place);
        Ok(unload(closed, values))
    }
}

impl<V: Slotted> Slots<V> {
    ghost use Rattle.ts_slot.specs.declared.seat.Left.TheVariants.{Freed, Worn};
    ghost use Rattle.ts_slot.specs.Views.{won, left_half, right_half, joined, Coherent, KnowsLater, IsAfter};
    ghost use Rattle.ts_slot.specs.Words.{tags_of, view, IsSeatOf, FitsTag, HoldsNot, Misses, IsHeld, MayLeave, MarksOwn, LeavesFree, LeavesWorn, GivesUp};

    /// The number of groups.
    pub fn groups(&self) -> u32
        ensures { result ≡ length (tags_of self.now) }
    {
        self.groups
    }

    /// Tries to enter the group `k`. One atomic step on its word decides: the group is held where that word
    /// is odd, by this seat or another.
    pub fn try_enter(&self, seat: &mut Seat<V>, k: u32) -> Result<Turn<V>, Missed>
        requires seat { IsSeatOf self.now seat.old }
        requires group { k < length (tags_of self.now) }
        ensures seat { IsSeatOf self.now seat.new }
        ensures turn { IfOk result (λ t.
            (t.group ≡ k) × (t.found.value ≡ t.boxed.value) × HoldsNot (view seat.old) k) }
        ensures won { IfOk result (λ t.
            view seat.new ≡ won k t.number (V.trace t.boxed.value) (view seat.old)) }
        ensures value { IfOk result (λ t.
            FitsTag V.fits (tags_of self.now) k t.boxed.value × (V.stamp t.boxed.value < t.number)) }
        ensures later { IfOk result (λ t.
            IsAfter V.follows k t.number (V.trace t.boxed.value) (view seat.old).known) }
        ensures missed { IfErr result (λ m. Misses k m.seen (view seat.old) (view seat.new)) }
    {
        let group = k as usize;
        let place = &mut seat.place;
        let seen = self.table.shared.fetch_or::<Enter<V>>(place, group, 1);
        if seen % 2 == 1 {
            return Err(Missed { seen });
        }
        let taken = self.table.shared.exchange(place, group, None);
        let Some(boxed) = taken else { unreachable!() };
        Ok(Turn {
            group: k,
            number: seen / 2 + 1,
            found: Snapshot::of(&*boxed),
            boxed,
        })
    }

    /// Puts the value of a turn home, and then frees the group.
    pub fn leave(&self, seat: &mut Seat<V>, turn: Turn<V>) -> Left
        requires seat { IsSeatOf self.now seat.old }
        requires held { IsHeld (view seat.old) turn }
        requires value { MayLeave (tags_of self.now) turn }
        requires marks { MarksOwn turn seat.old.number }
        ensures seat { IsSeatOf self.now seat.new }
        ensures freed { result ≡ Freed → LeavesFree turn (view seat.old) (view seat.new) }
        ensures worn { result ≡ Worn → LeavesWorn turn (view seat.old) (view seat.new) }
        ensures others { GivesUp turn.group (view seat.old).held (view seat.new).held }
    {
        let Turn {
            group,
            number,
            boxed,
            found: _,
        } = turn;
        let group = group as usize;
        let place = &mut seat.place;
        self.table.shared.load::<Fetch<V>>(place, group);
        let gone = self.table.shared.exchange(place, group, Some(boxed));
        let None = gone else { unreachable!() };
        if number == LAST_TURN {
            self.table.shared.fetch_add::<Wear<V>>(place, group, 0);
            return Left::Worn;
        }
        self.table.shared.fetch_add::<Free<V>>(place, group, 1);
        Left::Freed
    }

    /// Splits a seat off, which gets one part of the share and the least free number, and knows what this
    /// seat knows.
    pub fn split(&self, seat: &mut Seat<V>) -> Seat<V>
        requires seat { IsSeatOf self.now seat.old }
        requires share { 2 ≤ (view seat.old).share }
        requires free { (view seat.old).free_from < (view seat.old).free_to }
        ensures seats { IsSeatOf self.now seat.new × IsSeatOf self.now result }
        ensures left { view seat.new ≡ left_half (view seat.old) }
        ensures right { view result ≡ right_half (view seat.old) }
    {
        let place = self.table.shared.split_seat::<Cut>(&mut seat.place);
        let number = seat.next;
        seat.next += 1;
        Seat {
            place,
            number,
            next: 0,
        }
    }

    /// Joins a seat to another, which gets its share and its turns and knows the later of what the two know.
    pub fn join(&self, into: &mut Seat<V>, from: Seat<V>)
        requires seats { IsSeatOf self.now into.old × IsSeatOf self.now from }
        requires idle { (view from).held ≡ [] }
        ensures seat { IsSeatOf self.now into.new }
        ensures both { view into.new ≡ joined (view into.old) (view from) }
        ensures later { Coherent V.follows (view into.new).known }
        ensures latest { KnowsLater (view into.old).known (view from).known (view into.new).known }
    {
        let shared = &self.table.shared;
        shared.join_seat::<Glue>(&mut into.place, from.place);
        shared.load::<Learn<V>>(&mut into.place, 0);
    }
}
