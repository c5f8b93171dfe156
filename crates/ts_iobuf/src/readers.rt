//! The places of a buffer's readers.
ghost use Rattle.std.specs.Prelude.{◌≡◌, ◌≢◌, ℕ, ◌+◌, ◌-◌, ◌^◌, ◌<◌, ◌≤◌, ◌++◌, ◌∷◌, [], List, drop, map, slice_get, IsSome, IsSomeAnd, IfSome, IfOk, OnErr, IsTrue, ◌↔◌, Some, is_some};
ghost use Rattle.ts_iobuf.specs.Readers.{OpensReader, ClosesReader, IsFreeSlot};
ghost use Rattle.ts_iobuf.specs.Places.{place_in, moved, least_place, lowered, bytes_from, StandsWithin};

use ts_link::NoMemory;

// The last generation in which an index is used.
const LAST_GENERATION: u32 = u32::MAX;

/// The name of a reader of one buffer: an index that was used in this generation.
#[derive(Clone, Copy)]
pub struct ReaderId {
    pub index: u32,
    pub generation: u32,
}

/// Where the reader of an index stands, counted from the first byte that was not dropped, if it is live. The
/// generation is that of the index's last reader.
#[derive(Clone, Copy)]
pub struct Slot {
    pub generation: u32,
    pub place: Option<usize>,
}

/// The place of a reader, if it is live.
pub fn place_of(slots: &[Slot], reader: ReaderId) -> Option<usize>
    ensures { result ≡ place_in slots.now reader }
{
    let slot = slots.get(reader.index as usize)?;
    if slot.generation == reader.generation {
        slot.place
    } else {
        None
    }
}

// Moves one reader by `n` bytes.
fn advance(slots: &mut [Slot], reader: ReaderId, n: usize)
    requires { IsSomeAnd (place_in slots.old reader) (λ p. p + n < 2 ^ 64) }
    ensures { slots.new ≡ moved slots.old reader n }
{
    let Some(place) = place_of(slots, reader) else {
        unreachable!()
    };
    slots[reader.index as usize] = Slot {
        generation: reader.generation,
        place: Some(place + n),
    };
}

// The least place of a live reader, or `most` if that is less.
fn least(slots: &[Slot], most: usize) -> usize
    ensures { result ≡ least_place slots.now most }
{
    let mut least = most;
    for slot in slots {
        if let Some(place) = slot.place {
            least = least.min(place);
        }
    }
    least
}

fn lower_one(slot: Slot, by: usize) -> Slot
    ensures { result ≡ lowered by slot }
{
    Slot {
        generation: slot.generation,
        place: slot.place.map(|place| place.saturating_sub(by)),
    }
}

// Counts every place from a later byte.
fn lower(slots: &mut [Slot], by: usize)
    ensures { slots.new ≡ map (lowered by) slots.old }
{
    for slot in slots.iter_mut() {
        *slot = lower_one(*slot, by);
    }
}

/// Moves a reader by `n` bytes, and counts every place from the least one. Answers how many bytes lie before
/// that.
pub fn move_on(slots: &mut [Slot], reader: ReaderId, n: usize, most: usize) -> usize
    requires reader { IsSomeAnd (place_in slots.old reader) (λ p. p + n ≤ most) }
    requires within { StandsWithin most slots.old }
    ensures least { result ≡ least_place (moved slots.old reader n) most }
    ensures slots { slots.new ≡ map (lowered result) (moved slots.old reader n) }
    ensures within { (result ≤ most) × StandsWithin (most - result) slots.new }
    ensures live { (q : _) → is_some (place_in slots.new q) ≡ is_some (place_in slots.old q) }
    ensures moved { (bytes : List ℕ) → bytes_from (place_in slots.new reader) (drop result bytes)
        ≡ drop n (bytes_from (place_in slots.old reader) bytes) }
    ensures others { (bytes : List ℕ) (q : _) → q ≢ reader →
        bytes_from (place_in slots.new q) (drop result bytes) ≡ bytes_from (place_in slots.old q) bytes }
{
    advance(slots, reader, n);
    let passed = least(slots, most);
    lower(slots, passed);
    passed
}

fn is_free(slot: Slot) -> bool
    ensures { IsTrue result ↔ IsFreeSlot slot }
{
    slot.place.is_none() && slot.generation < LAST_GENERATION
}

// The first index that no reader uses, and that has a generation left.
fn free_index(slots: &[Slot]) -> Option<u32>
    ensures { IfSome result (λ i. IsSomeAnd (slice_get slots.now i) IsFreeSlot) }
{
    for (index, slot) in slots.iter().enumerate() {
        if is_free(*slot) {
            return u32::try_from(index).ok();
        }
    }
    None
}

// Opens a reader at a free index.
fn reopen(slots: &mut [Slot], index: u32, place: usize) -> ReaderId
    requires { IsSomeAnd (slice_get slots.old index) IsFreeSlot }
    ensures place { place_in slots.new result ≡ Some place }
    ensures opens { OpensReader slots.old slots.new result }
    ensures within { (most : ℕ) → place ≤ most → StandsWithin most slots.old → StandsWithin most slots.new }
{
    let generation = slots[index as usize].generation + 1;
    let place = Some(place);
    slots[index as usize] = Slot { generation, place };
    ReaderId { index, generation }
}

/// Opens a reader at this place, under a name that was not used.
pub fn open(slots: &mut Vec<Slot>, place: usize) -> Result<ReaderId, NoMemory>
    ensures place { IfOk result (λ r. place_in slots.new.items r ≡ Some place) }
    ensures opens { IfOk result (OpensReader slots.old.items slots.new.items) }
    ensures within { (most : ℕ) → place ≤ most →
        StandsWithin most slots.old.items → StandsWithin most slots.new.items }
    ensures err { OnErr result (slots.new.items ≡ slots.old.items) }
{
    if let Some(index) = free_index(slots.as_slice()) {
        return Ok(reopen(slots, index, place));
    }
    let Ok(index) = u32::try_from(slots.len()) else {
        return Err(NoMemory);
    };
    let generation = 1;
    let place = Some(place);
    slots.push(Slot { generation, place })?;
    Ok(ReaderId { index, generation })
}

/// Closes a reader.
pub fn close(slots: &mut [Slot], reader: ReaderId)
    requires { IsSome (place_in slots.old reader) }
    ensures closes { ClosesReader slots.old slots.new reader }
    ensures within { (most : ℕ) → StandsWithin most slots.old → StandsWithin most slots.new }
{
    let closed = Slot {
        generation: reader.generation,
        place: None,
    };
    slots[reader.index as usize] = closed;
}
