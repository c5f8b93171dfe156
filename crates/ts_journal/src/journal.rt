//! The journal of a mutex group: its entries, and the state that they lead to.

ghost use Rattle.std.specs.Prelude.{◌≡◌, ◌+◌, ◌<◌, ◌≤◌, [], ◌∷◌, length, IfSome, IfOk, OnOk, OnErr, IsTrue, ◌↔◌};
ghost use Rattle.ts_journal.specs.State.{fresh, fresh_with, pending_at, generation_at, IsLive};
ghost use Rattle.ts_journal.specs.Machine.{Allowed, after, HasLived, IsLawful, IsValid, IsKnown, replay};
ghost use Rattle.ts_journal.specs.Log.{Extends, Folds, IsSameLog, HasRoom, HasRoomFor, KeepsRoom, IsTrimmed, new_base, mark_after, set_places, key_places};
ghost use Rattle.ts_journal.specs.Tally.{counts_of};

use crate::entry::{ContKey, Counts, Entry, MOST_KEYS, Mark, NoMemory, Pending};
use crate::room::{reserve_least, shrink_moved};
use crate::tables::{
    Tables, apply_over, event_at, fitted_over, fold_into, generation_of, reserve_over,
};
use std::alloc::Global;
use std::marker::Model;

// How many entries a journal has room for once it has any, so that a short transaction's grows once at most.
const LEAST_ENTRIES: usize = 32;

// The turn that was taken last, by these entries or before them.
#[tactic(auto, using(crate::proofs::Scans::last_mark_steps))]
fn last_mark(before: Option<Mark>, entries: &[Entry]) -> Option<Mark>
    ensures { result ≡ mark_after before entries.now }
{
    let mut last = before;
    for entry in entries {
        if let Entry::Took { turn, seat } = *entry {
            last = Some(Mark { turn, seat });
        }
    }
    last
}

/// The journal of a mutex group: where its entries begin, what happened since, and where that leads. It takes
/// memory only in `make`, `with_key`, `reserve` and `trim`.
#[derive(Drop)]
pub struct Journal {
    base: Tables,
    made: u64,
    mark: Option<Mark>,
    entries: Vec<Entry>,
    tables: Tables,
}

impl Model for Journal {
    ghost use Rattle.std.specs.Prelude.{◌≡◌, ◌-◌, length};
    ghost use Rattle.std.specs.Vec.{vec_capacity};
    ghost use Rattle.ts_journal.specs.Log.{Log};

    ghost Value = { Log };

    ghost use Rattle.ts_journal.specs.Machine.{HasLived, IsReached};
    ghost use Rattle.ts_journal.specs.Tables.{CanHold, state_in, set_room_over, key_room_over};

    ghost view = { λ j. record {
      base = record { state = state_in j.base; made = j.made; mark = j.mark };
      entries = j.entries.items;
      state = state_in j.tables;
      room = vec_capacity j.entries - length j.entries.items;
      set_room = set_room_over j.base j.tables;
      key_room = key_room_over j.base j.tables;
    } };

    ghost invariant = { λ j. IsReached (state_in j.base) j.entries.items (state_in j.tables)
        × CanHold j.base j.tables × HasLived j.made (state_in j.base) };
}

impl Journal {
    /// The journal of a group that has made so many turns elsewhere, and nothing else.
    #[tactic(auto, using(crate::proofs::Validity::reached_fresh, crate::proofs::Validity::lived_fresh))]
    pub fn make(alloc: Global, turns: u64) -> Result<Journal, NoMemory>
        ensures base { IfOk result (λ j. (j.base ≡ new_base (fresh turns)) × (j.state ≡ fresh turns)) }
        ensures entries { IfOk result (λ j. j.entries ≡ []) }
    {
        Ok(Journal {
            base: Tables::make(alloc, turns),
            made: turns,
            mark: None,
            entries: Vec::new(alloc),
            tables: Tables::make(alloc, turns),
        })
    }

    /// The journal of such a group that has one key, which is live.
    #[tactic(auto, using(crate::proofs::Validity::reached_with, crate::proofs::Validity::lived_with))]
    pub fn with_key(alloc: Global, turns: u64, key: ContKey) -> Result<Journal, NoMemory>
        requires { key.index < MOST_KEYS }
        ensures base { IfOk result (λ j. j.base ≡ new_base (fresh_with turns key)) }
        ensures state { IfOk result (λ j. j.state ≡ fresh_with turns key) }
        ensures entries { IfOk result (λ j. j.entries ≡ []) }
    {
        Ok(Journal {
            base: Tables::with_key(alloc, turns, key)?,
            made: turns,
            mark: None,
            entries: Vec::new(alloc),
            tables: Tables::with_key(alloc, turns, key)?,
        })
    }

    /// Makes room for so many entries, whatever they are, in the journal and in its base. At want of memory
    /// the room may have grown, and nothing else changed.
    pub fn reserve(&mut self, entries: usize) -> Result<(), NoMemory>
        ensures same { IsSameLog self.old self.new }
        ensures ok { OnOk result (HasRoomFor self.new entries) }
        ensures kept { KeepsRoom self.old self.new }
    {
        reserve_least(&mut self.entries, entries, LEAST_ENTRIES)?;
        reserve_over(&mut self.base, &mut self.tables, entries)
    }

    /// Adds an entry that the state allows, in room that was reserved.
    pub fn push(&mut self, entry: Entry)
        requires allowed { Allowed self.old.state entry }
        requires room { HasRoom self.old entry }
        ensures log { Extends self.old self.new (entry ∷ []) }
        ensures state { self.new.state ≡ after self.old.state entry }
        ensures room { self.old.room ≤ self.new.room + 1 }
        ensures set_room { self.old.set_room ≤ self.new.set_room + set_places entry }
        ensures key_room { self.old.key_room ≤ self.new.key_room + key_places entry }
    {
        self.entries.push_reserved(entry);
        apply_over(&self.base, &mut self.tables, entry);
    }

    /// Moves all entries into the base, which keeps what is pending, the series of the event handled last,
    /// what is live, the counts, and the turn that was taken last. It takes no memory, since `reserve` makes
    /// the room for it; and it gives the room of the entries back.
    #[tactic(auto, using(crate::proofs::Validity::lived_on))]
    pub fn fold(&mut self)
        ensures folds { Folds self.old self.new }
        ensures room { KeepsRoom self.old self.new }
        ensures given { self.new.room ≡ self.old.room + length self.old.entries }
    {
        self.mark = last_mark(self.mark, &self.entries);
        fold_into(&mut self.base, &self.tables);
        self.entries.clear();
    }

    /// Gives back the memory of the journal and its base but for what it holds and for so many entries more.
    /// At want of memory for the smaller blocks it is as it was.
    pub fn trim(&mut self, entries: usize) -> Result<(), NoMemory>
        ensures same { IsSameLog self.old self.new }
        ensures ok { OnOk result (IsTrimmed entries self.old self.new) }
        ensures err { OnErr result (self.new ≡ self.old) }
    {
        let places = self.entries.len().saturating_add(entries);
        let (base, tables) = fitted_over(&self.base, &self.tables)?;
        shrink_moved(&mut self.entries, places)?;
        self.base = base;
        self.tables = tables;
        Ok(())
    }

    /// The entries since the base, in order. Each was allowed where it stands.
    pub fn entries(&self) -> &[Entry]
        ensures entries { result.now ≡ self.now.entries }
        ensures lawful { IsLawful self.now.base.state result.now }
        ensures state { self.now.state ≡ replay self.now.base.state result.now }
    {
        &self.entries
    }

    /// How many events were set in all, before the base too, and what became of them.
    pub fn counts(&self) -> Counts
        ensures counts { result ≡ counts_of self.now.state }
        ensures balance { result.set ≡ result.handled + result.cancelled + result.dropped + result.pending }
    {
        Counts {
            set: self.tables.set_count,
            handled: self.tables.handled_count,
            cancelled: self.tables.cancelled_count,
            dropped: self.tables.dropped_count,
            pending: self.tables.pending.len() as u64,
        }
    }

    /// The event of a number, if it is pending.
    #[tactic(auto, using(crate::proofs::Events::is_known_if))]
    pub fn event(&self, number: u64) -> Option<Pending>
        ensures event { result ≡ pending_at number self.now.state.pending }
        ensures known { IfSome result (λ p. IsKnown self.now.state number p) }
    {
        event_at(&self.tables.pending, number)
    }

    /// The pending events, by rising number.
    pub fn pending(&self) -> &[Pending]
        ensures { result.now ≡ self.now.state.pending }
    {
        &self.tables.pending
    }

    /// The keys that are live, in the order in which they were made.
    pub fn live(&self) -> &[ContKey]
        ensures { result.now ≡ self.now.state.live }
    {
        &self.tables.live
    }

    /// Whether a key is live.
    pub fn is_live(&self, key: ContKey) -> bool
        ensures { IsTrue result ↔ IsLive self.now.state.live key }
    {
        match generation_of(&self.tables.live, key.index) {
            Some(generation) => generation == key.generation,
            None => false,
        }
    }

    /// The generation under which an index is live.
    pub fn generation(&self, index: u32) -> Option<u64>
        ensures { result ≡ generation_at index self.now.state.live }
    {
        generation_of(&self.tables.live, index)
    }

    /// The generation under which an index was given away last.
    pub fn newest_generation(&self, index: u32) -> Option<u64>
        ensures { result ≡ generation_at index self.now.state.newest }
    {
        generation_of(&self.tables.newest, index)
    }

    /// The number of the turn that was recorded last.
    pub fn turns(&self) -> u64
        ensures { result ≡ self.now.state.turns }
    {
        self.tables.turns
    }

    /// The number of turns with which the journal was made.
    pub fn made(&self) -> u64
        ensures { result ≡ self.now.base.made }
    {
        self.made
    }

    /// Whether the turn that was recorded last is still held.
    pub fn is_held(&self) -> bool
        ensures { result ≡ self.now.state.held }
    {
        self.tables.held
    }

    /// The number of the event that is set next.
    pub fn next(&self) -> u64
        ensures { result ≡ self.now.state.next }
    {
        self.tables.next
    }

    /// What holds of the state of every journal.
    #[tactic(auto, using(crate::proofs::Validity::lived_on))]
    pub fn known(&self)
        ensures valid_base { IsValid self.now.base.state }
        ensures valid { IsValid self.now.state }
        ensures lived { HasLived self.now.base.made self.now.state }
        ensures lived_base { HasLived self.now.base.made self.now.base.state }
    {
        let _ = &self.tables;
    }
}
