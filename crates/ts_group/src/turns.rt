//! Turns in a journal: how one begins and how it is given back.

ghost use Rattle.std.specs.Prelude.{◌≡◌, ◌<◌, ◌≤◌, true, false, [], ◌∷◌, ◌++◌, IsTrue, ◌↔◌, OnOk, OnErr};
ghost use Rattle.ts_journal.specs.declared.entry.Entry.TheVariants as Entry;
ghost use Rattle.ts_journal.specs.Machine.{after};
ghost use Rattle.ts_journal.specs.Log.{Extends, GoesOn, IsSameLog, KeepsRoom};
ghost use Rattle.ts_group.specs.Context.{HasNeeded, HasEnded};
ghost use Rattle.ts_group.specs.Changes.{CallsStay};
ghost use Rattle.ts_group.specs.Slot.{stored_of};

use crate::reserve::spare;
use ts_journal::{Entry, Journal};
use ts_link::NoMemory;

/// A journal that stores so many entries or more when a turn is given back is folded.
pub const MOST_STORED: usize = 4096;

/// Enters that a seat took the mutex.
#[tactic(auto, using(crate::proofs::Room::needed_took, crate::proofs::Facts::stay_same))]
pub fn begin_turn(journal: &mut Journal, turn: u64, seat: u64) -> Result<(), NoMemory>
    requires idle { journal.old.state.held ≡ false }
    requires later { journal.old.state.turns < turn }
    requires room { HasNeeded journal.old }
    ensures ok { OnOk result (Extends journal.old journal.new (Entry.Took turn seat ∷ [])) }
    ensures state { OnOk result (journal.new.state ≡ after journal.old.state (Entry.Took turn seat)) }
    ensures room { HasNeeded journal.new }
    ensures live { journal.new.state.live ≡ journal.old.state.live }
    ensures err { OnErr result (IsSameLog journal.old journal.new) }
{
    if let Err(_) = spare(journal, 2) {
        return Err(NoMemory);
    }
    journal.push(Entry::Took { turn, seat });
    Ok(())
}

// Folds a journal that stores many entries.
#[tactic(auto, using(ts_journal::proofs::Folding::goes_on_folds, ts_journal::proofs::Folding::goes_on_same))]
fn fold_full(journal: &mut Journal)
    ensures on { GoesOn journal.old journal.new [] }
    ensures entries { journal.new.entries ≡ stored_of journal.old.entries }
    ensures state { journal.new.state ≡ journal.old.state }
    ensures room { KeepsRoom journal.old journal.new }
{
    if journal.entries().len() >= MOST_STORED {
        journal.fold();
    }
}

// Enters that the mutex was given back.
#[tactic(auto, using(crate::proofs::Slots::give_steps))]
fn enter_gave(journal: &mut Journal)
    requires turn { journal.old.state.held ≡ true }
    requires room { HasNeeded journal.old }
    ensures given { GoesOn journal.old journal.new (Entry.Gave journal.old.state.turns ∷ []) }
    ensures entries { journal.new.entries
        ≡ stored_of (journal.old.entries ++ Entry.Gave journal.old.state.turns ∷ []) }
    ensures state { journal.new.state ≡ after journal.old.state (Entry.Gave journal.old.state.turns) }
    ensures room { HasNeeded journal.new }
    ensures live { journal.new.state.live ≡ journal.old.state.live }
    ensures stay { CallsStay journal.old.state journal.new.state }
{
    let turn = journal.turns();
    journal.push(Entry::Gave { turn });
    fold_full(journal);
}

// The entries that a group needs at most which has ended: one destroys its own key, one gives a turn back.
const MOST_NEEDED_AT_END: usize = 2;

// The places that a turn of a group which has ended asks for, and one more.
const LEAST_KEPT: usize = 5;

// A group that has ended keeps a place more for each so many entries that it stores.
const STORED_FOR_ONE: usize = 8;

// Whether a group has ended.
fn has_ended(journal: &Journal) -> bool
    ensures { IsTrue result ↔ HasEnded journal.now }
{
    journal.pending().is_empty()
        && journal.live().len() <= 1
        && journal.newest_generation(0).is_some()
}

// For how many entries a group that has ended keeps room beside those that it stores. Turns that find it ended
// so copy what it stores at every so many entries alone, and not each of them.
fn kept_at_end(stored: usize) -> usize
    ensures { MOST_NEEDED_AT_END ≤ result }
{
    LEAST_KEPT + stored / STORED_FOR_ONE
}

// Gives back the memory of a group that has ended, but that of its entries. At want of memory for the smaller
// blocks nothing is given back.
#[tactic(auto, using(crate::proofs::Room::needed_ended))]
fn trim_ended(journal: &mut Journal)
    ensures same { IsSameLog journal.old journal.new }
    ensures room { HasNeeded journal.old → HasNeeded journal.new }
{
    if has_ended(journal) {
        let kept = kept_at_end(journal.entries().len());
        let _given_back = journal.trim(kept);
    }
}

/// Enters that the mutex was given back. It cannot lack memory.
#[tactic(auto, using(crate::proofs::Slots::give_steps, ts_journal::proofs::Folding::goes_on_same))]
pub fn give_turn(journal: &mut Journal)
    requires turn { journal.old.state.held ≡ true }
    requires room { HasNeeded journal.old }
    ensures given { GoesOn journal.old journal.new (Entry.Gave journal.old.state.turns ∷ []) }
    ensures entries { journal.new.entries
        ≡ stored_of (journal.old.entries ++ Entry.Gave journal.old.state.turns ∷ []) }
    ensures state { journal.new.state ≡ after journal.old.state (Entry.Gave journal.old.state.turns) }
    ensures room { HasNeeded journal.new }
    ensures live { journal.new.state.live ≡ journal.old.state.live }
    ensures stay { CallsStay journal.old.state journal.new.state }
{
    enter_gave(journal);
    trim_ended(journal);
}
