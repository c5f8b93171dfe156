//! Keys in a journal and their roles: how a continuation is made and destroyed.

ghost use Rattle.std.specs.Prelude.{◌≡◌, ℕ, ◌+◌, ◌<◌, ◌≤◌, true, [], ◌∷◌, None, IfSome, List, length, remove};
ghost use Rattle.ts_journal.specs.declared.entry.Entry.TheVariants as Entry;
ghost use Rattle.ts_journal.specs.State.{numbers_of, same_key};
ghost use Rattle.ts_group.specs.Context.{IsKept, CanUse, role_at, without_role};
ghost use Rattle.ts_group.specs.Entries.{GrowsLog};
ghost use Rattle.ts_group.specs.Changes.{CallsStay};
ghost use Rattle.ts_group.specs.Acts.{Makes, Destroys, Drops, IsFreeKey};

use crate::action::{Destroy, MakeFault, Named};
use crate::reserve::spare;
use ts_journal::{ContKey, Entry, GREATEST, Journal, MOST_KEYS, Pending, reserve_moved};

/// The key of the continuation that a group is made with. It has the index that is given away last.
pub const OWN_KEY: ContKey = ContKey {
    index: MOST_KEYS - 1,
    generation: 1,
};

// The key that is made next: the least index that is not live and can be given away again.
fn free_key(journal: &Journal) -> Option<ContKey>
    ensures free { IfSome result (λ key. IsFreeKey journal.now.state key) }
    ensures least { IfSome result (λ key. (i : ℕ) → i < key.index → CanUse journal.now.state i → ⊥) }
    ensures full { result ≡ None → (i : ℕ) → i < MOST_KEYS → CanUse journal.now.state i → ⊥ }
{
    for index in 0..MOST_KEYS {
        if let None = journal.generation(index) {
            let newest = journal.newest_generation(index).unwrap_or(0);
            if newest < GREATEST {
                return Some(ContKey {
                    index,
                    generation: newest + 1,
                });
            }
        }
    }
    None
}

/// Makes a key and keeps its role.
#[tactic(auto, using(crate::proofs::Acts::can_use))]
pub fn make_key(
    journal: &mut Journal,
    roles: &mut Vec<Named>,
    role: u32,
) -> Result<ContKey, MakeFault>
    requires turn { journal.old.state.held ≡ true }
    requires kept { IsKept journal.old roles.old.items }
    ensures makes { Makes journal.old journal.new roles.old.items roles.new.items result role }
    ensures kept { IsKept journal.new roles.new.items }
    ensures stay { CallsStay journal.old.state journal.new.state }
    ensures grows { GrowsLog journal.old journal.new }
{
    let Some(key) = free_key(journal) else {
        return Err(MakeFault::TableFull);
    };
    if let Err(_) = spare(journal, 2) {
        return Err(MakeFault::NoMemory);
    }
    if let Err(_) = reserve_moved(roles, 1) {
        return Err(MakeFault::NoMemory);
    }
    journal.push(Entry::Made { key });
    roles.push_reserved(Named { key, role });
    Ok(key)
}

// The number of the first pending event of a key.
#[tactic(auto, using(crate::proofs::Scans::numbers_past, crate::proofs::Scans::numbers_here))]
fn first_number(pending: &[Pending], key: ContKey) -> Option<u64>
    ensures none { result ≡ None → numbers_of key pending.now ≡ [] }
    ensures found { IfSome result (λ n. (rest : List ℕ) × (numbers_of key pending.now ≡ n ∷ rest)) }
{
    for event in pending {
        if is_same(event.key, key) {
            return Some(event.number);
        }
    }
    None
}

/// Whether two keys are one.
pub fn is_same(a: ContKey, b: ContKey) -> bool
    ensures { result ≡ same_key a b }
{
    a.index == b.index && a.generation == b.generation
}

// Drops each pending event of a key, in the order of their numbers.
fn drop_events(journal: &mut Journal, key: ContKey)
    requires turn { journal.old.state.held ≡ true }
    requires room { length journal.old.state.pending ≤ journal.old.room }
    ensures drops { Drops journal.old journal.new key }
    ensures room { journal.old.room + length journal.new.state.pending
        ≤ journal.new.room + length journal.old.state.pending }
{
    journal.known();
    while let Some(number) = first_number(journal.pending(), key) {
        journal.push(Entry::Dropped { number });
        journal.known();
    }
}

/// Destroys a key, with its pending events and its role.
pub fn destroy_key(journal: &mut Journal, roles: &mut Vec<Named>, key: ContKey) -> Destroy
    requires turn { journal.old.state.held ≡ true }
    requires kept { IsKept journal.old roles.old.items }
    ensures destroys { Destroys journal.old journal.new roles.old.items roles.new.items result key }
    ensures kept { IsKept journal.new roles.new.items }
    ensures stay { CallsStay journal.old.state journal.new.state }
    ensures grows { GrowsLog journal.old journal.new }
{
    if !journal.is_live(key) {
        return Destroy::Dead;
    }
    journal.known();
    drop_events(journal, key);
    journal.push(Entry::Destroyed { key });
    remove_role(roles, key.index);
    Destroy::Gone
}

// Removes the role of the key of an index.
fn remove_role(roles: &mut Vec<Named>, index: u32)
    ensures { roles.new.items ≡ without_role index roles.old.items }
{
    if let Some(i) = find_role(roles, index) {
        let _role = roles.remove(i);
    }
}

// Where the role of the key of an index stands.
#[tactic(auto, using(crate::proofs::Scans::without_role_past, crate::proofs::Scans::without_role_here))]
fn find_role(roles: &[Named], index: u32) -> Option<usize>
    ensures below { IfSome result (λ i. i < length roles.now) }
    ensures found { IfSome result (λ i. remove roles.now i ≡ without_role index roles.now) }
    ensures same { result ≡ None → without_role index roles.now ≡ roles.now }
{
    for (i, role) in roles.iter().enumerate() {
        if role.key.index == index {
            return Some(i);
        }
    }
    None
}

/// The role of the key of an index.
#[tactic(auto, using(crate::proofs::Scans::role_past, crate::proofs::Scans::role_here))]
pub fn role_of(roles: &[Named], index: u32) -> Option<u32>
    ensures { result ≡ role_at index roles.now }
{
    for role in roles {
        if role.key.index == index {
            return Some(role.role);
        }
    }
    None
}
