//! Room in a journal beside that for the entries which close, destroy and give back all.

ghost use Rattle.std.specs.Prelude.{◌≡◌, ◌+◌, ◌≤◌, OnOk};
ghost use Rattle.ts_journal.specs.Log.{IsSameLog, KeepsRoom};
ghost use Rattle.ts_group.specs.Context.{HasSpare};

use ts_journal::Journal;
use ts_link::NoMemory;

/// Makes room for so many entries more than those that are always needed.
pub fn spare(journal: &mut Journal, more: usize) -> Result<(), NoMemory>
    ensures same { IsSameLog journal.old journal.new }
    ensures kept { KeepsRoom journal.old journal.new }
    ensures ok { OnOk result (HasSpare journal.new more) }
{
    let Some(standing) = journal.pending().len().checked_add(journal.live().len()) else {
        return Err(NoMemory);
    };
    let Some(with_turn) = standing.checked_add(1) else {
        return Err(NoMemory);
    };
    let Some(entries) = with_turn.checked_add(more) else {
        return Err(NoMemory);
    };
    if let Err(_) = journal.reserve(entries) {
        return Err(NoMemory);
    }
    Ok(())
}
