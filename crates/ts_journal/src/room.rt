//! Room in lists that grow in a turn, whatever thread took the memory that they have.

ghost use Rattle.std.specs.Prelude.{◌≡◌, ◌+◌, ◌≤◌, min, IfOk, OnOk, OnErr};
ghost use Rattle.std.specs.Vec.{vec_len, vec_capacity};

use crate::entry::NoMemory;

/// Makes room for so many more items. Where that takes memory, the items are copied into a block of the
/// thread that calls: to lengthen a block in place waits for all threads that use the memory it came from.
pub fn reserve_moved<T: Copy>(list: &mut Vec<T>, more: usize) -> Result<(), NoMemory>
    ensures items { list.new.items ≡ list.old.items }
    ensures ok { OnOk result (vec_len list.new + more ≤ vec_capacity list.new) }
    ensures kept { vec_capacity list.old ≤ vec_capacity list.new }
{
    if more <= list.capacity() - list.len() {
        return Ok(());
    }
    let Some(needed) = list.len().checked_add(more) else {
        return Err(NoMemory);
    };
    let room = needed.max(list.capacity().saturating_mul(2));
    let mut moved = Vec::with_capacity(*list.allocator(), room)?;
    moved.extend_from_slice(list)?;
    *list = moved;
    Ok(())
}

/// The same, but that a list which has no memory yet gets room for so many items at least.
pub fn reserve_least<T: Copy>(list: &mut Vec<T>, more: usize, least: usize) -> Result<(), NoMemory>
    ensures items { list.new.items ≡ list.old.items }
    ensures ok { OnOk result (vec_len list.new + more ≤ vec_capacity list.new) }
    ensures kept { vec_capacity list.old ≤ vec_capacity list.new }
{
    if list.capacity() == 0 {
        return reserve_moved(list, more.max(least));
    }
    reserve_moved(list, more)
}

/// The items of a list in a block of the thread that calls, with room for so many in all.
pub fn moved<T: Copy>(list: &Vec<T>, places: usize) -> Result<Vec<T>, NoMemory>
    requires { vec_len list.now ≤ places }
    ensures items { IfOk result (λ moved. moved.items ≡ list.now.items) }
    ensures exact { IfOk result (λ moved. vec_capacity moved ≡ places) }
{
    let mut moved = Vec::with_capacity(*list.allocator(), places)?;
    for item in list {
        moved.push_reserved(*item);
    }
    Ok(moved)
}

/// Gives back the memory of a list but for so many items in all: those that stay are moved as `reserve_moved`
/// moves them. At want of memory for the smaller block the list is as it was.
pub fn shrink_moved<T: Copy>(list: &mut Vec<T>, places: usize) -> Result<(), NoMemory>
    requires { vec_len list.old ≤ places }
    ensures items { list.new.items ≡ list.old.items }
    ensures ok { OnOk result (vec_capacity list.new ≡ min places (vec_capacity list.old)) }
    ensures err { OnErr result (list.new ≡ list.old) }
{
    if list.capacity() <= places {
        return Ok(());
    }
    *list = moved(list, places)?;
    Ok(())
}
