//! Lists of bytes that change in the room that they have.
ghost use Rattle.std.specs.Prelude.{◌≡◌, ◌+◌, ◌≤◌, ◌++◌, length, drop};
ghost use Rattle.std.specs.Vec.{vec_len, vec_capacity};

/// Appends bytes, for which there is room.
pub(crate) fn append(list: &mut Vec<u8>, bytes: &[u8])
    requires { vec_len list.old + length bytes.now ≤ vec_capacity list.old }
    ensures items { list.new.items ≡ list.old.items ++ bytes.now }
    ensures room { vec_capacity list.old ≤ vec_capacity list.new }
{
    let Ok(()) = list.extend_from_slice(bytes) else {
        unreachable!()
    };
}

/// Takes the first `n` bytes away.
pub(crate) fn remove_front(list: &mut Vec<u8>, n: usize)
    requires { n ≤ vec_len list.old }
    ensures items { list.new.items ≡ drop n list.old.items }
    ensures room { vec_capacity list.new ≡ vec_capacity list.old }
{
    let len = list.len();
    list.as_mut_slice().copy_within(n..len, 0);
    list.truncate(len - n);
}
