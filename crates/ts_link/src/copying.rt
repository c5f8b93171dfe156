//! Copying as much as there is room for.
ghost use Rattle.std.specs.Prelude.{◌≡◌, length, take, min};

/// Copies as much of the front of the bytes as there is room for, and answers how much that is.
pub fn copy_front(into: &mut [u8], bytes: &[u8]) -> usize
    ensures count { result ≡ min (length into.old) (length bytes.now) }
    ensures front { take result into.new ≡ take result bytes.now }
{
    let count = into.len().min(bytes.len());
    into[..count].copy_from_slice(&bytes[..count]);
    count
}
