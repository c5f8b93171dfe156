//! Bytes go from one buffer into another in the blocks in which they stand, where that is possible.
ghost use Rattle.std.specs.Prelude.{◌≡◌, length, take, min, IsTrue, IfOk, OnErr};
ghost use Rattle.ts_iobuf.specs.Buffer.{GrowsBy, is_reader, readable};

use ts_iobuf::{IoBuffer, ReaderId};
use ts_link::NoMemory;

/// Adds what a reader can read, or the first `most` bytes of that where there are more, behind the bytes of
/// another buffer, and answers how many bytes these are.
pub fn share(
    input: &IoBuffer,
    reader: ReaderId,
    most: usize,
    out: &mut IoBuffer,
) -> Result<usize, NoMemory>
    requires { IsTrue (is_reader input.now reader) }
    ensures count { IfOk result (λ n. n ≡ min most (length (readable input.now reader))) }
    ensures grows { IfOk result (λ n. GrowsBy out.old out.new (take n (readable input.now reader))) }
    ensures err { OnErr result (out.new ≡ out.old) }
{
    out.copy_from(input, reader, most, 0)
}
