//! A limit passes the front of a body on, and drops what comes behind it.
ghost use Rattle.std.specs.Prelude.{◌≡◌, ◌-◌, ◌<◌, ◌≤◌, length, take, min, IsTrue, IfOk, OnOk, OnErr};
ghost use Rattle.ts_iobuf.specs.Buffer.{GrowsBy, is_reader, readable};
ghost use Rattle.ts_transform.specs.declared.transform.TheConstants.{MOST_FED};

use crate::sharing::share;
use ts_iobuf::{IoBuffer, ReaderId};
use ts_link::NoMemory;
use ts_transform::front_of;

// How many of so many bytes are passed on, where so many may still be.
fn passed(count: usize, left: u64) -> usize
    ensures { result ≡ min count left }
{
    if (count as u64) < left {
        count
    } else {
        left as usize
    }
}

/// Writes the front of the input that may still be passed on; the rest of the input is dropped.
pub fn pass_on(left: &mut u64, input: &[u8], out: &mut IoBuffer) -> Result<(), NoMemory>
    ensures left { OnOk result (left.new ≡ left.old - length input.now) }
    ensures grows { OnOk result (GrowsBy out.old out.new (take left.old input.now)) }
    ensures err { OnErr result ((left.new ≡ left.old) × (out.new ≡ out.old)) }
{
    let count = passed(input.len(), *left);
    let (front, _) = input.split_at(count);
    out.write(front)?;
    *left -= count as u64;
    Ok(())
}

/// Adds what a reader can read, at most `most` bytes, as far as it may still be passed on, in the blocks in
/// which it stands; where nothing may be, some of it is dropped. Answers how many bytes these are, at least
/// one.
pub fn pass_on_from(
    left: &mut u64,
    input: &IoBuffer,
    reader: ReaderId,
    most: usize,
    out: &mut IoBuffer,
) -> Result<usize, NoMemory>
    requires reader { IsTrue (is_reader input.now reader) }
    requires some { 0 < length (readable input.now reader) }
    requires most { (1 ≤ most) × (most ≤ MOST_FED) }
    ensures count { IfOk result (λ n. (1 ≤ n) × (n ≤ min most (length (readable input.now reader)))) }
    ensures left { IfOk result (λ n. left.new ≡ left.old - n) }
    ensures grows { IfOk result (λ n.
        GrowsBy out.old out.new (take left.old (take n (readable input.now reader)))) }
    ensures err { OnErr result ((left.new ≡ left.old) × (out.new ≡ out.old)) }
{
    if *left == 0 {
        return Ok(front_of(input, reader, most).len());
    }
    let count = share(input, reader, passed(most, *left), out)?;
    *left -= count as u64;
    Ok(count)
}
