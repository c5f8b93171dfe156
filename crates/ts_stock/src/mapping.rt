//! A body with each byte of one value replaced by another goes into the room of a buffer.
ghost use Rattle.std.specs.Prelude.{◌≡◌, ◌<◌, ◌≤◌, length, take, min, IfOk, OnErr};
ghost use Rattle.ts_config.specs.Bodies.{mapped};
ghost use Rattle.ts_iobuf.specs.Buffer.{GrowsBy};

use ts_iobuf::IoBuffer;
use ts_link::NoMemory;

// Fills the front of the room with the front of the input, each byte `from` replaced by `to`. Answers how
// many bytes these are.
fn map_into(room: &mut [u8], input: &[u8], from: u8, to: u8) -> usize
    ensures count { result ≡ min (length room.old) (length input.now) }
    ensures bytes { take result room.new ≡ mapped from to (take result input.now) }
{
    let count = room.len().min(input.len());
    for i in 0..count {
        let byte = input[i];
        room[i] = if byte == from { to } else { byte };
    }
    count
}

/// Writes a front of the input with each byte `from` replaced by `to`, and answers how long that front is.
pub fn write_mapped(from: u8, to: u8, input: &[u8], out: &mut IoBuffer) -> Result<usize, NoMemory>
    requires { 0 < length input.now }
    ensures count { IfOk result (λ n. (1 ≤ n) × (n ≤ length input.now)) }
    ensures grows { IfOk result (λ n. GrowsBy out.old out.new (mapped from to (take n input.now))) }
    ensures err { OnErr result (out.new ≡ out.old) }
{
    let room = out.space();
    if room.is_empty() {
        return Err(NoMemory);
    }
    let count = map_into(room, input, from, to);
    out.produce(count);
    Ok(count)
}
