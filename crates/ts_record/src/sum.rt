//! The sum of bytes, by which a summary and a tap tell of a body.
ghost use Rattle.std.specs.Prelude.{◌≡◌};
ghost use Rattle.ts_record.specs.Sum.{sum_of, sum_with};

// By what the sum is multiplied for each byte.
const SUM_FACTOR: u64 = 31;

/// The sum with one byte more: 31 times the sum, and the byte, modulo 2^64.
pub fn sum_with(sum: u64, byte: u8) -> u64
    ensures { result ≡ sum_with sum byte }
{
    sum.wrapping_mul(SUM_FACTOR).wrapping_add(u64::from(byte))
}

/// The sum with these bytes more, one after the other.
pub fn sum_of(before: u64, bytes: &[u8]) -> u64
    ensures { result ≡ sum_of before bytes.now }
{
    let mut sum = before;
    for byte in bytes {
        sum = sum_with(sum, *byte);
    }
    sum
}
