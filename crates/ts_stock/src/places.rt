//! The places of a byte in a block of 64 bytes are the bits of a number.
ghost use Rattle.std.specs.Prelude.{◌≡◌, ◌≢◌, ◌↔◌, ℕ, ◌<◌, length};
ghost use Rattle.std.specs.Int.{bit_at};
ghost use Rattle.ts_stock.specs.Dropping.{ArePlaces, block_len};

use std::simd::prelude::*;

/// How many bytes are searched at once.
pub const BLOCK: usize = 64;

/// The places of the byte in a block: bit k is that of place k.
pub fn places_in(block: &[u8], byte: u8) -> u64
    requires { length block.now ≡ block_len }
    ensures { ArePlaces byte block.now result }
{
    u8x64::from_slice(block)
        .simd_eq(u8x64::splat(byte))
        .to_bitmask()
}

/// The first of the places.
pub fn first_of(places: u64) -> usize
    requires { places ≢ 0 }
    ensures within { result < block_len }
    ensures there { bit_at places result ≡ 1 }
    ensures first { (k : ℕ) → k < result → bit_at places k ≢ 1 }
{
    places.trailing_zeros() as usize
}

/// The places but for one of them.
pub fn less(places: u64, place: usize) -> u64
    requires within { place < block_len }
    requires there { bit_at places place ≡ 1 }
    ensures fewer { result < places }
    ensures others { (k : ℕ) → (bit_at result k ≡ 1) ↔ ((bit_at places k ≡ 1) × (k ≢ place)) }
{
    places & !(1 << place)
}
