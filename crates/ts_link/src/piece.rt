//! The pieces of what a link in memory gives.
use crate::octets::Octets;

/// A part of what a link in memory gives: bytes, or so many reads that wait.
#[derive(Drop)]
pub enum Piece {
    Bytes(Octets),
    Stall(u32),
}
