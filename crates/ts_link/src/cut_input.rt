//! One list of bytes that a link in memory gives in pieces of stated lengths.
ghost use Rattle.std.specs.Prelude.{◌≡◌, ℕ, List, ◌+◌, ◌∷◌, [], ◌<◌, ◌≤◌, length, take, drop, map};
ghost use Rattle.ts_link.specs.Inputs.{after_next, bytes_of, next_answer, next_ahead};
ghost use Rattle.ts_link.specs.InputView.{IsSoundInput, cut_ahead, front_cut, seen_cut};
ghost use Rattle.ts_link.specs.LinkAnswers.{got_bytes};

use crate::copying::copy_front;
use crate::link::Got;
use crate::octets::Octets;
use std::marker::Model;

/// Bytes of which those from `at` on are ahead: the next `piece` of them in the piece that was begun, and
/// then in pieces of the lengths from `next` on; the rest is one last piece.
#[derive(Drop)]
pub struct CutInput {
    bytes: Octets,
    at: usize,
    piece: usize,
    cuts: Vec<u32>,
    next: usize,
}

impl Model for CutInput {
    ghost use Rattle.ts_link.specs.Inputs.{Input};

    ghost Value = { Input };

    ghost use Rattle.std.specs.Prelude.{drop, length, ◌≤◌};
    ghost use Rattle.ts_link.specs.InputView.{seen_cut};

    ghost view = { λ c. seen_cut c.piece (drop c.next c.cuts.items) (drop c.at c.bytes) c.bytes };

    ghost invariant = { λ c. c.at ≤ length c.bytes };
}

// Goes on to the next piece that is not empty, where one more is cut.
fn begin_piece(cuts: &[u32], next: &mut usize, piece: &mut usize)
    ensures same { (rest : List ℕ) → cut_ahead piece.new (drop next.new cuts.now) rest
        ≡ cut_ahead piece.old (drop next.old cuts.now) rest }
    ensures begun { piece.new ≡ 0 → drop next.new cuts.now ≡ [] }
{
    while *piece == 0 && *next < cuts.len() {
        *piece = cuts[*next] as usize;
        *next += 1;
    }
}

// What is left of the piece that was begun, or of all the bytes where none is.
fn front_of(bytes: &[u8], at: usize, piece: usize) -> &[u8]
    requires { at ≤ length bytes.now }
    ensures { result.now ≡ front_cut piece (drop at bytes.now) }
{
    let (_, rest) = bytes.split_at(at);
    if piece == 0 {
        return rest;
    }
    rest.split_at(piece.min(rest.len())).0
}

// Gives the front of the piece that is begun.
fn give_front(
    bytes: &[u8],
    at: &mut usize,
    cuts: &[u32],
    next: &mut usize,
    piece: &mut usize,
    into: &mut [u8],
) -> Got
    requires within { at.old ≤ length bytes.now }
    requires room { 0 < length into.old }
    ensures answer { result ≡ next_answer (length into.old)
        (cut_ahead piece.old (drop next.old cuts.now) (drop at.old bytes.now)) }
    ensures ahead { cut_ahead piece.new (drop next.new cuts.now) (drop at.new bytes.now)
        ≡ next_ahead (length into.old)
        (cut_ahead piece.old (drop next.old cuts.now) (drop at.old bytes.now)) }
    ensures bytes { got_bytes result into.new ≡ got_bytes result (drop at.old bytes.now) }
    ensures within { at.new ≤ length bytes.now }
{
    begin_piece(cuts, next, piece);
    let front = front_of(bytes, *at, *piece);
    if front.is_empty() {
        return Got::End;
    }
    let count = copy_front(into, front);
    *at += count;
    *piece = piece.saturating_sub(count);
    Got::Bytes(count)
}

impl CutInput {
    /// These bytes in pieces of these lengths, and the rest as one last piece. Where a length is 0, or no
    /// byte is left, there is no piece.
    pub fn make(bytes: Octets, cuts: Vec<u32>) -> CutInput
        ensures { result ≡ seen_cut 0 cuts.items bytes bytes }
    {
        CutInput {
            bytes,
            at: 0,
            piece: 0,
            cuts,
            next: 0,
        }
    }

    /// What holds of every one: what was given and what is ahead are all of its bytes.
    pub fn known(&self)
        ensures { IsSoundInput self.now }
    {
        let _ = &self.bytes;
    }

    /// Gives as much of the next piece as there is room for.
    pub fn give(&mut self, into: &mut [u8]) -> Got
        requires { 0 < length into.old }
        ensures answer { result ≡ next_answer (length into.old) self.old.ahead }
        ensures ahead { self.new ≡ after_next self.old (length into.old) }
        ensures bytes { got_bytes result into.new ≡ got_bytes result (bytes_of self.old.ahead) }
        ensures sound { IsSoundInput self.old }
    {
        give_front(
            self.bytes.bytes(),
            &mut self.at,
            self.cuts.as_slice(),
            &mut self.next,
            &mut self.piece,
            into,
        )
    }
}
