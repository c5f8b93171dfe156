//! Pieces and stalls that a link in memory gives one after the other.
ghost use Rattle.std.specs.Prelude.{◌≡◌, ℕ, ◌+◌, ◌<◌, length, take, drop};
ghost use Rattle.ts_link.specs.Inputs.{after_next, bytes_of, next_answer, next_ahead};
ghost use Rattle.ts_link.specs.InputView.{IsFront, IsSoundInput, begun, is_passed, pieces_ahead, seen_pieces};
ghost use Rattle.ts_link.specs.LinkAnswers.{got_bytes};

use crate::copying::copy_front;
use crate::link::Got;
use crate::piece::Piece;
use std::marker::Model;

/// The pieces from `next` on, without the first `passed` bytes, or reads that wait, of the first one.
#[derive(Drop)]
pub struct PieceInput {
    pieces: Vec<Piece>,
    next: usize,
    passed: usize,
}

impl Model for PieceInput {
    ghost use Rattle.ts_link.specs.Inputs.{Input};

    ghost Value = { Input };

    ghost use Rattle.std.specs.Prelude.{drop, length, ◌≤◌};
    ghost use Rattle.ts_link.specs.InputView.{seen_pieces};

    ghost view = { λ p. seen_pieces p.passed p.next p.pieces.items };
}

// Whether so many bytes, or reads that wait, are all that a piece has.
fn is_passed(piece: &Piece, passed: usize) -> bool
    ensures { result ≡ is_passed piece.now passed }
{
    match piece {
        Piece::Bytes(bytes) => bytes.bytes().len() <= passed,
        Piece::Stall(reads) => *reads as usize <= passed,
    }
}

// Goes on to the next piece that is not empty.
fn begin_piece(pieces: &[Piece], next: &mut usize, passed: &mut usize)
    ensures same { pieces_ahead passed.new next.new pieces.now ≡ pieces_ahead passed.old next.old pieces.now }
    ensures front { IsFront (begun passed.new (drop next.new pieces.now)) }
{
    while *next < pieces.len() && is_passed(&pieces[*next], *passed) {
        *next += 1;
        *passed = 0;
    }
}

// Gives the front of the next piece.
fn give_front(pieces: &[Piece], next: &mut usize, passed: &mut usize, into: &mut [u8]) -> Got
    requires { 0 < length into.old }
    ensures answer { result ≡ next_answer (length into.old) (pieces_ahead passed.old next.old pieces.now) }
    ensures ahead { pieces_ahead passed.new next.new pieces.now
        ≡ next_ahead (length into.old) (pieces_ahead passed.old next.old pieces.now) }
    ensures bytes { got_bytes result into.new
        ≡ got_bytes result (bytes_of (pieces_ahead passed.old next.old pieces.now)) }
{
    begin_piece(pieces, next, passed);
    if *next >= pieces.len() {
        return Got::End;
    }
    match &pieces[*next] {
        Piece::Stall(reads) => {
            let _fits: u32 = *reads;
            *passed += 1;
            Got::Again
        }
        Piece::Bytes(bytes) => {
            let (_, rest) = bytes.bytes().split_at(*passed);
            let count = copy_front(into, rest);
            *passed += count;
            Got::Bytes(count)
        }
    }
}

impl PieceInput {
    /// These pieces. One with no bytes, or with no read that waits, is passed over.
    pub fn make(pieces: Vec<Piece>) -> PieceInput
        ensures { result ≡ seen_pieces 0 0 pieces.items }
    {
        PieceInput {
            pieces,
            next: 0,
            passed: 0,
        }
    }

    /// What holds of every one: what was given and what is ahead are all of its bytes.
    pub fn known(&self)
        ensures { IsSoundInput self.now }
    {
        let _ = &self.pieces;
    }

    /// Gives as much of the next piece as there is room for, or one read of a stall.
    pub fn give(&mut self, into: &mut [u8]) -> Got
        requires { 0 < length into.old }
        ensures answer { result ≡ next_answer (length into.old) self.old.ahead }
        ensures ahead { self.new ≡ after_next self.old (length into.old) }
        ensures bytes { got_bytes result into.new ≡ got_bytes result (bytes_of self.old.ahead) }
        ensures sound { IsSoundInput self.old }
    {
        give_front(
            self.pieces.as_slice(),
            &mut self.next,
            &mut self.passed,
            into,
        )
    }
}
