//! A link in memory.
ghost use Rattle.std.specs.Prelude.{◌≡◌, ◌<◌, ◌≤◌, ◌++◌, [], length, take, true, ⊤};
ghost use Rattle.ts_link.specs.Counts.{greatest, one_more_if};
ghost use Rattle.ts_link.specs.Inputs.{after_next, bytes_of, next_answer};
ghost use Rattle.ts_link.specs.InputView.{IsSoundInput, seen_cut, seen_pieces};
ghost use Rattle.ts_link.specs.Link.{Reads, WaitsAtStalls, Writes, all_of};
ghost use Rattle.ts_link.specs.LinkAnswers.{count_put, got_again, got_bytes};
ghost use Rattle.ts_link.specs.MemLink.{IsPut, after_by, after_read, after_write, at_most, fresh_link, input_of, less, look_of, plan_of, read_answer, read_by, write_answer, write_by};
ghost use Rattle.ts_link.specs.Numbered.{mishap_at, no_calls};

use crate::cut_input::CutInput;
use crate::input::MemInput;
use crate::link::{Got, Link, Put, Sourced};
use crate::numbered::{Mishap, NumberedCalls};
use crate::octets::Octets;
use crate::piece::Piece;
use crate::piece_input::PieceInput;
use std::alloc::Global;
use std::marker::Model;

/// A link in memory: it gives its input in pieces, keeps what it takes, and fails or waits exactly where it
/// was told to.
#[derive(Drop)]
pub struct MemLink {
    input: MemInput,
    written: Vec<u8>,
    take: usize,
    // How many more bytes it takes before it leaves, if it does.
    may_take: Option<u64>,
    reads: NumberedCalls,
    writes: NumberedCalls,
    faults: u64,
    waits: u64,
    name: u64,
}

impl Model for MemLink {
    ghost use Rattle.ts_link.specs.MemLink.{LinkState};

    ghost Value = { LinkState };

    ghost use Rattle.std.specs.Prelude.{◌≤◌};
    ghost use Rattle.ts_link.specs.MemLink.{input_of};

    ghost view = { λ s. record {
      input = input_of s.input;
      taken = s.written.items;
      most = s.take;
      may_take = s.may_take;
      reads = s.reads;
      writes = s.writes;
      faults = s.faults;
      waits = s.waits;
      name = s.name;
    } };

    ghost invariant = { λ s. 1 ≤ s.take };
}

impl MemLink {
    /// A link that gives its input in pieces of the lengths `cuts` and the rest as one last piece, and takes
    /// at most `take` bytes a write. The read and write calls of the numbers in the first two lists fail, and
    /// of the others those in the last two lists wait; reads and writes are numbered apart, from 1. Its name
    /// is 0.
    pub fn make(
        alloc: Global,
        input: Octets,
        cuts: Vec<u32>,
        take: usize,
        fail_reads: Vec<u64>,
        fail_writes: Vec<u64>,
        again_reads: Vec<u64>,
        again_writes: Vec<u64>,
    ) -> MemLink
        requires { 1 ≤ take }
        ensures made { result ≡ fresh_link (seen_cut 0 cuts.items input input) take None
            (no_calls fail_reads.items again_reads.items) (no_calls fail_writes.items again_writes.items) }
        ensures left { bytes_of result.input.ahead ≡ input }
    {
        MemLink {
            input: MemInput::Cut(CutInput::make(input, cuts)),
            written: Vec::new(alloc),
            take,
            may_take: None,
            reads: NumberedCalls::make(fail_reads, again_reads),
            writes: NumberedCalls::make(fail_writes, again_writes),
            faults: 0,
            waits: 0,
            name: 0,
        }
    }

    /// A link that gives these pieces one after the other, with their stalls, and takes each piece whole.
    /// Where it leaves it takes at most `leave` bytes in all, and each write after that fails. No other call
    /// fails, and none but the reads of a stall waits. Its name is 0.
    pub fn of_pieces(alloc: Global, pieces: Vec<Piece>, leave: Option<u64>) -> MemLink
        ensures made { result ≡ fresh_link (seen_pieces 0 0 pieces.items) usize.MAX leave
            (no_calls [] []) (no_calls [] []) }
        ensures left { bytes_of result.input.ahead ≡ bytes_of pieces.items }
        ensures plan { (plan_of result).leave ≡ leave }
    {
        MemLink {
            input: MemInput::Pieces(PieceInput::make(pieces)),
            written: Vec::new(alloc),
            take: usize::MAX,
            may_take: leave,
            reads: NumberedCalls::make(Vec::new(alloc), Vec::new(alloc)),
            writes: NumberedCalls::make(Vec::new(alloc), Vec::new(alloc)),
            faults: 0,
            waits: 0,
            name: 0,
        }
    }

    /// What it took, in order.
    pub fn written(&self) -> &[u8]
        ensures { result.now ≡ self.now.taken }
    {
        self.written.as_slice()
    }

    /// How many answers were `Again`. The count stays at the greatest `u64`.
    pub fn waits(&self) -> u64
        ensures { result ≡ self.now.waits }
    {
        self.waits
    }

    /// Gives it another name.
    pub fn set_name(&mut self, name: u64)
        ensures { self.new ≡ record self.old { name = name } }
    {
        self.name = name;
    }
}

// Gives as much of the next piece as there is room for.
fn give(input: &mut MemInput, into: &mut [u8]) -> Got
    requires { 0 < length into.old }
    ensures answer { result ≡ next_answer (length into.old) (input_of input.old).ahead }
    ensures ahead { input_of input.new ≡ after_next (input_of input.old) (length into.old) }
    ensures bytes { got_bytes result into.new ≡ got_bytes result (bytes_of (input_of input.old).ahead) }
    ensures sound { IsSoundInput (input_of input.old) }
{
    match input {
        MemInput::Cut(cut) => cut.give(into),
        MemInput::Pieces(pieces) => pieces.give(into),
    }
}

// A read at which so much goes wrong.
fn read_by(mishap: Mishap, input: &mut MemInput, into: &mut [u8]) -> Got
    requires { 0 < length into.old }
    ensures answer { result ≡ read_by mishap (length into.old) (input_of input.old).ahead }
    ensures ahead { input_of input.new ≡ after_by mishap (length into.old) (input_of input.old) }
    ensures bytes { got_bytes result into.new ≡ got_bytes result (bytes_of (input_of input.old).ahead) }
    ensures sound { mishap ≡ Mishap.Nothing → IsSoundInput (input_of input.old) }
{
    match mishap {
        Mishap::Fails => Got::Failed,
        Mishap::Waits => Got::Again,
        Mishap::Nothing => give(input, into),
    }
}

// A write at which so much goes wrong, of at most so many bytes.
fn write_by(mishap: Mishap, most: usize, written: &mut Vec<u8>, piece: &[u8]) -> Put
    requires { most ≤ length piece.now }
    ensures answer { IsPut result (write_by mishap most) }
    ensures taken { written.new.items ≡ written.old.items ++ take (count_put result) piece.now }
{
    match mishap {
        Mishap::Fails => Put::Failed,
        Mishap::Waits => Put::Again,
        Mishap::Nothing => append(most, written, piece),
    }
}

// Appends so many bytes of the piece's front. To append none is a failure.
fn append(most: usize, written: &mut Vec<u8>, piece: &[u8]) -> Put
    requires { most ≤ length piece.now }
    ensures answer { IsPut result (write_by Mishap.Nothing most) }
    ensures taken { written.new.items ≡ written.old.items ++ take (count_put result) piece.now }
{
    if most == 0 {
        return Put::Failed;
    }
    let Ok(()) = written.extend_from_slice(&piece[..most]) else {
        return Put::NoMemory;
    };
    Put::Took(most)
}

// The lesser of both, where there is one.
fn at_most(most: Option<u64>, n: usize) -> usize
    ensures value { result ≡ at_most most n }
    ensures within { result ≤ n }
{
    match most {
        Some(most) => (n as u64).min(most) as usize,
        None => n,
    }
}

// What is left of it, where it is told.
fn less(most: Option<u64>, n: usize) -> Option<u64>
    ensures { result ≡ less n most }
{
    match most {
        Some(most) => Some(most.saturating_sub(n as u64)),
        None => None,
    }
}

// Counts one, if it is so.
fn count_if(counts: bool, count: &mut u64)
    ensures { count.new ≡ one_more_if counts count.old }
{
    if counts {
        *count = count.saturating_add(1);
    }
}

// One read, with all that is known of it.
fn read_once(link: &mut MemLink, into: &mut [u8]) -> Got
    requires { 0 < length into.old }
    ensures answer { result ≡ read_answer link.old (length into.old) }
    ensures after { link.new ≡ after_read link.old (length into.old) result }
    ensures bytes { got_bytes result into.new ≡ got_bytes result (bytes_of link.old.input.ahead) }
    ensures sound { mishap_at link.old.reads ≡ Mishap.Nothing → IsSoundInput link.old.input }
    ensures calls { link.old.reads.made ≤ greatest }
    ensures faults { link.old.faults ≤ greatest }
    ensures waits { link.old.waits ≤ greatest }
{
    let got = read_by(link.reads.mishap(), &mut link.input, into);
    link.reads.count();
    count_if(got.is_failed(), &mut link.faults);
    count_if(got.is_again(), &mut link.waits);
    got
}

// One write, with all that is known of it.
fn write_once(link: &mut MemLink, piece: &[u8]) -> Put
    ensures answer { IsPut result (write_answer link.old (length piece.now)) }
    ensures after { link.new ≡ after_write link.old piece.now result }
    ensures most { 1 ≤ link.old.most }
    ensures calls { link.old.writes.made ≤ greatest }
    ensures faults { link.old.faults ≤ greatest }
    ensures waits { link.old.waits ≤ greatest }
{
    let most = at_most(link.may_take, link.take.min(piece.len()));
    match write_by(link.writes.mishap(), most, &mut link.written, piece) {
        Put::Took(count) => {
            link.may_take = less(link.may_take, count);
            link.writes.count();
            Put::Took(count)
        }
        Put::Again => {
            link.writes.count();
            link.waits = link.waits.saturating_add(1);
            Put::Again
        }
        Put::Failed => {
            link.writes.count();
            link.faults = link.faults.saturating_add(1);
            Put::Failed
        }
        Put::NoMemory => Put::NoMemory,
    }
}

impl Link for MemLink {
    ghost tells = { true };

    ghost look = { look_of };

    ghost goes = { λ a b. ⊤ };

    ghost still = { λ a b. ⊤ };

    fn read(&mut self, into: &mut [u8]) -> Got
        requires { 0 < length into.old }
        ensures reads { Reads true (look_of self.old) (look_of self.new) result into.new }
        ensures goes { ⊤ }
        ensures answer { result ≡ read_answer self.old (length into.old) }
        ensures after { self.new ≡ after_read self.old (length into.old) result }
        ensures stalls { WaitsAtStalls (look_of self.old) (got_again result) }
    {
        read_once(self, into)
    }

    fn write(&mut self, piece: &[u8]) -> Put
        requires { 0 < length piece.now }
        ensures writes { Writes true (look_of self.old) (look_of self.new) result piece.now }
        ensures goes { ⊤ }
        ensures answer { IsPut result (write_answer self.old (length piece.now)) }
        ensures after { self.new ≡ after_write self.old piece.now result }
    {
        write_once(self, piece)
    }

    fn faults(&self) -> u64 {
        self.faults
    }

    ghost stays = { λ l. tt };

    ghost goes_on = { λ l m n g h. tt };

    ghost goes_still = { λ l m g. tt };

    ghost still_on = { λ l m n g h. tt };
}

impl Sourced for MemLink {
    // What it gave and may still give are all that it was made with.
    fn known(&self)
        ensures { all_of (look_of self.now) ≡ (look_of self.now).source }
    {
        match &self.input {
            MemInput::Cut(cut) => cut.known(),
            MemInput::Pieces(pieces) => pieces.known(),
        }
    }
}
