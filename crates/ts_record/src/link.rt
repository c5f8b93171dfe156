//! The two sides of a recorded transaction as links.
ghost use Rattle.std.specs.Prelude.{◌≡◌, ◌<◌, Some, length, true, false, ⊤};
ghost use Rattle.std.proofs.Common.{arith};
ghost use Rattle.std.specs.Option.{is_some};
ghost use Rattle.ts_link.specs.Inputs.{bytes_of, next_answer};
ghost use Rattle.ts_link.specs.Link.{Reads, WaitsAtStalls, Writes, all_of};
ghost use Rattle.ts_link.specs.LinkAnswers.{got_again};
ghost use Rattle.ts_link.specs.MemLink.{IsPut, after_read, after_write, look_of, write_answer};
ghost use Rattle.ts_upstream.specs.Uploads.{MovesNothing};
ghost use Rattle.ts_record.specs.Links.{GoesAsRecorded, IsNewSide, recorded_side};

use std::alloc::Global;
use std::marker::Model;
use ts_link::{Got, Link, MemLink, Piece, Put, Sourced};
use ts_upstream::{Uploaded, Upstream};

/// One side of a recorded transaction: it gives the pieces of its side, waits at the stalls between them, and
/// then gives its end. It takes all that is written to it, or so many bytes, where it leaves. No call of it
/// fails or waits but a read at a stall and a write once it has left.
#[derive(Drop)]
pub struct RecordedLink {
    link: MemLink,
    // Whether it leaves once it took as many bytes as it was made with.
    leaves: bool,
}

impl Model for RecordedLink {
    ghost use Rattle.ts_link.specs.MemLink.{LinkState};

    ghost Value = { LinkState };

    ghost use Rattle.std.specs.Option.{is_some};
    ghost use Rattle.std.specs.Prelude.{◌≡◌};
    ghost use Rattle.ts_record.specs.Links.{GoesAsRecorded};

    ghost view = { λ l. l.link };

    ghost invariant = { λ l. GoesAsRecorded l.link × (l.leaves ≡ is_some l.link.may_take) };
}

impl RecordedLink {
    /// The side that gives these pieces, with the stalls between them, and leaves once it took so many bytes,
    /// if it leaves. It was not used.
    pub fn make(alloc: Global, pieces: Vec<Piece>, leave: Option<u64>) -> RecordedLink
        ensures made { result ≡ recorded_side pieces.items leave }
        ensures new { IsNewSide (bytes_of pieces.items) result }
    {
        RecordedLink {
            link: MemLink::of_pieces(alloc, pieces, leave),
            leaves: leave.is_some(),
        }
    }

    /// Whether it leaves, once it took as many bytes as it was made with.
    pub fn leaves(&self) -> bool
        ensures { result ≡ is_some self.now.may_take }
    {
        self.leaves
    }

    /// What it took, in order.
    pub fn written(&self) -> &[u8]
        ensures { result.now ≡ self.now.taken }
    {
        self.link.written()
    }
}

impl Link for RecordedLink {
    ghost tells = { true };

    ghost look = { look_of };

    ghost goes = { λ a b. ⊤ };

    ghost still = { λ a b. ⊤ };

    fn read(&mut self, into: &mut [u8]) -> Got
        requires { 0 < length into.old }
        ensures reads { Reads true (look_of self.old) (look_of self.new) result into.new }
        ensures goes { ⊤ }
        ensures answer { result ≡ next_answer (length into.old) self.old.input.ahead }
        ensures after { self.new ≡ after_read self.old (length into.old) result }
        ensures stalls { WaitsAtStalls (look_of self.old) (got_again result) }
    {
        self.link.read(into)
    }

    fn write(&mut self, piece: &[u8]) -> Put
        requires { 0 < length piece.now }
        ensures writes { Writes true (look_of self.old) (look_of self.new) result piece.now }
        ensures goes { ⊤ }
        ensures answer { IsPut result (write_answer self.old (length piece.now)) }
        ensures after { self.new ≡ after_write self.old piece.now result }
    {
        self.link.write(piece)
    }

    fn faults(&self) -> u64 {
        self.link.faults()
    }

    ghost stays = { λ l. tt };

    ghost goes_on = { λ l m n g h. tt };

    ghost goes_still = { λ l m g. tt };

    ghost still_on = { λ l m n g h. tt };
}

impl Sourced for RecordedLink {
    // What went wrong is what the recording says, and what it gave and may still give are the bytes of its
    // side.
    fn known(&self)
        ensures goes { GoesAsRecorded self.now }
        ensures whole { all_of (look_of self.now) ≡ (look_of self.now).source }
    {
        self.link.known();
    }
}

// It has no upload to move, and belongs to any client.
impl<C: Link> Upstream<C> for RecordedLink {
    ghost paired = { λ c o. ⊤ };

    ghost refuses = { λ o list. false ≡ true };

    ghost upload_left = { λ c o. Some 0 };

    ghost one_upload = { MovesNothing };

    fn upload(&mut self, _client: &mut C) -> Uploaded
        ensures done { result ≡ Uploaded.Done }
        ensures nothing { (self.new ≡ self.old) × (_client.new ≡ _client.old) }
    {
        Uploaded::Done
    }

    ghost pair_stays = { λ c d o p q g h. tt };

    ghost refusal_stays = { λ o p g. record { still = λ list h. h; before = λ list h. h } };

    ghost left_rises = { λ c d o p g h. Prim.omega arith };
}
