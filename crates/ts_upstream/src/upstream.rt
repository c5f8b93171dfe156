//! The upload of a request's body, which the origin's link moves by itself.
ghost use Rattle.std.specs.Prelude.{◌≡◌, ℕ, List, true, Option, Some, ⊤};
ghost use Rattle.std.proofs.Common.{arith};
ghost use Rattle.ts_link.specs.Link.{IsSure};
ghost use Rattle.ts_upstream.specs.Uploads.{MovesNothing, Rose8, SameRefusal, StayPaired, UploadCauses, UploadFalls, UploadKeeps, Uploads, UploadsSurely, both, taken_since};

use ts_link::{Link, MemLink};

/// What came of moving some of an upload. `More` where more of it is left, `Refused` where the client's bytes
/// make no upload.
#[derive(Clone, Copy, Debug, PartialEq, Eq)]
pub enum Uploaded {
    Done,
    More,
    Again,
    ClientFailed,
    OriginFailed,
    Refused,
    NoMemory,
}

/// The link to an origin, with the upload of the body that follows a client's request head.
pub trait Upstream<C: Link>: Link {
    ghost use Rattle.ts_upstream.specs.declared.upstream.Uploaded.{Uploaded};

    // The two links belong together.
    ghost paired: { C → Self → Type 0 };

    // It refuses the upload of a client whose source is this list.
    ghost refuses: { Self → List ℕ → Type 0 };

    // How much upload the two links have left, where they tell.
    ghost upload_left: { C → Self → Option ℕ };

    // One call of `upload` led from the first two links to the last two, with this answer.
    ghost one_upload: { C → Self → C → Self → Uploaded → Type 0 };

    /// Moves some of the upload. `Done` where none is left.
    fn upload(&mut self, client: &mut C) -> Uploaded
        requires { paired client.old self.old }
        ensures paired { StayPaired C.still Self.still paired refuses
            client.old client.new self.old self.new }
        ensures once { one_upload client.old self.old client.new self.new result }
        ensures causes { UploadCauses C.tells (refuses self.old) result
            (C.look client.old) (C.look client.new) (Self.look self.old) (Self.look self.new) }
        ensures bytes { Uploads C.tells Self.tells
            (C.look client.old) (C.look client.new) (Self.look self.old) (Self.look self.new) }
        ensures keeps { UploadKeeps
            (C.look client.old) (C.look client.new) (Self.look self.old) (Self.look self.new) }
        ensures falls { UploadFalls result (upload_left client.old self.old) (upload_left client.new self.new)
            (both (C.look client.old).agains (Self.look self.old).agains)
            (both (C.look client.new).agains (Self.look self.new).agains) }
        ensures sure { IsSure (C.look client.old) → IsSure (Self.look self.old) →
            UploadsSurely result
            (C.look client.old) (C.look client.new) (Self.look self.old) (Self.look self.new) };

    // Calls of `Link` on either keep the pair and the refusal.
    ghost pair_stays: { (c d : C) (o p : Self) → paired c o → C.goes c d → Self.goes o p → paired d p };

    ghost refusal_stays: { (o p : Self) → Self.goes o p → SameRefusal (refuses o) (refuses p) };

    // Of them only writes to the origin raise what the upload has left, by at most 8 for each byte that was
    // taken.
    ghost left_rises: { (c d : C) (o p : Self) → C.goes c d → Self.goes o p →
        Rose8 (upload_left c o) (upload_left d p) (taken_since (Self.look o) (Self.look p)) };
}

// A link in memory has no upload to move, and belongs to any client.
impl<C: Link> Upstream<C> for MemLink {
    ghost paired = { λ c o. ⊤ };

    ghost refuses = { λ o list. ⊥ };

    ghost upload_left = { λ c o. Some 0 };

    ghost one_upload = { MovesNothing };

    fn upload(&mut self, _client: &mut C) -> Uploaded
        ensures done { result ≡ Uploaded.Done }
        ensures nothing { (self.new ≡ self.old) × (_client.new ≡ _client.old) }
    {
        Uploaded::Done
    }

    ghost pair_stays = { λ c d o p q g h. tt };

    ghost refusal_stays = { λ o p g. record { still = λ list h. h; before = λ list h. h } };

    ghost left_rises = { λ c d o p g h. Prim.omega arith };
}
