//! The link to an origin that the client of a session belongs to.
ghost use Rattle.std.specs.Prelude.{◌≡◌, Some, ⊤};
ghost use Rattle.std.proofs.Common.{arith};
ghost use Rattle.ts_session.specs.Session.{spanned_look};
ghost use Rattle.ts_upstream.specs.Uploads.{MovesNothing};
ghost use Rattle.ts_upstream.specs.declared.upstream.Uploaded.{Uploaded};

use crate::span::Span;
use ts_link::{Got, Link, Put, Sourced};
use ts_upstream::{Uploaded, Upstream};

/// The link to an origin whose client is shown by a span: it has no upload of its own to move, and all else
/// is the origin's.
#[derive(Drop)]
pub struct Spanned<O> {
    origin: O,
}

impl<O> Spanned<O> {
    /// The link to this origin. It takes no memory.
    pub fn make(origin: O) -> Spanned<O>
        ensures { result.origin ≡ origin }
    {
        Spanned { origin }
    }

    /// The origin inside, as it is left.
    pub fn into_origin(self) -> O
        ensures { result ≡ self.origin }
    {
        self.origin
    }
}

impl<O: Link> Link for Spanned<O> {
    ghost tells = { O.tells };

    ghost look = { λ s. spanned_look (O.look s.origin) };

    ghost goes = { λ s t. O.goes s.origin t.origin };

    ghost still = { λ s t. O.still s.origin t.origin };

    fn read(&mut self, into: &mut [u8]) -> Got {
        self.origin.read(into)
    }

    fn write(&mut self, piece: &[u8]) -> Put {
        self.origin.write(piece)
    }

    fn faults(&self) -> u64 {
        self.origin.faults()
    }

    ghost stays = { λ s. O.stays s.origin };

    ghost goes_on = { λ s t u g h. O.goes_on s.origin t.origin u.origin g h };

    ghost goes_still = { λ s t g. O.goes_still s.origin t.origin g };

    ghost still_on = { λ s t u g h. O.still_on s.origin t.origin u.origin g h };
}

impl<O: Sourced> Sourced for Spanned<O> {
    fn known(&self) {
        self.origin.known();
    }
}

impl<C: Sourced, O: Link> Upstream<Span<C>> for Spanned<O> {
    ghost paired = { λ c s. ⊤ };

    ghost refuses = { λ s list. ⊥ };

    ghost upload_left = { λ c s. Some 0 };

    ghost one_upload = { MovesNothing };

    fn upload(&mut self, _client: &mut Span<C>) -> Uploaded
        ensures done { result ≡ Uploaded.Done }
        ensures nothing { (self.new ≡ self.old) × (_client.new ≡ _client.old) }
    {
        Uploaded::Done
    }

    ghost pair_stays = { λ c d s t p g h. tt };

    ghost refusal_stays = { λ s t g. record { still = λ list h. h; before = λ list h. h } };

    ghost left_rises = { λ c d s t g h. Prim.omega arith };
}
