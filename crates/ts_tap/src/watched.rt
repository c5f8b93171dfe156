//! A client's link with a tap on it, or with none.
ghost use Rattle.std.specs.Prelude.{◌≡◌, ◌<◌, [], length, true, IfOk, IfSome, refl};
ghost use Rattle.std.proofs.Common.{◌∙◌};
ghost use Rattle.std.specs.Option.{option_map};
ghost use Rattle.ts_link.specs.Link.{Reads, Writes};
ghost use Rattle.ts_tap.specs.Optional.{client_of, most_of};
ghost use Rattle.ts_tap.specs.Sums.{SumsBody};

use crate::lifted::Lifted;
use crate::sum::Sum;
use crate::tapped::Tapped;
use std::alloc::Global;
use ts_link::{Got, Link, NoMemory, Put, Sourced};
use ts_upstream::{Uploaded, Upstream};

/// A client's link, with a tap of a `Sum` where one was asked for.
#[derive(Drop)]
pub enum Watched<C: Link> {
    /// With none.
    Plain(C),
    /// With one.
    Tapped(Tapped<C, Sum>),
}

impl<C: Link + Drop> Watched<C> {
    /// This client, which took nothing, with a tap that sums the first `most` bytes up where that is told.
    pub fn make(alloc: Global, client: C, most: Option<u64>) -> Result<Watched<C>, NoMemory>
        requires { C.tells ≡ true → (C.look client).taken ≡ [] }
        ensures client { IfOk result (λ w. client_of w ≡ client) }
        ensures most { IfOk result (λ w. most_of w ≡ most) }
    {
        let Some(most) = most else {
            return Ok(Watched::Plain(client));
        };
        let tapped = Tapped::make(alloc, client, Sum::make(most))?;
        Ok(Watched::Tapped(tapped))
    }

    /// Gives the client's link back, and the sum of the body data that it took, where there is a tap.
    pub fn into_parts(self) -> (C, Option<Sum>)
        ensures client { result.0 ≡ client_of self }
        ensures most { option_map (λ (s : Sum). s.most) result.1 ≡ most_of self }
        ensures sums { C.tells ≡ true → IfSome result.1 (SumsBody (C.look (client_of self)).taken) }
    {
        match self {
            Watched::Plain(client) => (client, None),
            Watched::Tapped(tapped) => {
                let (client, sum) = tapped.into_sum();
                (client, Some(sum))
            }
        }
    }
}

impl<C: Link> Link for Watched<C> {
    ghost tells = { C.tells };

    ghost look = { λ w. C.look (client_of w) };

    ghost goes = { λ v w. C.goes (client_of v) (client_of w) × (most_of w ≡ most_of v) };

    ghost still = { λ v w. C.still (client_of v) (client_of w) × (most_of w ≡ most_of v) };

    fn read(&mut self, into: &mut [u8]) -> Got {
        match self {
            Watched::Plain(client) => client.read(into),
            Watched::Tapped(tapped) => tapped.read(into),
        }
    }

    fn write(&mut self, piece: &[u8]) -> Put {
        match self {
            Watched::Plain(client) => client.write(piece),
            Watched::Tapped(tapped) => tapped.write(piece),
        }
    }

    fn faults(&self) -> u64 {
        match self {
            Watched::Plain(client) => client.faults(),
            Watched::Tapped(tapped) => tapped.faults(),
        }
    }

    ghost stays = { λ w. (C.stays (client_of w), refl) };

    ghost goes_on = { λ u v w g h. (
      C.goes_on (client_of u) (client_of v) (client_of w) g.0 h.0,
      h.1 ∙ g.1,
    ) };

    ghost goes_still = { λ v w g. (C.goes_still (client_of v) (client_of w) g.0, g.1) };

    ghost still_on = { λ u v w g h. (
      C.still_on (client_of u) (client_of v) (client_of w) g.0 h.0,
      h.1 ∙ g.1,
    ) };
}

impl<C: Sourced> Sourced for Watched<C> {
    fn known(&self) {
        match self {
            Watched::Plain(client) => client.known(),
            Watched::Tapped(tapped) => tapped.known(),
        }
    }
}

impl<C: Link, O: Upstream<C>> Upstream<Watched<C>> for Lifted<O> {
    ghost paired = { λ w l. O.paired (client_of w) l.origin };

    ghost refuses = { λ l list. O.refuses l.origin list };

    ghost upload_left = { λ w l. O.upload_left (client_of w) l.origin };

    ghost one_upload = { λ v l w m answer.
        O.one_upload (client_of v) l.origin (client_of w) m.origin answer };

    fn upload(&mut self, client: &mut Watched<C>) -> Uploaded {
        match client {
            Watched::Plain(client) => self.origin.upload(client),
            Watched::Tapped(tapped) => self.origin.upload(&mut tapped.client),
        }
    }

    ghost pair_stays = { λ v w l m pair g h.
        O.pair_stays (client_of v) (client_of w) l.origin m.origin pair g.0 h };

    ghost refusal_stays = { λ l m g. O.refusal_stays l.origin m.origin g };

    ghost left_rises = { λ v w l m g h. O.left_rises (client_of v) (client_of w) l.origin m.origin g.0 h };
}
