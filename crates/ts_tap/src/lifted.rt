//! The link to an origin that a tapped client belongs to.
ghost use Rattle.std.specs.Prelude.{◌≡◌, ◌<◌, length};

use crate::tapped::Tapped;
use crate::watcher::Watcher;
use ts_link::{Got, Link, Put, Sourced};
use ts_upstream::{Uploaded, Upstream};

/// The link to an origin, which hands the client inside a tapped one on to the upload of the origin inside.
#[derive(Drop)]
pub struct Lifted<O> {
    pub(crate) origin: O,
}

impl<O> Lifted<O> {
    /// The link to this origin for a client with a tap. It takes no memory.
    pub fn make(origin: O) -> Lifted<O>
        ensures { result.origin ≡ origin }
    {
        Lifted { origin }
    }

    /// The origin inside, as it is left.
    pub fn into_origin(self) -> O
        ensures { result ≡ self.origin }
    {
        self.origin
    }
}

impl<O: Link> Link for Lifted<O> {
    ghost tells = { O.tells };

    ghost look = { λ l. O.look l.origin };

    ghost goes = { λ l m. O.goes l.origin m.origin };

    ghost still = { λ l m. O.still l.origin m.origin };

    fn read(&mut self, into: &mut [u8]) -> Got {
        self.origin.read(into)
    }

    fn write(&mut self, piece: &[u8]) -> Put {
        self.origin.write(piece)
    }

    fn faults(&self) -> u64 {
        self.origin.faults()
    }

    ghost stays = { λ l. O.stays l.origin };

    ghost goes_on = { λ l m n g h. O.goes_on l.origin m.origin n.origin g h };

    ghost goes_still = { λ l m g. O.goes_still l.origin m.origin g };

    ghost still_on = { λ l m n g h. O.still_on l.origin m.origin n.origin g h };
}

impl<O: Sourced> Sourced for Lifted<O> {
    fn known(&self) {
        self.origin.known();
    }
}

impl<C: Link, W: Watcher, O: Upstream<C>> Upstream<Tapped<C, W>> for Lifted<O> {
    ghost paired = { λ t l. O.paired t.client l.origin };

    ghost refuses = { λ l list. O.refuses l.origin list };

    ghost upload_left = { λ t l. O.upload_left t.client l.origin };

    ghost one_upload = { λ t l u m answer. O.one_upload t.client l.origin u.client m.origin answer };

    fn upload(&mut self, client: &mut Tapped<C, W>) -> Uploaded {
        self.origin.upload(&mut client.client)
    }

    ghost pair_stays = { λ t u l m pair g h. O.pair_stays t.client u.client l.origin m.origin pair g.0 h };

    ghost refusal_stays = { λ l m g. O.refusal_stays l.origin m.origin g };

    ghost left_rises = { λ t u l m g h. O.left_rises t.client u.client l.origin m.origin g.0 h };
}
