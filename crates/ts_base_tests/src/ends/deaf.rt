//! A link that tells nothing: it owes its counts alone.
ghost use Rattle.std.specs.Prelude.{⊤, false, true, None, []};

use ts_link::{Got, Link, Put};

/// A link that has ended, and takes every piece whole. Contracts see none of its bytes.
#[derive(Drop)]
pub struct DeafLink {
    pub reads: u64,
    pub writes: u64,
    pub taken: usize,
}

impl DeafLink {
    /// A link that nothing was written to.
    pub fn new() -> DeafLink {
        DeafLink {
            reads: 0,
            writes: 0,
            taken: 0,
        }
    }
}

impl Link for DeafLink {
    ghost tells = { false };

    ghost look = { λ s. record {
      given = [];
      left = [];
      taken = [];
      source = [];
      name = 0;
      reads = s.reads;
      writes = s.writes;
      faults = 0;
      waits = 0;
      agains = None;
      plan = None;
      carried = [];
      uploaded = true;
      before = ([], []);
    } };

    ghost goes = { λ a b. ⊤ };

    ghost still = { λ a b. ⊤ };

    fn read(&mut self, _into: &mut [u8]) -> Got {
        self.reads = self.reads.saturating_add(1);
        Got::End
    }

    fn write(&mut self, piece: &[u8]) -> Put {
        self.writes = self.writes.saturating_add(1);
        self.taken = self.taken.saturating_add(piece.len());
        Put::Took(piece.len())
    }

    fn faults(&self) -> u64 {
        0
    }

    ghost stays = { λ l. tt };

    ghost goes_on = { λ l m n g h. tt };

    ghost goes_still = { λ l m g. tt };

    ghost still_on = { λ l m n g h. tt };
}
