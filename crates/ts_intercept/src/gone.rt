//! Bytes that are gone, which contracts still see.
ghost use Rattle.std.specs.Prelude.{◌≡◌, ◌++◌, ◌∷◌, []};
ghost use Rattle.ts_intercept.specs.Gone.{bytes_of};

use std::marker::Model;
use std::snapshot::Snapshot;

// One byte behind another, back to nothing. What stands before a byte is for contracts alone.
#[derive(Drop)]
enum Trail {
    Nothing,
    Behind { before: Snapshot<Trail>, byte: u8 },
}

/// Bytes that are gone: contracts see the list of them, and it takes no memory.
#[derive(Drop)]
pub(crate) struct Gone {
    trail: Trail,
}

impl Model for Gone {
    ghost use Rattle.std.specs.Prelude.{List, ℕ};

    ghost Value = { List ℕ };

    ghost use Rattle.ts_intercept.specs.Gone.{bytes_of};

    ghost view = { λ g. bytes_of g.trail };
}

fn behind(trail: &Trail, byte: u8) -> Trail
    ensures { bytes_of result ≡ bytes_of trail.now ++ (byte ∷ []) }
{
    Trail::Behind {
        before: Snapshot::of(trail),
        byte,
    }
}

impl Gone {
    /// No bytes.
    pub(crate) fn none() -> Gone
        ensures { result ≡ [] }
    {
        Gone {
            trail: Trail::Nothing,
        }
    }

    /// Adds the bytes of a piece behind those that went before.
    pub(crate) fn add(&mut self, piece: &[u8])
        ensures { self.new ≡ self.old ++ piece.now }
    {
        'bytes: for byte in piece {
            self.trail = behind(&self.trail, *byte);
        }
    }
}
