//! Shelves, which give whole files by their names.
ghost use Rattle.std.specs.Prelude.{◌≡◌, Bool, true};
ghost use Rattle.ts_link.specs.Counts.{Counted};
ghost use Rattle.ts_link.specs.Seen.{ShelfSeen};
ghost use Rattle.ts_link.specs.Shelf.{KeepsLimit, ReadsFile, is_read_fault, is_too_long};

use crate::octets::Octets;
use std::alloc::Global;
use thiserror::Error;

/// Why a file was not read. `TooLong` has the number of bytes that were read before the read stopped.
#[derive(Debug, Drop, Error)]
pub enum ShelfFault {
    #[error("Failed")]
    Failed,
    #[error("TooLong")]
    TooLong { seen: u64 },
    #[error("NoMemory")]
    NoMemory,
}

/// Gives whole files by their names.
pub trait Shelf {
    // Whether contracts see its files.
    ghost tells: { Bool };

    // Its files, and its counts.
    ghost seen: { Self → ShelfSeen };

    /// The whole file of this name, if it has at most `most` bytes. No read changes a file.
    fn read(&mut self, alloc: Global, name: &str, most: u64) -> Result<Octets, ShelfFault>
        ensures limit { KeepsLimit most result }
        ensures told { tells ≡ true → ReadsFile ((seen self.old).file name.now) most result }
        ensures files { tells ≡ true → (seen self.new).file ≡ (seen self.old).file }
        ensures faults { Counted (is_read_fault result) (seen self.old).faults (seen self.new).faults }
        ensures longs { Counted (is_too_long result) (seen self.old).longs (seen self.new).longs };
}
