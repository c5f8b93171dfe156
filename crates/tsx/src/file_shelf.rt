//! A shelf over files that are opened by their names.
ghost use Rattle.std.specs.Prelude.{◌≡◌};
ghost use Rattle.tsx.specs.Whole.{IsAllOf, KeepsMost};

use crate::count::raised;
use crate::fault::refused_read;
use crate::opener::Opener;
use std::alloc::{AllocError, Global};
use std::fs::OpenFile;
use std::io::Read;
use ts_link::{Octets, Shelf, ShelfFault};

/// It tells of its files what its opener tells.
#[derive(Drop)]
pub struct FileShelf<O> {
    opener: O,
    faults: u64,
    longs: u64,
}

impl<O: Opener> FileShelf<O> {
    /// A shelf over the files of this opener, with counts of zero.
    pub fn new(opener: O) -> FileShelf<O>
        ensures opener { result.opener ≡ opener }
        ensures faults { result.faults ≡ 0 }
        ensures longs { result.longs ≡ 0 }
    {
        FileShelf {
            opener,
            faults: 0,
            longs: 0,
        }
    }
}

// Takes room at once for a file of the size that the system tells, and for the read that finds its end.
fn reserve_for<F: OpenFile>(file: &F, bytes: &mut Vec<u8>, most: u64) -> Result<(), AllocError>
    ensures { bytes.new.items ≡ bytes.old.items }
{
    match file.metadata() {
        Ok(metadata) => bytes.reserve_exact((metadata.len().min(most) as usize).saturating_add(1)),
        Err(_) => Ok(()),
    }
}

// All that a file has, if it has at most `most` bytes. Of a longer one a byte more is read.
fn read_most<F: Read + OpenFile + Drop>(
    alloc: Global,
    file: F,
    most: u64,
) -> Result<Vec<u8>, ShelfFault>
    ensures limit { KeepsMost most result }
    ensures whole { IsAllOf (F.remaining file) result }
{
    let mut bytes = Vec::new(alloc);
    if reserve_for(&file, &mut bytes, most).is_err() {
        return Err(ShelfFault::NoMemory);
    }
    if let Err(error) = file.take(most.saturating_add(1)).read_to_end(&mut bytes) {
        return Err(refused_read(&error));
    }
    let seen = bytes.len() as u64;
    if seen > most {
        return Err(ShelfFault::TooLong { seen });
    }
    Ok(bytes)
}

impl<O: Opener> Shelf for FileShelf<O> {
    ghost tells = { O.tells };

    ghost seen = { λ s. record { file = O.files s.opener; faults = s.faults; longs = s.longs } };

    fn read(&mut self, alloc: Global, name: &str, most: u64) -> Result<Octets, ShelfFault> {
        let read = match self.opener.open(name) {
            Ok(file) => read_most(alloc, file, most),
            Err(error) => Err(refused_read(&error)),
        };
        match read {
            Ok(bytes) => Ok(Octets::of_vec(bytes)),
            Err(ShelfFault::Failed) => {
                self.faults = raised(self.faults);
                Err(ShelfFault::Failed)
            }
            Err(ShelfFault::TooLong { seen }) => {
                self.longs = raised(self.longs);
                Err(ShelfFault::TooLong { seen })
            }
            Err(ShelfFault::NoMemory) => Err(ShelfFault::NoMemory),
        }
    }
}
