//! A shelf in memory.
ghost use Rattle.std.specs.Prelude.{◌≡◌, ◌++◌, ◌∷◌, [], map, true, OnOk, OnErr};
ghost use Rattle.std.specs.Option.{option_copied};
ghost use Rattle.ts_link.specs.Counts.{Counted};
ghost use Rattle.ts_link.specs.Files.{file_in};
ghost use Rattle.ts_link.specs.Shelf.{KeepsLimit, ReadsFile, is_read_fault, is_too_long};
ghost use Rattle.ts_link.specs.MemShelf.{ShelfState, ReadsAt, after_shelf_read};

use crate::numbered::is_listed;
use crate::octets::{NoMemory, Octets};
use crate::shelf::{Shelf, ShelfFault};
use std::alloc::Global;
use std::marker::Model;

// A file, with its name.
#[derive(Drop)]
struct StoredFile {
    name: Octets,
    bytes: Octets,
}

/// Files in memory, for tests.
#[derive(Drop)]
pub struct MemShelf {
    alloc: Global,
    files: Vec<StoredFile>,
    failing: Vec<u64>,
    calls: u64,
    faults: u64,
    longs: u64,
}

impl Model for MemShelf {
    ghost Value = { ShelfState };

    ghost view = { λ s. record {
      files = map (λ f. (f.name, f.bytes)) s.files.items;
      failing = s.failing.items;
      calls = s.calls;
      faults = s.faults;
      longs = s.longs;
    } };
}

impl MemShelf {
    /// A shelf with no files, of which no read call fails.
    pub fn make(alloc: Global) -> MemShelf
        ensures { result ≡ record { files = []; failing = []; calls = 0; faults = 0; longs = 0 } }
    {
        MemShelf {
            alloc,
            files: Vec::new(alloc),
            failing: Vec::new(alloc),
            calls: 0,
            faults: 0,
            longs: 0,
        }
    }

    /// Adds a file. Of two of one name the first is read.
    pub fn add(&mut self, name: &str, bytes: &[u8]) -> Result<(), NoMemory>
        ensures ok { OnOk result (self.new ≡
            record self.old { files = self.old.files ++ (name.now, bytes.now) ∷ [] }) }
        ensures err { OnErr result (self.new ≡ self.old) }
    {
        let name = Octets::copy_of(self.alloc, name.as_bytes())?;
        let bytes = Octets::copy_of(self.alloc, bytes)?;
        self.files.push(StoredFile { name, bytes })?;
        Ok(())
    }

    /// Has the read call of this number, counted from 1, fail. A call after as many as the greatest `u64` has
    /// none.
    pub fn fail_at(&mut self, call: u64) -> Result<(), NoMemory>
        ensures ok { OnOk result (self.new ≡ record self.old { failing = self.old.failing ++ call ∷ [] }) }
        ensures err { OnErr result (self.new ≡ self.old) }
    {
        self.failing.push(call)?;
        Ok(())
    }
}

// The bytes of the first file of this name.
fn find<'a>(files: &'a [StoredFile], name: &[u8]) -> Option<&'a [u8]>
    ensures { option_copied result ≡ file_in (map (λ f. (f.name, f.bytes)) files.now) name.now }
{
    for file in files {
        if file.name.bytes() == name {
            return Some(file.bytes.bytes());
        }
    }
    None
}

impl Shelf for MemShelf {
    ghost tells = { true };

    ghost seen = { λ s. record { file = file_in s.files; faults = s.faults; longs = s.longs } };

    fn read(&mut self, alloc: Global, name: &str, most: u64) -> Result<Octets, ShelfFault>
        ensures limit { KeepsLimit most result }
        ensures told { ReadsFile (file_in self.old.files name.now) most result }
        ensures files { file_in self.new.files ≡ file_in self.old.files }
        ensures faults { Counted (is_read_fault result) self.old.faults self.new.faults }
        ensures longs { Counted (is_too_long result) self.old.longs self.new.longs }
        ensures exact { ReadsAt self.old name.now most result }
        ensures after { self.new ≡ after_shelf_read self.old result }
    {
        let fails = is_listed(self.calls, self.failing.as_slice());
        self.calls = self.calls.saturating_add(1);
        if fails {
            self.faults = self.faults.saturating_add(1);
            return Err(ShelfFault::Failed);
        }
        let Some(bytes) = find(self.files.as_slice(), name.as_bytes()) else {
            self.faults = self.faults.saturating_add(1);
            return Err(ShelfFault::Failed);
        };
        let seen = bytes.len() as u64;
        if seen > most {
            self.longs = self.longs.saturating_add(1);
            return Err(ShelfFault::TooLong { seen });
        }
        match Octets::copy_of(alloc, bytes) {
            Ok(copy) => Ok(copy),
            Err(_) => Err(ShelfFault::NoMemory),
        }
    }
}
