//! Opening files by their names.
ghost use Rattle.std.specs.Prelude.{◌≡◌, ℕ, List, Bool, Option, true, false, None, IfOk};
ghost use Rattle.tsx.specs.Whole.{IsFileOf};

use std::fs::OpenFile;
use std::io::Read;
use std::rt::Files;
use std::{fs, io};

/// What opens files by their names.
pub trait Opener {
    type File: Read + OpenFile + Drop;

    // Whether contracts see its files.
    ghost tells: { Bool };

    // Its files, by their names.
    ghost files: { Self → List ℕ → Option (List ℕ) };

    /// The file of a name, to be read from its front.
    fn open(&self, name: &str) -> io::Result<Self::File>
        ensures { tells ≡ true →
            IfOk result (λ file. IsFileOf (Self.File.remaining file) (files self.now name.now)) };
}

/// Opens the files of the system. It tells nothing of them.
#[derive(Drop)]
pub struct SystemOpener<'a, R> {
    rt: &'a R,
}

impl<'a, R: Files> SystemOpener<'a, R> {
    /// Opens the files of this system.
    pub fn new(rt: &'a R) -> SystemOpener<'a, R> {
        SystemOpener { rt }
    }
}

impl<'a, R: Files> Opener for SystemOpener<'a, R> {
    type File = R::File;

    ghost tells = { false };

    ghost files = { λ _ _. None };

    fn open(&self, name: &str) -> io::Result<R::File> {
        fs::open(self.rt, name)
    }
}
