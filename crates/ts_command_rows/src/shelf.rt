//! The files that a command may read.

use crate::lacking;
use std::rt::Files;
use std::{fs, io};
use ts_link::MemShelf;

// Adds the file of a name, if there is one.
fn add_file<R: AllocGlobal + Files>(rt: &R, shelf: &mut MemShelf, name: &str) -> io::Result<()> {
    match fs::read(rt, name) {
        Ok(bytes) => shelf.add(name, bytes.as_slice()).map_err(lacking),
        Err(_) => Ok(()),
    }
}

/// A shelf with the files of these words and of those, as far as they are there.
pub fn shelf_of<R: AllocGlobal + Files>(
    rt: &R,
    words: &[String],
    files: &[String],
) -> io::Result<MemShelf> {
    let mut shelf = MemShelf::make(rt.alloc());
    for word in words {
        add_file(rt, &mut shelf, word.as_str())?;
    }
    for file in files {
        add_file(rt, &mut shelf, file.as_str())?;
    }
    Ok(shelf)
}
