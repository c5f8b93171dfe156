//! What the system's errors are to the program: want of memory, or another fault.
ghost use Rattle.std.specs.Prelude.{◌≡◌};
ghost use Rattle.std.specs.IoError.{error_kind};
ghost use Rattle.ts_net.specs.Heard.{lacks_memory};
ghost use Rattle.tsx.specs.Faults.{refused_read, refused_write};

use std::io;
use std::io::ErrorKind;
use ts_link::{ShelfFault, Wrote};

/// Whether the error is that memory was lacking.
pub fn lacks_memory(error: &io::Error) -> bool
    ensures { result ≡ lacks_memory (error_kind error.now) }
{
    matches!(error.kind(), ErrorKind::OutOfMemory)
}

/// What a shelf answers where the system refuses to open or to read a file.
pub fn refused_read(error: &io::Error) -> ShelfFault
    ensures { result ≡ refused_read (error_kind error.now) }
{
    if lacks_memory(error) {
        ShelfFault::NoMemory
    } else {
        ShelfFault::Failed
    }
}

/// What a sink answers where the system refuses a write.
pub fn refused_write(error: &io::Error) -> Wrote
    ensures { result ≡ refused_write (error_kind error.now) }
{
    if lacks_memory(error) {
        Wrote::NoMemory
    } else {
        Wrote::Failed
    }
}
