//! What a command answers: the job was done, or the first trouble that it met.
ghost use Rattle.std.specs.Prelude.{◌≡◌, []};
ghost use Rattle.ts_proxy.specs.Answers.{answer_of};

use std::alloc::Global;
use ts_config::ConfigFault;
use ts_journal::Journal;
use ts_link::{Octets, ShelfFault};

/// One of the files that a command reads.
#[derive(Drop)]
pub enum NamedFile {
    Config,
    /// The body or the recording.
    Input,
    Appended(Octets),
}

/// How a command ended.
#[derive(Drop)]
pub enum Answer {
    Done,
    Usage,
    BadLine(ConfigFault),
    /// The input is no recording; the longest of its fronts that some recording begins with has this length
    /// in bytes.
    BadRecording { offset: u64 },
    CannotRead(NamedFile),
    CannotWrite,
    OutOfMemory,
    TooLong(NamedFile),
    /// The net failed when it was to listen or to give a client.
    Network,
}

/// The answer where the read of a file was refused.
pub fn refused(fault: ShelfFault, file: NamedFile) -> Answer
    ensures { result ≡ answer_of fault file }
{
    match fault {
        ShelfFault::Failed => Answer::CannotRead(file),
        ShelfFault::TooLong { seen: _ } => Answer::TooLong(file),
        ShelfFault::NoMemory => Answer::OutOfMemory,
    }
}

/// What a command came to: how it ended and, where the job was done, the journals of its groups.
#[derive(Drop)]
pub struct Performed {
    pub answer: Answer,
    pub journals: Vec<Journal>,
}

impl Performed {
    /// With this answer, and no journals.
    pub fn without(alloc: Global, answer: Answer) -> Performed
        ensures answer { result.answer ≡ answer }
        ensures none { result.journals.items ≡ [] }
    {
        Performed {
            answer,
            journals: Vec::new(alloc),
        }
    }
}
