//! Why an exchange that is tried gives no outcome.

use std::alloc::{AllocError, AllocFailed};
use ts_config::ConfigRefusal;
use ts_link::NoMemory;
use ts_thread::Unfinished;

/// Want of memory, a configuration that is not read or has too many lines, a group that has had its last
/// turn, or a row in which no transaction stands first.
#[derive(Clone, Copy, Debug, PartialEq, Eq)]
pub enum Refusal {
    NoMemory,
    Lines,
    Worn,
    NoTxn,
}

impl From<NoMemory> for Refusal {
    fn from(_refusal: NoMemory) -> Refusal {
        Refusal::NoMemory
    }
}

impl From<AllocError> for Refusal {
    fn from(_refusal: AllocError) -> Refusal {
        Refusal::NoMemory
    }
}

impl<T: Drop> From<AllocFailed<T>> for Refusal {
    fn from(_refusal: AllocFailed<T>) -> Refusal {
        Refusal::NoMemory
    }
}

impl From<ConfigRefusal> for Refusal {
    fn from(refusal: ConfigRefusal) -> Refusal {
        match refusal {
            ConfigRefusal::Fault(_) => Refusal::Lines,
            ConfigRefusal::NoMemory => Refusal::NoMemory,
        }
    }
}

impl From<Unfinished> for Refusal {
    fn from(unfinished: Unfinished) -> Refusal {
        match unfinished {
            Unfinished::NoMemory => Refusal::NoMemory,
            Unfinished::Worn => Refusal::Worn,
        }
    }
}
