//! Why a row has no outcome.

use std::alloc::{AllocError, AllocFailed};
use std::io;
use std::io::ErrorKind;
use ts_link::NoMemory;

/// Memory was lacking.
#[derive(Drop)]
pub struct Failure;

impl From<NoMemory> for Failure {
    fn from(_refusal: NoMemory) -> Failure {
        Failure
    }
}

impl From<AllocError> for Failure {
    fn from(_refusal: AllocError) -> Failure {
        Failure
    }
}

impl<T: Drop> From<AllocFailed<T>> for Failure {
    fn from(_refusal: AllocFailed<T>) -> Failure {
        Failure
    }
}

impl From<Failure> for io::Error {
    fn from(_failure: Failure) -> io::Error {
        io::Error::from(ErrorKind::OutOfMemory)
    }
}
