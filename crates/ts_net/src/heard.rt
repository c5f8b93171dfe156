//! What the system's answers to a call on a socket are to a link and to who listens.
ghost use Rattle.std.specs.Prelude.{◌≡◌};
ghost use Rattle.std.specs.IoError.{error_kind, raw_os_error};
ghost use Rattle.ts_net.specs.Heard.{got_of, is_final, is_final_code, lacks_memory, would_wait, put_of};

use std::io;
use std::io::ErrorKind;
use ts_link::{Got, Put};

// Numbers of errors of Linux: no descriptor, no listening socket, and no socket at all.
const NO_DESCRIPTOR: i32 = 9;

const NOT_LISTENING: i32 = 22;

const NO_SOCKET: i32 = 88;

// Whether the call would have waited, or was broken off by a signal.
fn would_wait(kind: ErrorKind) -> bool
    ensures { result ≡ would_wait kind }
{
    matches!(kind, ErrorKind::WouldBlock | ErrorKind::Interrupted)
}

// Whether memory was lacking.
fn lacks_memory(kind: ErrorKind) -> bool
    ensures { result ≡ lacks_memory kind }
{
    matches!(kind, ErrorKind::OutOfMemory)
}

/// What a link answers to a read into a room that is not empty, of which the system says so.
pub fn got_of(read: io::Result<usize>) -> Got
    ensures { result ≡ got_of read }
{
    match read {
        Ok(0) => Got::End,
        Ok(count) => Got::Bytes(count),
        Err(error) => {
            if would_wait(error.kind()) {
                Got::Again
            } else {
                Got::Failed
            }
        }
    }
}

/// What a link answers to a write of a piece that is not empty, of which the system says so. To take none of
/// it is to fail.
pub fn put_of(written: io::Result<usize>) -> Put
    ensures { result ≡ put_of written }
{
    match written {
        Ok(0) => Put::Failed,
        Ok(count) => Put::Took(count),
        Err(error) => {
            if would_wait(error.kind()) {
                Put::Again
            } else if lacks_memory(error.kind()) {
                Put::NoMemory
            } else {
                Put::Failed
            }
        }
    }
}

// Whether no later accept can succeed after an error of this number.
fn is_final_code(code: i32) -> bool
    ensures { result ≡ is_final_code code }
{
    code == NO_DESCRIPTOR || code == NOT_LISTENING || code == NO_SOCKET
}

/// Whether no later accept of the listener can succeed: its descriptor is none, does not listen, or is no
/// socket. After every other error another client may come: none was there, its peer gave up, a network
/// error waited on the new connection, or no descriptors or memory were left.
pub fn is_final(error: &io::Error) -> bool
    ensures { result ≡ is_final (raw_os_error error.now) }
{
    match error.raw_os_error() {
        Some(code) => is_final_code(code),
        None => false,
    }
}
