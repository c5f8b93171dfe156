//! Whether a request has an upload, found at the front of a client's bytes with no memory.
ghost use Rattle.std.specs.Prelude.{◌≤◌, length};
ghost use Rattle.ts_request.specs.Finding.{IsFound};
ghost use Rattle.ts_wire.specs.Limits.{head_limit};

use httparse::Status;
use httparse::spans::{EMPTY_HEADER_SPAN, parse_request};
use ts_wire::{Framing, MAX_FIELDS, MAX_HEAD, request_end};

// What the first bytes of a client say of an upload.
#[derive(Clone, Copy)]
pub(crate) enum Found {
    // Not yet whether there is one: no whole head is among them.
    More,
    // There is none, whatever follows.
    Never,
    // There is one, behind a head of so many bytes.
    Upload { framing: Framing, used: usize },
}

// Looks for an upload.
pub(crate) fn find_upload(bytes: &[u8]) -> Found
    requires { length bytes.now ≤ head_limit }
    ensures { IsFound bytes.now result }
{
    let mut headers = [EMPTY_HEADER_SPAN; MAX_FIELDS];
    match parse_request(bytes, &mut headers) {
        Ok(Status::Complete(spans)) => match request_end(bytes, &headers, &spans).upload() {
            Some(framing) => Found::Upload {
                framing,
                used: spans.len,
            },
            None => Found::Never,
        },
        Ok(Status::Partial) => {
            if bytes.len() < MAX_HEAD {
                Found::More
            } else {
                Found::Never
            }
        }
        Err(_) => Found::Never,
    }
}
