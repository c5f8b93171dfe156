//! Finds heads and a body in all the bytes of a link.
ghost use Rattle.std.specs.Prelude.{◌≡◌, ◌≢◌, ◌≤◌, length, drop, IfOk};
ghost use Rattle.ts_wire.specs.Body.{BodyOf};
ghost use Rattle.ts_block.specs.Heads.{is_interim, is_refused_status};
ghost use Rattle.ts_block.specs.Finding.{FindsRequest, FindsResponse, FindsFinal};

use std::alloc::Global;
use ts_link::NoMemory;
use ts_wire::{
    BodyReader, BodyState, Framing, Read, RequestHead, ResponseHead, read_request, read_response,
};

// The first interim status, the first final one, and the one that would end HTTP on the connection.
const FIRST_INTERIM: u16 = 100;

const FIRST_FINAL: u16 = 200;

const SWITCHING: u16 = 101;

/// Whether a response is interim, and so dropped.
pub fn is_interim(status: u16) -> bool
    ensures { result ≡ is_interim status }
{
    FIRST_INTERIM <= status && status < FIRST_FINAL && status != SWITCHING
}

/// Whether no answer can be made of a response for its status.
pub(crate) fn is_refused_status(status: u16) -> bool
    ensures { result ≡ is_refused_status status }
{
    status == SWITCHING || status < FIRST_INTERIM
}

/// The head of a request at the front of the bytes.
pub(crate) fn find_request(alloc: Global, bytes: &[u8]) -> Result<Option<RequestHead>, NoMemory>
    ensures { IfOk result (FindsRequest bytes.now) }
{
    match read_request(alloc, bytes)? {
        Read::Head { head, .. } => Ok(Some(head)),
        Read::More => Ok(None),
        Read::Bad => Ok(None),
        Read::TooLong => Ok(None),
    }
}

/// The head of a response at the front of the bytes from this place on, and how long it is.
fn find_response(
    alloc: Global,
    bytes: &[u8],
    at: usize,
) -> Result<Option<(ResponseHead, usize)>, NoMemory>
    requires { at ≤ length bytes.now }
    ensures { IfOk result (FindsResponse (drop at bytes.now)) }
{
    match read_response(alloc, bytes.split_at(at).1)? {
        Read::Head { head, used } => Ok(Some((head, used))),
        Read::More => Ok(None),
        Read::Bad => Ok(None),
        Read::TooLong => Ok(None),
    }
}

/// The first head of a response that is not interim, and where it ends.
pub(crate) fn find_final(
    alloc: Global,
    bytes: &[u8],
) -> Result<Option<(ResponseHead, usize)>, NoMemory>
    ensures { IfOk result (FindsFinal bytes.now) }
{
    let mut at = 0;
    while let Some((head, used)) = find_response(alloc, bytes, at)? {
        if is_interim(head.status) {
            at += used;
        } else {
            return Ok(Some((head, at + used)));
        }
    }
    Ok(None)
}

/// The body of the bytes, and how far it is.
#[tactic(auto, using(crate::proofs::Searching::body_reads))]
pub(crate) fn find_body(
    alloc: Global,
    framing: Framing,
    bytes: &[u8],
) -> Result<(Vec<u8>, BodyState), NoMemory>
    requires { framing ≢ Framing.Faulty }
    ensures { IfOk result (λ found. BodyOf framing bytes.now found.0.items found.1) }
{
    let mut reader = BodyReader::make(alloc, framing)?;
    let mut body = Vec::new(alloc);
    let mut rest = bytes;
    loop {
        let fed = reader.feed(rest);
        body.extend_from_slice(&rest[fed.from..fed.to])?;
        match fed.state {
            BodyState::Ended => return Ok((body, BodyState::Ended)),
            BodyState::Bad => return Ok((body, BodyState::Bad)),
            BodyState::Unfinished => {
                if fed.taken < rest.len() {
                    rest = rest.split_at(fed.taken).1;
                } else {
                    return Ok((body, BodyState::Unfinished));
                }
            }
        }
    }
}
