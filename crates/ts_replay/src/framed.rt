//! A body is taken out of its frames again.

ghost use Rattle.std.specs.Prelude.{◌≡◌, ◌≤◌, List, ℕ, IfOk, length};
ghost use Rattle.ts_wire.specs.Frames.{cut_body};
ghost use Rattle.ts_wire.specs.Limits.{body_limit};
ghost use Rattle.ts_replay.specs.Unframing.{IsFramed};

use std::alloc::Global;
use ts_link::{NoMemory, Octets};
use ts_wire::{BodyReader, BodyState, Framing, Mode};

// These bytes, which are no more than a list in memory has.
fn octets_of(bytes: Vec<u8>) -> Octets
    ensures same { result ≡ bytes.items }
    ensures few { length result ≤ body_limit }
{
    Octets::of_vec(bytes)
}

// The body of these chunks.
fn unchunked(alloc: Global, framed: &[u8]) -> Result<Octets, NoMemory>
    requires { (pieces : List (List ℕ)) × IsFramed Mode.Chunked framed.now pieces }
    ensures body { (pieces : List (List ℕ)) → IsFramed Mode.Chunked framed.now pieces
        → IfOk result (λ body. body ≡ cut_body pieces) }
    ensures few { IfOk result (λ body. length body ≤ body_limit) }
{
    let mut reader = BodyReader::make(alloc, Framing::Chunked)?;
    let mut body = Vec::with_capacity(alloc, framed.len())?;
    let mut rest = framed;
    'parts: while !rest.is_empty() {
        let fed = reader.feed(rest);
        body.extend_from_slice(&rest[fed.from..fed.to])?;
        match fed.state {
            BodyState::Unfinished => rest = rest.split_at(fed.taken).1,
            _ => return Ok(octets_of(body)),
        }
    }
    Ok(octets_of(body))
}

/// The body that stands in its frames, with its end behind them. It is no longer than a list in memory is.
pub(crate) fn unframed(alloc: Global, mode: Mode, framed: &[u8]) -> Result<Octets, NoMemory>
    requires { (pieces : List (List ℕ)) × IsFramed mode framed.now pieces }
    ensures body { (pieces : List (List ℕ)) → IsFramed mode framed.now pieces
        → IfOk result (λ body. body ≡ cut_body pieces) }
    ensures few { IfOk result (λ body. length body ≤ body_limit) }
{
    match mode {
        Mode::Plain => Ok(octets_of(Vec::from_slice(alloc, framed)?)),
        Mode::Chunked => unchunked(alloc, framed),
    }
}
