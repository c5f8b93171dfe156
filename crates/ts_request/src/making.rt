//! What the body of an upload goes to its origin with: its framing, the head with the line that says it, and
//! the chain of the request lines.
ghost use Rattle.std.specs.Prelude.{◌≡◌, [], false, IfOk};
ghost use Rattle.ts_passing.specs.Inserted.{AreOfLines};
ghost use Rattle.ts_passing.specs.Lines.{ActsAsLines};
ghost use Rattle.ts_wire.specs.Place.{IsFed};
ghost use Rattle.ts_wire.specs.Printed.{with_framing};
ghost use Rattle.ts_request.specs.BodyWay.{mode_said};
ghost use Rattle.ts_request.specs.Making.{IsFreshPassage};
ghost use Rattle.ts_request.specs.Sent.{sent_framing};

use crate::passage::Passage;
use std::alloc::Global;
use ts_config::TransformLine;
use ts_iobuf::Waiting;
use ts_link::{NoMemory, Octets};
use ts_transform::{Chain, Transform};
use ts_wire::{BodyReader, BodyState, ClientFraming, Framing, Mode, with_framing};

/// How a body with this framing goes to the origin: by its length, where it has one and no line changes it,
/// and else in chunks.
pub(crate) fn sent_framing(framing: Framing, lines: &[TransformLine]) -> ClientFraming
    ensures { result ≡ sent_framing framing lines.now }
{
    if !lines.is_empty() {
        return ClientFraming::Chunked;
    }
    match framing {
        Framing::Sized(n) => ClientFraming::Sized(n),
        _ => ClientFraming::Chunked,
    }
}

/// How its pieces are framed.
pub(crate) fn mode_said(framing: ClientFraming) -> Mode
    ensures { result ≡ mode_said framing }
{
    match framing {
        ClientFraming::Chunked => Mode::Chunked,
        _ => Mode::Plain,
    }
}

/// The bytes that wait, with the framing line before their last CR LF.
pub(crate) fn framed_head(
    alloc: Global,
    waiting: &Waiting,
    framing: ClientFraming,
) -> Result<Octets, NoMemory>
    ensures { IfOk result (λ head. head ≡ with_framing waiting.now framing) }
{
    let mut head = Vec::with_capacity(alloc, waiting.len())?;
    waiting.gather(waiting.len(), &mut head)?;
    with_framing(alloc, head.as_slice(), framing)
}

// The transforms of these lines, none of which was fed yet.
fn fresh_parts<P: Transform<Line = TransformLine> + Drop>(
    alloc: Global,
    lines: &[TransformLine],
) -> Result<Vec<P>, NoMemory>
    requires { ActsAsLines P.Transform }
    ensures { IfOk result (λ parts. AreOfLines P.Transform lines.now parts.items) }
{
    let mut parts = Vec::new(alloc);
    for line in lines {
        parts.push(P::fresh(alloc, line)?)?;
    }
    Ok(parts)
}

// The reader of bodies for a framing; for a faulty one there is none, as if memory lacked.
fn reader_of(alloc: Global, framing: Framing) -> Result<BodyReader, NoMemory>
    ensures { IfOk result (IsFed framing [] []) }
{
    if let Framing::Faulty = framing {
        return Err(NoMemory);
    }
    BodyReader::make(alloc, framing)
}

/// A body with this framing, of which nothing was read, and the chain of these lines. A body that has ended
/// before its first byte has no way to go, as if memory lacked.
pub(crate) fn make_passage<P: Transform<Line = TransformLine> + Drop>(
    alloc: Global,
    lines: &[TransformLine],
    framing: Framing,
    mode: Mode,
) -> Result<Passage<P>, NoMemory>
    requires { ActsAsLines P.Transform }
    ensures { IfOk result (IsFreshPassage P.Transform lines.now framing mode) }
{
    let body = reader_of(alloc, framing)?;
    let BodyState::Unfinished = body.state() else {
        return Err(NoMemory);
    };
    let parts = fresh_parts(alloc, lines)?;
    let chain = Chain::make(alloc, parts)?;
    Ok(Passage {
        chain,
        body,
        lost: false,
        mode,
        ended: false,
    })
}
