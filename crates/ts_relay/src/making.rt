//! How the chain of a body is made: the transforms of the lines that act on a response, in their order.
ghost use Rattle.std.specs.Prelude.{◌≡◌, [], true, false, IfOk};
ghost use Rattle.ts_wire.specs.Place.{IsFed};
ghost use Rattle.ts_block.specs.Acting.{acting};
ghost use Rattle.ts_block.specs.Relayed.{if_body};
ghost use Rattle.ts_block.specs.Block.{body_lines, lines_for};
ghost use Rattle.ts_relay.specs.Entering.{IsFreshRelay, KnowsPauses, PausesNowhere};
ghost use Rattle.ts_passing.specs.Lines.{ActsAsLines};
ghost use Rattle.ts_passing.specs.Inserted.{AreOfLines, IsOfParts};

use crate::relay::Relay;
use std::alloc::Global;
use ts_block::{acts_on, framing_between};
use ts_config::{Setup, TransformLine};
use ts_link::NoMemory;
use ts_transform::{Chain, DrivenChain, Transform};
use ts_wire::{BodyReader, Field, Framing, RequestHead, ResponseHead};

// The transforms of the lines that act on a response, none of which was fed yet.
fn fresh_parts<P: Transform<Line = TransformLine> + Drop>(
    alloc: Global,
    lines: &[TransformLine],
    status: u16,
    fields: &[Field],
) -> Result<Vec<P>, NoMemory>
    requires { ActsAsLines P.Transform }
    ensures { IfOk result
        (λ parts. AreOfLines P.Transform (acting lines.now status fields.now) parts.items) }
{
    let mut parts = Vec::new(alloc);
    for line in lines {
        if acts_on(status, fields, line) {
            parts.push(P::fresh(alloc, line)?)?;
        }
    }
    Ok(parts)
}

// The transforms that a body goes through: none, where there is no body.
fn body_parts<P: Transform<Line = TransformLine> + Drop>(
    alloc: Global,
    setup: &Setup,
    framing: Framing,
    head: &ResponseHead,
) -> Result<Vec<P>, NoMemory>
    requires { ActsAsLines P.Transform }
    ensures { IfOk result
        (λ parts. AreOfLines P.Transform (if_body framing (lines_for setup.now head.now))
        parts.items) }
{
    if let Framing::Nothing = framing {
        return Ok(Vec::new(alloc));
    }
    fresh_parts(
        alloc,
        setup.transforms.as_slice(),
        head.status,
        head.fields.items(),
    )
}

// The reader of bodies for a framing; for a faulty one there is none, as if memory lacked.
fn reader_of(alloc: Global, framing: Framing) -> Result<BodyReader, NoMemory>
    ensures { IfOk result (IsFed framing [] []) }
{
    if let Framing::Faulty = framing {
        return Err(NoMemory);
    }
    BodyReader::make(alloc, framing)
}

// Whether a stage of a chain pauses between two of its events.
fn has_pause<P: Transform + Drop>(chain: &Chain<P>) -> bool
    ensures some { result ≡ true → PausesNowhere P.pause chain.now.stages → ⊥ }
    ensures none { result ≡ false → PausesNowhere P.pause chain.now.stages }
{
    for stage in 0..chain.stages() {
        if chain.pause(stage) > 0 {
            return true;
        }
    }
    false
}

/// What passes on the body of a response. Nothing of it was begun.
pub fn make_relay<P: Transform<Line = TransformLine> + Drop>(
    alloc: Global,
    setup: &Setup,
    request: &RequestHead,
    head: &ResponseHead,
) -> Result<Relay<P>, NoMemory>
    requires { ActsAsLines P.Transform }
    ensures fresh { IfOk result (IsFreshRelay P.Transform setup.now request.now head.now) }
    ensures parts { IfOk result (λ r. IsOfParts P.Transform
        (body_lines setup.now request.now head.now) r.driven.chain) }
    ensures pauses { IfOk result (KnowsPauses P.pause) }
{
    let framing = framing_between(request, head);
    let body = reader_of(alloc, framing)?;
    let parts = body_parts(alloc, setup, framing, head)?;
    let chain = Chain::make(alloc, parts)?;
    let pauses = has_pause(&chain);
    Ok(Relay {
        driven: DrivenChain::make(alloc, chain),
        body,
        reader: None,
        short: None,
        pauses,
        fed: 0,
    })
}
