//! What the lines of a configuration make of a body. The stages of a chain do the same piece by piece.
ghost use Rattle.std.specs.Prelude.{◌≡◌, ◌++◌, take, IfOk};
ghost use Rattle.ts_config.specs.Bodies.{mapped, without_byte, whole_of, compose_lines};
ghost use Rattle.ts_config.specs.Bodies.{soon_of, is_early_of, is_early};
ghost use Rattle.ts_block.specs.Acting.{acting};

use crate::content::acts_on;
use std::alloc::Global;
use ts_config::TransformLine;
use ts_link::NoMemory;
use ts_wire::Field;

/// One text behind the other.
pub fn joined(alloc: Global, front: &[u8], rest: &[u8]) -> Result<Vec<u8>, NoMemory>
    ensures { IfOk result (λ made. made.items ≡ front.now ++ rest.now) }
{
    let mut made = Vec::from_slice(alloc, front)?;
    made.extend_from_slice(rest)?;
    Ok(made)
}

// The body with each byte `from` as `to`.
fn mapped(alloc: Global, from: u8, to: u8, body: &[u8]) -> Result<Vec<u8>, NoMemory>
    ensures { IfOk result (λ made. made.items ≡ mapped from to body.now) }
{
    let mut made = Vec::new(alloc);
    for b in body {
        made.push(if *b == from { to } else { *b })?;
    }
    Ok(made)
}

// The body without this byte.
fn without_byte(alloc: Global, byte: u8, body: &[u8]) -> Result<Vec<u8>, NoMemory>
    ensures { IfOk result (λ made. made.items ≡ without_byte byte body.now) }
{
    let mut made = Vec::new(alloc);
    for b in body {
        if *b != byte {
            made.push(*b)?;
        }
    }
    Ok(made)
}

// The first `most` bytes of the body.
fn limited(most: u64, body: Vec<u8>) -> Vec<u8>
    ensures { result.items ≡ take most body.items }
{
    let mut front = body;
    if most < front.len() as u64 {
        front.truncate(most as usize);
    }
    front
}

// What one line makes of a whole body.
fn whole_of(alloc: Global, line: &TransformLine, body: Vec<u8>) -> Result<Vec<u8>, NoMemory>
    ensures { IfOk result (λ made. made.items ≡ whole_of line.now body.items) }
{
    match line {
        TransformLine::Append { text, .. } => joined(alloc, &body, text.bytes()),
        TransformLine::Prepend { text } => joined(alloc, text.bytes(), &body),
        TransformLine::Map { from, to } => mapped(alloc, *from, *to, &body),
        TransformLine::Drop { byte } => without_byte(alloc, *byte, &body),
        TransformLine::Null => Ok(body),
        TransformLine::Bnull => Ok(body),
        TransformLine::Delay { .. } => Ok(body),
        TransformLine::Limit { most } => Ok(limited(*most, body)),
    }
}

// What one line has given of a body that came so far.
fn soon_of(alloc: Global, line: &TransformLine, body: Vec<u8>) -> Result<Vec<u8>, NoMemory>
    ensures { IfOk result (λ made. made.items ≡ soon_of line.now body.items) }
{
    if body.is_empty() {
        return Ok(body);
    }
    match line {
        TransformLine::Append { .. } => Ok(body),
        TransformLine::Bnull => Ok(Vec::new(alloc)),
        _ => whole_of(alloc, line, body),
    }
}

// Whether one line finishes early on a body that came so far.
fn is_early_of(line: &TransformLine, body: &[u8]) -> bool
    ensures { result ≡ is_early_of line.now body.now }
{
    match line {
        TransformLine::Limit { most } => *most <= body.len() as u64,
        _ => false,
    }
}

/// Whether one of the lines that act on a response finishes early on a body that came so far.
pub(crate) fn is_early(
    alloc: Global,
    lines: &[TransformLine],
    status: u16,
    fields: &[Field],
    body: Vec<u8>,
) -> Result<bool, NoMemory>
    ensures { IfOk result (λ early. early ≡ is_early (acting lines.now status fields.now) body.items) }
{
    match lines {
        [] => Ok(false),
        [line, rest @ ..] => {
            if !acts_on(status, fields, line) {
                return is_early(alloc, rest, status, fields, body);
            }
            if is_early_of(line, &body) {
                return Ok(true);
            }
            let given = soon_of(alloc, line, body)?;
            is_early(alloc, rest, status, fields, given)
        }
    }
}

/// What the lines that act on a response make of its whole body, the first line acting first.
pub(crate) fn compose(
    alloc: Global,
    lines: &[TransformLine],
    status: u16,
    fields: &[Field],
    body: Vec<u8>,
) -> Result<Vec<u8>, NoMemory>
    ensures { IfOk result (λ made.
        made.items ≡ compose_lines (acting lines.now status fields.now) body.items) }
{
    match lines {
        [] => Ok(body),
        [line, rest @ ..] => {
            if acts_on(status, fields, line) {
                let made = whole_of(alloc, line, body)?;
                compose(alloc, rest, status, fields, made)
            } else {
                compose(alloc, rest, status, fields, body)
            }
        }
    }
}
