//! What a line serves in place of an origin.
ghost use Rattle.std.specs.Prelude.{◌≡◌, ◌≤◌, length, IfOk};
ghost use Rattle.ts_intercept.specs.Limits.{most_held};
ghost use Rattle.ts_intercept.specs.Served.{head_room, ok_head, room_of, served};

use std::alloc::Global;
use ts_config::InterceptKind;
use ts_link::NoMemory;
use ts_wire::{ClientFraming, framing_line};

// How the head of an answer begins.
const OK_START: &[u8] = b"HTTP/1.1 200 OK\r\ncontent-type: text/plain\r\n";

// The end of a line.
const LINE_END: &[u8] = b"\r\n";

// The head of an answer with a body of so many bytes.
fn ok_head(alloc: Global, n: u64) -> Result<Vec<u8>, NoMemory>
    ensures text { IfOk result (λ head. head.items ≡ ok_head n) }
    ensures short { IfOk result (λ head. length head.items ≤ head_room) }
{
    let line = framing_line(alloc, ClientFraming::Sized(n))?;
    let mut head = Vec::from_slice(alloc, OK_START)?;
    head.extend_from_slice(line.bytes())?;
    head.extend_from_slice(LINE_END)?;
    Ok(head)
}

fn echo(alloc: Global, head: &[u8]) -> Result<Vec<u8>, NoMemory>
    ensures text { IfOk result (λ answer. answer.items ≡ served InterceptKind.Echo head.now) }
    ensures room { length head.now ≤ most_held
        → IfOk result (λ answer. length answer.items ≤ room_of InterceptKind.Echo) }
{
    let mut answer = ok_head(alloc, head.len() as u64)?;
    answer.extend_from_slice(head)?;
    Ok(answer)
}

fn fill(alloc: Global, n: u32, head: &[u8]) -> Result<Vec<u8>, NoMemory>
    ensures text { IfOk result (λ answer. answer.items ≡ served (InterceptKind.Fill n) head.now) }
    ensures room { IfOk result (λ answer. length answer.items ≤ room_of (InterceptKind.Fill n)) }
{
    let mut answer = ok_head(alloc, n as u64)?;
    let whole = answer.len() + n as usize;
    answer.resize(whole, b'x')?;
    Ok(answer)
}

/// What a line of this kind serves to a request with this head.
pub(crate) fn answer_of(
    alloc: Global,
    kind: &InterceptKind,
    head: &[u8],
) -> Result<Vec<u8>, NoMemory>
    ensures text { IfOk result (λ answer. answer.items ≡ served kind.now head.now) }
    ensures room { length head.now ≤ most_held
        → IfOk result (λ answer. length answer.items ≤ room_of kind.now) }
{
    match kind {
        InterceptKind::Echo => echo(alloc, head),
        InterceptKind::Fill { n } => fill(alloc, *n, head),
        InterceptKind::File { text, .. } => Ok(Vec::from_slice(alloc, text.bytes())?),
    }
}
