//! The command `transform`: a body passes through the transform lines of a configuration, into a sink.
ghost use Rattle.std.specs.Prelude.{◌≡◌, List, ℕ, IfOk};
ghost use Rattle.ts_transform.specs.Flow.{compose};
ghost use Rattle.ts_config.specs.Bodies.{compose_lines};
ghost use Rattle.ts_stock.specs.Stock.{still_writes};
ghost use Rattle.ts_proxy.specs.Sending.{IsSoundAlone, to_come};
ghost use Rattle.ts_proxy.specs.Outcome.{Text};
ghost use Rattle.ts_proxy.specs.Performed.{IsCarriedOut, IsOfBody, IsPerformed};
ghost use Rattle.ts_proxy.specs.Words.{Over, Transform};

use crate::answer::{Answer, Performed};
use crate::command::TransformTask;
use crate::drive::drive;
use crate::reading::{Files, read_files};
use crate::writing::SendEnd;
use std::alloc::Global;
use ts_config::TransformLine;
use ts_link::{NoMemory, Octets, Shelf, Sink};
use ts_stock::Stock;
use ts_transform::{ChainWorld, Transform};

// The transforms of these lines, none of which was fed yet.
fn fresh_parts(alloc: Global, lines: &[TransformLine]) -> Result<Vec<Stock>, NoMemory>
    ensures { IfOk result (λ parts.
        (z : List ℕ) → compose still_writes parts.items z ≡ compose_lines lines.now z) }
{
    let mut parts = Vec::new(alloc);
    for line in lines {
        parts.push(Stock::fresh(alloc, line)?)?;
    }
    Ok(parts)
}

// The chain of these lines, the first of which acts first, with a body.
fn world_of(
    alloc: Global,
    lines: &[TransformLine],
    body: Octets,
) -> Result<ChainWorld<Stock>, NoMemory>
    ensures flow { IfOk result (λ w. to_come still_writes w ≡ compose_lines lines.now body) }
    ensures sound { IfOk result IsSoundAlone }
{
    let parts = fresh_parts(alloc, lines)?;
    ChainWorld::make(alloc, parts, body)
}

// Writes a body through the lines, the first of which acts first.
fn send_body<K: Sink>(
    alloc: Global,
    lines: &[TransformLine],
    body: Octets,
    out: &mut K,
) -> Performed
    ensures { IsCarriedOut IsOfBody (Text (compose_lines lines.now body)) K.tells
        (K.seen out.old) (K.seen out.new) result.answer result.journals.items }
{
    let Ok(world) = world_of(alloc, lines, body) else {
        return Performed::without(alloc, Answer::OutOfMemory);
    };
    let mut journals = Vec::new(alloc);
    match drive(alloc, world, out, &mut journals) {
        SendEnd::Done => Performed {
            answer: Answer::Done,
            journals,
        },
        SendEnd::Failed => Performed {
            answer: Answer::CannotWrite,
            journals,
        },
        SendEnd::NoMemory => Performed {
            answer: Answer::OutOfMemory,
            journals,
        },
    }
}

/// Writes a body through the transform lines of a configuration, both of which the shelf has under these
/// names. Lines of other kinds have no effect on it.
pub fn perform_transform<S: Shelf, K: Sink>(
    alloc: Global,
    task: &TransformTask<'_>,
    shelf: &mut S,
    out: &mut K,
) -> Performed
    ensures { IsPerformed (Over Transform task.now.config.now task.now.body.now)
        S.tells K.tells (S.seen shelf.old) (S.seen shelf.new) (K.seen out.old) (K.seen out.new)
        result.answer result.journals.items }
{
    let Files { setup, input } = match read_files(alloc, shelf, task.config, task.body) {
        Ok(files) => files,
        Err(answer) => return Performed::without(alloc, answer),
    };
    send_body(alloc, setup.transforms.as_slice(), input, out)
}
