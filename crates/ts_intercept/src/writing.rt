//! Writes to a link that chooses.
ghost use Rattle.std.specs.Prelude.{◌≡◌, ◌+◌, ◌<◌, ◌≤◌, ◌++◌, length, is_some, true, IfOk, IsErr, OnErr};
ghost use Rattle.std.specs.Prelude.{OnOk};
ghost use Rattle.ts_link.specs.Link.{Writes};
ghost use Rattle.ts_link.specs.LinkAnswers.{writes_after};
ghost use Rattle.ts_intercept.specs.Deciding.{Decides, HasRoom};
ghost use Rattle.ts_intercept.specs.Limits.{most_held};
ghost use Rattle.ts_intercept.specs.Moving.{Goes, HoldsNoMore};
ghost use Rattle.ts_intercept.specs.Seen.{seen};
ghost use Rattle.ts_intercept.specs.Standing.{HoldsNothing, IsSound, MayDrop};

use crate::choice::{Choice, MOST_HELD, Stage, counted};
use crate::deciding::decide;
use std::alloc::Global;
use ts_config::InterceptLine;
use ts_link::{Link, NoMemory, Put};

// Holds a piece behind what is held, unless that would be too much.
fn hold(held: &mut Vec<u8>, piece: &[u8]) -> Result<(), NoMemory>
    requires { length held.old.items ≤ most_held }
    ensures ok { OnOk result (held.new.items ≡ held.old.items ++ piece.now) }
    ensures few { length held.new.items ≤ most_held }
    ensures err { OnErr result (held.new.items ≡ held.old.items) }
    ensures limit { most_held < length held.old.items + length piece.now → IsErr result }
{
    if piece.len() > MOST_HELD - held.len() {
        return Err(NoMemory);
    }
    held.extend_from_slice(piece)?;
    Ok(())
}

// Holds a piece behind what is held, and says who answers.
fn hold_and_decide(
    alloc: Global,
    lines: &[InterceptLine],
    held: &mut Vec<u8>,
    piece: &[u8],
) -> Result<Stage, NoMemory>
    requires { length held.old.items ≤ most_held }
    ensures ok { OnOk result (held.new.items ≡ held.old.items ++ piece.now) }
    ensures few { length held.new.items ≤ most_held }
    ensures decides { IfOk result (Decides lines.now held.new.items) }
    ensures room { IfOk result (HasRoom lines.now) }
    ensures err { OnErr result (held.new.items ≡ held.old.items) }
    ensures limit { most_held < length held.old.items + length piece.now → IsErr result }
{
    let before = held.len();
    hold(held, piece)?;
    match decide(alloc, lines, held.as_slice()) {
        Ok(stage) => Ok(stage),
        Err(refusal) => {
            held.truncate(before);
            Err(refusal)
        }
    }
}

// The number of writes after this one.
fn writes_after(put: Put, writes: u64) -> u64
    ensures { result ≡ writes_after put writes }
{
    match put {
        Put::NoMemory => writes,
        _ => counted(writes),
    }
}

// A write while it is open who answers.
fn write_undecided<O: Link>(choice: &mut Choice<O>, piece: &[u8]) -> Put
    requires some { 0 < length piece.now }
    requires stage { choice.old.stage ≡ Stage.Undecided }
    requires sound { IsSound O.tells O.look choice.old }
    ensures writes { Writes O.tells (seen O.look choice.old) (seen O.look choice.new) result piece.now }
    ensures goes { Goes O.goes choice.old choice.new }
    ensures sound { IsSound O.tells O.look choice.new }
    ensures early { choice.new.early ≡ choice.old.early }
    ensures limit { HoldsNoMore choice.old piece.now result }
{
    let lines = choice.setup.intercepts.as_slice();
    match hold_and_decide(choice.alloc, lines, &mut choice.held, piece) {
        Ok(stage) => {
            choice.stage = stage;
            choice.writes = counted(choice.writes);
            Put::Took(piece.len())
        }
        Err(NoMemory) => Put::NoMemory,
    }
}

// A write behind what is held for the origin.
fn write_behind<O: Link>(choice: &mut Choice<O>, piece: &[u8]) -> Put
    requires some { 0 < length piece.now }
    requires stage { choice.old.stage ≡ Stage.HandedOn }
    requires origin { is_some choice.old.origin ≡ true }
    requires sound { IsSound O.tells O.look choice.old }
    ensures writes { Writes O.tells (seen O.look choice.old) (seen O.look choice.new) result piece.now }
    ensures goes { Goes O.goes choice.old choice.new }
    ensures sound { IsSound O.tells O.look choice.new }
    ensures early { choice.new.early ≡ choice.old.early }
{
    match hold(&mut choice.held, piece) {
        Ok(()) => {
            choice.writes = counted(choice.writes);
            Put::Took(piece.len())
        }
        Err(NoMemory) => Put::NoMemory,
    }
}

// A write that is handed on.
fn write_on<O: Link>(choice: &mut Choice<O>, piece: &[u8]) -> Put
    requires some { 0 < length piece.now }
    requires stage { choice.old.stage ≡ Stage.HandedOn }
    requires nothing { HoldsNothing choice.old }
    requires sound { IsSound O.tells O.look choice.old }
    ensures writes { Writes O.tells (seen O.look choice.old) (seen O.look choice.new) result piece.now }
    ensures goes { Goes O.goes choice.old choice.new }
    ensures sound { IsSound O.tells O.look choice.new }
    ensures early { choice.new.early ≡ choice.old.early }
{
    let Some(origin) = &mut choice.origin else {
        unreachable!()
    };
    let put = origin.write(piece);
    choice.writes = writes_after(put, choice.writes);
    put
}

// A write that nobody takes: it is dropped.
fn drop_piece<O: Link>(choice: &mut Choice<O>, piece: &[u8]) -> Put
    requires some { 0 < length piece.now }
    requires nobody { MayDrop choice.old.stage choice.old.origin }
    requires sound { IsSound O.tells O.look choice.old }
    ensures writes { Writes O.tells (seen O.look choice.old) (seen O.look choice.new) result piece.now }
    ensures goes { Goes O.goes choice.old choice.new }
    ensures sound { IsSound O.tells O.look choice.new }
    ensures early { choice.new.early ≡ choice.old.early }
{
    choice.gone.add(piece);
    choice.writes = counted(choice.writes);
    Put::Took(piece.len())
}

// A write to the origin, behind what is held for it, or to nobody.
fn write_handed<O: Link>(choice: &mut Choice<O>, piece: &[u8]) -> Put
    requires some { 0 < length piece.now }
    requires stage { choice.old.stage ≡ Stage.HandedOn }
    requires sound { IsSound O.tells O.look choice.old }
    ensures writes { Writes O.tells (seen O.look choice.old) (seen O.look choice.new) result piece.now }
    ensures goes { Goes O.goes choice.old choice.new }
    ensures sound { IsSound O.tells O.look choice.new }
    ensures early { choice.new.early ≡ choice.old.early }
{
    if choice.origin.is_none() {
        return drop_piece(choice, piece);
    }
    if choice.sent < choice.held.len() {
        return write_behind(choice, piece);
    }
    write_on(choice, piece)
}

/// Makes one write.
pub(crate) fn write_choice<O: Link>(choice: &mut Choice<O>, piece: &[u8]) -> Put
    requires some { 0 < length piece.now }
    requires sound { IsSound O.tells O.look choice.old }
    ensures writes { Writes O.tells (seen O.look choice.old) (seen O.look choice.new) result piece.now }
    ensures goes { Goes O.goes choice.old choice.new }
    ensures sound { IsSound O.tells O.look choice.new }
    ensures early { choice.new.early ≡ choice.old.early }
    ensures limit { HoldsNoMore choice.old piece.now result }
{
    match &choice.stage {
        Stage::Undecided => write_undecided(choice, piece),
        Stage::HandedOn => write_handed(choice, piece),
        Stage::Served { .. } => drop_piece(choice, piece),
    }
}
