//! Reads of a link that chooses.
ghost use Rattle.std.specs.Prelude.{◌≡◌, ◌+◌, ◌<◌, ◌≤◌, drop, length, true};
ghost use Rattle.ts_link.specs.Link.{Reads};
ghost use Rattle.ts_link.specs.LinkAnswers.{count_got};
ghost use Rattle.ts_intercept.specs.Moving.{Both, EndsWithout, GivesFront, Goes, ReadsBy, ReadsInside};
ghost use Rattle.ts_intercept.specs.Seen.{inside, seen};
ghost use Rattle.ts_intercept.specs.Standing.{IsServing, IsSound};

use crate::choice::{Choice, Stage, counted};
use ts_link::{Got, Link};

// How many bytes one read gives at most of what a line serves.
const MOST_PIECE: usize = 4_096;

// Makes one read of the origin. Without one there is nothing to read, and never will be.
fn read_origin<O: Link>(origin: &mut Option<O>, into: &mut [u8]) -> Got
    requires { 0 < length into.old }
    ensures reads { ReadsInside O.tells
        (inside O.look origin.old) (inside O.look origin.new) result into.new }
    ensures goes { Both O.goes origin.old origin.new }
    ensures without { EndsWithout origin.old result }
{
    match origin {
        Some(link) => link.read(into),
        None => Got::End,
    }
}

// Copies the front of what is left of an answer, and counts it as given.
fn give_front(answer: &[u8], given: &mut usize, into: &mut [u8]) -> Got
    requires room { 0 < length into.old }
    requires within { given.old ≤ length answer.now }
    ensures gives { GivesFront result (drop given.old answer.now) into.new }
    ensures counts { given.new ≡ given.old + count_got result }
    ensures within { given.new ≤ length answer.now }
{
    let rest = answer.split_at(*given).1;
    if rest.is_empty() {
        return Got::End;
    }
    let count = rest.len().min(into.len()).min(MOST_PIECE);
    into[..count].copy_from_slice(&rest[..count]);
    *given += count;
    Got::Bytes(count)
}

// A read that comes before a head is whole: from now on all is handed on.
fn read_early<O: Link>(choice: &mut Choice<O>, into: &mut [u8]) -> Got
    requires room { 0 < length into.old }
    requires stage { choice.old.stage ≡ Stage.Undecided }
    requires sound { IsSound O.tells O.look choice.old }
    ensures reads { Reads O.tells (seen O.look choice.old) (seen O.look choice.new) result into.new }
    ensures goes { Goes O.goes choice.old choice.new }
    ensures sound { IsSound O.tells O.look choice.new }
    ensures early { choice.new.early ≡ true }
    ensures without { EndsWithout choice.old.origin result }
{
    choice.stage = Stage::HandedOn;
    choice.early = true;
    choice.reads = counted(choice.reads);
    read_origin(&mut choice.origin, into)
}

// A read that is handed on.
fn read_on<O: Link>(choice: &mut Choice<O>, into: &mut [u8]) -> Got
    requires room { 0 < length into.old }
    requires stage { choice.old.stage ≡ Stage.HandedOn }
    requires sound { IsSound O.tells O.look choice.old }
    ensures reads { Reads O.tells (seen O.look choice.old) (seen O.look choice.new) result into.new }
    ensures goes { Goes O.goes choice.old choice.new }
    ensures sound { IsSound O.tells O.look choice.new }
    ensures early { choice.new.early ≡ choice.old.early }
    ensures without { EndsWithout choice.old.origin result }
{
    choice.reads = counted(choice.reads);
    read_origin(&mut choice.origin, into)
}

// A read of what a line serves.
fn read_served<O: Link>(choice: &mut Choice<O>, into: &mut [u8]) -> Got
    requires room { 0 < length into.old }
    requires stage { IsServing choice.old.stage }
    requires sound { IsSound O.tells O.look choice.old }
    ensures reads { Reads O.tells (seen O.look choice.old) (seen O.look choice.new) result into.new }
    ensures goes { Goes O.goes choice.old choice.new }
    ensures sound { IsSound O.tells O.look choice.new }
    ensures by { ReadsBy choice.old.stage choice.old choice.new result into.new }
{
    let Stage::Served { answer, given } = &mut choice.stage else {
        unreachable!()
    };
    choice.reads = counted(choice.reads);
    give_front(answer.as_slice(), given, into)
}

/// Makes one read.
pub(crate) fn read_choice<O: Link>(choice: &mut Choice<O>, into: &mut [u8]) -> Got
    requires room { 0 < length into.old }
    requires sound { IsSound O.tells O.look choice.old }
    ensures reads { Reads O.tells (seen O.look choice.old) (seen O.look choice.new) result into.new }
    ensures goes { Goes O.goes choice.old choice.new }
    ensures sound { IsSound O.tells O.look choice.new }
    ensures by { ReadsBy choice.old.stage choice.old choice.new result into.new }
{
    match &choice.stage {
        Stage::Undecided => read_early(choice, into),
        Stage::HandedOn => read_on(choice, into),
        Stage::Served { .. } => read_served(choice, into),
    }
}
