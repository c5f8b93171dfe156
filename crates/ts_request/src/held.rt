//! What a front holds of the bytes that its client gave: the head of a request until it is known, and what is
//! shown of it and follows it from then on.
ghost use Rattle.std.specs.Prelude.{◌≡◌, ◌<◌, ◌≤◌, [], false, length, IfOk};
ghost use Rattle.std.specs.Vec.{vec_capacity};
ghost use Rattle.httparse.specs.Grammar.{HasNoRequest};
ghost use Rattle.ts_link.specs.LinkAnswers.{count_got};
ghost use Rattle.ts_wire.specs.Limits.{head_limit};
ghost use Rattle.ts_request.specs.declared.stage.Stage.{Stage};
ghost use Rattle.ts_request.specs.Held.{BeginsRoom, Copies, FillsFrom, GivesFront, HandsFront, ReadsBehind};
ghost use Rattle.ts_request.specs.Text.{CannotEnd, Decides, before_last, is_heading, no_text};

use crate::finding::{Found, find_upload};
use crate::lines::{blank_len, keep_lines};
use crate::stage::Stage;
use std::alloc::Global;
use std::marker::Model;
use ts_link::{Got, Link, NoMemory};
use ts_wire::MAX_HEAD;

// How many bytes of a head one read takes at most: so much of the room is begun for it.
const MOST_READ: usize = 4096;

// What a front holds. All of it stands in one room, for as many bytes as a head may have, of which no more is
// begun than was read into: first what is shown, and from `from` to `to`, of an upload, what came behind the
// head and was not handed over.
#[derive(Drop)]
pub(crate) struct HeldText {
    stage: Stage,
    room: Vec<u8>,
    // How many bytes of the room are shown, or will be if there is no upload.
    kept: usize,
    // How many of these are of empty lines ahead of the head, while that is read.
    blank: usize,
    // How many of these were given.
    shown: usize,
    // How long the head of an upload was.
    used: usize,
    from: usize,
    to: usize,
}

impl Model for HeldText {
    ghost use Rattle.ts_request.specs.Text.{Text};

    ghost Value = { Text };

    ghost use Rattle.std.specs.Prelude.{◌≡◌, ◌≤◌, length, take, slice_range};
    ghost use Rattle.std.specs.Vec.{vec_capacity};
    ghost use Rattle.ts_wire.specs.Limits.{head_limit};
    ghost use Rattle.ts_request.specs.Lines.{AreBlank};

    ghost view = { λ t. record {
      stage = t.stage;
      front = take t.kept t.room.items;
      shown = t.shown;
      used = t.used;
      behind = slice_range t.room.items t.from t.to;
    } };

    ghost invariant = { λ t. (length t.room.items ≤ head_limit)
        × (t.kept ≤ length t.room.items) × (t.from ≤ t.to) × (t.to ≤ length t.room.items)
        × (t.blank ≤ t.kept) × AreBlank (take t.blank t.room.items) × (head_limit ≤ vec_capacity t.room) };
}

// Room for as many bytes as a head may have, of which none is begun.
fn head_room(alloc: Global) -> Result<Vec<u8>, NoMemory>
    ensures none { IfOk result (λ room. room.items ≡ []) }
    ensures holds { IfOk result (λ room. head_limit ≤ vec_capacity room) }
{
    Ok(Vec::with_capacity(alloc, MAX_HEAD)?)
}

// Begins some of the room behind its first `kept` bytes, for one read.
fn begin_room(room: &mut Vec<u8>, kept: usize)
    requires kept { kept < head_limit }
    requires within { (kept ≤ length room.old.items) × (length room.old.items ≤ head_limit) }
    requires holds { head_limit ≤ vec_capacity room.old }
    ensures begins { BeginsRoom kept room.old.items room.new.items }
    ensures holds { head_limit ≤ vec_capacity room.new }
{
    let end = (kept + MOST_READ).min(MAX_HEAD);
    if end <= room.len() {
        return;
    }
    let Ok(()) = room.resize(end, 0) else {
        unreachable!()
    };
}

// Copies as much of the list as there is room for.
fn copy_front(list: &[u8], into: &mut [u8]) -> usize
    ensures { Copies list.now into.old into.new result }
{
    let count = list.len().min(into.len());
    into[..count].copy_from_slice(&list[..count]);
    count
}

// How many bytes a read put in place.
fn count_of(got: Got) -> usize
    ensures { result ≡ count_got got }
{
    match got {
        Got::Bytes(count) => count,
        _ => 0,
    }
}

// Reads the client into the room behind its first `kept` bytes.
fn read_behind<C: Link>(client: &mut C, room: &mut Vec<u8>, kept: usize) -> Got
    requires { kept < length room.old.items }
    ensures reads { ReadsBehind C.tells kept room.old.items room.new.items
        (C.look client.old) (C.look client.new) result }
    ensures holds { vec_capacity room.old ≤ vec_capacity room.new }
    ensures goes { C.goes client.old client.new }
{
    client.read(&mut room[kept..])
}

impl HeldText {
    // Nothing came yet. It takes all the memory that it ever needs.
    pub(crate) fn make(alloc: Global) -> Result<HeldText, NoMemory>
        ensures { IfOk result (λ t. t ≡ no_text) }
    {
        let room = head_room(alloc)?;
        Ok(HeldText {
            stage: Stage::Heading,
            room,
            kept: 0,
            blank: 0,
            shown: 0,
            used: 0,
            from: 0,
            to: 0,
        })
    }

    pub(crate) fn stage(&self) -> Stage
        ensures { result ≡ self.now.stage }
    {
        self.stage
    }

    pub(crate) fn is_heading(&self) -> bool
        ensures { result ≡ is_heading self.now.stage }
    {
        matches!(self.stage, Stage::Heading)
    }

    // Reads the client behind what is held.
    pub(crate) fn fill<C: Link>(&mut self, client: &mut C) -> Got
        requires room { length self.old.front < head_limit }
        requires behind { self.old.behind ≡ [] }
        ensures fills { FillsFrom C.tells self.old self.new (C.look client.old) (C.look client.new) result }
        ensures goes { C.goes client.old client.new }
    {
        begin_room(&mut self.room, self.kept);
        let got = read_behind(client, &mut self.room, self.kept);
        self.kept += count_of(got);
        self.from = self.kept;
        self.to = self.kept;
        self.blank = blank_len(&self.room, self.blank, self.kept);
        got
    }

    // Whether a head may end within the last `fresh` bytes that are held, or no more of it can be held. A head
    // ends with a line feed, and not among the empty lines ahead of it. So one that comes byte by byte is read
    // once a line, and not at each byte nor at each of the empty lines, of which there may be thousands.
    fn may_end(&self, fresh: usize) -> bool
        requires { fresh ≤ length self.now.front }
        ensures { result ≡ false → CannotEnd fresh self.now.front }
    {
        if self.kept == MAX_HEAD {
            return true;
        }
        if self.blank == self.kept {
            return false;
        }
        self.room[self.kept - fresh..self.kept].contains(&b'\n')
    }

    // Looks whether it is known by now what is shown of the client, once `fresh` more bytes of it came.
    pub(crate) fn decide(&mut self, fresh: usize)
        requires heading { self.old.stage ≡ Stage.Heading }
        requires shown { self.old.shown ≡ 0 }
        requires behind { self.old.behind ≡ [] }
        requires fresh { fresh ≤ length self.old.front }
        requires none { HasNoRequest (before_last fresh self.old.front) }
        ensures { Decides self.old self.new self.new.stage }
    {
        if !self.may_end(fresh) {
            return;
        }
        match find_upload(&self.room[..self.kept]) {
            Found::More => {}
            Found::Never => self.stage = Stage::Passing,
            Found::Upload { framing, used } => {
                self.blank = 0;
                self.to = self.kept;
                self.from = used;
                self.used = used;
                self.kept = keep_lines(&mut self.room, used);
                self.stage = Stage::Uploading(framing);
            }
        }
    }

    // The client has ended before a whole head: there is no upload.
    pub(crate) fn pass(&mut self)
        ensures { self.new ≡ record self.old { stage = Stage.Passing } }
    {
        self.stage = Stage::Passing;
    }

    // Gives some of what waits, and answers how many bytes.
    pub(crate) fn give(&mut self, into: &mut [u8]) -> usize
        requires { self.old.shown ≤ length self.old.front }
        ensures { GivesFront self.old self.new into.old into.new result }
    {
        let count = copy_front(&self.room[self.shown..self.kept], into);
        self.shown += count;
        count
    }

    // Hands over some of what came behind the head, and answers how many bytes.
    pub(crate) fn hand_over(&mut self, into: &mut [u8]) -> usize
        ensures { HandsFront self.old self.new into.old into.new result }
    {
        let count = copy_front(&self.room[self.from..self.to], into);
        self.from += count;
        count
    }
}
