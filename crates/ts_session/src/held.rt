//! The bytes that a client gave and that were not given on yet.
ghost use Rattle.std.specs.Prelude.{◌≡◌, ◌<◌, ◌≤◌, ◌++◌, ◌-◌, [], length, min, take, true, false};
ghost use Rattle.std.specs.Prelude.{slice_range, IfOk};
ghost use Rattle.ts_link.specs.LinkAnswers.{count_got};
ghost use Rattle.ts_session.specs.Held.{CannotEnd, CopiesMost, FillsFrom, GivesFront, ReadsBehind};
ghost use Rattle.ts_wire.specs.Limits.{head_limit};

use crate::blank::blank_len;
use std::alloc::Global;
use std::marker::Model;
use ts_link::{Got, NoMemory, Sourced};
use ts_wire::MAX_HEAD;

/// Bytes that a client gave, held in a room as long as a head may be: those from `from` to `to` of it.
#[derive(Drop)]
pub struct Held {
    room: Vec<u8>,
    from: usize,
    to: usize,
    // How many of these bytes are known to be of empty lines ahead of a head.
    blank: usize,
}

impl Model for Held {
    ghost use Rattle.std.specs.Prelude.{List, ℕ};

    ghost Value = { List ℕ };

    ghost use Rattle.std.specs.Prelude.{◌≡◌, ◌≤◌, ◌-◌, drop, length, slice_range, take};
    ghost use Rattle.ts_wire.specs.Limits.{head_limit};
    ghost use Rattle.ts_session.specs.Held.{AreBlank};

    ghost view = { λ h. slice_range h.room.items h.from h.to };

    ghost invariant = { λ h. (length h.room.items ≡ head_limit) × (h.from ≤ h.to) × (h.to ≤ head_limit)
        × (h.blank ≤ h.to - h.from) × AreBlank (take h.blank (drop h.from h.room.items)) };
}

// The room for as many bytes as a head may have.
fn head_room(alloc: Global) -> Result<Vec<u8>, NoMemory>
    ensures { IfOk result (λ room. length room.items ≡ head_limit) }
{
    let mut room = Vec::new(alloc);
    room.resize(MAX_HEAD, 0)?;
    Ok(room)
}

// How many of so many bytes may be given.
fn most_of(len: usize, most: u64) -> usize
    ensures { result ≡ min len most }
{
    if most < len as u64 {
        most as usize
    } else {
        len
    }
}

// Copies as much of the list as there is room for, `most` bytes at most.
fn copy_most(list: &[u8], into: &mut [u8], most: u64) -> usize
    ensures { CopiesMost list.now most into.old into.new result }
{
    let count = most_of(list.len().min(into.len()), most);
    into[..count].copy_from_slice(&list[..count]);
    count
}

// How many bytes a read put in place.
fn count_of(got: Got) -> usize
    ensures { result ≡ count_got got }
{
    match got {
        Got::Bytes(count) => count,
        _ => 0,
    }
}

// Moves a part of the room to its front.
fn move_front(room: &mut Vec<u8>, from: usize, to: usize)
    requires ordered { from ≤ to }
    requires within { to ≤ length room.old.items }
    ensures front { take (to - from) room.new.items ≡ slice_range room.old.items from to }
    ensures len { length room.new.items ≡ length room.old.items }
{
    room.as_mut_slice().copy_within(from..to, 0);
}

// Reads the client into the room behind its first `kept` bytes.
fn read_behind<C: Sourced>(client: &mut C, room: &mut Vec<u8>, kept: usize) -> Got
    requires { kept < length room.old.items }
    ensures reads { ReadsBehind C.tells kept room.old.items room.new.items
        (C.look client.old) (C.look client.new) result }
    ensures goes { C.goes client.old client.new }
{
    let got = client.read(&mut room[kept..]);
    client.known();
    got
}

impl Held {
    // Nothing is held. It takes all the memory that it ever needs.
    pub(crate) fn make(alloc: Global) -> Result<Held, NoMemory>
        ensures { IfOk result (λ h. h ≡ []) }
    {
        let room = head_room(alloc)?;
        Ok(Held {
            room,
            from: 0,
            to: 0,
            blank: 0,
        })
    }

    // What is held.
    pub(crate) fn bytes(&self) -> &[u8]
        ensures value { result.now ≡ self.now }
        ensures fits { length result.now ≤ head_limit }
    {
        &self.room[self.from..self.to]
    }

    // How many bytes are held.
    pub(crate) fn len(&self) -> usize
        ensures { result ≡ length self.now }
    {
        self.bytes().len()
    }

    pub(crate) fn is_empty(&self) -> bool
        ensures none { result ≡ true → self.now ≡ [] }
        ensures some { result ≡ false → 0 < length self.now }
    {
        self.bytes().is_empty()
    }

    // Reads the client behind what is held.
    pub(crate) fn fill<C: Sourced>(&mut self, client: &mut C) -> Got
        requires { length self.old < head_limit }
        ensures fills { FillsFrom C.tells self.old self.new (C.look client.old) (C.look client.new) result }
        ensures goes { C.goes client.old client.new }
    {
        let len = self.to - self.from;
        move_front(&mut self.room, self.from, self.to);
        let got = read_behind(client, &mut self.room, len);
        self.from = 0;
        self.to = len + count_of(got);
        self.blank = blank_len(&self.room, self.blank, self.to);
        got
    }

    // Gives some of what is held, `most` bytes at most, and answers how many.
    pub(crate) fn give(&mut self, into: &mut [u8], most: u64) -> usize
        ensures { GivesFront self.old self.new most into.old into.new result }
    {
        let held = &self.room[self.from..self.to];
        let count = copy_most(held, into, most);
        self.from += count;
        self.blank = 0;
        count
    }

    // Whether a head may end within the last `fresh` bytes that are held, or no more of it can be held. A
    // head ends with a line feed, and not among the empty lines ahead of it. So one that comes byte by byte
    // is read once a line, and not at each byte nor at each of the empty lines.
    pub(crate) fn may_end(&self, fresh: usize) -> bool
        requires { fresh ≤ length self.now }
        ensures { result ≡ false → CannotEnd fresh self.now }
    {
        let len = self.to - self.from;
        if len == MAX_HEAD {
            return true;
        }
        if self.blank == len {
            return false;
        }
        self.room[self.to - fresh..self.to].contains(&b'\n')
    }
}
