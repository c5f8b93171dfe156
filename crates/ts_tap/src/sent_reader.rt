//! Finds the body data in what a client takes.
ghost use Rattle.std.specs.Prelude.{◌≡◌, ◌+◌, ◌<◌, ◌≤◌, ◌++◌, List, ℕ, [], length, take, drop, true, IfOk};
ghost use Rattle.std.specs.Prelude.{vec_capacity, vec_len};
ghost use Rattle.ts_tap.specs.Sending.{FollowsEnd, HasSeen, IsOneLine, IsTail, SeesFront, passed_by};
ghost use Rattle.ts_tap.specs.SentBody.{EndsWith};

use crate::room::{append, remove_front};
use memchr::memchr;
use std::alloc::Global;
use std::marker::Model;
use ts_link::NoMemory;
use ts_wire::{BodyReader, BodyState, Fed, Framing};

// How many of the last bytes of a head tell how it ends: as many as `CHUNKED_END` has.
const TAIL: usize = 51;

const BLANK_END: &[u8] = b"\r\n\r\n";

const CHUNKED_END: &[u8] = b"\r\ntransfer-encoding: chunked\r\nconnection: close\r\n\r\n";

/// What comes next of a response.
#[derive(Clone, Copy)]
pub(crate) enum Part {
    /// Its head.
    Head,
    /// A body in chunks.
    Chunks,
    /// A body as it is.
    Plain,
}

/// A reader of what a client takes, a head and then a body. It keeps as much of the head as tells how that
/// ends.
#[derive(Drop)]
pub(crate) struct SentReader {
    part: Part,
    tail: Vec<u8>,
    chunks: BodyReader,
}

impl Model for SentReader {
    ghost use Rattle.std.specs.Prelude.{◌≤◌, vec_capacity};
    ghost use Rattle.ts_tap.specs.declared.sent_reader.TheConstants.{TAIL};
    ghost use Rattle.ts_tap.specs.Sending.{Sent};

    ghost Value = { Sent };

    ghost view = { λ r. record { part = r.part; tail = r.tail.items; chunks = r.chunks } };

    ghost invariant = { λ r. TAIL ≤ vec_capacity r.tail };
}

/// What was found at the front of some bytes: body data, and what was not looked at.
#[derive(Clone, Copy)]
pub(crate) struct Seen<'b> {
    pub body: &'b [u8],
    pub rest: &'b [u8],
}

/// How many bytes there are up to the first line feed, with it, or in all.
fn line_len(bytes: &[u8]) -> usize
    requires { 0 < length bytes.now }
    ensures some { 0 < result }
    ensures within { result ≤ length bytes.now }
    ensures line { IsOneLine (take result bytes.now) }
{
    match memchr(b'\n', bytes) {
        Some(place) => place + 1,
        None => bytes.len(),
    }
}

/// Whether the bytes end so.
fn is_ended_by(bytes: &[u8], end: &[u8]) -> bool
    ensures yes { result ≡ true → EndsWith bytes.now end.now }
    ensures no { EndsWith bytes.now end.now → result ≡ true }
{
    bytes.ends_with(end)
}

/// Keeps the last bytes of a text that goes on with these.
fn keep_last(tail: &mut Vec<u8>, bytes: &[u8])
    requires { TAIL ≤ vec_capacity tail.old }
    ensures tail { (text : List ℕ) → IsTail text tail.old.items
        → IsTail (text ++ bytes.now) tail.new.items }
    ensures room { TAIL ≤ vec_capacity tail.new }
{
    if bytes.len() >= TAIL {
        let (_, last) = bytes.split_at(bytes.len() - TAIL);
        tail.clear();
        append(tail, last);
    } else {
        let over = tail.len().saturating_sub(TAIL - bytes.len());
        remove_front(tail, over);
        append(tail, bytes);
    }
}

/// What comes behind these last bytes of a head.
fn part_behind(tail: &[u8]) -> Part
    ensures { FollowsEnd tail.now result }
{
    if !is_ended_by(tail, BLANK_END) {
        return Part::Head;
    }
    if is_ended_by(tail, CHUNKED_END) {
        Part::Chunks
    } else {
        Part::Plain
    }
}

/// How many of so many bytes a reader of chunks passes over: all of them at the end of its body.
fn passed(fed: Fed, count: usize) -> usize
    ensures { result ≡ passed_by fed.state fed.taken count }
{
    match fed.state {
        BodyState::Unfinished => fed.taken,
        _ => count,
    }
}

impl SentReader {
    /// A reader that saw nothing.
    pub fn make(alloc: Global) -> Result<SentReader, NoMemory>
        ensures { IfOk result (HasSeen [] []) }
    {
        let tail = Vec::with_capacity(alloc, TAIL)?;
        let chunks = BodyReader::make(alloc, Framing::Chunked)?;
        Ok(SentReader {
            part: Part::Head,
            tail,
            chunks,
        })
    }

    // Takes the bytes up to the first line feed into the head.
    fn see_head<'b>(&mut self, bytes: &'b [u8]) -> Seen<'b>
        requires some { 0 < length bytes.now }
        requires part { self.old.part ≡ Part.Head }
        ensures { SeesFront self.old self.new bytes.now result.body.now result.rest.now }
    {
        let (line, rest) = bytes.split_at(line_len(bytes));
        keep_last(&mut self.tail, line);
        self.part = part_behind(&self.tail);
        Seen { body: &[], rest }
    }

    // Finds the content of a chunk, or passes over its line. What comes behind the last chunk is none.
    fn see_chunks<'b>(&mut self, bytes: &'b [u8]) -> Seen<'b>
        requires some { 0 < length bytes.now }
        requires part { self.old.part ≡ Part.Chunks }
        ensures { SeesFront self.old self.new bytes.now result.body.now result.rest.now }
    {
        let fed = self.chunks.feed(bytes);
        let body = &bytes[fed.from..fed.to];
        let (_, rest) = bytes.split_at(passed(fed, bytes.len()));
        Seen { body, rest }
    }

    /// Takes a front of the bytes, which are not empty, and finds the body data in it.
    pub fn see<'b>(&mut self, bytes: &'b [u8]) -> Seen<'b>
        requires { 0 < length bytes.now }
        ensures { SeesFront self.old self.new bytes.now result.body.now result.rest.now }
    {
        match self.part {
            Part::Head => self.see_head(bytes),
            Part::Chunks => self.see_chunks(bytes),
            Part::Plain => Seen {
                body: bytes,
                rest: &[],
            },
        }
    }
}
