//! A reader of bodies stands in one of these phases, and takes a step in each.
ghost use Rattle.std.specs.Prelude.{◌≡◌, ◌+◌, ◌-◌, ◌^◌, ◌<◌, ◌≤◌, ◌++◌, [], List, ℕ, length, min, vec_len, vec_capacity, if◌then◌else◌};
ghost use Rattle.ts_wire.specs.Limits.{body_limit, line_limit, trailer_limit, word_limit};
ghost use Rattle.ts_wire.specs.Body.{line_feeds};
ghost use Rattle.ts_wire.specs.Judged.{JudgesLine, JudgesTrailer, phase_after, is_line, is_trailer};
ghost use Rattle.ts_wire.specs.Place.{room_of, IsSoundPhase, StepsOn};

use crate::framing::MAX_BODY;
use crate::heads::MAX_FIELDS;
use crate::values::front;
use httparse::spans::{EMPTY_HEADER_SPAN, parse_headers};
use httparse::{Error, Status, parse_chunk_size};

/// How many bytes a chunk line may have.
pub const MAX_LINE: usize = 4096;

/// How many bytes a trailer section may have.
pub const MAX_TRAILER: usize = 16384;

/// How many line feeds a trailer section may have: one for each field, and one for its empty line.
pub const MAX_TRAILER_LINES: usize = 65;

/// Which part of a body comes next.
#[derive(Clone, Copy)]
pub enum BodyPhase {
    /// So many bytes of a body of a known length.
    Counted(u64),
    /// Bytes of a body up to the close.
    Open,
    /// The rest of a chunk line.
    Line,
    /// So many bytes of a chunk's content.
    Content(u64),
    /// The CR LF after it.
    Gap,
    /// The LF of that.
    GapEnd,
    /// The rest of the trailer section.
    Trailer,
    /// Nothing: the body has ended.
    Ended,
    /// Nothing: the body is bad.
    Bad,
}

/// What a reader does with a front of some bytes: it takes `taken` of them, those from `from` to `to` are
/// body, and `phase` is next.
#[derive(Clone, Copy)]
pub struct FrontStep {
    pub phase: BodyPhase,
    pub taken: usize,
    pub from: usize,
    pub to: usize,
}

/// A front of the bytes that is all body.
fn body_step(phase: BodyPhase, n: usize) -> FrontStep
    ensures { result ≡ record { phase = phase; taken = n; from = 0; to = n } }
{
    FrontStep {
        phase,
        taken: n,
        from: 0,
        to: n,
    }
}

/// A front of the bytes that is no body.
fn frame_step(phase: BodyPhase, n: usize) -> FrontStep
    ensures { result ≡ record { phase = phase; taken = n; from = 0; to = 0 } }
{
    FrontStep {
        phase,
        taken: n,
        from: 0,
        to: 0,
    }
}

/// How many of so many bytes are there.
fn part_of(left: u64, bytes: &[u8]) -> usize
    ensures { result ≡ min left (length bytes.now) }
{
    let len = bytes.len();
    if left < len as u64 {
        left as usize
    } else {
        len
    }
}

fn counted_step(left: u64, held: &[u8], total: u64, bytes: &[u8]) -> FrontStep
    requires { IsSoundPhase (BodyPhase.Counted left) held.now total }
    ensures { StepsOn (BodyPhase.Counted left) held.now total bytes.now result held.now }
{
    let n = part_of(left, bytes);
    let rest = left - n as u64;
    if rest == 0 {
        return body_step(BodyPhase::Ended, n);
    }
    body_step(BodyPhase::Counted(rest), n)
}

fn content_step(left: u64, held: &[u8], total: u64, bytes: &[u8]) -> FrontStep
    requires { IsSoundPhase (BodyPhase.Content left) held.now total }
    ensures { StepsOn (BodyPhase.Content left) held.now total bytes.now result held.now }
{
    let n = part_of(left, bytes);
    let rest = left - n as u64;
    if rest == 0 {
        return body_step(BodyPhase::Gap, n);
    }
    body_step(BodyPhase::Content(rest), n)
}

fn open_step(held: &[u8], total: u64, bytes: &[u8]) -> FrontStep
    requires { IsSoundPhase BodyPhase.Open held.now total }
    ensures { StepsOn BodyPhase.Open held.now total bytes.now result held.now }
{
    let n = part_of(MAX_BODY - total, bytes);
    if n == bytes.len() {
        return body_step(BodyPhase::Open, n);
    }
    FrontStep {
        phase: BodyPhase::Bad,
        taken: bytes.len(),
        from: 0,
        to: n,
    }
}

fn gap_step(held: &[u8], total: u64, bytes: &[u8]) -> FrontStep
    requires { IsSoundPhase BodyPhase.Gap held.now total }
    ensures { StepsOn BodyPhase.Gap held.now total bytes.now result held.now }
{
    if bytes.is_empty() {
        return frame_step(BodyPhase::Gap, 0);
    }
    if bytes[0] != b'\r' {
        return frame_step(BodyPhase::Bad, 1);
    }
    if bytes.len() == 1 {
        return frame_step(BodyPhase::GapEnd, 1);
    }
    if bytes[1] != b'\n' {
        return frame_step(BodyPhase::Bad, 2);
    }
    frame_step(BodyPhase::Line, 2)
}

fn gap_end_step(held: &[u8], total: u64, bytes: &[u8]) -> FrontStep
    requires { IsSoundPhase BodyPhase.GapEnd held.now total }
    ensures { StepsOn BodyPhase.GapEnd held.now total bytes.now result held.now }
{
    if bytes.is_empty() {
        return frame_step(BodyPhase::GapEnd, 0);
    }
    if bytes[0] != b'\n' {
        return frame_step(BodyPhase::Bad, 1);
    }
    frame_step(BodyPhase::Line, 1)
}

/// What a text is: which phase follows, and how many of its bytes belong to the line or the section.
#[derive(Clone, Copy)]
struct Judged {
    phase: BodyPhase,
    len: usize,
}

/// What follows a chunk line of this size.
fn phase_after(size: u64, total: u64) -> BodyPhase
    requires { total ≤ body_limit }
    ensures { result ≡ phase_after size total }
{
    if size > MAX_BODY - total {
        BodyPhase::Bad
    } else if size == 0 {
        BodyPhase::Trailer
    } else {
        BodyPhase::Content(size)
    }
}

/// What a text is that begins where a chunk line does, in a body that has `total` bytes before it.
fn judge_line(text: &[u8], total: u64) -> Judged
    requires short { length text.now ≤ line_limit }
    requires total { total ≤ body_limit }
    ensures { JudgesLine text.now total result.phase result.len }
{
    match parse_chunk_size(text) {
        Ok(Status::Complete((len, size))) => Judged {
            phase: phase_after(size, total),
            len,
        },
        Ok(Status::Partial) => {
            if text.len() < MAX_LINE {
                Judged {
                    phase: BodyPhase::Line,
                    len: text.len(),
                }
            } else {
                Judged {
                    phase: BodyPhase::Bad,
                    len: text.len(),
                }
            }
        }
        Err(_) => Judged {
            phase: BodyPhase::Bad,
            len: text.len(),
        },
    }
}

fn line_feeds(text: &[u8]) -> usize
    ensures { result ≡ line_feeds text.now }
{
    let mut lines = 0;
    for b in text {
        if *b == b'\n' {
            lines += 1;
        }
    }
    lines
}

/// What a text is that begins where a trailer section does.
fn judge_trailer(text: &[u8]) -> Judged
    requires { length text.now ≤ trailer_limit }
    ensures { JudgesTrailer text.now result.phase result.len }
{
    let mut headers = [EMPTY_HEADER_SPAN; MAX_FIELDS];
    match parse_headers(text, &mut headers) {
        Ok(Status::Complete((len, _))) => Judged {
            phase: BodyPhase::Ended,
            len,
        },
        Ok(Status::Partial) => {
            // The reader itself refuses a 65th whole line, but its contract does not say so.
            if text.len() < MAX_TRAILER && line_feeds(text) < MAX_TRAILER_LINES {
                Judged {
                    phase: BodyPhase::Trailer,
                    len: text.len(),
                }
            } else {
                Judged {
                    phase: BodyPhase::Bad,
                    len: text.len(),
                }
            }
        }
        // It is bad for one of two causes: more fields than there is room for, or a line that is none.
        Err(error) => match error {
            Error::TooManyHeaders => Judged {
                phase: BodyPhase::Bad,
                len: text.len(),
            },
            _ => Judged {
                phase: BodyPhase::Bad,
                len: text.len(),
            },
        },
    }
}

fn is_line(phase: BodyPhase) -> bool
    ensures { result ≡ is_line phase }
{
    match phase {
        BodyPhase::Line => true,
        _ => false,
    }
}

fn is_trailer(phase: BodyPhase) -> bool
    ensures { result ≡ is_trailer phase }
{
    match phase {
        BodyPhase::Trailer => true,
        _ => false,
    }
}

/// Adds bytes for which there is room.
fn keep(held: &mut Vec<u8>, piece: &[u8])
    requires { vec_len held.old + length piece.now ≤ vec_capacity held.old }
    ensures items { held.new.items ≡ held.old.items ++ piece.now }
    ensures room { vec_capacity held.old ≤ vec_capacity held.new }
{
    match held.extend_from_slice(piece) {
        Ok(()) => {}
        Err(_) => unreachable!(),
    }
}

/// Adds bytes for which there is room, if they are wanted.
fn keep_if(wanted: bool, held: &mut Vec<u8>, piece: &[u8])
    requires { vec_len held.old + length piece.now ≤ vec_capacity held.old }
    ensures items { held.new.items ≡ (if wanted then held.old.items ++ piece.now else held.old.items) }
    ensures room { vec_capacity held.old ≤ vec_capacity held.new }
{
    if wanted {
        keep(held, piece);
    }
}

/// Forgets what was kept, unless it is wanted.
fn forget_unless(wanted: bool, held: &mut Vec<u8>)
    ensures items { held.new.items ≡ (if wanted then held.old.items else []) }
    ensures room { vec_capacity held.old ≤ vec_capacity held.new }
{
    if !wanted {
        held.clear();
    }
}

fn line_step(held: &mut Vec<u8>, total: u64, bytes: &[u8]) -> FrontStep
    requires sound { IsSoundPhase BodyPhase.Line held.old.items total }
    requires room { trailer_limit ≤ vec_capacity held.old }
    ensures steps { StepsOn BodyPhase.Line held.old.items total bytes.now result held.new.items }
    ensures room { vec_capacity held.old ≤ vec_capacity held.new }
{
    let before = held.len();
    let piece = front(bytes, MAX_LINE - before);
    if before == 0 {
        let judged = judge_line(piece, total);
        keep_if(is_line(judged.phase), held, piece);
        return frame_step(judged.phase, judged.len);
    }
    keep(held, piece);
    let judged = judge_line(held.as_slice(), total);
    forget_unless(is_line(judged.phase), held);
    frame_step(judged.phase, judged.len - before)
}

fn trailer_step(held: &mut Vec<u8>, total: u64, bytes: &[u8]) -> FrontStep
    requires sound { IsSoundPhase BodyPhase.Trailer held.old.items total }
    requires total { total < word_limit }
    requires room { trailer_limit ≤ vec_capacity held.old }
    ensures steps { StepsOn BodyPhase.Trailer held.old.items total bytes.now result held.new.items }
    ensures room { vec_capacity held.old ≤ vec_capacity held.new }
{
    let before = held.len();
    let piece = front(bytes, MAX_TRAILER - before);
    if before == 0 {
        let judged = judge_trailer(piece);
        keep_if(is_trailer(judged.phase), held, piece);
        return frame_step(judged.phase, judged.len);
    }
    keep(held, piece);
    let judged = judge_trailer(held.as_slice());
    forget_unless(is_trailer(judged.phase), held);
    frame_step(judged.phase, judged.len - before)
}

/// The step of a reader in this phase.
pub(crate) fn next_step(phase: BodyPhase, held: &mut Vec<u8>, total: u64, bytes: &[u8]) -> FrontStep
    requires sound { IsSoundPhase phase held.old.items total }
    requires total { total < word_limit }
    requires room { room_of phase ≤ vec_capacity held.old }
    ensures steps { StepsOn phase held.old.items total bytes.now result held.new.items }
    ensures room { vec_capacity held.old ≤ vec_capacity held.new }
{
    match phase {
        BodyPhase::Counted(left) => counted_step(left, held.as_slice(), total, bytes),
        BodyPhase::Open => open_step(held.as_slice(), total, bytes),
        BodyPhase::Line => line_step(held, total, bytes),
        BodyPhase::Content(left) => content_step(left, held.as_slice(), total, bytes),
        BodyPhase::Gap => gap_step(held.as_slice(), total, bytes),
        BodyPhase::GapEnd => gap_end_step(held.as_slice(), total, bytes),
        BodyPhase::Trailer => trailer_step(held, total, bytes),
        BodyPhase::Ended => frame_step(BodyPhase::Ended, 0),
        BodyPhase::Bad => frame_step(BodyPhase::Bad, 0),
    }
}
