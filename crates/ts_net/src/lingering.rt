//! Clients that were answered, and linger until they have their answer.
ghost use Rattle.std.specs.Prelude.{◌≡◌, ◌≢◌, ◌<◌, ◌≤◌, [], length, IfOk};
ghost use Rattle.std.specs.Vec.{vec_capacity};
ghost use Rattle.ts_net.specs.Lingers.{KeepsOne, LooksAt, PassesOne, PassesOver, in_time, turn_in_time};
ghost use Rattle.ts_net.specs.Lingers.{turn_with_room, with_room};

use crate::half_closed::HalfClosed;
use crate::stream::Stream;
use crate::stream_link::StreamLink;
use std::alloc::Global;
use std::marker::Model;
use ts_link::{Clock, NoMemory};

/// How many connections linger at once, at most.
pub const MOST_LINGERING: usize = 256;

/// How many bytes one read passes over, at most.
pub const PASSED_AT_ONCE: usize = 65_536;

/// How many milliseconds whatever lingers is kept once nobody else is served, at most.
pub const LAST_LINGER: u64 = 100;

/// Connections whose write side is shut. Each is closed where its peer has ended or gone, at the first look
/// after its time, or where too many came after it.
#[derive(Drop)]
pub struct Lingering<S> {
    waiting: Vec<HalfClosed<S>>,
    turn: usize,
    room: Vec<u8>,
}

impl<S> Model for Lingering<S> {
    ghost use Rattle.ts_net.specs.Lingers.{Lingers};

    ghost Value = { Lingers S };

    ghost use Rattle.std.specs.Prelude.{◌≡◌, ◌≤◌, length};
    ghost use Rattle.std.specs.Vec.{vec_capacity};
    ghost use Rattle.ts_net.specs.declared.lingering.TheConstants.{MOST_LINGERING, PASSED_AT_ONCE};

    ghost view = { λ l. record { waiting = l.waiting.items; turn = l.turn } };

    ghost invariant = { λ l. (length l.waiting.items ≤ MOST_LINGERING)
        × (MOST_LINGERING ≤ vec_capacity l.waiting) × (length l.room.items ≡ PASSED_AT_ONCE) };
}

// The room of one read.
fn read_room(alloc: Global) -> Result<Vec<u8>, NoMemory>
    ensures { IfOk result (λ room. length room.items ≡ PASSED_AT_ONCE) }
{
    let mut room = Vec::new(alloc);
    room.resize(PASSED_AT_ONCE, 0)?;
    Ok(room)
}

// Closes the one that came first, where no more may linger. The others move up, and the turn with them.
fn make_room<S: Drop>(waiting: &mut Vec<HalfClosed<S>>, turn: &mut usize)
    requires { length waiting.old.items ≤ MOST_LINGERING }
    ensures items { waiting.new.items ≡ with_room waiting.old.items }
    ensures turn { turn.new ≡ turn_with_room waiting.old.items turn.old }
    ensures room { length waiting.new.items < MOST_LINGERING }
    ensures capacity { vec_capacity waiting.new ≡ vec_capacity waiting.old }
{
    if waiting.len() >= MOST_LINGERING {
        drop(waiting.remove(0));
        *turn = turn.saturating_sub(1);
    }
}

// Closes those whose time is over.
fn close_overdue<S: Stream + Drop>(waiting: &mut Vec<HalfClosed<S>>, moment: u64)
    ensures in_time { waiting.new.items ≡ in_time moment waiting.old.items }
    ensures count { length waiting.new.items ≤ length waiting.old.items }
    ensures capacity { vec_capacity waiting.new ≡ vec_capacity waiting.old }
{
    waiting.retain(|half| !half.is_over(moment));
}

// The same. By a clock that never goes back they came first: the others move up, and the turn with them.
fn move_up<S: Stream + Drop>(waiting: &mut Vec<HalfClosed<S>>, turn: &mut usize, moment: u64)
    ensures in_time { waiting.new.items ≡ in_time moment waiting.old.items }
    ensures turn { turn.new ≡ turn_in_time moment waiting.old.items turn.old }
    ensures count { length waiting.new.items ≤ length waiting.old.items }
    ensures capacity { vec_capacity waiting.new ≡ vec_capacity waiting.old }
{
    let before = waiting.len();
    close_overdue(waiting, moment);
    *turn = turn.saturating_sub(before - waiting.len());
}

// Reads a connection once, and answers whether more may come.
fn pass_over<S: Stream>(half: &mut HalfClosed<S>, room: &mut Vec<u8>) -> bool
    requires { 0 < length room.old.items }
    ensures passes { PassesOver S.reads half.old half.new result }
    ensures room { length room.new.items ≡ length room.old.items }
{
    half.pass_over(room.as_mut_slice())
}

// Reads the connection at this place, and closes it if no more may come.
fn pass_one<S: Stream + Drop>(
    waiting: &mut Vec<HalfClosed<S>>,
    turn: &mut usize,
    room: &mut Vec<u8>,
)
    requires place { turn.old < length waiting.old.items }
    requires room { 0 < length room.old.items }
    ensures passes { PassesOne S.reads turn.old waiting.old.items
        (record { waiting = waiting.new.items; turn = turn.new }) }
    ensures count { length waiting.new.items ≤ length waiting.old.items }
    ensures capacity { vec_capacity waiting.new ≡ vec_capacity waiting.old }
    ensures room { length room.new.items ≡ length room.old.items }
{
    if pass_over(&mut waiting[*turn], room) {
        *turn += 1;
    } else {
        drop(waiting.remove(*turn));
    }
}

impl<S: Stream + Drop> Lingering<S> {
    /// Nobody lingers yet.
    pub fn new(alloc: Global) -> Result<Lingering<S>, NoMemory>
        ensures { IfOk result (λ l. l.waiting ≡ []) }
    {
        Ok(Lingering {
            waiting: Vec::with_capacity(alloc, MOST_LINGERING)?,
            turn: 0,
            room: read_room(alloc)?,
        })
    }

    /// How many linger.
    pub fn count(&self) -> usize
        ensures value { result ≡ length self.now.waiting }
        ensures most { result ≤ MOST_LINGERING }
    {
        self.waiting.len()
    }

    /// Shuts the write side of a client's connection at this moment, and keeps it. Where as many linger as
    /// may, the one that came first is closed.
    pub fn keep(&mut self, client: StreamLink<S>, moment: u64)
        ensures { KeepsOne S.shuts client.stream moment self.old self.new }
    {
        make_room(&mut self.waiting, &mut self.turn);
        self.waiting
            .push_reserved(HalfClosed::of(client.into_stream(), moment));
    }

    /// Closes the connections whose time is over at this moment, and reads one of the others, in turn.
    pub fn look(&mut self, moment: u64)
        ensures { LooksAt S.reads moment self.old self.new }
    {
        move_up(&mut self.waiting, &mut self.turn, moment);
        if self.waiting.is_empty() {
            return;
        }
        if self.turn >= self.waiting.len() {
            self.turn = 0;
        }
        pass_one(&mut self.waiting, &mut self.turn, &mut self.room);
    }

    /// Goes on with those who linger, until there are none, or for `LAST_LINGER` milliseconds of this clock,
    /// and for no more pauses of a millisecond than that. Then all are closed. Even where the clock jumps,
    /// each whose time is not over is read once at least.
    pub fn finish<C: Clock>(&mut self, clock: &C)
        ensures { self.new.waiting ≡ [] }
    {
        let end = clock.now().saturating_add(LAST_LINGER);
        for _ in 0..LAST_LINGER {
            let moment = clock.now();
            if self.waiting.is_empty() {
                break;
            }
            for _ in 0..self.waiting.len() {
                self.look(moment);
            }
            if end <= moment {
                break;
            }
            clock.pause(1);
        }
        self.waiting.clear();
    }
}
