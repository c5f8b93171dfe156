//! One read of a link into a buffer, and one write of a buffer's bytes to a link.
ghost use Rattle.std.specs.Prelude.{◌≡◌, ◌≢◌, ◌<◌, ◌≤◌, [], length, IsTrue, IfOk, OnOk, OnErr};
ghost use Rattle.ts_iobuf.specs.Buffer.{is_reader, readable};
ghost use Rattle.ts_vconn.specs.Moves.{PullsInto, PullsOn, Pushes, ReadsFront, Spends};

use ts_iobuf::{IoBuffer, ReaderId, Waiting};
use ts_link::{Got, Link, NoMemory, Put};

/// The most bytes that one read takes.
pub const MOST_PULLED: usize = 32_768;

/// What came of a read: the number of bytes that came, at least 1, or the link's own answer.
#[derive(Clone, Copy, PartialEq, Eq)]
pub enum Pulled {
    Some(usize),
    End,
    Again,
    Failed,
}

/// What came of a write: the number of bytes that were taken, at least 1; `Nothing` where there was none to
/// write, and so no write was made; or the link's own answer.
#[derive(Clone, Copy, PartialEq, Eq)]
pub enum Pushed {
    Some(usize),
    Nothing,
    Again,
    Failed,
    NoMemory,
}

// Makes one read into the front of the room.
fn read_front<L: Link>(link: &mut L, room: &mut [u8], most: usize) -> Got
    requires room { 0 < length room.old }
    requires most { 1 ≤ most }
    ensures reads { ReadsFront L.tells (L.look link.old) (L.look link.new) result most room.new }
    ensures goes { L.goes link.old link.new }
{
    let count = most.min(room.len());
    link.read(&mut room[..count])
}

/// Makes one read of the link, of at most `most` bytes, into the buffer's own room. Want of memory comes
/// before the read.
pub fn pull<L: Link>(link: &mut L, into: &mut IoBuffer, most: usize) -> Result<Pulled, NoMemory>
    requires { (1 ≤ most) × (most ≤ MOST_PULLED) }
    ensures moved { IfOk result (λ p.
        PullsInto L.tells (L.look link.old) (L.look link.new) into.old into.new p most) }
    ensures room { OnOk result (into.new.room ≡ []) }
    ensures goes { L.goes link.old link.new }
    ensures err { OnErr result ((link.new ≡ link.old) × (into.new ≡ into.old)) }
{
    let room = into.space();
    if room.is_empty() {
        return Err(NoMemory);
    }
    match read_front(link, room, most) {
        Got::Bytes(count) => {
            into.produce(count);
            Ok(Pulled::Some(count))
        }
        Got::End => {
            into.produce(0);
            Ok(Pulled::End)
        }
        Got::Again => {
            into.produce(0);
            Ok(Pulled::Again)
        }
        Got::Failed => {
            into.produce(0);
            Ok(Pulled::Failed)
        }
    }
}

/// Makes one write of the reader's first block, and consumes what was taken.
pub fn push<L: Link>(from: &mut IoBuffer, reader: ReaderId, link: &mut L) -> Pushed
    requires { IsTrue (is_reader from.old reader) }
    ensures moved { Pushes L.tells (L.look link.old) (L.look link.new) result
        (readable from.old reader) (readable from.new reader) }
    ensures live { (q : _) → is_reader from.new q ≡ is_reader from.old q }
    ensures others { (q : _) → q ≢ reader → readable from.new q ≡ readable from.old q }
    ensures spends { Spends result from.old from.new reader }
    ensures nothing { result ≡ Pushed.Nothing → link.new ≡ link.old }
    ensures goes { L.goes link.old link.new }
{
    let Some(block) = from.block(reader, 0) else {
        return Pushed::Nothing;
    };
    match link.write(block) {
        Put::Took(count) => {
            from.consume(reader, count);
            Pushed::Some(count)
        }
        Put::Again => Pushed::Again,
        Put::Failed => Pushed::Failed,
        Put::NoMemory => Pushed::NoMemory,
    }
}

/// The same as `pull`, behind the bytes that wait.
pub fn pull_waiting<L: Link>(
    link: &mut L,
    into: &mut Waiting,
    most: usize,
) -> Result<Pulled, NoMemory>
    requires { (1 ≤ most) × (most ≤ MOST_PULLED) }
    ensures moved { IfOk result (λ p.
        PullsOn L.tells (L.look link.old) (L.look link.new) into.old into.new p most) }
    ensures goes { L.goes link.old link.new }
    ensures err { OnErr result ((link.new ≡ link.old) × (into.new ≡ into.old)) }
{
    pull(link, &mut into.buffer, most)
}

/// The same as `push`, of the bytes that wait.
pub fn push_waiting<L: Link>(from: &mut Waiting, link: &mut L) -> Pushed
    ensures moved { Pushes L.tells (L.look link.old) (L.look link.new) result from.old from.new }
    ensures nothing { result ≡ Pushed.Nothing → link.new ≡ link.old }
    ensures goes { L.goes link.old link.new }
{
    push(&mut from.buffer, from.reader, link)
}
