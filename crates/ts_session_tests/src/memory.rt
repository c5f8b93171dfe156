//! Clients in memory, and spans that are read and written whole. Where memory is wanted, the test ends.
ghost use Rattle.std.specs.Prelude.{◌≤◌};

use std::process::Abort;
use ts_link::{Got, Link, MemLink, Octets, Put};

/// What a test that wants memory says.
pub const MEMORY: &str = "ample memory";

/// How a client gives and takes: in pieces of so many bytes, so many a write at most, and the numbers of the calls
/// of either kind that wait.
#[derive(Clone, Copy)]
pub struct Pace<'a> {
    pub piece: u32,
    pub most: usize,
    pub again: &'a [u64],
}

/// It gives and takes all at once.
pub const AT_ONCE: Pace<'static> = Pace {
    piece: 1_000_000,
    most: 1_000_000,
    again: &[],
};

/// A client that gives these bytes so.
pub fn client(rt: &(impl AllocGlobal + Abort), bytes: &[u8], pace: Pace) -> MemLink
    requires { 1 ≤ pace.most }
{
    let alloc = rt.alloc();
    let mut cuts = Vec::new(alloc);
    cuts.resize(bytes.len(), pace.piece).expect(rt, MEMORY);
    MemLink::make(
        alloc,
        Octets::copy_of(alloc, bytes).expect(rt, MEMORY),
        cuts,
        pace.most,
        Vec::new(alloc),
        Vec::new(alloc),
        Vec::from_slice(alloc, pace.again).expect(rt, MEMORY),
        Vec::from_slice(alloc, pace.again).expect(rt, MEMORY),
    )
}

/// A client that gives these bytes in two pieces, cut at this place, and takes all at once.
pub fn client_cut(rt: &(impl AllocGlobal + Abort), bytes: &[u8], at: usize) -> MemLink {
    let alloc = rt.alloc();
    let mut cuts = Vec::new(alloc);
    cuts.push(at.min(1_000_000) as u32).expect(rt, MEMORY);
    cuts.push(1_000_000).expect(rt, MEMORY);
    MemLink::make(
        alloc,
        Octets::copy_of(alloc, bytes).expect(rt, MEMORY),
        cuts,
        1_000_000,
        Vec::new(alloc),
        Vec::new(alloc),
        Vec::new(alloc),
        Vec::new(alloc),
    )
}

/// All that a link gives, until its end, or until it fails.
pub fn read_all<L: Link>(rt: &(impl AllocGlobal + Abort), link: &mut L) -> Vec<u8> {
    let mut text = Vec::new(rt.alloc());
    for _ in 0..u64::MAX {
        let mut room = [0u8; 700];
        match link.read(&mut room) {
            Got::Bytes(count) => text.extend_from_slice(&room[..count]).expect(rt, MEMORY),
            Got::Again => {}
            Got::End | Got::Failed => return text,
        }
    }
    text
}

/// Writes the bytes in pieces of at most `piece`, until all are taken or a write fails. Answers how many are left.
pub fn write_all<L: Link>(link: &mut L, bytes: &[u8], piece: usize) -> usize {
    let mut rest = bytes;
    for _ in 0..u64::MAX {
        if rest.is_empty() {
            return 0;
        }
        let (front, _) = rest.split_at(rest.len().min(piece));
        if front.is_empty() {
            return rest.len();
        }
        match link.write(front) {
            Put::Took(count) => rest = rest.split_at(count).1,
            Put::Again => {}
            Put::Failed | Put::NoMemory => return rest.len(),
        }
    }
    rest.len()
}
