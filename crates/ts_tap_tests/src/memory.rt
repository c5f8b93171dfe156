//! Clients in memory and taps on them, for the tests: where memory is wanted, the test ends.
ghost use Rattle.std.specs.Prelude.{◌≡◌, ◌≤◌, []};
ghost use Rattle.ts_link.specs.MemLink.{look_of};

use std::process::Abort;
use ts_link::{Link, MemLink, Octets, Put};
use ts_tap::{Sum, Tapped};

/// What a test that wants memory says.
pub const MEMORY: &str = "ample memory";

/// The head of a response in chunks.
pub const IN_CHUNKS: &[u8] =
    b"HTTP/1.1 200 OK\r\nvia: 1.1 tsx\r\ntransfer-encoding: chunked\r\nconnection: close\r\n\r\n";

/// How a client takes: so many bytes a write at most, and the numbers of the writes that fail and that wait.
#[derive(Clone, Copy)]
pub struct Taking<'a> {
    pub most: usize,
    pub fail: &'a [u64],
    pub again: &'a [u64],
}

/// It takes all.
pub const ALL: Taking<'static> = Taking {
    most: usize::MAX,
    fail: &[],
    again: &[],
};

/// A client that gives `request` and takes so.
pub fn client(rt: &(impl AllocGlobal + Abort), taking: Taking) -> MemLink
    requires { 1 ≤ taking.most }
    ensures { (look_of result).taken ≡ [] }
{
    let alloc = rt.alloc();
    let input = Octets::copy_of(alloc, b"request").expect(rt, MEMORY);
    let fail = Vec::from_slice(alloc, taking.fail).expect(rt, MEMORY);
    let again = Vec::from_slice(alloc, taking.again).expect(rt, MEMORY);
    let none = Vec::new(alloc);
    MemLink::make(
        alloc,
        input,
        Vec::new(alloc),
        taking.most,
        none,
        fail,
        Vec::new(alloc),
        again,
    )
}

/// A tap on such a client, with a sum of the first `most` bytes.
pub fn summed(rt: &(impl AllocGlobal + Abort), taking: Taking, most: u64) -> Tapped<MemLink, Sum>
    requires { 1 ≤ taking.most }
{
    let link = client(rt, taking);
    Tapped::make(rt.alloc(), link, Sum::make(most)).expect(rt, MEMORY)
}

/// Writes the bytes in pieces of at most `piece`, until all are taken or a write fails; one that waits is
/// made again. Answers how many are left.
pub fn send<L: Link>(link: &mut L, bytes: &[u8], piece: usize) -> usize {
    let mut rest = bytes;
    for _ in 0..u64::MAX {
        let (front, _) = rest.split_at(piece.min(rest.len()));
        if front.is_empty() {
            return rest.len();
        }
        match link.write(front) {
            Put::Took(count) => {
                let (_, behind) = rest.split_at(count);
                rest = behind;
            }
            Put::Again => {}
            Put::Failed | Put::NoMemory => return rest.len(),
        }
    }
    rest.len()
}
