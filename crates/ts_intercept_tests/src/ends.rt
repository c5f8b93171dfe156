//! Links in memory and setups for the tests: where memory is wanted, the test ends.
ghost use Rattle.std.specs.Prelude.{◌≡◌, []};
ghost use Rattle.ts_link.specs.MemLink.{look_of};

use std::process::Abort;
use std::sync::Arc;
use ts_config::{InterceptKind, Setup, read_config};
use ts_link::{Got, Link, MemLink, Octets};
use ts_upstream::{Uploaded, Upstream};

/// What a test that wants memory says.
pub const MEMORY: &str = "ample memory";

// What a test that wants lines says.
const LINES: &str = "lines of the grammar";

/// The setup of these lines. Each line that serves a file serves this text.
pub fn setup_of(rt: &(impl AllocGlobal + Abort), lines: &[u8], file: &[u8]) -> Arc<Setup> {
    let alloc = rt.alloc();
    let mut setup = read_config(alloc, lines).expect(rt, LINES);
    for line in setup.intercepts.iter_mut() {
        if let InterceptKind::File { text, .. } = &mut line.kind {
            *text = Octets::copy_of(alloc, file).expect(rt, MEMORY);
        }
    }
    Arc::new(alloc, setup).expect(rt, MEMORY)
}

/// A link that gives these bytes, takes 64 bytes a write, and does nothing wrong.
pub fn link(rt: &(impl AllocGlobal + Abort), bytes: &[u8]) -> MemLink
    ensures given { (look_of result).given ≡ [] }
    ensures taken { (look_of result).taken ≡ [] }
{
    let alloc = rt.alloc();
    let input = Octets::copy_of(alloc, bytes).expect(rt, MEMORY);
    MemLink::make(
        alloc,
        input,
        Vec::new(alloc),
        64,
        Vec::new(alloc),
        Vec::new(alloc),
        Vec::new(alloc),
        Vec::new(alloc),
    )
}

/// Moves an upload until it is done, in at most 8 calls: whether it is.
pub fn uploads<C: Link, O: Upstream<C>>(client: &mut C, origin: &mut O) -> bool
    requires { O.paired client.old origin.old }
{
    'calls: for _ in 0..8 {
        if let Uploaded::Done = origin.upload(client) {
            return true;
        }
    }
    false
}

/// Reads at most 8 times, until there are no more bytes: the answers behind them, and the bytes.
pub fn reads<L: Link>(rt: &(impl AllocGlobal + Abort), link: &mut L) -> Vec<u8> {
    let mut given = Vec::new(rt.alloc());
    let mut room = [0u8; 8192];
    'calls: for _ in 0..8 {
        let Got::Bytes(count) = link.read(&mut room) else {
            return given;
        };
        given.extend_from_slice(&room[..count]).expect(rt, MEMORY);
    }
    given
}
