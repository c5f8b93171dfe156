//! Octets, lists and links in memory, for the tests: where memory is wanted, the test ends.
ghost use Rattle.std.specs.Prelude.{◌≡◌, ◌≤◌, []};
ghost use Rattle.ts_link.specs.MemLink.{look_of};

use std::process::Abort;
use ts_link::{MemLink, Octets};

/// What a test that wants memory says.
pub const MEMORY: &str = "ample memory";

/// What a link in memory is made of: its bytes, the lengths of their pieces, the most that it takes a write,
/// and the numbers of the calls that fail and that wait.
#[derive(Clone, Copy)]
pub struct Plan<'a> {
    pub bytes: &'a [u8],
    pub cuts: &'a [u32],
    pub most: usize,
    pub fail_reads: &'a [u64],
    pub fail_writes: &'a [u64],
    pub again_reads: &'a [u64],
    pub again_writes: &'a [u64],
}

/// A link that gives these bytes at once, takes one byte a write, and does nothing wrong.
pub const PLAIN: Plan<'static> = Plan {
    bytes: b"",
    cuts: &[],
    most: 1,
    fail_reads: &[],
    fail_writes: &[],
    again_reads: &[],
    again_writes: &[],
};

/// Octets with these bytes.
pub fn octets(rt: &(impl AllocGlobal + Abort), bytes: &[u8]) -> Octets {
    Octets::copy_of(rt.alloc(), bytes).expect(rt, MEMORY)
}

/// The numbers of some calls.
pub fn calls(rt: &(impl AllocGlobal + Abort), numbers: &[u64]) -> Vec<u64> {
    Vec::from_slice(rt.alloc(), numbers).expect(rt, MEMORY)
}

/// The link of a plan.
pub fn link(rt: &(impl AllocGlobal + Abort), plan: Plan) -> MemLink
    requires { 1 ≤ plan.most }
    ensures given { (look_of result).given ≡ [] }
    ensures taken { (look_of result).taken ≡ [] }
{
    let alloc = rt.alloc();
    let input = octets(rt, plan.bytes);
    let cuts = Vec::from_slice(alloc, plan.cuts).expect(rt, MEMORY);
    MemLink::make(
        alloc,
        input,
        cuts,
        plan.most,
        calls(rt, plan.fail_reads),
        calls(rt, plan.fail_writes),
        calls(rt, plan.again_reads),
        calls(rt, plan.again_writes),
    )
}
