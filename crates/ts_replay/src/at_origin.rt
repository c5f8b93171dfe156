//! What stands at the origin of a transaction that has ended, read out of the bytes that it took.

ghost use Rattle.std.specs.Prelude.{◌≡◌, ℕ, List, Option, IfOk};
ghost use Rattle.ts_replay.specs.Exchanged.{HasTaken, StandsBehind};

use crate::framed::unframed;
use memchr::memmem;
use std::alloc::Global;
use ts_link::{NoMemory, Octets};
use ts_wire::Mode;

// The end of the last field of a head, and its empty line.
const BLANK_END: &[u8] = b"\r\n\r\n";

/// The head of the request that an origin got, empty where it got none, and the body behind it without its
/// framing, where that was delivered whole.
#[derive(Drop)]
pub struct AtOrigin {
    pub request: Octets,
    pub upload: Option<Octets>,
}

// The body that stands so behind a head, if one does.
fn upload_of(alloc: Global, mode: Option<Mode>, behind: &[u8]) -> Result<Option<Octets>, NoMemory>
    requires { (upload : Option (List ℕ)) × StandsBehind mode upload behind.now }
    ensures { (upload : Option (List ℕ)) → StandsBehind mode upload behind.now
        → IfOk result (λ body. body ≡ upload) }
{
    match mode {
        Some(mode) => Ok(Some(unframed(alloc, mode, behind)?)),
        None => Ok(None),
    }
}

/// What is at an origin that took these bytes, where a body that was delivered whole stands so behind its
/// head.
pub(crate) fn at_origin(
    alloc: Global,
    taken: &[u8],
    mode: Option<Mode>,
) -> Result<AtOrigin, NoMemory>
    requires { (at : AtOrigin) × HasTaken taken.now mode at }
    ensures { (at : AtOrigin) → HasTaken taken.now mode at → IfOk result (λ found. found ≡ at) }
{
    match memmem::find(taken, BLANK_END) {
        Some(place) => {
            let (request, behind) = taken.split_at(place + BLANK_END.len());
            let upload = upload_of(alloc, mode, behind)?;
            let request = Octets::copy_of(alloc, request)?;
            Ok(AtOrigin { request, upload })
        }
        None => Ok(AtOrigin {
            request: Octets::of_vec(Vec::new(alloc)),
            upload: None,
        }),
    }
}
