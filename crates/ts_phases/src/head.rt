//! The heads of requests and of responses as one kind of thing, which stands at the front of some bytes.
ghost use Rattle.std.specs.Prelude.{◌≡◌, ℕ, List, false, IfOk};
ghost use Rattle.ts_phases.specs.Fronts.{HasFront};
ghost use Rattle.ts_block.specs.Heads.{HasRequest, HasResponse};
ghost use Rattle.ts_phases.specs.Place.{has_ended, place_of};
ghost use Rattle.ts_wire.specs.Heads.{LacksRequest, LacksResponse};

use crate::place::Place;
use std::alloc::Global;
use ts_iobuf::Waiting;
use ts_link::NoMemory;
use ts_wire::{Read, RequestHead, ResponseHead, read_request, read_response};

/// A head of one kind.
pub trait Head: Sized {
    /// The bytes begin with this head, and go on with the rest.
    ghost has: { List ℕ → Self → List ℕ → Type 0 };

    /// No prefix of the bytes is such a head.
    ghost lacks: { List ℕ → Type 0 };

    /// What stands at the front of the bytes.
    fn read(alloc: Global, bytes: &[u8]) -> Result<Read<Self>, NoMemory>
        ensures { IfOk result (HasFront has lacks bytes.now) };

    /// What holds of bytes in which no line ends a head: none is there.
    fn waits(bytes: &Waiting)
        requires { has_ended (place_of bytes.now) ≡ false }
        ensures { lacks bytes.now };

    /// Whether this byte may stand in the word of the first line that the place tells, so that the word goes on.
    fn goes_on(place: Place, byte: u8) -> bool;
}

// A byte of a method or of a field's name.
fn is_token(byte: u8) -> bool {
    byte.is_ascii_alphanumeric() || b"!#$%&'*+-.^_`|~".contains(&byte)
}

// A byte of a request's target.
fn is_target(byte: u8) -> bool {
    byte > b' ' && byte != 0x7f
}

// A byte of a field's value or of a reason.
fn is_text(byte: u8) -> bool {
    byte == b'\t' || (byte >= b' ' && byte != 0x7f)
}

/// Whether bytes that may become such a head, and end at this place, surely are none with this byte more, and
/// still may become one. Where the answer is no they are to be read.
pub fn stays_open<H: Head>(place: Place, byte: u8) -> bool {
    match place {
        Place::Before => byte == b'\r' || byte == b'\n',
        Place::BeforeReturn => byte == b'\n',
        Place::First | Place::Second | Place::Third => H::goes_on(place, byte),
        Place::Name => is_token(byte) || byte == b':',
        Place::Value => is_text(byte),
        Place::Behind | Place::BehindReturn | Place::Ended => false,
    }
}

impl Head for RequestHead {
    ghost has = { HasRequest };

    ghost lacks = { LacksRequest };

    fn read(alloc: Global, bytes: &[u8]) -> Result<Read<RequestHead>, NoMemory> {
        read_request(alloc, bytes)
    }

    fn waits(bytes: &Waiting) {
        let _bytes = bytes;
    }

    fn goes_on(place: Place, byte: u8) -> bool {
        match place {
            Place::First => is_token(byte),
            Place::Second => is_target(byte),
            _ => false,
        }
    }
}

impl Head for ResponseHead {
    ghost has = { HasResponse };

    ghost lacks = { LacksResponse };

    fn read(alloc: Global, bytes: &[u8]) -> Result<Read<ResponseHead>, NoMemory> {
        read_response(alloc, bytes)
    }

    fn waits(bytes: &Waiting) {
        let _bytes = bytes;
    }

    fn goes_on(place: Place, byte: u8) -> bool {
        match place {
            Place::Third => is_text(byte),
            _ => false,
        }
    }
}
