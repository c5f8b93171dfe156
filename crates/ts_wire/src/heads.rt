//! The heads of requests and responses as they are kept, and how long a head may be.
ghost use Rattle.std.specs.Prelude.{◌≤◌};
ghost use Rattle.ts_wire.specs.Limits.{status_limit};

use crate::fields::Fields;
use ts_link::Octets;

/// How many bytes a head may have.
pub const MAX_HEAD: usize = 16384;

/// How many fields a head may have.
pub const MAX_FIELDS: usize = 64;

/// The head of a request.
#[derive(Drop)]
pub struct RequestHead {
    pub method: Octets,
    pub target: Octets,
    /// 0 for HTTP/1.0, and 1 for HTTP/1.1.
    pub minor: u8,
    pub fields: Fields,
    pub ghost version: { minor ≤ 1 },
}

/// The head of a response.
#[derive(Drop)]
pub struct ResponseHead {
    pub status: u16,
    pub reason: Octets,
    /// 0 for HTTP/1.0, and 1 for HTTP/1.1.
    pub minor: u8,
    pub fields: Fields,
    pub ghost digits: { status ≤ status_limit },
    pub ghost version: { minor ≤ 1 },
}
