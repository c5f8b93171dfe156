//! The layers of a transaction's ends: they are put over plain links as it is made, and taken off what is
//! left of it. The promise of `plain_parts` is what was taken in the origin's place of a request with a body.
//! In a session the client is a `Span`, which shows one request of its connection, and the origin a
//! `Spanned`: what is left of such a transaction is left by `leave_session`.
//!
//! ```text
//! client ─ Watched (a tap, or none) ─ Front ─ the transaction ─ Carrier ─ Kept ─ Chosen ─ Lifted ─ origin
//! ```
#![tactic(auto)]

mod kept;
mod layers;
mod off;
mod over;
mod row;
mod session;

pub use kept::Kept;
pub use layers::{
    LayeredExchange, LayeredTag, PlainExchange, has_origin, make_layered, take_layered_apart,
};
pub use off::{PlainParts, plain_parts};
pub use over::{ClientEnd, OriginEnd};
pub use row::{LayeredRow, LayeredRowTag, LayeredWorld, make_layered_group};
pub use session::{
    EndedParts, SessionLeft, end_session, last_client, leave_session, retired_parts, spanned,
};
