//! HTTP/1.1 as the proxy hears and says it: heads and the request check, where a body ends and what it is
//! however its bytes are cut, and the heads and frames that are sent on.
//!
//! # The way of a message
//!
//! `read_request` finds the one head at the front of the bytes, `check_request` says whether it is passed on
//! and as what, `forward_fields` and `origin_head` print what the origin is sent. `framing_of` says how the
//! response's body is framed, and a `BodyReader` takes it piece by piece: `feed` answers what part of the
//! piece is body. `client_head`, `frame_piece` and `frame_end` print the response, the body in chunks where
//! its length is not known before.
#![tactic(auto)]

mod body;
mod check;
mod ends;
mod fields;
mod forward;
mod frames;
mod framing;
mod heads;
mod phases;
mod printed;
mod reading;
mod values;

pub use body::{BodyEnd, BodyReader, BodyState, Fed};
pub use check::{
    BAD_REQUEST, NOT_IMPLEMENTED, Verdict, check_request, has_form, has_wrong_hosts, plugin_host,
};
pub use ends::{RequestEnd, request_end};
pub use fields::{Field, Fields};
pub use forward::{forward_fields, is_hop};
pub use frames::{MAX_PIECE, Mode, frame_end, frame_piece};
pub use framing::{
    ContentLength, Framing, MAX_BODY, TransferCoding, coding_of, framing_of, length_of,
};
pub use heads::{MAX_FIELDS, MAX_HEAD, RequestHead, ResponseHead};
pub use printed::{ClientFraming, client_head, framing_line, origin_head, with_framing};
pub use reading::{Read, read_request, read_response};
pub use values::{is_named, trim, value_of};
