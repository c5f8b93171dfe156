//! The requests of one client's connection, one after the other: a link around the client's link shows a
//! transaction one request and then the end, and is turned into that of the next request where the connection
//! may go on.
//!
//! # What goes where
//!
//! `Span` is a client's link that gives the bytes of one request alone, and then its end. It finds where the
//! request ends off its head and, where its body comes in chunks, off these. What came behind that is held
//! for the next span. Of the head that is written to it the line `connection: close` is dropped where the
//! connection may go on behind this answer. Where a piece ends within a line that may be that one, the front
//! of it is held until it is known. `next` turns a span whose line was dropped into that of the next request.
//! `Spanned` is the link to an origin that such a client belongs to.
#![tactic(auto)]

mod blank;
mod chunks;
mod course;
mod finding;
mod held;
mod laws;
mod lines;
mod reading;
mod request;
mod response;
mod span;
mod spanned;
mod writing;

pub use course::{MOST_PLACES, Polled};
pub use laws::{chunks_end, first_request, limits, one_kept, one_list};
pub use span::Span;
pub use spanned::Spanned;
