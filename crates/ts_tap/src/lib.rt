//! A tap on what a client takes: a watcher sees the body data of a response as the client takes it, and
//! changes nothing.
//!
//! # What goes where
//!
//! `Tapped` is a client's link with a watcher. Its reads and writes are those of the link inside. After a
//! write it finds the body data in the bytes that the link took, and offers it to the watcher: the head is no
//! body data, nor are the lines of chunks. What the watcher leaves waits, and is offered first after the next
//! write. Where more would wait than may, the tap is lost: what waits is dropped, and nothing more is
//! offered.
//!
//! `Sum` is a watcher that takes everything, so a tap with it is never lost. `Lifted` is the link to an
//! origin that such a client belongs to: it hands the client inside on to the upload of the origin inside.
//! `Watched` is a client's link with a tap of a `Sum`, or with none.
#![tactic(auto)]

mod laws;
mod lifted;
mod room;
mod sent_reader;
mod sum;
mod tapped;
mod watch;
mod watched;
mod watcher;

pub use laws::{limits, sent_bodies};
pub use lifted::Lifted;
pub use sum::Sum;
pub use tapped::Tapped;
pub use watch::MOST_UNREAD;
pub use watched::Watched;
pub use watcher::Watcher;
