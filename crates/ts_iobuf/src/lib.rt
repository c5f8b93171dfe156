//! IO buffers: bytes that are written at one end and read at the other by readers, each at a place of its
//! own, and bytes that wait for a single reader.
#![tactic(auto)]

mod blocks;
mod buffer;
mod filling;
mod readers;
mod store;
mod waiting;

pub use buffer::IoBuffer;
pub use readers::ReaderId;
pub use waiting::Waiting;
