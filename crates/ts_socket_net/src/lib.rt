//! The net over sockets, those of the system above all: it listens at one address and dials another, and its
//! clients linger until they have their answer.
#![tactic(auto)]

mod asking;
mod opening;
mod socket_net;
mod sockets;
mod watching;

pub use socket_net::{SocketNet, StreamNet};
pub use sockets::{Sockets, SystemSockets};
