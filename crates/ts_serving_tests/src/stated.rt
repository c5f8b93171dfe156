//! The texts that the program reads, writes and says in these rows, as they are stated.

/// How the program says that the net failed.
pub const NETWORK: &[u8] = b"tsx: network\n";

/// How it says that memory lacked.
pub const OUT_OF_MEMORY: &[u8] = b"tsx: out of memory\n";

/// A line that puts a byte before a body.
pub const LESS: &[u8] = b"prepend.so <";

/// The addresses at which clients come and origins are dialed, which nobody reads but the net.
pub const LISTEN: &str = " Here:80/a";

pub const ORIGIN: &str = "there:8080# ";
