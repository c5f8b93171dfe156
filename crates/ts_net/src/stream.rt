//! Connections of which no call waits.
ghost use Rattle.std.specs.Prelude.{◌≡◌, ℕ, List, Result};
ghost use Rattle.std.specs.Io.{ReadsAtMost, WritesAtMost};
ghost use Rattle.std.specs.declared.io.Error.{Error};

use crate::poller::{Poller, Watched};
use mio::net::TcpStream;
use std::io;
use std::io::{Read, Write};
use std::net::Shutdown;

/// One end of a connection of the system. Where a call of it would wait, the answer is `WouldBlock`.
pub trait Stream: Watched {
    // The second is what a read left of the first, with this answer, and with these bytes in its room.
    ghost reads: { Self → Self → Result ℕ Error → List ℕ → Type 0 };

    // The second is what a write of these bytes left of the first, with this answer.
    ghost writes: { Self → Self → List ℕ → Result ℕ Error → Type 0 };

    // The second is the first once it was told to send at once.
    ghost hurries: { Self → Self → Type 0 };

    // The second is the first once its write side was shut.
    ghost shuts: { Self → Self → Type 0 };

    /// Reads into the room, once. 0 bytes in a room that is not empty are the end of what the peer sends.
    fn receive(&mut self, into: &mut [u8]) -> io::Result<usize>
        ensures bound { ReadsAtMost result into.new }
        ensures reads { reads self.old self.new result into.new };

    /// Writes the front of the piece, once.
    fn send(&mut self, piece: &[u8]) -> io::Result<usize>
        ensures bound { WritesAtMost result piece.now }
        ensures writes { writes self.old self.new piece.now result };

    /// Has what is written from now on sent at once, also while the peer has not confirmed what was sent
    /// before.
    fn send_at_once(&mut self)
        ensures { hurries self.old self.new };

    /// Shuts the write side: behind all that was written the peer finds the end, and what it sends can still
    /// be read.
    fn end_sending(&mut self)
        ensures { shuts self.old self.new };
}

// To be watched leaves a socket the one that it was.
impl Watched for TcpStream {
    ghost watches = { λ name answer before after. after ≡ before };

    fn watch(&mut self, poller: &Poller, name: u64) -> bool {
        poller.watch(self, name)
    }
}

// Each call leaves a socket the one that it was: what it does with it the system alone knows.
impl Stream for TcpStream {
    ghost reads = { λ before after answer room. after ≡ before };

    ghost writes = { λ before after piece answer. after ≡ before };

    ghost hurries = { λ before after. after ≡ before };

    ghost shuts = { λ before after. after ≡ before };

    fn receive(&mut self, into: &mut [u8]) -> io::Result<usize> {
        self.read(into)
    }

    fn send(&mut self, piece: &[u8]) -> io::Result<usize> {
        self.write(piece)
    }

    // Where it cannot be set, the peer has gone, and the next write finds it gone.
    fn send_at_once(&mut self) {
        let _ = self.set_nodelay(true);
    }

    // A peer that has gone cannot be told the end, and the next read finds it gone.
    fn end_sending(&mut self) {
        let _ = self.shutdown(Shutdown::Write);
    }
}
