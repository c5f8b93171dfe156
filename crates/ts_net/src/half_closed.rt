//! Connections that are closed in stages, so that the peer gets all that was written: first their write side
//! alone, while what the peer still sends is read and passed over. (RFC 9112, section 9.6.)
ghost use Rattle.std.specs.Prelude.{◌≡◌, ◌<◌, length, nat_le};
ghost use Rattle.ts_net.specs.Lingers.{PassesOver, may_send};
ghost use Rattle.ts_link.specs.Moments.{moment_after};

use crate::heard::got_of;
use crate::stream::Stream;
use ts_link::Got;

/// How many milliseconds the time of a connection lasts whose write side was shut. It is closed at the first
/// look after its time.
pub const LINGER: u64 = 5_000;

/// A connection whose write side is shut, and the moment at which its time is over.
#[derive(Drop)]
pub struct HalfClosed<S> {
    stream: S,
    until: u64,
}

// Whether more may come from a peer after this answer.
fn may_send(got: Got) -> bool
    ensures { result ≡ may_send got }
{
    matches!(got, Got::Bytes(_) | Got::Again)
}

impl<S: Stream> HalfClosed<S> {
    /// Shuts the write side of a connection at this moment.
    pub fn of(stream: S, moment: u64) -> HalfClosed<S>
        ensures shut { S.shuts stream result.stream }
        ensures until { result.until ≡ moment_after moment LINGER }
    {
        let mut stream = stream;
        stream.end_sending();
        HalfClosed {
            stream,
            until: moment.saturating_add(LINGER),
        }
    }

    /// Whether its time is over at this moment.
    pub fn is_over(&self, moment: u64) -> bool
        ensures { result ≡ nat_le self.now.until moment }
    {
        self.until <= moment
    }

    /// Reads into the room once, and passes over what was read. Answers whether more may come: the peer did
    /// not end, and the connection did not fail.
    pub fn pass_over(&mut self, room: &mut [u8]) -> bool
        requires { 0 < length room.old }
        ensures { PassesOver S.reads self.old self.new result }
    {
        may_send(got_of(self.stream.receive(room)))
    }
}
