//! A link over a connection of the system.
ghost use Rattle.std.specs.Prelude.{◌≡◌, ◌<◌, length, false, Some, ⊤};
ghost use Rattle.std.proofs.Common.{arith};
ghost use Rattle.ts_link.specs.Counts.{Counted, Rose, one_more, one_more_if};
ghost use Rattle.ts_link.specs.Link.{Reads, Writes};
ghost use Rattle.ts_upstream.specs.Uploads.{MovesNothing};
ghost use Rattle.ts_net.specs.Heard.{HearsRead, HearsWrite, Hurries};
ghost use Rattle.ts_net.specs.Links.{IsWatchedLink, after_read, after_write, fresh_link, look_of};

use crate::heard::{got_of, put_of};
use crate::poller::Poller;
use crate::stream::Stream;
use mio::net::TcpStream;
use ts_link::{Got, Link, Put, Sourced};
use ts_upstream::{Uploaded, Upstream};

/// Behind so many writes a link tells its stream to send at once. The first write goes out at once as it is,
/// since nothing was sent that the peer has not confirmed.
pub const HURRIES_BEHIND: u64 = 1;

/// A link over a stream, with its name and its counts. It tells nothing of the bytes that pass.
#[derive(Drop)]
pub struct StreamLink<S> {
    stream: S,
    name: u64,
    reads: u64,
    writes: u64,
    faults: u64,
    waits: u64,
}

/// A link over a socket of the system.
pub type SocketLink = StreamLink<TcpStream>;

impl<S> StreamLink<S> {
    /// A link of this name, of which no call was made.
    pub fn new(stream: S, name: u64) -> StreamLink<S>
        ensures { result ≡ fresh_link stream name }
    {
        StreamLink {
            stream,
            name,
            reads: 0,
            writes: 0,
            faults: 0,
            waits: 0,
        }
    }

    /// How many answers were `Again`. The count stays at the greatest `u64`.
    pub fn waits(&self) -> u64
        ensures { result ≡ self.now.waits }
    {
        self.waits
    }

    /// The number that it was made with.
    pub fn name(&self) -> u64
        ensures { result ≡ self.now.name }
    {
        self.name
    }

    /// The connection, without the counts.
    pub fn into_stream(self) -> S
        ensures { result ≡ self.stream }
    {
        self.stream
    }
}

impl<S: Stream> StreamLink<S> {
    /// Has the poller tell under a name where the connection is ready. Answers whether it does.
    pub fn watch(&mut self, poller: &Poller, name: u64) -> bool
        ensures { IsWatchedLink S.watches name result self.old self.new }
    {
        self.stream.watch(poller, name)
    }
}

// Tells a stream to send at once, before the write behind so many.
fn hurry<S: Stream>(stream: &mut S, writes: u64)
    ensures { Hurries S.hurries writes stream.old stream.new }
{
    if writes == HURRIES_BEHIND {
        stream.send_at_once();
    }
}

// Counts one more.
fn count(counted: &mut u64)
    ensures value { counted.new ≡ one_more counted.old }
    ensures rose { Rose counted.old counted.new }
{
    *counted = counted.saturating_add(1);
}

// Counts one more, if it is so.
fn count_if(counts: bool, counted: &mut u64)
    ensures value { counted.new ≡ one_more_if counts counted.old }
    ensures counted { Counted counts counted.old counted.new }
{
    if counts {
        count(counted);
    }
}

impl<S: Stream> Link for StreamLink<S> {
    ghost tells = { false };

    ghost look = { look_of };

    ghost goes = { λ before after. ⊤ };

    ghost still = { λ before after. ⊤ };

    // The clauses of every link, what the stream answered, and exactly what was counted.
    fn read(&mut self, into: &mut [u8]) -> Got
        requires { 0 < length into.old }
        ensures reads { Reads false (look_of self.old) (look_of self.new) result into.new }
        ensures goes { ⊤ }
        ensures heard { HearsRead S.reads self.old.stream self.new.stream result into.new }
        ensures after { self.new ≡ after_read self.new.stream result self.old }
    {
        let got = got_of(self.stream.receive(into));
        count(&mut self.reads);
        count_if(got.is_failed(), &mut self.faults);
        count_if(got.is_again(), &mut self.waits);
        got
    }

    fn write(&mut self, piece: &[u8]) -> Put
        requires { 0 < length piece.now }
        ensures writes { Writes false (look_of self.old) (look_of self.new) result piece.now }
        ensures goes { ⊤ }
        ensures heard { HearsWrite S.hurries S.writes self.old.writes
            self.old.stream self.new.stream result piece.now }
        ensures after { self.new ≡ after_write self.new.stream result self.old }
    {
        hurry(&mut self.stream, self.writes);
        let put = put_of(self.stream.send(piece));
        match put {
            Put::Took(_) => count(&mut self.writes),
            Put::Again => {
                count(&mut self.writes);
                count(&mut self.waits);
            }
            Put::Failed => {
                count(&mut self.writes);
                count(&mut self.faults);
            }
            Put::NoMemory => {}
        }
        put
    }

    fn faults(&self) -> u64 {
        self.faults
    }

    ghost stays = { λ l. tt };

    ghost goes_on = { λ l m n g h. tt };

    ghost goes_still = { λ l m g. tt };

    ghost still_on = { λ l m n g h. tt };
}

// It tells nothing of its bytes.
impl<S: Stream> Sourced for StreamLink<S> {
    fn known(&self) {}
}

// A stream has no upload to move, and belongs to any client.
impl<C: Link, S: Stream> Upstream<C> for StreamLink<S> {
    ghost paired = { λ c o. ⊤ };

    ghost refuses = { λ o list. ⊥ };

    ghost upload_left = { λ c o. Some 0 };

    ghost one_upload = { MovesNothing };

    fn upload(&mut self, _client: &mut C) -> Uploaded
        ensures done { result ≡ Uploaded.Done }
        ensures nothing { (self.new ≡ self.old) × (_client.new ≡ _client.old) }
    {
        Uploaded::Done
    }

    ghost pair_stays = { λ c d o p q g h. tt };

    ghost refusal_stays = { λ o p g. record { still = λ list h. h; before = λ list h. h } };

    ghost left_rises = { λ c d o p g h. Prim.omega arith };
}
