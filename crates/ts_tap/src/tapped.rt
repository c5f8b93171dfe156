//! A client's link with a watcher of the body data that it takes.
ghost use Rattle.std.specs.Prelude.{◌≡◌, ◌<◌, ◌≤◌, ◌++◌, List, ℕ, [], length, take, true, false, IfOk};
ghost use Rattle.ts_link.specs.Link.{Reads, Writes, all_of};
ghost use Rattle.ts_link.specs.LinkAnswers.{count_put};
ghost use Rattle.ts_tap.specs.Taps.{CountsPut, HasRoom, HasTapped, TapsOn, new_tap, watching_of};
ghost use Rattle.ts_tap.specs.Sums.{SumsBody};
ghost use Rattle.ts_tap.specs.Watching.{CountsLeft, IsCounted};

use crate::sent_reader::SentReader;
use crate::sum::Sum;
use crate::watch::Watch;
use crate::watcher::Watcher;
use std::alloc::Global;
use std::marker::Model;
use ts_link::{Got, Link, NoMemory, Put, Sourced};

/// A client's link that offers the body data which the client took to a watcher, and changes no answer.
#[derive(Drop)]
pub struct Tapped<C: Link, W: Watcher> {
    pub(crate) client: C,
    sent: SentReader,
    watch: Watch<W>,
}

impl<C: Link, W: Watcher> Model for Tapped<C, W> {
    ghost use Rattle.std.specs.Prelude.{◌≡◌, true};
    ghost use Rattle.ts_tap.specs.Taps.{IsTapping, Tap, watching_of};
    ghost use Rattle.ts_tap.specs.Watching.{IsCounted};

    ghost Value = { Tap C W };

    ghost view = { λ t. record { client = t.client; watch = watching_of t.watch } };

    ghost invariant = { λ t. IsCounted W.lefts (watching_of t.watch)
        × (C.tells ≡ true → IsTapping W.took (C.look t.client).taken t.sent (watching_of t.watch)) };
}

// How many bytes a write took.
fn count_put(put: Put) -> usize
    ensures { result ≡ count_put put }
{
    match put {
        Put::Took(count) => count,
        _ => 0,
    }
}

// Offers what waits, and then the body data among the bytes that a client took.
fn show<W: Watcher>(sent: &mut SentReader, watch: &mut Watch<W>, taken: &[u8])
    requires { HasRoom (length taken.now) watch.old }
    ensures taps { TapsOn W.took sent.old (watching_of watch.old) taken.now
        sent.new (watching_of watch.new) }
    ensures counts { CountsLeft W.lefts (watching_of watch.old) (watching_of watch.new) }
    ensures goes { W.goes watch.old.watcher watch.new.watcher }
{
    watch.offer_waits();
    let mut rest = taken;
    while !rest.is_empty() {
        let seen = sent.see(rest);
        watch.offer(seen.body);
        rest = seen.rest;
    }
}

// One write of the client, and the offers behind it.
fn write_shown<C: Link, W: Watcher>(
    client: &mut C,
    sent: &mut SentReader,
    watch: &mut Watch<W>,
    piece: &[u8],
) -> Put
    requires { 0 < length piece.now }
    ensures writes { Writes C.tells (C.look client.old) (C.look client.new) result piece.now }
    ensures goes { C.goes client.old client.new × W.goes watch.old.watcher watch.new.watcher }
    ensures taps { TapsOn W.took sent.old (watching_of watch.old) (take (count_put result) piece.now)
        sent.new (watching_of watch.new) }
    ensures counts { CountsPut W.lefts result (watching_of watch.old) (watching_of watch.new) }
{
    if watch.make_room(piece.len()).is_err() {
        return Put::NoMemory;
    }
    match client.write(piece) {
        Put::NoMemory => Put::NoMemory,
        put => {
            let (taken, _) = piece.split_at(count_put(put));
            show(sent, watch, taken);
            put
        }
    }
}

impl<C: Link + Drop, W: Watcher + Drop> Tapped<C, W> {
    /// A tap on what this client takes. Neither the client nor the watcher took anything before.
    pub fn make(alloc: Global, client: C, watcher: W) -> Result<Tapped<C, W>, NoMemory>
        requires client { C.tells ≡ true → (C.look client).taken ≡ [] }
        requires watcher { W.took watcher [] }
        ensures { IfOk result (λ t. t ≡ new_tap client watcher) }
    {
        let sent = SentReader::make(alloc)?;
        Ok(Tapped {
            client,
            sent,
            watch: Watch::make(alloc, watcher),
        })
    }

    /// Whether the watcher left more body data than may wait for it, so that it is offered nothing more.
    pub fn is_lost(&self) -> bool
        ensures lost { result ≡ self.now.watch.lost }
        ensures counted { IsCounted W.lefts self.now.watch }
    {
        self.watch.lost
    }

    /// Offers what waits once more, and gives the client's link and the watcher back.
    pub fn into_parts(self) -> (C, W)
        ensures client { result.0 ≡ self.client }
        ensures goes { W.goes self.watch.watcher result.1 }
        ensures counted { IsCounted W.lefts self.watch }
        ensures tapped { C.tells ≡ true → HasTapped W.took W.lefts
            (C.look self.client).taken self.watch result.1 }
    {
        let mut watch = self.watch;
        watch.offer_waits();
        (self.client, watch.watcher)
    }
}

impl<C: Link + Drop> Tapped<C, Sum> {
    /// Gives the client's link and the sum back. Such a tap is never lost: it summed up all the body data
    /// that the client took.
    pub fn into_sum(self) -> (C, Sum)
        ensures client { result.0 ≡ self.client }
        ensures most { result.1.most ≡ self.watch.watcher.most }
        ensures never { self.watch.lost ≡ false }
        ensures sums { C.tells ≡ true → SumsBody (C.look self.client).taken result.1 }
    {
        self.into_parts()
    }
}

impl<C: Link, W: Watcher> Link for Tapped<C, W> {
    ghost tells = { C.tells };

    ghost look = { λ t. C.look t.client };

    ghost goes = { λ t u. C.goes t.client u.client × W.goes t.watch.watcher u.watch.watcher };

    ghost still = { λ t u. C.still t.client u.client × W.goes t.watch.watcher u.watch.watcher };

    fn read(&mut self, into: &mut [u8]) -> Got {
        self.client.read(into)
    }

    // After a write that did not lack memory bytes wait, and the tap is lost, only where an offer in it was
    // not taken whole.
    fn write(&mut self, piece: &[u8]) -> Put
        requires { 0 < length piece.now }
        ensures writes { Writes C.tells (C.look self.old.client) (C.look self.new.client) result piece.now }
        ensures goes { C.goes self.old.client self.new.client
            × W.goes self.old.watch.watcher self.new.watch.watcher }
        ensures counts { CountsPut W.lefts result self.old.watch self.new.watch }
    {
        write_shown(&mut self.client, &mut self.sent, &mut self.watch, piece)
    }

    fn faults(&self) -> u64 {
        self.client.faults()
    }

    ghost stays = { λ t. (C.stays t.client, W.stays t.watch.watcher) };

    ghost goes_on = { λ t u v g h. (
      C.goes_on t.client u.client v.client g.0 h.0,
      W.goes_on t.watch.watcher u.watch.watcher v.watch.watcher g.1 h.1,
    ) };

    ghost goes_still = { λ t u g. (C.goes_still t.client u.client g.0, g.1) };

    ghost still_on = { λ t u v g h. (
      C.still_on t.client u.client v.client g.0 h.0,
      W.goes_on t.watch.watcher u.watch.watcher v.watch.watcher g.1 h.1,
    ) };
}

impl<C: Sourced, W: Watcher> Sourced for Tapped<C, W> {
    fn known(&self) {
        self.client.known();
    }
}
