//! The clients of which the net said that they are ready, and whose handlers are roused.

ghost use Rattle.std.specs.Prelude.{◌≡◌, [], true, None, length, IfOk, IfSome, OnOk};
ghost use Rattle.ts_slot.specs.Words.{tags_of};
ghost use Rattle.ts_thread.specs.Desks.{IsDeskOf, KeepsTokens};
ghost use Rattle.ts_serve.specs.Acceptor.{HasPlaces, KeepsDeskSome};
ghost use Rattle.ts_serve.specs.Ready.{AreLeft, HasNoPlace, IsLeft, IsPlaceFor, IsSettledAt, StandsIn};
ghost use Rattle.ts_serve.specs.Ready.{serves_client};

use crate::acceptor::PLACES;
use crate::connection::Connection;
use crate::place::PlaceGroup;
use crate::source::ClientSource;
use crate::tenant::Tenant;
use crate::worker::PAUSE;
use std::alloc::Global;
use std::mem::swap;
use std::sync::Wait;
use ts_group::Rouse;
use ts_link::NoMemory;
use ts_thread::{Desk, Shared, try_rouse};

/// How many rounds go by at most before the net is asked who is ready.
pub const MOST_UNASKED: u32 = 16;

/// For how long the first thread waits at most where no client is there, in milliseconds. It is less than the
/// time after which a link that was not ready is tried again.
pub const LONGEST_PAUSE: u64 = 8;

/// Who is ready and was not roused yet, and when the net was asked.
#[derive(Drop)]
pub struct Ready {
    /// The names of clients that were told and not roused yet.
    pub names: Vec<u64>,
    // Room for those of them whose place is missed.
    missed: Vec<u64>,
    // The moment at which the net was asked last.
    asked_at: u64,
    // How many rounds went by since.
    unasked: u32,
    /// For how long the next wait may be, in milliseconds.
    pub pause: u64,
}

impl Ready {
    /// Nobody is ready so far.
    pub fn new(alloc: Global) -> Ready
        ensures { result.names.items ≡ [] }
    {
        Ready {
            names: Vec::new(alloc),
            missed: Vec::new(alloc),
            asked_at: 0,
            unasked: 0,
            pause: PAUSE,
        }
    }
}

// Whether it is this client's handler that was started there.
fn serves_client(connection: Connection, number: u64) -> bool
    ensures { result ≡ serves_client number connection }
{
    match connection {
        Connection::Free => false,
        Connection::Accepted { whose, started, .. } => started && whose.number == number,
    }
}

// A place of which the handler serves the client of a number and was started, if there is one.
fn place_of(row: &[Connection], number: u64) -> Option<u32>
    requires { length row.now ≡ PLACES }
    ensures some { IfSome result (λ k. IsPlaceFor number k row.now) }
    ensures none { result ≡ None → HasNoPlace number row.now }
{
    'places: for k in 0..PLACES {
        if serves_client(row[k as usize], number) {
            return Some(k);
        }
    }
    None
}

// Tries once to rouse the handler of a client. Answers whether it need not be tried again: it was roused, or
// there is none that was started.
fn rouse_client<
    W: Tenant + Drop,
    P: Rouse<Question = W::Question, Reply = W::Reply> + Drop,
    G,
    R: Wait,
>(
    shared: &Shared<'_, PlaceGroup<W, P>, G, R>,
    desk: &mut Desk<PlaceGroup<W, P>>,
    row: &[Connection],
    number: u64,
    moment: u64,
) -> Result<bool, NoMemory>
    requires desk { IsDeskOf shared.now.slots.now shared.now.queue.now desk.old }
    requires places { HasPlaces (tags_of shared.now.slots.now) × (length row.now ≡ PLACES) }
    ensures desk { IsDeskOf shared.now.slots.now shared.now.queue.now desk.new }
    ensures keeps { KeepsTokens desk.old desk.new 1 }
    ensures settled { IfOk result (λ done. done ≡ true →
        IsSettledAt W.fits W.keeps W.sound P.fits P.sound P.is_first (tags_of shared.now.slots.now)
        row.now moment number desk.new) }
{
    let Some(k) = place_of(row, number) else {
        return Ok(true);
    };
    try_rouse(shared, desk, k, moment)
}

// Tries once to rouse the handler of a client, and adds its number to those that were missed if another seat
// held its place.
fn rouse_or_keep<
    W: Tenant + Drop,
    P: Rouse<Question = W::Question, Reply = W::Reply> + Drop,
    G,
    R: Wait,
>(
    shared: &Shared<'_, PlaceGroup<W, P>, G, R>,
    desk: &mut Desk<PlaceGroup<W, P>>,
    row: &[Connection],
    number: u64,
    missed: &mut Vec<u64>,
    moment: u64,
) -> Result<(), NoMemory>
    requires desk { IsDeskOf shared.now.slots.now shared.now.queue.now desk.old }
    requires places { HasPlaces (tags_of shared.now.slots.now) × (length row.now ≡ PLACES) }
    ensures desk { IsDeskOf shared.now.slots.now shared.now.queue.now desk.new }
    ensures keeps { KeepsTokens desk.old desk.new 1 }
    ensures stays { OnOk result (StandsIn missed.old.items missed.new.items) }
    ensures left { OnOk result (IsLeft W.fits W.keeps W.sound P.fits P.sound P.is_first
        (tags_of shared.now.slots.now) row.now moment number missed.new.items desk.new) }
{
    if rouse_client(shared, desk, row, number, moment)? {
        return Ok(());
    }
    missed.push(number)?;
    Ok(())
}

// Tries once to rouse the handler of each client of these names, and adds those whose place another seat
// held.
fn rouse_named<
    W: Tenant + Drop,
    P: Rouse<Question = W::Question, Reply = W::Reply> + Drop,
    G,
    R: Wait,
>(
    shared: &Shared<'_, PlaceGroup<W, P>, G, R>,
    desk: &mut Desk<PlaceGroup<W, P>>,
    row: &[Connection],
    names: &[u64],
    missed: &mut Vec<u64>,
    moment: u64,
) -> Result<(), NoMemory>
    requires desk { IsDeskOf shared.now.slots.now shared.now.queue.now desk.old }
    requires places { HasPlaces (tags_of shared.now.slots.now) × (length row.now ≡ PLACES) }
    ensures desk { IsDeskOf shared.now.slots.now shared.now.queue.now desk.new }
    ensures keeps { KeepsDeskSome desk.old desk.new }
    ensures left { OnOk result (AreLeft W.fits W.keeps W.sound P.fits P.sound P.is_first
        (tags_of shared.now.slots.now) row.now moment names.now missed.new.items desk.new) }
{
    'tries: for place in 0..names.len() {
        rouse_or_keep(shared, desk, row, names[place], missed, moment)?;
    }
    Ok(())
}

/// Tries once to rouse the handler of each client that is ready, at a moment. Whose place another seat held
/// is ready still, since the net tells of a change once; who has none that was started is forgotten.
pub fn rouse_ready<
    W: Tenant + Drop,
    P: Rouse<Question = W::Question, Reply = W::Reply> + Drop,
    G,
    R: Wait,
>(
    shared: &Shared<'_, PlaceGroup<W, P>, G, R>,
    desk: &mut Desk<PlaceGroup<W, P>>,
    row: &[Connection],
    ready: &mut Ready,
    moment: u64,
) -> Result<(), NoMemory>
    requires desk { IsDeskOf shared.now.slots.now shared.now.queue.now desk.old }
    requires places { HasPlaces (tags_of shared.now.slots.now) × (length row.now ≡ PLACES) }
    ensures desk { IsDeskOf shared.now.slots.now shared.now.queue.now desk.new }
    ensures keeps { KeepsDeskSome desk.old desk.new }
    ensures left { OnOk result (AreLeft W.fits W.keeps W.sound P.fits P.sound P.is_first
        (tags_of shared.now.slots.now) row.now moment ready.old.names.items ready.new.names.items desk.new) }
{
    ready.missed.clear();
    let names = ready.names.as_slice();
    rouse_named(shared, desk, row, names, &mut ready.missed, moment)?;
    swap(&mut ready.names, &mut ready.missed);
    Ok(())
}

// For how long the net may wait, where nothing is to be done for so many milliseconds: longer each time, and
// not at all where somebody who was told of is to be tried again.
fn wait_within(ready: &Ready, free_for: u64) -> u64 {
    if ready.names.is_empty() {
        return free_for.min(ready.pause);
    }
    0
}

// For how long the wait behind this one may be.
fn next_pause(pause: u64, free_for: u64) -> u64 {
    if free_for == 0 {
        return PAUSE;
    }
    pause.saturating_add(pause).min(LONGEST_PAUSE)
}

/// Asks the net who is ready, where nothing is to be done for so many milliseconds, where the millisecond is
/// a new one, and where so many rounds went by. It waits for somebody only where nothing is to be done and
/// nobody was missed.
pub fn ask_ready<N: ClientSource>(net: &mut N, ready: &mut Ready, free_for: u64, moment: u64)
    ensures { N.seen net.new ≡ N.seen net.old }
{
    if free_for == 0 && moment == ready.asked_at && ready.unasked < MOST_UNASKED {
        ready.unasked += 1;
        return;
    }
    let most = wait_within(ready, free_for);
    net.wait(most, &mut ready.names);
    ready.pause = next_pause(ready.pause, free_for);
    ready.asked_at = moment;
    ready.unasked = 0;
}
