//! How handlers are started, once they have a place.

ghost use Rattle.std.specs.Prelude.{◌≡◌, ◌<◌, length, OnOk};
ghost use Rattle.ts_slot.specs.Words.{tags_of, view};
ghost use Rattle.ts_thread.specs.Desks.{IsDeskOf, KeepsTokens};
ghost use Rattle.ts_serve.specs.Balance.{IsSameRow};
ghost use Rattle.ts_serve.specs.Acceptor.{HasPlaces, KeepsDeskSome};
ghost use Rattle.ts_serve.specs.Tenants.{IsPlace};
ghost use Rattle.ts_serve.specs.Starting.{AreTried, IsNowStarted, IsStartedAt, IsTriedAt, OthersStay};
ghost use Rattle.ts_serve.specs.Starting.{WereStartedAt};

use crate::acceptor::PLACES;
use crate::connection::{Connection, mark_started};
use crate::place::PlaceGroup;
use crate::tenant::Tenant;
use std::sync::Wait;
use ts_group::World;
use ts_link::NoMemory;
use ts_thread::{Desk, Shared, try_start};

// Tries once to start the handler in the place k, if a client was accepted there whose handler was not
// started.
fn start_handler<
    W: Tenant + Drop,
    P: World<Question = W::Question, Reply = W::Reply> + Drop,
    G,
    R: Wait,
>(
    shared: &Shared<'_, PlaceGroup<W, P>, G, R>,
    desk: &mut Desk<PlaceGroup<W, P>>,
    row: &mut Vec<Connection>,
    k: u32,
    moment: u64,
) -> Result<(), NoMemory>
    requires desk { IsDeskOf shared.now.slots.now shared.now.queue.now desk.old }
    requires place { IsPlace (tags_of shared.now.slots.now) k × (k < length row.old.items) }
    ensures desk { IsDeskOf shared.now.slots.now shared.now.queue.now desk.new }
    ensures keeps { KeepsTokens desk.old desk.new 1 }
    ensures row { IsSameRow row.old.items row.new.items }
    ensures others { OthersStay k row.old.items row.new.items }
    ensures started { IsNowStarted k row.old.items row.new.items
        → IsStartedAt W.fits W.keeps W.begun W.sound P.fits P.begun P.sound P.is_first
        (tags_of shared.now.slots.now) k desk.new }
    ensures tried { OnOk result (IsTriedAt k row.new.items (view desk.old.seat) (view desk.new.seat)) }
{
    let Connection::Accepted { started: false, .. } = row[k as usize] else {
        return Ok(());
    };
    if try_start(shared, desk, k, moment)? {
        mark_started(row, k);
    }
    Ok(())
}

/// Tries once to start each handler of an accepted client that was not started. Of whom the row says so then,
/// it was started, whatever is answered; where memory did not lack, another seat held the place of each
/// other.
pub fn start_handlers<
    W: Tenant + Drop,
    P: World<Question = W::Question, Reply = W::Reply> + Drop,
    G,
    R: Wait,
>(
    shared: &Shared<'_, PlaceGroup<W, P>, G, R>,
    desk: &mut Desk<PlaceGroup<W, P>>,
    row: &mut Vec<Connection>,
    moment: u64,
) -> Result<(), NoMemory>
    requires desk { IsDeskOf shared.now.slots.now shared.now.queue.now desk.old }
    requires places { HasPlaces (tags_of shared.now.slots.now) × (length row.old.items ≡ PLACES) }
    ensures desk { IsDeskOf shared.now.slots.now shared.now.queue.now desk.new }
    ensures keeps { KeepsDeskSome desk.old desk.new }
    ensures row { IsSameRow row.old.items row.new.items }
    ensures started { WereStartedAt W.fits W.keeps W.begun W.sound P.fits P.begun P.sound P.is_first
        (tags_of shared.now.slots.now) PLACES row.old.items row.new.items desk.new }
    ensures tried { OnOk result (AreTried row.new.items (view desk.old.seat) (view desk.new.seat)) }
{
    'places: for k in 0..PLACES {
        start_handler(shared, desk, row, k, moment)?;
    }
    Ok(())
}
