//! The serial driver: a body goes through a chain of transforms by events, each in a turn of its own, and
//! what comes out is written into a sink between the turns.
ghost use Rattle.std.specs.Prelude.{◌≡◌, ◌+◌, ◌≤◌, [], length, true, false, OnOk};
ghost use Rattle.ts_link.specs.Counts.{Counted};
ghost use Rattle.ts_transform.specs.World.{IsSoundGroup};
ghost use Rattle.ts_proxy.specs.Journals.{first_moment, HandlesNext, TakesNext, GoesOnTo, IsUnused, EndsSerially};
ghost use Rattle.ts_proxy.specs.Sending.{WroteAll, Passes, OnDone, AddsJournal, StaysSound, IsDue, is_failed};
ghost use Rattle.ts_proxy.specs.Sending.{left_of, to_come, for_client, HasLessLeft, IsSoundAlone, IsReadyForClient, IsBetweenTurns};

use crate::writing::SendEnd;
use std::alloc::Global;
use ts_group::{Group, Handling};
use ts_journal::Journal;
use ts_link::{NoMemory, Sink, Wrote};
use ts_transform::{ChainWorld, Transform};

// Writes what waits for the client.
fn drain<P: Transform + Drop, K: Sink>(world: &mut ChainWorld<P>, out: &mut K) -> SendEnd
    ensures told { K.tells ≡ true →
        Passes (K.seen out.old) (K.seen out.new) (to_come P.rest world.old) (to_come P.rest world.new) }
    ensures faults { Counted (is_failed result) (K.seen out.old).faults (K.seen out.new).faults }
    ensures dry { OnDone result (for_client world.new ≡ []) }
    ensures falls { left_of P.rest world.new + length (for_client world.old)
        ≤ left_of P.rest world.old + length (for_client world.new) }
    ensures stays { StaysSound world.old world.new }
{
    while let Some(block) = world.chain().out_block() {
        match out.write(block) {
            Wrote::Took(count) => world.take(count),
            Wrote::Failed => return SendEnd::Failed,
            Wrote::NoMemory => return SendEnd::NoMemory,
        }
    }
    SendEnd::Done
}

// Handles the event of a number, which is due, and sees that the last stage goes on once bytes were taken.
fn handle_next<P: Transform + Drop>(
    group: &mut Group<ChainWorld<P>>,
    number: u64,
    moment: u64,
) -> Result<(), NoMemory>
    requires turn { group.old.cx.log.state.held ≡ true }
    requires sound { IsSoundGroup group.old }
    requires due { IsDue group.old.cx.log.state number moment }
    ensures turn { group.new.cx.log.state.held ≡ true }
    ensures within { OnOk result (HandlesNext number moment group.old.cx.log group.new.cx.log) }
    ensures flow { to_come P.rest group.new.world ≡ to_come P.rest group.old.world }
    ensures ready { OnOk result (IsReadyForClient group.new) }
    ensures falls { OnOk result (HasLessLeft P.rest group.old group.new) }
{
    match group.handle(number, moment) {
        Ok(Handling::Handled { events: _ }) => match ChainWorld::wake(group) {
            Ok(()) => Ok(()),
            Err(_) => Err(NoMemory),
        },
        Ok(_) => unreachable!(),
        Err(_) => Err(NoMemory),
    }
}

// Handles the event of a number, which is due, in a turn of its own.
fn drive_turn<P: Transform + Drop>(
    group: &mut Group<ChainWorld<P>>,
    number: u64,
    moment: u64,
) -> Result<(), NoMemory>
    requires idle { group.old.cx.log.state.held ≡ false }
    requires sound { IsSoundGroup group.old }
    requires due { IsDue group.old.cx.log.state number moment }
    ensures idle { group.new.cx.log.state.held ≡ false }
    ensures serial { OnOk result (TakesNext number moment group.old.cx.log group.new.cx.log) }
    ensures flow { to_come P.rest group.new.world ≡ to_come P.rest group.old.world }
    ensures ready { OnOk result (IsReadyForClient group.new) }
    ensures falls { OnOk result (HasLessLeft P.rest group.old group.new) }
{
    let Ok(()) = group.begin_alone(u64::MAX, moment) else {
        return Err(NoMemory);
    };
    let handled = handle_next(group, number, moment);
    group.give_turn();
    handled
}

// Begins the work of a chain's world, in the first turn and at the first moment.
fn start<P: Transform + Drop>(group: &mut Group<ChainWorld<P>>) -> Result<(), NoMemory>
    requires unused { IsUnused group.old.cx.log }
    requires sound { IsSoundGroup group.old }
    ensures idle { group.new.cx.log.state.held ≡ false }
    ensures serial { OnOk result (GoesOnTo first_moment first_moment group.old.cx.log group.new.cx.log) }
    ensures begins { OnOk result (group.new.cx.moment ≡ first_moment) }
    ensures flow { to_come P.rest group.new.world ≡ to_come P.rest group.old.world }
    ensures ready { OnOk result (IsReadyForClient group.new) }
{
    let Ok(()) = group.begin_alone(u64::MAX, 0) else {
        return Err(NoMemory);
    };
    group.start();
    let woken = ChainWorld::wake(group);
    group.give_turn();
    match woken {
        Ok(()) => Ok(()),
        Err(_) => Err(NoMemory),
    }
}

// Handles events until none is pending, each in a turn of its own and the one that is due first before the
// others, and writes between the turns. The moment moves on to the next due one where nothing is due.
fn run_events<P: Transform + Drop, K: Sink>(
    group: &mut Group<ChainWorld<P>>,
    out: &mut K,
) -> SendEnd
    requires between { IsBetweenTurns group.old }
    ensures told { K.tells ≡ true →
        Passes (K.seen out.old) (K.seen out.new)
        (to_come P.rest group.old.world) (to_come P.rest group.new.world) }
    ensures faults { Counted (is_failed result) (K.seen out.old).faults (K.seen out.new).faults }
    ensures done { OnDone result (to_come P.rest group.new.world ≡ []) }
    ensures ends { OnDone result (EndsSerially group.old.cx.log group.new.cx.log) }
{
    let mut moment = 0;
    'driving: while let Some((due, number)) = group.next_due() {
        moment = due.max(moment);
        let Ok(()) = drive_turn(group, number, moment) else {
            return SendEnd::NoMemory;
        };
        match drain(group.world_mut(), out) {
            SendEnd::Done => {}
            SendEnd::Failed => return SendEnd::Failed,
            SendEnd::NoMemory => return SendEnd::NoMemory,
        }
    }
    if group.world().is_running() {
        SendEnd::Done
    } else {
        SendEnd::NoMemory
    }
}

// Drives the world of a group that was not started, to its end.
#[tactic(auto, using(crate::proofs::Serial::serial_trans))]
fn drive_group<P: Transform + Drop, K: Sink>(
    group: &mut Group<ChainWorld<P>>,
    out: &mut K,
) -> SendEnd
    requires unused { IsUnused group.old.cx.log }
    requires sound { IsSoundGroup group.old }
    ensures told { K.tells ≡ true →
        WroteAll result (K.seen out.old) (K.seen out.new) (to_come P.rest group.old.world) }
    ensures faults { Counted (is_failed result) (K.seen out.old).faults (K.seen out.new).faults }
    ensures ends { OnDone result (EndsSerially group.old.cx.log group.new.cx.log) }
{
    let Ok(()) = start(group) else {
        return SendEnd::NoMemory;
    };
    match drain(group.world_mut(), out) {
        SendEnd::Done => run_events(group, out),
        SendEnd::Failed => SendEnd::Failed,
        SendEnd::NoMemory => SendEnd::NoMemory,
    }
}

/// Sends the body of a chain's world through the chain, and writes all that comes out. Where all was done,
/// the journal of its events is added to the journals; the place for it is taken before anything is written.
pub fn drive<P: Transform + Drop, K: Sink>(
    alloc: Global,
    world: ChainWorld<P>,
    out: &mut K,
    journals: &mut Vec<Journal>,
) -> SendEnd
    requires sound { IsSoundAlone world }
    ensures told { K.tells ≡ true → WroteAll result (K.seen out.old) (K.seen out.new) (to_come P.rest world) }
    ensures faults { Counted (is_failed result) (K.seen out.old).faults (K.seen out.new).faults }
    ensures journals { AddsJournal result journals.old.items journals.new.items }
{
    let Ok(()) = journals.reserve(1) else {
        return SendEnd::NoMemory;
    };
    let Ok(mut group) = Group::make(alloc, world, 0) else {
        return SendEnd::NoMemory;
    };
    let driven = drive_group(&mut group, out);
    let SendEnd::Done = driven else {
        return driven;
    };
    let (_, journal) = group.into_parts();
    journals.push_reserved(journal);
    SendEnd::Done
}
