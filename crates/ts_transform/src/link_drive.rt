//! A chain between two links, driven to its end by one who owns its group.
ghost use Rattle.std.specs.Prelude.{◌≡◌, ◌≤◌, ◌<◌, ◌+◌, [], true, false, Ok, IfErr, OnOk};
ghost use Rattle.ts_group.specs.Due.{IsDueFirst};
ghost use Rattle.ts_transform.specs.Carrying.{CarriesTo, IsCarriedGroup, IsDriveCause, MakesTurns, TakesTurn, WritesWhole};

use crate::link_world::LinkWorld;
use crate::transform::Transform;
use ts_group::{Group, Handling, TurnFault};
use ts_link::Link;

/// Why a chain is driven no further.
#[derive(Clone, Copy, Debug, PartialEq, Eq)]
pub enum DriveFault {
    /// Memory lacked for a turn.
    NoMemory,
    /// Memory lacked in a turn, for the next event of a series; nothing was handled in it.
    NoMemoryInTurn,
    /// The numbers of turns are used up.
    Spent,
}

// Handles the event that is due first, in a turn of its own.
fn take_turn<I: Link + Drop, K: Link + Drop, P: Transform + Drop>(
    group: &mut Group<LinkWorld<I, K, P>>,
    due: u64,
    number: u64,
    moment: u64,
) -> Result<(), DriveFault>
    requires idle { group.old.cx.log.state.held ≡ false }
    requires carried { IsCarriedGroup group.old }
    requires due { IsDueFirst group.old.cx.log.state due number × (due ≤ moment) }
    ensures idle { group.new.cx.log.state.held ≡ false }
    ensures carried { IsCarriedGroup group.new }
    ensures carries { CarriesTo P.rest I.tells K.tells I.look K.look group.old.world group.new.world }
    ensures turn { OnOk result (TakesTurn group.old.cx group.new.cx) }
    ensures fault { IfErr result (λ fault. IsDriveCause fault group.old.cx group.new.cx) }
{
    match group.begin_alone(u64::MAX, moment) {
        Ok(()) => {}
        Err(TurnFault::Worn) => return Err(DriveFault::Spent),
        Err(TurnFault::NoMemory) => return Err(DriveFault::NoMemory),
    }
    let handled = group.handle(number, moment);
    group.give_turn();
    match handled {
        Ok(Handling::Handled { events: _ }) => Ok(()),
        Ok(Handling::Asks { .. }) => unreachable!(),
        Ok(Handling::NotPending) => unreachable!(),
        Ok(Handling::NotDue { due: _ }) => unreachable!(),
        Err(_) => Err(DriveFault::NoMemoryInTurn),
    }
}

/// Drives a chain between two links that was started, until nothing is pending or so many turns were made:
/// each turn handles the event that is due first. It answers whether nothing is pending. Where nothing was
/// lost then, and no link failed, all that the input gave was written through the chain; and the input has
/// nothing left, or the chain wants no more, and nothing that is left would change what was written.
pub fn drive_links<I: Link + Drop, K: Link + Drop, P: Transform + Drop>(
    group: &mut Group<LinkWorld<I, K, P>>,
    turns: u32,
) -> Result<bool, DriveFault>
    requires idle { group.old.cx.log.state.held ≡ false }
    requires carried { IsCarriedGroup group.old }
    ensures idle { group.new.cx.log.state.held ≡ false }
    ensures carried { IsCarriedGroup group.new }
    ensures carries { CarriesTo P.rest I.tells K.tells I.look K.look group.old.world group.new.world }
    ensures done { result ≡ Ok true → (group.new.cx.log.state.pending ≡ [])
        × WritesWhole P.rest I.tells K.tells I.look K.look group.old.world group.new.world }
    ensures goes_on { result ≡ Ok false → MakesTurns turns group.old.cx group.new.cx }
    ensures fault { IfErr result (λ fault. IsDriveCause fault group.old.cx group.new.cx) }
{
    let mut moment = 0;
    'turns: for made in 0..turns {
        let Some((due, number)) = group.next_due() else {
            return Ok(true);
        };
        moment = due.max(moment);
        take_turn(group, due, number, moment)?;
    }
    match group.next_due() {
        None => Ok(true),
        Some(_) => Ok(false),
    }
}
