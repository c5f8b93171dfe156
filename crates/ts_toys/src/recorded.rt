//! A group in a mutex slot: a turn of it that is recorded under the number and the seat that the slot gave.

ghost use Rattle.std.specs.Prelude.{◌≡◌, ◌<◌, false, [], length, OnOk, OnErr};
ghost use Rattle.ts_group.specs.Context.{IsSame};
ghost use Rattle.ts_group.specs.Answers.{Holds};
ghost use Rattle.ts_group.specs.Standing.{StandsAfter};
ghost use Rattle.ts_toys.specs.Recorded.{Records};
ghost use Rattle.ts_slot.specs.Words.{tags_of, view, IsSeatOf};

use ts_group::{Group, World};
use ts_link::NoMemory;
use ts_slot::{Left, Missed, Seat, Slots};

/// Records a turn in a group, and gives it back.
fn record<W: World + Drop>(
    group: &mut Group<W>,
    turn: u64,
    seat: u64,
    moment: u64,
) -> Result<(), NoMemory>
    requires idle { group.old.cx.log.state.held ≡ false }
    requires later { group.old.cx.log.state.turns < turn }
    ensures ok { OnOk result (Records group.old group.new turn seat) }
    ensures sound { Holds W.sound group.old → Holds W.sound group.new }
    ensures stands { StandsAfter W.fits group.new group.old }
    ensures err { OnErr result (IsSame group.old.cx group.new.cx × (group.new.world ≡ group.old.world)) }
{
    group.known();
    group.begin_turn(turn, seat, moment)?;
    group.known();
    group.give_turn();
    Ok(())
}

/// Has one turn of a group that stands in a slot, which its journal records unless there is no memory.
pub fn visit<W: World + Drop>(
    slots: &Slots<Group<W>>,
    seat: &mut Seat<Group<W>>,
    k: u32,
    moment: u64,
) -> Result<Left, Missed>
    requires seat { IsSeatOf slots.now seat.old × (k < length (tags_of slots.now)) }
    requires idle { (view seat.old).held ≡ [] }
    ensures seat { IsSeatOf slots.now seat.new × ((view seat.new).held ≡ []) }
    ensures share { (view seat.new).share ≡ (view seat.old).share }
{
    let mut turn = slots.try_enter(seat, k)?;
    let number = turn.number();
    let owner = seat.number();
    let group = turn.value();
    group.known();
    let _recorded = record(group, number, owner, moment);
    Ok(slots.leave(seat, turn))
}
