//! One turn of groups that nobody else has, when the caller wants it.

ghost use Rattle.std.specs.Prelude.{◌<◌, List, ◌++◌, length, OnOk};
ghost use Rattle.ts_thread.specs.Alone.{HasStepped};
ghost use Rattle.ts_thread.specs.Goings.{AllGoOn, WornAmong};
ghost use Rattle.ts_thread.specs.Tags.{CanAsk, GroupsFit};

use crate::MOST_TURNS;
use crate::did::Unfinished;
use crate::end::turn_alone;
use ts_group::{Group, World};

// Takes a turn of the first of the groups that come after others.
fn step_first<W: World + Drop>(
    before: &mut [Group<W>],
    rest: &mut [Group<W>],
) -> Result<(), Unfinished>
    requires rest { 0 < length rest.old }
    requires fits { (tags : List W.Tag) × CanAsk W.fits W.only_asked W.may_ask W.right W.answers tags
        × GroupsFit W.fits W.sound W.only_asked W.is_first tags (before.old ++ rest.old) }
    ensures goes { AllGoOn W.fits W.sound W.only_asked W.is_first W.left MOST_TURNS result
        (before.old ++ rest.old) (before.new ++ rest.new) 1 }
    ensures worn { WornAmong W.fits W.sound W.only_asked W.is_first MOST_TURNS result
        (before.new ++ rest.new) }
    ensures steps { OnOk result
        (HasStepped (length before.old) (before.old ++ rest.old) (before.new ++ rest.new)) }
{
    let Some((group, after)) = rest.split_first_mut() else {
        unreachable!()
    };
    let Some((due, number)) = group.next_due() else {
        return Ok(());
    };
    turn_alone(before, group, after, number, due, MOST_TURNS)
}

/// Handles the event of the group at this place that is due first, if one is pending, in a turn of its own,
/// at the moment at which it is due. A group that the handler wants to ask is asked in a turn of its own. No
/// turn is held when it returns, whatever it answers.
pub fn step_at<W: World + Drop>(groups: &mut [Group<W>], place: usize) -> Result<(), Unfinished>
    requires place { place < length groups.old }
    requires fits { (tags : List W.Tag) × CanAsk W.fits W.only_asked W.may_ask W.right W.answers tags
        × GroupsFit W.fits W.sound W.only_asked W.is_first tags groups.old }
    ensures goes { AllGoOn W.fits W.sound W.only_asked W.is_first W.left MOST_TURNS result
        groups.old groups.new 1 }
    ensures worn { WornAmong W.fits W.sound W.only_asked W.is_first MOST_TURNS result groups.new }
    ensures steps { OnOk result (HasStepped place groups.old groups.new) }
{
    let (before, rest) = groups.split_at_mut(place);
    step_first(before, rest)
}
