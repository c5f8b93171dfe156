//! The turns that a thread takes at its desk, one token each.

ghost use Rattle.std.specs.Prelude.{◌≡◌, ◌*◌, [], length, IfOk, OnErr};
ghost use Rattle.ts_slot.specs.Words.{tags_of, view};
ghost use Rattle.ts_thread.specs.declared.TheConstants.{MOST_ENTERED};
ghost use Rattle.ts_thread.specs.Desks.{IsDeskOf, KeepsDesk};
ghost use Rattle.ts_thread.specs.Runs.{HasRunTo, HasLacked};
ghost use Rattle.ts_thread.specs.Tags.{CanAsk};
ghost use Rattle.ts_thread.specs.Turning.{IsDid, LosesOne};

use crate::desk::{Desk, next_token};
use crate::did::{Did, RunEnd};
use crate::shared::Shared;
use crate::turn::enter_token;
use std::sync::Wait;
use ts_group::{Group, World};
use ts_link::{Gate, NoMemory};

/// Takes a token and handles its event in a turn of its group.
pub fn turn_desk<W: World + Drop, G: Gate, R: Wait>(
    shared: &Shared<'_, Group<W>, G, R>,
    thread: u32,
    desk: &mut Desk<Group<W>>,
    moment: u64,
) -> Result<Did, NoMemory>
    requires desk { IsDeskOf shared.now.slots.now shared.now.queue.now desk.old }
    requires asks { CanAsk W.fits W.only_asked W.may_ask W.right W.answers (tags_of shared.now.slots.now) }
    ensures desk { IsDeskOf shared.now.slots.now shared.now.queue.now desk.new }
    ensures keeps { KeepsDesk desk.old desk.new MOST_ENTERED }
    ensures did { IfOk result (IsDid W.fits W.asking W.answers W.called W.heard W.left
        (tags_of shared.now.slots.now) moment desk.old desk.new) }
    ensures err { OnErr result (LosesOne (length (tags_of shared.now.slots.now)) moment desk.old desk.new) }
{
    let groups = shared.slots.groups();
    let Some(token) = next_token(shared.rt, shared.queue, desk, groups, moment) else {
        return Ok(Did::Idle);
    };
    enter_token(shared, thread, desk, token, moment)
}

/// Takes at most so many turns, the first at the moment 0.
pub fn run_desk<W: World + Drop, G: Gate, R: Wait>(
    shared: &Shared<'_, Group<W>, G, R>,
    thread: u32,
    desk: &mut Desk<Group<W>>,
    budget: u64,
) -> Result<RunEnd, NoMemory>
    requires desk { IsDeskOf shared.now.slots.now shared.now.queue.now desk.old }
    requires asks { CanAsk W.fits W.only_asked W.may_ask W.right W.answers (tags_of shared.now.slots.now) }
    ensures desk { IsDeskOf shared.now.slots.now shared.now.queue.now desk.new }
    ensures keeps { KeepsDesk desk.old desk.new (MOST_ENTERED * budget) }
    ensures ran { IfOk result (HasRunTo W.fits W.asking W.answers W.called W.heard W.left
        (tags_of shared.now.slots.now) budget desk.old desk.new) }
    ensures err { OnErr result (HasLacked W.fits W.asking W.answers W.called W.heard W.left
        (tags_of shared.now.slots.now) budget desk.old desk.new) }
{
    let mut moment = 0;
    let mut made = 0;
    'turns: while made < budget {
        let did = turn_desk(shared, thread, desk, moment)?;
        if let Did::Idle = did {
            let Some(due) = desk.wheel.next_due() else {
                return Ok(RunEnd::Idle);
            };
            moment = due;
        }
        made += 1;
    }
    Ok(RunEnd::Budget)
}
