//! How the news of a group is told: each new event that is pending gets a token.

ghost use Rattle.std.specs.Prelude.{◌≡◌, ◌<◌, length, OnOk};
ghost use Rattle.ts_slot.specs.Words.{tags_of};
ghost use Rattle.ts_thread.specs.Desks.{IsDeskOf, SharesSame};
ghost use Rattle.ts_thread.specs.News.{HasTold, KeepsPlaces, OnlyNews};

use crate::desk::{Desk, place};
use crate::shared::Shared;
use std::sync::Wait;
use ts_group::{Group, World};
use ts_link::NoMemory;
use ts_queue::Token;

/// Makes a token of each piece of news of the group k, which a turn of it tells that hands over or not.
pub fn tell_news<W: World + Drop, G, R: Wait>(
    shared: &Shared<'_, Group<W>, G, R>,
    desk: &mut Desk<Group<W>>,
    hands_over: bool,
    k: u32,
    group: &mut Group<W>,
    moment: u64,
) -> Result<(), NoMemory>
    requires desk { IsDeskOf shared.now.slots.now shared.now.queue.now desk.old }
    requires group { k < length (tags_of shared.now.slots.now) }
    ensures desk { IsDeskOf shared.now.slots.now shared.now.queue.now desk.new }
    ensures seat { (desk.new.seat ≡ desk.old.seat) × SharesSame desk.old desk.new }
    ensures same { OnlyNews group.old group.new }
    ensures places { KeepsPlaces desk.old desk.new }
    ensures told { OnOk result (HasTold hands_over k moment group.old group.new desk.old desk.new) }
{
    group.known();
    'news: while let Some((number, due)) = group.next_news() {
        let token = Token { group: k, number };
        place(
            shared.rt,
            shared.queue,
            desk,
            hands_over,
            token,
            due,
            moment,
        )?;
    }
    Ok(())
}
