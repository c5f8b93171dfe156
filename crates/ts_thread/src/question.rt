//! How a group is asked by a seat that has a turn of another one.

ghost use Rattle.std.specs.Prelude.{◌≡◌, ◌<◌, ◌≤◌, IfOk, IfErr};
ghost use Rattle.ts_group.specs.Answers.{IsAnswer};
ghost use Rattle.ts_slot.specs.Limits.{last_turn};
ghost use Rattle.ts_slot.specs.Words.{tags_of, view, IsSeatOf, IsTop};
ghost use Rattle.ts_thread.specs.Asks.{IsOnlyAsked, IsAskedAt, TakesQuestions, GivesReply, CameBy};
ghost use Rattle.ts_thread.specs.Held.{IsGivenBack};
ghost use Rattle.ts_thread.specs.Seats.{KeepsSeat, Leaves};
ghost use Rattle.ts_thread.specs.Tags.{GroupFits};

use crate::seat::leave;
use crate::turn::{begin, give};
use ts_group::{Asked, Group, World};
use ts_link::NoMemory;
use ts_slot::{Seat, Slots, Turn};

// Asks a group in a turn of its own. At want of memory the question comes back.
fn ask_turn<W: World + Drop>(
    group: &mut Group<W>,
    turn: u64,
    seat: u64,
    question: W::Question,
    moment: u64,
) -> Result<W::Reply, (NoMemory, W::Question)>
    requires fits { TakesQuestions W.fits W.sound W.only_asked W.is_first group.old }
    requires turn { (group.old.cx.log.state.turns < turn) × (turn ≤ last_turn) }
    ensures given { IsGivenBack W.fits group.old group.new turn seat }
    ensures fits { (t : W.Tag) → GroupFits W.fits W.sound W.only_asked W.is_first t group.old
        → GroupFits W.fits W.sound W.only_asked W.is_first t group.new }
    ensures reply { IfOk result (λ reply. W.answers group.old.world question reply) }
    ensures question { IfErr result (λ e. e.1 ≡ question) }
{
    let Ok(()) = begin(group, turn, seat, moment) else {
        return Err((NoMemory, question));
    };
    group.known();
    let reply = group.ask(question, moment);
    give(group);
    reply
}

// Asks a group that the seat won last, and leaves it.
fn ask_won<W: World + Drop>(
    slots: &Slots<Group<W>>,
    seat: &mut Seat<Group<W>>,
    mut turn: Turn<Group<W>>,
    question: W::Question,
    moment: u64,
) -> Result<W::Reply, (NoMemory, W::Question)>
    requires seat { IsSeatOf slots.now seat.old }
    requires top { IsTop (view seat.old) turn.group turn.number turn.found.value }
    requires found { (turn.found.value ≡ turn.boxed.value)
        × (turn.boxed.value.cx.log.state.turns < turn.number) }
    requires asked { IsAskedAt W.fits W.sound W.only_asked W.is_first
        (tags_of slots.now) turn.group turn.boxed.value }
    ensures seat { IsSeatOf slots.now seat.new }
    ensures leaves { Leaves (view seat.old) (view seat.new) }
    ensures reply { IfOk result (GivesReply W.fits W.answers (tags_of slots.now) turn.group question) }
    ensures question { IfErr result (λ e. e.1 ≡ question) }
{
    let number = turn.number();
    let owner = seat.number();
    let reply = ask_turn(turn.value(), number, owner, question, moment);
    leave(slots, seat, turn);
    reply
}

/// Asks the group k in a turn of its own, if no other seat holds it.
pub fn ask_other<W: World + Drop>(
    slots: &Slots<Group<W>>,
    seat: &mut Seat<Group<W>>,
    k: u32,
    question: W::Question,
    moment: u64,
) -> Asked<W::Question, W::Reply>
    requires seat { IsSeatOf slots.now seat.old }
    requires asked { IsOnlyAsked W.only_asked (tags_of slots.now) k }
    ensures seat { IsSeatOf slots.now seat.new }
    ensures keeps { KeepsSeat (view seat.old) (view seat.new) 1 }
    ensures came { CameBy k (view seat.old) (view seat.new) result }
    ensures answer { IsAnswer (GivesReply W.fits W.answers (tags_of slots.now)) k question result }
{
    match slots.try_enter(seat, k) {
        Err(missed) => Asked::Missed {
            seen: missed.seen,
            question,
        },
        Ok(turn) => match ask_won(slots, seat, turn, question, moment) {
            Ok(reply) => Asked::Reply(reply),
            Err((NoMemory, question)) => Asked::NoMemory(question),
        },
    }
}
