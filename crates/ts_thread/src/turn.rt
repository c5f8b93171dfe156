//! A turn of a group: how it begins and is given back, and that of a token's group, from when it is entered
//! until it is left.

ghost use Rattle.std.specs.Prelude.{⊤, ◌≡◌, ◌<◌, true, false, length, IfOk, OnOk, OnErr};
ghost use Rattle.ts_group.specs.Answers.{Holds};
ghost use Rattle.ts_slot.specs.Words.{tags_of, view, IsSeatOf, IsTop};
ghost use Rattle.ts_thread.specs.declared.TheConstants.{MOST_ENTERED};
ghost use Rattle.ts_thread.specs.Asks.{AnswersAsked};
ghost use Rattle.ts_thread.specs.Desks.{IsDeskOf, StaysDeskOf, LeavesDesk, KeepsTokens, ClosesDesk};
ghost use Rattle.ts_thread.specs.Held.{HasTurn, IsGivenBack, BeginsSame, GivesBack, StartsInTurn, IsWorked, CanWork, FitsHere, WillFit};
ghost use Rattle.ts_thread.specs.Shown.{IsShown};
ghost use Rattle.ts_thread.specs.Tags.{CanAsk};
ghost use Rattle.ts_thread.specs.Turning.{Works, EndsTurn, Serves, Uses, IsOfToken};

use crate::desk::{Desk, is_shared};
use crate::did::Did;
use crate::news::tell_news;
use crate::question::ask_other;
use crate::seat::leave;
use crate::shared::Shared;
use std::sync::Wait;
use ts_group::{Asked, Group, Handling, Rouse, World};
use ts_link::{Gate, NoMemory, RETRY_AFTER};
use ts_queue::Token;
use ts_slot::{Slots, Turn};

/// Begins a turn of a group.
#[tactic(auto, using(crate::proofs::Groups::begins_same, crate::proofs::Groups::given_same, crate::proofs::Groups::err_to))]
pub fn begin<W: World + Drop>(
    group: &mut Group<W>,
    turn: u64,
    seat: u64,
    moment: u64,
) -> Result<(), NoMemory>
    requires free { group.old.cx.log.state.held ≡ false }
    requires later { group.old.cx.log.state.turns < turn }
    requires sound { Holds W.sound group.old }
    ensures begun { OnOk result (HasTurn W.fits group.old group.new turn seat) }
    ensures same { BeginsSame group.old group.new }
    ensures sound { Holds W.sound group.new }
    ensures err { OnErr result (IsGivenBack W.fits group.old group.new turn seat
        × (group.new.cx.log.state ≡ group.old.cx.log.state)) }
{
    group.known();
    group.begin_turn(turn, seat, moment)
}

/// Lets the world of a group set its first events.
pub fn start<W: World + Drop>(group: &mut Group<W>)
    requires turn { group.old.cx.log.state.held ≡ true }
    requires sound { Holds W.sound group.old }
    ensures starts { StartsInTurn W.fits W.sound W.begun group.old group.new }
{
    group.known();
    group.start();
}

/// Lets the world of a group bring its events forward.
pub fn rouse<W: Rouse + Drop>(group: &mut Group<W>)
    requires turn { group.old.cx.log.state.held ≡ true }
    requires sound { Holds W.sound group.old }
    ensures rouses { StartsInTurn W.fits W.sound (λ old new. ⊤) group.old group.new }
{
    group.known();
    group.rouse();
}

/// Gives the turn of a group back.
pub fn give<W: World + Drop>(group: &mut Group<W>)
    requires turn { group.old.cx.log.state.held ≡ true }
    requires sound { Holds W.sound group.old }
    ensures gives { GivesBack group.old group.new }
    ensures sound { Holds W.sound group.new }
{
    group.known();
    group.give_turn();
}

// What a turn answers in which so many events were handled and the group k was asked.
fn did_of<Q, R>(events: u32, k: u32, asked: &Asked<Q, R>) -> Result<Did, NoMemory>
    ensures { AnswersAsked events k asked.now result }
{
    match asked {
        Asked::Reply(_) => Ok(Did::Ran { events }),
        Asked::Missed { seen, .. } => Ok(Did::AskMissed {
            group: k,
            seen: *seen,
        }),
        Asked::NoMemory(_) => Err(NoMemory),
    }
}

// Handles a token's event in a group of which a turn was taken, asks the group that the last handler wants to
// ask, and tells the handler what came of it.
fn handle_token<W: World + Drop>(
    slots: &Slots<Group<W>>,
    desk: &mut Desk<Group<W>>,
    group: &mut Group<W>,
    token: Token,
    moment: u64,
) -> Result<Did, NoMemory>
    requires seat { IsSeatOf slots.now desk.old.seat }
    requires group { CanWork W.fits W.sound (tags_of slots.now) token.group group.old }
    requires asks { CanAsk W.fits W.only_asked W.may_ask W.right W.answers (tags_of slots.now) }
    ensures desk { StaysDeskOf slots.now desk.old desk.new }
    ensures keeps { KeepsTokens desk.old desk.new 1 }
    ensures worked { IsWorked W.sound W.fits W.asking W.answers W.called W.heard W.left
        (tags_of slots.now) token.number moment group.old group.new
        (view desk.old.seat) (view desk.new.seat) result }
    ensures works { IfOk result (Works token desk.old desk.new) }
    ensures shown { IfOk result
        (IsShown group.old.cx.log.state group.new.cx.log.state token.number moment) }
{
    group.known();
    match group.handle(token.number, moment)? {
        Handling::Handled { events } => Ok(Did::Ran { events }),
        Handling::Asks {
            events,
            group: other,
            question,
        } => {
            group.known();
            let asked = ask_other(slots, &mut desk.seat, other, question, moment);
            let did = did_of(events, other, &asked);
            group.answered(asked);
            did
        }
        Handling::NotPending => Ok(Did::Stale),
        Handling::NotDue { due } => {
            desk.wheel.add(due, token)?;
            Ok(Did::NotDue { due })
        }
    }
}

/// Tells the news of the group that the seat won last, in a turn that hands over or not, gives the turn back
/// and leaves the group, at want of memory too.
pub fn end_turn<W: World + Drop, G, R: Wait>(
    shared: &Shared<'_, Group<W>, G, R>,
    desk: &mut Desk<Group<W>>,
    hands_over: bool,
    mut turn: Turn<Group<W>>,
    moment: u64,
) -> Result<(), NoMemory>
    requires desk { IsDeskOf shared.now.slots.now shared.now.queue.now desk.old }
    requires top { IsTop (view desk.old.seat) turn.group turn.number turn.found.value }
    requires has { HasTurn W.fits turn.found.value turn.boxed.value turn.number desk.old.seat.number }
    requires fits { WillFit W.fits W.sound W.only_asked W.is_first
        (tags_of shared.now.slots.now) turn.group turn.boxed.value }
    ensures desk { IsDeskOf shared.now.slots.now shared.now.queue.now desk.new }
    ensures leaves { LeavesDesk desk.old desk.new }
    ensures ends { OnOk result
        (EndsTurn hands_over turn.group turn.number moment turn.boxed.value desk.old desk.new) }
{
    let k = turn.group();
    let told = tell_news(shared, desk, hands_over, k, turn.value(), moment);
    give(turn.value());
    leave(shared.slots, &mut desk.seat, turn);
    told
}

// The turn of a token's group that the seat won last, until it is left, at want of memory too.
fn handle_entered<W: World + Drop, G: Gate, R: Wait>(
    shared: &Shared<'_, Group<W>, G, R>,
    thread: u32,
    desk: &mut Desk<Group<W>>,
    token: Token,
    mut turn: Turn<Group<W>>,
    moment: u64,
) -> Result<Did, NoMemory>
    requires desk { IsDeskOf shared.now.slots.now shared.now.queue.now desk.old }
    requires top { IsTop (view desk.old.seat) turn.group turn.number turn.found.value }
    requires found { IsOfToken token turn.group turn.number turn.found.value turn.boxed.value }
    requires fits { FitsHere W.fits W.sound W.only_asked W.is_first
        (tags_of shared.now.slots.now) turn.group turn.boxed.value }
    requires asks { CanAsk W.fits W.only_asked W.may_ask W.right W.answers (tags_of shared.now.slots.now) }
    ensures desk { IsDeskOf shared.now.slots.now shared.now.queue.now desk.new }
    ensures closes { ClosesDesk desk.old desk.new 1 }
    ensures serves { IfOk result (Serves W.fits W.asking W.answers W.called W.heard W.left
        (tags_of shared.now.slots.now) token moment turn.number turn.found.value desk.old desk.new) }
{
    let owner = desk.seat.number();
    let number = turn.number();
    if let Err(_) = begin(turn.value(), number, owner, moment) {
        leave(shared.slots, &mut desk.seat, turn);
        return Err(NoMemory);
    }
    shared.gate.enter(thread, token.group, token.number);
    let did = handle_token(shared.slots, desk, turn.value(), token, moment);
    let hands_over = is_shared(number);
    let told = end_turn(shared, desk, hands_over, turn, moment);
    let did = did?;
    told?;
    Ok(did)
}

/// Enters the group of a token, if no other seat holds it, handles the token's event in a turn of it, and
/// leaves it.
pub fn enter_token<W: World + Drop, G: Gate, R: Wait>(
    shared: &Shared<'_, Group<W>, G, R>,
    thread: u32,
    desk: &mut Desk<Group<W>>,
    token: Token,
    moment: u64,
) -> Result<Did, NoMemory>
    requires desk { IsDeskOf shared.now.slots.now shared.now.queue.now desk.old }
    requires group { token.group < length (tags_of shared.now.slots.now) }
    requires asks { CanAsk W.fits W.only_asked W.may_ask W.right W.answers (tags_of shared.now.slots.now) }
    ensures desk { IsDeskOf shared.now.slots.now shared.now.queue.now desk.new }
    ensures keeps { KeepsTokens desk.old desk.new MOST_ENTERED }
    ensures uses { IfOk result (Uses W.fits W.asking W.answers W.called W.heard W.left
        (tags_of shared.now.slots.now) token moment desk.old desk.new) }
{
    match shared.slots.try_enter(&mut desk.seat, token.group) {
        Err(missed) => {
            desk.wheel.add(moment.saturating_add(RETRY_AFTER), token)?;
            Ok(Did::PutBack {
                group: token.group,
                seen: missed.seen,
            })
        }
        Ok(turn) => handle_entered(shared, thread, desk, token, turn, moment),
    }
}
