//! Groups that are driven to their end on one thread.

ghost use Rattle.std.specs.Prelude.{◌≡◌, ℕ, ◌+◌, ◌<◌, ◌≤◌, List, ◌++◌, ◌∷◌, All, sum_by, true, Some, OnOk, length};
ghost use Rattle.std.specs.List.{slice_get};
ghost use Rattle.std.specs.Result.{IsErrOf};
ghost use Rattle.ts_group.specs.declared.group.Group.{Group as GroupOf};
ghost use Rattle.ts_group.specs.Answers.{Finite, Holds, IsAnswer, LeavesLess};
ghost use Rattle.ts_thread.specs.Tags.{GroupFits, GroupsFit, FitAround, CanAsk};
ghost use Rattle.ts_thread.specs.Goings.{HasTakenTurns, WorksOn, AllGoOn, HasTurns, ComesNext, came_of, IsWorn, WornAmong, left_in_all, row, Drives, DrivesAt, Finishes};

use crate::MOST_TURNS;
use crate::did::Unfinished;
use ts_group::{Asked, Group, Handling, TurnFault, World};
use ts_link::NoMemory;

// Asks a group in a turn of its own.
fn ask_one<W: World + Drop>(
    group: &mut Group<W>,
    question: W::Question,
    moment: u64,
    limit: u64,
) -> Asked<W::Question, W::Reply>
    requires fits { (t : W.Tag) × GroupFits W.fits W.sound W.only_asked W.is_first t group.old
        × (W.only_asked t ≡ true) }
    requires limit { limit ≤ MOST_TURNS }
    ensures goes { HasTakenTurns W.fits W.sound W.only_asked W.is_first W.left limit (came_of result)
        group.old group.new 1 }
    ensures answer { IsAnswer (λ _ q r. W.answers group.old.world q r) 0 question result }
    ensures worn { IsErrOf (came_of result) Unfinished.Worn →
        IsWorn W.fits W.sound W.only_asked W.is_first limit group.new }
{
    match group.begin_alone(limit, moment) {
        Ok(()) => {}
        // As by a worn slot, whose word is the greatest.
        Err(TurnFault::Worn) => {
            return Asked::Missed {
                seen: u64::MAX,
                question,
            };
        }
        Err(TurnFault::NoMemory) => return Asked::NoMemory(question),
    }
    group.known();
    match group.ask(question, moment) {
        Ok(reply) => {
            group.give_turn();
            Asked::Reply(reply)
        }
        Err((NoMemory, question)) => {
            group.give_turn();
            Asked::NoMemory(question)
        }
    }
}

// Asks the first of these groups.
fn ask_first<W: World + Drop>(
    groups: &mut [Group<W>],
    question: W::Question,
    moment: u64,
    limit: u64,
) -> Asked<W::Question, W::Reply>
    requires there { (t : W.Tag) × (g : GroupOf W W.Question W.Reply W.Tag W.Trace)
        × (slice_get groups.old 0 ≡ Some g)
        × GroupFits W.fits W.sound W.only_asked W.is_first t g × (W.only_asked t ≡ true) }
    requires limit { limit ≤ MOST_TURNS }
    ensures goes { AllGoOn W.fits W.sound W.only_asked W.is_first W.left limit (came_of result)
        groups.old groups.new 1 }
    ensures answer { (g : GroupOf W W.Question W.Reply W.Tag W.Trace) → slice_get groups.old 0 ≡ Some g →
        IsAnswer (λ _ q r. W.answers g.world q r) 0 question result }
    ensures worn { WornAmong W.fits W.sound W.only_asked W.is_first limit (came_of result) groups.new }
{
    let Some((first, _others)) = groups.split_first_mut() else {
        unreachable!()
    };
    ask_one(first, question, moment, limit)
}

// Asks one of these groups.
fn ask_at<W: World + Drop>(
    groups: &mut [Group<W>],
    place: usize,
    question: W::Question,
    moment: u64,
    limit: u64,
) -> Asked<W::Question, W::Reply>
    requires there { (t : W.Tag) × (g : GroupOf W W.Question W.Reply W.Tag W.Trace)
        × (slice_get groups.old place ≡ Some g)
        × GroupFits W.fits W.sound W.only_asked W.is_first t g × (W.only_asked t ≡ true) }
    requires limit { limit ≤ MOST_TURNS }
    ensures goes { AllGoOn W.fits W.sound W.only_asked W.is_first W.left limit (came_of result)
        groups.old groups.new 1 }
    ensures answer { (g : GroupOf W W.Question W.Reply W.Tag W.Trace) → slice_get groups.old place ≡ Some g →
        IsAnswer (λ _ q r. W.answers g.world q r) 0 question result }
    ensures worn { WornAmong W.fits W.sound W.only_asked W.is_first limit (came_of result) groups.new }
{
    let (_, rest) = groups.split_at_mut(place);
    ask_first(rest, question, moment, limit)
}

// Asks a group that stands before another one, or after it. The groups have the numbers of their places.
fn ask_among<W: World + Drop>(
    before: &mut [Group<W>],
    after: &mut [Group<W>],
    number: u32,
    question: W::Question,
    moment: u64,
    limit: u64,
) -> Asked<W::Question, W::Reply>
    requires there { (t : W.Tag) × (g : GroupOf W W.Question W.Reply W.Tag W.Trace)
        × (here : GroupOf W W.Question W.Reply W.Tag W.Trace)
        × (number ≡ length before.old → ⊥) × (slice_get (row before.old here after.old) number ≡ Some g)
        × GroupFits W.fits W.sound W.only_asked W.is_first t g × (W.only_asked t ≡ true) }
    requires limit { limit ≤ MOST_TURNS }
    ensures before { AllGoOn W.fits W.sound W.only_asked W.is_first W.left limit (came_of result)
        before.old before.new 1 }
    ensures after { AllGoOn W.fits W.sound W.only_asked W.is_first W.left limit (came_of result)
        after.old after.new 1 }
    ensures answer { (g : GroupOf W W.Question W.Reply W.Tag W.Trace)
        → (here : GroupOf W W.Question W.Reply W.Tag W.Trace)
        → slice_get (row before.old here after.old) number ≡ Some g
        → IsAnswer (λ _ q r. W.answers g.world q r) 0 question result }
    ensures worn { WornAmong W.fits W.sound W.only_asked W.is_first limit (came_of result)
        (before.new ++ after.new) }
{
    let place = number as usize;
    if place < before.len() {
        ask_at(before, place, question, moment, limit)
    } else {
        ask_at(after, place - before.len() - 1, question, moment, limit)
    }
}

// What a drive answers where this came of a question.
fn came_of<Q, R>(asked: &Asked<Q, R>) -> Result<(), Unfinished>
    ensures { result ≡ came_of asked.now }
{
    match asked {
        Asked::Reply(_) => Ok(()),
        Asked::Missed { .. } => Err(Unfinished::Worn),
        Asked::NoMemory(_) => Err(Unfinished::NoMemory),
    }
}

// Handles an event of a group in the turn that it has, and asks the group that its handler wants to ask.
fn handle_and_ask<W: World + Drop>(
    before: &mut [Group<W>],
    group: &mut Group<W>,
    after: &mut [Group<W>],
    number: u64,
    moment: u64,
    limit: u64,
) -> Result<(), Unfinished>
    requires turn { (group.old.cx.log.state.held ≡ true) × Holds W.sound group.old
        × ComesNext group.old number moment }
    requires fits { (tags : List W.Tag) × CanAsk W.fits W.only_asked W.may_ask W.right W.answers tags
        × FitAround W.fits W.sound W.only_asked W.is_first tags before.old group.old.world after.old }
    requires limit { limit ≤ MOST_TURNS }
    ensures works { WorksOn W.fits W.sound W.left result group.old group.new }
    ensures before { AllGoOn W.fits W.sound W.only_asked W.is_first W.left limit result
        before.old before.new 1 }
    ensures after { AllGoOn W.fits W.sound W.only_asked W.is_first W.left limit result
        after.old after.new 1 }
    ensures falls { OnOk result (LeavesLess W.left group.old 1 group.new) }
    ensures worn { WornAmong W.fits W.sound W.only_asked W.is_first limit result (before.new ++ after.new) }
{
    group.known();
    match group.handle(number, moment) {
        Ok(Handling::Handled { events: _ }) => Ok(()),
        Ok(
            Handling::Asks {
                events: _,
                group: other,
                question,
            },
        ) => {
            let asked = ask_among(before, after, other, question, moment, limit);
            let answer = came_of(&asked);
            group.known();
            group.answered(asked);
            answer
        }
        Ok(Handling::NotPending) => unreachable!(),
        Ok(Handling::NotDue { due: _ }) => unreachable!(),
        Err(_) => Err(Unfinished::NoMemory),
    }
}

/// Handles an event of a group in a turn of its own.
pub fn turn_alone<W: World + Drop>(
    before: &mut [Group<W>],
    group: &mut Group<W>,
    after: &mut [Group<W>],
    number: u64,
    moment: u64,
    limit: u64,
) -> Result<(), Unfinished>
    requires fits { (tags : List W.Tag) × CanAsk W.fits W.only_asked W.may_ask W.right W.answers tags
        × GroupsFit W.fits W.sound W.only_asked W.is_first tags (row before.old group.old after.old) }
    requires due { ComesNext group.old number moment × (limit ≤ MOST_TURNS) }
    ensures took { OnOk result (group.new.cx.log.state.turns ≡ group.old.cx.log.state.turns + 1) }
    ensures own { HasTakenTurns W.fits W.sound W.only_asked W.is_first W.left limit result
        group.old group.new 1 }
    ensures before { AllGoOn W.fits W.sound W.only_asked W.is_first W.left limit result
        before.old before.new 1 }
    ensures after { AllGoOn W.fits W.sound W.only_asked W.is_first W.left limit result
        after.old after.new 1 }
    ensures falls { OnOk result (LeavesLess W.left group.old 1 group.new) }
    ensures worn { WornAmong W.fits W.sound W.only_asked W.is_first limit result
        (row before.new group.new after.new) }
{
    match group.begin_alone(limit, moment) {
        Ok(()) => {}
        Err(TurnFault::Worn) => return Err(Unfinished::Worn),
        Err(TurnFault::NoMemory) => return Err(Unfinished::NoMemory),
    }
    let answer = handle_and_ask(before, group, after, number, moment, limit);
    group.give_turn();
    answer
}

// Handles the events of a group, the one that is due first before the others, until none is pending.
fn drive<W: World + Drop>(
    before: &mut [Group<W>],
    group: &mut Group<W>,
    after: &mut [Group<W>],
    limit: u64,
) -> Result<(), Unfinished>
    requires fits { (tags : List W.Tag) × CanAsk W.fits W.only_asked W.may_ask W.right W.answers tags
        × GroupsFit W.fits W.sound W.only_asked W.is_first tags (row before.old group.old after.old) }
    requires tells { Finite W.left group.old }
    requires limit { limit ≤ MOST_TURNS }
    ensures { Drives W.fits W.sound W.only_asked W.is_first W.left limit
        before.old before.new group.old group.new after.old after.new result }
{
    'events: while let Some((due, number)) = group.next_due() {
        turn_alone(before, group, after, number, due, limit)?;
    }
    Ok(())
}

// Drives the first of the groups that come after others.
fn drive_first<W: World + Drop>(
    before: &mut [Group<W>],
    rest: &mut [Group<W>],
    limit: u64,
) -> Result<(), Unfinished>
    requires rest { 0 < length rest.old }
    requires fits { (tags : List W.Tag) × CanAsk W.fits W.only_asked W.may_ask W.right W.answers tags
        × GroupsFit W.fits W.sound W.only_asked W.is_first tags (before.old ++ rest.old) }
    requires tells { All (Finite W.left) (before.old ++ rest.old) }
    requires limit { limit ≤ MOST_TURNS }
    ensures { DrivesAt W.fits W.sound W.only_asked W.is_first W.left limit
        (length before.old) (before.old ++ rest.old) (before.new ++ rest.new) result }
{
    let Some((group, after)) = rest.split_first_mut() else {
        unreachable!()
    };
    drive(before, group, after, limit)
}

// Drives one of these groups.
fn drive_at<W: World + Drop>(
    groups: &mut [Group<W>],
    place: usize,
    limit: u64,
) -> Result<(), Unfinished>
    requires place { place < length groups.old }
    requires fits { (tags : List W.Tag) × CanAsk W.fits W.only_asked W.may_ask W.right W.answers tags
        × GroupsFit W.fits W.sound W.only_asked W.is_first tags groups.old }
    requires tells { All (Finite W.left) groups.old }
    requires limit { limit ≤ MOST_TURNS }
    ensures { DrivesAt W.fits W.sound W.only_asked W.is_first W.left limit place
        groups.old groups.new result }
{
    let (before, rest) = groups.split_at_mut(place);
    drive_first(before, rest, limit)
}

// Drives each of these groups, one after the other.
fn finish_all<W: World + Drop>(groups: &mut [Group<W>], limit: u64) -> Result<(), Unfinished>
    requires fits { (tags : List W.Tag) × CanAsk W.fits W.only_asked W.may_ask W.right W.answers tags
        × GroupsFit W.fits W.sound W.only_asked W.is_first tags groups.old }
    requires tells { All (Finite W.left) groups.old }
    requires limit { limit ≤ MOST_TURNS }
    ensures { Finishes W.fits W.sound W.only_asked W.is_first W.left limit
        groups.old groups.new result }
{
    'groups: for place in 0..groups.len() {
        drive_at(groups, place, limit)?;
    }
    Ok(())
}

/// Handles the events of groups until none is pending, each in a turn of its own, and of each group the one
/// that is due first before the others. A group that a handler wants to ask is asked in a turn of its own. A
/// group that has had so many turns gets no more: where its event comes next, the answer is `Worn`, and where
/// it is asked, the handler is told a miss, and the answer is `Worn` then. No turn is held when it returns,
/// whatever it answers.
pub fn finish_within<W: World + Drop>(
    groups: &mut Vec<Group<W>>,
    limit: u64,
) -> Result<(), Unfinished>
    requires fits { (tags : List W.Tag) × CanAsk W.fits W.only_asked W.may_ask W.right W.answers tags
        × GroupsFit W.fits W.sound W.only_asked W.is_first tags groups.old.items }
    requires tells { All (Finite W.left) groups.old.items }
    requires limit { limit ≤ MOST_TURNS }
    ensures finishes { Finishes W.fits W.sound W.only_asked W.is_first W.left limit
        groups.old.items groups.new.items result }
    ensures spares { All (HasTurns limit (sum_by (left_in_all W.left) groups.old.items)) groups.old.items
        → IsErrOf result Unfinished.Worn → ⊥ }
{
    finish_all(groups.as_mut_slice(), limit)
}

/// The same with no limit but that of the numbers of turns, which end.
pub fn finish<W: World + Drop>(groups: &mut Vec<Group<W>>) -> Result<(), Unfinished>
    requires fits { (tags : List W.Tag) × CanAsk W.fits W.only_asked W.may_ask W.right W.answers tags
        × GroupsFit W.fits W.sound W.only_asked W.is_first tags groups.old.items }
    requires tells { All (Finite W.left) groups.old.items }
    ensures finishes { Finishes W.fits W.sound W.only_asked W.is_first W.left MOST_TURNS
        groups.old.items groups.new.items result }
    ensures spares { All (HasTurns MOST_TURNS (sum_by (left_in_all W.left) groups.old.items)) groups.old.items
        → IsErrOf result Unfinished.Worn → ⊥ }
{
    finish_within(groups, MOST_TURNS)
}
