//! A driver that handles all that is pending in a group, and one that asks a group for another.

ghost use Rattle.std.specs.Prelude.{◌≡◌, true, false, IsSome, IfOk, OnOk, OnErr};
ghost use Rattle.ts_group.specs.Entries.{CanBeAsked};
ghost use Rattle.ts_group.specs.Calls.{TakesQuestion};
ghost use Rattle.ts_group.specs.Answers.{Holds, IsSameGroup, KeepsTags};
ghost use Rattle.ts_toys.specs.Driven.{IsDone, MatchDriven, AwaitsInTurn, LeftAsking, GoesOnTold, HearsReply, HearsNone};

use ts_group::{Asked, Group, Handling, TurnFault, World};
use ts_link::NoMemory;

/// How a group stands after it was driven.
#[derive(Clone, Copy, Debug, PartialEq, Eq)]
pub enum Driven {
    /// Nothing is pending.
    Done,
    /// A handler asks a question. The question was let go with the turn, so no reply will come.
    Asks,
    /// The turns are used up, and something is still pending.
    Worn,
}

/// Handles pending events, each in a turn of its own and the one that is due first before the others, until
/// nothing is pending, a handler asks or the turns are used up. It ends, since the world tells how much is
/// left and each event lowers it. It holds no turn when it returns, at want of memory either.
pub fn drive<W: World + Drop>(group: &mut Group<W>) -> Result<Driven, NoMemory>
where
    W::Question: Drop,
    requires idle { group.old.cx.log.state.held ≡ false }
    requires sound { Holds W.sound group.old }
    requires tells { IsSome (W.left group.old.world group.old.cx.log.state) }
    ensures done { IfOk result (λ d. IsDone d group.old.cx.log.state group.new.cx.log.state) }
    ensures keeps { IfOk result (λ d.
        MatchDriven d (Holds W.sound group.new) (LeftAsking W.asking W.may_ask group.new)) }
    ensures err { OnErr result ((group.new.cx.log.state.held ≡ false) × Holds W.sound group.new) }
    ensures tags { KeepsTags W.fits group.old.world group.new.world }
    ensures tells { IsSome (W.left group.new.world group.new.cx.log.state) }
{
    'driving: while let Some((due, number)) = group.next_due() {
        match group.begin_alone(u64::MAX, due) {
            Ok(()) => {}
            Err(TurnFault::Worn) => return Ok(Driven::Worn),
            Err(TurnFault::NoMemory) => return Err(NoMemory),
        }
        match group.handle(number, due) {
            Ok(Handling::Handled { .. }) => group.give_turn(),
            Ok(Handling::Asks { .. }) => {
                group.give_turn();
                return Ok(Driven::Asks);
            }
            Ok(_) => unreachable!(),
            Err(_) => {
                group.give_turn();
                return Err(NoMemory);
            }
        }
    }
    Ok(Driven::Done)
}

/// Asks one group the question of a handler of another, and tells the handler the reply. The asker knows the
/// other group by the number `group`. At want of memory the other group stays as it was, and the handler is
/// told so.
pub fn ask_for<W, V>(
    asker: &mut Group<W>,
    other: &mut Group<V>,
    group: u32,
    question: W::Question,
    moment: u64,
) -> Result<(), NoMemory>
where
    W: World + Drop,
    V: World<Question = W::Question, Reply = W::Reply> + Drop,
    W::Question: Drop,
    W::Reply: Drop,
    requires asking { AwaitsInTurn W.asking asker.old group question }
    requires can { CanBeAsked other.old.cx.log.state }
    requires other_sound { Holds V.sound other.old }
    requires right { (q : W.Question) (r : W.Reply) →
        V.answers other.old.world q r → W.right asker.old.world group q r }
    ensures told { GoesOnTold W.fits W.sound W.left asker.old asker.new }
    ensures other_sound { Holds V.sound other.new }
    ensures asked { OnOk result (TakesQuestion other.old.cx other.new.cx moment
        × HearsReply W.heard V.answers asker.old.world asker.new.world other.old.world) }
    ensures err { OnErr result (IsSameGroup other.old other.new
        × HearsNone W.heard asker.old.world asker.new.world) }
{
    match other.ask(question, moment) {
        Ok(reply) => {
            asker.answered(Asked::Reply(reply));
            Ok(())
        }
        Err((NoMemory, question)) => {
            asker.answered(Asked::NoMemory(question));
            Err(NoMemory)
        }
    }
}
