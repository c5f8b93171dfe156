//! A world that works by itself, asks another one of its own type, or is only asked.

ghost use Rattle.std.specs.Prelude.{⊤, ◌≡◌, ◌+◌, ◌≤◌, true, refl, None, [], IfOk};
ghost use Rattle.std.proofs.Common.{sym, subst};
ghost use Rattle.std.specs.Bool.{OnTrue};
ghost use Rattle.ts_journal.specs.State.{IsLive};
ghost use Rattle.ts_group.specs.Context.{IsFresh, own_key};
ghost use Rattle.ts_group.specs.Entries.{Grows};
ghost use Rattle.ts_group.specs.Answers.{IsAnswered, Hears};
ghost use Rattle.ts_toys.specs.Sets.{SetsEvents};
ghost use Rattle.ts_toys.specs.Peers.{PeerFits, PeerSound, PeerAsking, PeerMayAsk, PeerAnswers, PeerRight, PeerHeard, peer_left};

use std::alloc::Global;
use ts_group::{Asked, Cx, Group, Want, World};
use ts_journal::{ContKey, Event, Slotted};
use ts_link::NoMemory;

/// The place of the peer that is only asked.
pub const ASKED: u32 = 8;

/// How many steps a peer has to do at most.
pub const MOST_TODO: u32 = 1500;

/// A world that has so many steps to do, each at an event of its own. For a step it asks another peer, where
/// it is one that asks. A peer that is only asked adds one to a number.
#[derive(Drop)]
pub struct Peer {
    pub only_asked: bool,
    pub asks: bool,
    pub todo: u32,
    /// The reply that came last.
    pub last: u64,
    pub main: Option<ContKey>,
    /// Whether it was started, and each event that it wanted was set.
    pub whole: bool,
}

/// A group of a peer that has had no turn.
pub fn new_peer(
    alloc: Global,
    only_asked: bool,
    asks: bool,
    todo: u32,
) -> Result<Group<Peer>, NoMemory>
    requires { todo ≤ MOST_TODO }
    ensures world { IfOk result (λ g. g.world.only_asked ≡ only_asked) }
    ensures sound { IfOk result (λ g. PeerSound g.world g.cx.log.state g.cx.roles) }
    ensures fresh { IfOk result (λ g. IsFresh 0 g.cx) }
{
    Group::make(
        alloc,
        Peer {
            only_asked,
            asks,
            todo,
            last: 0,
            main: None,
            whole: false,
        },
        0,
    )
}

impl Slotted for Peer {
    type Tag = bool;

    type Trace = ();

    ghost fits = { PeerFits };

    ghost stamp = { λ w. 0 };

    ghost marks = { λ w. [] };

    ghost trace = { λ w. tt };

    ghost follows = { λ t u. ⊤ };

    ghost follows_itself = { λ t. tt };

    ghost follows_on = { λ t u v a b. tt };
}

// Sets the next event of a peer's continuation, so many milliseconds later, and answers whether it was set.
#[tactic(auto, using(ts_group::proofs::Grows::grows))]
fn set_next(main: Option<ContKey>, after: u64, cx: &mut Cx) -> bool
    requires turn { cx.old.log.state.held ≡ true }
    ensures grows { Grows cx.old cx.new }
    ensures sets { SetsEvents result 1 cx.old.log.state cx.new.log.state }
    ensures none { main ≡ None → cx.new.log.state.pending ≡ cx.old.log.state.pending }
{
    let Some(key) = main else {
        return false;
    };
    if let Err(_) = cx.schedule(key, after) {
        return false;
    }
    true
}

#[tactic(auto, using(ts_group::proofs::Grows::grows))]
impl World for Peer {
    type Question = u32;

    type Reply = u64;

    ghost sound = { PeerSound };

    ghost asking = { PeerAsking };

    ghost right = { PeerRight };

    ghost may_ask = { PeerMayAsk };

    ghost answers = { PeerAnswers };

    ghost left = { peer_left };

    ghost only_asked = { λ t. t };

    ghost is_first = { λ t. true };

    ghost begun = { λ old new. new.todo ≡ old.todo };

    ghost called = { λ old new asked. ⊤ };

    ghost heard = { PeerHeard };

    fn start(&mut self, cx: &mut Cx) {
        if self.only_asked {
            return;
        }
        if let Some(_) = self.main {
            return;
        }
        if let Ok(key) = cx.make(1) {
            self.main = Some(key);
            if let Ok(_action) = cx.schedule(key, 0) {
                self.whole = true;
            }
        }
    }

    fn handle(&mut self, _role: u32, _event: Event, cx: &mut Cx) -> Want<u32> {
        if self.todo == 0 || self.only_asked {
            return Want::Nothing;
        }
        if self.asks {
            return Want::Ask {
                group: ASKED,
                question: self.todo,
            };
        }
        self.todo -= 1;
        if !set_next(self.main, 1, cx) {
            self.whole = false;
        }
        Want::Nothing
    }

    fn told(&mut self, _role: u32, asked: Asked<u32, u64>, cx: &mut Cx)
        requires turn { cx.old.log.state.held ≡ true }
        requires asking { IsAnswered
            (PeerAsking self.old cx.old.log.state cx.old.roles _role) (PeerRight self.old) asked }
        ensures grows { Grows cx.old cx.new }
        ensures sound { PeerSound self.new cx.new.log.state cx.new.roles }
        ensures hears { Hears PeerHeard peer_left self.old self.new cx.old.log.state cx.new.log.state asked }
        ensures few { cx.new.log.state.next ≤ cx.old.log.state.next + 1 }
        ensures same { self.new.only_asked ≡ self.old.only_asked }
    {
        match asked {
            Asked::Reply(reply) => {
                self.last = reply;
                self.todo -= 1;
                if !set_next(self.main, 0, cx) {
                    self.whole = false;
                }
            }
            Asked::Missed { .. } => {
                if !set_next(self.main, 10, cx) {
                    self.whole = false;
                }
            }
            Asked::NoMemory(_) => self.whole = false,
        }
    }

    fn asked(&mut self, question: u32, _cx: &mut Cx) -> u64 {
        u64::from(question) + 1
    }

    ghost sound_taken = { λ w s turn seat roles h.
        record { plain = h.plain; one = h.one; none = h.none; own = h.own; few = h.few; ends = h.ends } };

    ghost sound_given = { λ w s turn roles h.
        record { plain = h.plain; one = h.one; none = h.none; own = h.own; few = h.few; ends = h.ends } };

    ghost left_taken = { λ w s turn seat. refl };

    ghost left_given = { λ w s turn. refl };

    ghost rests = { λ t w s roles f h. subst (λ b. OnTrue b (IsLive s.live own_key)) (sym f) h.own };
}
