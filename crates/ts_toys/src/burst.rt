//! A world that asks for more direct calls than one turn handles.

ghost use Rattle.std.specs.Prelude.{⊤, ◌≡◌, ◌+◌, ◌*◌, ◌≤◌, Some, [], true, false, refl, length};
ghost use Rattle.ts_group.specs.Context.{AllPlain};
ghost use Rattle.ts_group.specs.Entries.{Grows};
ghost use Rattle.ts_toys.specs.Sets.{SetsEvents};
ghost use Rattle.ts_toys.specs.Toys.{BurstFits, BurstSound, burst_left};

use ts_group::{Asked, Cx, Want, World};
use ts_journal::{ContKey, Event, Slotted};

/// How many calls a handler asks for.
pub const CALLS: u32 = 65;

/// A world whose handlers call the target 65 times each, as long as bursts are left. Its tag tells how many
/// bursts it has in all.
#[derive(Drop)]
pub struct Burst {
    pub target: Option<ContKey>,
    /// How many handlers are still to call the target.
    pub bursts: u32,
    /// How many have called it.
    pub done: u32,
    /// How many handlers were called.
    pub handled: u64,
    /// Whether it was started, and each event that it wanted was set.
    pub whole: bool,
}

impl Slotted for Burst {
    type Tag = u32;

    type Trace = ();

    ghost fits = { BurstFits };

    ghost stamp = { λ w. 0 };

    ghost marks = { λ w. [] };

    ghost trace = { λ w. tt };

    ghost follows = { λ t u. ⊤ };

    ghost follows_itself = { λ t. tt };

    ghost follows_on = { λ t u v a b. tt };
}

// Asks for the direct calls, and answers whether each was set.
#[tactic(auto, using(ts_group::proofs::Grows::grows))]
fn call_target(target: ContKey, cx: &mut Cx) -> bool
    requires turn { cx.old.log.state.held ≡ true }
    ensures grows { Grows cx.old cx.new }
    ensures sets { SetsEvents result CALLS cx.old.log.state cx.new.log.state }
{
    let mut all = true;
    'calls: for _call in 0..CALLS {
        if let Err(_) = cx.call(target, Event::Immediate) {
            all = false;
        }
    }
    all
}

#[tactic(auto, using(ts_group::proofs::Grows::grows))]
impl World for Burst {
    type Question = ();

    type Reply = ();

    ghost sound = { λ w s roles. BurstSound w s };

    ghost asking = { λ w s roles role group question. BurstSound w s };

    ghost right = { λ w group question reply. ⊤ };

    ghost answers = { λ w question reply. ⊤ };

    ghost may_ask = { λ w group. ⊥ };

    ghost left = { burst_left };

    ghost only_asked = { λ t. false };

    ghost is_first = { λ t. true };

    ghost begun = { λ old new. ⊤ };

    ghost called = { λ old new asked. ⊤ };

    ghost heard = { λ old new asked. new ≡ old };

    fn start(&mut self, cx: &mut Cx) {
        if let Some(_) = self.target {
            return;
        }
        if let Ok(key) = cx.make(1) {
            self.target = Some(key);
            if let Ok(_action) = cx.schedule(key, 0) {
                self.whole = true;
            }
        }
    }

    fn handle(&mut self, _role: u32, _event: Event, cx: &mut Cx) -> Want<()> {
        self.handled += 1;
        let Some(target) = self.target else {
            unreachable!()
        };
        if self.bursts == 0 {
            return Want::Nothing;
        }
        self.bursts -= 1;
        self.done += 1;
        if !call_target(target, cx) {
            self.whole = false;
        }
        Want::Nothing
    }

    fn told(&mut self, _role: u32, _asked: Asked<(), ()>, _cx: &mut Cx)
        requires turn { _cx.old.log.state.held ≡ true }
        requires sound { BurstSound self.old _cx.old.log.state }
        ensures grows { Grows _cx.old _cx.new }
        ensures same { (_cx.new.log.state ≡ _cx.old.log.state) × (self.new ≡ self.old) }
    {}

    fn asked(&mut self, _question: (), _cx: &mut Cx) {}

    ghost sound_taken = { λ w s turn seat roles h.
        record { plain = h.plain; few = h.few; most = h.most; new = h.new; count = h.count; ends = h.ends } };

    ghost sound_given = { λ w s turn roles h.
        record { plain = h.plain; few = h.few; most = h.most; new = h.new; count = h.count; ends = h.ends } };

    ghost left_taken = { λ w s turn seat. refl };

    ghost left_given = { λ w s turn. refl };

    ghost rests = { λ t w s roles f h. tt };
}
