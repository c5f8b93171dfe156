//! A world that is generic over its part, and tells how much is left to do.

ghost use Rattle.std.specs.Prelude.{⊤, ◌≡◌, ℕ, ◌+◌, ◌*◌, true, false, refl, Some, [], length, MatchBool};
ghost use Rattle.ts_group.specs.Entries.{Grows};
ghost use Rattle.ts_toys.specs.Toys.{StepperFits, StepperSound};

use ts_group::{Asked, Cx, Want, World};
use ts_journal::{Event, Slotted};

/// Something that is done in steps.
pub trait Part {
    /// How many steps are left.
    ghost steps: { Self → ℕ };

    /// Does one step, and answers whether there was one to do.
    fn step(&mut self) -> bool
        ensures { MatchBool result
            (steps self.new + 1 ≡ steps self.old)
            ((steps self.old ≡ 0) × (steps self.new ≡ steps self.old)) };
}

/// A part that counts down to zero.
#[derive(Drop)]
pub struct Countdown {
    pub left: u64,
}

impl Part for Countdown {
    ghost steps = { λ p. p.left };

    fn step(&mut self) -> bool {
        if self.left == 0 {
            return false;
        }
        self.left -= 1;
        true
    }
}

/// A world that does one step of its part at each event, and sets the next event while there was one to do.
/// Its tag tells how many steps it has in all.
#[derive(Drop)]
pub struct Stepper<P: Part> {
    pub part: P,
    /// How many steps were done.
    pub done: u32,
    /// Whether it was started, and each event that it wanted was set.
    pub whole: bool,
}

impl<P: Part> Slotted for Stepper<P> {
    type Tag = u32;

    type Trace = ();

    ghost fits = { StepperFits P.steps };

    ghost stamp = { λ w. 0 };

    ghost marks = { λ w. [] };

    ghost trace = { λ w. tt };

    ghost follows = { λ t u. ⊤ };

    ghost follows_itself = { λ t. tt };

    ghost follows_on = { λ t u v a b. tt };
}

#[tactic(auto, using(ts_group::proofs::Grows::grows))]
impl<P: Part> World for Stepper<P> {
    type Question = ();

    type Reply = ();

    ghost sound = { λ w s roles. StepperSound P.steps w s };

    ghost asking = { λ w s roles role group question. StepperSound P.steps w s };

    ghost right = { λ w group question reply. ⊤ };

    ghost answers = { λ w question reply. ⊤ };

    ghost may_ask = { λ w group. ⊥ };

    ghost only_asked = { λ t. false };

    ghost is_first = { λ t. true };

    ghost begun = { λ old new. ⊤ };

    ghost called = { λ old new asked. ⊤ };

    ghost heard = { λ old new asked. new ≡ old };

    ghost left = { λ w s. Some (2 * P.steps w.part + length s.pending) };

    fn start(&mut self, cx: &mut Cx) {
        if let Ok(key) = cx.make(1) {
            if let Ok(_action) = cx.schedule(key, 0) {
                self.whole = true;
            }
        }
    }

    fn handle(&mut self, _role: u32, _event: Event, cx: &mut Cx) -> Want<()> {
        let key = cx.key();
        if self.part.step() {
            self.done += 1;
            if let Err(_) = cx.schedule(key, 1) {
                self.whole = false;
            }
        }
        Want::Nothing
    }

    fn told(&mut self, _role: u32, _asked: Asked<(), ()>, _cx: &mut Cx)
        requires turn { _cx.old.log.state.held ≡ true }
        requires sound { StepperSound P.steps self.old _cx.old.log.state }
        ensures grows { Grows _cx.old _cx.new }
        ensures same { (_cx.new.log.state ≡ _cx.old.log.state) × (self.new ≡ self.old) }
    {}

    fn asked(&mut self, _question: (), _cx: &mut Cx) {}

    ghost sound_taken = { λ w s turn seat roles h.
        record { plain = h.plain; few = h.few; most = h.most; ends = h.ends } };

    ghost sound_given = { λ w s turn roles h.
        record { plain = h.plain; few = h.few; most = h.most; ends = h.ends } };

    ghost left_taken = { λ w s turn seat. refl };

    ghost left_given = { λ w s turn. refl };

    ghost rests = { λ t w s roles f h. tt };
}
