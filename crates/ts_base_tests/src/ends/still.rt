//! A world in which nothing happens.
ghost use Rattle.std.specs.Prelude.{⊤, ◌≡◌, None, [], refl, false, true};
ghost use Rattle.ts_group.specs.Entries.{Grows};

use ts_group::{Asked, Cx, Want, World};
use ts_journal::{Event, Slotted};

/// A world whose continuations do nothing.
#[derive(Drop)]
pub struct StillWorld;

impl Slotted for StillWorld {
    type Tag = ();

    type Trace = ();

    ghost fits = { λ t w. ⊤ };

    ghost stamp = { λ w. 0 };

    ghost marks = { λ w. [] };

    ghost trace = { λ w. tt };

    ghost follows = { λ t u. ⊤ };

    ghost follows_itself = { λ t. tt };

    ghost follows_on = { λ t u v a b. tt };
}

#[tactic(auto, using(ts_group::proofs::Grows::grows))]
impl World for StillWorld {
    type Question = ();

    type Reply = ();

    ghost sound = { λ w s roles. ⊤ };

    ghost asking = { λ w s roles role group question. ⊤ };

    ghost right = { λ w group question reply. ⊤ };

    ghost answers = { λ w question reply. ⊤ };

    ghost may_ask = { λ w group. ⊥ };

    ghost left = { λ w s. None };

    ghost only_asked = { λ t. false };

    ghost is_first = { λ t. false };

    ghost begun = { λ old new. ⊤ };

    ghost called = { λ old new asked. ⊤ };

    ghost heard = { λ old new asked. new ≡ old };

    fn start(&mut self, _cx: &mut Cx) {}

    fn handle(&mut self, _role: u32, _event: Event, _cx: &mut Cx) -> Want<()> {
        Want::Nothing
    }

    fn told(&mut self, _role: u32, _asked: Asked<(), ()>, _cx: &mut Cx)
        requires turn { _cx.old.log.state.held ≡ true }
        ensures grows { Grows _cx.old _cx.new }
        ensures same { (_cx.new.log.state ≡ _cx.old.log.state) × (self.new ≡ self.old) }
    {}

    fn asked(&mut self, _question: (), _cx: &mut Cx) {}

    ghost sound_taken = { λ w s turn seat roles h. tt };

    ghost sound_given = { λ w s turn roles h. tt };

    ghost left_taken = { λ w s turn seat. refl };

    ghost left_given = { λ w s turn. refl };

    ghost rests = { λ t w s roles f h. tt };
}
