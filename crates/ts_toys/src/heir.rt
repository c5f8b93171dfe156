//! A world whose continuation gives its place to another.

ghost use Rattle.std.specs.Prelude.{⊤, ◌≡◌, [], true, false, refl};
ghost use Rattle.ts_group.specs.Entries.{Grows};
ghost use Rattle.ts_toys.specs.Toys.{HeirFits, HeirSound, heir_left};

use ts_group::{Asked, Cx, Want, World};
use ts_journal::{ContKey, Event, Slotted};

/// A world whose handler destroys its own continuation, and makes another as long as heirs are left: with an
/// event of its own where it has plain events alone. Its tag tells how many heirs there are in all.
#[derive(Drop)]
pub struct Heir {
    /// Whether it has plain events alone. Only then does it tell what is left.
    pub plain: bool,
    /// The continuation that was made last.
    pub key: Option<ContKey>,
    /// How many continuations are still to come after it.
    pub heirs: u32,
    /// How many came after the first.
    pub done: u32,
    /// Whether it was started, and each continuation and event that it wanted was made and set.
    pub whole: bool,
}

impl Slotted for Heir {
    type Tag = u32;

    type Trace = ();

    ghost fits = { HeirFits };

    ghost stamp = { λ w. 0 };

    ghost marks = { λ w. [] };

    ghost trace = { λ w. tt };

    ghost follows = { λ t u. ⊤ };

    ghost follows_itself = { λ t. tt };

    ghost follows_on = { λ t u v a b. tt };
}

#[tactic(auto, using(ts_group::proofs::Grows::grows))]
impl World for Heir {
    type Question = ();

    type Reply = ();

    ghost sound = { λ w s roles. HeirSound w s };

    ghost asking = { λ w s roles role group question. HeirSound w s };

    ghost right = { λ w group question reply. ⊤ };

    ghost answers = { λ w question reply. ⊤ };

    ghost may_ask = { λ w group. ⊥ };

    ghost left = { heir_left };

    ghost only_asked = { λ t. false };

    ghost is_first = { λ t. true };

    ghost begun = { λ old new. ⊤ };

    ghost called = { λ old new asked. ⊤ };

    ghost heard = { λ old new asked. new ≡ old };

    fn start(&mut self, cx: &mut Cx) {
        if let Ok(key) = cx.make(0) {
            self.key = Some(key);
            if let Ok(_action) = cx.schedule(key, 0) {
                self.whole = true;
            }
        }
    }

    fn handle(&mut self, role: u32, _event: Event, cx: &mut Cx) -> Want<()> {
        let own = cx.key();
        let _gone = cx.destroy(own);
        self.key = None;
        if self.heirs == 0 {
            return Want::Nothing;
        }
        let Ok(key) = cx.make(role) else {
            self.whole = false;
            return Want::Nothing;
        };
        self.key = Some(key);
        self.heirs -= 1;
        self.done += 1;
        if self.plain {
            if let Err(_) = cx.schedule(key, 1) {
                self.whole = false;
            }
        } else if self.heirs > 0 {
            self.whole = false;
        }
        Want::Nothing
    }

    fn told(&mut self, _role: u32, _asked: Asked<(), ()>, _cx: &mut Cx)
        requires turn { _cx.old.log.state.held ≡ true }
        requires sound { HeirSound self.old _cx.old.log.state }
        ensures grows { Grows _cx.old _cx.new }
        ensures same { (_cx.new.log.state ≡ _cx.old.log.state) × (self.new ≡ self.old) }
    {}

    fn asked(&mut self, _question: (), _cx: &mut Cx) {}

    ghost sound_taken = { λ w s turn seat roles h.
        record { live = h.live; plain = h.plain; few = h.few; most = h.most; ends = h.ends } };

    ghost sound_given = { λ w s turn roles h.
        record { live = h.live; plain = h.plain; few = h.few; most = h.most; ends = h.ends } };

    ghost left_taken = { λ w s turn seat. refl };

    ghost left_given = { λ w s turn. refl };

    ghost rests = { λ t w s roles f h. tt };
}
