//! The plugin of a line, as a world that is only asked.

ghost use Rattle.std.specs.Prelude.{⊤, ◌≡◌, true, false, [], Some, length, refl, IfOk};
ghost use Rattle.ts_group.specs.Entries.{Grows};
ghost use Rattle.ts_plugin.specs.Replies.{IsReplyOf};
ghost use Rattle.ts_plugin.specs.World.{OnlyAnswers, IsPluginOf, own_lives};

use crate::copying::copy_line;
use crate::question::{HookQuestion, HookReply};
use crate::replying::reply_of;
use std::alloc::Global;
use std::snapshot::Snapshot;
use ts_config::PluginLine;
use ts_group::{Asked, Cx, Rouse, Want, World};
use ts_journal::{Event, Slotted};
use ts_link::NoMemory;

/// The plugin of a line. It is asked, sets no event, makes no continuation and asks nobody.
#[derive(Drop)]
pub struct Plugin {
    alloc: Global,
    pub(crate) line: PluginLine,
}

/// What a slot promises of the plugin in it, which is its first tenant. The line is for contracts alone, and
/// takes no memory.
#[derive(Drop)]
pub struct PluginTag {
    /// The line that it was made of.
    pub line: Snapshot<PluginLine>,
}

impl Plugin {
    /// The plugin of a line, which is copied.
    pub fn make(alloc: Global, line: &PluginLine) -> Result<Plugin, NoMemory>
        ensures { IfOk result (λ p. p.line ≡ line.now) }
    {
        let line = copy_line(alloc, line)?;
        Ok(Plugin { alloc, line })
    }
}

impl Slotted for Plugin {
    type Tag = PluginTag;

    type Trace = ();

    ghost fits = { IsPluginOf };

    ghost stamp = { λ p. 0 };

    ghost marks = { λ p. [] };

    ghost trace = { λ p. tt };

    ghost follows = { λ t u. ⊤ };

    ghost follows_itself = { λ t. tt };

    ghost follows_on = { λ t u v a b. tt };
}

#[tactic(auto, using(ts_group::proofs::Grows::grows_refl))]
impl World for Plugin {
    type Question = HookQuestion;

    type Reply = HookReply;

    ghost sound = { λ p s roles. OnlyAnswers s };

    ghost asking = { λ p s roles role group question. OnlyAnswers s };

    ghost right = { λ p group question reply. ⊤ };

    ghost may_ask = { λ p group. ⊥ };

    ghost answers = { λ p question reply. IsReplyOf p.line question reply };

    ghost left = { λ p s. Some (length s.pending) };

    ghost only_asked = { λ tag. true };

    ghost is_first = { λ tag. true };

    ghost begun = { λ old new. new ≡ old };

    ghost called = { λ old new calls. new ≡ old };

    ghost heard = { λ old new asked. new ≡ old };

    fn start(&mut self, cx: &mut Cx)
        requires turn { cx.old.log.state.held ≡ true }
        requires sound { OnlyAnswers cx.old.log.state }
        ensures grows { Grows cx.old cx.new }
        ensures same { (cx.new.log.state ≡ cx.old.log.state) × (self.new ≡ self.old) }
    {
        let _ = cx;
    }

    fn handle(&mut self, _role: u32, _event: Event, _cx: &mut Cx) -> Want<HookQuestion> {
        Want::Nothing
    }

    fn told(&mut self, _role: u32, _asked: Asked<HookQuestion, HookReply>, _cx: &mut Cx)
        requires turn { _cx.old.log.state.held ≡ true }
        requires sound { OnlyAnswers _cx.old.log.state }
        ensures grows { Grows _cx.old _cx.new }
        ensures same { (_cx.new.log.state ≡ _cx.old.log.state) × (self.new ≡ self.old) }
    {}

    fn asked(&mut self, question: HookQuestion, _cx: &mut Cx) -> HookReply {
        reply_of(self.alloc, &self.line, question)
    }

    ghost sound_taken = { λ p s turn seat roles h. record { only = h.only; plain = h.plain } };

    ghost sound_given = { λ p s turn roles h. record { only = h.only; plain = h.plain } };

    ghost left_taken = { λ p s turn seat. refl };

    ghost left_given = { λ p s turn. refl };

    ghost rests = { λ tag p s roles f h. own_lives s h };
}

/// It waits for nothing.
#[tactic(auto, using(ts_group::proofs::Grows::grows_refl))]
impl Rouse for Plugin {
    fn rouse(&mut self, _cx: &mut Cx) {}
}
