//! What the plugin of a line replies to a question.

ghost use Rattle.std.specs.Prelude.{◌≡◌, ◌&&◌, if◌then◌else◌};
ghost use Rattle.ts_config.specs.declared.fields.PluginLine.TheVariants as PluginLine;
ghost use Rattle.ts_hooks.specs.declared.hook.Hook.TheVariants as Hook;
ghost use Rattle.ts_hooks.specs.declared.hook.HookAnswer.TheVariants as HookAnswer;
ghost use Rattle.ts_hooks.specs.Hooks.{is_same};
ghost use Rattle.ts_block.specs.Rules.{is_site};
ghost use Rattle.ts_plugin.specs.Replies.{IsReplyOf};

use crate::lines::hook_of_side;
use crate::question::{HookQuestion, HookReply, PluginFault};
use std::alloc::Global;
use ts_block::{apply_rule, is_site};
use ts_config::{PluginLine, Rule, Side, Sites};
use ts_hooks::{Hook, HookAnswer};
use ts_wire::Fields;

// What a deny list answers at a hook, for a host.
fn judge(sites: &Sites, hook: Hook, host: &[u8]) -> HookAnswer
    ensures { result ≡ (if is_same hook Hook.OsDns && is_site host.now sites.now
        then HookAnswer.Error else HookAnswer.Continue) }
{
    if hook.is_same(Hook::OsDns) && is_site(sites, host) {
        HookAnswer::Error
    } else {
        HookAnswer::Continue
    }
}

// The reply of a deny list.
fn deny(sites: &Sites, question: HookQuestion) -> HookReply
    ensures { IsReplyOf (PluginLine.Deny sites.now) question result }
{
    let HookQuestion { hook, host, fields } = question;
    let answer = Ok(judge(sites, hook, host.bytes()));
    HookReply { answer, fields }
}

// The reply of a header rule.
fn change(alloc: Global, side: Side, rule: &Rule, question: HookQuestion) -> HookReply
    ensures { IsReplyOf (PluginLine.Header side rule.now) question result }
{
    let HookQuestion {
        hook,
        host: _host,
        fields,
    } = question;
    if !hook.is_same(hook_of_side(side)) {
        return HookReply {
            answer: Ok(HookAnswer::Continue),
            fields,
        };
    }
    match apply_rule(fields, rule) {
        Ok(changed) => HookReply {
            answer: Ok(HookAnswer::Continue),
            fields: changed,
        },
        Err(_) => HookReply {
            answer: Err(PluginFault::NoMemory),
            fields: Fields::new(alloc),
        },
    }
}

/// The reply of a line's plugin.
pub fn reply_of(alloc: Global, line: &PluginLine, question: HookQuestion) -> HookReply
    ensures { IsReplyOf line.now question result }
{
    match line {
        PluginLine::Deny { sites } => deny(sites, question),
        PluginLine::Header { side, rule } => change(alloc, *side, rule, question),
        PluginLine::SessionHeader { side, rule } => change(alloc, *side, rule, question),
    }
}
