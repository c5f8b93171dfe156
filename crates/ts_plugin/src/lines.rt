//! The hook at which the plugin of a line stands, and the table of the plugins of some lines.

ghost use Rattle.std.specs.Prelude.{◌≡◌, ◌+◌, ◌≤◌, length, IfOk};
ghost use Rattle.ts_config.specs.Setup.{is_session};
ghost use Rattle.ts_plugin.specs.Replies.{hook_of_side, hook_of};
ghost use Rattle.ts_plugin.specs.Lines.{table_of};

use std::alloc::Global;
use ts_config::{PluginLine, Side, is_session};
use ts_hooks::{Hook, HookTable};
use ts_link::NoMemory;

/// The hook at which the head of a side is about to be sent.
pub fn hook_of_side(side: Side) -> Hook
    ensures { result ≡ hook_of_side side }
{
    match side {
        Side::Request => Hook::SendRequestHdr,
        Side::Response => Hook::SendResponseHdr,
    }
}

/// The hook at which the plugin of a line stands.
pub fn hook_of(line: &PluginLine) -> Hook
    ensures { result ≡ hook_of line.now }
{
    match line {
        PluginLine::Deny { .. } => Hook::OsDns,
        PluginLine::Header { side, .. } => hook_of_side(*side),
        PluginLine::SessionHeader { side, .. } => hook_of_side(*side),
    }
}

/// The table of the plugins that each transaction asks at its hooks: the plugin of each line at its hook, by
/// the number of its group. That of a session's line is the session's. The first line's plugin has the group `first`, and each line's the next.
pub fn table_of(alloc: Global, lines: &[PluginLine], first: u32) -> Result<HookTable, NoMemory>
    requires { first + length lines.now ≤ u32.MAX }
    ensures { IfOk result (λ table. table ≡ table_of first lines.now) }
{
    let mut table = HookTable::new(alloc)?;
    let mut group = first;
    for line in lines {
        if is_session(line) {
            table.add_session(hook_of(line), group)?;
        } else {
            table.add_global(hook_of(line), group)?;
        }
        group += 1;
    }
    Ok(table)
}
