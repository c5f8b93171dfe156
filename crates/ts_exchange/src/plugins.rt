//! The plugins of the lines of a setup, each with the tag of its slot.

ghost use Rattle.std.specs.Prelude.{IfOk};
ghost use Rattle.ts_exchange.specs.Plugins.{ArePluginsOf, IsPluginOfLine};

use std::alloc::Global;
use std::snapshot::Snapshot;
use ts_config::PluginLine;
use ts_link::NoMemory;
use ts_plugin::{Plugin, PluginTag};

/// A world with the tag of its slot.
#[derive(Drop)]
pub struct Tagged<W, T> {
    pub world: W,
    pub tag: T,
}

/// The plugin of this line.
pub fn plugin_of(alloc: Global, line: &PluginLine) -> Result<Tagged<Plugin, PluginTag>, NoMemory>
    ensures { IfOk result (IsPluginOfLine line.now) }
{
    let tag = PluginTag {
        line: Snapshot::of(line),
    };
    let world = Plugin::make(alloc, line)?;
    Ok(Tagged { world, tag })
}

/// The plugins of these lines, in their order.
pub fn plugins_of(
    alloc: Global,
    lines: &[PluginLine],
) -> Result<Vec<Tagged<Plugin, PluginTag>>, NoMemory>
    ensures { IfOk result (λ plugins. ArePluginsOf lines.now plugins.items) }
{
    let mut plugins = Vec::with_capacity(alloc, lines.len())?;
    'lines: for line in lines {
        let plugin = plugin_of(alloc, line)?;
        plugins.push(plugin)?;
    }
    Ok(plugins)
}
