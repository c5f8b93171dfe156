//! The hook plugins of a configuration, each a world that is only asked: what a transaction asks one at a
//! hook, what it replies, and which of them are asked at each hook.
#![tactic(auto)]

mod copying;
mod laws;
mod lines;
mod plugin;
mod question;
mod replying;

pub use laws::asked_in_order;
pub use lines::{hook_of, table_of};
pub use plugin::{Plugin, PluginTag};
pub use question::{HookQuestion, HookReply, PluginFault};
