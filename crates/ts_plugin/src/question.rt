//! What a plugin is asked at a hook, and what it replies.

use ts_hooks::{Hook, HookAnswer};
use ts_link::Octets;
use ts_wire::Fields;

/// What a transaction asks a plugin.
#[derive(Drop)]
pub struct HookQuestion {
    /// The hook that the transaction has come to.
    pub hook: Hook,
    /// The request's host as plugins see it: in lower case, without a port. It is empty for an answer of the
    /// proxy's own, which keeps no request.
    pub host: Octets,
    /// The fields of the head that is about to be sent; none at a hook that sends none.
    pub fields: Fields,
}

/// Why a plugin has no answer.
#[derive(Clone, Copy)]
pub enum PluginFault {
    NoMemory,
}

/// What a plugin replies.
#[derive(Drop)]
pub struct HookReply {
    /// How the transaction is to go on.
    pub answer: Result<HookAnswer, PluginFault>,
    /// The fields of the question after the plugin. They count only beside an answer.
    pub fields: Fields,
}
