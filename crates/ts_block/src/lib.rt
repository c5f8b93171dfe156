//! What a transaction makes of all that its two links give: its block.
#![tactic(auto)]

mod block;
mod bodies;
mod content;
mod framing;
mod heads;
mod laws;
mod own_answer;
mod rules;

pub use block::{
    Block, block_of, early_block, framing_for, is_good, one_block, one_sent_request, own_text,
    relayed_head, relayed_with, request_text, request_with,
};
pub use bodies::joined;
pub use content::acts_on;
pub use framing::{asks_head, client_framing, framing_between, mode_of};
pub use heads::is_interim;
pub use laws::sends_one_each;
pub use own_answer::{OwnStatus, own_fields};
pub use rules::{apply_rule, apply_rules, is_denied, is_site};
