//! A transform of one's own, to be copied: each line of a body behind a mark, as mail programs quote.
#![tactic(auto)]

mod quote;

pub use quote::{Quote, QuoteLine};
