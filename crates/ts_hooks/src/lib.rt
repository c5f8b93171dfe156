//! The hooks of a transaction, the table of the plugins that it asks at each of them, and how it ends.
#![tactic(auto)]

mod hook;
mod table;
mod txn_end;

pub use hook::{Hook, HookAnswer};
pub use table::HookTable;
pub use txn_end::TxnEnd;
