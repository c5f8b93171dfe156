//! Request bodies: which requests have one that is passed on, what a transaction is shown of such a request,
//! and how the body goes to the origin.
#![tactic(auto)]

mod carrier;
mod delivery;
mod finding;
mod front;
mod held;
mod laws;
mod lines;
mod making;
mod passage;
mod reading;
mod stage;
mod uploading;

pub use carrier::{Carrier, HeadState, MOST_HELD};
pub use delivery::{delivered, paired};
pub use front::Front;
pub use laws::{limits, one_shown, one_upload};
pub use passage::Passage;
pub use stage::Stage;
