//! The link to an origin, which moves the body that follows a client's request head by itself.
#![tactic(auto)]

mod upstream;

pub use upstream::{Uploaded, Upstream};
