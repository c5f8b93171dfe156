//! The words of `serve`, which `clap` reads as one simple command.
#![tactic(auto)]

mod serve;

pub use serve::{ServeTask, serve_task};
