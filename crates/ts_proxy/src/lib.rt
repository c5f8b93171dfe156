//! The proxy's top call: all that the program does, over the files, the sinks and the gate that are handed
//! in.
#![tactic(auto)]

mod answer;
mod command;
mod drive;
mod filling;
mod generate;
mod laws;
mod number;
mod reading;
mod replay;
mod report;
mod serve;
mod summary;
mod telling;
mod threaded;
mod top;
mod transform;
mod writing;

pub use laws::{fixed_reading, one_summary};
pub use top::{Ended, end_without_words, run, run_transform};
