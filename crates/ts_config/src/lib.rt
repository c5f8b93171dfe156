//! The configuration: one line for each transform, intercept, hook plugin and tap, as operators write it.
//! Reading gives the value of the grammar or names the first faulty line, and printing gives lines that read
//! the same.
#![tactic(auto)]

mod entry;
mod fields;
mod filling;
mod laws;
mod lines;
mod numerals;
mod print;
mod read;
mod rules;
mod setup;
mod table;
mod words;

pub use fields::{PluginLine, Rule, Side, Sites};
pub use filling::is_session;
pub use laws::{early_stays, limits, one_reading, tells_so_far};
pub use lines::cut_line;
pub use print::print_config;
pub use read::{LineRefusal, read_config, read_line};
pub use setup::{
    ConfigFault, ConfigKind, ConfigRefusal, FilePlace, InterceptKind, InterceptLine, LineMeaning,
    Setup, TransformLine,
};
