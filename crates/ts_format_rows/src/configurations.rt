//! Configurations: what is printed of their reading, or the first faulty line and its kind.
ghost use Rattle.ts_config.specs.Reading.{ComeFromText};
ghost use Rattle.ts_config.specs.Setup.{lines_of};

use crate::escapes::{shown, told};
use crate::failure::Failure;
use std::alloc::Global;
use ts_config::{ConfigKind, ConfigRefusal, Setup, print_config, read_config};

// The rule that a faulty line breaks.
fn rule_of(kind: ConfigKind) -> &'static str {
    match kind {
        ConfigKind::Text => ": text",
        ConfigKind::Quote => ": quote",
        ConfigKind::Plugin => ": plugin",
        ConfigKind::Arguments => ": arguments",
        ConfigKind::TooMany => ": too-many",
    }
}

// What is printed of the lines.
fn printed_line(alloc: Global, setup: &Setup) -> Result<Vec<u8>, Failure>
    requires { ComeFromText (lines_of setup.now) }
{
    let printed = print_config(alloc, setup)?;
    shown(alloc, printed.bytes())
}

/// The line of a configuration.
pub fn config_line(alloc: Global, text: &[u8]) -> Result<Vec<u8>, Failure> {
    match read_config(alloc, text) {
        Ok(setup) => printed_line(alloc, &setup),
        Err(ConfigRefusal::Fault(fault)) => told(alloc, "! line", fault.line, rule_of(fault.kind)),
        Err(ConfigRefusal::NoMemory) => Err(Failure),
    }
}
