//! Rows of formats: each line of standard input is an operation and a text, and what comes of it is printed
//! behind it.
#![tactic(auto)]

mod bodies;
mod configurations;
mod escapes;
mod failure;
mod generated;
mod recordings;

use bodies::body_line;
use configurations::config_line;
use escapes::bytes_of;
use failure::Failure;
use generated::generated_line;
use recordings::{fronts_line, recording_line};
use std::alloc::Global;
use std::io;
use std::io::Write;

// What comes of an operation on a text, if there is one of this name, behind a configuration.
fn line_of(
    alloc: Global,
    operation: &str,
    text: &[u8],
    config: &[u8],
) -> Result<Option<Vec<u8>>, Failure> {
    let line = match operation {
        "config" => config_line(alloc, text)?,
        "body" => body_line(alloc, config, text)?,
        "recording" => recording_line(alloc, text)?,
        "fronts" => fronts_line(alloc, text)?,
        "generated" => generated_line(alloc, text)?,
        _ => return Ok(None),
    };
    Ok(Some(line))
}

// What comes of a line, behind a configuration, which `lines` tells. One of no operation is a comment.
fn outcome(alloc: Global, line: &str, config: &mut Vec<u8>) -> Result<Option<Vec<u8>>, Failure> {
    let (operation, text) = match line.split_once(' ') {
        Some(parts) => parts,
        None => (line, ""),
    };
    let text = bytes_of(alloc, text)?;
    if operation == "lines" {
        *config = text;
        return Ok(Some(Vec::new(alloc)));
    }
    line_of(alloc, operation, text.as_slice(), config.as_slice())
}

fn main(rt: HostRuntime) -> io::Result<()> {
    let mut config = Vec::new(rt.alloc());
    for line in rt.lines(rt.alloc()) {
        let line = line?;
        if let Some(found) = outcome(rt.alloc(), line.as_str(), &mut config)? {
            let text = format!(in rt.alloc(); "{line}\n")?;
            rt.stdout().write_all(text.as_bytes())?;
            rt.stdout().write_all(found.as_slice())?;
        }
    }
    Ok(())
}
