//! A configuration is read line by line, up to the first line that is not in the grammar.
ghost use Rattle.std.specs.Prelude.{◌≡◌, ◌++◌, [], true, OnOk, IfOk, IfErr, All, option_to_list};
ghost use Rattle.std.specs.List.{list_all};
ghost use Rattle.std.specs.Str.{is_utf8};
ghost use Rattle.ts_config.specs.Lines.{config_lines};
ghost use Rattle.ts_config.specs.Reading.{is_text_byte, is_text, with_line, has_room, file_in, AreFew, AreFiles, RefusesRightly, IsConfiguration, ComeFromText};
ghost use Rattle.ts_config.specs.Rules.{HasPlainRule};
ghost use Rattle.ts_config.specs.Setup.{HasNamedFiles, lines_of, no_lines};
ghost use Rattle.ts_config.specs.Value.{Good, IsConfigRefusal, config_of, meaning_of};
ghost use Rattle.ts_config.specs.Scanning.{AddsLine, AnswersAsRead, MeansUnlessMemory, BreaksUnlessMemory, refusal_at};
ghost use Rattle.ts_config.specs.declared.read.LineRefusal.TheVariants as r;

use crate::entry::entry_of;
use crate::lines::cut_line;
use crate::setup::{
    ConfigFault, ConfigKind, ConfigRefusal, FilePlace, InterceptKind, InterceptLine, LineMeaning,
    Setup, TransformLine,
};
use crate::words::words_of;
use std::alloc::{AllocFailed, Global};
use ts_link::NoMemory;

// The most transform lines of a configuration.
const MOST_TRANSFORMS: usize = 16;

// The most transform lines of request bodies.
const MOST_REQUESTS: usize = 16;

// The most lines of intercepts.
const MOST_INTERCEPTS: usize = 64;

// The most lines of hook plugins.
const MOST_PLUGINS: usize = 64;

/// Why a line was not read.
#[derive(Clone, Copy)]
pub enum LineRefusal {
    Kind(ConfigKind),
    NoMemory,
}

impl From<NoMemory> for LineRefusal {
    ghost from_gives = { λ _ e. e ≡ r.NoMemory };

    fn from(_refusal: NoMemory) -> LineRefusal {
        LineRefusal::NoMemory
    }
}

impl<T: Drop> From<AllocFailed<T>> for LineRefusal {
    ghost from_gives = { λ _ e. e ≡ r.NoMemory };

    fn from(_refusal: AllocFailed<T>) -> LineRefusal {
        LineRefusal::NoMemory
    }
}

fn is_text_byte(byte: u8) -> bool
    ensures { result ≡ is_text_byte byte }
{
    byte == b'\t' || (byte >= 32 && byte != 127)
}

fn has_text_bytes(line: &[u8]) -> bool
    ensures { result ≡ list_all is_text_byte line.now }
{
    for byte in line {
        if !is_text_byte(*byte) {
            return false;
        }
    }
    true
}

#[tactic(auto, using(crate::proofs::Texts::utf8_yes, crate::proofs::Texts::utf8_no))]
fn is_utf8(line: &[u8]) -> bool
    ensures { result ≡ is_utf8 line.now }
{
    std::str::from_utf8(line).is_ok()
}

fn is_text(line: &[u8]) -> bool
    ensures { result ≡ is_text line.now }
{
    has_text_bytes(line) && is_utf8(line)
}

// What a line means by itself, or the first rule that it breaks.
fn line_meaning(alloc: Global, line: &[u8]) -> Result<LineMeaning, LineRefusal>
    ensures { MeansUnlessMemory line.now result }
{
    if !is_text(line) {
        return Err(LineRefusal::Kind(ConfigKind::Text));
    }
    match words_of(alloc, line)? {
        Some(words) => entry_of(alloc, &words),
        None => Err(LineRefusal::Kind(ConfigKind::Quote)),
    }
}

/// What a line means by itself, or the first rule that it breaks, whatever stands before it.
pub fn read_line(alloc: Global, line: &[u8]) -> Result<LineMeaning, LineRefusal>
    ensures { AnswersAsRead result (meaning_of line.now) }
{
    line_meaning(alloc, line)
}

// Whether there may be one more line of this meaning.
fn has_room(setup: &Setup, meaning: &LineMeaning) -> bool
    ensures { result ≡ has_room (lines_of setup.now) meaning.now }
{
    match meaning {
        LineMeaning::Empty => true,
        LineMeaning::Transform(_) => setup.transforms.len() < MOST_TRANSFORMS,
        LineMeaning::Request(_) => setup.requests.len() < MOST_REQUESTS,
        LineMeaning::Intercept(_) => setup.intercepts.len() < MOST_INTERCEPTS,
        LineMeaning::Plugin(_) => setup.plugins.len() < MOST_PLUGINS,
        LineMeaning::Tap(_) => setup.tap.is_none(),
    }
}

// The place that a line of this meaning will have, if it has a file.
fn file_place(setup: &Setup, meaning: &LineMeaning) -> Option<FilePlace>
    ensures { option_to_list result ≡ file_in (lines_of setup.now) meaning.now }
{
    match meaning {
        LineMeaning::Transform(TransformLine::Append { .. }) => {
            Some(FilePlace::Transform(setup.transforms.len()))
        }
        LineMeaning::Request(TransformLine::Append { .. }) => {
            Some(FilePlace::Request(setup.requests.len()))
        }
        LineMeaning::Intercept(
            InterceptLine {
                kind: InterceptKind::File { .. },
                ..
            },
        ) => Some(FilePlace::Intercept(setup.intercepts.len())),
        _ => None,
    }
}

// Puts the place of a line with a file behind those before it.
fn put_place(setup: &mut Setup, meaning: &LineMeaning) -> Result<(), LineRefusal>
    ensures lines { lines_of setup.new ≡ lines_of setup.old }
    ensures files { OnOk result (setup.new.files.items ≡ setup.old.files.items
        ++ file_in (lines_of setup.old) meaning.now) }
    ensures refusal { IfErr result (λ e. e ≡ r.NoMemory) }
{
    match file_place(setup, meaning) {
        Some(place) => {
            setup.files.push(place)?;
            Ok(())
        }
        None => Ok(()),
    }
}

// Puts a line of this meaning behind those of its kind, for which there is room.
fn put_line(setup: &mut Setup, meaning: LineMeaning) -> Result<(), LineRefusal>
    requires { has_room (lines_of setup.old) meaning ≡ true }
    ensures ok { OnOk result (lines_of setup.new ≡ with_line (lines_of setup.old) meaning) }
    ensures files { setup.new.files ≡ setup.old.files }
    ensures refusal { IfErr result (λ e. e ≡ r.NoMemory) }
{
    match meaning {
        LineMeaning::Empty => Ok(()),
        LineMeaning::Transform(line) => {
            setup.transforms.push(line)?;
            Ok(())
        }
        LineMeaning::Request(line) => {
            setup.requests.push(line)?;
            Ok(())
        }
        LineMeaning::Intercept(line) => {
            setup.intercepts.push(line)?;
            Ok(())
        }
        LineMeaning::Plugin(line) => {
            setup.plugins.push(line)?;
            Ok(())
        }
        LineMeaning::Tap(most) => {
            setup.tap = Some(most);
            Ok(())
        }
    }
}

// Adds what a line means to what the lines before it mean.
fn add_line(alloc: Global, setup: &mut Setup, line: &[u8]) -> Result<(), LineRefusal>
    requires { AreFew (lines_of setup.old) }
    ensures ok { OnOk result (AddsLine line.now setup.old setup.new) }
    ensures few { OnOk result (AreFew (lines_of setup.new)) }
    ensures fault { IfErr result (BreaksUnlessMemory (lines_of setup.old) line.now) }
{
    let meaning = line_meaning(alloc, line)?;
    if !has_room(setup, &meaning) {
        return Err(LineRefusal::Kind(ConfigKind::TooMany));
    }
    put_place(setup, &meaning)?;
    put_line(setup, meaning)
}

// The configuration without a line.
fn no_lines(alloc: Global) -> Setup
    ensures lines { lines_of result ≡ no_lines }
    ensures places { result.files.items ≡ [] }
{
    Setup {
        transforms: Vec::new(alloc),
        requests: Vec::new(alloc),
        intercepts: Vec::new(alloc),
        plugins: Vec::new(alloc),
        tap: None,
        files: Vec::new(alloc),
    }
}

fn refusal_at(line: u64, refusal: LineRefusal) -> ConfigRefusal
    ensures { result ≡ refusal_at line refusal }
{
    match refusal {
        LineRefusal::Kind(kind) => ConfigRefusal::Fault(ConfigFault { line, kind }),
        LineRefusal::NoMemory => ConfigRefusal::NoMemory,
    }
}

/// What a configuration means, with the texts of its files empty. A fault names the first line that is not in the grammar, counted from 1, and the first rule that it
/// breaks, in the order of `ConfigKind`.
pub fn read_config(alloc: Global, bytes: &[u8]) -> Result<Setup, ConfigRefusal>
    ensures read { IfOk result (λ s. IsConfiguration bytes.now (lines_of s)) }
    ensures value { IfOk result (λ s. config_of bytes.now ≡ Good (lines_of s) s.files.items) }
    // The places of the lines with a file are in the order of the text, and each file has a name.
    ensures files { IfOk result (λ s. AreFiles bytes.now s.files.items) }
    ensures names { IfOk result HasNamedFiles }
    // No rule changes how long a message is, which host it is for, or whether the connection is kept.
    ensures rules { IfOk result (λ s. All HasPlainRule s.plugins.items) }
    // So it can be printed.
    ensures printable { IfOk result (λ s. ComeFromText (lines_of s)) }
    ensures fault { IfErr result (RefusesRightly (config_lines bytes.now)) }
    ensures refusal { IfErr result (IsConfigRefusal (config_of bytes.now)) }
{
    let mut setup = no_lines(alloc);
    let mut rest = bytes;
    let mut line_number = 0;
    while !rest.is_empty() {
        let (line, behind) = cut_line(rest);
        line_number += 1;
        match add_line(alloc, &mut setup, line) {
            Ok(()) => rest = behind,
            Err(refusal) => return Err(refusal_at(line_number, refusal)),
        }
    }
    Ok(setup)
}
