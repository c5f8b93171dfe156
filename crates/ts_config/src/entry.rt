//! What the words of a line mean: the table of all lines.
ghost use Rattle.std.specs.Prelude.{◌≡◌, map, IfOk};
ghost use Rattle.ts_config.specs.Scanning.{AnswersAsRead};
ghost use Rattle.ts_config.specs.Table.{asked_of, fill_of, served_of, intercept_of, kind_of, line_entry, plugin_of, request_of, tap_of, unhurried_of};

use crate::fields::PluginLine;
use crate::numerals::number_of;
use crate::read::LineRefusal;
use crate::rules::{deny_of, header_of, session_of};
use crate::setup::{ConfigKind, InterceptKind, InterceptLine, LineMeaning, TransformLine};
use crate::table::{PluginName, name_of, transform_of};
use std::alloc::Global;
use ts_link::{NoMemory, Octets};

// The most bytes that an intercept fills a body with.
const MOST_FILL: u64 = 262_144;

// The most bytes that a tap counts.
const MOST_TAP: u64 = 2_147_483_647;

// The hook plugin that a name and the words behind it ask for, or nothing where they do not fit.
fn plugin_of(
    alloc: Global,
    name: PluginName,
    words: &[&[u8]],
) -> Result<Option<PluginLine>, NoMemory>
    ensures { IfOk result (λ o. o ≡ plugin_of name (map (λ w. w.now) words.now)) }
{
    match name {
        PluginName::Deny => deny_of(alloc, words),
        PluginName::Header => header_of(alloc, words),
        PluginName::SessionHeader => session_of(alloc, words),
        PluginName::Null
        | PluginName::Append
        | PluginName::Bnull
        | PluginName::Prepend
        | PluginName::Map
        | PluginName::Drop
        | PluginName::Delay
        | PluginName::Limit
        | PluginName::Request
        | PluginName::Intercept
        | PluginName::Tap => Ok(None),
    }
}

// The transform that a name and the words behind it ask for, if it is any but a delay.
fn unhurried_of(
    alloc: Global,
    name: PluginName,
    words: &[&[u8]],
) -> Result<Option<TransformLine>, NoMemory>
    ensures { IfOk result (λ o. o ≡ unhurried_of name (map (λ w. w.now) words.now)) }
{
    match name {
        PluginName::Delay => Ok(None),
        _ => transform_of(alloc, name, words),
    }
}

// The transform of request bodies that the words of a transform line ask for, or nothing where they are none.
fn request_of(alloc: Global, words: &[&[u8]]) -> Result<Option<TransformLine>, NoMemory>
    ensures { IfOk result (λ o. o ≡ request_of (map (λ w. w.now) words.now)) }
{
    let [first, others @ ..] = words else {
        return Ok(None);
    };
    match name_of(first) {
        Some(name) => unhurried_of(alloc, name, others),
        None => Ok(None),
    }
}

// What an intercept fills a body with, or nothing where the word is no number of bytes.
fn fill_of(number: &[u8]) -> Option<InterceptKind>
    ensures { result ≡ fill_of number.now }
{
    let n = number_of(number, MOST_FILL)?;
    Some(InterceptKind::Fill { n: n as u32 })
}

// A file that an intercept serves, or nothing where its name is empty.
fn served_of(alloc: Global, file: &[u8]) -> Result<Option<InterceptKind>, NoMemory>
    ensures { IfOk result (λ o. o ≡ served_of file.now) }
{
    if file.is_empty() {
        return Ok(None);
    }
    let text = Octets::of_vec(Vec::new(alloc));
    let file = Octets::copy_of(alloc, file)?;
    Ok(Some(InterceptKind::File { file, text }))
}

// What an intercept serves, by the words behind its site, or nothing where they do not fit.
fn kind_of(alloc: Global, words: &[&[u8]]) -> Result<Option<InterceptKind>, NoMemory>
    ensures { IfOk result (λ o. o ≡ kind_of (map (λ w. w.now) words.now)) }
{
    match words {
        [word] => {
            if *word != b"echo".as_slice() {
                return Ok(None);
            }
            Ok(Some(InterceptKind::Echo))
        }
        [word, last] => {
            if *word == b"fill".as_slice() {
                return Ok(fill_of(last));
            }
            if *word == b"file".as_slice() {
                return served_of(alloc, last);
            }
            Ok(None)
        }
        _ => Ok(None),
    }
}

// The intercept that the words ask for, or nothing where they do not fit.
fn intercept_of(alloc: Global, words: &[&[u8]]) -> Result<Option<InterceptLine>, NoMemory>
    ensures { IfOk result (λ o. o ≡ intercept_of (map (λ w. w.now) words.now)) }
{
    let [site, others @ ..] = words else {
        return Ok(None);
    };
    if site.is_empty() {
        return Ok(None);
    }
    let Some(kind) = kind_of(alloc, others)? else {
        return Ok(None);
    };
    let site = Octets::copy_of(alloc, site)?;
    Ok(Some(InterceptLine { site, kind }))
}

// The number of a tap line, or nothing where the words do not fit.
fn tap_of(words: &[&[u8]]) -> Option<u32>
    ensures { result ≡ tap_of (map (λ w. w.now) words.now) }
{
    match words {
        [word] => {
            let most = number_of(word, MOST_TAP)?;
            if most == 0 {
                return None;
            }
            Some(most as u32)
        }
        _ => None,
    }
}

// The line that a name and the words behind it ask for, or nothing where they do not fit.
fn asked_of(
    alloc: Global,
    name: PluginName,
    words: &[&[u8]],
) -> Result<Option<LineMeaning>, NoMemory>
    ensures { IfOk result (λ o. o ≡ asked_of name (map (λ w. w.now) words.now)) }
{
    match name {
        PluginName::Request => Ok(request_of(alloc, words)?.map(|line| LineMeaning::Request(line))),
        PluginName::Intercept => {
            Ok(intercept_of(alloc, words)?.map(|line| LineMeaning::Intercept(line)))
        }
        PluginName::Tap => Ok(tap_of(words).map(|most| LineMeaning::Tap(most))),
        PluginName::Deny | PluginName::Header | PluginName::SessionHeader => {
            Ok(plugin_of(alloc, name, words)?.map(|line| LineMeaning::Plugin(line)))
        }
        _ => Ok(transform_of(alloc, name, words)?.map(|line| LineMeaning::Transform(line))),
    }
}

/// What the words of a line mean, or the first rule that they break.
pub fn entry_of(alloc: Global, words: &[&[u8]]) -> Result<LineMeaning, LineRefusal>
    ensures { AnswersAsRead result (line_entry (map (λ w. w.now) words.now)) }
{
    let [first, others @ ..] = words else {
        return Ok(LineMeaning::Empty);
    };
    let Some(name) = name_of(first) else {
        return Err(LineRefusal::Kind(ConfigKind::Plugin));
    };
    match asked_of(alloc, name, others)? {
        Some(line) => Ok(line),
        None => Err(LineRefusal::Kind(ConfigKind::Arguments)),
    }
}
