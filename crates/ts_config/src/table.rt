//! The table of plugins: the first word of a line, and the transform that the words behind it ask for.
ghost use Rattle.std.specs.Prelude.{◌≡◌, ◌==◌, ℕ, List, length, map, Option, IfOk, if◌then◌else◌};
ghost use Rattle.ts_config.specs.Table.{spelling, all_names, name_of, transform_of};
ghost use Rattle.ts_config.specs.declared.table.PluginName.TheVariants as n;

use crate::numerals::{byte_of, number_of};
use crate::setup::TransformLine;
use std::alloc::Global;
use ts_link::{NoMemory, Octets};

/// The plugins that a line can name.
#[derive(Clone, Copy)]
pub enum PluginName {
    Null,
    Append,
    Bnull,
    Prepend,
    Map,
    Drop,
    Delay,
    Limit,
    Request,
    Intercept,
    Tap,
    Deny,
    Header,
    SessionHeader,
}

const ALL_NAMES: [PluginName; 14] = [
    PluginName::Null,
    PluginName::Append,
    PluginName::Bnull,
    PluginName::Prepend,
    PluginName::Map,
    PluginName::Drop,
    PluginName::Delay,
    PluginName::Limit,
    PluginName::Request,
    PluginName::Intercept,
    PluginName::Tap,
    PluginName::Deny,
    PluginName::Header,
    PluginName::SessionHeader,
];

// All plugins: those of transform lines, those of other lines that are no hook plugin's, and those that are
// called at hooks.
fn all_names() -> &'static [PluginName]
    ensures { result.now ≡ all_names }
{
    &ALL_NAMES
}

// The most bytes of the text of a prepend line.
const MOST_TEXT: usize = 16_384;

// The most milliseconds of a delay line.
const MOST_DELAY: u64 = 60_000;

// The most bytes that a limit line can pass on.
const MOST_LIMIT: u64 = 9_223_372_036_854_775_807;

impl PluginName {
    /// The first word of its lines.
    pub fn spelling(self) -> &'static [u8]
        ensures { result.now ≡ spelling self }
    {
        match self {
            PluginName::Null => b"null_transform.so",
            PluginName::Append => b"append_transform.so",
            PluginName::Bnull => b"bnull_transform.so",
            PluginName::Prepend => b"prepend.so",
            PluginName::Map => b"map.so",
            PluginName::Drop => b"drop.so",
            PluginName::Delay => b"delay.so",
            PluginName::Limit => b"limit.so",
            PluginName::Request => b"request.so",
            PluginName::Intercept => b"intercept.so",
            PluginName::Tap => b"tap.so",
            PluginName::Deny => b"denylist.so",
            PluginName::Header => b"header.so",
            PluginName::SessionHeader => b"session.so",
        }
    }
}

/// The plugin that the word names.
pub fn name_of(word: &[u8]) -> Option<PluginName>
    ensures { result ≡ name_of word.now }
{
    let names = all_names();
    for name in names {
        if name.spelling() == word {
            return Some(*name);
        }
    }
    None
}

// A line that takes no words.
fn alone(line: TransformLine, words: &[&[u8]]) -> Option<TransformLine>
    ensures { result ≡ (if length words.now == 0 then Some line else None) }
{
    if words.is_empty() { Some(line) } else { None }
}

fn append_of(alloc: Global, words: &[&[u8]]) -> Result<Option<TransformLine>, NoMemory>
    ensures { IfOk result (λ o. o ≡ transform_of n.Append (map (λ w. w.now) words.now)) }
{
    match words {
        [file] => {
            if file.is_empty() {
                return Ok(None);
            }
            let text = Octets::of_vec(Vec::new(alloc));
            let file = Octets::copy_of(alloc, file)?;
            Ok(Some(TransformLine::Append { file, text }))
        }
        _ => Ok(None),
    }
}

fn prepend_of(alloc: Global, words: &[&[u8]]) -> Result<Option<TransformLine>, NoMemory>
    ensures { IfOk result (λ o. o ≡ transform_of n.Prepend (map (λ w. w.now) words.now)) }
{
    match words {
        [text] => {
            if text.len() > MOST_TEXT {
                return Ok(None);
            }
            let text = Octets::copy_of(alloc, text)?;
            Ok(Some(TransformLine::Prepend { text }))
        }
        _ => Ok(None),
    }
}

fn map_of(words: &[&[u8]]) -> Option<TransformLine>
    ensures { result ≡ transform_of n.Map (map (λ w. w.now) words.now) }
{
    match words {
        [from, to] => {
            let from = byte_of(from)?;
            let to = byte_of(to)?;
            Some(TransformLine::Map { from, to })
        }
        _ => None,
    }
}

fn drop_of(words: &[&[u8]]) -> Option<TransformLine>
    ensures { result ≡ transform_of n.Drop (map (λ w. w.now) words.now) }
{
    match words {
        [byte] => {
            let byte = byte_of(byte)?;
            Some(TransformLine::Drop { byte })
        }
        _ => None,
    }
}

fn delay_of(words: &[&[u8]]) -> Option<TransformLine>
    ensures { result ≡ transform_of n.Delay (map (λ w. w.now) words.now) }
{
    match words {
        [ms] => {
            let ms = number_of(ms, MOST_DELAY)?;
            Some(TransformLine::Delay { ms: ms as u32 })
        }
        _ => None,
    }
}

fn limit_of(words: &[&[u8]]) -> Option<TransformLine>
    ensures { result ≡ transform_of n.Limit (map (λ w. w.now) words.now) }
{
    match words {
        [most] => {
            let most = number_of(most, MOST_LIMIT)?;
            Some(TransformLine::Limit { most })
        }
        _ => None,
    }
}

/// The transform that a name and the words behind it ask for, or nothing where they do not fit.
pub fn transform_of(
    alloc: Global,
    name: PluginName,
    words: &[&[u8]],
) -> Result<Option<TransformLine>, NoMemory>
    ensures { IfOk result (λ o. o ≡ transform_of name (map (λ w. w.now) words.now)) }
{
    match name {
        PluginName::Null => Ok(alone(TransformLine::Null, words)),
        PluginName::Append => append_of(alloc, words),
        PluginName::Bnull => Ok(alone(TransformLine::Bnull, words)),
        PluginName::Prepend => prepend_of(alloc, words),
        PluginName::Map => Ok(map_of(words)),
        PluginName::Drop => Ok(drop_of(words)),
        PluginName::Delay => Ok(delay_of(words)),
        PluginName::Limit => Ok(limit_of(words)),
        PluginName::Request
        | PluginName::Intercept
        | PluginName::Tap
        | PluginName::Deny
        | PluginName::Header
        | PluginName::SessionHeader => Ok(None),
    }
}
