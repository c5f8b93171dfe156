//! The words of a hook plugin's line: the sites of a deny list, and the rule of a header line.
ghost use Rattle.std.specs.Prelude.{◌≡◌, map, IfOk};
ghost use Rattle.std.specs.List.{list_all};
ghost use Rattle.ts_config.specs.Rules.{is_site, are_sites, deny_of, side_word, side_of, is_kept_name, rule_name, rule_value, putting, put_rule, remove_rule, rule_of, sided_rule, header_of, session_of};

use crate::fields::{PluginLine, Rule, Side, Sites};
use http_header::{HeaderName, HeaderNameError, HeaderValue, HeaderValueError};
use std::alloc::Global;
use ts_link::{NoMemory, Octets};
use ts_wire::is_hop;

// The most sites of a deny list.
const MOST_SITES: usize = 64;

// The most bytes of the value of a header rule.
const MOST_VALUE: usize = 16_384;

fn has_sites_alone(words: &[&[u8]]) -> bool
    ensures { result ≡ list_all is_site (map (λ w. w.now) words.now) }
{
    for word in words {
        if word.is_empty() {
            return false;
        }
    }
    true
}

fn are_sites(words: &[&[u8]]) -> bool
    ensures { result ≡ are_sites (map (λ w. w.now) words.now) }
{
    !words.is_empty() && words.len() <= MOST_SITES && has_sites_alone(words)
}

fn copy_sites(alloc: Global, words: &[&[u8]]) -> Result<Vec<Octets>, NoMemory>
    ensures { IfOk result (λ sites. sites.items ≡ map (λ w. w.now) words.now) }
{
    let mut sites = Vec::new(alloc);
    for word in words {
        let site = Octets::copy_of(alloc, word)?;
        sites.push(site)?;
    }
    Ok(sites)
}

/// The deny list of these words, or nothing where they are none.
pub fn deny_of(alloc: Global, words: &[&[u8]]) -> Result<Option<PluginLine>, NoMemory>
    ensures { IfOk result (λ o. o ≡ deny_of (map (λ w. w.now) words.now)) }
{
    if !are_sites(words) {
        return Ok(None);
    }
    let listed = copy_sites(alloc, words)?;
    Ok(Some(PluginLine::Deny {
        sites: Sites::of_vec(listed),
    }))
}

/// The word for a side.
pub fn side_word(side: Side) -> &'static [u8]
    ensures { result.now ≡ side_word side }
{
    match side {
        Side::Request => b"request",
        Side::Response => b"response",
    }
}

fn side_of(word: &[u8]) -> Option<Side>
    ensures { result ≡ side_of word.now }
{
    if word == side_word(Side::Request) {
        Some(Side::Request)
    } else if word == side_word(Side::Response) {
        Some(Side::Response)
    } else {
        None
    }
}

// Whether the name, which is in lower case, is one of a field that no rule changes.
fn is_kept_name(name: &[u8]) -> bool
    ensures { result ≡ is_kept_name name.now }
{
    is_hop(name) || name == b"host".as_slice() || name == b"via".as_slice()
}

// The name that the word stands for, or nothing where no rule may have it.
fn rule_name(alloc: Global, word: &[u8]) -> Result<Option<HeaderName>, NoMemory>
    ensures { IfOk result (λ o. o ≡ rule_name word.now) }
{
    match HeaderName::from_bytes(alloc, word) {
        Ok(name) => {
            if is_kept_name(name.as_bytes()) {
                return Ok(None);
            }
            Ok(Some(name))
        }
        Err(error) => match error {
            HeaderNameError::Invalid => Ok(None),
            HeaderNameError::OutOfMemory => Err(NoMemory),
        },
    }
}

// The value that the word stands for, or nothing where no rule may have it.
fn rule_value(alloc: Global, word: &[u8]) -> Result<Option<HeaderValue>, NoMemory>
    ensures { IfOk result (λ o. o ≡ rule_value word.now) }
{
    if word.len() > MOST_VALUE {
        return Ok(None);
    }
    match HeaderValue::from_bytes(alloc, word) {
        Ok(value) => Ok(Some(value)),
        Err(error) => match error {
            HeaderValueError::Invalid => Ok(None),
            HeaderValueError::OutOfMemory => Err(NoMemory),
        },
    }
}

// The rule of an action that puts a field.
fn putting(action: &[u8], name: HeaderName, value: HeaderValue) -> Option<Rule>
    ensures { result ≡ putting action.now name value }
{
    if action == b"set".as_slice() {
        Some(Rule::Set { name, value })
    } else if action == b"add".as_slice() {
        Some(Rule::Add { name, value })
    } else {
        None
    }
}

fn put_rule(
    alloc: Global,
    action: &[u8],
    name: &[u8],
    value: &[u8],
) -> Result<Option<Rule>, NoMemory>
    ensures { IfOk result (λ o. o ≡ put_rule action.now name.now value.now) }
{
    let Some(name) = rule_name(alloc, name)? else {
        return Ok(None);
    };
    let Some(value) = rule_value(alloc, value)? else {
        return Ok(None);
    };
    Ok(putting(action, name, value))
}

fn remove_rule(alloc: Global, action: &[u8], name: &[u8]) -> Result<Option<Rule>, NoMemory>
    ensures { IfOk result (λ o. o ≡ remove_rule action.now name.now) }
{
    if action != b"remove".as_slice() {
        return Ok(None);
    }
    match rule_name(alloc, name)? {
        Some(name) => Ok(Some(Rule::Remove { name })),
        None => Ok(None),
    }
}

fn rule_of(alloc: Global, words: &[&[u8]]) -> Result<Option<Rule>, NoMemory>
    ensures { IfOk result (λ o. o ≡ rule_of (map (λ w. w.now) words.now)) }
{
    match words {
        [action, name, value] => put_rule(alloc, action, name, value),
        [action, name] => remove_rule(alloc, action, name),
        _ => Ok(None),
    }
}

// The side and the rule of these words, or nothing where they are none.
fn sided_rule(alloc: Global, words: &[&[u8]]) -> Result<Option<(Side, Rule)>, NoMemory>
    ensures { IfOk result (λ o. o ≡ sided_rule (map (λ w. w.now) words.now)) }
{
    let [side, others @ ..] = words else {
        return Ok(None);
    };
    let Some(side) = side_of(side) else {
        return Ok(None);
    };
    match rule_of(alloc, others)? {
        Some(rule) => Ok(Some((side, rule))),
        None => Ok(None),
    }
}

/// The header line of these words, or nothing where they are none.
pub fn header_of(alloc: Global, words: &[&[u8]]) -> Result<Option<PluginLine>, NoMemory>
    ensures { IfOk result (λ o. o ≡ header_of (map (λ w. w.now) words.now)) }
{
    match sided_rule(alloc, words)? {
        Some((side, rule)) => Ok(Some(PluginLine::Header { side, rule })),
        None => Ok(None),
    }
}

/// The session's header line of these words, or nothing where they are none.
pub fn session_of(alloc: Global, words: &[&[u8]]) -> Result<Option<PluginLine>, NoMemory>
    ensures { IfOk result (λ o. o ≡ session_of (map (λ w. w.now) words.now)) }
{
    match sided_rule(alloc, words)? {
        Some((side, rule)) => Ok(Some(PluginLine::SessionHeader { side, rule })),
        None => Ok(None),
    }
}
