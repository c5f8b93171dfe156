//! The request check says which requests are taken, with which target and which host.
ghost use Rattle.std.specs.Prelude.{◌≡◌, ◌<◌, ◌≤◌, ◌∷◌, List, ℕ, length, codes, IfOk, IfSome, is_some, bytes_eq, ◌&&◌, take, drop, Some, None, if◌then◌else◌};
ghost use Rattle.std.specs.List.{find, list_any, position, position_or_len};
ghost use Rattle.std.specs.Option.{option_copied};
ghost use Rattle.ts_wire.specs.Limits.{scheme_len};
ghost use Rattle.ts_wire.specs.FieldList.{is_named, count_named, first_value};
ghost use Rattle.ts_wire.specs.Framing.{coding_named, length_named};
ghost use Rattle.ts_wire.specs.Check.{slash, has_wrong_hosts, is_absolute, ends_authority, sent_after, absolute_parts, begins_with_slash, target_parts, refusal_by, check, Says, RefusesSo, is_at_sign, is_colon, is_bracket, without_port, plugin_host};

use crate::fields::Field;
use crate::framing::{ContentLength, TransferCoding, coding_of, length_of};
use crate::heads::RequestHead;
use crate::values::{eq_ignore_case, is_named, value_of};
use std::alloc::Global;
use ts_link::{NoMemory, Octets};

/// The status of a request that is not one, or names no host or two (RFC 9110, section 15.5.1).
pub const BAD_REQUEST: u16 = 400;

/// The status of a request that this proxy does not serve (RFC 9110, section 15.6.2).
pub const NOT_IMPLEMENTED: u16 = 501;

// How many bytes `http://` has.
const SCHEME_LEN: usize = 7;

/// What the check says of a request.
#[derive(Drop)]
pub enum Verdict {
    /// It is taken: the target that the origin gets, and the host.
    Pass { target: Octets, host: Octets },
    /// It is refused with this status.
    Refuse(u16),
}

fn count_hosts(fields: &[Field]) -> usize
    ensures { result ≡ count_named (codes "host") fields.now }
{
    let mut hosts = 0;
    for field in fields {
        if is_named(field, b"host") {
            hosts += 1;
        }
    }
    hosts
}

fn first_host(fields: &[Field]) -> Option<&Field>
    ensures { option_copied result ≡ find (is_named (codes "host")) fields.now }
{
    fields.iter().find(|field| is_named(field, b"host"))
}

/// The value of the first Host field, or nothing.
fn host_of(fields: &[Field]) -> &[u8]
    ensures { result.now ≡ first_value (codes "host") fields.now }
{
    match first_host(fields) {
        Some(field) => value_of(field),
        None => &[],
    }
}

/// Whether a request of this version may not have so many Host fields.
pub fn has_wrong_hosts(minor: u8, hosts: usize) -> bool
    ensures { result ≡ has_wrong_hosts minor hosts }
{
    if minor == 0 { hosts > 1 } else { hosts != 1 }
}

/// What follows `http://`, if the target begins with that.
fn after_scheme(target: &[u8]) -> Option<&[u8]>
    ensures { option_copied result
        ≡ (if is_absolute target.now then Some (drop scheme_len target.now) else None) }
{
    if target.len() < SCHEME_LEN {
        return None;
    }
    let (scheme, rest) = target.split_at(SCHEME_LEN);
    if eq_ignore_case(scheme, b"http://") {
        Some(rest)
    } else {
        None
    }
}

/// Whether the target begins with `http://`.
pub(crate) fn is_absolute(target: &[u8]) -> bool
    ensures { result ≡ is_absolute target.now }
{
    after_scheme(target).is_some()
}

fn ends_authority(b: u8) -> bool
    ensures { result ≡ ends_authority b }
{
    b == b'/' || b == b'?'
}

fn authority_len(rest: &[u8]) -> usize
    ensures value { result ≡ position_or_len ends_authority rest.now }
    ensures within { result ≤ length rest.now }
{
    rest.iter()
        .position(|b| ends_authority(*b))
        .unwrap_or(rest.len())
}

fn has_at_sign(bytes: &[u8]) -> bool
    ensures { result ≡ list_any is_at_sign bytes.now }
{
    bytes.contains(&b'@')
}

fn sent_after(alloc: Global, method: &[u8], after: &[u8]) -> Result<Octets, NoMemory>
    ensures { IfOk result (λ o. o ≡ sent_after method.now after.now) }
{
    match after {
        [] => Octets::copy_of(
            alloc,
            if method == b"OPTIONS".as_slice() {
                b"*"
            } else {
                b"/"
            },
        ),
        [b'?', ..] => with_slash(alloc, after),
        _ => Octets::copy_of(alloc, after),
    }
}

/// `/` and then the bytes.
fn with_slash(alloc: Global, bytes: &[u8]) -> Result<Octets, NoMemory>
    ensures { IfOk result (λ o. o ≡ slash ∷ bytes.now) }
{
    let mut text = Vec::from_slice(alloc, b"/")?;
    text.extend_from_slice(bytes)?;
    Ok(Octets::of_vec(text))
}

/// The target and the host of an absolute target, from what follows `http://`.
fn absolute_parts(
    alloc: Global,
    method: &[u8],
    rest: &[u8],
) -> Result<Option<(Octets, Octets)>, NoMemory>
    ensures { IfOk result (λ o. o ≡ absolute_parts method.now rest.now) }
{
    let (authority, after) = rest.split_at(authority_len(rest));
    if authority.is_empty() || has_at_sign(authority) {
        return Ok(None);
    }
    let target = sent_after(alloc, method, after)?;
    let host = Octets::copy_of(alloc, authority)?;
    Ok(Some((target, host)))
}

fn begins_with_slash(target: &[u8]) -> bool
    ensures { result ≡ begins_with_slash target.now }
{
    match target {
        [first, ..] => *first == b'/',
        [] => false,
    }
}

/// The target that the origin gets, and the host.
fn target_parts(
    alloc: Global,
    method: &[u8],
    target: &[u8],
    host: &[u8],
) -> Result<Option<(Octets, Octets)>, NoMemory>
    ensures { IfOk result (λ o. o ≡ target_parts method.now target.now host.now) }
{
    if begins_with_slash(target) || (target == b"*".as_slice() && method == b"OPTIONS".as_slice()) {
        let target = Octets::copy_of(alloc, target)?;
        let host = Octets::copy_of(alloc, host)?;
        return Ok(Some((target, host)));
    }
    match after_scheme(target) {
        Some(rest) => absolute_parts(alloc, method, rest),
        None => Ok(None),
    }
}

/// Whether what follows `http://` begins with an authority of a host.
fn has_authority(rest: &[u8]) -> bool
    ensures { (method : List ℕ) → result ≡ is_some (absolute_parts method rest.now) }
{
    let (authority, _) = rest.split_at(authority_len(rest));
    !(authority.is_empty() || has_at_sign(authority))
}

/// Whether the target is `*`, of an OPTIONS request.
fn is_asterisk(method: &[u8], target: &[u8]) -> bool
    ensures { result ≡ (bytes_eq target.now (codes "*") && bytes_eq method.now (codes "OPTIONS")) }
{
    target == b"*".as_slice() && method == b"OPTIONS".as_slice()
}

/// Whether the target is an absolute one, with an authority of a host.
fn is_absolute_form(target: &[u8]) -> bool
    ensures { (method : List ℕ) → result ≡ is_some (if is_absolute target.now
        then absolute_parts method (drop scheme_len target.now) else None) }
{
    match after_scheme(target) {
        Some(rest) => has_authority(rest),
        None => false,
    }
}

/// Whether the request check takes this target of a request with this method, whatever its host.
pub fn has_form(method: &[u8], target: &[u8]) -> bool
    ensures { (host : List ℕ) → result ≡ is_some (target_parts method.now target.now host) }
{
    if begins_with_slash(target) {
        return true;
    }
    if is_asterisk(method, target) {
        return true;
    }
    is_absolute_form(target)
}

/// Why the body that a request announces refuses it.
fn refusal_by(coding: TransferCoding, length: ContentLength) -> Option<u16>
    ensures { result ≡ refusal_by coding length }
{
    match (coding, length) {
        (TransferCoding::Absent, ContentLength::Absent) => None,
        (TransferCoding::Absent, ContentLength::Valid(0)) => None,
        (TransferCoding::Absent, ContentLength::Faulty) => Some(BAD_REQUEST),
        _ => Some(NOT_IMPLEMENTED),
    }
}

/// The table of the request check. The first row that applies decides.
pub fn check_request(alloc: Global, head: &RequestHead) -> Result<Verdict, NoMemory>
    ensures says { IfOk result (λ verdict. Says verdict (check head.now)) }

    // The law that a refusal has one of two statuses.
    ensures refusals { RefusesSo }
{
    let method = head.method.bytes();
    let fields = head.fields.items();
    if method == b"CONNECT".as_slice() {
        return Ok(Verdict::Refuse(NOT_IMPLEMENTED));
    }
    if has_wrong_hosts(head.minor, count_hosts(fields)) {
        return Ok(Verdict::Refuse(BAD_REQUEST));
    }
    let Some((target, host)) = target_parts(alloc, method, head.target.bytes(), host_of(fields))?
    else {
        return Ok(Verdict::Refuse(BAD_REQUEST));
    };
    match refusal_by(coding_of(&head.fields), length_of(&head.fields)) {
        Some(status) => Ok(Verdict::Refuse(status)),
        None => Ok(Verdict::Pass { target, host }),
    }
}

fn bracket_place(host: &[u8]) -> Option<usize>
    ensures value { result ≡ position is_bracket host.now }
    ensures within { IfSome result (λ at. at < length host.now) }
{
    host.iter().position(|b| *b == b']')
}

/// The host without its port: up to and including the `]` of an address, else up to the `:`.
fn without_port(host: &[u8]) -> &[u8]
    ensures { result.now ≡ without_port (position is_bracket host.now) host.now }
{
    match bracket_place(host) {
        Some(bracket) => host.split_at(bracket + 1).0,
        None => host.split_at(name_len(host)).0,
    }
}

fn name_len(host: &[u8]) -> usize
    ensures value { result ≡ position_or_len is_colon host.now }
    ensures within { result ≤ length host.now }
{
    host.iter().position(|b| *b == b':').unwrap_or(host.len())
}

/// The host that plugins see: without a port, and in lower case.
pub fn plugin_host(alloc: Global, host: &[u8]) -> Result<Octets, NoMemory>
    ensures { IfOk result (λ o. o ≡ plugin_host host.now) }
{
    let mut name = Vec::from_slice(alloc, without_port(host))?;
    name.as_mut_slice().make_ascii_lowercase();
    Ok(Octets::of_vec(name))
}
