//! Where a head ends, and which host it names.
ghost use Rattle.std.specs.Prelude.{◌≡◌, ◌+◌, ◌≤◌, length, IfOk, IfSome, MatchOption};
ghost use Rattle.std.specs.List.{find};
ghost use Rattle.std.specs.Option.{option_copied};
ghost use Rattle.http_header.specs.Token.{lowercase};
ghost use Rattle.ts_wire.specs.Blank.{LacksBlank};
ghost use Rattle.ts_intercept.specs.Deciding.{HasHead};
ghost use Rattle.ts_intercept.specs.Served.{first_match, front_line, host_in, host_start, is_for};

use memchr::memmem;
use std::alloc::Global;
use ts_config::InterceptLine;
use ts_link::{NoMemory, Octets};
use ts_wire::trim;

// The end of the last line of a head, and its empty line.
const BLANK_END: &[u8] = b"\r\n\r\n";

// The end of a line.
const LINE_END: &[u8] = b"\r\n";

// How the line begins that names the host, behind the end of the line before it.
const HOST_START: &[u8] = b"\r\nhost:";

/// The whole head that the text begins with, up to its empty line.
pub(crate) fn head_of(text: &[u8]) -> Option<&[u8]>
    ensures { MatchOption result (LacksBlank text.now) (λ head. HasHead text.now head.now) }
{
    match memmem::find(text, BLANK_END) {
        Some(place) => Some(text.split_at(place + BLANK_END.len()).0),
        None => None,
    }
}

fn front_line(text: &[u8]) -> &[u8]
    ensures { result.now ≡ front_line text.now }
{
    match memmem::find(text, LINE_END) {
        Some(place) => text.split_at(place).0,
        None => text,
    }
}

fn in_lower_case(alloc: Global, bytes: &[u8]) -> Result<Octets, NoMemory>
    ensures { IfOk result (λ lower. lower ≡ lowercase bytes.now) }
{
    let mut lower = Vec::from_slice(alloc, bytes)?;
    lower.as_mut_slice().make_ascii_lowercase();
    Ok(Octets::of_vec(lower))
}

// Where the line begins that names the host, behind the end of the line before it.
fn host_place(alloc: Global, head: &[u8]) -> Result<Option<usize>, NoMemory>
    ensures value { IfOk result (λ place. place ≡ first_match (lowercase head.now) host_start) }
    ensures within { IfOk result (λ place. IfSome place
        (λ at. at + length host_start ≤ length head.now)) }
{
    let lower = in_lower_case(alloc, head)?;
    Ok(memmem::find(lower.bytes(), HOST_START))
}

/// The host that a head names, or nothing.
pub(crate) fn host_in(alloc: Global, head: &[u8]) -> Result<&[u8], NoMemory>
    ensures { IfOk result (λ host. host.now ≡ host_in head.now) }
{
    match host_place(alloc, head)? {
        Some(place) => {
            let behind = head.split_at(place + HOST_START.len()).1;
            Ok(trim(front_line(behind)))
        }
        None => Ok(&[]),
    }
}

// Whether the line is for this host.
fn is_for(line: &InterceptLine, host: &[u8]) -> bool
    ensures { result ≡ is_for host.now line.now }
{
    line.site.bytes().eq_ignore_ascii_case(host)
}

/// The first of the lines that is for this host.
pub(crate) fn first_for<'a>(lines: &'a [InterceptLine], host: &[u8]) -> Option<&'a InterceptLine>
    ensures { option_copied result ≡ find (is_for host.now) lines.now }
{
    lines.iter().find(|line| is_for(line, host))
}
