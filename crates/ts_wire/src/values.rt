//! The text of a field's value: trimming, letter case, and the members of a list.
ghost use Rattle.std.specs.Prelude.{◌≡◌, ◌≤◌, length, min, take, reverse, bytes_eq};
ghost use Rattle.std.specs.Str.{str_eq_ignore_ascii_case};
ghost use Rattle.httparse.specs.Grammar.{skip_ows, trim_ows};
ghost use Rattle.ts_wire.specs.FieldList.{is_named, value_of};
ghost use Rattle.ts_wire.specs.Values.{is_comma};

use crate::fields::Field;
use httparse::is_space_or_tab;

fn trim_start(mut s: &[u8]) -> &[u8]
    ensures { result.now ≡ skip_ows s.entry.now }
{
    while let [first, rest @ ..] = s
        && is_space_or_tab(*first)
    {
        s = rest;
    }
    s
}

fn trim_end(mut s: &[u8]) -> &[u8]
    ensures { result.now ≡ reverse (skip_ows (reverse s.entry.now)) }
{
    while let [rest @ .., last] = s
        && is_space_or_tab(*last)
    {
        s = rest;
    }
    s
}

/// The bytes without the spaces and tabs at both ends.
pub fn trim(s: &[u8]) -> &[u8]
    ensures { result.now ≡ trim_ows s.now }
{
    trim_end(trim_start(s))
}

/// Whether the byte ends a member of a list.
pub(crate) fn is_comma(b: u8) -> bool
    ensures { result ≡ is_comma b }
{
    b == b','
}

/// Whether the bytes are equal but for letter case.
pub(crate) fn eq_ignore_case(a: &[u8], b: &[u8]) -> bool
    ensures { result ≡ str_eq_ignore_ascii_case a.now b.now }
{
    a.eq_ignore_ascii_case(b)
}

/// Whether the field has this name, which is in lower case.
pub fn is_named(field: &Field, name: &[u8]) -> bool
    ensures { result ≡ is_named name.now field.now }
{
    field.name.as_bytes() == name
}

/// The field's value without the spaces and tabs around it.
pub fn value_of(field: &Field) -> &[u8]
    ensures { result.now ≡ value_of field.now }
{
    trim(field.value.as_bytes())
}

/// The first n of the bytes, or all of them.
pub(crate) fn front(bytes: &[u8], n: usize) -> &[u8]
    ensures value { result.now ≡ take n bytes.now }
    ensures len { length result.now ≡ min n (length bytes.now) }
{
    if n < bytes.len() {
        bytes.split_at(n).0
    } else {
        bytes
    }
}
