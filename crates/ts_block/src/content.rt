//! Which transform lines act on a response.
ghost use Rattle.std.specs.Prelude.{◌≡◌, ◌≤◌, length, codes};
ghost use Rattle.std.specs.List.{find, list_any, position_or_len};
ghost use Rattle.std.specs.Option.{option_copied};
ghost use Rattle.ts_wire.specs.FieldList.{is_named, first_value};
ghost use Rattle.ts_block.specs.Acting.{is_semicolon, media_type, is_html, is_coded, is_open, wants_html};
ghost use Rattle.ts_block.specs.Acting.{acts_on};

use ts_config::TransformLine;
use ts_wire::{Field, is_named, trim, value_of};

// The status of the responses that are transformed.
const OK: u16 = 200;

// How many bytes stand before the first `;`.
fn before_semicolon(value: &[u8]) -> usize
    ensures value { result ≡ position_or_len is_semicolon value.now }
    ensures within { result ≤ length value.now }
{
    value.iter().position(|b| *b == b';').unwrap_or(value.len())
}

// The first Content-Type field.
fn first_type(fields: &[Field]) -> Option<&Field>
    ensures { option_copied result ≡ find (is_named (codes "content-type")) fields.now }
{
    fields.iter().find(|field| is_named(field, b"content-type"))
}

/// The value of the first Content-Type field, or nothing.
fn content_type(fields: &[Field]) -> &[u8]
    ensures { result.now ≡ first_value (codes "content-type") fields.now }
{
    match first_type(fields) {
        Some(field) => value_of(field),
        None => &[],
    }
}

/// The value of Content-Type up to the first `;`.
fn media_type(fields: &[Field]) -> &[u8]
    ensures { result.now ≡ media_type fields.now }
{
    let value = content_type(fields);
    trim(value.split_at(before_semicolon(value)).0)
}

fn is_html(fields: &[Field]) -> bool
    ensures { result ≡ is_html fields.now }
{
    media_type(fields).eq_ignore_ascii_case(b"text/html")
}

// Whether a field says that the body is coded, in another way than `identity`.
fn is_coded(field: &Field) -> bool
    ensures { result ≡ is_coded field.now }
{
    is_named(field, b"content-encoding") && value_of(field) != b"identity".as_slice()
}

fn has_coding(fields: &[Field]) -> bool
    ensures { result ≡ list_any is_coded fields.now }
{
    fields.iter().any(|field| is_coded(field))
}

/// Whether transforms may act on a response at all.
fn is_open(status: u16, fields: &[Field]) -> bool
    ensures { result ≡ is_open status fields.now }
{
    status == OK && !has_coding(fields)
}

// Whether a line acts on HTML alone.
fn wants_html(line: &TransformLine) -> bool
    ensures { result ≡ wants_html line.now }
{
    match line {
        TransformLine::Append { .. } => true,
        TransformLine::Null => false,
        TransformLine::Bnull => false,
        TransformLine::Prepend { .. } => false,
        TransformLine::Map { .. } => false,
        TransformLine::Drop { .. } => false,
        TransformLine::Delay { .. } => false,
        TransformLine::Limit { .. } => false,
    }
}

/// Whether the line acts on a response with this status and these fields: status 200 and no coded body, and
/// for an append line HTML.
pub fn acts_on(status: u16, fields: &[Field], line: &TransformLine) -> bool
    ensures { result ≡ acts_on status fields.now line.now }
{
    is_open(status, fields) && (!wants_html(line) || is_html(fields))
}

/// Whether some of these lines acts on such a response.
pub(crate) fn is_acted_on(lines: &[TransformLine], status: u16, fields: &[Field]) -> bool
    ensures { result ≡ list_any (acts_on status fields.now) lines.now }
{
    lines.iter().any(|line| acts_on(status, fields, line))
}
