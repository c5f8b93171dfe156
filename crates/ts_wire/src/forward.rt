//! Which fields of a message are sent on, and which end at this hop.
ghost use Rattle.std.specs.Prelude.{◌≡◌, List, ℕ, IfOk};
ghost use Rattle.std.specs.List.{list_any};
ghost use Rattle.std.specs.Str.{str_eq_ignore_ascii_case};
ghost use Rattle.ts_wire.specs.Values.{members};
ghost use Rattle.ts_wire.specs.Forward.{is_hop, names_option, is_option, is_forwarded, forwarded};

use crate::fields::{Field, Fields};
use crate::values::{eq_ignore_case, is_comma, is_named, trim};
use std::alloc::Global;
use ts_link::NoMemory;

/// Whether the name is one of a field that ends at this hop.
pub fn is_hop(name: &[u8]) -> bool
    ensures { result ≡ is_hop name.now }
{
    name == b"connection".as_slice()
        || name == b"keep-alive".as_slice()
        || name == b"proxy-connection".as_slice()
        || name == b"te".as_slice()
        || name == b"trailer".as_slice()
        || name == b"transfer-encoding".as_slice()
        || name == b"upgrade".as_slice()
        || name == b"content-length".as_slice()
}

fn has_member(value: &[u8], name: &[u8]) -> bool
    ensures { result ≡ list_any (λ m. str_eq_ignore_ascii_case m name.now) (members value.now) }
{
    value
        .split(|b| is_comma(*b))
        .any(|part| eq_ignore_case(trim(part), name))
}

/// Whether the field is a Connection field that names the option.
fn names_option(field: &Field, option: &[u8]) -> bool
    ensures { result ≡ names_option option.now field.now }
{
    is_named(field, b"connection") && has_member(field.value.as_bytes(), option)
}

/// Whether a Connection field names it.
fn is_option(fields: &[Field], name: &[u8]) -> bool
    ensures { result ≡ is_option fields.now name.now }
{
    fields.iter().any(|field| names_option(field, name))
}

fn is_forwarded(fields: &[Field], field: &Field) -> bool
    ensures { result ≡ is_forwarded fields.now field.now }
{
    let name = field.name.as_bytes();
    !(is_hop(name) || is_option(fields, name))
}

/// The fields that are sent on: all but Connection and those that it names, the other fields that end at this
/// hop, and Content-Length.
pub fn forward_fields(alloc: Global, fields: &Fields) -> Result<Fields, NoMemory>
    ensures { IfOk result (λ kept. kept ≡ forwarded fields.now) }
{
    let all = fields.items();
    let mut kept = Fields::new(alloc);
    for field in all {
        if is_forwarded(all, field) {
            kept.push(field.copy()?)?;
        }
    }
    Ok(kept)
}
