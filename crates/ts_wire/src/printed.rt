//! Prints the heads that are sent on: each is one head, and is read back as what it was printed from.
ghost use Rattle.std.specs.Prelude.{◌≡◌, ◌<◌, ◌≤◌, ◌+◌, ◌-◌, ◌*◌, ◌/◌, ◌%◌, ◌++◌, ◌∷◌, [], List, ℕ, length, nat_lt, decimal, codes, flat_map, IfOk, OnOk, IfSome};
ghost use Rattle.std.specs.List.{list_all, list_any};
ghost use Rattle.httparse.specs.Ascii.{crlf_bytes};
ghost use Rattle.ts_wire.specs.Blank.{SentEndsBlank};
ghost use Rattle.ts_wire.specs.Limits.{framing_limit, status_limit};
ghost use Rattle.ts_wire.specs.FieldList.{is_named};
ghost use Rattle.ts_wire.specs.Check.{is_absolute};
ghost use Rattle.ts_wire.specs.OneHead.{SendsOneRequest, SendsOneUpload, ForwardsUnchanged, SendsOneResponse, ForwardsPlainly};
ghost use Rattle.ts_wire.specs.Printed.{field_text, fields_text, via_line, status_text, is_ascii_byte, reason_text, framing_line, client_text, host_text, request_field_text, missing_host_text, origin_text, with_framing};

use crate::check::is_absolute;
use crate::fields::{Field, Fields};
use crate::heads::RequestHead;
use crate::values::is_named;
use std::alloc::Global;
use ts_link::{NoMemory, Octets};

// The bytes below it are ASCII.
const ASCII_END: u8 = 128;

// How many bytes CR LF has.
const LINE_END: usize = 2;

// The room that a head is given first, in bytes; most heads fit.
const HEAD_ROOM: usize = 512;

/// What the head that the client gets says of the end of the body.
#[derive(Clone, Copy)]
pub enum ClientFraming {
    /// There is no body, or its length is not told.
    Nothing,
    /// It has this many bytes.
    Sized(u64),
    /// It comes in chunks.
    Chunked,
    /// It ends where the connection is closed.
    Close,
}

fn add_field(out: &mut Vec<u8>, field: &Field) -> Result<(), NoMemory>
    ensures { OnOk result (out.new.items ≡ out.old.items ++ field_text field.now) }
{
    out.extend_from_slice(field.name.as_bytes())?;
    out.extend_from_slice(b": ")?;
    out.extend_from_slice(field.value.as_bytes())?;
    out.extend_from_slice(b"\r\n")?;
    Ok(())
}

fn add_fields(out: &mut Vec<u8>, fields: &[Field]) -> Result<(), NoMemory>
    ensures { OnOk result (out.new.items ≡ out.old.items ++ fields_text fields.now) }
{
    for field in fields {
        add_field(out, field)?;
    }
    Ok(())
}

/// The line that says which version a head came in.
fn via_of(via: Option<u8>) -> &'static [u8]
    ensures { result.now ≡ via_line via }
{
    match via {
        None => b"",
        Some(0) => b"via: 1.0 tsx\r\n",
        Some(_) => b"via: 1.1 tsx\r\n",
    }
}

fn status_digits(status: u16) -> [u8; 3]
    requires { status ≤ status_limit }
    ensures { result ≡ status_text status }
{
    [
        b'0' + (status / 100) as u8,
        b'0' + (status / 10 % 10) as u8,
        b'0' + (status % 10) as u8,
    ]
}

fn add_length(alloc: Global, out: &mut Vec<u8>, n: u64) -> Result<(), NoMemory>
    ensures { OnOk result (out.new.items ≡ out.old.items ++ framing_line (ClientFraming.Sized n)) }
{
    let digits = format!(in alloc; "{n}")?;
    add(out, b"content-length: ")?;
    add(out, digits.as_bytes())?;
    add(out, b"\r\n")?;
    Ok(())
}

fn add_framing(alloc: Global, out: &mut Vec<u8>, framing: ClientFraming) -> Result<(), NoMemory>
    ensures { OnOk result (out.new.items ≡ out.old.items ++ framing_line framing) }
{
    match framing {
        ClientFraming::Nothing | ClientFraming::Close => Ok(()),
        ClientFraming::Chunked => add(out, b"transfer-encoding: chunked\r\n"),
        ClientFraming::Sized(n) => add_length(alloc, out, n),
    }
}

fn framing_text(alloc: Global, framing: ClientFraming) -> Result<Octets, NoMemory>
    ensures { IfOk result (λ line. line ≡ framing_line framing) }
{
    let mut out = Vec::new(alloc);
    add_framing(alloc, &mut out, framing)?;
    Ok(Octets::of_vec(out))
}

/// The line that says where a body ends, if one does.
pub fn framing_line(alloc: Global, framing: ClientFraming) -> Result<Octets, NoMemory>
    ensures text { IfOk result (λ line. line ≡ framing_line framing) }
    ensures short { length (framing_line framing) ≤ framing_limit }
{
    framing_text(alloc, framing)
}

fn framed_text(alloc: Global, head: &[u8], framing: ClientFraming) -> Result<Octets, NoMemory>
    ensures { IfOk result (λ text. text ≡ with_framing head.now framing) }
{
    let (front, end) = head.split_at(head.len().saturating_sub(LINE_END));
    let mut out = Vec::from_slice(alloc, front)?;
    add_framing(alloc, &mut out, framing)?;
    add(&mut out, end)?;
    Ok(Octets::of_vec(out))
}

/// The head with this line before its last CR LF: the head of a request whose body is sent on.
pub fn with_framing(alloc: Global, head: &[u8], framing: ClientFraming) -> Result<Octets, NoMemory>
    ensures text { IfOk result (λ text. text ≡ with_framing head.now framing) }

    // Of the head of one request it is again one, whose body ends as this line says and as no other does.
    ensures one_head { IfOk result (SendsOneUpload head.now framing) }

    // The law that each head that is sent ends with its only empty line.
    ensures blank { SentEndsBlank }
{
    framed_text(alloc, head, framing)
}

fn add(out: &mut Vec<u8>, text: &[u8]) -> Result<(), NoMemory>
    ensures { OnOk result (out.new.items ≡ out.old.items ++ text.now) }
{
    out.extend_from_slice(text)?;
    Ok(())
}

fn is_ascii(bytes: &[u8]) -> bool
    ensures { result ≡ list_all is_ascii_byte bytes.now }
{
    bytes.iter().all(|b| *b < ASCII_END)
}

fn reason_of(reason: &[u8]) -> &[u8]
    ensures { result.now ≡ reason_text reason.now }
{
    if is_ascii(reason) { reason } else { &[] }
}

fn client_text(
    alloc: Global,
    status: u16,
    reason: &[u8],
    fields: &Fields,
    via: Option<u8>,
    framing: ClientFraming,
) -> Result<Octets, NoMemory>
    requires status { status ≤ status_limit }
    requires via { IfSome via (λ minor. minor ≤ 1) }
    ensures { IfOk result (λ text. text ≡ client_text status reason.now fields.now via framing) }
{
    let digits = status_digits(status);
    let mut out = Vec::with_capacity(alloc, HEAD_ROOM)?;
    add(&mut out, b"HTTP/1.1 ")?;
    add(&mut out, &digits)?;
    add(&mut out, b" ")?;
    add(&mut out, reason_of(reason))?;
    add(&mut out, b"\r\n")?;
    add_fields(&mut out, fields.items())?;
    add(&mut out, via_of(via))?;
    add_framing(alloc, &mut out, framing)?;
    add(&mut out, b"connection: close\r\n\r\n")?;
    Ok(Octets::of_vec(out))
}

/// The head that the client gets. `via` is the minor version of the origin's head, and `None` for an answer
/// of the proxy's own.
pub fn client_head(
    alloc: Global,
    status: u16,
    reason: &[u8],
    fields: &Fields,
    via: Option<u8>,
    framing: ClientFraming,
) -> Result<Octets, NoMemory>
    requires status { status ≤ status_limit }
    requires via { IfSome via (λ minor. minor ≤ 1) }
    ensures text { IfOk result (λ text. text ≡ client_text status reason.now fields.now via framing) }

    // The text is one response head, which says of the body's end what it was to say.
    ensures one_head { IfOk result (SendsOneResponse status reason.now fields.now framing) }

    // The law that the reason and the fields of a head that was read may be sent on so.
    ensures forwards { ForwardsPlainly }
{
    client_text(alloc, status, reason, fields, via, framing)
}

fn add_host(out: &mut Vec<u8>, host: &[u8]) -> Result<(), NoMemory>
    ensures { OnOk result (out.new.items ≡ out.old.items ++ host_text host.now) }
{
    add(out, b"host: ")?;
    add(out, host)?;
    add(out, b"\r\n")
}

fn add_request_field(
    out: &mut Vec<u8>,
    absolute: bool,
    host: &[u8],
    field: &Field,
) -> Result<(), NoMemory>
    ensures { OnOk result (out.new.items ≡ out.old.items ++ request_field_text absolute host.now field.now) }
{
    if absolute && is_named(field, b"host") {
        add_host(out, host)
    } else {
        add_field(out, field)
    }
}

fn add_request_fields(
    out: &mut Vec<u8>,
    absolute: bool,
    host: &[u8],
    fields: &[Field],
) -> Result<(), NoMemory>
    ensures { OnOk result (out.new.items ≡ out.old.items
        ++ flat_map (request_field_text absolute host.now) fields.now) }
{
    for field in fields {
        add_request_field(out, absolute, host, field)?;
    }
    Ok(())
}

fn has_host(fields: &[Field]) -> bool
    ensures { result ≡ list_any (is_named (codes "host")) fields.now }
{
    fields.iter().any(|field| is_named(field, b"host"))
}

fn add_missing_host(out: &mut Vec<u8>, host: &[u8], fields: &[Field]) -> Result<(), NoMemory>
    ensures { OnOk result (out.new.items ≡ out.old.items ++ missing_host_text host.now fields.now) }
{
    if has_host(fields) {
        Ok(())
    } else {
        add_host(out, host)
    }
}

fn origin_text(
    alloc: Global,
    head: &RequestHead,
    target: &[u8],
    host: &[u8],
    fields: &Fields,
) -> Result<Octets, NoMemory>
    ensures { IfOk result (λ text. text ≡ origin_text head.now.method
        (is_absolute head.now.target) head.now.minor target.now host.now fields.now) }
{
    let absolute = is_absolute(head.target.bytes());
    let mut out = Vec::with_capacity(alloc, HEAD_ROOM)?;
    add(&mut out, head.method.bytes())?;
    add(&mut out, b" ")?;
    add(&mut out, target)?;
    add(&mut out, b" HTTP/1.1\r\n")?;
    add_missing_host(&mut out, host, fields.items())?;
    add_request_fields(&mut out, absolute, host, fields.items())?;
    add(&mut out, via_of(Some(head.minor)))?;
    add(&mut out, b"connection: close\r\n\r\n")?;
    Ok(Octets::of_vec(out))
}

/// The head that the origin gets: the request's method, with this target, host and fields. For an absolute
/// target the host stands in place of the value of a Host field; where there is none, one is put first.
pub fn origin_head(
    alloc: Global,
    head: &RequestHead,
    target: &[u8],
    host: &[u8],
    fields: &Fields,
) -> Result<Octets, NoMemory>
    ensures text { IfOk result (λ text. text ≡ origin_text head.now.method
        (is_absolute head.now.target) head.now.minor target.now host.now fields.now) }

    // A request that was read and passed the check is sent as exactly one request, for its own host.
    ensures one_head { IfOk result (SendsOneRequest head.now target.now host.now fields.now) }

    // The law that this holds of the fields that are sent on with no header rule.
    ensures forwards { ForwardsUnchanged head.now }
{
    origin_text(alloc, head, target, host, fields)
}
