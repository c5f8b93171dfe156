//! The head of a client's next request, found at the front of its bytes with no memory.
ghost use Rattle.std.specs.Prelude.{◌≡◌, ◌==◌, ◌≤◌, ◌&&◌, ◌||◌, All, codes, length, map, not};
ghost use Rattle.std.specs.List.{list_any};
ghost use Rattle.std.specs.Str.{str_eq_ignore_ascii_case};
ghost use Rattle.http_header.specs.Token.{lowercase};
ghost use Rattle.httparse.specs.Spans.{IsHeaderWithin};
ghost use Rattle.ts_wire.specs.FieldList.{is_named};
ghost use Rattle.ts_wire.specs.Forward.{is_option, names_option};
ghost use Rattle.ts_wire.specs.Heads.{span_field};
ghost use Rattle.ts_wire.specs.Limits.{head_limit};
ghost use Rattle.ts_wire.specs.Values.{is_comma, members};
ghost use Rattle.ts_session.specs.Finding.{IsFound};

use httparse::Status;
use httparse::spans::{EMPTY_HEADER_SPAN, HeaderSpan, parse_request};
use ts_wire::{MAX_FIELDS, MAX_HEAD, RequestEnd, request_end, trim};

// A head of so many bytes, and what it says: where the request ends, whether its client lets the connection
// go on, and whether it asks for the head of an answer alone.
#[derive(Clone, Copy)]
pub(crate) struct FoundHead {
    pub used: usize,
    pub end: RequestEnd,
    pub persists: bool,
    pub asks_head: bool,
}

// What the first bytes of a client say of its next request.
#[derive(Clone, Copy)]
pub(crate) enum Found {
    // Not yet whether it has a head.
    More,
    // It has none, whatever follows.
    Never,
    Head(FoundHead),
}

fn is_comma(b: u8) -> bool
    ensures { result ≡ is_comma b }
{
    b == b','
}

// Whether the member is this one, in any letter case.
fn is_same_member(member: &[u8], name: &[u8]) -> bool
    ensures { result ≡ str_eq_ignore_ascii_case member.now name.now }
{
    member.eq_ignore_ascii_case(name)
}

// Whether the value has this member, in any letter case.
fn has_member(value: &[u8], name: &[u8]) -> bool
    ensures { result ≡ list_any (λ m. str_eq_ignore_ascii_case m name.now) (members value.now) }
{
    value
        .split(|b| is_comma(*b))
        .any(|part| is_same_member(trim(part), name))
}

// Whether the name that the header's span covers is this one, which is in lower case.
fn is_named_at(text: &[u8], header: HeaderSpan, name: &[u8]) -> bool
    requires within { IsHeaderWithin (length text.now) header }
    requires lower { lowercase name.now ≡ name.now }
    ensures { result ≡ is_named name.now (span_field text.now header) }
{
    is_same_member(header.name.of(text), name)
}

// Whether the header that the spans cover is a Connection header with the member `close`.
fn says_close(text: &[u8], header: HeaderSpan) -> bool
    requires { IsHeaderWithin (length text.now) header }
    ensures { result ≡ names_option (codes "close") (span_field text.now header) }
{
    is_named_at(text, header, b"connection") && has_member(header.value.of(text), b"close")
}

fn is_either(a: bool, b: bool) -> bool
    ensures { result ≡ a || b }
{
    a || b
}

// Whether a client lets the connection go on that speaks this minor version and says, or not, that it closes.
fn persists(minor: u8, closes: bool) -> bool
    ensures { result ≡ (minor == 1) && not closes }
{
    minor == 1 && !closes
}

// Whether a Connection header has the member `close`.
fn says_any_close(text: &[u8], headers: &[HeaderSpan]) -> bool
    requires { All (IsHeaderWithin (length text.now)) headers.now }
    ensures { result ≡ is_option (map (span_field text.now) headers.now) (codes "close") }
{
    let mut closes = false;
    for header in headers {
        closes = is_either(closes, says_close(text, *header));
    }
    closes
}

// Looks for the head of a request.
pub(crate) fn find_request(bytes: &[u8]) -> Found
    requires { length bytes.now ≤ head_limit }
    ensures { IsFound bytes.now result }
{
    let mut headers = [EMPTY_HEADER_SPAN; MAX_FIELDS];
    match parse_request(bytes, &mut headers) {
        Ok(Status::Complete(spans)) => {
            let fields = headers.split_at(spans.headers).0;
            Found::Head(FoundHead {
                used: spans.len,
                end: request_end(bytes, &headers, &spans),
                persists: persists(spans.version, says_any_close(bytes, fields)),
                asks_head: spans.method.of(bytes) == b"HEAD".as_slice(),
            })
        }
        Ok(Status::Partial) => {
            if bytes.len() < MAX_HEAD {
                Found::More
            } else {
                Found::Never
            }
        }
        Err(_) => Found::Never,
    }
}
