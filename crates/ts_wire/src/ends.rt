//! Where a request ends, read off the spans of its head with no memory.
ghost use Rattle.std.specs.Prelude.{◌≡◌, All, codes, fold, length, map};
ghost use Rattle.http_header.specs.Token.{lowercase};
ghost use Rattle.httparse.specs.Grammar as grammar;
ghost use Rattle.httparse.specs.Spans.{span_bytes, IsHeaderWithin, IsRequestAt, IsRequestWithin};
ghost use Rattle.ts_wire.specs.FieldList.{count_named, is_named, members_in, value_in};
ghost use Rattle.ts_wire.specs.Framing.{add_coding, add_length, coding_named, length_named};
ghost use Rattle.ts_wire.specs.Heads.{span_field};
ghost use Rattle.ts_wire.specs.RequestEnds.{end_by, end_of_request, is_addressed, upload_of};

use crate::check::{has_form, has_wrong_hosts};
use crate::framing::{ContentLength, Framing, TransferCoding};
use crate::values::{eq_ignore_case, trim};
use httparse::spans::{HeaderSpan, RequestSpans};

/// Where a request ends.
#[derive(Clone, Copy)]
pub enum RequestEnd {
    /// So many bytes behind its head.
    Sized(u64),
    /// With its last chunk and their trailer section.
    Chunked,
    /// Its head announces a body that is not passed on: nobody looks where that ends.
    Unknown,
}

impl RequestEnd {
    /// Where the body of such a request ends, if it has one.
    pub fn upload(self) -> Option<Framing>
        ensures { result ≡ upload_of self }
    {
        match self {
            RequestEnd::Sized(0) => None,
            RequestEnd::Sized(n) => Some(Framing::Sized(n)),
            RequestEnd::Chunked => Some(Framing::Chunked),
            RequestEnd::Unknown => None,
        }
    }
}

/// Whether the name that the header's span covers is this one, which is in lower case.
fn is_named_at(text: &[u8], header: HeaderSpan, name: &[u8]) -> bool
    requires within { IsHeaderWithin (length text.now) header }
    requires lower { lowercase name.now ≡ name.now }
    ensures { result ≡ is_named name.now (span_field text.now header) }
{
    eq_ignore_case(header.name.of(text), name)
}

/// How many Host fields the spans cover.
fn count_hosts(text: &[u8], headers: &[HeaderSpan]) -> usize
    requires { All (IsHeaderWithin (length text.now)) headers.now }
    ensures { result ≡ count_named (codes "host") (map (span_field text.now) headers.now) }
{
    let mut hosts = 0;
    for header in headers {
        if is_named_at(text, *header, b"host") {
            hosts += 1;
        }
    }
    hosts
}

impl ContentLength {
    fn add_at(self, text: &[u8], header: HeaderSpan) -> ContentLength
        requires { IsHeaderWithin (length text.now) header }
        ensures { result ≡ fold add_length self
            (members_in (codes "content-length") (span_field text.now header)) }
    {
        if is_named_at(text, header, b"content-length") {
            self.add_members(header.value.of(text))
        } else {
            self
        }
    }
}

impl TransferCoding {
    fn add_at(self, text: &[u8], header: HeaderSpan) -> TransferCoding
        requires { IsHeaderWithin (length text.now) header }
        ensures { result ≡ fold add_coding self
            (value_in (codes "transfer-encoding") (span_field text.now header)) }
    {
        if is_named_at(text, header, b"transfer-encoding") {
            self.add(trim(header.value.of(text)))
        } else {
            self
        }
    }
}

/// What the Content-Length fields come to that the spans cover.
fn lengths_at(text: &[u8], headers: &[HeaderSpan]) -> ContentLength
    requires { All (IsHeaderWithin (length text.now)) headers.now }
    ensures { result ≡ length_named (map (span_field text.now) headers.now) }
{
    let mut length = ContentLength::Absent;
    for header in headers {
        length = length.add_at(text, *header);
    }
    length
}

/// What the Transfer-Encoding fields come to that the spans cover.
fn codings_at(text: &[u8], headers: &[HeaderSpan]) -> TransferCoding
    requires { All (IsHeaderWithin (length text.now)) headers.now }
    ensures { result ≡ coding_named (map (span_field text.now) headers.now) }
{
    let mut coding = TransferCoding::Absent;
    for header in headers {
        coding = coding.add_at(text, *header);
    }
    coding
}

/// Whether the request check takes a request with this method and target, but for its body.
fn is_addressed(
    method: &[u8],
    target: &[u8],
    minor: u8,
    text: &[u8],
    headers: &[HeaderSpan],
) -> bool
    requires { All (IsHeaderWithin (length text.now)) headers.now }
    ensures { result ≡ is_addressed method.now target.now minor (map (span_field text.now) headers.now) }
{
    if method == b"CONNECT".as_slice() {
        return false;
    }
    !has_wrong_hosts(minor, count_hosts(text, headers)) && has_form(method, target)
}

fn end_by(addressed: bool, minor: u8, coding: TransferCoding, length: ContentLength) -> RequestEnd
    ensures { result ≡ end_by addressed minor coding length }
{
    match (coding, length) {
        (TransferCoding::Absent, ContentLength::Absent) => RequestEnd::Sized(0),
        (TransferCoding::Absent, ContentLength::Valid(n)) if n == 0 || addressed => {
            RequestEnd::Sized(n)
        }
        (TransferCoding::Chunked, ContentLength::Absent) if addressed && minor == 1 => {
            RequestEnd::Chunked
        }
        _ => RequestEnd::Unknown,
    }
}

/// Where the request ends whose head these spans cover in the text.
pub fn request_end(text: &[u8], headers: &[HeaderSpan], spans: &RequestSpans) -> RequestEnd
    requires { IsRequestWithin text.now headers.now spans.now }
    ensures { (h : grammar.RequestHead) → IsRequestAt text.now headers.now spans.now h
        → result ≡ end_of_request h }
{
    let headers = headers.split_at(spans.headers).0;
    let addressed = is_addressed(
        spans.method.of(text),
        spans.path.of(text),
        spans.version,
        text,
        headers,
    );
    end_by(
        addressed,
        spans.version,
        codings_at(text, headers),
        lengths_at(text, headers),
    )
}
