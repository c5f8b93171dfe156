//! Reads the head of a request or a response at the front of some bytes.
ghost use Rattle.std.specs.Prelude.{◌≡◌, ◌≤◌, ℕ, List, length, map, All, IfOk};
ghost use Rattle.http_header.specs.Token.{lowercase};
ghost use Rattle.http_header.specs.FieldName.{IsFieldName};
ghost use Rattle.http_header.specs.FieldValue.{plain_value, IsFieldValue};
ghost use Rattle.httparse.specs.Grammar as grammar;
ghost use Rattle.httparse.specs.Grammar.{NeverHasRequest, NeverHasResponse};
ghost use Rattle.httparse.specs.Spans.{span_bytes, IsWithin, IsRequestWithin, IsRequestAt, IsResponseWithin, IsResponseAt};
ghost use Rattle.ts_wire.specs.Answers.{IfHead, IsHeadUnlessMemory, OnMore, OnBad, OnTooLong};
ghost use Rattle.ts_wire.specs.Heads.{span_field, IsFieldAt, IsSomeRequestAt, IsSomeResponseAt, KeepsRequest, KeepsResponse, BeginsWithRequest, BeginsWithResponse, IsRequestOf, IsResponseOf, IsOneRequest, IsOneResponse, AwaitsRequest, AwaitsResponse, IsTooLongRequest, IsTooLongResponse};
ghost use Rattle.ts_wire.specs.OneHead.{IsReadRequest, IsReadResponse};

use crate::fields::{Field, Fields};
use crate::heads::{MAX_FIELDS, MAX_HEAD, RequestHead, ResponseHead};
use crate::values::front;
use bytes::Bytes;
use http_header::{HeaderName, HeaderNameError, HeaderValue};
use httparse::spans::{
    EMPTY_HEADER_SPAN, HeaderSpan, RequestSpans, ResponseSpans, Span, parse_request, parse_response,
};
use httparse::{Error, Status};
use std::alloc::Global;
use ts_link::{NoMemory, Octets};

/// What stands at the front of some bytes.
#[derive(Drop)]
pub enum Read<H> {
    /// A head, which is the first `used` bytes.
    Head { head: H, used: usize },
    /// No head yet: more bytes may make one.
    More,
    /// No head, whatever follows.
    Bad,
    /// No head of at most 16,384 bytes and 64 fields, whatever follows.
    TooLong,
}

/// The name that the span covers. It is copied only where it is neither a standard one nor in lower case.
fn name_at(alloc: Global, text: &Bytes, span: Span) -> Result<HeaderName, NoMemory>
    requires within { IsWithin (length text.now) span }
    requires name { IsFieldName (span_bytes text.now span) }
    ensures { IfOk result (λ n. n ≡ lowercase (span_bytes text.now span)) }
{
    if let Some(name) = HeaderName::standard(span.of(text.as_slice())) {
        return Ok(name);
    }
    match HeaderName::from_shared(alloc, text.slice(span.start..span.end)?) {
        Ok(name) => Ok(name),
        Err(error) => match error {
            HeaderNameError::Invalid => unreachable!(),
            HeaderNameError::OutOfMemory => Err(NoMemory),
        },
    }
}

/// The value that the span covers, which shares the text.
fn value_at(text: &Bytes, span: Span) -> Result<HeaderValue, NoMemory>
    requires within { IsWithin (length text.now) span }
    requires value { IsFieldValue (span_bytes text.now span) }
    ensures { IfOk result (λ v. v ≡ plain_value (span_bytes text.now span)) }
{
    let value = text.slice(span.start..span.end)?;
    Ok(HeaderValue::from_known_valid(value))
}

/// The field that the spans cover.
fn field_at(alloc: Global, text: &Bytes, header: HeaderSpan) -> Result<Field, NoMemory>
    requires { IsFieldAt text.now header }
    ensures { IfOk result (λ f. f ≡ span_field text.now header) }
{
    let name = name_at(alloc, text, header.name)?;
    let value = value_at(text, header.value)?;
    Ok(Field { name, value })
}

/// The fields that the spans cover. Their values share one copy of the text.
fn fields_at(alloc: Global, text: &[u8], headers: &[HeaderSpan]) -> Result<Fields, NoMemory>
    requires { All (IsFieldAt text.now) headers.now }
    ensures { IfOk result (λ fields. fields ≡ map (span_field text.now) headers.now) }
{
    let text = Bytes::copy_from_slice(alloc, text)?;
    let mut fields = Fields::with_room(alloc, headers.len())?;
    for header in headers {
        fields.push(field_at(alloc, &text, *header)?)?;
    }
    Ok(fields)
}

/// The head of the request whose spans these are.
fn request_of(
    alloc: Global,
    text: &[u8],
    headers: &[HeaderSpan],
    spans: &RequestSpans,
) -> Result<RequestHead, NoMemory>
    requires at { IsSomeRequestAt text.now headers.now spans.now }
    requires short { length text.now ≤ MAX_HEAD }
    requires within { IsRequestWithin text.now headers.now spans.now }
    ensures { IfOk result (λ head. (h : grammar.RequestHead)
        → IsRequestAt text.now headers.now spans.now h → KeepsRequest h head) }
{
    let method = Octets::copy_of(alloc, spans.method.of(text))?;
    let target = Octets::copy_of(alloc, spans.path.of(text))?;
    let fields = fields_at(alloc, text, headers.split_at(spans.headers).0)?;
    Ok(RequestHead {
        method,
        target,
        minor: spans.version,
        fields,
    })
}

/// Reads the head of a request at the front of the bytes. It looks at the first 16,384 of them.
pub fn read_request(alloc: Global, bytes: &[u8]) -> Result<Read<RequestHead>, NoMemory>
    ensures head { IfHead result (IsRequestOf bytes.now) }
    ensures one { IfHead result (IsOneRequest bytes.now) }
    ensures read { IfHead result (λ head used. IsReadRequest head) }
    ensures found { (h : grammar.RequestHead) (rest : List ℕ) → BeginsWithRequest bytes.now h rest
        → IsHeadUnlessMemory result }
    ensures more { OnMore result (AwaitsRequest bytes.now) }
    ensures too_long { OnTooLong result (IsTooLongRequest bytes.now) }
    ensures bad { OnBad result (NeverHasRequest bytes.now) }
{
    let front = front(bytes, MAX_HEAD);
    let mut headers = [EMPTY_HEADER_SPAN; MAX_FIELDS];
    match parse_request(front, &mut headers) {
        Ok(Status::Complete(spans)) => {
            let (text, _) = front.split_at(spans.len);
            let head = request_of(alloc, text, &headers, &spans)?;
            Ok(Read::Head {
                head,
                used: spans.len,
            })
        }
        Ok(Status::Partial) => {
            if bytes.len() < MAX_HEAD {
                Ok(Read::More)
            } else {
                Ok(Read::TooLong)
            }
        }
        Err(error) => match error {
            Error::TooManyHeaders => Ok(Read::TooLong),
            _ => Ok(Read::Bad),
        },
    }
}

/// The head of the response whose spans these are.
fn response_of(
    alloc: Global,
    text: &[u8],
    headers: &[HeaderSpan],
    spans: &ResponseSpans,
) -> Result<ResponseHead, NoMemory>
    requires at { IsSomeResponseAt text.now headers.now spans.now }
    requires short { length text.now ≤ MAX_HEAD }
    requires within { IsResponseWithin text.now headers.now spans.now }
    ensures { IfOk result (λ head. (h : grammar.ResponseHead)
        → IsResponseAt text.now headers.now spans.now h → KeepsResponse h head) }
{
    let reason = Octets::copy_of(alloc, spans.reason.of(text))?;
    let fields = fields_at(alloc, text, headers.split_at(spans.headers).0)?;
    Ok(ResponseHead {
        status: spans.code,
        reason,
        minor: spans.version,
        fields,
    })
}

/// Reads the head of a response at the front of the bytes. It looks at the first 16,384 of them.
pub fn read_response(alloc: Global, bytes: &[u8]) -> Result<Read<ResponseHead>, NoMemory>
    ensures head { IfHead result (IsResponseOf bytes.now) }
    ensures one { IfHead result (IsOneResponse bytes.now) }
    ensures read { IfHead result (λ head used. IsReadResponse head) }
    ensures found { (h : grammar.ResponseHead) (rest : List ℕ) → BeginsWithResponse bytes.now h rest
        → IsHeadUnlessMemory result }
    ensures more { OnMore result (AwaitsResponse bytes.now) }
    ensures too_long { OnTooLong result (IsTooLongResponse bytes.now) }
    ensures bad { OnBad result (NeverHasResponse bytes.now) }
{
    let front = front(bytes, MAX_HEAD);
    let mut headers = [EMPTY_HEADER_SPAN; MAX_FIELDS];
    match parse_response(front, &mut headers) {
        Ok(Status::Complete(spans)) => {
            let (text, _) = front.split_at(spans.len);
            let head = response_of(alloc, text, &headers, &spans)?;
            Ok(Read::Head {
                head,
                used: spans.len,
            })
        }
        Ok(Status::Partial) => {
            if bytes.len() < MAX_HEAD {
                Ok(Read::More)
            } else {
                Ok(Read::TooLong)
            }
        }
        Err(error) => match error {
            Error::TooManyHeaders => Ok(Read::TooLong),
            _ => Ok(Read::Bad),
        },
    }
}
