//! The answers that the proxy makes itself.
ghost use Rattle.std.specs.Prelude.{◌≡◌, ◌≤◌, [], ◌∷◌, IfOk};
ghost use Rattle.ts_wire.specs.Limits.{status_limit};
ghost use Rattle.ts_block.specs.Own.{code_of, own_refusal, own_reason, own_body, own_sent, own_field};
ghost use Rattle.ts_block.specs.Own.{own_head};

use http_header::{HeaderName, HeaderValue};
use std::alloc::Global;
use ts_link::{NoMemory, Octets};
use ts_wire::{ClientFraming, Field, Fields, NOT_IMPLEMENTED, client_head};

/// The statuses with which the proxy answers itself (RFC 9110, sections 15.5 and 15.6).
#[derive(Clone, Copy)]
pub enum OwnStatus {
    /// 400: the request is none, or names no host or two.
    BadRequest,
    /// 403: a deny line denies the host.
    Forbidden,
    /// 501: the proxy does not serve such a request.
    NotImplemented,
    /// 502: there is no origin, or none of its responses can be passed on.
    BadGateway,
}

impl OwnStatus {
    /// The status of a refusal by the request check.
    pub fn of_refusal(status: u16) -> OwnStatus
        ensures { result ≡ own_refusal status }
    {
        if status == NOT_IMPLEMENTED {
            OwnStatus::NotImplemented
        } else {
            OwnStatus::BadRequest
        }
    }

    /// The number of the status.
    pub(crate) fn code(self) -> u16
        ensures value { result ≡ code_of self }
        ensures digits { result ≤ status_limit }
    {
        match self {
            OwnStatus::BadRequest => 400,
            OwnStatus::Forbidden => 403,
            OwnStatus::NotImplemented => 501,
            OwnStatus::BadGateway => 502,
        }
    }

    /// What the status means, as the head says it.
    pub(crate) fn reason(self) -> &'static [u8]
        ensures { result.now ≡ own_reason self }
    {
        match self {
            OwnStatus::BadRequest => b"Bad Request",
            OwnStatus::Forbidden => b"Forbidden",
            OwnStatus::NotImplemented => b"Not Implemented",
            OwnStatus::BadGateway => b"Bad Gateway",
        }
    }

    /// The body of the answer: the status, a space, the reason, LF.
    pub(crate) fn body(self) -> &'static [u8]
        ensures { result.now ≡ own_body self }
    {
        match self {
            OwnStatus::BadRequest => b"400 Bad Request\n",
            OwnStatus::Forbidden => b"403 Forbidden\n",
            OwnStatus::NotImplemented => b"501 Not Implemented\n",
            OwnStatus::BadGateway => b"502 Bad Gateway\n",
        }
    }

    /// The body that is sent: none to a HEAD request.
    pub fn sent(self, to_head: bool) -> &'static [u8]
        ensures { result.now ≡ own_sent to_head self }
    {
        if to_head { &[] } else { self.body() }
    }

    /// The head of the answer, with these fields.
    pub fn head(self, alloc: Global, fields: &Fields) -> Result<Octets, NoMemory>
        ensures { IfOk result (λ text. text ≡ own_head self fields.now) }
    {
        let framing = ClientFraming::Sized(self.body().len() as u64);
        client_head(alloc, self.code(), self.reason(), fields, None, framing)
    }
}

/// The fields of such an answer, before the header rules.
pub fn own_fields(alloc: Global) -> Result<Fields, NoMemory>
    ensures { IfOk result (λ fields. fields ≡ own_field ∷ []) }
{
    let name = HeaderName::from_static("content-type");
    let value = HeaderValue::from_static("text/plain");
    let mut fields = Fields::new(alloc);
    fields.push(Field { name, value })?;
    Ok(fields)
}
