//! Where the body of a message ends, read off the fields of its head.
ghost use Rattle.std.specs.Prelude.{◌≡◌, ◌&&◌, ◌^◌, ◌+◌, ◌*◌, Some, None, fold, length, codes, if◌then◌else◌, nat_lt, nat_le};
ghost use Rattle.std.specs.List.{list_all};
ghost use Rattle.std.specs.Char.{is_ascii_digit};
ghost use Rattle.std.specs.Str.Parse.{digits_value};
ghost use Rattle.ts_wire.specs.Values.{members};
ghost use Rattle.ts_wire.specs.FieldList.{members_in, value_in};
ghost use Rattle.ts_wire.specs.Framing.{is_length, is_chunked, add_length, add_coding, number_in, length_named, coding_named, has_no_body, framing_by, framing};

use crate::fields::{Field, Fields};
use crate::heads::ResponseHead;
use crate::values::{eq_ignore_case, is_comma, is_named, trim, value_of};

/// The greatest length that a body may have.
pub const MAX_BODY: u64 = 9223372036854775807;

/// Where the body of a message ends (RFC 9112, section 6.3).
#[derive(Clone, Copy)]
pub enum Framing {
    /// There is no body.
    Nothing,
    /// After this many bytes.
    Sized(u64),
    /// After the last of its chunks and their trailer section.
    Chunked,
    /// Where the connection is closed.
    UntilClose,
    /// The head does not say it in a way that this project takes.
    Faulty,
}

/// What the Content-Length fields of a message come to.
#[derive(Clone, Copy)]
pub enum ContentLength {
    /// There is none.
    Absent,
    /// Their members are all this length.
    Valid(u64),
    /// A member is no length, or two differ.
    Faulty,
}

/// What the Transfer-Encoding fields of a message come to.
#[derive(Clone, Copy)]
pub enum TransferCoding {
    /// There is none.
    Absent,
    /// There is one field, which says `chunked`.
    Chunked,
    /// They say something else.
    Other,
}

/// The number that the digits write, if they are digits and a `u64` holds it.
fn number_of(digits: &[u8]) -> Option<u64>
    ensures { result ≡ number_in digits.now }
{
    if digits.is_empty() {
        return None;
    }
    let mut n: u64 = 0;
    for b in digits {
        if !b.is_ascii_digit() {
            return None;
        }
        n = n.checked_mul(10)?.checked_add(u64::from(*b - b'0'))?;
    }
    Some(n)
}

/// The length that a member of a Content-Length field says.
fn length_at(member: &[u8]) -> Option<u64>
    ensures { result ≡ (if is_length member.now then Some (digits_value 10 member.now) else None) }
{
    match number_of(member) {
        Some(n) if n <= MAX_BODY => Some(n),
        _ => None,
    }
}

fn is_chunked(value: &[u8]) -> bool
    ensures { result ≡ is_chunked value.now }
{
    eq_ignore_case(value, b"chunked")
}

impl ContentLength {
    fn add(self, member: &[u8]) -> ContentLength
        ensures { result ≡ add_length self member.now }
    {
        match (self, length_at(member)) {
            (ContentLength::Absent, Some(n)) => ContentLength::Valid(n),
            (ContentLength::Valid(seen), Some(n)) if n == seen => self,
            _ => ContentLength::Faulty,
        }
    }

    /// What the fields come to with the members of this value more.
    pub fn add_members(mut self, value: &[u8]) -> ContentLength
        ensures { result ≡ fold add_length self (members value.now) }
    {
        for part in value.split(|b| is_comma(*b)) {
            self = self.add(trim(part));
        }
        self
    }

    fn add_field(self, field: &Field) -> ContentLength
        ensures { result ≡ fold add_length self (members_in (codes "content-length") field.now) }
    {
        if is_named(field, b"content-length") {
            self.add_members(field.value.as_bytes())
        } else {
            self
        }
    }
}

impl TransferCoding {
    /// What the fields come to with this value more, around which there are no spaces or tabs.
    pub fn add(self, value: &[u8]) -> TransferCoding
        ensures { result ≡ add_coding self value.now }
    {
        match self {
            TransferCoding::Absent if is_chunked(value) => TransferCoding::Chunked,
            _ => TransferCoding::Other,
        }
    }

    fn add_field(self, field: &Field) -> TransferCoding
        ensures { result ≡ fold add_coding self (value_in (codes "transfer-encoding") field.now) }
    {
        if is_named(field, b"transfer-encoding") {
            self.add(value_of(field))
        } else {
            self
        }
    }
}

/// What the Content-Length fields come to.
pub fn length_of(fields: &Fields) -> ContentLength
    ensures { result ≡ length_named fields.now }
{
    let mut length = ContentLength::Absent;
    for field in fields.items() {
        length = length.add_field(field);
    }
    length
}

/// What the Transfer-Encoding fields come to.
pub fn coding_of(fields: &Fields) -> TransferCoding
    ensures { result ≡ coding_named fields.now }
{
    let mut coding = TransferCoding::Absent;
    for field in fields.items() {
        coding = coding.add_field(field);
    }
    coding
}

// The statuses beside 1xx of a response that has no body (RFC 9110, sections 15.3.5 and 15.4.5).
const NO_CONTENT: u16 = 204;

const NOT_MODIFIED: u16 = 304;

fn has_no_body(status: u16, to_head: bool) -> bool
    ensures { result ≡ has_no_body status to_head }
{
    to_head || status / 100 == 1 || status == NO_CONTENT || status == NOT_MODIFIED
}

fn framing_by(minor: u8, coding: TransferCoding, length: ContentLength) -> Framing
    ensures { result ≡ framing_by minor coding length }
{
    match coding {
        TransferCoding::Chunked if minor != 0 => Framing::Chunked,
        TransferCoding::Chunked => Framing::Faulty,
        TransferCoding::Other => Framing::Faulty,
        TransferCoding::Absent => match length {
            ContentLength::Absent => Framing::UntilClose,
            ContentLength::Valid(n) => Framing::Sized(n),
            ContentLength::Faulty => Framing::Faulty,
        },
    }
}

/// Where the body of a response ends. `to_head` says that the request was a HEAD.
pub fn framing_of(head: &ResponseHead, to_head: bool) -> Framing
    ensures { result ≡ framing head.now.status head.now.minor head.now.fields to_head }
{
    if has_no_body(head.status, to_head) {
        return Framing::Nothing;
    }
    framing_by(head.minor, coding_of(&head.fields), length_of(&head.fields))
}
