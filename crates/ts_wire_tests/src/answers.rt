//! What is answered to the input of a row. Each helper borrows what it asks about, and owns one value.
ghost use Rattle.std.specs.Prelude.{◌≢◌};
ghost use Rattle.ts_wire.specs.declared.framing.Framing.{Framing};

use std::alloc::Global;
use ts_link::{NoMemory, Octets};
use ts_wire::{
    BodyEnd, BodyReader, BodyState, ClientFraming, Fields, Framing, Read, RequestHead,
    ResponseHead, Verdict, check_request, client_head, forward_fields, framing_of, origin_head,
    read_request, read_response,
};

/// What the rows of a table ask.
#[derive(Clone, Copy)]
pub(crate) enum Inquiry {
    /// How the check takes the request: the target, a blank and the host; a status; or why there is no head.
    Check,
    /// The head that the origin gets of the request, or nothing.
    Sent,
    /// How the check takes the head that the origin gets of the request, as `Check` tells it.
    SentAgain,
    /// Where the body of the response ends, or why there is no head. `true`: it answers a HEAD.
    Ends(bool),
    /// The head that the client gets of the response, where it says this of the body, or nothing.
    Relayed(ClientFraming),
    /// The body of the bytes with this framing: how it ends, a blank, and the body.
    Body(Framing),
}

/// What is answered to the input of a row.
pub(crate) fn answer(alloc: Global, asked: Inquiry, input: &[u8]) -> Result<Octets, NoMemory> {
    match asked {
        Inquiry::Check => checked(alloc, input),
        Inquiry::Sent => sent(alloc, input),
        Inquiry::SentAgain => checked_again(alloc, input),
        Inquiry::Ends(to_head) => ends(alloc, input, to_head),
        Inquiry::Relayed(framing) => relayed(alloc, input, framing),
        Inquiry::Body(framing) => body(alloc, input, framing),
    }
}

/// Why there is no head, in a word.
fn lack<H>(read: &Read<H>) -> &'static [u8] {
    match read {
        Read::Head { .. } => b"head",
        Read::More => b"more",
        Read::Bad => b"bad",
        Read::TooLong => b"too long",
    }
}

fn checked(alloc: Global, bytes: &[u8]) -> Result<Octets, NoMemory> {
    let read = read_request(alloc, bytes)?;
    match &read {
        Read::Head { head, used: _ } => verdict_on(alloc, head),
        _ => Octets::copy_of(alloc, lack(&read)),
    }
}

fn checked_again(alloc: Global, bytes: &[u8]) -> Result<Octets, NoMemory> {
    let text = sent(alloc, bytes)?;
    checked(alloc, text.bytes())
}

fn verdict_on(alloc: Global, head: &RequestHead) -> Result<Octets, NoMemory> {
    let verdict = check_request(alloc, head)?;
    match &verdict {
        Verdict::Pass { target, host } => two_words(alloc, target.bytes(), host.bytes()),
        Verdict::Refuse(status) => number(alloc, b"", u64::from(*status)),
    }
}

/// Both, with a blank between them.
fn two_words(alloc: Global, first: &[u8], second: &[u8]) -> Result<Octets, NoMemory> {
    let mut text = Vec::from_slice(alloc, first)?;
    text.push(b' ')?;
    text.extend_from_slice(second)?;
    Ok(Octets::of_vec(text))
}

/// The number behind a word.
fn number(alloc: Global, word: &[u8], number: u64) -> Result<Octets, NoMemory> {
    let digits = format!(in alloc; "{number}")?;
    let mut text = Vec::from_slice(alloc, word)?;
    text.extend_from_slice(digits.as_bytes())?;
    Ok(Octets::of_vec(text))
}

fn sent(alloc: Global, bytes: &[u8]) -> Result<Octets, NoMemory> {
    let read = read_request(alloc, bytes)?;
    match &read {
        Read::Head { head, used: _ } => sent_head(alloc, head),
        _ => Octets::copy_of(alloc, b""),
    }
}

fn sent_head(alloc: Global, head: &RequestHead) -> Result<Octets, NoMemory> {
    let verdict = check_request(alloc, head)?;
    match &verdict {
        Verdict::Pass { target, host } => sent_to(alloc, head, target, host),
        Verdict::Refuse(_) => Octets::copy_of(alloc, b""),
    }
}

fn sent_to(
    alloc: Global,
    head: &RequestHead,
    target: &Octets,
    host: &Octets,
) -> Result<Octets, NoMemory> {
    let fields = forward_fields(alloc, &head.fields)?;
    origin_head(alloc, head, target.bytes(), host.bytes(), &fields)
}

fn ends(alloc: Global, bytes: &[u8], to_head: bool) -> Result<Octets, NoMemory> {
    let read = read_response(alloc, bytes)?;
    match &read {
        Read::Head { head, used: _ } => framing_name(alloc, framing_of(head, to_head)),
        _ => Octets::copy_of(alloc, lack(&read)),
    }
}

fn framing_name(alloc: Global, framing: Framing) -> Result<Octets, NoMemory> {
    match framing {
        Framing::Nothing => Octets::copy_of(alloc, b"nothing"),
        Framing::Sized(n) => number(alloc, b"sized ", n),
        Framing::Chunked => Octets::copy_of(alloc, b"chunked"),
        Framing::UntilClose => Octets::copy_of(alloc, b"until close"),
        Framing::Faulty => Octets::copy_of(alloc, b"faulty"),
    }
}

fn relayed(alloc: Global, bytes: &[u8], framing: ClientFraming) -> Result<Octets, NoMemory> {
    let read = read_response(alloc, bytes)?;
    match &read {
        Read::Head { head, used: _ } => relayed_head(alloc, head, framing),
        _ => Octets::copy_of(alloc, b""),
    }
}

fn relayed_head(
    alloc: Global,
    head: &ResponseHead,
    framing: ClientFraming,
) -> Result<Octets, NoMemory> {
    let fields = forward_fields(alloc, &head.fields)?;
    printed(alloc, head, &fields, framing)
}

fn printed(
    alloc: Global,
    head: &ResponseHead,
    fields: &Fields,
    framing: ClientFraming,
) -> Result<Octets, NoMemory> {
    let reason = head.reason.bytes();
    client_head(
        alloc,
        head.status,
        reason,
        fields,
        Some(head.minor),
        framing,
    )
}

/// The body by its bytes one at a time, if it is the same however they are cut.
fn body(alloc: Global, bytes: &[u8], framing: Framing) -> Result<Octets, NoMemory> {
    if let Framing::Faulty = framing {
        return Octets::copy_of(alloc, b"faulty");
    }
    let answer = body_by(alloc, bytes, framing, 1)?;
    for most in [2, 20_000] {
        if !is_body_by(alloc, bytes, framing, most, answer.bytes())? {
            return Octets::copy_of(alloc, b"differs by the cut");
        }
    }
    Ok(answer)
}

fn is_body_by(
    alloc: Global,
    bytes: &[u8],
    framing: Framing,
    most: usize,
    want: &[u8],
) -> Result<bool, NoMemory>
    requires { framing ≢ Framing.Faulty }
{
    let got = body_by(alloc, bytes, framing, most)?;
    Ok(got.bytes() == want)
}

/// The body of the bytes, of which so many at most are fed at once.
fn body_by(alloc: Global, bytes: &[u8], framing: Framing, most: usize) -> Result<Octets, NoMemory>
    requires { framing ≢ Framing.Faulty }
{
    let mut reader = BodyReader::make(alloc, framing)?;
    let body = fed(alloc, &mut reader, bytes, most)?;
    let end = end_name(&reader);
    if body.bytes().is_empty() {
        Octets::copy_of(alloc, end)
    } else {
        two_words(alloc, end, body.bytes())
    }
}

/// The body of the bytes, fed in pieces of so many.
fn fed(
    alloc: Global,
    reader: &mut BodyReader,
    bytes: &[u8],
    most: usize,
) -> Result<Octets, NoMemory> {
    let mut body = Vec::new(alloc);
    let mut rest = bytes;
    for _ in 0..bytes.len() {
        let (piece, _) = rest.split_at(rest.len().min(most));
        let fed = reader.feed(piece);
        body.extend_from_slice(&piece[fed.from..fed.to])?;
        rest = rest.split_at(fed.taken).1;
    }
    Ok(Octets::of_vec(body))
}

/// How the body ends where no byte follows.
fn end_name(reader: &BodyReader) -> &'static [u8] {
    match reader.state() {
        BodyState::Bad => b"bad",
        BodyState::Ended => b"ended",
        BodyState::Unfinished => match reader.finish() {
            BodyEnd::Ended => b"open",
            BodyEnd::Cut => b"cut",
        },
    }
}
