//! How the body of a response that is passed on is framed for the client.
ghost use Rattle.std.specs.Prelude.{◌≡◌};
ghost use Rattle.ts_block.specs.Relayed.{asks_head, reads_chunks, framing_of, length_told, client_framing};
ghost use Rattle.ts_block.specs.Relayed.{kept_length, open_framing, mode_of};

use ts_wire::{
    ClientFraming, ContentLength, Fields, Framing, Mode, RequestHead, ResponseHead, TransferCoding,
    coding_of, framing_of, length_of,
};

// The status of a response without content, which tells no length (RFC 9110, section 8.6).
const NO_CONTENT: u16 = 204;

/// Whether the request is a HEAD.
pub fn asks_head(head: &RequestHead) -> bool
    ensures { result ≡ asks_head head.now }
{
    head.method.bytes() == b"HEAD".as_slice()
}

/// Whether the client reads chunks: it spoke HTTP/1.1.
pub(crate) fn reads_chunks(head: &RequestHead) -> bool
    ensures { result ≡ reads_chunks head.now }
{
    head.minor == 1
}

/// Where the body of the response ends that answers this request.
pub fn framing_between(request: &RequestHead, head: &ResponseHead) -> Framing
    ensures { result ≡ framing_of request.now head.now }
{
    framing_of(head, asks_head(request))
}

/// The valid length of a head without a transfer coding.
pub(crate) fn length_told(fields: &Fields) -> Option<u64>
    ensures { result ≡ length_told fields.now }
{
    match (coding_of(fields), length_of(fields)) {
        (TransferCoding::Absent, ContentLength::Valid(n)) => Some(n),
        _ => None,
    }
}

/// What the client's head says of the end of the body, from the framing, the status and the length of the
/// origin's; whether some line acts on the body, and whether the client reads chunks.
pub fn client_framing(
    framing: Framing,
    status: u16,
    told: Option<u64>,
    acts: bool,
    chunks: bool,
) -> ClientFraming
    ensures { result ≡ client_framing framing status told acts chunks }
{
    match framing {
        Framing::Nothing => kept_length(acts, status, told),
        Framing::Sized(n) => {
            if acts {
                open_framing(chunks)
            } else {
                ClientFraming::Sized(n)
            }
        }
        Framing::Chunked => open_framing(chunks),
        Framing::UntilClose => open_framing(chunks),
        Framing::Faulty => ClientFraming::Nothing,
    }
}

// How a response without a body is framed: it keeps the length that it tells of another one, unless a line
// would change that body.
fn kept_length(acts: bool, status: u16, told: Option<u64>) -> ClientFraming
    ensures { result ≡ kept_length acts status told }
{
    match told {
        Some(n) => {
            if status == NO_CONTENT || acts {
                ClientFraming::Nothing
            } else {
                ClientFraming::Sized(n)
            }
        }
        None => ClientFraming::Nothing,
    }
}

// How a body is framed whose length is not known before its end.
fn open_framing(chunks: bool) -> ClientFraming
    ensures { result ≡ open_framing chunks }
{
    if chunks {
        ClientFraming::Chunked
    } else {
        ClientFraming::Close
    }
}

/// How the body is written where the head says this.
pub fn mode_of(framing: ClientFraming) -> Mode
    ensures { result ≡ mode_of framing }
{
    match framing {
        ClientFraming::Chunked => Mode::Chunked,
        ClientFraming::Nothing => Mode::Plain,
        ClientFraming::Sized(_) => Mode::Plain,
        ClientFraming::Close => Mode::Plain,
    }
}
