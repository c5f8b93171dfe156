//! What is left of a transaction in a session, whose client's link shows one request of its connection: the
//! connection goes on behind it, or it was the last.

ghost use Rattle.std.specs.Prelude.{◌≡◌, ◌↔◌, IsTrue, Some, true};
ghost use Rattle.ts_hooks.specs.declared.txn_end.TxnEnd.TheVariants as TxnEnd;
ghost use Rattle.ts_layers.specs.Sessions.{IsLastClient, IsLeftOf, MayGoOn, shown, spanned_if, unspanned_if};
ghost use Rattle.ts_layers.specs.Sessions.{with_client, without_client};
ghost use Rattle.ts_session.specs.Course.{is_dropped};
ghost use Rattle.ts_session.specs.Session.{MayContinue};

use ts_hooks::TxnEnd;
use ts_link::Sourced;
use ts_session::{Span, Spanned};
use ts_txn::TxnParts;
use ts_wire::Mode;

/// What is left of a transaction beside its client.
#[derive(Drop)]
pub struct EndedParts<O> {
    /// The number that it was made with.
    pub number: u64,
    /// The origin's link, if there is one.
    pub origin: Option<O>,
    /// The length of the client's head in bytes, 0 where none was queued.
    pub head: u64,
    /// How the client's body is written.
    pub mode: Mode,
    /// How many faults the client's link had met when the transaction was made.
    pub client_faults: u64,
    /// The same of the origin's link, 0 without an origin.
    pub origin_faults: u64,
    /// The lengths of the pieces of body that were framed, in bytes.
    pub cuts: Vec<u32>,
    /// How the transaction ended, if it has.
    pub end: Option<TxnEnd>,
}

/// What is left of a transaction in a session.
#[derive(Drop)]
pub enum SessionLeft<C: Sourced, O> {
    /// Its connection goes on: the span of the next request, and what is left beside it.
    GoesOn { next: Span<C>, parts: EndedParts<O> },
    /// It was the last of its connection.
    Ends(TxnParts<C, O>),
}

/// The link to an origin, if there is one, whose client is shown by a span.
pub fn spanned<O>(origin: Option<O>) -> Option<Spanned<O>>
    ensures { result ≡ spanned_if origin }
{
    match origin {
        Some(origin) => Some(Spanned::make(origin)),
        None => None,
    }
}

// The origin inside, if there is one.
fn unspanned<O>(origin: Option<Spanned<O>>) -> Option<O>
    ensures { result ≡ unspanned_if origin }
{
    match origin {
        Some(origin) => Some(origin.into_origin()),
        None => None,
    }
}

// Whether a transaction ended whole.
fn is_whole(end: &Option<TxnEnd>) -> bool
    ensures { IsTrue result ↔ (end.now ≡ Some TxnEnd.Whole) }
{
    matches!(end, Some(TxnEnd::Whole))
}

// Whether the connection goes on behind a transaction: it ended whole, and the line that closes the
// connection was dropped from its response.
fn may_go_on<C: Sourced + Drop, O: Drop>(parts: &TxnParts<Span<C>, Spanned<O>>) -> bool
    ensures { IsTrue result ↔ MayGoOn parts.now }
{
    is_whole(&parts.end) && parts.client.may_continue()
}

// Of a span from whose response the line was dropped it is known why. This is for contracts alone.
fn known_rule<C: Sourced + Drop>(span: &Span<C>)
    ensures { C.tells ≡ true → is_dropped span.now.response.sending ≡ true
        → MayContinue (shown C.Link span.now) span.now.place }
{
    let _ = span.may_continue();
}

// A client, and what is left beside it.
fn beside_client<C, O>(parts: TxnParts<C, Spanned<O>>) -> (C, EndedParts<O>)
    ensures client { result.0 ≡ parts.client }
    ensures parts { result.1 ≡ without_client parts }
{
    let TxnParts {
        number,
        client,
        origin,
        head,
        mode,
        client_faults,
        origin_faults,
        cuts,
        end,
    } = parts;
    let ended = EndedParts {
        number,
        origin: unspanned(origin),
        head,
        mode,
        client_faults,
        origin_faults,
        cuts,
        end,
    };
    (client, ended)
}

/// The parts of a transaction with this client.
pub fn retired_parts<C, O>(parts: EndedParts<O>, client: C) -> TxnParts<C, O>
    ensures { result ≡ with_client parts client }
{
    let EndedParts {
        number,
        origin,
        head,
        mode,
        client_faults,
        origin_faults,
        cuts,
        end,
    } = parts;
    TxnParts {
        number,
        client,
        origin,
        head,
        mode,
        client_faults,
        origin_faults,
        cuts,
        end,
    }
}

/// The client whose last request was that of the span. It takes no memory.
pub fn last_client<C: Sourced + Drop>(span: Span<C>) -> C
    ensures { IsLastClient C.Link span result }
{
    known_rule(&span);
    span.into_client()
}

/// What is left of a transaction in a session as it stands: its client is handed over. It takes no memory.
pub fn end_session<C: Sourced + Drop, O: Drop>(
    parts: TxnParts<Span<C>, Spanned<O>>,
) -> TxnParts<C, O>
    ensures parts { result ≡ with_client (without_client parts) result.client }
    ensures last { IsLastClient C.Link parts.client result.client }
{
    let (span, parts) = beside_client(parts);
    retired_parts(parts, last_client(span))
}

/// What becomes of a transaction in a session: where its connection goes on there is the span of the next
/// request, and else it was the last. It takes no memory.
pub fn leave_session<C: Sourced + Drop, O: Drop>(
    parts: TxnParts<Span<C>, Spanned<O>>,
) -> SessionLeft<C, O>
    ensures { IsLeftOf C.Link parts result }
{
    if may_go_on(&parts) {
        let (span, parts) = beside_client(parts);
        known_rule(&span);
        return SessionLeft::GoesOn {
            next: span.next(),
            parts,
        };
    }
    SessionLeft::Ends(end_session(parts))
}
