//! Sessions: a client whose connection carries several requests, and what is stated of each of them.
ghost use Rattle.std.specs.Prelude.{IfOk};
ghost use Rattle.std.specs.List.{All};
ghost use Rattle.ts_link.specs.MemLink.{look_of};
ghost use Rattle.ts_txn.specs.Making.{IsNewLinkIf};
ghost use Rattle.ts_txn.specs.MemNet.{seen_of};
ghost use Rattle.ts_txn.specs.Net.{IsFreshNet};

use crate::command::{MEMORY, Remains, left_of, shelf_of, texts_of, wide_sink};
use crate::row::THREADS;
use crate::stated::{LISTEN, ORIGIN};
use std::alloc::Global;
use std::process::Abort;
use std::sync::Wait;
use std::thread::Threads;
use ts_hooks::TxnEnd;
use ts_journal::Journal;
use ts_link::{MemLink, NoMemory, OpenGate};
use ts_mem_nets::links::{Side, at_once, link_if, link_of};
use ts_mem_nets::stated::{ABC, GET_SENT};
use ts_txn::{MemNet, Noted, Retired};

/// What the client gets of the page of three bytes where its connection goes on.
pub const ABC_GOING_ON: &[u8] = b"HTTP/1.1 200 OK\r\nvia: 1.1 tsx\r\ncontent-length: 3\r\n\r\nabc";

/// One transaction of a connection: what its origin gives, if its dial gives one, what that got, and what the
/// client took.
#[derive(Clone, Copy)]
pub struct Turn<'a> {
    pub origin: Option<&'a [u8]>,
    pub sent: &'a [u8],
    pub taken: &'a [u8],
}

/// A client that comes to a net which is served by sessions under a configuration. It is stated which
/// transactions its connection carries, and how the last one ends.
#[derive(Clone, Copy)]
pub struct Session<'a> {
    pub config: &'a [u8],
    pub client: Side<'a>,
    pub turns: &'a [Turn<'a>],
    pub end: TxnEnd,
}

/// What came of a session: all as it is stated, or the first that is other.
#[derive(Clone, Copy, Debug, PartialEq, Eq)]
pub enum Found {
    AsStated,
    OtherStatus(u8),
    /// Out or err took something, or a journal was answered.
    NotQuiet,
    /// Another number of transactions was noted, or of clients handed over.
    OtherNotes(usize),
    OtherRetired(usize),
    /// A transaction, counted from 1, has another number, place, origin or end, or its journal does not rest.
    OtherTurn(usize),
    /// The client took something else.
    OtherText,
}

/// The page of three bytes, behind which the connection goes on.
pub fn page_turn<'a>() -> Turn<'a> {
    Turn {
        origin: Some(ABC),
        sent: GET_SENT,
        taken: ABC_GOING_ON,
    }
}

/// A client that gives these bytes at once, with nothing configured, whose connection carries these.
pub fn session_of<'a>(gives: &'a [u8], turns: &'a [Turn<'a>]) -> Session<'a> {
    Session {
        config: b"",
        client: at_once(gives),
        turns,
        end: TxnEnd::Whole,
    }
}

// Adds what the dial of a transaction gives.
fn add_origin(
    alloc: Global,
    origins: &mut Vec<Option<MemLink>>,
    turn: &Turn<'_>,
) -> Result<(), NoMemory>
    requires { All (IsNewLinkIf look_of) origins.old.items }
    ensures { All (IsNewLinkIf look_of) origins.new.items }
{
    let side = match turn.origin {
        Some(gives) => Some(at_once(gives)),
        None => None,
    };
    let origin = link_if(alloc, side)?;
    origins.push(origin)?;
    Ok(())
}

// What the dials of these transactions give, in order.
fn origins_of(alloc: Global, turns: &[Turn<'_>]) -> Result<Vec<Option<MemLink>>, NoMemory>
    ensures { IfOk result (λ origins. All (IsNewLinkIf look_of) origins.items) }
{
    let mut origins = Vec::new(alloc);
    for turn in turns {
        add_origin(alloc, &mut origins, turn)?;
    }
    Ok(origins)
}

/// The net to which the client of a session comes.
pub fn net_of_session(alloc: Global, row: &Session<'_>) -> Result<MemNet, NoMemory>
    ensures { IfOk result (λ net. IsFreshNet (seen_of net)) }
{
    let client = link_of(alloc, &row.client)?;
    let origins = origins_of(alloc, row.turns)?;
    Ok(MemNet::with_origins(alloc, client, origins))
}

/// The words that serve a net by sessions, on so many threads.
pub fn session_words<'a>(threads: &'a str) -> [&'a str; 10] {
    [
        "serve",
        "--listen",
        LISTEN,
        "--origin",
        ORIGIN,
        "--config",
        "c",
        "--threads",
        threads,
        "--sessions",
    ]
}

/// What is left where this net is served by sessions under a configuration, on so many threads.
pub fn left_by_sessions<R: Threads + Wait + Sync>(
    rt: &R,
    alloc: Global,
    threads: &str,
    config: &[u8],
    net: MemNet,
) -> Result<Remains<MemNet>, NoMemory>
    requires { IsFreshNet (seen_of net) }
{
    let words = texts_of(alloc, &session_words(threads))?;
    let shelf = shelf_of(alloc, config)?;
    let (out, gate) = (wide_sink(alloc), OpenGate::make());
    Ok(left_of(rt, alloc, words.as_slice(), shelf, net, out, &gate))
}

fn is_at_rest(journal: &Journal) -> bool {
    !journal.is_held() && journal.pending().is_empty()
}

// Whether this is the origin of a transaction, and got what it was to.
fn is_origin_of(turn: &Turn<'_>, origin: &Option<MemLink>) -> bool {
    match origin {
        Some(link) => turn.origin.is_some() && link.written() == turn.sent,
        None => turn.origin.is_none(),
    }
}

// Whether the only client was noted this as its transaction at a place, counted from 1.
fn is_note_of(turn: &Turn<'_>, place: usize, note: &Noted<MemLink>) -> bool {
    note.number == 1
        && note.place as usize == place
        && note.end == Some(TxnEnd::Whole)
        && is_origin_of(turn, &note.origin)
        && is_at_rest(&note.journal)
}

// Whether this is left of the only client, whose last transaction this is.
fn is_last_of(turn: &Turn<'_>, end: TxnEnd, left: &Retired<MemLink, MemLink>) -> bool {
    left.parts.number == 1
        && left.parts.end == Some(end)
        && is_origin_of(turn, &left.parts.origin)
        && is_at_rest(&left.journal)
}

// Whether this is what the client of these transactions took, one behind the other.
fn is_taken(turns: &[Turn<'_>], text: &[u8]) -> bool {
    let mut rest = text;
    for turn in turns {
        let Some(behind) = rest.strip_prefix(turn.taken) else {
            return false;
        };
        rest = behind;
    }
    rest.is_empty()
}

// Whether these transactions but the last were noted, in order.
fn compare_notes(turns: &[Turn<'_>], noted: &[Noted<MemLink>]) -> Found {
    if noted.len().saturating_add(1) != turns.len() {
        return Found::OtherNotes(noted.len());
    }
    let mut place: usize = 0;
    for (turn, note) in turns.iter().zip(noted) {
        place = place.saturating_add(1);
        if !is_note_of(turn, place, note) {
            return Found::OtherTurn(place);
        }
    }
    Found::AsStated
}

// Whether the client was handed over behind the last of these transactions, and took what is stated of all.
fn compare_last(row: &Session<'_>, retired: &[Retired<MemLink, MemLink>]) -> Found {
    let [left] = retired else {
        return Found::OtherRetired(retired.len());
    };
    let Some(last) = row.turns.last() else {
        return Found::OtherTurn(0);
    };
    if !is_last_of(last, row.end, left) {
        return Found::OtherTurn(row.turns.len());
    }
    if !is_taken(row.turns, left.parts.client.written()) {
        return Found::OtherText;
    }
    Found::AsStated
}

/// What came of a session of which a run left this.
pub fn compare_session(row: &Session<'_>, left: &Remains<MemNet>) -> Found {
    if left.status != 0 {
        return Found::OtherStatus(left.status);
    }
    if !left.out.written().is_empty() || !left.err.written().is_empty() || left.journals != 0 {
        return Found::NotQuiet;
    }
    match compare_notes(row.turns, left.net.noted()) {
        Found::AsStated => compare_last(row, left.net.retired()),
        other => other,
    }
}

/// What comes of a session on so many threads.
pub fn session_on<R: Abort + AllocGlobal + Threads + Wait + Sync>(
    rt: &R,
    threads: &str,
    row: &Session<'_>,
) -> Found {
    let alloc = rt.alloc();
    let net = net_of_session(alloc, row).expect(rt, MEMORY);
    let left = left_by_sessions(rt, alloc, threads, row.config, net).expect(rt, MEMORY);
    compare_session(row, &left)
}

/// A session comes out as stated on each number of threads.
pub fn check_session<R: Abort + AllocGlobal + Threads + Wait + Sync>(rt: &R, row: &Session<'_>) {
    for threads in THREADS {
        let found = session_on(rt, threads, row);
        assert_eq!(rt; found, Found::AsStated, "on {threads} threads");
    }
}
