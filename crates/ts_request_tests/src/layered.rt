//! Transactions with layers between links in memory, driven to their end: what was taken of a request in the
//! origin's place, what the origin took and what its client got, and what a tap summed up.
ghost use Rattle.std.specs.Prelude.{◌≡◌, false, IsSome};
ghost use Rattle.std.specs.Arc.{arc_value};
ghost use Rattle.ts_group.specs.Answers.{Holds};
ghost use Rattle.ts_journal.specs.State.{State};
ghost use Rattle.ts_layers.specs.Layers.{MayBeLayered};
ghost use Rattle.ts_passing.specs.Lines.{ActsAsLines};
ghost use Rattle.ts_request_tests.specs.Telling.{LinksTell};
ghost use Rattle.ts_txn.specs.Making.{IsTxnSetup};

use crate::carrying::giving;
use crate::rows::MEMORY;
use std::process::Abort;
use std::sync::Arc;
use ts_config::{TransformLine, read_config};
use ts_exchange::{ExchangeSetting, Promise, take_apart};
use ts_group::{Either, Group, World};
use ts_hooks::TxnEnd;
use ts_layers::{
    LayeredExchange, LayeredWorld, PlainExchange, PlainParts, has_origin, make_layered,
    make_layered_group, plain_parts, take_layered_apart,
};
use ts_link::{Got, Link, MemLink, Sourced};
use ts_stock::Stock;
use ts_toys::drive::{Driven, drive};
use ts_transform::Transform;
use ts_txn::TxnParts;
use ts_upstream::Upstream;
use ts_wire::Mode;

// The number of each transaction here.
const NUMBER: u64 = 7;

// Where the groups of plugins begin, of which there is none.
const FIRST_PLUGIN: u32 = 1;

// A link here gives and takes so many bytes a call: all that it has.
const ALL: usize = 1000;

// How many transform lines a transaction takes at most.
const MOST_LINES: usize = 16;

// What each origin gives.
const RESPONSE: &[u8] = b"HTTP/1.1 200 OK\r\nContent-Length: 3\r\n\r\nabc";

// A request with the lines under which it is brought to its origin, and what is left of its transaction.
#[derive(Clone, Copy)]
struct Row {
    lines: &'static [u8],
    client: &'static [u8],
    // What was taken in the origin's place.
    taken: &'static [u8],
    // Whether it was the origin that took it, and how many bytes of its response that did not give.
    is_reached: bool,
    unread: usize,
    got: &'static [u8],
    // How the body stands behind the head that was taken, where it was delivered whole.
    upload: Option<Mode>,
    // The count and the sum of the tap.
    sum: Option<(u64, u64)>,
}

const ROWS: [Row; 8] = [
    // A length, and no line.
    Row {
        lines: b"",
        client: b"POST / HTTP/1.1\r\nHost: a\r\nContent-Length: 3\r\n\r\nabc",
        taken: b"POST / HTTP/1.1\r\nhost: a\r\nvia: 1.1 tsx\r\nconnection: close\r\n\
content-length: 3\r\n\r\nabc",
        is_reached: true,
        unread: 0,
        got: b"HTTP/1.1 200 OK\r\nvia: 1.1 tsx\r\ncontent-length: 3\r\nconnection: close\r\n\r\nabc",
        upload: Some(Mode::Plain),
        sum: None,
    },
    // A line that puts a byte first: the body goes in chunks.
    Row {
        lines: b"request.so prepend.so <\n",
        client: b"POST / HTTP/1.1\r\nHost: a\r\nContent-Length: 3\r\n\r\nabc",
        taken: b"POST / HTTP/1.1\r\nhost: a\r\nvia: 1.1 tsx\r\nconnection: close\r\n\
transfer-encoding: chunked\r\n\r\n4\r\n<abc\r\n0\r\n\r\n",
        is_reached: true,
        unread: 0,
        got: b"HTTP/1.1 200 OK\r\nvia: 1.1 tsx\r\ncontent-length: 3\r\nconnection: close\r\n\r\nabc",
        upload: Some(Mode::Chunked),
        sum: None,
    },
    // A client that is cut within its body.
    Row {
        lines: b"",
        client: b"POST / HTTP/1.1\r\nHost: a\r\nContent-Length: 3\r\n\r\nab",
        taken: b"POST / HTTP/1.1\r\nhost: a\r\nvia: 1.1 tsx\r\nconnection: close\r\n\
content-length: 3\r\n\r\nab",
        is_reached: true,
        unread: RESPONSE.len(),
        got: b"HTTP/1.1 400 Bad Request\r\ncontent-type: text/plain\r\ncontent-length: 16\r\n\
connection: close\r\n\r\n400 Bad Request\n",
        upload: None,
        sum: None,
    },
    // A request without a body.
    Row {
        lines: b"request.so prepend.so <\n",
        client: b"GET / HTTP/1.1\r\nHost: a\r\n\r\n",
        taken: b"GET / HTTP/1.1\r\nhost: a\r\nvia: 1.1 tsx\r\nconnection: close\r\n\r\n",
        is_reached: true,
        unread: 0,
        got: b"HTTP/1.1 200 OK\r\nvia: 1.1 tsx\r\ncontent-length: 3\r\nconnection: close\r\n\r\nabc",
        upload: None,
        sum: None,
    },
    // A line that serves the head of the request.
    Row {
        lines: b"intercept.so a echo\n",
        client: b"GET / HTTP/1.1\r\nHost: a\r\n\r\n",
        taken: b"GET / HTTP/1.1\r\nhost: a\r\nvia: 1.1 tsx\r\nconnection: close\r\n\r\n",
        is_reached: false,
        unread: RESPONSE.len(),
        got: b"HTTP/1.1 200 OK\r\ncontent-type: text/plain\r\nvia: 1.1 tsx\r\ncontent-length: 60\r\n\
connection: close\r\n\r\nGET / HTTP/1.1\r\nhost: a\r\nvia: 1.1 tsx\r\nconnection: close\r\n\r\n",
        upload: None,
        sum: None,
    },
    // One that serves a request with a body.
    Row {
        lines: b"intercept.so A fill 5\n",
        client: b"POST / HTTP/1.1\r\nHost: a\r\nContent-Length: 3\r\n\r\nabc",
        taken: b"POST / HTTP/1.1\r\nhost: a\r\nvia: 1.1 tsx\r\nconnection: close\r\n\
content-length: 3\r\n\r\nabc",
        is_reached: false,
        unread: RESPONSE.len(),
        got: b"HTTP/1.1 200 OK\r\ncontent-type: text/plain\r\nvia: 1.1 tsx\r\ncontent-length: 5\r\n\
connection: close\r\n\r\nxxxxx",
        upload: Some(Mode::Plain),
        sum: None,
    },
    // One that serves another host.
    Row {
        lines: b"intercept.so b fill 5\n",
        client: b"GET / HTTP/1.1\r\nHost: a\r\n\r\n",
        taken: b"GET / HTTP/1.1\r\nhost: a\r\nvia: 1.1 tsx\r\nconnection: close\r\n\r\n",
        is_reached: true,
        unread: 0,
        got: b"HTTP/1.1 200 OK\r\nvia: 1.1 tsx\r\ncontent-length: 3\r\nconnection: close\r\n\r\nabc",
        upload: None,
        sum: None,
    },
    // A tap that sums up the first two bytes of the body `<abc`.
    Row {
        lines: b"prepend.so <\ntap.so 2\n",
        client: b"GET / HTTP/1.1\r\nHost: a\r\n\r\n",
        taken: b"GET / HTTP/1.1\r\nhost: a\r\nvia: 1.1 tsx\r\nconnection: close\r\n\r\n",
        is_reached: true,
        unread: 0,
        got: b"HTTP/1.1 200 OK\r\nvia: 1.1 tsx\r\ntransfer-encoding: chunked\r\nconnection: close\r\n\
\r\n4\r\n<abc\r\n0\r\n\r\n",
        upload: None,
        sum: Some((2, 1_957)),
    },
];

// What transactions under these lines are made with, of which the lines of hook plugins are left out.
fn setting_of(rt: &(impl AllocGlobal + Abort), lines: &[u8]) -> ExchangeSetting
    ensures { IsTxnSetup (arc_value result.setup) result.plugins_at }
{
    let mut setup = read_config(rt.alloc(), lines).expect(rt, MEMORY);
    setup.plugins = Vec::new(rt.alloc());
    assert!(rt; setup.transforms.len() <= MOST_LINES);
    ExchangeSetting {
        setup: Arc::new(rt.alloc(), setup).expect(rt, MEMORY),
        plugins_at: FIRST_PLUGIN,
    }
}

// What is promised of links that may wait or fail.
fn promise() -> Promise
    ensures { result.is_sure ≡ false }
{
    Promise {
        is_sure: false,
        is_first: true,
    }
}

// Starts the world of a group, and drives it to its end.
fn run<W: World + Drop>(rt: &(impl AllocGlobal + Abort), group: &mut Group<W>)
where
    W::Question: Drop,
    requires idle { group.old.cx.log.state.held ≡ false }
    requires sound { Holds W.sound group.old }
    requires tells { (w : W) (s : State) → IsSome (W.left w s) }
{
    group.begin_alone(u64::MAX, 0).expect(rt, MEMORY);
    group.start();
    group.give_turn();
    let driven = drive(group).expect(rt, MEMORY);
    assert!(rt; driven == Driven::Done);
}

// What is left of a transaction in a group of its own, whatever its links are. (Where all layers of a link
// stand in the types of the calls, proving them takes too long.)
fn run_alone<
    C: Sourced + Drop,
    O: Upstream<C> + Drop,
    P: Transform<Line = TransformLine> + Drop,
    R: AllocGlobal + Abort,
>(rt: &R, setting: &ExchangeSetting, client: C, origin: Option<O>) -> PlainExchange<C, O>
    requires setting { IsTxnSetup (arc_value setting.now.setup) setting.now.plugins_at }
    requires acts { ActsAsLines P.Transform }
    requires ends { MayBeLayered C.Link O.Link O.Upstream.own client origin }
    requires tells { LinksTell C.Link O.Link O.Upstream.own }
{
    let is_handed = origin.is_some();
    let (exchange, _tag): (LayeredExchange<C, O, P>, _) = make_layered(
        rt.alloc(),
        setting,
        NUMBER,
        promise(),
        true,
        client,
        origin,
    ).expect(rt, MEMORY);
    assert!(rt; has_origin(&exchange) == is_handed);
    let mut group = Group::make(rt.alloc(), exchange, 0).expect(rt, MEMORY);
    run(rt, &mut group);
    let (exchange, _journal) = group.into_parts();
    take_layered_apart(exchange)
}

// The parts that are left of one in a group of a row, if it is there.
fn run_in_row<
    C: Sourced + Drop,
    O: Upstream<C> + Drop,
    P: Transform<Line = TransformLine> + Drop,
    R: AllocGlobal + Abort,
>(rt: &R, setting: &ExchangeSetting, client: C, origin: Option<O>) -> Option<PlainParts<C, O>>
    requires setting { IsTxnSetup (arc_value setting.now.setup) setting.now.plugins_at }
    requires acts { ActsAsLines P.Transform }
    requires ends { MayBeLayered C.Link O.Link O.Upstream.own client origin }
    requires tells { LinksTell C.Link O.Link O.Upstream.own }
{
    let (mut group, _tag): (Group<LayeredWorld<C, O, P>>, _) = make_layered_group(
        rt.alloc(),
        setting,
        NUMBER,
        promise(),
        true,
        client,
        origin,
    ).expect(rt, MEMORY);
    run(rt, &mut group);
    let (world, _journal) = group.into_parts();
    match world {
        Either::One(exchange) => Some(plain_parts(take_apart(exchange))),
        Either::Other(_) => None,
    }
}

// What is left of the transaction of a row.
#[tactic(auto, using(crate::proofs::Telling::memory_tells))]
fn left_of<R: AllocGlobal + Abort>(rt: &R, row: &Row) -> PlainExchange<MemLink, MemLink> {
    let setting = setting_of(rt, row.lines);
    let client = giving(rt, row.client, ALL as u32, ALL);
    let origin = giving(rt, RESPONSE, ALL as u32, ALL);
    run_alone::<MemLink, MemLink, Stock, R>(rt, &setting, client, Some(origin))
}

// The parts that are left of it in a group of a row.
#[tactic(auto, using(crate::proofs::Telling::memory_tells))]
fn left_in_row<R: AllocGlobal + Abort>(rt: &R, row: &Row) -> Option<PlainParts<MemLink, MemLink>> {
    let setting = setting_of(rt, row.lines);
    let client = giving(rt, row.client, ALL as u32, ALL);
    let origin = giving(rt, RESPONSE, ALL as u32, ALL);
    run_in_row::<MemLink, MemLink, Stock, R>(rt, &setting, client, Some(origin))
}

// What is left of it where it has no origin.
#[tactic(auto, using(crate::proofs::Telling::memory_tells))]
fn left_without<R: AllocGlobal + Abort>(rt: &R, row: &Row) -> PlainExchange<MemLink, MemLink> {
    let setting = setting_of(rt, row.lines);
    let client = giving(rt, row.client, ALL as u32, ALL);
    run_alone::<MemLink, MemLink, Stock, R>(rt, &setting, client, None)
}

// How many bytes a link gives at once.
fn unread(link: &mut MemLink) -> usize {
    match link.read(&mut [0u8; 64]) {
        Got::Bytes(count) => count,
        _ => 0,
    }
}

// Holds what an origin took, and what it did not give, against what is wanted.
fn check_origin(rt: &(impl AllocGlobal + Abort), row: &Row, mut origin: MemLink) {
    let taken: &[u8] = if row.is_reached { row.taken } else { b"" };
    assert!(rt; origin.written() == taken);
    assert!(rt; unread(&mut origin) == row.unread);
}

// Holds how a transaction ended, what its client got, what was taken in the origin's place and what its tap
// summed up against what is wanted.
fn check_parts(rt: &(impl AllocGlobal + Abort), row: &Row, left: &PlainParts<MemLink, MemLink>) {
    let sum = left.sum.map(|sum| (sum.count(), sum.sum()));
    assert!(rt; (left.parts.end, sum) == (Some(TxnEnd::Whole), row.sum));
    assert!(rt; left.parts.client.written() == row.got);
    assert!(rt;
        left.taken
            .as_ref()
            .is_some_and(|taken| taken.as_slice() == row.taken)
    );
}

// The origin that is left, if there is one.
fn origin_left(left: PlainParts<MemLink, MemLink>) -> Option<MemLink> {
    let PlainParts { parts, .. } = left;
    let TxnParts { origin, .. } = parts;
    origin
}

// Holds what is left of the transaction of a row against what is wanted: all but its origin, which is handed
// out.
fn check_left(
    rt: &(impl AllocGlobal + Abort),
    row: &Row,
    left: PlainExchange<MemLink, MemLink>,
) -> Option<MemLink> {
    let PlainExchange {
        parts,
        upload,
        taken,
        sum,
        settled,
    } = left;
    assert!(rt; (upload, settled) == (row.upload, true));
    let left = PlainParts { parts, taken, sum };
    check_parts(rt, row, &left);
    origin_left(left)
}

#[test]
fn a_transaction_with_layers_brings_its_origin_the_body(rt: HostRuntime) {
    for row in &ROWS {
        let origin = check_left(&rt, row, left_of(&rt, row));
        check_origin(&rt, row, origin.expect(&rt, "an origin"));
    }
}

#[test]
fn so_does_one_in_a_row(rt: HostRuntime) {
    for row in &ROWS {
        let left = left_in_row(&rt, row).expect(&rt, "the transaction of the row");
        check_parts(&rt, row, &left);
        check_origin(&rt, row, origin_left(left).expect(&rt, "an origin"));
    }
}

#[test]
fn a_host_is_served_without_an_origin(rt: HostRuntime) {
    for row in &ROWS {
        if row.is_reached {
            continue;
        }
        let origin = check_left(&rt, row, left_without(&rt, row));
        assert!(rt; origin.is_none());
    }
}
