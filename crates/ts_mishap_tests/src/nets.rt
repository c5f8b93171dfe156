//! Nets in memory: which clients come and in which order, which dials and accepts fail or wait, and what is
//! kept of the transactions that were handed over.
ghost use Rattle.std.specs.Prelude.{◌≡◌, true, IfOk, IfSome};
ghost use Rattle.std.specs.List.{All};
ghost use Rattle.ts_txn.specs.Making.{ArePaired, IsNewLink, IsNewLinkIf};
ghost use Rattle.ts_txn.specs.PairStock.{IsNewPair};
ghost use Rattle.ts_mishap_tests.specs.Begun.{IsSetting};

use crate::exchange::{EndedTxn, exchange, setting_of};
use crate::judging::judge;
use crate::plan::{giving, link_of, origin_of};
use crate::refusal::Refusal;
use crate::row::{Finding, Row, get, head, own};
use crate::seen::MEMORY;
use crate::stated::{ABC, BAD_GATEWAY, GET, SIZED};
use std::alloc::Global;
use ts_exchange::ExchangeSetting;
use ts_hooks::TxnEnd;
use ts_link::MemLink;
use ts_txn::{Accepted, Began, Dialed, MemNet, Net, NetCounts, Retired};
use ts_wire::Mode;

// What comes of accepting and, where a client came, of dialing its origin.
#[derive(Clone, Copy, Debug, PartialEq, Eq)]
enum Came {
    Dialed,
    Undialed,
    Again,
    Closed,
    Failed,
}

// A client, and its origin where the dial did not fail.
#[derive(Drop)]
struct Links<C, O> {
    client: C,
    origin: Option<O>,
}

// A page, a page whose origin is not reached, and the head of a page.
fn rows() -> [Row<'static>; 3] {
    let undialed = own(GET, b"", BAD_GATEWAY, b"502 Bad Gateway\n");
    [
        get(ABC, SIZED, Mode::Plain, b"abc"),
        Row {
            origin: None,
            ..undialed
        },
        head(ABC, SIZED),
    ]
}

// Adds the links of a row.
fn add_pair(
    alloc: Global,
    pairs: &mut Vec<(MemLink, Option<MemLink>)>,
    row: &Row<'_>,
) -> Result<(), Refusal>
    requires { All IsNewPair pairs.old.items }
    ensures { All IsNewPair pairs.new.items }
{
    let client = link_of(alloc, &giving(row.request))?;
    let origin = origin_of(alloc, row.origin.map(giving))?;
    pairs.push((client, origin))?;
    Ok(())
}

// The links of the rows, in order.
fn pairs_of(alloc: Global, rows: &[Row<'_>]) -> Result<Vec<(MemLink, Option<MemLink>)>, Refusal>
    ensures { IfOk result (λ pairs. All IsNewPair pairs.items) }
{
    let mut pairs = Vec::new(alloc);
    for row in rows {
        add_pair(alloc, &mut pairs, row)?;
    }
    Ok(pairs)
}

// A net whose clients are those of the rows. The accept calls of the first numbers wait, and those of the
// others fail.
fn net_of(
    alloc: Global,
    rows: &[Row<'_>],
    again: &[u64],
    failing: &[u64],
) -> Result<MemNet, Refusal> {
    let pairs = pairs_of(alloc, rows)?;
    let again = Vec::from_slice(alloc, again)?;
    let failing = Vec::from_slice(alloc, failing)?;
    Ok(MemNet::make(alloc, pairs, again, failing))
}

// The origin of the client that came last, where the dial does not fail.
fn dial<N: Net>(net: &mut N) -> Option<N::Origin>
    ensures unused { N.Origin.tells ≡ true → IsNewLinkIf N.Origin.look result }
    ensures paired { IfSome result (λ o. (c : N.Client) → N.Origin.paired c o) }
{
    match net.dial() {
        Dialed::Origin(origin) => Some(origin),
        Dialed::Failed => None,
    }
}

// The next client with its origin, if one comes. A transaction can be made of them.
fn next_links<N: Net>(net: &mut N) -> Option<Links<N::Client, N::Origin>>
    ensures client { IfSome result (λ l. N.Client.tells ≡ true → IsNewLink (N.Client.look l.client)) }
    ensures origin { IfSome result (λ l. N.Origin.tells ≡ true → IsNewLinkIf N.Origin.look l.origin) }
    ensures pair { IfSome result (λ l. ArePaired N.Origin.paired l.client l.origin) }
{
    match net.accept() {
        Accepted::Client(client) => {
            let origin = dial(net);
            Some(Links { client, origin })
        }
        _ => None,
    }
}

// What comes next.
fn come<N: Net>(net: &mut N) -> Came {
    match net.accept() {
        Accepted::Client(_client) => match net.dial() {
            Dialed::Origin(_origin) => Came::Dialed,
            Dialed::Failed => Came::Undialed,
        },
        Accepted::Again => Came::Again,
        Accepted::Closed => Came::Closed,
        Accepted::Failed => Came::Failed,
    }
}

// Runs the transaction of the next client to its end and hands it over. Whether a client came.
fn serve_next(alloc: Global, setting: &ExchangeSetting, net: &mut MemNet) -> Result<bool, Refusal>
    requires { IsSetting setting.now }
{
    let Some(links) = next_links(net) else {
        return Ok(false);
    };
    let Links { client, origin } = links;
    let EndedTxn { parts, journal, .. } = exchange(alloc, setting, client, origin)?;
    net.retire(Retired { parts, journal })?;
    Ok(true)
}

// Serves each client that comes, of so many at most. How many came.
fn serve_all(
    alloc: Global,
    setting: &ExchangeSetting,
    most: usize,
    net: &mut MemNet,
) -> Result<usize, Refusal>
    requires { IsSetting setting.now }
{
    for came in 0..most {
        if !serve_next(alloc, setting, net)? {
            return Ok(came);
        }
    }
    Ok(most)
}

// Whether a net kept the transactions of the rows in order, each as its row states.
fn judge_kept(alloc: Global, rows: &[Row<'_>], net: &MemNet) -> Result<Finding, Refusal> {
    for (row, retired) in rows.iter().zip(net.retired()) {
        if retired.parts.end == Some(TxnEnd::NoMemory) {
            return Ok(Finding::Lacks);
        }
        let finding = judge(alloc, row, &retired.parts)?;
        if finding != Finding::AsStated {
            return Ok(finding);
        }
    }
    Ok(Finding::AsStated)
}

// Whether a net that serves each client of the rows, and no other, keeps their transactions as stated.
fn judge_served(alloc: Global, rows: &[Row<'_>], net: &mut MemNet) -> Result<Finding, Refusal> {
    let setting = setting_of(alloc, b"", b"")?;
    let most = rows.len().saturating_add(1);
    let came = serve_all(alloc, &setting, most, net)?;
    if came != rows.len() || net.retired().len() != rows.len() {
        return Ok(Finding::OtherNumber);
    }
    judge_kept(alloc, rows, net)
}

// The same of a net whose clients are those of the rows.
fn check_served(alloc: Global) -> Result<Finding, Refusal> {
    let rows = rows();
    let mut net = net_of(alloc, &rows, &[], &[])?;
    judge_served(alloc, &rows, &mut net)
}

// How many calls are made of a net that waits at some and fails at others.
const CALLS: usize = 10;

// What comes of these calls, one after the other.
fn come_often<N: Net>(net: &mut N) -> [Came; CALLS] {
    let mut came = [Came::Closed; CALLS];
    for next in came.iter_mut() {
        *next = come(net);
    }
    came
}

// What comes of dialing, of a client, and of dialing again.
fn dial_twice<N: Net>(net: &mut N) -> (bool, Came, bool) {
    let early = dial(net).is_some();
    let came = come(net);
    (early, came, dial(net).is_some())
}

// An accept call whose number stands in both lists fails. No call that fails or waits uses up a pair, and a
// net that is closed goes on failing and waiting by its lists.
#[test]
fn clients_come_in_order_between_calls_that_fail_or_wait(rt: HostRuntime) {
    let came: [Came; CALLS] = [
        Came::Dialed,
        Came::Again,
        Came::Failed,
        Came::Undialed,
        Came::Dialed,
        Came::Closed,
        Came::Again,
        Came::Closed,
        Came::Failed,
        Came::Closed,
    ];
    let counts = NetCounts {
        faults: 2,
        misdials: 1,
        waits: 2,
        ends: 3,
    };
    let mut net = net_of(rt.alloc(), &rows(), &[2, 3, 7], &[3, 9]).expect(&rt, MEMORY);
    let began = net.begin("127.0.0.1:80", "127.0.0.1:8080");
    let seen = come_often(&mut net);
    assert_eq!(rt; (began, seen, net.counts()), (Began::Ready, came, counts));
}

// An origin is given once, and none before a client came.
#[test]
fn an_origin_is_dialed_once(rt: HostRuntime) {
    let mut net = net_of(rt.alloc(), &rows(), &[], &[]).expect(&rt, MEMORY);
    let dialed = dial_twice(&mut net);
    assert_eq!(rt;
        (dialed, net.counts().misdials),
        ((false, Came::Dialed, false), 2)
    );
}

// With ample memory each transaction is kept. Run with each allocation refused in turn (`rt try --test
// --fail-alloc N`, N from 1 on), one of them ends for want of memory, or a call answers it, and all are kept
// when they are run again.
#[test]
fn what_is_left_of_transactions_is_kept_in_order(rt: HostRuntime) {
    let verdict = match check_served(rt.alloc()) {
        Ok(Finding::Lacks) => check_served(rt.alloc()),
        Err(Refusal::NoMemory) => check_served(rt.alloc()),
        other => other,
    };
    assert_eq!(rt; verdict, Ok(Finding::AsStated));
}
