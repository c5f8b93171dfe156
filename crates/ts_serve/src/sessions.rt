//! A net that is served by sessions: each connection carries several transactions, one after the other, and
//! waits in its place between them.

ghost use Rattle.std.specs.Prelude.{◌≡◌, ◌≢◌, ◌<◌, ◌≤◌, ◌&&◌, List, [], ◌∷◌, ◌++◌, false, is_some, nat_lt};
ghost use Rattle.std.specs.Prelude.{true};
ghost use Rattle.std.specs.Prelude.{IfOk, IfSome};
ghost use Rattle.std.specs.Arc.{arc_value};
ghost use Rattle.ts_exchange.specs.Left.{has_ended};
ghost use Rattle.ts_group.specs.Either.{either_of};
ghost use Rattle.ts_history.specs.Sessions.{IsLastOf, IsNote, IsSessionOf, IsSpent};
ghost use Rattle.ts_layers.specs.Sessions.{IsLastClient};
ghost use Rattle.ts_passing.specs.Lines.{ActsAsLines};
ghost use Rattle.ts_thread.specs.declared.TheConstants.{MOST_THREADS};
ghost use Rattle.ts_txn.specs.Making.{IsTxnSetup};
ghost use Rattle.ts_txn.specs.Net.{IsFreshNet, IsNextOrigin};
ghost use Rattle.ts_txn.specs.declared.retired.Noted.{Noted};
ghost use Rattle.ts_waiting.specs.Waiting.{has_answered, is_lacking, is_ready};
ghost use Rattle.ts_serve.specs.Arrivals.{IsArrival};
ghost use Rattle.ts_serve.specs.Exchanges.{whose_of};
ghost use Rattle.ts_serve.specs.Notes.{HadSessions};
ghost use Rattle.ts_serve.specs.Served.{AreRetired, AreSessions, IsServed};
ghost use Rattle.ts_serve.specs.declared.acceptor.Served.TheVariants as served;
ghost use Rattle.ts_serve.specs.SessionTerms.{AreSessionTerms, BecomesInSession, EndsExchange, GoesOnBehind};
ghost use Rattle.ts_serve.specs.SessionTerms.{HasSetting, IsDoneBy, IsFreshSpan, IsLeftWith, IsSpentBy};
ghost use Rattle.ts_serve.specs.SessionTerms.{KeepsSession, LeavesInSession, LeavesNumber, LivesAs};
ghost use Rattle.ts_serve.specs.SessionTerms.{LivesInSession};
ghost use Rattle.ts_serve.specs.SessionTerms.{StandsBehindIf, StandsWaiting};
ghost use Rattle.ts_serve.specs.SessionTerms.{behind_by, noted_of_ended, whose_at, whose_in_session};
ghost use Rattle.ts_serve.specs.SessionTerms.{whose_waits};
ghost use Rattle.ts_serve.specs.Whose.{first_of, next_of};
ghost use Rattle.ts_serve.specs.declared.acceptor.TheConstants.{PLACES};
ghost use Rattle.ts_serve.specs.declared.sessions.SessionTerms.{SessionTerms};
ghost use Rattle.ts_serve.specs.declared.whose.TheConstants.{LAST_PLACE};

use crate::acceptor::{PLACES, Served};
use crate::leaving::Leaving;
use crate::placed::PlacedExchange;
use crate::run::serve;
use crate::service::Host;
use crate::session::{SessionExchange, SessionHandler, SessionWait};
use crate::tenant::{Handler, Tenant};
use crate::whose::{LAST_PLACE, Whose};
use std::alloc::Global;
use std::marker::Model;
use std::snapshot::Snapshot;
use std::sync::{Arc, Wait};
use std::thread::Threads;
use ts_config::{Setup, TransformLine};
use ts_exchange::{ExchangeSetting, Promise, has_ended, plugins_of};
use ts_group::Either;
use ts_hooks::HookAnswer;
use ts_journal::Journal;
use ts_layers::{
    EndedParts, PlainExchange, SessionLeft, end_session, has_origin, last_client, leave_session,
    make_layered, retired_parts, spanned, take_layered_apart,
};
use ts_link::{Clock, Gate, NoMemory, Sourced};
use ts_plugin::{HookQuestion, HookReply, Plugin};
use ts_session::Span;
use ts_transform::Transform;
use ts_txn::{Net, Noted, Retired};
use ts_upstream::Upstream;
use ts_waiting::{Left, Waiting};

/// What a place promises of whoever lives in it. All of it but a number is for contracts alone, and takes no
/// memory.
#[derive(Drop)]
pub struct SessionTerms<O> {
    pub setup: Snapshot<Setup>,
    /// The group of the first plugin line.
    pub plugins_at: u32,
    /// The transactions that the client has behind it, where the terms say so: those of a slot do not.
    pub behind: Snapshot<Option<NotedBehind<O>>>,
}

/// The transactions of a client, as the net was noted them.
#[derive(Drop)]
pub struct NotedBehind<O> {
    notes: Vec<Noted<O>>,
}

impl<O> Model for NotedBehind<O> {
    ghost use Rattle.std.specs.Prelude.{List};
    ghost use Rattle.ts_txn.specs.declared.retired.Noted.{Noted};

    ghost Value = { List (Noted O) };

    ghost view = { λ n. n.notes.items };
}

/// What is left of a transaction behind which its client waits.
#[derive(Drop)]
pub struct Ended<O> {
    pub parts: EndedParts<O>,
    /// Its place among the transactions of its client, counted from 1.
    pub place: u32,
    pub journal: Journal,
}

/// A client that goes on with its next request.
#[derive(Drop)]
pub struct GoesOn<C: Sourced> {
    pub number: u64,
    pub span: Span<C>,
}

// A place promises nothing of the links of a transaction, and others stood in it before.
const PROMISE: Promise = Promise {
    is_sure: false,
    is_first: false,
};

// Nobody reports what was taken in the place of an origin, so it is not kept.
const KEEPS: bool = false;

// A transaction of a session between the client of a span and an origin, if there is one.
fn make_exchange<
    C: Sourced + Drop,
    O: Upstream<C> + Drop,
    P: Transform<Line = TransformLine> + Drop,
>(
    alloc: Global,
    setting: &ExchangeSetting,
    number: u64,
    span: Span<C>,
    origin: Option<O>,
) -> Result<SessionExchange<C, O, P>, NoMemory>
    requires setting { IsTxnSetup (arc_value setting.now.setup) setting.now.plugins_at
        × ActsAsLines P.Transform }
    requires span { IsFreshSpan C.Link number span }
    requires origin { IfSome origin (IsNextOrigin O.Link O.Upstream.own) }
    ensures whose { IfOk result (λ t. whose_of t ≡ whose_at number span.place (is_some origin)) }
    ensures lives { IfOk result (λ t. (terms : SessionTerms O) → HasSetting setting.now terms
        → StandsBehindIf C.Link O.Link P.Transform terms number span
        → LivesAs C.Link O.Link P.Transform terms t) }
{
    let place = span.place();
    let (exchange, _tag) = make_layered(
        alloc,
        setting,
        number,
        PROMISE,
        KEEPS,
        span,
        spanned(origin),
    )?;
    Ok(PlacedExchange { exchange, place })
}

// Whose a transaction of a session is.
fn whose_exchange<
    C: Sourced + Drop,
    O: Upstream<C> + Drop,
    P: Transform<Line = TransformLine> + Drop,
>(exchange: &SessionExchange<C, O, P>) -> Whose
    ensures { result ≡ whose_of exchange.now }
{
    Whose {
        number: exchange.exchange.number(),
        place: exchange.place,
        has_origin: has_origin(&exchange.exchange),
    }
}

// Whose a client is that waits: that of the transaction before.
fn whose_waiting<C: Sourced + Drop, O: Upstream<C> + Drop>(wait: &SessionWait<C, O>) -> Whose
    ensures { result ≡ whose_waits wait.now }
{
    let left = wait.left();
    Whose {
        number: left.parts.number,
        place: left.place,
        has_origin: left.parts.origin.is_some(),
    }
}

// What becomes of the client of a transaction that has ended.
fn leave_exchange<
    C: Sourced + Drop,
    O: Upstream<C> + Drop,
    P: Transform<Line = TransformLine> + Drop,
>(
    exchange: SessionExchange<C, O, P>,
    journal: Journal,
) -> Leaving<C, O, SessionHandler<C, O, P>, GoesOn<C>>
    ensures whose { LeavesInSession (whose_of exchange) result }
    ensures becomes { (terms : SessionTerms O) → EndsExchange C.Link O.Link P.Transform terms exchange journal
        → BecomesInSession C.Link O.Link P.Transform terms result }
{
    let PlacedExchange { exchange, place } = exchange;
    let PlainExchange { parts, .. } = take_layered_apart(exchange);
    match leave_session(parts) {
        SessionLeft::GoesOn { next, parts } => {
            let left = Ended {
                parts,
                place,
                journal,
            };
            Leaving::Stays(SessionHandler {
                inside: Either::Other(Waiting::make(next, left)),
            })
        }
        SessionLeft::Ends(parts) => Leaving::Retires(Retired { parts, journal }),
    }
}

// What is left of a transaction of a session as it stands.
fn retire_exchange<
    C: Sourced + Drop,
    O: Upstream<C> + Drop,
    P: Transform<Line = TransformLine> + Drop,
>(exchange: SessionExchange<C, O, P>, journal: Journal) -> Retired<C, O>
    ensures whose { LeavesNumber (whose_of exchange) result }
    ensures journal { result.journal ≡ journal }
    ensures done { (terms : SessionTerms O) → EndsExchange C.Link O.Link P.Transform terms exchange journal
        → IsDoneBy C.Link O.Link P.Transform terms terms.behind.value result }
{
    let PlacedExchange { exchange, .. } = exchange;
    let PlainExchange { parts, .. } = take_layered_apart(exchange);
    Retired {
        parts: end_session(parts),
        journal,
    }
}

// What is left of a client that waited, as it stands.
fn retire_waiting<C: Sourced + Drop, O: Upstream<C> + Drop>(
    wait: SessionWait<C, O>,
) -> Retired<C, O>
    ensures whose { LeavesNumber (whose_waits wait) result }
    ensures client { IsLastClient C.Link wait.span result.parts.client }
    ensures left { IsLeftWith wait.left result }
{
    let Left { span, left } = wait.into_left();
    let Ended { parts, journal, .. } = left;
    Retired {
        parts: retired_parts(parts, last_client(span)),
        journal,
    }
}

// The note of the transaction behind which a client waited.
fn note_of<O>(left: Ended<O>) -> Noted<O>
    ensures { result ≡ noted_of_ended left }
{
    let Ended {
        parts,
        place,
        journal,
    } = left;
    let EndedParts {
        number,
        origin,
        cuts,
        end,
        ..
    } = parts;
    Noted {
        number,
        place,
        origin,
        cuts,
        end,
        journal,
    }
}

// Whether a client that waited goes on: some of its next request is there.
fn goes_on<C: Sourced + Drop, O: Upstream<C> + Drop>(wait: &SessionWait<C, O>) -> bool
    ensures { result ≡ is_ready wait.now.state && nat_lt wait.now.left.place LAST_PLACE }
{
    wait.is_ready() && wait.left().place < LAST_PLACE
}

// What becomes of a client that waited, once the poll has answered.
fn leave_waiting<
    C: Sourced + Drop,
    O: Upstream<C> + Drop,
    P: Transform<Line = TransformLine> + Drop,
>(wait: SessionWait<C, O>) -> Leaving<C, O, SessionHandler<C, O, P>, GoesOn<C>>
    ensures whose { LeavesInSession (whose_waits wait) result }
    ensures becomes { (terms : SessionTerms O) → StandsWaiting C.Link O.Link P.Transform terms wait
        → has_answered wait.state ≡ true → BecomesInSession C.Link O.Link P.Transform terms result }
{
    if !goes_on(&wait) {
        return Leaving::Retires(retire_waiting(wait));
    }
    let Left { span, left } = wait.into_left();
    let number = left.parts.number;
    Leaving::GoesOn {
        noted: note_of(left),
        next: GoesOn { number, span },
    }
}

/// Its tag says what the place promises: of a transaction at which place of its session it is, and of a
/// client that waits behind which transaction.
impl<C: Sourced + Drop, O: Upstream<C> + Drop, P: Transform<Line = TransformLine> + Drop> Tenant
    for SessionHandler<C, O, P> {
    type Terms = SessionTerms<O>;

    ghost keeps = { KeepsSession C.Link O.Link P.Transform };

    // Whoever asks an empty place may continue, with the fields as they are.
    fn reply_empty(question: HookQuestion) -> HookReply {
        let HookQuestion {
            hook: _,
            host: _host,
            fields,
        } = question;
        HookReply {
            answer: Ok(HookAnswer::Continue),
            fields,
        }
    }
}

impl<C: Sourced + Drop, O: Upstream<C> + Drop, P: Transform<Line = TransformLine> + Drop> Handler<
    C,
    O,
> for SessionHandler<C, O, P> {
    type Setting = ExchangeSetting;

    type Next = GoesOn<C>;

    ghost are_terms = { AreSessionTerms };

    ghost is_setting = { λ setting.
        IsTxnSetup (arc_value setting.setup) setting.plugins_at × ActsAsLines P.Transform };

    ghost behind = { behind_by };

    ghost whose_of = { whose_in_session };

    ghost is_ended = { either_of (λ t. has_ended t.value) (λ w. has_answered w.state) };

    ghost is_lacking = { either_of (λ t. false) (λ w. is_lacking w.state) };

    ghost may_wait = { either_of (λ t. false) (λ w. true) };

    ghost is_done = { λ terms. IsDoneBy C.Link O.Link P.Transform terms terms.behind.value };

    ghost is_spent = { λ terms. IsSpentBy C.Link O.Link P.Transform terms terms.behind.value };

    ghost is_note = { λ terms. IsNote C.Link O.Link P.Transform terms.setup.value terms.plugins_at };

    ghost is_next = { GoesOnBehind C.Link O.Link P.Transform };

    // There is one value of the terms, since they show the setup, a number and no transactions.
    fn terms(setting: &ExchangeSetting) -> SessionTerms<O>
        ensures are { AreSessionTerms setting.now result }
        ensures only { (other : SessionTerms O) → AreSessionTerms setting.now other → other ≡ result }
    {
        SessionTerms {
            setup: Snapshot::of(&*setting.setup),
            plugins_at: setting.plugins_at,
            behind: Snapshot::of(&None),
        }
    }

    fn make(
        alloc: Global,
        setting: &ExchangeSetting,
        number: u64,
        client: C,
        origin: Option<O>,
    ) -> Result<SessionHandler<C, O, P>, NoMemory>
        requires setting { IsTxnSetup (arc_value setting.now.setup) setting.now.plugins_at
            × ActsAsLines P.Transform }
        requires arrival { IsArrival C.Link O.Link O.Upstream.own number client origin }
        ensures whose { IfOk result (λ handler. whose_in_session handler ≡ first_of number (is_some origin)) }
        ensures lives { IfOk result (λ handler. (terms : SessionTerms O) → AreSessionTerms setting.now terms
            → LivesInSession C.Link O.Link P.Transform terms handler) }
        ensures first { IfOk result (λ handler. (terms : SessionTerms O) → AreSessionTerms setting.now terms
            → LivesInSession C.Link O.Link P.Transform (behind_by terms []) handler) }
    {
        let span = Span::make(alloc, client)?;
        let exchange = make_exchange(alloc, setting, number, span, origin)?;
        Ok(SessionHandler {
            inside: Either::One(exchange),
        })
    }

    fn make_next(
        alloc: Global,
        setting: &ExchangeSetting,
        next: GoesOn<C>,
        origin: Option<O>,
    ) -> Result<SessionHandler<C, O, P>, NoMemory>
        requires setting { IsTxnSetup (arc_value setting.now.setup) setting.now.plugins_at
            × ActsAsLines P.Transform }
        requires next { (terms : SessionTerms O) × (noted : Noted O) × AreSessionTerms setting.now terms
            × GoesOnBehind C.Link O.Link P.Transform terms noted next }
        requires origin { IfSome origin (IsNextOrigin O.Link O.Upstream.own) }
        ensures whose { IfOk result (λ handler. (terms : SessionTerms O) (noted : Noted O)
            → GoesOnBehind C.Link O.Link P.Transform terms noted next
            → whose_in_session handler ≡ next_of noted (is_some origin)) }
        ensures lives { IfOk result (λ handler. (terms : SessionTerms O) (noted : Noted O)
            → AreSessionTerms setting.now terms → GoesOnBehind C.Link O.Link P.Transform terms noted next
            → LivesInSession C.Link O.Link P.Transform terms handler) }
        ensures behind { IfOk result (λ handler. (terms : SessionTerms O) (notes : List (Noted O))
            (noted : Noted O) → AreSessionTerms setting.now terms
            → GoesOnBehind C.Link O.Link P.Transform (behind_by terms notes) noted next
            → LivesInSession C.Link O.Link P.Transform (behind_by terms (notes ++ noted ∷ [])) handler) }
    {
        let GoesOn { number, span } = next;
        let exchange = make_exchange(alloc, setting, number, span, origin)?;
        Ok(SessionHandler {
            inside: Either::One(exchange),
        })
    }

    fn whose(&self) -> Whose {
        match &self.inside {
            Either::One(exchange) => whose_exchange(exchange),
            Either::Other(wait) => whose_waiting(wait),
        }
    }

    fn has_ended(&self) -> bool {
        match &self.inside {
            Either::One(exchange) => has_ended(&exchange.exchange),
            Either::Other(wait) => wait.has_answered(),
        }
    }

    fn lacks_memory(&self) -> bool {
        match &self.inside {
            Either::One(_exchange) => false,
            Either::Other(wait) => wait.lacks_memory(),
        }
    }

    fn may_wait(&self) -> bool {
        match &self.inside {
            Either::One(_exchange) => false,
            Either::Other(_wait) => true,
        }
    }

    fn leave(self, journal: Journal) -> Leaving<C, O, SessionHandler<C, O, P>, GoesOn<C>> {
        let SessionHandler { inside } = self;
        match inside {
            Either::One(exchange) => leave_exchange(exchange, journal),
            Either::Other(wait) => leave_waiting(wait),
        }
    }

    fn retire(self, journal: Journal) -> Retired<C, O> {
        let SessionHandler { inside } = self;
        match inside {
            Either::One(exchange) => retire_exchange(exchange, journal),
            Either::Other(wait) => retire_waiting(wait),
        }
    }
}

// Serves a net of these clients and these origins as `serve_sessions` does.
fn serve_connections<
    N: Net<Client = K, Origin = O>,
    K: Sourced + Drop + Send,
    O: Upstream<K> + Drop + Send,
    Q: Transform<Line = TransformLine> + Drop + Send,
    G: Gate + Sync,
    C: Clock + Sync,
    R: Threads + Wait + Sync,
>(host: &Host<'_, G, C, R>, setup: Arc<Setup>, threads: u32, most: u32, net: &mut N) -> Served
    requires setup { IsTxnSetup (arc_value setup) PLACES }
    requires acts { ActsAsLines Q.Transform }
    requires threads { (0 < threads) × (threads ≤ MOST_THREADS) }
    requires net { IsFreshNet (N.seen net.old) }
    ensures retired { N.tells ≡ true → AreRetired
        (IsLastOf K.Link O.Link Q.Transform (arc_value setup) PLACES) (N.seen net.old) (N.seen net.new) }
    ensures sessions { N.tells ≡ true → AreSessions
        (IsNote K.Link O.Link Q.Transform (arc_value setup) PLACES)
        (IsSessionOf K.Link O.Link Q.Transform (arc_value setup) PLACES)
        (N.seen net.old) (N.seen net.new) }
    ensures spent { N.tells ≡ true → result ≢ served.NoMemory → HadSessions
        (IsSpent K.Link O.Link Q.Transform (arc_value setup) PLACES) (N.seen net.new) }
    ensures served { IsServed result most (N.seen net.old) (N.seen net.new) }
{
    let Ok(plugins) = plugins_of(host.alloc, setup.plugins.as_slice()) else {
        return Served::NoMemory;
    };
    let setting = ExchangeSetting {
        setup,
        plugins_at: PLACES,
    };
    serve::<N, SessionHandler<K, O, Q>, Plugin, G, C, R>(
        host, &setting, plugins, threads, most, net,
    )
}

/// Serves a net that has begun to listen, as `serve_transactions` does, by sessions: a connection carries
/// several transactions, one after the other, and waits for its next request in its place.
pub fn serve_sessions<
    N: Net,
    Q: Transform<Line = TransformLine> + Drop + Send,
    G: Gate + Sync,
    C: Clock + Sync,
    R: Threads + Wait + Sync,
>(host: &Host<'_, G, C, R>, setup: Arc<Setup>, threads: u32, most: u32, net: &mut N) -> Served
    requires setup { IsTxnSetup (arc_value setup) PLACES }
    requires acts { ActsAsLines Q.Transform }
    requires threads { (0 < threads) × (threads ≤ MOST_THREADS) }
    requires net { IsFreshNet (N.seen net.old) }
    ensures retired { N.tells ≡ true → AreRetired
        (IsLastOf N.Client.Link N.Origin.Link Q.Transform (arc_value setup) PLACES)
        (N.seen net.old) (N.seen net.new) }
    ensures sessions { N.tells ≡ true → AreSessions
        (IsNote N.Client.Link N.Origin.Link Q.Transform (arc_value setup) PLACES)
        (IsSessionOf N.Client.Link N.Origin.Link Q.Transform (arc_value setup) PLACES)
        (N.seen net.old) (N.seen net.new) }
    ensures spent { N.tells ≡ true → result ≢ served.NoMemory → HadSessions
        (IsSpent N.Client.Link N.Origin.Link Q.Transform (arc_value setup) PLACES) (N.seen net.new) }
    ensures served { IsServed result most (N.seen net.old) (N.seen net.new) }
{
    serve_connections::<N, N::Client, N::Origin, Q, G, C, R>(host, setup, threads, most, net)
}
