//! A net that is served by transactions of one setup, which have its layers over their ends, with the plugins
//! of its lines beside them.

ghost use Rattle.std.specs.Prelude.{⊤, ◌≡◌, ◌<◌, ◌≤◌, List, [], is_some, false, true, IfOk, IfSome};
ghost use Rattle.std.specs.Arc.{arc_value};
ghost use Rattle.ts_exchange.specs.Left.{has_ended};
ghost use Rattle.ts_history.specs.Done.{IsTxnDone};
ghost use Rattle.ts_layers.specs.Links.{client_link, origin_link, origin_uploads};
ghost use Rattle.ts_passing.specs.Lines.{ActsAsLines};
ghost use Rattle.ts_thread.specs.declared.TheConstants.{MOST_THREADS};
ghost use Rattle.ts_txn.specs.Making.{IsTxnSetup};
ghost use Rattle.ts_txn.specs.Net.{IsFreshNet, IsNextOrigin};
ghost use Rattle.ts_txn.specs.World.{IsSoundTxn, IsTxnOf};
ghost use Rattle.ts_txn.specs.declared.retired.Noted.{Noted};
ghost use Rattle.ts_serve.specs.declared.acceptor.TheConstants.{PLACES};
ghost use Rattle.ts_serve.specs.declared.exchanges.TxnTerms.{TxnTerms};
ghost use Rattle.ts_serve.specs.Arrivals.{IsArrival};
ghost use Rattle.ts_serve.specs.Exchanges.{AreTerms, ComesAfter, KeepsTerms, whose_of};
ghost use Rattle.ts_serve.specs.Places.{FitsAtPlace};
ghost use Rattle.ts_serve.specs.Served.{AreRetired, IsServed};
ghost use Rattle.ts_serve.specs.Tenants.{MayLive};
ghost use Rattle.ts_serve.specs.Whose.{first_of, next_of};

use crate::acceptor::{PLACES, Served};
use crate::leaving::Leaving;
use crate::placed::PlacedExchange;
use crate::run::serve;
use crate::service::Host;
use crate::tenant::{Handler, Tenant};
use crate::whose::Whose;
use std::alloc::Global;
use std::snapshot::Snapshot;
use std::sync::{Arc, Wait};
use std::thread::Threads;
use ts_config::{Setup, TransformLine};
use ts_exchange::{ExchangeSetting, Promise, has_ended, plugins_of};
use ts_hooks::HookAnswer;
use ts_journal::Journal;
use ts_layers::{PlainExchange, has_origin, make_layered, take_layered_apart};
use ts_link::{Clock, Gate, NoMemory, Sourced};
use ts_plugin::{HookQuestion, HookReply, Plugin};
use ts_transform::Transform;
use ts_txn::{Net, Retired};
use ts_upstream::Upstream;

/// What a place promises of the transaction in it. The setup is for contracts alone, and takes no memory.
#[derive(Drop)]
pub struct TxnTerms {
    pub setup: Snapshot<Setup>,
    /// The group of the first plugin line.
    pub plugins_at: u32,
}

/// A client that comes with its number.
#[derive(Drop)]
pub struct Comer<C> {
    pub number: u64,
    pub client: C,
}

// A place promises nothing of the links of a transaction, and others stood in it before.
const PROMISE: Promise = Promise {
    is_sure: false,
    is_first: false,
};

// Nobody reports what was taken in the place of an origin, so it is not kept.
const KEEPS: bool = false;

/// Its tag says what the place promises, and that its number is the name of its client.
impl<C: Sourced + Drop, O: Upstream<C> + Drop, P: Transform<Line = TransformLine> + Drop> Tenant
    for PlacedExchange<C, O, P> {
    type Terms = TxnTerms;

    ghost keeps = { λ terms tag. KeepsTerms C.look terms tag.value };

    // Whoever asks an empty place may continue, with the fields as they are.
    fn reply_empty(question: HookQuestion) -> HookReply {
        let HookQuestion {
            hook: _,
            host: _host,
            fields,
        } = question;
        HookReply {
            answer: Ok(HookAnswer::Continue),
            fields,
        }
    }
}

impl<C: Sourced + Drop, O: Upstream<C> + Drop, P: Transform<Line = TransformLine> + Drop> Handler<
    C,
    O,
> for PlacedExchange<C, O, P> {
    type Setting = ExchangeSetting;

    // No client of such a server goes on. What would be made of one is what is made of one that came.
    type Next = Comer<C>;

    ghost are_terms = { AreTerms };

    ghost is_setting = { λ setting.
        IsTxnSetup (arc_value setting.setup) setting.plugins_at × ActsAsLines P.Transform };

    ghost behind = { λ terms notes. terms };

    ghost whose_of = { λ t. whose_of t };

    ghost is_ended = { λ t. has_ended t.value };

    ghost is_lacking = { λ t. false };

    ghost may_wait = { λ t. false };

    ghost is_done = { λ terms.
        IsTxnDone C.Link O.Link O.Upstream.own P.Transform terms.setup.value terms.plugins_at };

    ghost is_spent = { λ terms r. ⊤ };

    ghost is_note = { λ terms noted. ⊥ };

    ghost is_next = { λ terms noted next. ComesAfter C.Link O.Link O.Upstream.own noted next };

    // There is one value of the terms, since they show the setup and a number.
    fn terms(setting: &ExchangeSetting) -> TxnTerms
        ensures are { AreTerms setting.now result }
        ensures only { (other : TxnTerms) → AreTerms setting.now other → other ≡ result }
    {
        TxnTerms {
            setup: Snapshot::of(&*setting.setup),
            plugins_at: setting.plugins_at,
        }
    }

    fn make(
        alloc: Global,
        setting: &ExchangeSetting,
        number: u64,
        client: C,
        origin: Option<O>,
    ) -> Result<PlacedExchange<C, O, P>, NoMemory>
        requires setting { IsTxnSetup (arc_value setting.now.setup) setting.now.plugins_at
            × ActsAsLines P.Transform }
        requires arrival { IsArrival C.Link O.Link O.Upstream.own number client origin }
        ensures whose { IfOk result (λ exchange. whose_of exchange ≡ first_of number (is_some origin)) }
        ensures lives { IfOk result (λ exchange. (terms : TxnTerms) → AreTerms setting.now terms
            → MayLive (FitsAtPlace (IsTxnOf (client_link C.Link) (origin_link O.Link)))
            (λ terms tag. KeepsTerms C.look terms tag.value)
            (λ t s roles. IsSoundTxn (client_link C.Link) (origin_link O.Link)
            (origin_uploads C.Link O.Link O.Upstream.own P.Transform) P.Transform t.value s.pending s.next
            roles)
            terms exchange) }
        ensures first { IfOk result (λ exchange. (terms : TxnTerms) → AreTerms setting.now terms
            → MayLive (FitsAtPlace (IsTxnOf (client_link C.Link) (origin_link O.Link)))
            (λ terms tag. KeepsTerms C.look terms tag.value)
            (λ t s roles. IsSoundTxn (client_link C.Link) (origin_link O.Link)
            (origin_uploads C.Link O.Link O.Upstream.own P.Transform) P.Transform t.value s.pending s.next
            roles)
            terms exchange) }
    {
        let (exchange, _tag) = make_layered(
            alloc, setting, number, PROMISE, KEEPS, client, origin,
        )?;
        Ok(PlacedExchange { exchange, place: 1 })
    }

    fn make_next(
        alloc: Global,
        setting: &ExchangeSetting,
        next: Comer<C>,
        origin: Option<O>,
    ) -> Result<PlacedExchange<C, O, P>, NoMemory>
        requires setting { IsTxnSetup (arc_value setting.now.setup) setting.now.plugins_at
            × ActsAsLines P.Transform }
        requires next { (terms : TxnTerms) × (noted : Noted O) × AreTerms setting.now terms
            × ComesAfter C.Link O.Link O.Upstream.own noted next }
        requires origin { IfSome origin (IsNextOrigin O.Link O.Upstream.own) }
        ensures whose { IfOk result (λ exchange. (terms : TxnTerms) (noted : Noted O)
            → ComesAfter C.Link O.Link O.Upstream.own noted next
            → whose_of exchange ≡ next_of noted (is_some origin)) }
        ensures lives { IfOk result (λ exchange. (terms : TxnTerms) (noted : Noted O)
            → AreTerms setting.now terms → ComesAfter C.Link O.Link O.Upstream.own noted next
            → MayLive (FitsAtPlace (IsTxnOf (client_link C.Link) (origin_link O.Link)))
            (λ terms tag. KeepsTerms C.look terms tag.value)
            (λ t s roles. IsSoundTxn (client_link C.Link) (origin_link O.Link)
            (origin_uploads C.Link O.Link O.Upstream.own P.Transform) P.Transform t.value s.pending s.next
            roles)
            terms exchange) }
        ensures behind { IfOk result (λ exchange. (terms : TxnTerms) (notes : List (Noted O))
            (noted : Noted O)
            → AreTerms setting.now terms → ComesAfter C.Link O.Link O.Upstream.own noted next
            → MayLive (FitsAtPlace (IsTxnOf (client_link C.Link) (origin_link O.Link)))
            (λ terms tag. KeepsTerms C.look terms tag.value)
            (λ t s roles. IsSoundTxn (client_link C.Link) (origin_link O.Link)
            (origin_uploads C.Link O.Link O.Upstream.own P.Transform) P.Transform t.value s.pending s.next
            roles)
            terms exchange) }
    {
        let Comer { number, client } = next;
        <PlacedExchange<C, O, P> as Handler<C, O>>::make(alloc, setting, number, client, origin)
    }

    fn whose(&self) -> Whose {
        Whose {
            number: self.exchange.number(),
            place: self.place,
            has_origin: has_origin(&self.exchange),
        }
    }

    fn has_ended(&self) -> bool {
        has_ended(&self.exchange)
    }

    fn lacks_memory(&self) -> bool {
        false
    }

    fn may_wait(&self) -> bool {
        false
    }

    fn leave(self, journal: Journal) -> Leaving<C, O, PlacedExchange<C, O, P>, Comer<C>> {
        Leaving::Retires(<PlacedExchange<C, O, P> as Handler<C, O>>::retire(self, journal))
    }

    fn retire(self, journal: Journal) -> Retired<C, O> {
        let PlainExchange { parts, .. } = take_layered_apart(self.exchange);
        Retired { parts, journal }
    }
}

// Serves a net of these clients and these origins as `serve_transactions` does.
fn serve_links<
    N: Net<Client = K, Origin = O>,
    K: Sourced + Drop + Send,
    O: Upstream<K> + Drop + Send,
    Q: Transform<Line = TransformLine> + Drop + Send,
    G: Gate + Sync,
    C: Clock + Sync,
    R: Threads + Wait + Sync,
>(host: &Host<'_, G, C, R>, setup: Arc<Setup>, threads: u32, most: u32, net: &mut N) -> Served
    requires setup { IsTxnSetup (arc_value setup) PLACES }
    requires acts { ActsAsLines Q.Transform }
    requires threads { (0 < threads) × (threads ≤ MOST_THREADS) }
    requires net { IsFreshNet (N.seen net.old) }
    ensures retired { N.tells ≡ true → AreRetired
        (IsTxnDone K.Link O.Link O.Upstream.own Q.Transform (arc_value setup) PLACES)
        (N.seen net.old) (N.seen net.new) }
    ensures noted { N.tells ≡ true → (N.seen net.new).noted ≡ [] }
    ensures served { IsServed result most (N.seen net.old) (N.seen net.new) }
{
    let Ok(plugins) = plugins_of(host.alloc, setup.plugins.as_slice()) else {
        return Served::NoMemory;
    };
    let setting = ExchangeSetting {
        setup,
        plugins_at: PLACES,
    };
    serve::<N, PlacedExchange<K, O, Q>, Plugin, G, C, R>(
        host, &setting, plugins, threads, most, net,
    )
}

/// Serves a net that has begun to listen, with so many event threads, until so many clients came, or it is
/// closed or fails, and what is left of each transaction was handed to it. At most 256 transactions run at a
/// time, all under this setup; the plugins of its lines have the groups behind their places. The net is
/// served as `serve` says.
pub fn serve_transactions<
    N: Net,
    Q: Transform<Line = TransformLine> + Drop + Send,
    G: Gate + Sync,
    C: Clock + Sync,
    R: Threads + Wait + Sync,
>(host: &Host<'_, G, C, R>, setup: Arc<Setup>, threads: u32, most: u32, net: &mut N) -> Served
    requires setup { IsTxnSetup (arc_value setup) PLACES }
    requires acts { ActsAsLines Q.Transform }
    requires threads { (0 < threads) × (threads ≤ MOST_THREADS) }
    requires net { IsFreshNet (N.seen net.old) }
    ensures retired { N.tells ≡ true → AreRetired
        (IsTxnDone N.Client.Link N.Origin.Link N.Origin.Upstream.own Q.Transform (arc_value setup) PLACES)
        (N.seen net.old) (N.seen net.new) }
    ensures noted { N.tells ≡ true → (N.seen net.new).noted ≡ [] }
    ensures served { IsServed result most (N.seen net.old) (N.seen net.new) }
{
    serve_links::<N, N::Client, N::Origin, Q, G, C, R>(host, setup, threads, most, net)
}
