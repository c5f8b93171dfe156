//! How a transaction is made of its links, and taken apart.
ghost use Rattle.std.specs.Prelude.{◌≡◌, ℕ, ◌≤◌, List, [], true, false, Some, None, IfOk};
ghost use Rattle.std.specs.Arc.{arc_value};
ghost use Rattle.std.specs.Option.{option_copied};
ghost use Rattle.ts_group.specs.declared.action.Named.{Named};
ghost use Rattle.ts_hooks.specs.declared.txn_end.TxnEnd.{TxnEnd};
ghost use Rattle.ts_journal.specs.declared.entry.Pending.{Pending};
ghost use Rattle.ts_journal.specs.declared.entry.TheConstants.{GREATEST};
ghost use Rattle.ts_phases.specs.Causes.{HasCause};
ghost use Rattle.ts_phases.specs.View.{view_of};
ghost use Rattle.ts_txn.specs.CourseCover.{is_fresh_on};
ghost use Rattle.ts_passing.specs.Lines.{ActsAsLines};
ghost use Rattle.ts_txn.specs.Making.{ArePaired, IsMadeOf, IsMadeOfIf, IsNewLink, IsNewLinkIf, IsTxnSetup};
ghost use Rattle.ts_txn.specs.Making.{base_if, end_of_course, end_of_phase, link_if};
ghost use Rattle.ts_txn.specs.Resting.{HasEndedSo, RestsWithBlock};
ghost use Rattle.ts_txn.specs.Sending.{TxnSendsOnce, TxnSendsRequestFirst};
ghost use Rattle.ts_txn.specs.World.{IsSoundTxn};

use crate::course::Course;
use crate::txn::Txn;
use std::alloc::Global;
use std::sync::Arc;
use ts_config::{Setup, TransformLine};
use ts_hooks::TxnEnd;
use ts_iobuf::Waiting;
use ts_link::{Link, NoMemory};
use ts_phases::{Core, Peer, Phase, Received, Sent};
use ts_plugin::table_of;
use ts_transform::Transform;
use ts_upstream::Upstream;
use ts_wire::Mode;

/// How many lines of a configuration that name a hook plugin a transaction takes at most.
pub const MOST_PLUGINS: u32 = 64;

/// How many mutex groups there are at most, so that each of those plugins has one.
pub const MOST_GROUPS: u32 = 4_096;

/// What is left of a transaction: its links, what was queued for the client, and how it ended.
#[derive(Drop)]
pub struct TxnParts<C, O> {
    /// The number that it was made with.
    pub number: u64,
    /// The client's link.
    pub client: C,
    /// The origin's link, if there is one.
    pub origin: Option<O>,
    /// The length of the client's head in bytes, 0 where none was queued.
    pub head: u64,
    /// How the client's body is written.
    pub mode: Mode,
    /// How many faults the client's link had met when the transaction was made.
    pub client_faults: u64,
    /// The same of the origin's link, 0 without an origin.
    pub origin_faults: u64,
    /// The lengths of the pieces of body that were framed, in bytes.
    pub cuts: Vec<u32>,
    /// How the transaction ended, if it has.
    pub end: Option<TxnEnd>,
}

// One side of a transaction, on which nothing waits.
fn make_peer<L: Link + Drop>(alloc: Global, link: L) -> Result<Peer<L>, NoMemory>
    ensures { IfOk result (IsMadeOf L.look link) }
{
    let inbox = Received::new(alloc)?;
    let outbox = Waiting::new(alloc)?;
    Ok(Peer {
        base: link.faults(),
        link,
        inbox,
        outbox,
    })
}

// The same of the origin's link, if there is one.
fn make_peer_if<L: Link + Drop>(alloc: Global, link: Option<L>) -> Result<Option<Peer<L>>, NoMemory>
    ensures { IfOk result (IsMadeOfIf L.look link) }
{
    match link {
        Some(link) => {
            let peer = make_peer(alloc, link)?;
            Ok(Some(peer))
        }
        None => Ok(None),
    }
}

impl<C: Link + Drop, O: Upstream<C> + Drop, P: Transform<Line = TransformLine> + Drop> Txn<
    C,
    O,
    P,
> {
    /// A transaction between a client and an origin, which were not used. It was not started. Its hook
    /// plugins have the groups from `plugins_at` on; its setup has few lines, and their header rules leave
    /// alone what the proxy sees to itself.
    pub fn make(
        alloc: Global,
        number: u64,
        setup: Arc<Setup>,
        plugins_at: u32,
        client: C,
        origin: Option<O>,
    ) -> Result<Txn<C, O, P>, NoMemory>
        requires setup { IsTxnSetup (arc_value setup) plugins_at }
        requires acts { ActsAsLines P.Transform }
        requires client { C.tells ≡ true → IsNewLink (C.look client) }
        requires origin { O.tells ≡ true → IsNewLinkIf O.look origin }
        requires pair { ArePaired O.paired client origin }
        ensures named { IfOk result (λ t. (t.core.number ≡ number) × (t.core.setup ≡ setup)
            × (t.core.plugins_at ≡ plugins_at) × (t.course ≡ Course.Phased Phase.Fresh)) }
        ensures links { IfOk result (λ t. IsMadeOf C.look client t.core.client
            × IsMadeOfIf O.look origin t.core.origin) }
        ensures sound { IfOk result (λ t. (next : ℕ) (roles : List Named) →
            IsSoundTxn C.Link O.Link O.Upstream.own P.Transform t [] next roles) }
    {
        let hooks = table_of(alloc, setup.plugins.as_slice(), plugins_at)?;
        let client = make_peer(alloc, client)?;
        let origin = make_peer_if(alloc, origin)?;
        let core = Core {
            alloc,
            number,
            setup,
            plugins_at,
            hooks,
            client,
            origin,
            sent: Sent {
                head: 0,
                mode: Mode::Plain,
                cuts: Vec::new(alloc),
            },
        };
        Ok(Txn {
            core,
            main: None,
            course: Course::Phased(Phase::Fresh),
        })
    }

    /// How it ended; nothing while it has not. Once nothing of its group is pending, a transaction that
    /// was started has ended, or the event numbers are used up. Whether the links tell or not, it ended
    /// for the fault of one only where that one has failed since the transaction was made. Where both
    /// links tell, neither failed, and memory did not lack: where a line finished early on what was read
    /// of a body, it ended whole, with what the lines make of every body that begins so; and else where
    /// the body was cut or bad, with what they had written of it. Where both links tell, what a
    /// transaction sends, header rules included, is one request to its origin and one response to its
    /// client at most; and once a head was queued for the client, the request stands whole at the origin,
    /// with its upload behind it, of which none is left unless it is refused, and nothing waits for it,
    /// unless the origin's link failed.
    pub fn end(&self) -> Option<TxnEnd>
        ensures end { result ≡ end_of_course self.now.course }
        ensures rests { result ≡ None → is_fresh_on self.now.course ≡ false → (next : ℕ) (roles : List Named)
            → IsSoundTxn C.Link O.Link O.Upstream.own P.Transform
            self.now [] next roles
            → GREATEST ≤ next }
        ensures law { (end : TxnEnd) → result ≡ Some end
            → (pending : List Pending) (next : ℕ) (roles : List Named)
            → IsSoundTxn C.Link O.Link O.Upstream.own P.Transform
            self.now pending next roles
            → HasEndedSo C.Link O.Link O.Upstream.own self.now end }
        ensures causes { (end : TxnEnd) → result ≡ Some end
            → (pending : List Pending) (next : ℕ) (roles : List Named)
            → IsSoundTxn C.Link O.Link O.Upstream.own P.Transform
            self.now pending next roles
            → HasCause (view_of C.Link O.Link self.now.core) end }
        ensures block { (next : ℕ) (roles : List Named)
            → IsSoundTxn C.Link O.Link O.Upstream.own P.Transform
            self.now [] next roles
            → RestsWithBlock C.Link O.Link O.Upstream.own self.now next }
        ensures once { (pending : List Pending) (next : ℕ) (roles : List Named)
            → IsSoundTxn C.Link O.Link O.Upstream.own P.Transform
            self.now pending next roles
            → TxnSendsOnce C.Link O.Link self.now }
        ensures first { (pending : List Pending) (next : ℕ) (roles : List Named)
            → IsSoundTxn C.Link O.Link O.Upstream.own P.Transform
            self.now pending next roles
            → TxnSendsRequestFirst C.Link O.Link O.Upstream.own self.now }
    {
        end_of_course(&self.course)
    }

    /// The number that it was made with.
    pub fn number(&self) -> u64
        ensures { result ≡ self.now.core.number }
    {
        self.core.number
    }

    /// The link to the origin that it holds.
    pub fn origin(&self) -> Option<&O>
        ensures { option_copied result ≡ link_if self.now.core.origin }
    {
        match &self.core.origin {
            Some(peer) => Some(&peer.link),
            None => None,
        }
    }

    /// Takes it apart.
    pub fn into_parts(self) -> TxnParts<C, O>
        ensures links { (result.client ≡ self.core.client.link) × (result.origin ≡ link_if self.core.origin) }
        ensures sent { (result.head ≡ self.core.sent.head) × (result.mode ≡ self.core.sent.mode)
            × (result.cuts.items ≡ self.core.sent.cuts.items) }
        ensures faults { (result.client_faults ≡ self.core.client.base)
            × (result.origin_faults ≡ base_if self.core.origin) }
        ensures end { (result.number ≡ self.core.number) × (result.end ≡ end_of_course self.course) }
    {
        let number = self.core.number;
        let end = self.end();
        let Txn {
            core,
            main: _,
            course: _,
        } = self;
        let Core {
            alloc: _,
            number: _,
            setup: _,
            plugins_at: _,
            hooks: _,
            client,
            origin,
            sent,
        } = core;
        let Peer {
            link: client,
            base: client_faults,
            inbox: _,
            outbox: _,
        } = client;
        let (origin, origin_faults) = link_of(origin);
        let Sent { head, mode, cuts } = sent;
        TxnParts {
            number,
            client,
            origin,
            head,
            mode,
            client_faults,
            origin_faults,
            cuts,
            end,
        }
    }
}

// How a transaction has ended, if it has: only in its last phase.
fn end_of_course<P>(course: &Course<P>) -> Option<TxnEnd>
    ensures { result ≡ end_of_course course.now }
{
    match course {
        Course::Phased(phase) => end_of_phase(phase),
        Course::Relaying(_) => None,
        Course::Finishing { .. } => None,
    }
}

fn end_of_phase(phase: &Phase) -> Option<TxnEnd>
    ensures { result ≡ end_of_phase phase.now }
{
    match phase {
        Phase::Ended { end } => Some(*end),
        _ => None,
    }
}

// The origin's link, if there is one, and its faults when the transaction was made.
fn link_of<L: Drop>(origin: Option<Peer<L>>) -> (Option<L>, u64)
    ensures { (result.0 ≡ link_if origin) × (result.1 ≡ base_if origin) }
{
    match origin {
        Some(peer) => {
            let Peer {
                link,
                base,
                inbox: _,
                outbox: _,
            } = peer;
            (Some(link), base)
        }
        None => (None, 0),
    }
}
