//! A chain between two links, as a world of a mutex group: it reads its body from one and writes to the
//! other.
ghost use Rattle.std.specs.Prelude.{◌≡◌, ◌⊎◌, ℕ, List, [], map, true, false, refl, ⊤, Some, None, IfOk};
ghost use Rattle.ts_journal.specs.declared.entry.Pending.{Pending};
ghost use Rattle.ts_group.specs.declared.action.Named.{Named};
ghost use Rattle.ts_group.specs.declared.world.Want.TheVariants as Want;
ghost use Rattle.ts_group.specs.Calls.{IsCalled};
ghost use Rattle.ts_group.specs.Context.{IsSame};
ghost use Rattle.ts_group.specs.Entries.{Grows};
ghost use Rattle.ts_transform.specs.declared.link_world.TheConstants.{READER, WRITER};
ghost use Rattle.ts_transform.specs.Flow.{IsFinished, MustRead, MustWrite, aborted, compose, flow, fresh_stage};
ghost use Rattle.ts_transform.specs.Driving.{ActsWithin, IsNamedIf, IsRousedIf, SetsOnly, most_by_stage, most_for_ends, most_by_event};
ghost use Rattle.ts_transform.specs.Driven.{SameCourse};
ghost use Rattle.ts_transform.specs.Along.{ActsAlong, HandlesAlong, HandlesEnd, ReadsOnce, RousesAnEnd, SetsForDuty, WorksAlong, WritesOnce};
ghost use Rattle.ts_transform.specs.Carrying.{AreEndsRoused, GetsNoMore, HandlesCarried, HandlesJoined, HandlesWaits, HasBegunAlong, HasLinkBegun, HasNoDuty, HasStepped, InputWaits, IsCarried, IsOfNobody, IsSameBut, KeepsCourse, KeepsReader, KeepsWriter, LacksMemory, Moves, OutputWaits, RetriesRead, RetriesWrite, RousesEnd, StaysJoined, StepsAlong, TriesAgain, most_by_start};

use crate::chain::Chain;
use crate::continuation::{StageContinuation, works};
use crate::driven::DrivenChain;
use crate::link_ends::{make_end, rouse_end, unrouse};
use crate::loss::Loss;
use crate::transform::Transform;
use std::alloc::Global;
use ts_group::{Asked, Cx, Want, World};
use ts_journal::{Event, Slotted};
use ts_link::{Link, NoMemory, Put, RETRY_AFTER};
use ts_vconn::Pulled;

/// The role of the writer.
pub const WRITER: u32 = 1;

/// The role of the reader.
pub const READER: u32 = 2;

/// The role of the first stage.
pub const FIRST: u32 = 3;

/// A chain that reads its body from one link and writes to another. Its continuations are the writer, the
/// reader, and one for each stage, with the roles from the first on.
#[derive(Drop)]
pub struct LinkWorld<I, K, P> {
    input: I,
    output: K,
    driven: DrivenChain<P>,
    writer: Option<StageContinuation>,
    reader: Option<StageContinuation>,
    // A link failed or memory lacked, and the chain was aborted.
    aborted: bool,
}

impl<I: Link + Drop, K: Link + Drop, P: Transform + Drop> LinkWorld<I, K, P> {
    /// A chain of these parts, the first of which acts first, between two links. It was not started.
    pub fn make(
        alloc: Global,
        parts: Vec<P>,
        input: I,
        output: K,
    ) -> Result<LinkWorld<I, K, P>, NoMemory>
        ensures made { IfOk result (λ w. w.driven.chain
            ≡ record { first = []; stages = map (fresh_stage P.soon P.pause) parts.items; given = false }) }
        ensures flow { IfOk result
            (λ w. (z : List ℕ) → flow P.rest w.driven.chain z ≡ compose P.rest parts.items z) }
        ensures links { IfOk result (λ w. (w.input ≡ input) × (w.output ≡ output)) }
        ensures fresh { IfOk result (λ w. (w.driven.table.items ≡ []) × (w.driven.running ≡ false)
            × (w.driven.lost ≡ None) × (w.aborted ≡ false)) }
        ensures carried { IfOk result
            (λ w. (pending : List Pending) (next : ℕ) (roles : List Named) → IsCarried w pending next roles) }
    {
        let chain = Chain::make(alloc, parts)?;
        Ok(LinkWorld {
            input,
            output,
            driven: DrivenChain::make(alloc, chain),
            writer: None,
            reader: None,
            aborted: false,
        })
    }

    /// Hands the links back.
    pub fn into_links(self) -> (I, K)
        ensures { (result.0 ≡ self.input) × (result.1 ≡ self.output) }
    {
        let LinkWorld {
            input,
            output,
            driven: _,
            writer: _,
            reader: _,
            aborted: _,
        } = self;
        (input, output)
    }

    /// The chain.
    pub fn chain(&self) -> &Chain<P>
        ensures { result.now ≡ self.now.driven.chain }
    {
        self.driven.chain()
    }

    /// Whether it was started and nothing was lost: each duty has an event. So it has written all, once
    /// nothing is pending, and has read all that its chain wanted.
    pub fn is_running(&self) -> bool
        ensures running { result ≡ self.now.driven.running }
        ensures finished { result ≡ true → (next : ℕ) (roles : List Named) → IsCarried self.now [] next roles
            → IsFinished self.now.driven.chain × GetsNoMore self.now.driven.chain }
    {
        self.driven.is_running()
    }

    /// Whether the chain was aborted, since a link failed or memory lacked.
    pub fn is_aborted(&self) -> bool
        ensures { result ≡ self.now.aborted }
    {
        self.aborted
    }

    /// Why an event was lost, the last time; `None` where none was.
    pub fn lost(&self) -> Option<Loss>
        ensures { result ≡ self.now.driven.lost }
    {
        self.driven.lost()
    }
}

// What a step is made of.
impl<I: Link + Drop, K: Link + Drop, P: Transform + Drop> LinkWorld<I, K, P> {
    // Drops all that waits, since a link failed or memory lacked: nothing is left to do.
    fn abort(&mut self)
        ensures chain { self.new.driven.chain ≡ aborted self.old.driven.chain }
        ensures course { SameCourse self.old.driven self.new.driven }
        ensures links { (self.new.input ≡ self.old.input) × (self.new.output ≡ self.old.output) }
        ensures ends { (self.new.writer ≡ self.old.writer) × (self.new.reader ≡ self.old.reader) }
        ensures aborted { self.new.aborted ≡ true }
    {
        self.driven.chain.abort();
        self.aborted = true;
    }

    // Sees that an event of the writer is pending, if it must work.
    fn rouse_writer(&mut self, must: bool, after: u64, cx: &mut Cx)
        requires turn { cx.old.log.state.held ≡ true }
        ensures same { IsSameBut self.old self.new }
        ensures joined { StaysJoined self.old self.new cx.old cx.new }
        ensures course { KeepsCourse self.old self.new cx.old cx.new }
        ensures within { ActsWithin 1 cx.old cx.new }
        ensures rouses { RousesEnd self.old.writer must WRITER after self.old self.new cx.old cx.new }
        ensures roused { self.new.driven.running ≡ true → must ≡ true → IsRousedIf self.new.writer }
        ensures kept { KeepsReader self.old self.new }
    {
        match rouse_end(&mut self.writer, must, after, cx) {
            Ok(()) => {}
            Err(fault) => {
                self.driven.running = false;
                self.driven.lost = Some(Loss::of_set(&fault));
            }
        }
    }

    // Sees that an event of the reader is pending, if it must work.
    fn rouse_reader(&mut self, must: bool, after: u64, cx: &mut Cx)
        requires turn { cx.old.log.state.held ≡ true }
        ensures same { IsSameBut self.old self.new }
        ensures joined { StaysJoined self.old self.new cx.old cx.new }
        ensures course { KeepsCourse self.old self.new cx.old cx.new }
        ensures within { ActsWithin 1 cx.old cx.new }
        ensures rouses { RousesEnd self.old.reader must READER after self.old self.new cx.old cx.new }
        ensures roused { self.new.driven.running ≡ true → must ≡ true → IsRousedIf self.new.reader }
        ensures kept { KeepsWriter self.old self.new }
    {
        match rouse_end(&mut self.reader, must, after, cx) {
            Ok(()) => {}
            Err(fault) => {
                self.driven.running = false;
                self.driven.lost = Some(Loss::of_set(&fault));
            }
        }
    }

    // Reads once from the input, where the chain wants more and has room.
    fn read(&mut self, cx: &mut Cx)
        requires turn { cx.old.log.state.held ≡ true }
        ensures moves { Moves P.rest I.tells K.tells I.look K.look self.old self.new }
        ensures joined { StaysJoined self.old self.new cx.old cx.new }
        ensures course { KeepsCourse self.old self.new cx.old cx.new }
        ensures duty { SetsForDuty P.pause self.old self.new cx.old cx.new }
        ensures retries { IsNamedIf cx.old.roles READER self.old.reader → InputWaits I.look self.old self.new
            → RetriesRead self.old self.new cx.old cx.new }
        ensures leaves { (self.new.output ≡ self.old.output)
            × ((MustRead self.old.driven.chain → ⊥) → self.new ≡ self.old) }
        ensures does { MustRead self.old.driven.chain → ReadsOnce I.look self.old self.new }
    {
        if !self.driven.chain.must_read() {
            return;
        }
        match self.driven.chain.pull(&mut self.input) {
            Ok(Pulled::Some(_)) => {
                let _told = self.driven.rouse_first(cx);
            }
            Ok(Pulled::End) => {
                let _told = self.driven.give_end(cx);
            }
            Ok(Pulled::Again) => self.rouse_reader(true, RETRY_AFTER, cx),
            Ok(Pulled::Failed) => self.abort(),
            Err(_) => {
                self.driven.running = false;
                self.driven.lost = Some(Loss::NoMemory);
            }
        }
    }

    // Writes once to the output, where bytes wait for it.
    fn write(&mut self, cx: &mut Cx)
        requires turn { cx.old.log.state.held ≡ true }
        ensures moves { Moves P.rest I.tells K.tells I.look K.look self.old self.new }
        ensures joined { StaysJoined self.old self.new cx.old cx.new }
        ensures course { KeepsCourse self.old self.new cx.old cx.new }
        ensures duty { SetsForDuty P.pause self.old self.new cx.old cx.new }
        ensures retries { IsNamedIf cx.old.roles WRITER self.old.writer → OutputWaits K.look self.old self.new
            → RetriesWrite self.old self.new cx.old cx.new }
        ensures leaves { (self.new.input ≡ self.old.input)
            × ((MustWrite self.old.driven.chain → ⊥) → self.new ≡ self.old) }
        ensures does { MustWrite self.old.driven.chain → WritesOnce K.look self.old self.new }
    {
        let Some(block) = self.driven.chain.out_block() else {
            return;
        };
        match self.output.write(block) {
            Put::Took(count) => {
                let _told = self.driven.take(count, cx);
            }
            Put::Again => self.rouse_writer(true, RETRY_AFTER, cx),
            Put::Failed => self.abort(),
            Put::NoMemory => {
                self.driven.running = false;
                self.driven.lost = Some(Loss::NoMemory);
            }
        }
    }

    // Handles an event of the writer.
    fn write_at(&mut self, event: Event, cx: &mut Cx)
        requires turn { cx.old.log.state.held ≡ true }
        ensures moves { Moves P.rest I.tells K.tells I.look K.look self.old self.new }
        ensures joined { HandlesJoined WRITER event self.old self.new cx.old cx.new }
        ensures course { KeepsCourse self.old self.new cx.old cx.new }
        ensures duty { SetsForDuty P.pause self.old self.new cx.old cx.new }
        ensures retries { IsNamedIf cx.old.roles WRITER self.old.writer → OutputWaits K.look self.old self.new
            → RetriesWrite self.old self.new cx.old cx.new }
        ensures input { self.new.input ≡ self.old.input }
        ensures duties { HandlesEnd event (MustWrite self.old.driven.chain)
            (WritesOnce K.look self.old self.new) self.old self.new cx.old cx.new }
    {
        if works(event) {
            unrouse(&mut self.writer);
            self.write(cx);
        }
    }

    // Handles an event of the reader.
    fn read_at(&mut self, event: Event, cx: &mut Cx)
        requires turn { cx.old.log.state.held ≡ true }
        ensures moves { Moves P.rest I.tells K.tells I.look K.look self.old self.new }
        ensures joined { HandlesJoined READER event self.old self.new cx.old cx.new }
        ensures course { KeepsCourse self.old self.new cx.old cx.new }
        ensures duty { SetsForDuty P.pause self.old self.new cx.old cx.new }
        ensures retries { IsNamedIf cx.old.roles READER self.old.reader → InputWaits I.look self.old self.new
            → RetriesRead self.old self.new cx.old cx.new }
        ensures output { self.new.output ≡ self.old.output }
        ensures duties { HandlesEnd event (MustRead self.old.driven.chain)
            (ReadsOnce I.look self.old self.new) self.old self.new cx.old cx.new }
    {
        if works(event) {
            unrouse(&mut self.reader);
            self.read(cx);
        }
    }

    // Handles an event of a role, and leaves it to others to rouse the writer and the reader.
    fn work(&mut self, role: u32, event: Event, cx: &mut Cx)
        requires turn { cx.old.log.state.held ≡ true }
        ensures moves { Moves P.rest I.tells K.tells I.look K.look self.old self.new }
        ensures joined { HandlesJoined role event self.old self.new cx.old cx.new }
        ensures course { WorksAlong P.rest P.pause I.look K.look role event self.old self.new cx.old cx.new }
        ensures within { ActsWithin most_by_stage cx.old cx.new }
        ensures reads { IsNamedIf cx.old.roles READER self.old.reader → InputWaits I.look self.old self.new
            → RetriesRead self.old self.new cx.old cx.new }
        ensures writes { IsNamedIf cx.old.roles WRITER self.old.writer → OutputWaits K.look self.old self.new
            → RetriesWrite self.old self.new cx.old cx.new }
        ensures other { IsOfNobody role self.old → (self.new ≡ self.old) × IsSame cx.old cx.new }
    {
        if role == WRITER {
            self.write_at(event, cx);
        } else if role == READER {
            self.read_at(event, cx);
        } else {
            let _told = self.driven.handle(FIRST, role, event, cx);
        }
    }

    // Rouses the writer and the reader, if they must work.
    fn rouse_ends(&mut self, cx: &mut Cx)
        requires turn { cx.old.log.state.held ≡ true }
        ensures same { IsSameBut self.old self.new }
        ensures joined { StaysJoined self.old self.new cx.old cx.new }
        ensures ends { self.new.driven.running ≡ true
            → AreEndsRoused self.new.driven.chain self.new.writer self.new.reader }
        ensures course { KeepsCourse self.old self.new cx.old cx.new }
        ensures within { ActsWithin most_for_ends cx.old cx.new }
        ensures only { IsNamedIf cx.old.roles WRITER self.old.writer
            → IsNamedIf cx.old.roles READER self.old.reader
            → SetsOnly (RousesAnEnd self.old.driven.chain cx.old.moment cx.old.roles) cx.old cx.new }
        ensures idle { (self.old.driven.running ≡ false)
            ⊎ AreEndsRoused self.old.driven.chain self.old.writer self.old.reader
            → (self.new ≡ self.old) × (cx.new ≡ cx.old) }
    {
        if !self.driven.running {
            return;
        }
        let writes = self.driven.chain.has_output();
        self.rouse_writer(writes, 0, cx);
        if !self.driven.running {
            return;
        }
        let reads = self.driven.chain.must_read();
        self.rouse_reader(reads, 0, cx);
    }

    // Whether an event was lost for want of memory.
    fn lacks_memory(&self) -> bool
        ensures lacks { result ≡ true → LacksMemory self.now }
        ensures has { result ≡ false → LacksMemory self.now → ⊥ }
    {
        if self.driven.running {
            return false;
        }
        matches!(self.driven.lost, Some(Loss::NoMemory))
    }

    // Handles an event of a role: what the input gave and the output took is what the chain is further on,
    // and whoever must work has an event. Where something was lost before, nothing is done.
    fn step(&mut self, role: u32, event: Event, cx: &mut Cx)
        requires turn { cx.old.log.state.held ≡ true }
        ensures steps { StepsAlong P.rest I.tells K.tells I.look K.look self.old self.new }
        ensures carried { HandlesCarried role event self.old self.new cx.old cx.new }
        ensures again { HandlesWaits role event I.look K.look self.old self.new cx.old cx.new }
        ensures acts { HandlesAlong P.rest P.pause I.look K.look role event self.old self.new cx.old cx.new }
        ensures within { ActsWithin most_by_event cx.old cx.new }
        ensures rests { HasNoDuty role self.old → (self.new ≡ self.old) × IsSame cx.old cx.new }
        ensures stops { self.old.driven.running ≡ true → LacksMemory self.new → self.new.aborted ≡ true }
    {
        if !self.driven.running {
            return;
        }
        self.work(role, event, cx);
        self.rouse_ends(cx);
        if self.lacks_memory() {
            self.abort();
        }
    }

    // Makes the continuations, and rouses those that must work.
    fn begin(&mut self, cx: &mut Cx)
        requires turn { cx.old.log.state.held ≡ true }
        requires fresh { (self.old.writer ≡ None) × (self.old.driven.table.items ≡ []) }
        ensures begun { HasLinkBegun self.old self.new }
        ensures carried { IsCarried self.old cx.old.log.state.pending cx.old.log.state.next cx.old.roles
            → IsCarried self.new cx.new.log.state.pending cx.new.log.state.next cx.new.roles }
        ensures within { ActsWithin (most_by_start self.old.driven.chain) cx.old cx.new }
        ensures cause { HasBegunAlong self.new cx.new }
    {
        match make_end(WRITER, cx) {
            Ok(writer) => self.writer = Some(writer),
            Err(fault) => {
                self.driven.running = false;
                self.driven.lost = Some(Loss::of_make(&fault));
                return;
            }
        }
        match make_end(READER, cx) {
            Ok(reader) => self.reader = Some(reader),
            Err(fault) => {
                self.driven.running = false;
                self.driven.lost = Some(Loss::of_make(&fault));
                return;
            }
        }
        self.driven.start(FIRST, cx);
        self.rouse_ends(cx);
    }
}

impl<I: Link + Drop, K: Link + Drop, P: Transform + Drop> Slotted for LinkWorld<I, K, P> {
    type Tag = ();

    type Trace = ();

    // It stands in no slot.
    ghost fits = { λ t w. ⊥ };

    ghost stamp = { λ w. 0 };

    ghost marks = { λ w. [] };

    ghost trace = { λ w. tt };

    ghost follows = { λ t u. ⊤ };

    ghost follows_itself = { λ t. tt };

    ghost follows_on = { λ t u v a b. tt };
}

#[tactic(auto, using(ts_group::proofs::Grows::grows, ts_group::proofs::Grows::grows_refl))]
impl<I: Link + Drop, K: Link + Drop, P: Transform + Drop> World for LinkWorld<I, K, P> {
    type Question = ();

    type Reply = ();

    ghost sound = { λ w s roles. IsCarried w s.pending s.next roles };

    ghost asking = { λ w s roles role group question. IsCarried w s.pending s.next roles };

    ghost right = { λ w group question reply. ⊤ };

    ghost answers = { λ w question reply. ⊤ };

    ghost may_ask = { λ w group. ⊥ };

    ghost left = { λ w s. None };

    ghost only_asked = { λ t. false };

    ghost is_first = { λ t. false };

    ghost begun = { λ old new. HasLinkBegun old new };

    ghost heard = { λ old new asked. new ≡ old };

    // What a handler leads to: a step.
    ghost called = { λ old new asked. HasStepped P.rest I.tells K.tells I.look K.look old new };

    fn start(&mut self, cx: &mut Cx)
        requires turn { cx.old.log.state.held ≡ true }
        requires sound { IsCarried self.old cx.old.log.state.pending cx.old.log.state.next cx.old.roles }
        ensures sound { IsCarried self.new cx.new.log.state.pending cx.new.log.state.next cx.new.roles }
        ensures within { ActsWithin (most_by_start self.old.driven.chain) cx.old cx.new }
        ensures begun { HasLinkBegun self.old self.new }
        ensures cause { self.old.writer ≡ None → HasBegunAlong self.new cx.new }
        ensures again { (self.old.writer ≡ None → ⊥)
            → (self.new ≡ self.old) × IsSame cx.old cx.new }
    {
        if self.writer.is_none() {
            self.begin(cx);
        }
    }

    fn handle(&mut self, role: u32, event: Event, cx: &mut Cx) -> Want<()>
        requires turn { cx.old.log.state.held ≡ true }
        requires called { IsCalled (λ s roles. IsCarried self.old s.pending s.next roles) cx.old role event }
        ensures sound { (result ≡ Want.Nothing)
            × IsCarried self.new cx.new.log.state.pending cx.new.log.state.next cx.new.roles }
        ensures steps { HasStepped P.rest I.tells K.tells I.look K.look self.old self.new }
        ensures again { TriesAgain I.look K.look self.old self.new cx.old cx.new }
        ensures acts { ActsAlong P.rest P.pause I.look K.look role event self.old self.new cx.old cx.new }
        ensures within { ActsWithin most_by_event cx.old cx.new }
        ensures rests { (self.old.driven.running ≡ false) ⊎ IsOfNobody role self.old
            → (self.new ≡ self.old) × IsSame cx.old cx.new }
    {
        self.step(role, event, cx);
        Want::Nothing
    }

    fn told(&mut self, _role: u32, _asked: Asked<(), ()>, _cx: &mut Cx)
        requires turn { _cx.old.log.state.held ≡ true }
        requires sound { IsCarried self.old _cx.old.log.state.pending _cx.old.log.state.next _cx.old.roles }
        ensures grows { Grows _cx.old _cx.new }
        ensures same { (_cx.new.log.state ≡ _cx.old.log.state) × (_cx.new.roles ≡ _cx.old.roles)
            × (self.new ≡ self.old) }
    {}

    fn asked(&mut self, _question: (), _cx: &mut Cx) {}

    ghost sound_taken = { λ w s turn seat roles h. h };

    ghost sound_given = { λ w s turn roles h. h };

    ghost left_taken = { λ w s turn seat. refl };

    ghost left_given = { λ w s turn. refl };

    ghost rests = { λ t w s roles f h. tt };
}
