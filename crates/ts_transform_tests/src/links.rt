//! Runs of a chain between two links in memory: what is planned, and what came of it.
ghost use Rattle.std.specs.Prelude.{◌≡◌, true, false};
ghost use Rattle.ts_transform.specs.Carrying.{IsCarriedGroup};

use crate::tail::MEMORY;
use std::process::Abort;
use ts_group::Group;
use ts_journal::{ContKey, Event};
use ts_link::{MemLink, Octets};
use ts_transform::{Chain, LinkWorld, Loss, Transform, drive_links};

// More turns than any of the runs takes.
const TURNS: u32 = 10_000;

/// The group of a chain between two links in memory.
pub type Links<P> = Group<LinkWorld<MemLink, MemLink, P>>;

/// What a run is made of, beside its body and its transforms. No call has the number 0.
#[derive(Clone, Copy)]
pub struct Plan {
    /// So many reads bring so many bytes each, and the next ones all that is left.
    pub cuts: usize,
    pub cut: u32,
    /// The read that waits, and the one that fails.
    pub again_read: u64,
    pub fail_read: u64,
    /// How many bytes a write takes at most, the write that waits, and the one that fails.
    pub take: usize,
    pub again_write: u64,
    pub fail_write: u64,
    /// How many turns its group has made elsewhere.
    pub turns: u64,
    /// How many continuations of nobody it has before the chain starts.
    pub strangers: u32,
    /// The continuation at a place is told twice of an event after the first turn.
    pub told: Option<(usize, Event)>,
}

/// A body that comes and goes whole.
pub const WHOLE: Plan = Plan {
    cuts: 0,
    cut: 1,
    again_read: 0,
    fail_read: 0,
    take: usize::MAX,
    again_write: 0,
    fail_write: 0,
    turns: 0,
    strangers: 0,
    told: None,
};

/// Three bytes that come and go one by one.
pub const SINGLE: Plan = Plan {
    cuts: 3,
    take: 1,
    ..WHOLE
};

/// How a run ended: how often either link made its caller wait; the most bytes that waited at one boundary;
/// whether it was aborted, runs, or why it was lost.
#[derive(Clone, Copy)]
pub struct Ending {
    pub waits: (u64, u64),
    pub most: usize,
    pub is_aborted: bool,
    pub runs: bool,
    pub lost: Option<Loss>,
}

impl Ending {
    /// Whether it ran to its end with nothing lost, and so many waits.
    pub fn is_well(&self, waits: (u64, u64)) -> bool {
        self.waits == waits && self.runs && !self.is_aborted && self.lost.is_none()
    }

    /// Whether it was aborted with nothing lost.
    pub fn is_cut_off(&self) -> bool {
        self.is_aborted && self.runs && self.lost.is_none()
    }
}

// The numbers of some calls.
fn calls(rt: &(impl AllocGlobal + Abort), number: u64) -> Vec<u64> {
    vec![in rt.alloc(); number; 1].expect(rt, MEMORY)
}

// The input of a plan.
fn input_of(rt: &(impl AllocGlobal + Abort), plan: &Plan, body: Octets) -> MemLink {
    let alloc = rt.alloc();
    let cuts = vec![in alloc; plan.cut; plan.cuts].expect(rt, MEMORY);
    let fails = calls(rt, plan.fail_read);
    let again = calls(rt, plan.again_read);
    let none = Vec::new(alloc);
    let never = Vec::new(alloc);
    MemLink::make(alloc, body, cuts, 1, fails, none, again, never)
}

// The output of a plan.
fn output_of(rt: &(impl AllocGlobal + Abort), plan: &Plan) -> MemLink {
    let alloc = rt.alloc();
    let fails = calls(rt, plan.fail_write);
    let again = calls(rt, plan.again_write);
    let empty = Octets::of_vec(Vec::new(alloc));
    let whole = Vec::new(alloc);
    let none = Vec::new(alloc);
    let never = Vec::new(alloc);
    let take = plan.take.max(1);
    MemLink::make(alloc, empty, whole, take, none, fails, never, again)
}

/// The chain of these parts between the links of a plan, which had no turn here yet.
pub fn make_links<P: Transform + Drop>(
    rt: &(impl AllocGlobal + Abort),
    plan: &Plan,
    parts: Vec<P>,
    body: Octets,
) -> Links<P>
    ensures idle { result.cx.log.state.held ≡ false }
    ensures carried { IsCarriedGroup result }
{
    let input = input_of(rt, plan, body);
    let output = output_of(rt, plan);
    let world = LinkWorld::make(rt.alloc(), parts, input, output).expect(rt, MEMORY);
    let group = Group::make(rt.alloc(), world, plan.turns).expect(rt, MEMORY);
    group
}

// Begins the next turn.
fn begin_turn<P: Transform + Drop>(rt: &impl Abort, group: &mut Links<P>)
    requires idle { group.old.cx.log.state.held ≡ false }
    requires carried { IsCarriedGroup group.old }
    ensures turn { group.new.cx.log.state.held ≡ true }
    ensures carried { IsCarriedGroup group.new }
{
    let Some(turn) = group.journal().turns().checked_add(1) else {
        panic!(rt; "a turn is left")
    };
    group.begin_turn(turn, 0, 0).expect(rt, MEMORY);
}

// Makes so many continuations of role 0, which is that of nobody.
fn make_strangers<P: Transform + Drop>(rt: &impl Abort, group: &mut Links<P>, count: u32)
    requires turn { group.old.cx.log.state.held ≡ true }
    requires carried { IsCarriedGroup group.old }
    ensures turn { group.new.cx.log.state.held ≡ true }
    ensures carried { IsCarriedGroup group.new }
{
    'strangers: for _ in 0..count {
        group.cx().make(0).expect(rt, MEMORY);
    }
}

/// Starts the chain of a plan in a turn.
pub fn start<P: Transform + Drop>(rt: &impl Abort, group: &mut Links<P>, plan: &Plan)
    requires idle { group.old.cx.log.state.held ≡ false }
    requires carried { IsCarriedGroup group.old }
    ensures idle { group.new.cx.log.state.held ≡ false }
    ensures carried { IsCarriedGroup group.new }
{
    begin_turn(rt, group);
    make_strangers(rt, group, plan.strangers);
    group.start();
    group.give_turn();
}

// Makes a turn in which the continuation of a key is called with an event.
fn tell<P: Transform + Drop>(rt: &impl Abort, group: &mut Links<P>, key: ContKey, event: Event)
    requires idle { group.old.cx.log.state.held ≡ false }
    requires carried { IsCarriedGroup group.old }
    ensures idle { group.new.cx.log.state.held ≡ false }
    ensures carried { IsCarriedGroup group.new }
{
    begin_turn(rt, group);
    group.cx().call(key, event).expect(rt, MEMORY);
    group.give_turn();
}

// Tells the continuation at a place twice of an event, after the first turn.
fn tell_twice<P: Transform + Drop>(
    rt: &impl Abort,
    group: &mut Links<P>,
    place: usize,
    event: Event,
)
    requires idle { group.old.cx.log.state.held ≡ false }
    requires carried { IsCarriedGroup group.old }
    ensures idle { group.new.cx.log.state.held ≡ false }
    ensures carried { IsCarriedGroup group.new }
{
    drive_links(group, 1).expect(rt, MEMORY);
    let Some(key) = group.journal().live().get(place).copied() else {
        panic!(rt; "there is such a continuation")
    };
    tell(rt, group, key, event);
    tell(rt, group, key, event);
}

// The most bytes that wait at one boundary of a chain.
fn widest<P: Transform + Drop>(chain: &Chain<P>) -> usize {
    let mut most = chain.waiting(chain.stages());
    for boundary in 0..chain.stages() {
        most = most.max(chain.waiting(boundary));
    }
    most
}

// Makes turns until nothing is pending, and answers the most bytes that waited at one boundary after one.
fn run<P: Transform + Drop>(rt: &impl Abort, group: &mut Links<P>) -> usize
    requires idle { group.old.cx.log.state.held ≡ false }
    requires carried { IsCarriedGroup group.old }
{
    let mut most = 0;
    'turns: for _ in 0..TURNS {
        if drive_links(group, 1).expect(rt, MEMORY) {
            return most;
        }
        most = most.max(widest(group.world().chain()));
    }
    panic!(rt; "it ends")
}

/// Starts the chain of a plan, and drives it to its end. It answers the most bytes that waited at one
/// boundary.
pub fn carry<P: Transform + Drop>(rt: &impl Abort, group: &mut Links<P>, plan: &Plan) -> usize
    requires idle { group.old.cx.log.state.held ≡ false }
    requires carried { IsCarriedGroup group.old }
{
    start(rt, group, plan);
    if let Some((place, event)) = plan.told {
        tell_twice(rt, group, place, event);
    }
    run(rt, group)
}

/// How a run ended in which at most so many bytes waited at one boundary, and its output.
pub fn end_of<P: Transform + Drop>(group: Links<P>, most: usize) -> (Ending, MemLink) {
    let (world, _) = group.into_parts();
    let is_aborted = world.is_aborted();
    let runs = world.is_running();
    let lost = world.lost();
    let (input, output) = world.into_links();
    let ending = Ending {
        waits: (input.waits(), output.waits()),
        most,
        is_aborted,
        runs,
        lost,
    };
    (ending, output)
}
