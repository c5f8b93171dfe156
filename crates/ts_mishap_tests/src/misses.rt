//! Questions that are missed: while another seat holds the group of a plugin it is not asked, and it is asked
//! again later.

ghost use Rattle.std.specs.Prelude.{◌≡◌};
ghost use Rattle.ts_slot.specs.Words.{tags_of, view};
ghost use Rattle.ts_thread.specs.Threads.{HasOpened, IsPair};
ghost use Rattle.ts_mishap_tests.specs.Begun.{HasRowTags};

use crate::exchange::{FIRST_PLUGIN, MemTxn, first_of, make_row, setting_of};
use crate::judging::judge;
use crate::plan::{giving, link_of, origin_of};
use crate::row::{Finding, Row, get};
use crate::seen::{MEMORY, check_at_once};
use crate::stated::{ABC, FORBIDDEN, SIZED};
use std::process::Abort;
use std::sync::Wait;
use ts_exchange::GroupRow;
use ts_group::{Either, Group};
use ts_link::OpenGate;
use ts_plugin::Plugin;
use ts_queue::{EventQueue, QueuePass};
use ts_slot::{Seat, Slots};
use ts_thread::{Did, EventThread, Shared, start_groups};
use ts_txn::MOST_GROUPS;
use ts_wire::Mode;

// The world of a group here.
type MemWorld = Either<MemTxn, Plugin>;

// What stands first in each row here.
const FIRST: &str = "a transaction stands first";

// How many turns of a thread come to the question at most, and from its reply to the end.
const MOST_TURNS: u32 = 64;

// A transaction that was started and its plugins in slots, and what they are run with.
struct Opened {
    slots: Slots<Group<MemWorld>>,
    seat: Seat<Group<MemWorld>>,
    queue: EventQueue,
    pass: QueuePass,
}

// What came of the turns of a thread, the first of which found the group of a plugin held: the miss, the turn
// just before the pause ended and the one after it; and what came of the row.
#[derive(Clone, Copy, Debug, PartialEq, Eq)]
struct Missed {
    miss: Option<Did>,
    early: Did,
    again: Did,
    finding: Finding,
}

// The groups of a row in slots, of which the first was started.
fn open<R: Abort + AllocGlobal + Wait>(rt: &R, row: &Row<'_>) -> Opened
    ensures pair { IsPair result.slots result.queue result.seat result.pass }
    ensures opened { HasOpened 1 result.seat result.pass }
    ensures tags { HasRowTags (tags_of result.slots) }
{
    let alloc = rt.alloc();
    let setting = setting_of(alloc, row.lines, row.file).expect(rt, MEMORY);
    let client = link_of(alloc, &giving(row.request)).expect(rt, MEMORY);
    let origin = origin_of(alloc, row.origin.map(giving)).expect(rt, MEMORY);
    let made = make_row(alloc, &setting, client, origin).expect(rt, MEMORY);
    let GroupRow { groups, tags } = made;
    assert!(rt; !groups.is_empty());
    assert!(rt; groups.len() <= MOST_GROUPS as usize);
    let (slots, mut seat) = Slots::make(alloc, groups, tags).expect(rt, MEMORY);
    let (queue, mut pass) = EventQueue::make(alloc).expect(rt, MEMORY);
    let gate = OpenGate::make();
    let shared = Shared {
        rt,
        slots: &slots,
        queue: &queue,
        gate: &gate,
    };
    start_groups(&shared, alloc, &mut seat, &mut pass, 1).expect(rt, MEMORY);
    Opened {
        slots,
        seat,
        queue,
        pass,
    }
}

// Takes one turn.
fn take_turn<R: Abort + Wait>(
    rt: &R,
    thread: &mut EventThread<MemWorld, OpenGate>,
    moment: u64,
) -> Did
    requires { HasRowTags (tags_of thread.old.slots.now) }
    ensures slots { thread.new.slots ≡ thread.old.slots }
    ensures tags { tags_of thread.new.slots.now ≡ tags_of thread.old.slots.now }
    ensures share { (view thread.new.desk.seat).share ≡ (view thread.old.desk.seat).share }
{
    thread.turn(rt, moment).expect(rt, MEMORY)
}

// Takes turns at a moment until a plugin is missed, or the thread is idle.
#[tactic(auto, using(crate::proofs::Rows::same_tags))]
fn take_turns<R: Abort + Wait>(
    rt: &R,
    thread: &mut EventThread<MemWorld, OpenGate>,
    moment: u64,
) -> Option<Did>
    requires { HasRowTags (tags_of thread.old.slots.now) }
    ensures slots { thread.new.slots ≡ thread.old.slots }
    ensures tags { tags_of thread.new.slots.now ≡ tags_of thread.old.slots.now }
    ensures share { (view thread.new.desk.seat).share ≡ (view thread.old.desk.seat).share }
{
    'turns: for _turn in 0..MOST_TURNS {
        let did = take_turn(rt, thread, moment);
        if let Did::AskMissed { .. } = did {
            return Some(did);
        }
        if let Did::Idle = did {
            return None;
        }
    }
    None
}

// Whether the first of these groups is a transaction that came out as the row states.
fn judge_first<R: Abort + AllocGlobal>(
    rt: &R,
    row: &Row<'_>,
    groups: Vec<Group<MemWorld>>,
) -> Finding {
    let (world, _journal) = first_of(groups).expect(rt, FIRST);
    let Either::One(txn) = world else {
        return Finding::OtherNumber;
    };
    judge(rt.alloc(), row, &txn.into_parts()).expect(rt, MEMORY)
}

// What comes of a row whose first plugin's group another seat holds, until it is missed once.
#[tactic(auto, using(ts_group::specs::Standing::stands_itself, crate::proofs::Rows::same_tags))]
fn miss_once<R: Abort + AllocGlobal + Wait>(rt: &R, row: &Row<'_>) -> Missed {
    let Opened {
        slots,
        mut seat,
        queue,
        pass,
    } = open(rt, row);
    assert!(rt; FIRST_PLUGIN < slots.groups());
    let mut other = slots.split(&mut seat);
    let gate = OpenGate::make();
    let Ok(mut thread) = EventThread::make(rt.alloc(), 0, &slots, seat, &queue, pass, &gate) else {
        panic!(rt; "{MEMORY}")
    };
    let Ok(held) = slots.try_enter(&mut other, FIRST_PLUGIN) else {
        panic!(rt; "nobody holds the group of the plugin")
    };
    let miss = take_turns(rt, &mut thread, 0);
    slots.leave(&mut other, held);
    let early = take_turn(rt, &mut thread, 9);
    let again = take_turn(rt, &mut thread, 10);
    take_turns(rt, &mut thread, 10);
    let (mut seat, _pass) = thread.into_parts();
    slots.join(&mut seat, other);
    let Ok(groups) = slots.close(rt.alloc(), seat) else {
        panic!(rt; "{MEMORY}")
    };
    Missed {
        miss,
        early,
        again,
        finding: judge_first(rt, row, groups),
    }
}

// A deny list, a rule of requests and one of responses, each asked at a hook of its own.
fn of_each_hook() -> [Row<'static>; 3] {
    [
        Row {
            lines: b"denylist.so A.example\n",
            request: b"GET / HTTP/1.1\r\nHost: a.EXAMPLE:80\r\n\r\n",
            sent: b"",
            ..get(ABC, FORBIDDEN, Mode::Plain, b"403 Forbidden\n")
        },
        Row {
            lines: b"header.so request add x-a 1\n",
            sent: b"GET / HTTP/1.1\r\nhost: a\r\nx-a: 1\r\nvia: 1.1 tsx\r\nconnection: close\r\n\r\n",
            ..get(ABC, SIZED, Mode::Plain, b"abc")
        },
        Row {
            lines: b"header.so response add x-b 2\n",
            head: b"HTTP/1.1 200 OK\r\nx-b: 2\r\nvia: 1.1 tsx\r\ncontent-length: 3\r\n\
connection: close\r\n\r\n",
            ..get(ABC, SIZED, Mode::Plain, b"abc")
        },
    ]
}

// A plugin is missed while another seat has its first turn, and asked again 10 milliseconds later. What comes
// of the row is the same as without the miss.
#[test]
fn a_plugin_that_is_missed_is_asked_again(rt: HostRuntime) {
    let stated = Missed {
        miss: Some(Did::AskMissed {
            group: FIRST_PLUGIN,
            seen: 1,
        }),
        early: Did::Idle,
        again: Did::Ran { events: 1 },
        finding: Finding::AsStated,
    };
    for (place, row) in of_each_hook().iter().enumerate() {
        let without = check_at_once(rt.alloc(), row);
        assert_eq!(rt; without, Ok(Finding::AsStated), "row {place}");
        assert_eq!(rt; miss_once(&rt, row), stated, "row {place}");
    }
}
