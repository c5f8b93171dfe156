//! Gates, which an event thread passes before it runs a handler.
ghost use Rattle.std.specs.Prelude.{◌≡◌};

use std::marker::Model;
use std::sync::atomic::{AtomicBool, AtomicU64, Ordering};
use std::thread::yield_now;

/// What an event thread calls before it runs a handler, while it holds the group.
pub trait Gate {
    /// Lets the thread go on, at once or later. Nothing is promised of it.
    fn enter(&self, thread: u32, group: u32, number: u64);
}

/// A gate that lets everything pass.
#[derive(Drop)]
pub struct OpenGate;

impl OpenGate {
    /// Such a gate.
    pub fn make() -> OpenGate {
        OpenGate
    }
}

impl Gate for OpenGate {
    fn enter(&self, _thread: u32, _group: u32, _number: u64) {}
}

// One side of a meeting.
#[derive(Drop)]
struct Side {
    // How many calls came.
    came: AtomicU64,
    // Whether the first of them saw one of the other side.
    saw: AtomicBool,
}

impl Side {
    fn new() -> Side {
        Side {
            came: AtomicU64::new(0),
            saw: AtomicBool::new(false),
        }
    }

    fn has_come(&self) -> bool {
        self.came.load(Ordering::SeqCst) > 0
    }

    // The first call of this side waits until one of the other came, for at most `limit` yields.
    fn meet(&self, other: &Side, limit: u64) {
        if self.came.fetch_add(1, Ordering::SeqCst) > 0 {
            return;
        }
        for _ in 0..limit {
            if other.has_come() {
                break;
            }
            yield_now();
        }
        self.saw.store(other.has_come(), Ordering::SeqCst);
    }
}

/// A gate at which the first calls for the groups 0 and 1 wait for each other, so that a test sees that two
/// handlers run beside each other.
#[derive(Drop)]
pub struct MeetGate {
    limit: u64,
    zero: Side,
    one: Side,
}

// A contract sees for how many yields it waits. What it saw stands in atomic words, of which a contract sees
// nothing.
impl Model for MeetGate {
    ghost use Rattle.std.specs.Prelude.{ℕ};

    ghost Value = { ℕ };

    ghost view = { λ g. g.limit };
}

impl MeetGate {
    /// A gate at which each of the two waits for at most `limit` yields.
    pub fn make(limit: u64) -> MeetGate
        ensures { result ≡ limit }
    {
        MeetGate {
            limit,
            zero: Side::new(),
            one: Side::new(),
        }
    }

    /// Whether each of the two saw the other before its limit.
    pub fn met(&self) -> bool {
        self.zero.saw.load(Ordering::SeqCst) && self.one.saw.load(Ordering::SeqCst)
    }
}

impl Gate for MeetGate {
    fn enter(&self, _thread: u32, group: u32, _number: u64) {
        match group {
            0 => self.zero.meet(&self.one, self.limit),
            1 => self.one.meet(&self.zero, self.limit),
            _ => {}
        }
    }
}
