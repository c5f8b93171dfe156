//! What makes handlers run: turns of groups, by event threads or, for groups that nobody else has, on one
//! thread.
//!
//! # The way of one token
//!
//! A token names a group and the number of one of its pending events. Here it is of group 2, and the event
//! was set with the number 9 by a handler of that group:
//!
//! ```text
//! Set 9          next_news                 wheel of this thread,     try_enter(2)
//! in a turn ──►  (9, due)  ─── add ──►     taken first when due   ──┬── free ──► the gate, begin_turn, handle(9), tell, leave
//! of group 2     (9, due now; a 16th            │                   │             │
//!                turn past 128, or              │                   │             ├─ Handled: the handler ran; what it set is
//!                the group's start)             │                   │             │  news, and becomes tokens before the leave
//!                     └── put ──► queue: [.. (2, 9) ..] ────────────┤             ├─ NotDue: back into the wheel, under its moment
//!                                 taken by any thread               │             └─ Stale: 9 is not pending any more; it is let go
//!                                                                   └── held ──► Missed: the wheel of this thread, due 10 ms later
//! ```
//!
//! `turn.rt` has the turn from entering to leaving, `token.rt` the token before it and the run of turns,
//! `thread.rt` the thread that owns its desk (the seat, the pass and the wheel); `start.rt` starts groups,
//! `run.rt` runs them on many threads, and `end.rt` drives them to their end. A thread's moment is its own:
//! where nothing is due, it goes on to whatever is due next, so that no wait of 10 ms and no pause of a line
//! costs time. A thread ends where the queue was empty and its wheel is, or after 1,000,000 turns.
//!
//! ```text
//! put ->  [ ticket | ticket | ticket ]  -> take        each ticket: putter, serial, token (group, number)
//!          one rule over what stands there and what every pass knows
//!
//! past map        lap: 512 rows of one millisecond        later map
//! due < start     start .. start + 511                    due >= start + 512
//! ```
//!
//! # The way of groups to their end
//!
//! `finish` drives one group after the other, each until nothing of it is pending. A question of its handler
//! goes to another group of the row, in a turn of that group's own, while the asking group stays in its turn:
//!
//! ```text
//!  before            group             after
//! [ g0 .. gk-1 ]   [ gk ]   [ gk+1 .. gn ]
//!                    |  begin_turn, handle the event due first
//!                    |  it asks j:  ── begin_turn, ask, give_turn ──►  gj (before or after)
//!                    |  answered
//!                    v  give_turn, and again until nothing is pending
//! ```
//!
//! Each handled event lowers what its world tells that it has left (`left`), a question raises nobody's, and
//! so the drive ends.
#![tactic(auto)]

mod desk;
mod did;
mod end;
mod laws;
mod news;
mod question;
mod rouse;
mod run;
mod seat;
mod shared;
mod start;
mod step;
mod tenant;
mod thread;
mod token;
mod turn;

pub use desk::Desk;
pub use did::{Did, RunEnd, Unfinished};
pub use end::{finish, finish_within};
pub use laws::are_limits;
pub use rouse::try_rouse;
pub use run::{Plan, run_groups, run_whole, start_groups};
pub use seat::{enter, leave_found};
pub use shared::Shared;
pub use start::try_start;
pub use step::step_at;
pub use tenant::{change_tenant, put_tenant, take_tenant};
pub use thread::EventThread;
pub use token::turn_desk;
pub use ts_group::ONLY_SEAT;

/// How many threads run groups at most.
pub const MOST_THREADS: u32 = 64;

/// How many groups one turn of a thread enters at most: that of its token, and one that is asked.
pub const MOST_ENTERED: u64 = 2;

/// How many turns a group has had at most after `run_whole`, if threads gave it no more.
pub const MOST_ALONE: u64 = 1 << 50;

/// How many turns a group has at most: the numbers of turns and of events end.
pub const MOST_TURNS: u64 = u64::MAX - 1;
