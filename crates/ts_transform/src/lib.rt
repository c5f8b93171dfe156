//! Transforms of a body, and chains of them (the Developer's Guide, "HTTP Transformation Plugin").
//!
//! # The way of a piece through the events
//!
//! Each stage is a continuation of one group, with the role of its place counted from 1, and its handler has
//! the shape of the Developer's Guide's null transform. The serial driver takes turns, each for the event
//! that is due first, and writes between them.
//!
//! ```text
//!                   calls, upstream: WriteReady (there is room), Error, WriteComplete (it has ended)
//!                  ┌─────────────────────────────┐
//!                  ▼                             │
//!            ┌───────────┐                 ┌─────┴─────┐
//! the body ─►│  stage 0  ├──► boundary 1 ─►│  stage 1  ├──► boundary 2 ─► the client, between the turns
//!            └─────┬─────┘                 └───────────┘                      │
//!                  │                             ▲   ▲                        │
//!                  └─────────────────────────────┘   └────────────────────────┘
//!                   events, downstream: Immediate     wake: boundary 2 was full
//!                   (its output was reenabled)
//! ```
//!
//! Two stages and a body of 40,000 bytes:
//!
//! ```text
//! turn  event                     what its handler does                                  sets
//! ────  ───────────────────────   ─────────────────────────────────────────────────────  ─────────────────────────────
//!  1    start                     makes the continuations of stage 0 and stage 1         Immediate for stage 0
//!  2    Immediate of stage 0      moves 32,768 bytes to boundary 1                       reenables stage 1; itself
//!  3    Immediate of stage 1      moves 32,768 bytes to the client's boundary            (stage 0 has its event already)
//!       ── the client takes 32,768 bytes ──
//!  4    Immediate of stage 0      moves the last 7,232 bytes                             reenables stage 1; itself
//!  5    Immediate of stage 1      moves 7,232 bytes                                      nothing: none waits before it
//!       ── the client takes 7,232 bytes ──
//!  6    Immediate of stage 0      nothing more comes: it ends, and its transform goes    reenables stage 1
//!  7    Immediate of stage 1      ends; its transform goes                               calls stage 0: WriteComplete
//!       WriteComplete of stage 0  finds itself ended: destroys its own continuation      nothing
//! ────  nothing is pending, nothing waits: the journal is at rest
//! ```
//!
//! - **Who is roused.** After a piece a handler looks at the next stage, the one before and its own, and sets
//!   an event for each that has work, has room after it, and has none: the next and itself by `schedule`
//!   (reenabling), the one before, which found its output full, by a direct call `WriteReady`. A stage that
//!   is blocked sets nothing; it is called when there is room. A stage whose transform has a pause gets its
//!   event so many milliseconds later.
//! - **The client's side.** Where the last stage found 65,536 bytes at the client's boundary,
//!   `ChainWorld::wake` sets its event in the turn, so that it goes on once the driver has written.
//! - **Errors go upstream**, from stage to stage; each stage passes one on the first time that it gets one.
//! - **A limit that is reached** ends its stage while more may come. It calls the stage before it with
//!   `WriteComplete`, as any stage that ends; that one finds itself closed, calls the one before it in the
//!   same way, and destroys its own continuation, and so on up to the first. The chain wants no more then
//!   (`Chain::wants`), so whoever feeds it reads no further. Behind it all goes on as behind any end. A limit
//!   of 0 needs no byte, so at the start each stage that must work is roused, and not the first alone.
//! - **Time.** The driver's moment moves on to the next event that is due, and nobody waits: `delay.so` costs
//!   no time here.
//!
//! What holds between two events while none was lost (`IsSound` in `ts_transform/specs/World.antt`): each
//! stage that has work and room has a pending event of its continuation, at which it works. A journal's
//! pending events are of live continuations, so none of them is lost. `left`, the number that each event
//! lowers, is a hundred times what is still to pass the boundaries and to end and the calls upstream that
//! continuations may still make (an error that is passed on, and one at their end), and one for each pending
//! event. What a handler does, and which events it may set, stands in one record, `ActsAt`
//! (`ts_transform/specs/Acting.antt`).
//!
//! # Who uses the driver of a chain's stages
//!
//! ```text
//! ChainWorld (one body)        LinkWorld (two links)          Txn (one request)
//! roles 1..                    writer 1, reader 2, 3..        main, reader, stages
//!      \                            |                             /
//!       \                           |                            /
//!        +------------------ DrivenChain<P> --------------------+      start, handle, give, give_end, take, close
//!                             |          |
//!                        Chain<P>     continuations of the stages       what moves; who is roused
//!                             |          |
//!                      Transform, Waiting      Cx of the group          bytes; events
//! ```
//!
//! A driven chain is a chain with a table of its stages' continuations. Its owner gives it the events of the
//! stages' roles (`handle`) and feeds and drains it (`give`, `give_end`, `take`, or, between links, a read
//! straight into its first boundary); it keeps the cover, and says what it lost. Between links `drive_links`
//! makes the turns, each of which handles the event that is due first. Which events a handler between links
//! may set, and at which it loses nothing, stands in `ActsAlong` (`ts_transform/specs/Along.antt`). What
//! differs between owners is only who stands at the ends.
#![tactic(auto)]

mod chain;
mod clearing;
mod continuation;
mod driven;
mod ends;
mod handler;
mod link_drive;
mod link_ends;
mod link_world;
mod loss;
mod pump;
mod rousing;
mod stages;
mod start;
mod transform;
mod wake;
mod world;

pub use chain::Chain;
pub use continuation::{Rouser, StageContinuation, works};
pub use driven::DrivenChain;
pub use link_drive::{DriveFault, drive_links};
pub use link_ends::{make_end, rouse_end, unrouse};
pub use link_world::LinkWorld;
pub use loss::Loss;
pub use pump::{Part, Pumped};
pub use transform::{MOST_FED, Transform, front_of};
pub use world::ChainWorld;
