//! The body of a response that is passed on: read of the origin, transformed, and framed for the client.
//!
//! # While a body is passed on
//!
//! The lines that act on the response are made into a driven chain, its stages with the roles from 3 on, and
//! beside the first continuation, which writes, stands a second one, which reads:
//!
//! ```text
//! origin ── read ──► bytes that wait ── feed ──► boundary 0 ─► stage ─► boundary 1 ─► .. ─► the client's boundary
//!                           │ reader, role 2                  roles 3, 4, ..                        │ frame
//!                           │                                                                       ▼
//!                           │                                             client ◄── write ── bytes that wait
//!                           │                                                                first continuation, role 1
//!
//! who rouses whom
//! ───────────────
//! reader          the first stage, once bytes or the end came to boundary 0; itself, while more may be read
//! a stage         the next stage (its output was reenabled), itself, and the one before, which found its output full
//! the last stage  and behind every event: the first continuation, once bytes wait at the client's boundary, or all was given
//! first           the last stage, which found the client's boundary full; itself, while something is to be written
//! every event     the reader, once fewer than 65,536 bytes wait at boundary 0, while the chain wants more
//! ```
//!
//! 1. After each event `settle_body` looks at both ends: whether something is to be written (bytes that wait
//!    for the client, bytes at the chain's last boundary, or the end of a finished chain) and whether more
//!    may be read (the end was not given, the chain wants more, no fault of the body was found, and fewer
//!    than 65,536 bytes wait at boundary 0), and sees that whoever must work has an event. So no wake is
//!    lost: while the body is passed on, each duty has its event (`BodyHasEvents`,
//!    `ts_txn/specs/CourseCover.antt`).
//! 2. The reader makes one step an event: it feeds what waits of the origin's bytes to the reader of bodies,
//!    whose body bytes go to boundary 0, or, where nothing waits, it reads once. It feeds no byte behind the
//!    body's end, and once the end was given, or the chain wants no more, the origin is read no more.
//! 3. The first continuation makes one step an event: it frames one piece, of at most 32,768 bytes where
//!    nothing waits, and else of no more than stands with all that waits in one block of 4,096 bytes; or,
//!    once the chain has given all, it frames the end behind that, and leaves the body; or it writes once of
//!    what waits. The head of a response goes into a block of that room. So a head and the first bytes of its
//!    body go out in one write, and with them the end of a small body, where they are at hand: while none of
//!    the head was written and none of the body was framed, the head waits for what is on its way
//!    (`HoldsHead`): bytes that the reader has to feed, or work that a stage has at once. A body that has
//!    still to come keeps no head back, nor does a chain with a stage that pauses, nor one that was given
//!    more pieces than it has stages: the first has come through by then, or a line holds it back.
//! 4. Of a body that is cut or bad the reader notes which (`Relay::short`) and reads no more. The stages work
//!    and the client's side writes until neither has anything to do. Has the chain finished by then, since a
//!    limit was reached, the end is framed as ever; else the body is left with no end framed, and the client
//!    has all that the lines had written of it in time, unless a link failed or memory lacked. A body whose
//!    origin's link failed is left at once, with no end framed; what waits is still written (`Finishing`),
//!    and then it ends so. A fault of the client's link, or want of memory, ends it at once. Whenever it is
//!    left, the reader and the stages are destroyed with their events.
//! 5. Its law, for links that tell (`RelaysBody`): what was sent, followed by what the chain still gives for
//!    every continuation of the body, is the lines' composition over what was read, followed by that
//!    continuation; once the body has ended, for none. And what was sent, followed by what the stages still
//!    write before an end (`soon_flow`), is what the lines write in time of what was read, as long as none of
//!    them has finished early.
//!
//! A body is held nowhere whole but by a bnull line: what waits of the origin is one read, each boundary is
//! below 98,304 bytes and what one end writes, and what waits for the client is a head, one framed piece with
//! the end of the body, or one block. Its bytes
//! are copied once from what waits into boundary 0, once by each stage that changes them, and once into
//! frames; a stage that passes them on shares the full ones of their blocks, and copies what stands in one in
//! filling.
#![tactic(auto)]

mod client_end;
mod closing;
mod duties;
mod entry;
mod events;
mod feed;
mod last_writes;
mod making;
mod origin_end;
mod relay;
mod wakes;

pub use closing::{close_relay, destroy_end};
pub use entry::queue_relay;
pub use events::{begin_body, handle_body};
pub use last_writes::{BodyStep, send_rest};
pub use relay::{MAIN, Relay, Short};
