//! The events of the two continuations at the ends of a body: the first one, which writes, and the reader.
ghost use Rattle.std.specs.Prelude.{◌≡◌, ℕ, true};
ghost use Rattle.ts_transform.specs.Driving.{IsNamedIf, IsRousingOf, SetsOnly};
ghost use Rattle.ts_relay.specs.BodyLinks.{OnlyOfEnds};
ghost use Rattle.ts_relay.specs.Duties.{EndsRouse, RousesBoth, RousesOne};

use crate::duties::must_read_on;
use crate::last_writes::BodyStep;
use crate::relay::{Relay, step_after};
use ts_group::Cx;
use ts_transform::{StageContinuation, Transform, rouse_end};

// Sees that an event of a continuation is pending, if it must work: after so many milliseconds, where it
// has none yet.
fn rouse_one(slot: &mut Option<StageContinuation>, must: bool, after: u64, cx: &mut Cx) -> BodyStep
    requires turn { cx.old.log.state.held ≡ true }
    ensures rouses { RousesOne result must slot.old slot.new cx.old cx.new }
    ensures due { (role : ℕ) → IsNamedIf cx.old.roles role slot.old
        → SetsOnly (IsRousingOf role after cx.old.moment cx.old.roles) cx.old cx.new }
{
    step_after(rouse_end(slot, must, after, cx))
}

// The same of the two at the ends of a body.
fn rouse_two(
    main: &mut Option<StageContinuation>,
    reader: &mut Option<StageContinuation>,
    writes: bool,
    reads: bool,
    pauses: (u64, u64),
    cx: &mut Cx,
) -> BodyStep
    requires turn { cx.old.log.state.held ≡ true }
    ensures rouses { RousesBoth result writes reads main.old main.new reader.old reader.new cx.old cx.new }
    ensures due { OnlyOfEnds pauses.0 pauses.1 main.old reader.old cx.old cx.new }
{
    let BodyStep::Goes = rouse_one(main, writes, pauses.0, cx) else {
        return BodyStep::Lacks;
    };
    cx.known();
    rouse_one(reader, reads, pauses.1, cx)
}

/// Sees that an event of each end of a body is pending that must work: of the first continuation and of the
/// reader after these pauses, in milliseconds, where they have none yet.
pub fn rouse_ends<P: Transform + Drop>(
    main: &mut Option<StageContinuation>,
    relay: &mut Relay<P>,
    writes: bool,
    pauses: (u64, u64),
    cx: &mut Cx,
) -> BodyStep
    requires turn { cx.old.log.state.held ≡ true }
    ensures rouses { EndsRouse result writes main.old main.new relay.old relay.new cx.old cx.new }
    ensures due { OnlyOfEnds pauses.0 pauses.1 main.old relay.old.reader cx.old cx.new }
    ensures relay { relay.new ≡ record relay.old { reader = relay.new.reader } }
{
    let reads = must_read_on(relay);
    rouse_two(main, &mut relay.reader, writes, reads, pauses, cx)
}
