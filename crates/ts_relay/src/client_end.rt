//! The steps that write a body to the client: a piece is framed, or the end is, or what waits is written.
ghost use Rattle.std.specs.Prelude.{◌≡◌, ◌≢◌, ◌<◌, ◌≤◌, ◌⊎◌, [], true, false, length, take, ⊤};
ghost use Rattle.ts_group.specs.Context.{Context};
ghost use Rattle.ts_wire.specs.Frames.{IsPiece};
ghost use Rattle.ts_wire.specs.Limits.{piece_limit};
ghost use Rattle.ts_relay.specs.BodyLinks.{HasRoomFor, MayEnd};
ghost use Rattle.ts_relay.specs.Duties.{MustEnd, MustSend};
ghost use Rattle.ts_phases.specs.View.{view_of};
ghost use Rattle.ts_relay.specs.StepsOwed.{EndLowers, WriterSteps};
ghost use Rattle.ts_relay.specs.Relaying.{RelayHolds, RelayLeads};

use crate::duties::must_send;
use crate::last_writes::BodyStep;
use crate::relay::{Relay, short_end, step_after};
use ts_group::Cx;
use ts_hooks::TxnEnd;
use ts_link::Link;
use ts_phases::Core;
use ts_transform::Transform;
use ts_upstream::Upstream;
use ts_vconn::Pushed;
use ts_wire::MAX_PIECE;

/// How many bytes wait for the client at most once more was queued for it where nothing waited: a piece with
/// its frame, and the end of its body.
pub const MOST_FRAMED: usize = 32_781;

/// How many bytes wait for the client at most once more was queued behind others: all of it stands in one
/// block, so that one write takes it.
pub const MOST_TOGETHER: usize = 4_096;

/// How many bytes the frame of a piece and the end of a body have at most.
pub const MOST_FRAME: usize = 13;

// How many bytes a piece may have that is framed behind so many that wait: none where it would not stand in
// one block with them.
fn room_behind(waits: usize) -> usize
    ensures room { 0 < result → HasRoomFor waits result }
    ensures none { waits ≡ 0 → 0 < result }
{
    if waits == 0 {
        return MAX_PIECE;
    }
    (MOST_TOGETHER - MOST_FRAME).saturating_sub(waits)
}

// The front of some bytes that is framed as one piece, of at most so many.
fn piece_of(bytes: &[u8], most: usize) -> &[u8]
    requires some { 0 < length bytes.now }
    requires most { (0 < most) × (most ≤ piece_limit) }
    ensures piece { IsPiece result.now }
    ensures most { length result.now ≤ most }
    ensures front { result.now ≡ take (length result.now) bytes.now }
{
    let (piece, _) = bytes.split_at(bytes.len().min(most));
    piece
}

// Writes once of what waits for the client.
fn write_some<C: Link, O: Upstream<C>, P: Transform + Drop>(
    core: &mut Core<C, O>,
    relay: &Relay<P>,
) -> BodyStep
    requires fact { RelayHolds C.Link O.Link O.Upstream.own P.Transform core.old relay.now }
    requires some { (view_of C.Link O.Link core.old).client.outbox ≢ [] }
    ensures leads { RelayLeads C.Link O.Link O.Upstream.own P.Transform core.old core.new
        relay.now result }
    ensures steps { (now : Context) → now.log.state.held ≡ true → WriterSteps C.Link O.Link O.Upstream.own
        core.old core.new result relay.now relay.now now now }
    ensures lowers { (now : Context) → EndLowers C.Link O.Link P.Transform core.old core.new
        ⊤ result relay.now relay.now now now }
{
    match core.write_client() {
        Pushed::Some(_) => BodyStep::Goes,
        Pushed::Nothing => BodyStep::Goes,
        Pushed::Again => BodyStep::Waits,
        Pushed::Failed => BodyStep::Closes(TxnEnd::ClientFault),
        Pushed::NoMemory => BodyStep::Lacks,
    }
}

// Ends what the client gets of the body: where the chain has given all, the end is framed; and where no more
// of the body comes, the chain rests and nothing waits, nothing is framed any more. Before, what waits is
// written once.
fn end_some<C: Link, O: Upstream<C>, P: Transform + Drop>(
    core: &mut Core<C, O>,
    relay: &Relay<P>,
) -> BodyStep
    requires fact { RelayHolds C.Link O.Link O.Upstream.own P.Transform core.old relay.now }
    requires room { MayEnd (length (view_of C.Link O.Link core.old).client.outbox) }
    ensures leads { RelayLeads C.Link O.Link O.Upstream.own P.Transform core.old core.new
        relay.now result }
    ensures steps { (now : Context) → now.log.state.held ≡ true → WriterSteps C.Link O.Link O.Upstream.own
        core.old core.new result relay.now relay.now now now }
    ensures lowers { (now : Context) → EndLowers C.Link O.Link P.Transform core.old core.new
        (((view_of C.Link O.Link core.old).client.outbox ≢ []) ⊎ MustEnd relay.now)
        result relay.now relay.now now now }
{
    if relay.driven.chain().is_finished() {
        let Ok(()) = core.end_body() else {
            return BodyStep::Lacks;
        };
        return BodyStep::Finishes(TxnEnd::Whole);
    }
    if !core.client.outbox.is_empty() {
        return write_some(core, relay);
    }
    let Some(short) = relay.short else {
        return BodyStep::Goes;
    };
    if relay.driven.chain().rests() {
        BodyStep::Finishes(short_end(short))
    } else {
        BodyStep::Goes
    }
}

// Frames a piece of what the chain gave, of at most so many bytes, or the end, or writes what waits.
fn frame_some<C: Link, O: Upstream<C>, P: Transform + Drop>(
    core: &mut Core<C, O>,
    relay: &mut Relay<P>,
    most: usize,
    cx: &mut Cx,
) -> BodyStep
    requires turn { cx.old.log.state.held ≡ true }
    requires fact { RelayHolds C.Link O.Link O.Upstream.own P.Transform core.old relay.old }
    requires some { 0 < most }
    requires room { HasRoomFor (length (view_of C.Link O.Link core.old).client.outbox) most }
    ensures leads { RelayLeads C.Link O.Link O.Upstream.own P.Transform core.old core.new
        relay.new result }
    ensures steps { WriterSteps C.Link O.Link O.Upstream.own core.old core.new result
        relay.old relay.new cx.old cx.new }
    ensures lowers { EndLowers C.Link O.Link P.Transform core.old core.new
        (MustSend (view_of C.Link O.Link core.old) relay.old)
        result relay.old relay.new cx.old cx.new }
{
    let Some(block) = relay.driven.chain().out_block() else {
        return end_some(core, relay);
    };
    let piece = piece_of(block, most);
    let count = piece.len();
    let Ok(()) = core.frame_body(piece) else {
        return BodyStep::Lacks;
    };
    step_after(relay.driven.take(count, cx))
}

/// Makes one step of the writer: where nothing waits for the client, or all of it then stands in one block,
/// it frames a piece of what the chain gave, or the end of the body once the chain has given all; else it
/// writes once of what waits; or it leaves a body that stopped short once the chain rests. A head that waits
/// for its body it lets wait.
pub fn write_body<C: Link, O: Upstream<C>, P: Transform + Drop>(
    core: &mut Core<C, O>,
    relay: &mut Relay<P>,
    cx: &mut Cx,
) -> BodyStep
    requires turn { cx.old.log.state.held ≡ true }
    requires fact { RelayHolds C.Link O.Link O.Upstream.own P.Transform core.old relay.old }
    ensures leads { RelayLeads C.Link O.Link O.Upstream.own P.Transform core.old core.new
        relay.new result }
    ensures steps { WriterSteps C.Link O.Link O.Upstream.own core.old core.new result
        relay.old relay.new cx.old cx.new }
    ensures lowers { EndLowers C.Link O.Link P.Transform core.old core.new
        (MustSend (view_of C.Link O.Link core.old) relay.old)
        result relay.old relay.new cx.old cx.new }
{
    if !must_send(core, relay) {
        return BodyStep::Goes;
    }
    let room = room_behind(core.client.outbox.len());
    if room == 0 {
        return write_some(core, relay);
    }
    frame_some(core, relay, room, cx)
}
