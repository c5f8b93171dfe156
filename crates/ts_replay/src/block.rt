//! What a recorded transaction came to that has ended: its block, as the report shows it.

ghost use Rattle.std.specs.Prelude.{◌≡◌, ◌≢◌, ◌≤◌, ℕ, List, [], IfOk, IsTrue, Option, length};
ghost use Rattle.ts_config.specs.declared.setup.Setup.{Setup as SetupOf};
ghost use Rattle.ts_record.specs.Report.{IsReported};
ghost use Rattle.ts_replay.specs.Exchanged.{ChoseWell, IsLeftBetween, IsRunBetween};
ghost use Rattle.ts_replay.specs.Exchanged.{LeavesBlock, LeavesHeads, ShowsEnd, TapsBody};
ghost use Rattle.ts_replay.specs.Reports.{BothSides, IsShownOf, in_report, left_report};
ghost use Rattle.ts_replay.specs.Taps.{tap_by, tap_of};
ghost use Rattle.ts_replay.specs.Unframing.{IsFramed};
ghost use Rattle.ts_txn.specs.Making.{end_of_course};
ghost use Rattle.ts_block.specs.declared.block.Block.{Block};
ghost use Rattle.ts_wire.specs.Frames.{cut_body};
ghost use Rattle.ts_wire.specs.Limits.{body_limit};

use crate::at_origin::{AtOrigin, at_origin};
use crate::framed::unframed;
use std::alloc::Global;
use ts_hooks::TxnEnd;
use ts_layers::{LayeredExchange, PlainExchange, take_layered_apart};
use ts_link::{NoMemory, Octets, Sourced};
use ts_record::{RecordedLink, ReportBlock, TapLine};
use ts_stock::Stock;
use ts_tap::Sum;
use ts_txn::TxnParts;

/// A transaction between two recorded sides, whose response's body and whose request's go through stock
/// transforms, whose client may have a tap, and in whose origin's place a line may answer.
pub type Recorded = LayeredExchange<RecordedLink, RecordedLink, Stock>;

// What is left of one.
type RecordedLeft = PlainExchange<RecordedLink, RecordedLink>;

// Its parts.
type RecordedParts = TxnParts<RecordedLink, RecordedLink>;

// The body that the client was sent behind its head. It is shown only where it is whole.
fn content_of(
    alloc: Global,
    parts: &RecordedParts,
    end: TxnEnd,
    framed: &[u8],
) -> Result<Octets, NoMemory>
    requires framed { end ≡ TxnEnd.Whole → (pieces : List (List ℕ))
        × IsFramed parts.now.mode framed.now pieces }
    ensures whole { end ≡ TxnEnd.Whole → (pieces : List (List ℕ))
        → IsFramed parts.now.mode framed.now pieces → IfOk result (λ body. body ≡ cut_body pieces) }
    ensures few { end ≡ TxnEnd.Whole → IfOk result (λ body. length body ≤ body_limit) }
    ensures short { end ≢ TxnEnd.Whole → IfOk result (λ body. body ≡ []) }
{
    match end {
        TxnEnd::Whole => unframed(alloc, parts.mode, framed),
        _ => Ok(Octets::of_vec(Vec::new(alloc))),
    }
}

// What a tap summed up, if there was one, as a report shows it.
fn tap_line(sum: Option<Sum>) -> Option<TapLine>
    ensures { (most : Option ℕ) (body : List ℕ) → TapsBody most sum body → result ≡ tap_of most body }
{
    let Some(sum) = sum else {
        return None;
    };
    Some(TapLine {
        count: sum.count(),
        sum: sum.sum(),
    })
}

// The same of a block that has ended so: it is shown where the body is.
fn tap_shown(end: TxnEnd, sum: Option<Sum>) -> Option<TapLine>
    ensures { (most : Option ℕ) (body : List ℕ) → (end ≡ TxnEnd.Whole → TapsBody most sum body)
        → result ≡ tap_by end most body }
{
    match end {
        TxnEnd::Whole => tap_line(sum),
        _ => None,
    }
}

// What a transaction came to that has ended so, and in whose origin's place these bytes were taken.
fn block_of(
    alloc: Global,
    left: &RecordedLeft,
    kept: &[u8],
    end: TxnEnd,
) -> Result<ReportBlock, NoMemory>
    requires block { (most : Option ℕ) × (at : AtOrigin) × (b : Block)
        × LeavesBlock left.now kept.now end most at b }
    ensures { (most : Option ℕ) (at : AtOrigin) (b : Block) → LeavesBlock left.now kept.now end most at b
        → IfOk result (λ s. s ≡ in_report most at b) }
{
    let AtOrigin { request, upload } = at_origin(alloc, kept, left.upload)?;
    let parts = &left.parts;
    let (head, framed) = parts.client.written().split_at(parts.head as usize);
    let head = Octets::copy_of(alloc, head)?;
    let content = content_of(alloc, parts, end, framed)?;
    let tap = tap_shown(end, left.sum);
    Ok(ReportBlock {
        request,
        upload,
        end,
        head,
        content,
        tap,
    })
}

// What a transaction came to whose client left, and in whose origin's place these bytes were taken, whatever
// its end: where in the answer the client stopped is shown within the head alone, so that it does not matter
// how the body was cut.
fn block_before(alloc: Global, left: &RecordedLeft, kept: &[u8]) -> Result<ReportBlock, NoMemory>
    requires heads { (most : ℕ) × (at : AtOrigin) × (head : List ℕ)
        × LeavesHeads left.now kept.now most at head }
    ensures { (most : ℕ) (at : AtOrigin) (head : List ℕ) → LeavesHeads left.now kept.now most at head
        → IfOk result (λ s. s ≡ left_report most at head) }
{
    let AtOrigin { request, upload } = at_origin(alloc, kept, left.upload)?;
    let parts = &left.parts;
    let written = parts.client.written();
    let shown = (parts.head as usize).min(written.len());
    let head = Octets::copy_of(alloc, written.split_at(shown).0)?;
    Ok(ReportBlock {
        request,
        upload,
        end: TxnEnd::ClientFault,
        head,
        content: Octets::of_vec(Vec::new(alloc)),
        tap: None,
    })
}

// What a transaction came to that left this. Once it has ended it is known what was shown of its client,
// nothing waits for its origin, and no answer was read before the request stood there; no clause of a
// transaction says so, and where it were otherwise, it is as if memory lacked.
fn block_left(alloc: Global, left: &RecordedLeft) -> Result<ReportBlock, NoMemory>
    requires left { (setup : SetupOf) × (sides : BothSides) × IsLeftBetween setup sides left.now }
    ensures shown { (setup : SetupOf) (sides : BothSides) → IsLeftBetween setup sides left.now
        → IfOk result (IsShownOf setup sides) }
    ensures ended { (setup : SetupOf) (sides : BothSides) → IsLeftBetween setup sides left.now
        → IfOk result (λ b. ShowsEnd sides.leave left.now.parts.end b.end) }
    ensures reported { IfOk result (λ b. IsReported b.end) }
    ensures settled { IfOk result (λ b. IsTrue left.now.settled) }
{
    let parts = &left.parts;
    let Some(origin) = &parts.origin else {
        unreachable!()
    };
    let Some(taken) = &left.taken else {
        unreachable!()
    };
    let kept = taken.as_slice();
    parts.client.known();
    origin.known();
    let Some(end) = parts.end else { unreachable!() };
    if !left.settled {
        return Err(NoMemory);
    }
    match end {
        TxnEnd::NoMemory => Err(NoMemory),
        _ => {
            if parts.client.leaves() {
                return block_before(alloc, left, kept);
            }
            block_of(alloc, left, kept, end)
        }
    }
}

/// What a transaction came to that was started, and of whose group nothing is pending. Where memory lacked
/// for the transaction, it is lacking here.
pub fn block_after(alloc: Global, txn: Recorded) -> Result<ReportBlock, NoMemory>
    requires run { (setup : SetupOf) × (sides : BothSides) × IsRunBetween setup sides txn }
    ensures shown { (setup : SetupOf) (sides : BothSides) → IsRunBetween setup sides txn
        → IfOk result (IsShownOf setup sides) }
    ensures ended { (setup : SetupOf) (sides : BothSides) → IsRunBetween setup sides txn
        → IfOk result (λ b. ShowsEnd sides.leave (end_of_course txn.course) b.end) }
    ensures reported { IfOk result (λ b. IsReported b.end) }
    ensures chose { (setup : SetupOf) (sides : BothSides) → (run : IsRunBetween setup sides txn)
        → IfOk result (λ b. ChoseWell setup run.ends.origin txn) }
{
    let left = take_layered_apart(txn);
    block_left(alloc, &left)
}
