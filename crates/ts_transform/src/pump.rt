//! The work of one stage, and of the stage at a place of several.
ghost use Rattle.std.specs.Prelude.{◌≡◌, ℕ, ◌+◌, ◌<◌, ◌≤◌, ◌++◌, List, [], length, take, false, true, Some, None, IfOk, OnOk, OnErr};
ghost use Rattle.std.specs.Bool.{OnTrue};
ghost use Rattle.ts_transform.specs.Law.{Adds, HearsAfter};
ghost use Rattle.ts_transform.specs.Stage.{part_of, kept_of, is_done, needs_no_more, has_ended, has_work, cuts, Answers, AnswersIf, HasDuty, Runs, Steps, IfEnds, IfRests, KeepsSoon, StageStaysSoon, done_by};
ghost use Rattle.ts_transform.specs.Flow.{chain_of, done_at, passing, AnswersAt, KeepsFlow, MustPump, StaysSoon, StepsAt};
ghost use Rattle.ts_transform.specs.declared.pump.Part.TheVariants.{Done};

use crate::transform::{MOST_FED, Transform};
use ts_iobuf::Waiting;
use ts_link::NoMemory;

/// What a pump of a stage did: it moved bytes, ended the stage, found too many bytes waiting after it, or
/// found no work.
#[derive(Clone, Copy, PartialEq, Eq)]
pub enum Pumped {
    Moved(usize),
    Ended,
    Blocked { waiting: usize },
    Idle,
}

/// A transform in a stage: it works, or it is done and was let go, and only its pause is kept, in
/// milliseconds.
#[derive(Drop)]
pub enum Part<P> {
    Works(P),
    Done { pause: u64 },
}

/// A transform as a stage keeps it: it is let go where it is done.
pub fn part_of<P: Transform + Drop>(part: P) -> Part<P>
    ensures { result ≡ part_of P.soon P.pause part }
{
    if part.done() {
        Part::Done {
            pause: part.pause(),
        }
    } else {
        Part::Works(part)
    }
}

/// A transform, until it has ended, and the bytes that wait after it.
#[derive(Drop)]
pub struct Stage<P> {
    pub part: Option<Part<P>>,
    pub after: Waiting,
}

impl<P> Stage<P> {
    /// Whether it has ended.
    pub fn has_ended(&self) -> bool
        ensures { result ≡ has_ended self.now }
    {
        self.part.is_none()
    }

    /// Whether it needs no more bytes to have work: no more come, or it is done.
    pub fn needs_no_more(&self, up_ended: bool) -> bool
        ensures { result ≡ needs_no_more up_ended self.now.part }
    {
        match &self.part {
            Some(Part::Done { .. }) => true,
            Some(Part::Works(_)) | None => up_ended,
        }
    }
}

// What a pump did, and whether it ended a stage that was done: then all before it is cut off.
#[derive(Clone, Copy)]
struct Ran {
    pumped: Pumped,
    cuts: bool,
}

/// A stage takes no input where as many bytes wait after it.
pub const MOST_WAITING: usize = 65_536;

// Feeds a transform with what waits before it; it writes behind the bytes that wait after it.
fn feed_into<P: Transform>(
    part: &mut P,
    from: &Waiting,
    after: &mut Waiting,
) -> Result<usize, NoMemory>
    requires { 0 < length from.now }
    ensures count { IfOk result (λ n. (1 ≤ n) × (n ≤ MOST_FED) × (n ≤ length from.now)) }
    ensures adds { IfOk result
        (λ n. Adds (P.rest part.old) (P.rest part.new) (take n from.now) after.old after.new) }
    ensures soon { IfOk result
        (λ n. HearsAfter (P.soon part.old) (P.soon part.new) (take n from.now) after.old after.new) }
    ensures err { OnErr result ((part.new ≡ part.old) × (after.new ≡ after.old)) }
{
    part.feed_from(&from.buffer, from.reader, MOST_FED, &mut after.buffer)
}

// Ends a transform, which writes behind the bytes that wait.
fn end_into<P: Transform>(part: &mut P, after: &mut Waiting) -> Result<(), NoMemory>
    ensures ok { OnOk result (after.new ≡ after.old ++ P.rest part.old []) }
    ensures err { OnErr result ((part.new ≡ part.old) × (after.new ≡ after.old)) }
{
    part.end(&mut after.buffer)
}

// Runs a transform on what waits before it, and writes behind what waits after it.
fn pump_part<P: Transform>(
    up_ended: bool,
    from: &mut Waiting,
    part: &mut P,
    after: &mut Waiting,
) -> Result<Pumped, NoMemory>
    ensures answer { IfOk result (AnswersIf (has_work false up_ended from.old) false from.old after.old) }
    ensures runs { IfOk result (λ r. Runs P.rest from.old part.old after.old r from.new part.new after.new) }
    ensures soon { OnOk result
        (KeepsSoon up_ended (P.soon part.old) (P.soon part.new) from.old after.old from.new after.new) }
    ensures works { OnErr result (HasDuty (has_work false up_ended from.old) after.old) }
    ensures err { OnErr result ((from.new ≡ from.old) × (part.new ≡ part.old) × (after.new ≡ after.old)) }
{
    let waiting = after.len();
    let is_empty = from.is_empty();
    if is_empty && !up_ended {
        return Ok(Pumped::Idle);
    }
    if waiting >= MOST_WAITING {
        return Ok(Pumped::Blocked { waiting });
    }
    if is_empty {
        end_into(part, after)?;
        return Ok(Pumped::Ended);
    }
    let taken = feed_into(part, from, after)?;
    from.take(taken);
    Ok(Pumped::Moved(taken))
}

// What a stage keeps of its transform after a pump: it is let go where it ended, or where it is done once
// bytes were moved.
fn put_back<P: Transform + Drop>(pumped: Pumped, part: P) -> Option<Part<P>>
    ensures { result ≡ kept_of P.soon P.pause pumped part }
{
    match pumped {
        Pumped::Moved(_) => Some(part_of(part)),
        Pumped::Ended => None,
        Pumped::Blocked { .. } | Pumped::Idle => Some(Part::Works(part)),
    }
}

// Ends a stage that is done, with that pause, unless too many bytes wait after it: what waits before it is
// dropped.
fn end_done<P: Drop>(pause: u64, from: &mut Waiting, stage: &mut Stage<P>) -> Ran
    ensures answer { AnswersIf true true from.old stage.old.after result.pumped }
    ensures cuts { result.cuts ≡ cuts result.pumped true }
    ensures ends { IfEnds result.pumped
        ((from.new ≡ []) × (stage.new ≡ record { part = None; after = stage.old.after })) }
    ensures rests { IfRests result.pumped ((from.new ≡ from.old)
        × (stage.new ≡ record { part = Some (Done pause); after = stage.old.after })) }
{
    let waiting = stage.after.len();
    if waiting >= MOST_WAITING {
        stage.part = Some(Part::Done { pause });
        return Ran {
            pumped: Pumped::Blocked { waiting },
            cuts: false,
        };
    }
    from.take(from.len());
    stage.part = None;
    Ran {
        pumped: Pumped::Ended,
        cuts: true,
    }
}

// Runs one stage on what waits before it. `up_ended` says that nothing more comes there. Its transform is
// taken out of it meanwhile, and put back unless it ended; once it is done it is let go.
fn pump_stage<P: Transform + Drop>(
    up_ended: bool,
    from: &mut Waiting,
    stage: &mut Stage<P>,
) -> Result<Ran, NoMemory>
    ensures answer { IfOk result (λ r. Answers up_ended from.old stage.old r.pumped) }
    ensures cuts { IfOk result (λ r. r.cuts ≡ cuts r.pumped (is_done stage.old.part)) }
    ensures steps { IfOk result (λ r. Steps P.rest from.old stage.old r.pumped from.new stage.new) }
    ensures soon { OnOk result (StageStaysSoon P.soon up_ended from.old stage.old from.new stage.new) }
    ensures rests { IfOk result (λ r. IfRests r.pumped ((from.new ≡ from.old) × (stage.new ≡ stage.old))) }
    ensures works { OnErr result (HasDuty
        (has_work (has_ended stage.old) (needs_no_more up_ended stage.old.part) from.old) stage.old.after) }
    ensures err { OnErr result ((from.new ≡ from.old) × (stage.new ≡ stage.old)) }
{
    match stage.part.take() {
        None => Ok(Ran {
            pumped: Pumped::Idle,
            cuts: false,
        }),
        Some(Part::Done { pause }) => Ok(end_done(pause, from, stage)),
        Some(Part::Works(mut part)) => {
            let pumped = match pump_part(up_ended, from, &mut part, &mut stage.after) {
                Ok(pumped) => pumped,
                Err(lacks) => {
                    stage.part = Some(Part::Works(part));
                    return Err(lacks);
                }
            };
            stage.part = put_back(pumped, part);
            Ok(Ran {
                pumped,
                cuts: false,
            })
        }
    }
}

// Runs the stage at a place of these, on what waits before them; where it ended done, those before it are
// cut off: they end too, and what waits before them is dropped.
fn run_at<P: Transform + Drop>(
    up_ended: bool,
    from: &mut Waiting,
    stages: &mut [Stage<P>],
    at: usize,
) -> Result<Ran, NoMemory>
    requires { at < length stages.old }
    ensures answer { IfOk result (λ r. AnswersAt up_ended from.old stages.old at r.pumped) }
    ensures cuts { IfOk result (λ r. r.cuts ≡ cuts r.pumped (done_at stages.old at)) }
    ensures steps { IfOk result (λ r. StepsAt P.rest from.old stages.old at r.pumped from.new stages.new) }
    ensures soon { OnOk result (StaysSoon P.soon up_ended from.old stages.old from.new stages.new) }
    ensures rests { IfOk result (λ r. IfRests r.pumped ((from.new ≡ from.old) × (stages.new ≡ stages.old))) }
    ensures works { OnErr result (MustPump up_ended from.old stages.old at) }
    ensures err { OnErr result ((from.new ≡ from.old) × (stages.new ≡ stages.old)) }
{
    let Some((first, others)) = stages.split_first_mut() else {
        unreachable!()
    };
    if at == 0 {
        return pump_stage(up_ended, from, first);
    }
    let ran = run_at(first.has_ended(), &mut first.after, others, at - 1)?;
    if ran.cuts {
        from.take(from.len());
        first.part = None;
    }
    Ok(ran)
}

/// Runs the stage at a place of these, on what waits before them: the flow stays, and what is left to do
/// is less by what was done, or by more.
pub fn pump_at<P: Transform + Drop>(
    up_ended: bool,
    from: &mut Waiting,
    stages: &mut [Stage<P>],
    at: usize,
) -> Result<Pumped, NoMemory>
    requires { at < length stages.old }
    ensures answer { IfOk result (AnswersAt up_ended from.old stages.old at) }
    ensures steps { IfOk result (λ r. StepsAt P.rest from.old stages.old at r from.new stages.new) }
    ensures flow { OnOk result (KeepsFlow P.rest P.soon
        (chain_of up_ended from.old stages.old) (chain_of up_ended from.new stages.new)) }
    ensures rests { IfOk result (λ r. IfRests r ((from.new ≡ from.old) × (stages.new ≡ stages.old))) }
    ensures falls { IfOk result (λ r. (x : List ℕ) → OnTrue up_ended (x ≡ []) →
        passing P.rest stages.new (from.new ++ x) + done_by r ≤ passing P.rest stages.old (from.old ++ x)) }
    ensures works { OnErr result (MustPump up_ended from.old stages.old at) }
    ensures err { OnErr result ((from.new ≡ from.old) × (stages.new ≡ stages.old)) }
{
    let ran = run_at(up_ended, from, stages, at)?;
    Ok(ran.pumped)
}
