//! The stages of a chain, and what waits at the boundaries between them.
ghost use Rattle.std.specs.Prelude.{◌≡◌, ℕ, ◌+◌, ◌<◌, ◌≤◌, ◌++◌, List, [], length, take, drop, map, IfOk, IsTrue, MatchOption, ◌↔◌};
ghost use Rattle.ts_transform.specs.Flow.{flow_from, wait_at, last_wait, last_ended, fresh_stage, closed, ended_at, first_wants, pause_at, MustPump, Takes, passing};

use crate::pump::{MOST_WAITING, Part, Stage, part_of};
use crate::transform::Transform;
use std::alloc::Global;
use ts_iobuf::Waiting;
use ts_link::NoMemory;

/// A stage for each part, that got nothing yet; a part that is done is let go at once.
pub fn fresh_stages<P: Transform + Drop>(
    alloc: Global,
    parts: Vec<P>,
) -> Result<Vec<Stage<P>>, NoMemory>
    ensures { IfOk result (λ stages. stages.items ≡ map (fresh_stage P.soon P.pause) parts.items) }
{
    let mut stages = Vec::new(alloc);
    for part in parts {
        let after = Waiting::new(alloc)?;
        stages.push(Stage {
            part: Some(part_of(part)),
            after,
        })?;
    }
    Ok(stages)
}

/// How many bytes wait at a boundary.
pub fn waiting_at<P>(first: &Waiting, stages: &[Stage<P>], boundary: usize) -> usize
    requires { boundary ≤ length stages.now }
    ensures { result ≡ length (wait_at first.now stages.now boundary) }
{
    if boundary == 0 {
        first.len()
    } else {
        stages[boundary - 1].after.len()
    }
}

/// The first of the bytes that wait at the last boundary.
pub fn last_block<'a, P>(first: &'a Waiting, stages: &'a [Stage<P>]) -> Option<&'a [u8]>
    ensures { MatchOption result (last_wait first.now stages.now ≡ []) (λ b. (0 < length b.now)
        × (length b.now ≤ length (last_wait first.now stages.now))
        × (b.now ≡ take (length b.now) (last_wait first.now stages.now))) }
{
    match stages.last() {
        Some(stage) => stage.after.block(),
        None => first.block(),
    }
}

/// How many bytes wait at the last boundary.
pub fn last_waiting<P>(first: &Waiting, stages: &[Stage<P>]) -> usize
    ensures { result ≡ length (last_wait first.now stages.now) }
{
    match stages.last() {
        Some(stage) => stage.after.len(),
        None => first.len(),
    }
}

/// Whether nothing more comes to the last boundary.
pub fn has_ended<P>(given: bool, stages: &[Stage<P>]) -> bool
    ensures { result ≡ last_ended given stages.now }
{
    match stages.last() {
        Some(stage) => stage.has_ended(),
        None => given,
    }
}

/// Takes bytes away from the last boundary.
pub fn take_last<P: Transform>(first: &mut Waiting, stages: &mut [Stage<P>], n: usize)
    requires { n ≤ length (last_wait first.old stages.old) }
    ensures flow { (x : List ℕ) → flow_from P.rest stages.old (first.old ++ x)
        ≡ take n (last_wait first.old stages.old) ++ flow_from P.rest stages.new (first.new ++ x) }
    ensures takes { Takes first.old stages.old n first.new stages.new }
    ensures falls { (x : List ℕ) → passing P.rest stages.new (first.new ++ x) + n
        ≡ passing P.rest stages.old (first.old ++ x) }
    ensures wait { last_wait first.new stages.new ≡ drop n (last_wait first.old stages.old) }
    ensures ended { (given : _) → last_ended given stages.new ≡ last_ended given stages.old }
    ensures len { length stages.new ≡ length stages.old }
{
    match stages.split_first_mut() {
        Some((stage, others)) => take_last(&mut stage.after, others, n),
        None => first.take(n),
    }
}

/// Closes the stages: each loses its transform, and what waits after it.
pub fn close_all<P: Drop>(stages: &mut [Stage<P>])
    ensures { stages.new ≡ map closed stages.old }
{
    if let Some((stage, others)) = stages.split_first_mut() {
        stage.part = None;
        stage.after.take(stage.after.len());
        close_all(others);
    }
}

/// Whether the stage at a place must work: it has work, and there is room after it.
pub fn must_pump<P>(up_ended: bool, from: &Waiting, stages: &[Stage<P>], at: usize) -> bool
    ensures { IsTrue result ↔ MustPump up_ended from.now stages.now at }
{
    let Some((first, others)) = stages.split_first() else {
        return false;
    };
    if at == 0 {
        let has_input = first.needs_no_more(up_ended) || !from.is_empty();
        !first.has_ended() && has_input && first.after.len() < MOST_WAITING
    } else {
        must_pump(first.has_ended(), &first.after, others, at - 1)
    }
}

/// Whether none of these stages must work.
pub fn all_rest<P>(up_ended: bool, from: &Waiting, stages: &[Stage<P>]) -> bool
    ensures { IsTrue result ↔ ((j : ℕ) → MustPump up_ended from.now stages.now j → ⊥) }
{
    let Some((first, others)) = stages.split_first() else {
        return true;
    };
    !must_pump(up_ended, from, stages, 0) && all_rest(first.has_ended(), &first.after, others)
}

/// Whether the first of these stages takes more bytes; where there is none, whether no end was given.
pub fn first_wants<P>(given: bool, stages: &[Stage<P>]) -> bool
    ensures { result ≡ first_wants given stages.now }
{
    match stages.first() {
        Some(stage) => !stage.has_ended(),
        None => !given,
    }
}

/// Whether the stage at a place has ended, or there is none.
pub fn ended_at<P>(stages: &[Stage<P>], at: usize) -> bool
    ensures { result ≡ ended_at stages.now at }
{
    let Some((first, others)) = stages.split_first() else {
        return true;
    };
    if at == 0 {
        first.has_ended()
    } else {
        ended_at(others, at - 1)
    }
}

/// The milliseconds that the stage at a place waits between two of its events.
pub fn pause_at<P: Transform>(stages: &[Stage<P>], at: usize) -> u64
    ensures { result ≡ pause_at P.pause stages.now at }
{
    let Some((first, others)) = stages.split_first() else {
        return 0;
    };
    if at > 0 {
        return pause_at(others, at - 1);
    }
    match &first.part {
        Some(Part::Works(part)) => part.pause(),
        Some(Part::Done { pause }) => *pause,
        None => 0,
    }
}
