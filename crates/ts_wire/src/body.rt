//! Reads the body of a message, however its bytes are cut.
ghost use Rattle.std.specs.Prelude.{◌≡◌, ◌≢◌, ◌≤◌, ◌↔◌, ℕ, List, [], take, slice_range, IfOk};
ghost use Rattle.ts_wire.specs.declared.body.BodyState.{BodyState};
ghost use Rattle.ts_wire.specs.Body.{IsCutShort, HasOneBody, BodyGrows};
ghost use Rattle.ts_wire.specs.Place.{first_phase, room_for, state_of, IsSoundPhase, IsFed, TakesBytes, GoesOn, GivesBody};

use crate::framing::Framing;
use crate::phases::{BodyPhase, MAX_TRAILER, next_step};
use std::alloc::Global;
use std::marker::Model;
use ts_link::NoMemory;

/// How far a body is.
#[derive(Clone, Copy)]
pub enum BodyState {
    /// More of it may come.
    Unfinished,
    /// It is whole.
    Ended,
    /// Its bytes are not what its framing says.
    Bad,
}

/// How the bytes of a body ended.
#[derive(Clone, Copy)]
pub enum BodyEnd {
    /// With the body.
    Ended,
    /// Before it.
    Cut,
}

/// What a reader took of some bytes: the first `taken`, of which those from `from` to `to` are body.
#[derive(Clone, Copy)]
pub struct Fed {
    pub taken: usize,
    pub from: usize,
    pub to: usize,
    pub state: BodyState,
}

/// A reader of a body. A contract sees where it stands.
#[derive(Drop)]
pub struct BodyReader {
    phase: BodyPhase,
    held: Vec<u8>,
    total: u64,
}

impl Model for BodyReader {
    ghost use Rattle.ts_wire.specs.Place.{Place, place_of, IsSoundInside};

    ghost Value = { Place };

    ghost view = { place_of };

    ghost invariant = { IsSoundInside };
}

fn state_of(phase: BodyPhase) -> BodyState
    ensures { result ≡ state_of phase }
{
    match phase {
        BodyPhase::Ended => BodyState::Ended,
        BodyPhase::Bad => BodyState::Bad,
        _ => BodyState::Unfinished,
    }
}

/// The phase in which a body begins that ends so.
fn first_phase(framing: Framing) -> BodyPhase
    ensures value { result ≡ first_phase framing }
    ensures sound { IsSoundPhase result [] 0 }
{
    match framing {
        Framing::Nothing | Framing::Sized(0) => BodyPhase::Ended,
        Framing::Sized(n) => BodyPhase::Counted(n),
        Framing::Chunked => BodyPhase::Line,
        Framing::UntilClose => BodyPhase::Open,
        Framing::Faulty => BodyPhase::Bad,
    }
}

/// The room that a reader of such a body needs, now or later.
fn room_for(framing: Framing) -> usize
    ensures { result ≡ room_for framing }
{
    match framing {
        Framing::Chunked => MAX_TRAILER,
        _ => 0,
    }
}

impl BodyReader {
    /// A reader that was fed nothing. It takes all the memory that it ever needs.
    pub fn make(alloc: Global, framing: Framing) -> Result<BodyReader, NoMemory>
        requires { framing ≢ Framing.Faulty }
        ensures fed { IfOk result (IsFed framing [] []) }
        ensures room { IfOk result (λ reader. room_for framing ≤ reader.room) }
    {
        let phase = first_phase(framing);
        let held = Vec::with_capacity(alloc, room_for(framing))?;
        Ok(BodyReader {
            phase,
            held,
            total: 0,
        })
    }

    /// Begins anew with a body that ends so, in the room that it has: nothing was fed.
    pub fn restart(&mut self, framing: Framing)
        requires framing { framing ≢ Framing.Faulty }
        requires room { room_for framing ≤ self.old.room }
        ensures fed { IsFed framing [] [] self.new }
        ensures room { self.old.room ≤ self.new.room }
    {
        self.phase = first_phase(framing);
        self.held.clear();
        self.total = 0;
    }

    /// How far the body is.
    pub fn state(&self) -> BodyState
        ensures { result ≡ state_of self.now.phase }
    {
        state_of(self.phase)
    }

    /// Takes a front of the bytes, and says which part of it is body.
    pub fn feed(&mut self, bytes: &[u8]) -> Fed
        ensures takes { TakesBytes self.old self.new bytes.now result }

        // A body that has ended or is bad stays so, and takes nothing.
        ensures rests { state_of self.old.phase ≢ BodyState.Unfinished → result.taken ≡ 0 }
        ensures stays { state_of self.old.phase ≢ BodyState.Unfinished
            → result.state ≡ state_of self.old.phase }

        // However the bytes are cut, what was given is the body of what was fed, in its state.
        ensures goes_on { GoesOn self.old self.new (take result.taken bytes.now)
            (slice_range bytes.now result.from result.to) }
        ensures body { GivesBody self.old (take result.taken bytes.now)
            (slice_range bytes.now result.from result.to) result.state }
        ensures room { self.old.room ≤ self.new.room }
    {
        let step = next_step(self.phase, &mut self.held, self.total, bytes);
        self.phase = step.phase;
        self.total += (step.to - step.from) as u64;
        Fed {
            taken: step.taken,
            from: step.from,
            to: step.to,
            state: state_of(step.phase),
        }
    }

    /// Says of bytes that have ended whether the body ended with them.
    pub fn finish(&self) -> BodyEnd
        requires { state_of self.now.phase ≢ BodyState.Bad }
        ensures cut { (framing : Framing) (fed body : List ℕ) → IsFed framing fed body self.now
            → ((result ≡ BodyEnd.Cut) ↔ IsCutShort framing fed body) }

        // The law that makes the body of some bytes one.
        ensures one_body { HasOneBody }

        // The law that the body of a front of the bytes is a front of their body.
        ensures grows { BodyGrows }
    {
        match self.phase {
            BodyPhase::Ended => BodyEnd::Ended,
            BodyPhase::Open => BodyEnd::Ended,
            _ => BodyEnd::Cut,
        }
    }
}
