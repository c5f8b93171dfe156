//! A chain of transforms, with the bytes that wait before, between and after them.
ghost use Rattle.std.specs.Prelude.{◌≡◌, ◌+◌, ◌<◌, ◌≤◌, ◌++◌, ◌↔◌, List, ℕ, [], length, take, drop, map, true, false, IsTrue, IfOk, OnOk, OnErr, MatchOption};
ghost use Rattle.std.specs.Bool.{OnTrue};
ghost use Rattle.ts_transform.specs.Stage.{IfRests, done_by};
ghost use Rattle.ts_transform.specs.Stage.{MOST_WAITING};
ghost use Rattle.ts_transform.specs.Flow.{AnswersAt, Composes, EndsInOrder, IsFinished, IsGiven, KeepsFlow, MustRead, MustWork, MustWrite, Rests, StepsAt, TakesAway, aborted, chain_of, client_wait, compose, ended_at, flow, fresh_stage, last_ended, left_to_do, pause_at, wait_at, wants};
ghost use Rattle.ts_vconn.specs.Moves.{PullsOn};

use crate::pump::{MOST_WAITING, Pumped, Stage, pump_at};
use crate::stages::{
    all_rest, close_all, ended_at, first_wants, fresh_stages, has_ended, last_block, last_waiting,
    must_pump, pause_at, take_last, waiting_at,
};
use crate::transform::Transform;
use std::alloc::Global;
use std::marker::Model;
use ts_iobuf::Waiting;
use ts_link::{Link, NoMemory, Octets};
use ts_vconn::{MOST_PULLED, Pulled, pull_waiting};

/// A chain of transforms, with the bytes that wait before, between and after them. Boundary 0 lies before
/// the first stage, and boundary `stages()` at the client.
#[derive(Drop)]
pub struct Chain<P> {
    first: Waiting,
    stages: Vec<Stage<P>>,
    given: bool,
}

impl<P> Model for Chain<P> {
    ghost use Rattle.ts_transform.specs.Flow.{ChainState};

    ghost Value = { ChainState P };

    ghost view = { λ c. record { first = c.first; stages = c.stages.items; given = c.given } };
}

impl<P: Transform + Drop> Chain<P> {
    /// A chain of these parts, the first of which acts first. What it gives is their composition over what
    /// it gets.
    pub fn make(alloc: Global, parts: Vec<P>) -> Result<Chain<P>, NoMemory>
        ensures made { IfOk result
            (λ c. c ≡ chain_of false [] (map (fresh_stage P.soon P.pause) parts.items)) }
        ensures flow { IfOk result (Composes P.rest P.soon parts.items) }
        ensures ordered { IfOk result (λ c. EndsInOrder true c.stages) }
    {
        let first = Waiting::new(alloc)?;
        let stages = fresh_stages(alloc, parts)?;
        Ok(Chain {
            first,
            stages,
            given: false,
        })
    }

    /// A chain of these parts over a whole body, which is taken over without a copy; no more bytes come.
    pub fn over(alloc: Global, parts: Vec<P>, body: Octets) -> Result<Chain<P>, NoMemory>
        ensures made { IfOk result
            (λ c. c ≡ chain_of true body (map (fresh_stage P.soon P.pause) parts.items)) }
        ensures flow { IfOk result (λ c. flow P.rest c [] ≡ compose P.rest parts.items body) }
        ensures ordered { IfOk result (λ c. EndsInOrder true c.stages) }
    {
        let first = Waiting::of_octets(alloc, body)?;
        let stages = fresh_stages(alloc, parts)?;
        Ok(Chain {
            first,
            stages,
            given: true,
        })
    }

    /// How many stages it has.
    pub fn stages(&self) -> usize
        ensures { result ≡ length self.now.stages }
    {
        self.stages.len()
    }

    /// Gives it more bytes, in front of what is still to come. It drops them where it wants no more.
    pub fn give(&mut self, bytes: &[u8]) -> Result<(), NoMemory>
        requires { self.old.given ≡ false }
        ensures ok { OnOk result (IsGiven P.rest bytes.now self.old self.new) }
        ensures err { OnErr result (self.new ≡ self.old) }
    {
        if first_wants(self.given, self.stages.as_slice()) {
            self.first.write(bytes)?;
        }
        Ok(())
    }

    /// Says that no more bytes come.
    pub fn give_end(&mut self)
        requires { self.old.given ≡ false }
        ensures given { self.new ≡ record self.old { given = true } }
        ensures flow { (z : List ℕ) → flow P.rest self.new z ≡ flow P.rest self.old z }
    {
        self.given = true;
    }

    /// How many bytes wait at a boundary.
    pub fn waiting(&self, boundary: usize) -> usize
        requires { boundary ≤ length self.now.stages }
        ensures { result ≡ length (wait_at self.now.first self.now.stages boundary) }
    {
        waiting_at(&self.first, self.stages.as_slice(), boundary)
    }

    /// Lets a stage work. It is `Idle` where it has ended, or where nothing waits before it, more may come,
    /// and it is not done; else `Blocked` where 65,536 bytes or more wait after it; else it ends where it is
    /// done or nothing waits before it; else it takes at most 32,768 bytes. Only its own stage and the
    /// boundaries beside it change, unless it ended done: then those before it have ended without an end of
    /// their own, and what waited before it is dropped. The flow stays: for whatever still comes before the
    /// end was given, and for nothing afterwards. Memory lacks only where the stage must work.
    pub fn pump(&mut self, stage: usize) -> Result<Pumped, NoMemory>
        requires { stage < length self.old.stages }
        ensures answer { IfOk result (AnswersAt self.old.given self.old.first self.old.stages stage) }
        ensures steps { IfOk result
            (λ r. StepsAt P.rest self.old.first self.old.stages stage r self.new.first self.new.stages) }
        ensures flow { OnOk result (KeepsFlow P.rest P.soon self.old self.new) }
        ensures rests { IfOk result (λ r. IfRests r (self.new ≡ self.old)) }
        ensures falls { IfOk result (λ r. (z : List ℕ) → OnTrue self.old.given (z ≡ [])
            → left_to_do P.rest self.new z + done_by r ≤ left_to_do P.rest self.old z) }
        ensures kept { (self.new.given ≡ self.old.given) × (length self.new.stages ≡ length self.old.stages) }
        ensures err { OnErr result (MustWork self.old stage × (self.new ≡ self.old)) }
    {
        pump_at(self.given, &mut self.first, &mut self.stages, stage)
    }

    /// Lends the first of the bytes that wait for the client, without a copy; `None` where none waits.
    pub fn out_block(&self) -> Option<&[u8]>
        ensures { MatchOption result (client_wait self.now ≡ []) (λ b. (0 < length b.now)
            × (length b.now ≤ length (client_wait self.now))
            × (b.now ≡ take (length b.now) (client_wait self.now))) }
    {
        last_block(&self.first, self.stages.as_slice())
    }

    /// Takes away the first `n` bytes that wait for the client.
    pub fn take(&mut self, n: usize)
        requires { n ≤ length (client_wait self.old) }
        ensures { TakesAway P.rest n self.old self.new }
    {
        take_last(&mut self.first, &mut self.stages, n);
    }

    /// Whether the client has all that it gets: then nothing more comes out, whatever still comes in.
    pub fn is_finished(&self) -> bool
        ensures finished { IsTrue result ↔ IsFinished self.now }
        ensures flow { IsTrue result → (z : List ℕ) → OnTrue self.now.given (z ≡ [])
            → flow P.rest self.now z ≡ [] }
    {
        match last_block(&self.first, self.stages.as_slice()) {
            Some(_) => false,
            None => has_ended(self.given, self.stages.as_slice()),
        }
    }

    /// Drops all that waits, and closes every stage; nothing more comes out. It takes no memory.
    pub fn abort(&mut self)
        ensures { self.new ≡ aborted self.old }
    {
        self.first.take(self.first.len());
        close_all(&mut self.stages);
        self.given = true;
    }

    /// Whether its end was given.
    pub fn is_given(&self) -> bool
        ensures { result ≡ self.now.given }
    {
        self.given
    }

    /// Whether fewer than 65,536 bytes wait before its first stage.
    pub fn has_room(&self) -> bool
        ensures { IsTrue result ↔ (length self.now.first < MOST_WAITING) }
    {
        self.first.len() < MOST_WAITING
    }

    /// Whether it takes more bytes: its first stage has not ended; without a stage, its end was not given.
    pub fn wants(&self) -> bool
        ensures { result ≡ wants self.now }
    {
        first_wants(self.given, self.stages.as_slice())
    }

    /// Whether its end was not given, it wants more, and there is room before its first stage.
    pub fn must_read(&self) -> bool
        ensures { IsTrue result ↔ MustRead self.now }
    {
        let wants = first_wants(self.given, self.stages.as_slice());
        !self.given && wants && self.first.len() < MOST_WAITING
    }

    /// Whether no stage must work, and nothing waits for the client.
    pub fn rests(&self) -> bool
        ensures { IsTrue result ↔ Rests self.now }
    {
        let stages = self.stages.as_slice();
        last_waiting(&self.first, stages) == 0 && all_rest(self.given, &self.first, stages)
    }

    /// Whether bytes wait for the client.
    pub fn has_output(&self) -> bool
        ensures { IsTrue result ↔ MustWrite self.now }
    {
        last_waiting(&self.first, self.stages.as_slice()) > 0
    }

    /// Reads once from a link, behind the bytes that wait before the first stage.
    pub fn pull<L: Link>(&mut self, link: &mut L) -> Result<Pulled, NoMemory>
        requires { self.old.given ≡ false }
        ensures pulled { IfOk result (λ p. PullsOn L.tells (L.look link.old) (L.look link.new)
            self.old.first self.new.first p MOST_PULLED) }
        ensures kept { (self.new.stages ≡ self.old.stages) × (self.new.given ≡ self.old.given) }
        ensures goes { L.goes link.old link.new }
        ensures err { OnErr result ((self.new ≡ self.old) × (link.new ≡ link.old)) }
    {
        pull_waiting(link, &mut self.first, MOST_PULLED)
    }

    /// Whether a stage has work, and room after it.
    pub fn must_pump(&self, stage: usize) -> bool
        ensures { IsTrue result ↔ MustWork self.now stage }
    {
        must_pump(self.given, &self.first, self.stages.as_slice(), stage)
    }

    /// Whether the last stage has not ended, and 65,536 bytes or more wait after it; it takes no input then.
    pub fn is_last_full(&self) -> bool
        ensures { IsTrue result ↔ ((last_ended true self.now.stages ≡ false)
            × (MOST_WAITING ≤ length (client_wait self.now))) }
    {
        let stages = self.stages.as_slice();
        !has_ended(true, stages) && last_waiting(&self.first, stages) >= MOST_WAITING
    }

    /// Whether a stage has ended, or there is none of that place.
    pub fn has_ended(&self, stage: usize) -> bool
        ensures { result ≡ ended_at self.now.stages stage }
    {
        ended_at(self.stages.as_slice(), stage)
    }

    /// The milliseconds that a stage waits between two of its events.
    pub fn pause(&self, stage: usize) -> u64
        ensures { result ≡ pause_at P.pause self.now.stages stage }
    {
        pause_at(self.stages.as_slice(), stage)
    }
}
