//! The link to an origin, where a line of the configuration may answer in its place.
ghost use Rattle.std.specs.Prelude.{◌≡◌, ◌<◌, ◌↔◌, [], false, is_some, length, true, IfOk, IsTrue};
ghost use Rattle.std.specs.Arc.{arc_value};
ghost use Rattle.ts_link.specs.Link.{Reads, Writes};
ghost use Rattle.ts_intercept.specs.Answered.{Answered};
ghost use Rattle.ts_intercept.specs.Going.{goes_more, goes_same, goes_stays, pair_on, rises_on, still_more};
ghost use Rattle.ts_intercept.specs.Moving.{Goes, HoldsNoMore, IsStill, ReadsBy};
ghost use Rattle.ts_intercept.specs.Seen.{inside, seen};
ghost use Rattle.ts_intercept.specs.Standing.{IsMadeOf, IsUnused, KeepsOrigin};
ghost use Rattle.ts_intercept.specs.Uploading.{IsOneUpload, Pairs, RefusesNone, UploadsAs, left_of, owed};

use crate::choice::{Choice, Stage};
use crate::gone::Gone;
use crate::reading::read_choice;
use crate::uploading::upload_choice;
use crate::writing::write_choice;
use std::alloc::Global;
use std::marker::Model;
use std::snapshot::Snapshot;
use std::sync::Arc;
use ts_config::Setup;
use ts_link::{Got, Link, NoMemory, Put};
use ts_upstream::{Uploaded, Upstream};

/// The link to an origin, where a line of the configuration may answer in its place. It holds what is written
/// until a head is whole, at most 4,194,304 bytes. Where a line serves the head's host, it gives that line's
/// answer, drops whatever else is written, and leaves the origin alone; else it is the origin from then on.
#[derive(Drop)]
pub struct Chosen<O: Link> {
    choice: Choice<O>,
}

impl<O: Link> Model for Chosen<O> {
    ghost use Rattle.ts_intercept.specs.declared.choice.Choice.{Choice};
    ghost use Rattle.ts_intercept.specs.Standing.{IsSound};

    ghost Value = { Choice O };

    ghost view = { λ c. c.choice };

    ghost invariant = { λ c. IsSound O.tells O.look c.choice };
}

impl<O: Link> Chosen<O> {
    /// A link that chooses between this origin, which gave and took nothing, and the lines of the setup.
    /// Without an origin, a host that no line serves is answered as by an origin that ends at once.
    pub fn make(alloc: Global, origin: Option<O>, setup: Arc<Setup>) -> Result<Chosen<O>, NoMemory>
        requires { O.tells ≡ true → IsUnused (inside O.look origin) }
        ensures { IfOk result (IsMadeOf origin (arc_value setup)) }
    {
        let choice = Choice {
            alloc,
            handed: Snapshot::of(&origin),
            origin,
            setup,
            stage: Stage::Undecided,
            held: Vec::new(alloc),
            sent: 0,
            gone: Gone::none(),
            early: false,
            uploaded: false,
            reads: 0,
            writes: 0,
        };
        Ok(Chosen { choice })
    }

    /// Whether an origin was handed in.
    pub fn has_origin(&self) -> bool
        ensures { result ≡ is_some self.now.handed.value }
    {
        self.choice.origin.is_some()
    }

    /// Whether it was read before a head was whole, so that no line was asked.
    pub fn was_early(&self) -> bool
        ensures { result ≡ self.now.early }
    {
        self.choice.early
    }

    /// Whether nothing is held for the origin: all that was written for it was sent.
    pub fn is_sent(&self) -> bool
        ensures { IsTrue result ↔ (owed self.now ≡ []) }
    {
        match &self.choice.stage {
            Stage::HandedOn => {
                self.choice.origin.is_none()
                    || self.choice.held.as_slice().len() <= self.choice.sent
            }
            _ => true,
        }
    }

    /// The origin that was handed in: as it was then, where it was not handed on to.
    pub fn into_origin(self) -> Option<O>
    where
        O: Drop,
        ensures origin { result ≡ self.origin }
        ensures there { is_some self.origin ≡ is_some self.handed.value }
        ensures answered { O.tells ≡ true → Answered O.look self }
        ensures unused { O.tells ≡ true → IsUnused (inside O.look self.handed.value) }
        ensures kept { KeepsOrigin self }
    {
        let Chosen { choice } = self;
        let Choice { origin, .. } = choice;
        origin
    }
}

impl<O: Link> Link for Chosen<O> {
    ghost tells = { O.tells };

    ghost look = { seen O.look };

    ghost goes = { Goes O.goes };

    ghost still = { IsStill O.still };

    fn read(&mut self, into: &mut [u8]) -> Got
        requires { 0 < length into.old }
        ensures reads { Reads O.tells (seen O.look self.old) (seen O.look self.new) result into.new }
        ensures goes { Goes O.goes self.old self.new }
        ensures by { ReadsBy self.old.stage self.old self.new result into.new }
    {
        read_choice(&mut self.choice, into)
    }

    fn write(&mut self, piece: &[u8]) -> Put
        requires { 0 < length piece.now }
        ensures writes { Writes O.tells (seen O.look self.old) (seen O.look self.new) result piece.now }
        ensures goes { Goes O.goes self.old self.new }
        ensures limit { HoldsNoMore self.old piece.now result }
        ensures early { self.new.early ≡ self.old.early }
    {
        write_choice(&mut self.choice, piece)
    }

    fn faults(&self) -> u64 {
        match &self.choice.origin {
            Some(origin) => origin.faults(),
            None => 0,
        }
    }

    ghost stays = { λ c. goes_same O.goes O.stays c };

    ghost goes_on = { λ c d e g h. goes_more O.goes O.goes_on c d e g h };

    ghost goes_still = { λ c d g. goes_stays O.goes O.still O.goes_still c d g };

    ghost still_on = { λ c d e g h. still_more O.still O.still_on c d e g h };
}

impl<C: Link, O: Upstream<C>> Upstream<C> for Chosen<O> {
    ghost paired = { Pairs O.paired O.refuses };

    ghost refuses = { RefusesNone };

    ghost upload_left = { left_of O.tells O.upload_left };

    ghost one_upload = { IsOneUpload O.look O.one_upload };

    // Once it is done, nothing is held for the origin.
    fn upload(&mut self, client: &mut C) -> Uploaded
        requires { Pairs O.paired O.refuses client.old self.old }
        ensures { UploadsAs C.Link O.Link O.Upstream.own
            client.old self.old client.new self.new result }
    {
        upload_choice(&mut self.choice, client)
    }

    ghost pair_stays = { λ c d s t h g b.
        pair_on C.goes O.goes O.paired O.refuses O.pair_stays O.refusal_stays c d s t h g b };

    ghost refusal_stays = { λ s t g. record { still = λ list h. h; before = λ list h. h } };

    ghost left_rises = { λ c d s t g b.
        rises_on O.tells O.look C.goes O.goes O.upload_left O.left_rises c d s t g b };
}
