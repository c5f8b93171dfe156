//! Where a request's body in chunks ends, found as its bytes come.
ghost use Rattle.std.specs.Prelude.{◌≤◌, [], length};
ghost use Rattle.ts_session.specs.Chunks.{EndsWithin, Follows};
ghost use Rattle.ts_wire.specs.Place.{IsFed};
ghost use Rattle.ts_wire.specs.declared.framing.Framing.{Framing};

use std::alloc::Global;
use std::marker::Model;
use ts_link::NoMemory;
use ts_wire::{BodyReader, BodyState, Framing};

// How a body in chunks goes on with some bytes.
#[derive(Clone, Copy)]
pub(crate) enum Followed {
    // More of it comes behind them.
    On,
    // It ends behind so many of them.
    Ended(usize),
    // It does not end, whatever follows.
    Never,
}

/// A reader of bodies in chunks that looks for their ends alone. A contract sees where it stands.
#[derive(Drop)]
pub struct Chunks {
    reader: BodyReader,
}

impl Model for Chunks {
    ghost use Rattle.ts_wire.specs.Place.{Place};

    ghost Value = { Place };

    ghost use Rattle.std.specs.Prelude.{◌≤◌};
    ghost use Rattle.ts_wire.specs.Place.{room_for};
    ghost use Rattle.ts_wire.specs.declared.framing.Framing.{Framing};

    ghost view = { λ c. c.reader };

    ghost invariant = { λ c. room_for Framing.Chunked ≤ c.reader.room };
}

impl Chunks {
    // A reader that was fed nothing. It takes all the memory that it ever needs.
    pub(crate) fn make(alloc: Global) -> Result<Chunks, NoMemory> {
        let reader = BodyReader::make(alloc, Framing::Chunked)?;
        Ok(Chunks { reader })
    }

    // Begins anew with another body.
    pub(crate) fn restart(&mut self)
        ensures { IsFed Framing.Chunked [] [] self.new }
    {
        self.reader.restart(Framing::Chunked);
    }

    // Goes on with these bytes.
    pub(crate) fn follow(&mut self, bytes: &[u8]) -> Followed
        ensures follows { Follows self.old self.new bytes.now result }
        ensures within { EndsWithin result (length bytes.now) }
    {
        follow_chunks(&mut self.reader, bytes)
    }
}

// Goes on with these bytes, up to the end of the body.
fn follow_chunks(reader: &mut BodyReader, bytes: &[u8]) -> Followed
    ensures follows { Follows reader.old reader.new bytes.now result }
    ensures within { EndsWithin result (length bytes.now) }
    ensures room { reader.old.room ≤ reader.new.room }
{
    let mut at = 0;
    'chunks: while at < bytes.len() {
        let fed = reader.feed(bytes.split_at(at).1);
        at += fed.taken;
        match fed.state {
            BodyState::Unfinished => {}
            BodyState::Ended => return Followed::Ended(at),
            BodyState::Bad => return Followed::Never,
        }
    }
    Followed::On
}
