//! A link that keeps what it takes, where that is asked for.
ghost use Rattle.std.specs.Prelude.{◌≡◌, ◌<◌, ◌≤◌, ◌+◌, ◌++◌, [], length, true, false, refl, OnOk};
ghost use Rattle.std.specs.Vec.{vec_len, vec_capacity};
ghost use Rattle.std.proofs.Common.{◌∙◌};
ghost use Rattle.ts_link.specs.Link.{Writes};
ghost use Rattle.ts_layers.specs.Kept.{IsKept, KeepsNone, KeepsPut, fresh_kept};

use std::alloc::Global;
use std::marker::Model;
use ts_link::{Got, Link, NoMemory, Put};
use ts_upstream::{Uploaded, Upstream};

/// A link that keeps what it takes, where that is asked for. It answers as the link inside does, or that
/// memory lacks.
#[derive(Drop)]
pub struct Kept<O: Link> {
    inner: O,
    keeps: bool,
    kept: Vec<u8>,
}

impl<O: Link> Model for Kept<O> {
    ghost use Rattle.ts_layers.specs.Kept.{IsKept, Keeping, KeepsNone};

    ghost Value = { Keeping O };

    ghost view = { λ k. record { inner = k.inner; keeps = k.keeps; kept = k.kept.items } };

    ghost invariant = { λ k. IsKept O.tells k.keeps (O.look k.inner) k.kept.items
        × KeepsNone k.keeps k.kept.items };
}

// Makes room for so many bytes more.
fn make_room(kept: &mut Vec<u8>, more: usize) -> Result<(), NoMemory>
    ensures items { kept.new.items ≡ kept.old.items }
    ensures room { OnOk result (vec_len kept.new + more ≤ vec_capacity kept.new) }
{
    kept.reserve(more)?;
    Ok(())
}

// Appends bytes, for which there is room.
fn append(kept: &mut Vec<u8>, bytes: &[u8])
    requires { vec_len kept.old + length bytes.now ≤ vec_capacity kept.old }
    ensures { kept.new.items ≡ kept.old.items ++ bytes.now }
{
    let Ok(()) = kept.extend_from_slice(bytes) else {
        unreachable!()
    };
}

// One write of the link inside. What it took is kept, where that is asked for.
fn write_kept<O: Link>(inner: &mut O, keeps: bool, kept: &mut Vec<u8>, piece: &[u8]) -> Put
    requires { 0 < length piece.now }
    ensures writes { Writes O.tells (O.look inner.old) (O.look inner.new) result piece.now }
    ensures goes { O.goes inner.old inner.new }
    ensures keeps { keeps ≡ true → KeepsPut result piece.now kept.old.items kept.new.items }
    ensures unasked { keeps ≡ false → kept.new.items ≡ kept.old.items }
{
    if !keeps {
        return inner.write(piece);
    }
    if make_room(kept, piece.len()).is_err() {
        return Put::NoMemory;
    }
    match inner.write(piece) {
        Put::Took(count) => {
            let (taken, _) = piece.split_at(count);
            append(kept, taken);
            Put::Took(count)
        }
        Put::Again => Put::Again,
        Put::Failed => Put::Failed,
        Put::NoMemory => Put::NoMemory,
    }
}

impl<O: Link> Kept<O> {
    /// Such a link over this one, which took nothing. It takes no memory.
    pub fn make(alloc: Global, inner: O, keeps: bool) -> Kept<O>
        requires { O.tells ≡ true → (O.look inner).taken ≡ [] }
        ensures { result ≡ fresh_kept keeps inner }
    {
        Kept {
            inner,
            keeps,
            kept: Vec::new(alloc),
        }
    }

    /// The link inside.
    pub fn inner(&self) -> &O
        ensures { result.now ≡ self.now.inner }
    {
        &self.inner
    }

    /// The link inside, and what was kept.
    pub fn into_parts(self) -> (O, Vec<u8>)
    where
        O: Drop,
        ensures inner { result.0 ≡ self.inner }
        ensures bytes { result.1.items ≡ self.kept }
        ensures kept { IsKept O.tells self.keeps (O.look self.inner) self.kept }
        ensures none { KeepsNone self.keeps self.kept }
    {
        let Kept { inner, kept, .. } = self;
        (inner, kept)
    }
}

impl<O: Link> Link for Kept<O> {
    ghost tells = { O.tells };

    ghost look = { λ k. O.look k.inner };

    ghost goes = { λ k l. O.goes k.inner l.inner × (l.keeps ≡ k.keeps) };

    ghost still = { λ k l. O.still k.inner l.inner × (l.keeps ≡ k.keeps) };

    fn read(&mut self, into: &mut [u8]) -> Got {
        self.inner.read(into)
    }

    fn write(&mut self, piece: &[u8]) -> Put {
        write_kept(&mut self.inner, self.keeps, &mut self.kept, piece)
    }

    fn faults(&self) -> u64 {
        self.inner.faults()
    }

    ghost stays = { λ k. (O.stays k.inner, refl) };

    ghost goes_on = { λ k l m g h. (O.goes_on k.inner l.inner m.inner g.0 h.0, h.1 ∙ g.1) };

    ghost goes_still = { λ k l g. (O.goes_still k.inner l.inner g.0, g.1) };

    ghost still_on = { λ k l m g h. (O.still_on k.inner l.inner m.inner g.0 h.0, h.1 ∙ g.1) };
}

impl<C: Link, O: Upstream<C>> Upstream<C> for Kept<O> {
    ghost paired = { λ c k. O.paired c k.inner };

    ghost refuses = { λ k list. O.refuses k.inner list };

    ghost upload_left = { λ c k. O.upload_left c k.inner };

    ghost one_upload = { λ c k d l answer. O.one_upload c k.inner d l.inner answer };

    fn upload(&mut self, client: &mut C) -> Uploaded {
        self.inner.upload(client)
    }

    ghost pair_stays = { λ c d k l pair g h. O.pair_stays c d k.inner l.inner pair g h.0 };

    ghost refusal_stays = { λ k l g. O.refusal_stays k.inner l.inner g.0 };

    ghost left_rises = { λ c d k l g h. O.left_rises c d k.inner l.inner g h.0 };
}
