//! The front of a client: a link that shows the head of a request with an upload without the lines that speak
//! of its body, and hands the body over apart.
ghost use Rattle.std.specs.Prelude.{◌≡◌, ◌≢◌, ◌<◌, [], length, true, refl, IfOk};
ghost use Rattle.std.proofs.Common.{◌∙◌};
ghost use Rattle.ts_link.specs.Link.{all_of};
ghost use Rattle.ts_request.specs.Front.{AsksClient, FrontGoes, FrontStill, ReadsBody, ShowsClient};
ghost use Rattle.ts_request.specs.Front.{fresh_front, front_look};
ghost use Rattle.ts_request.specs.Laws.{keeps_body, keeps_body_on};
ghost use Rattle.ts_request.specs.Upload.{Strips};
ghost use Rattle.ts_upstream.specs.Uploads.{StayPaired, UploadCauses, UploadFalls, UploadKeeps, Uploads};
ghost use Rattle.ts_upstream.specs.Uploads.{UploadsSurely, both};
ghost use Rattle.ts_link.specs.Link.{IsSure};
ghost use Rattle.ts_wire.specs.declared.framing.Framing.{Framing};

use crate::held::HeldText;
use crate::reading::{read_front, read_upload};
use crate::stage::Stage;
use std::alloc::Global;
use std::marker::Model;
use ts_link::{Got, Link, NoMemory, Put};
use ts_upstream::{Uploaded, Upstream};

/// The front of a client. Of a request with an upload it shows the head without its Content-Length,
/// Transfer-Encoding and Expect lines, and then the end; of any other all that the client gives, as it is.
/// What is written to it is written to the client.
#[derive(Drop)]
pub struct Front<C: Link> {
    client: C,
    text: HeldText,
    reads: u64,
}

impl<C: Link> Model for Front<C> {
    ghost use Rattle.ts_request.specs.Front.{FrontSeen};

    ghost Value = { FrontSeen C };

    ghost use Rattle.ts_request.specs.Front.{Holds};

    ghost view = { λ f. record { client = f.client; text = f.text; reads = f.reads } };

    ghost invariant = { λ f. Holds C.tells f.text (C.look f.client) };
}

impl<C: Link + Drop> Front<C> {
    /// A front of a client that gave nothing yet. It takes all the memory that it ever needs: the room of a
    /// head of 16,384 bytes.
    pub fn make(alloc: Global, client: C) -> Result<Front<C>, NoMemory>
        requires { C.tells ≡ true → (C.look client).given ≡ [] }
        ensures { IfOk result (λ f. f ≡ fresh_front client) }
    {
        let text = HeldText::make(alloc)?;
        Ok(Front {
            client,
            text,
            reads: 0,
        })
    }

    /// How far it is.
    pub fn stage(&self) -> Stage
        ensures { result ≡ self.now.text.stage }
    {
        self.text.stage()
    }

    /// The client inside.
    pub fn client(&self) -> &C
        ensures { result.now ≡ self.now.client }
    {
        &self.client
    }

    /// What holds of every one whose client tells: what it shows of all that this one gave and may still
    /// give, and that it asks for more only where no whole head came.
    pub fn known(&self)
        ensures shows { C.tells ≡ true → ShowsClient C.look self.now }
        ensures strips { C.tells ≡ true → self.now.text.stage ≢ Stage.Heading
            → Strips (all_of (C.look self.now.client)) (all_of (front_look C.look self.now)) }
        ensures awaits { C.tells ≡ true → AsksClient C.look self.now }
    {
        let _ = &self.text;
    }

    /// Reads the bytes that follow the head of a request with an upload into the room, which is not empty:
    /// first those that came with the head, and then the client.
    pub fn read_body(&mut self, into: &mut [u8]) -> Got
        requires room { 0 < length into.old }
        requires uploading { (framing : Framing) × (self.old.text.stage ≡ Stage.Uploading framing) }
        ensures reads { ReadsBody C.tells self.old.text self.new.text
            (C.look self.old.client) (C.look self.new.client) result into.new }
        ensures shown { self.new.reads ≡ self.old.reads }
        ensures goes { C.goes self.old.client self.new.client }
    {
        read_upload(&mut self.client, &mut self.text, into)
    }

    /// Lets the link to an origin, which belongs to the client inside, move some of an upload of its own.
    pub fn upload_inside<O: Upstream<C>>(&mut self, origin: &mut O) -> Uploaded
        requires { O.paired self.old.client origin.old }
        ensures paired { StayPaired C.still O.still O.paired O.refuses
            self.old.client self.new.client origin.old origin.new }
        ensures causes { UploadCauses C.tells (O.refuses origin.old) result
            (C.look self.old.client) (C.look self.new.client) (O.look origin.old) (O.look origin.new) }
        ensures bytes { Uploads C.tells O.tells
            (C.look self.old.client) (C.look self.new.client) (O.look origin.old) (O.look origin.new) }
        ensures keeps { UploadKeeps
            (C.look self.old.client) (C.look self.new.client) (O.look origin.old) (O.look origin.new) }
        ensures falls { UploadFalls result (O.upload_left self.old.client origin.old)
            (O.upload_left self.new.client origin.new)
            (both (C.look self.old.client).agains (O.look origin.old).agains)
            (both (C.look self.new.client).agains (O.look origin.new).agains) }
        ensures sure { IsSure (C.look self.old.client) → IsSure (O.look origin.old) → UploadsSurely result
            (C.look self.old.client) (C.look self.new.client) (O.look origin.old) (O.look origin.new) }
        ensures text { self.new ≡ record self.old { client = self.new.client } }
    {
        origin.upload(&mut self.client)
    }

    /// The client inside, which took what the front took, and gave what the front shows so.
    pub fn into_client(self) -> C
        ensures client { result ≡ self.client }
        ensures shows { C.tells ≡ true → ShowsClient C.look self }
        ensures strips { C.tells ≡ true → self.text.stage ≢ Stage.Heading
            → Strips (all_of (C.look result)) (all_of (front_look C.look self)) }
    {
        let Front {
            client,
            text: _,
            reads: _,
        } = self;
        client
    }
}

impl<C: Link> Link for Front<C> {
    ghost tells = { C.tells };

    ghost look = { front_look C.look };

    ghost goes = { FrontGoes C.Link };

    ghost still = { FrontStill C.Link };

    fn read(&mut self, into: &mut [u8]) -> Got {
        let got = read_front(&mut self.client, &mut self.text, into);
        self.reads = self.reads.saturating_add(1);
        got
    }

    fn write(&mut self, piece: &[u8]) -> Put {
        self.client.write(piece)
    }

    fn faults(&self) -> u64 {
        self.client.faults()
    }

    ghost stays = { λ f. record {
      client = C.stays f.client;
      source = refl;
      body = keeps_body C.tells f.text (C.look f.client);
    } };

    ghost goes_on = { λ f g h p q. record {
      client = C.goes_on f.client g.client h.client p.client q.client;
      source = q.source ∙ p.source;
      body = keeps_body_on C.tells f.text g.text h.text (C.look f.client) (C.look g.client) (C.look h.client)
          p.body q.body;
    } };

    ghost goes_still = { λ f g p. C.goes_still f.client g.client p.client };

    ghost still_on = { λ f g h. C.still_on f.client g.client h.client };
}
