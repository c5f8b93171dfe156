//! What a step calls on the sides of a transaction. Each call speaks of all of it, so that a step is one call
//! and a choice by its answer.
ghost use Rattle.std.specs.Prelude.{◌≡◌, IfOk, OnOk, OnErr};
ghost use Rattle.ts_phases.specs.View.{IsOneUpload, IsPaired, refuses_if, upload_of, view_of};
ghost use Rattle.ts_phases.specs.Moving.{cuts_of, SeeksRequest, SeeksResponse, LowersUpload, MovesUpload};
ghost use Rattle.ts_phases.specs.Moving.{QueuesOwn, QueuesRequest, WritesClient, WritesOrigin};
ghost use Rattle.ts_phases.specs.Holding.{StepKeeps};
ghost use Rattle.ts_phases.specs.Lowering.{RaisesUpload};

use crate::head_reader::{Found, seek, seek_if};
use crate::parts::{Core, Sent};
use crate::peers::{give_back_origin, move_upload, push_origin, queue_if};
use std::alloc::Global;
use ts_block::joined;
use ts_link::{Link, NoMemory};
use ts_upstream::{Uploaded, Upstream};
use ts_vconn::Pushed;
use ts_wire::{Mode, RequestHead, ResponseHead};

/// The lengths of the pieces of a body that is sent in one.
fn cuts_of(alloc: Global, body: &[u8]) -> Result<Vec<u32>, NoMemory>
    ensures { IfOk result (λ cuts. cuts.items ≡ cuts_of body.now) }
{
    let mut cuts = Vec::new(alloc);
    if body.is_empty() {
        return Ok(cuts);
    }
    let Ok(len) = u32::try_from(body.len()) else {
        return Err(NoMemory);
    };
    cuts.push(len)?;
    Ok(cuts)
}

impl<C: Link, O: Upstream<C>> Core<C, O> {
    /// Takes the head of a request from the front of what the client gave, or reads on.
    pub(crate) fn seek_request(&mut self) -> Found<RequestHead>
        ensures seeks { SeeksRequest C.tells
            (view_of C.Link O.Link self.old) (view_of C.Link O.Link self.new) result }
        ensures rises { RaisesUpload O.Link O.Upstream.own self.old self.new }
        ensures keeps { StepKeeps C.Link O.Link O.Upstream.own self.old self.new }
    {
        seek(self.alloc, &mut self.client)
    }

    /// Takes the head of a response from the front of what the origin gave, or reads on.
    pub(crate) fn seek_response(&mut self) -> Found<ResponseHead>
        ensures seeks { SeeksResponse O.tells
            (view_of C.Link O.Link self.old) (view_of C.Link O.Link self.new) result }
        ensures rises { RaisesUpload O.Link O.Upstream.own self.old self.new }
        ensures keeps { StepKeeps C.Link O.Link O.Upstream.own self.old self.new }
    {
        seek_if(self.alloc, &mut self.origin)
    }

    /// Makes one write of what waits for the client.
    pub fn write_client(&mut self) -> Pushed
        ensures writes { WritesClient C.tells
            (view_of C.Link O.Link self.old) (view_of C.Link O.Link self.new) result }
        ensures rises { RaisesUpload O.Link O.Upstream.own self.old self.new }
        ensures keeps { StepKeeps C.Link O.Link O.Upstream.own self.old self.new }
    {
        self.client.push()
    }

    /// Makes one write of what waits for the origin.
    pub(crate) fn write_origin(&mut self) -> Pushed
        ensures writes { WritesOrigin O.tells
            (view_of C.Link O.Link self.old) (view_of C.Link O.Link self.new) result }
        ensures rises { RaisesUpload O.Link O.Upstream.own self.old self.new }
        ensures keeps { StepKeeps C.Link O.Link O.Upstream.own self.old self.new }
    {
        push_origin(&mut self.origin)
    }

    /// Moves some of the upload that follows the request.
    pub(crate) fn upload(&mut self) -> Uploaded
        requires pair { IsPaired O.Upstream.own self.old }
        ensures once { IsOneUpload O.Upstream.own self.old self.new result }
        ensures moves { MovesUpload C.tells O.tells (refuses_if O.refuses self.old.origin) result
            (view_of C.Link O.Link self.old) (view_of C.Link O.Link self.new) }
        ensures lowers { LowersUpload result (upload_of O.Upstream.own self.old)
            (upload_of O.Upstream.own self.new)
            (view_of C.Link O.Link self.old) (view_of C.Link O.Link self.new) }
        ensures keeps { StepKeeps C.Link O.Link O.Upstream.own self.old self.new }
    {
        move_upload(&mut self.client.link, &mut self.origin)
    }

    /// Queues the head of the request for the origin.
    pub(crate) fn queue_request(&mut self, text: &[u8]) -> Result<(), NoMemory>
        ensures ok { OnOk result
            (QueuesRequest text.now (view_of C.Link O.Link self.old) (view_of C.Link O.Link self.new)) }
        ensures err { OnErr result (view_of C.Link O.Link self.new ≡ view_of C.Link O.Link self.old) }
        ensures rises { RaisesUpload O.Link O.Upstream.own self.old self.new }
        ensures keeps { StepKeeps C.Link O.Link O.Upstream.own self.old self.new }
    {
        queue_if(&mut self.origin, text)
    }

    /// Queues an answer of the proxy's own for the client: all of it, or none where memory lacks.
    pub(crate) fn queue_own(&mut self, head: &[u8], body: &[u8]) -> Result<(), NoMemory>
        ensures ok { OnOk result
            (QueuesOwn head.now body.now (view_of C.Link O.Link self.old) (view_of C.Link O.Link self.new)) }
        ensures err { OnErr result (view_of C.Link O.Link self.new ≡ view_of C.Link O.Link self.old) }
        ensures rises { RaisesUpload O.Link O.Upstream.own self.old self.new }
        ensures keeps { StepKeeps C.Link O.Link O.Upstream.own self.old self.new }
    {
        let cuts = cuts_of(self.alloc, body)?;
        let text = joined(self.alloc, head, body)?;
        self.client.outbox.write(text.as_slice())?;
        self.sent = Sent {
            head: head.len() as u64,
            mode: Mode::Plain,
            cuts,
        };
        Ok(())
    }

    /// Gives back the memory of what was read and written on both sides, but of the bytes that wait there.
    pub(crate) fn give_back(&mut self)
        ensures { self.new ≡ self.old }
    {
        self.client.give_back();
        give_back_origin(&mut self.origin);
    }
}
