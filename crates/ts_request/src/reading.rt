//! How a front reads its client: until its head is known, what is shown of it, and the body of an upload.
ghost use Rattle.std.specs.Prelude.{◌≡◌, ◌≢◌, ◌<◌, ◌≤◌, ◌+◌, ◌⊎◌, [], ℕ, length, true, false};
ghost use Rattle.ts_link.specs.LinkAnswers.{got_again, got_failed};
ghost use Rattle.ts_request.specs.Front.{Holds, Moves, ReadsBody, Shows};
ghost use Rattle.ts_request.specs.Seeking.{IsSought, SeeksOn, sought_again, sought_failed};
ghost use Rattle.ts_wire.specs.declared.framing.Framing.{Framing};

use crate::held::HeldText;
use crate::stage::Stage;
use ts_link::{Got, Link};

// What came of reading the client for a head.
#[derive(Clone, Copy)]
pub(crate) enum Sought {
    // It is read on, or it is known what is shown of it.
    On,
    Again,
    Failed,
}

// Reads the client once for the head.
fn seek_once<C: Link>(client: &mut C, text: &mut HeldText) -> Sought
    requires heading { text.old.stage ≡ Stage.Heading }
    requires holds { Holds C.tells text.old (C.look client.old) }
    ensures moves { Moves C.tells text.old text.new (C.look client.old) (C.look client.new)
        (sought_failed result) (sought_again result) [] }
    ensures holds { Holds C.tells text.new (C.look client.new) }
    ensures on { SeeksOn text.old text.new result }
    ensures goes { C.goes client.old client.new }
{
    match text.fill(client) {
        Got::Bytes(count) => {
            text.decide(count);
            Sought::On
        }
        Got::End => {
            text.pass();
            Sought::On
        }
        Got::Again => Sought::Again,
        Got::Failed => Sought::Failed,
    }
}

// Reads the client until it is known what is shown of it, or the client fails or makes its caller wait.
fn seek<C: Link>(client: &mut C, text: &mut HeldText) -> Sought
    requires { Holds C.tells text.old (C.look client.old) }
    ensures moves { Moves C.tells text.old text.new (C.look client.old) (C.look client.new)
        (sought_failed result) (sought_again result) [] }
    ensures holds { Holds C.tells text.new (C.look client.new) }
    ensures known { IsSought text.new.stage result }
    ensures goes { C.goes client.old client.new }
{
    'head: while text.is_heading() {
        match seek_once(client, text) {
            Sought::On => {}
            Sought::Again => return Sought::Again,
            Sought::Failed => return Sought::Failed,
        }
    }
    Sought::On
}

// Shows some of the client, of which it is known what is shown.
fn show<C: Link>(client: &mut C, text: &mut HeldText, into: &mut [u8]) -> Got
    requires room { 0 < length into.old }
    requires known { text.old.stage ≢ Stage.Heading }
    requires holds { Holds C.tells text.old (C.look client.old) }
    ensures shows { Shows C.tells text.old text.new (C.look client.old) (C.look client.new) result into.new }
    ensures holds { Holds C.tells text.new (C.look client.new) }
    ensures goes { C.goes client.old client.new }
{
    let count = text.give(into);
    if count > 0 {
        return Got::Bytes(count);
    }
    match text.stage() {
        Stage::Uploading(_) => Got::End,
        Stage::Passing => client.read(into),
        Stage::Heading => unreachable!(),
    }
}

// One read of the front.
pub(crate) fn read_front<C: Link>(client: &mut C, text: &mut HeldText, into: &mut [u8]) -> Got
    requires room { 0 < length into.old }
    requires holds { Holds C.tells text.old (C.look client.old) }
    ensures shows { Shows C.tells text.old text.new (C.look client.old) (C.look client.new) result into.new }
    ensures holds { Holds C.tells text.new (C.look client.new) }
    ensures goes { C.goes client.old client.new }
{
    match seek(client, text) {
        Sought::On => show(client, text, into),
        Sought::Again => Got::Again,
        Sought::Failed => Got::Failed,
    }
}

// One read of the body of an upload.
pub(crate) fn read_upload<C: Link>(client: &mut C, text: &mut HeldText, into: &mut [u8]) -> Got
    requires room { 0 < length into.old }
    requires uploading { (framing : Framing) × (text.old.stage ≡ Stage.Uploading framing) }
    requires holds { Holds C.tells text.old (C.look client.old) }
    ensures reads { ReadsBody C.tells text.old text.new (C.look client.old) (C.look client.new)
        result into.new }
    ensures holds { Holds C.tells text.new (C.look client.new) }
    ensures goes { C.goes client.old client.new }
{
    let count = text.hand_over(into);
    if count > 0 {
        return Got::Bytes(count);
    }
    client.read(into)
}
