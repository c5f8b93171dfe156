//! Uploads of a link that chooses.
ghost use Rattle.std.specs.Prelude.{◌≡◌, ◌+◌, ◌<◌, ◌≤◌, ◌||◌, length, is_some, true};
ghost use Rattle.ts_link.specs.Link.{Writes};
ghost use Rattle.ts_link.specs.LinkAnswers.{count_put};
ghost use Rattle.ts_intercept.specs.Moving.{Both};
ghost use Rattle.ts_intercept.specs.Seen.{inside, unsent};
ghost use Rattle.ts_intercept.specs.Standing.{HoldsNothing, IsSound};
ghost use Rattle.ts_intercept.specs.Uploading.{HasNoUpload, Pairs, UploadsAs, is_done, sending};

use crate::choice::{Choice, Stage};
use ts_link::{Link, Put};
use ts_upstream::{Uploaded, Upstream};

// What an upload answers that made one write.
fn sending(put: Put) -> Uploaded
    ensures { result ≡ sending put }
{
    match put {
        Put::Took(_) => Uploaded::More,
        Put::Again => Uploaded::Again,
        Put::Failed => Uploaded::OriginFailed,
        Put::NoMemory => Uploaded::NoMemory,
    }
}

// Whether it is done now or was before.
fn is_done(answer: Uploaded, before: bool) -> bool
    ensures { result ≡ (is_done answer || before) }
{
    matches!(answer, Uploaded::Done) || before
}

// Makes one write of what is held for the origin.
fn send_held<O: Link>(choice: &mut Choice<O>) -> Put
    requires origin { is_some choice.old.origin ≡ true }
    requires some { choice.old.sent < length choice.old.held.items }
    ensures writes { Writes O.tells (inside O.look choice.old.origin) (inside O.look choice.new.origin) result
        (unsent choice.old) }
    ensures goes { Both O.goes choice.old.origin choice.new.origin }
    ensures rest { choice.new ≡ record choice.old {
      origin = choice.new.origin;
      sent = choice.old.sent + count_put result;
    } }
    ensures within { choice.new.sent ≤ length choice.old.held.items }
{
    let Some(origin) = &mut choice.origin else {
        unreachable!()
    };
    let rest = choice.held.as_slice().split_at(choice.sent).1;
    let put = origin.write(rest);
    if let Put::Took(count) = put {
        choice.sent += count;
    }
    put
}

// An upload where the origin is not handed on to: there is none.
fn upload_nothing<C: Link, O: Upstream<C>>(choice: &mut Choice<O>, _client: &mut C) -> Uploaded
    requires nothing { HasNoUpload choice.old.stage choice.old.origin }
    requires paired { Pairs O.paired O.refuses _client.old choice.old }
    requires sound { IsSound O.tells O.look choice.old }
    ensures uploads { UploadsAs C.Link O.Link O.Upstream.own
        _client.old choice.old _client.new choice.new result }
    ensures sound { IsSound O.tells O.look choice.new }
{
    choice.uploaded = true;
    Uploaded::Done
}

// An upload that sends some of what is held.
fn upload_held<C: Link, O: Upstream<C>>(choice: &mut Choice<O>, _client: &mut C) -> Uploaded
    requires stage { choice.old.stage ≡ Stage.HandedOn }
    requires origin { is_some choice.old.origin ≡ true }
    requires some { choice.old.sent < length choice.old.held.items }
    requires paired { Pairs O.paired O.refuses _client.old choice.old }
    requires sound { IsSound O.tells O.look choice.old }
    ensures uploads { UploadsAs C.Link O.Link O.Upstream.own
        _client.old choice.old _client.new choice.new result }
    ensures sound { IsSound O.tells O.look choice.new }
{
    sending(send_held(choice))
}

// An upload of the origin's own.
fn upload_on<C: Link, O: Upstream<C>>(choice: &mut Choice<O>, client: &mut C) -> Uploaded
    requires stage { choice.old.stage ≡ Stage.HandedOn }
    requires nothing { HoldsNothing choice.old }
    requires paired { Pairs O.paired O.refuses client.old choice.old }
    requires sound { IsSound O.tells O.look choice.old }
    ensures uploads { UploadsAs C.Link O.Link O.Upstream.own
        client.old choice.old client.new choice.new result }
    ensures sound { IsSound O.tells O.look choice.new }
{
    let Some(origin) = &mut choice.origin else {
        unreachable!()
    };
    let answer = origin.upload(client);
    choice.uploaded = is_done(answer, choice.uploaded);
    answer
}

// An upload to the origin, of what is held for it first.
fn upload_handed<C: Link, O: Upstream<C>>(choice: &mut Choice<O>, client: &mut C) -> Uploaded
    requires stage { choice.old.stage ≡ Stage.HandedOn }
    requires paired { Pairs O.paired O.refuses client.old choice.old }
    requires sound { IsSound O.tells O.look choice.old }
    ensures uploads { UploadsAs C.Link O.Link O.Upstream.own
        client.old choice.old client.new choice.new result }
    ensures sound { IsSound O.tells O.look choice.new }
{
    if choice.origin.is_none() {
        return upload_nothing(choice, client);
    }
    if choice.sent < choice.held.len() {
        return upload_held(choice, client);
    }
    upload_on(choice, client)
}

/// Moves some of the upload.
pub(crate) fn upload_choice<C: Link, O: Upstream<C>>(
    choice: &mut Choice<O>,
    client: &mut C,
) -> Uploaded
    requires paired { Pairs O.paired O.refuses client.old choice.old }
    requires sound { IsSound O.tells O.look choice.old }
    ensures uploads { UploadsAs C.Link O.Link O.Upstream.own
        client.old choice.old client.new choice.new result }
    ensures sound { IsSound O.tells O.look choice.new }
{
    match &choice.stage {
        Stage::Undecided => upload_nothing(choice, client),
        Stage::HandedOn => upload_handed(choice, client),
        Stage::Served { .. } => upload_nothing(choice, client),
    }
}
