//! How a span reads its client: up to where the request ends, and no further than one read behind it.
ghost use Rattle.std.specs.Prelude.{◌≡◌, ◌<◌, Bool, [], false, length, min};
ghost use Rattle.ts_link.specs.Link.{Look};
ghost use Rattle.ts_link.specs.LinkAnswers.{count_got};
ghost use Rattle.ts_session.specs.Course.{HoldsHead, is_head};
ghost use Rattle.ts_session.specs.Held.{GivesPart, ReadsFront};
ghost use Rattle.ts_session.specs.Reading.{HasHead, IsSought, IsUnread, MovesOn, Polls, SeeksOn, Shows};
ghost use Rattle.ts_session.specs.Reading.{sought_again, sought_failed};
ghost use Rattle.ts_session.specs.declared.request.Reading.{Reading};

use crate::course::Polled;
use crate::held::Held;
use crate::request::{Reading, Request};
use ts_link::{Got, Sourced};

// What came of reading the client for a head.
#[derive(Clone, Copy)]
pub(crate) enum Sought {
    // It is read on, or it is known where the request ends.
    On,
    Again,
    Failed,
}

// Reads the client once for the head.
fn seek_once<C: Sourced>(client: &mut C, request: &mut Request) -> Sought
    requires head { request.old.reading ≡ Reading.Head }
    requires room { HoldsHead request.old.reading request.old.held }
    ensures moves { MovesOn C.tells request.old request.new (C.look client.old) (C.look client.new)
        (sought_failed result) (sought_again result) [] }
    ensures room { HoldsHead request.new.reading request.new.held }
    ensures on { SeeksOn request.old request.new result }
    ensures goes { C.goes client.old client.new }
{
    match request.held.fill(client) {
        Got::Bytes(count) => {
            request.decide(count);
            Sought::On
        }
        Got::End => {
            request.reading = Reading::Open;
            Sought::On
        }
        Got::Again => Sought::Again,
        Got::Failed => Sought::Failed,
    }
}

// Reads the client until a head is found, or it is known that none comes, or the client fails or makes its
// caller wait.
fn seek_head<C: Sourced>(client: &mut C, request: &mut Request) -> Sought
    requires { HoldsHead request.old.reading request.old.held }
    ensures moves { MovesOn C.tells request.old request.new (C.look client.old) (C.look client.new)
        (sought_failed result) (sought_again result) [] }
    ensures room { HoldsHead request.new.reading request.new.held }
    ensures known { HasHead request.new result }
    ensures goes { C.goes client.old client.new }
{
    'head: while request.is_head() {
        match seek_once(client, request) {
            Sought::On => {}
            Sought::Again => return Sought::Again,
            Sought::Failed => return Sought::Failed,
        }
    }
    Sought::On
}

// Reads the client once for more of a body in chunks, where none of it is held.
fn seek_chunks<C: Sourced>(client: &mut C, request: &mut Request) -> Sought
    requires { request.old.reading ≡ Reading.Chunks }
    ensures moves { MovesOn C.tells request.old request.new (C.look client.old) (C.look client.new)
        (sought_failed result) (sought_again result) [] }
    ensures known { IsSought request.new result }
    ensures goes { C.goes client.old client.new }
{
    if !request.held.is_empty() {
        return Sought::On;
    }
    match request.held.fill(client) {
        Got::Bytes(count) => {
            request.follow(count);
            Sought::On
        }
        Got::End => {
            request.reading = Reading::Open;
            Sought::On
        }
        Got::Again => Sought::Again,
        Got::Failed => Sought::Failed,
    }
}

// Reads the client for more of a body, where its end is looked for.
fn seek_body<C: Sourced>(client: &mut C, request: &mut Request) -> Sought
    requires { is_head request.old.reading ≡ false }
    ensures moves { MovesOn C.tells request.old request.new (C.look client.old) (C.look client.new)
        (sought_failed result) (sought_again result) [] }
    ensures known { IsSought request.new result }
    ensures goes { C.goes client.old client.new }
{
    match request.reading {
        Reading::Head => unreachable!(),
        Reading::Known(_) => Sought::On,
        Reading::Chunks => seek_chunks(client, request),
        Reading::Open => Sought::On,
    }
}

// Reads the client until some of the request may be given, or the client fails or makes its caller wait.
fn seek<C: Sourced>(client: &mut C, request: &mut Request) -> Sought
    requires { HoldsHead request.old.reading request.old.held }
    ensures moves { MovesOn C.tells request.old request.new (C.look client.old) (C.look client.new)
        (sought_failed result) (sought_again result) [] }
    ensures known { IsSought request.new result }
    ensures goes { C.goes client.old client.new }
{
    match seek_head(client, request) {
        Sought::On => seek_body(client, request),
        Sought::Again => Sought::Again,
        Sought::Failed => Sought::Failed,
    }
}

// How many of so many bytes may be read.
fn most_of(len: usize, most: u64) -> usize
    ensures { result ≡ min len most }
{
    if most < len as u64 {
        most as usize
    } else {
        len
    }
}

// Reads the client into the front of the room, `most` bytes at most.
fn read_front<C: Sourced>(client: &mut C, into: &mut [u8], most: u64) -> Got
    requires room { 0 < length into.old }
    requires some { 0 < most }
    ensures reads { ReadsFront C.tells most into.old into.new (C.look client.old) (C.look client.new) result }
    ensures goes { C.goes client.old client.new }
{
    let count = most_of(into.len(), most);
    let got = client.read(&mut into[..count]);
    client.known();
    got
}

// Gives some of what is held, or else of what the client gives, `most` bytes at most.
fn give_some<C: Sourced>(client: &mut C, held: &mut Held, most: u64, into: &mut [u8]) -> Got
    requires room { 0 < length into.old }
    requires some { 0 < most }
    ensures gives { GivesPart C.tells held.old held.new (C.look client.old) (C.look client.new)
        result most into.new }
    ensures goes { C.goes client.old client.new }
{
    let count = held.give(into, most);
    if count > 0 {
        return Got::Bytes(count);
    }
    read_front(client, into, most)
}

// How many bytes a read put in place.
fn count_of(got: Got) -> u64
    ensures { result ≡ count_got got }
{
    match got {
        Got::Bytes(count) => count as u64,
        _ => 0,
    }
}

// Gives some of a request of which so many bytes are still to be given.
fn give_known<C: Sourced>(client: &mut C, request: &mut Request, left: u64, into: &mut [u8]) -> Got
    requires room { 0 < length into.old }
    requires known { request.old.reading ≡ Reading.Known left }
    ensures shows { Shows C.tells request.old request.new (C.look client.old) (C.look client.new)
        result into.new }
    ensures goes { C.goes client.old client.new }
{
    if left == 0 {
        return Got::End;
    }
    let got = give_some(client, &mut request.held, left, into);
    request.reading = Reading::Known(left - count_of(got));
    got
}

// Gives some of what is held of a request whose body comes in chunks.
fn give_held(request: &mut Request, into: &mut [u8]) -> Got
    requires room { 0 < length into.old }
    requires chunks { request.old.reading ≡ Reading.Chunks }
    requires some { 0 < length request.old.held }
    ensures { (tells : Bool) (l : Look) → Shows tells request.old request.new l l result into.new }
{
    Got::Bytes(request.held.give(into, u64::MAX))
}

// Gives some of a request to which all belongs that the client gives.
fn give_open<C: Sourced>(client: &mut C, request: &mut Request, into: &mut [u8]) -> Got
    requires room { 0 < length into.old }
    requires open_end { request.old.reading ≡ Reading.Open }
    ensures shows { Shows C.tells request.old request.new (C.look client.old) (C.look client.new)
        result into.new }
    ensures goes { C.goes client.old client.new }
{
    give_some(client, &mut request.held, u64::MAX, into)
}

// One read of the request.
pub(crate) fn read_request<C: Sourced>(
    client: &mut C,
    request: &mut Request,
    into: &mut [u8],
) -> Got
    requires room { 0 < length into.old }
    requires head { HoldsHead request.old.reading request.old.held }
    ensures shows { Shows C.tells request.old request.new (C.look client.old) (C.look client.new)
        result into.new }
    ensures goes { C.goes client.old client.new }
{
    match seek(client, request) {
        Sought::On => match request.reading {
            Reading::Head => unreachable!(),
            Reading::Known(left) => give_known(client, request, left, into),
            Reading::Chunks => give_held(request, into),
            Reading::Open => give_open(client, request, into),
        },
        Sought::Again => Got::Again,
        Sought::Failed => Got::Failed,
    }
}

// One poll of the client for the request, of which nothing was given.
pub(crate) fn poll_request<C: Sourced>(client: &mut C, request: &mut Request) -> Polled
    requires head { HoldsHead request.old.reading request.old.held }
    requires unread { IsUnread request.old }
    ensures polls { Polls C.tells request.old request.new (C.look client.old) (C.look client.new) result }
    ensures goes { C.goes client.old client.new }
{
    if !request.held.is_empty() {
        return Polled::Some;
    }
    match request.held.fill(client) {
        Got::Bytes(count) => {
            request.decide(count);
            Polled::Some
        }
        Got::End => Polled::End,
        Got::Again => Polled::Again,
        Got::Failed => Polled::Failed,
    }
}
