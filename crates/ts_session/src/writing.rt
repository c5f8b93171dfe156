//! How a span writes to its client, and drops the line `connection: close` where the connection may go on.
ghost use Rattle.std.specs.Prelude.{◌≡◌, ◌<◌, ◌≤◌, Bool, drop, false, length, true};
ghost use Rattle.ts_session.specs.Course.{IsRest, IsWithin, has_found};
ghost use Rattle.ts_session.specs.Kept.{close_line};
ghost use Rattle.ts_session.specs.Lines.{agrees, may_drop_at};
ghost use Rattle.ts_session.specs.Writing.{DropsOn, HoldsMore, PaysLine, PaysTo, WritesOn, paid_again};
ghost use Rattle.ts_session.specs.Writing.{paid_failed, paid_to};
ghost use Rattle.ts_session.specs.declared.response.Sending.{Sending};

use crate::lines::{CLOSE_LINE, goes_with};
use crate::response::{Response, Sending};
use std::snapshot::Snapshot;
use ts_link::{Link, Put};

// What is known of the request that the response answers: whether the connection may go on behind it, and
// whether it asks for the head of an answer alone.
#[derive(Clone, Copy)]
pub(crate) struct Rule {
    pub may_go_on: bool,
    pub asks_head: bool,
}

// Writes a front of the piece, which has no line that is dropped.
fn write_lines<C: Link>(
    client: &mut C,
    response: &mut Response,
    cut: &Snapshot<C>,
    piece: &[u8],
) -> Put
    requires some { 0 < length piece.now }
    requires head { response.old.sending ≡ Sending.Head }
    ensures writes { (may asks : Bool) → WritesOn C.tells may asks response.old response.new
        (C.look cut.now.value) (C.look cut.now.value) (C.look client.old) (C.look client.new)
        result piece.now }
    ensures within { IsWithin response.new.sending }
    ensures goes { C.goes client.old client.new }
{
    match client.write(piece) {
        Put::Took(count) => {
            response.pass_over(piece.split_at(count).0);
            Put::Took(count)
        }
        Put::Again => Put::Again,
        Put::Failed => Put::Failed,
        Put::NoMemory => Put::NoMemory,
    }
}

// Holds what the piece has of the line, of which so many bytes are held. Where it has all of it, the line is
// dropped.
fn hold_line<C: Link>(
    client: &C,
    response: &mut Response,
    cut: &mut Snapshot<C>,
    count: usize,
    piece: &[u8],
) -> Put
    requires some { 0 < length piece.now }
    requires within { count < length close_line }
    requires agrees { agrees (drop count close_line) piece.now ≡ true }
    ensures holds { HoldsMore count response.new.sending result piece.now }
    ensures lines { response.new.lines ≡ response.old.lines }
    ensures cut { cut.new.value ≡ client.now }
{
    *cut = Snapshot::of(client);
    let rest = CLOSE_LINE.len() - count;
    if piece.len() < rest {
        response.sending = Sending::Line(count + piece.len());
        return Put::Took(piece.len());
    }
    response.sending = Sending::Dropped;
    Put::Took(rest)
}

// Writes some of a response whose head is written.
fn write_head<C: Link>(
    client: &mut C,
    response: &mut Response,
    cut: &mut Snapshot<C>,
    rule: Rule,
    piece: &[u8],
) -> Put
    requires some { 0 < length piece.now }
    requires head { response.old.sending ≡ Sending.Head }
    ensures writes { WritesOn C.tells rule.may_go_on rule.asks_head response.old response.new
        (C.look cut.old.value) (C.look cut.new.value) (C.look client.old) (C.look client.new)
        result piece.now }
    ensures drops { DropsOn C.tells rule.may_go_on rule.asks_head response.old response.new
        (C.look cut.old.value) (C.look client.old) result piece.now }
    ensures within { IsWithin response.new.sending }
    ensures goes { C.goes client.old client.new }
{
    if !rule.may_go_on {
        return write_lines(client, response, cut, piece);
    }
    if response.lines.finds(piece, rule.asks_head) {
        return hold_line(client, response, cut, 0, piece);
    }
    let (front, _) = piece.split_at(response.lines.passing(piece, rule.asks_head));
    write_lines(client, response, cut, front)
}

// Writes some of a response that is passed on.
fn write_rest<C: Link>(client: &mut C, response: &Response, cut: &Snapshot<C>, piece: &[u8]) -> Put
    requires some { 0 < length piece.now }
    requires rest { IsRest response.now.sending }
    ensures writes { (may asks : Bool) → WritesOn C.tells may asks response.now response.now
        (C.look cut.now.value) (C.look cut.now.value) (C.look client.old) (C.look client.new)
        result piece.now }
    ensures goes { C.goes client.old client.new }
{
    client.write(piece)
}

// What came of passing on the bytes of the line from one place to another, by the place that was come to.
#[derive(Clone, Copy)]
pub(crate) enum Paid {
    // All are out.
    All,
    Again(usize),
    Failed(usize),
    NoMemory(usize),
}

// Passes on the bytes of the line from one place to another, which are owed.
fn pay_line<C: Link>(client: &mut C, from: usize, to: usize) -> Paid
    requires owed { from < to }
    requires within { to < length close_line }
    ensures pays { PaysLine C.tells from (paid_to to result) (C.look client.old) (C.look client.new)
        (paid_failed result) (paid_again result) }
    ensures to { PaysTo to result }
    ensures goes { C.goes client.old client.new }
{
    let mut at = from;
    'owed: while at < to {
        match client.write(&CLOSE_LINE[at..to]) {
            Put::Took(count) => at += count,
            Put::Again => return Paid::Again(at),
            Put::Failed => return Paid::Failed(at),
            Put::NoMemory => return Paid::NoMemory(at),
        }
    }
    Paid::All
}

// Passes on what is owed, and then writes some of the response.
fn write_owed<C: Link>(
    client: &mut C,
    response: &mut Response,
    cut: &mut Snapshot<C>,
    from: usize,
    to: usize,
    rule: Rule,
    piece: &[u8],
) -> Put
    requires some { 0 < length piece.now }
    requires owed { response.old.sending ≡ Sending.Owed from to }
    requires within { IsWithin response.old.sending }
    ensures writes { WritesOn C.tells rule.may_go_on rule.asks_head response.old response.new
        (C.look cut.old.value) (C.look cut.new.value) (C.look client.old) (C.look client.new)
        result piece.now }
    ensures drops { DropsOn C.tells rule.may_go_on rule.asks_head response.old response.new
        (C.look cut.old.value) (C.look client.old) result piece.now }
    ensures within { IsWithin response.new.sending }
    ensures goes { C.goes client.old client.new }
{
    match pay_line(client, from, to) {
        Paid::All => {
            response.sending = Sending::Head;
            write_head(client, response, cut, rule, piece)
        }
        Paid::Again(at) => {
            response.sending = Sending::Owed { from: at, to };
            Put::Again
        }
        Paid::Failed(at) => {
            response.sending = Sending::Owed { from: at, to };
            Put::Failed
        }
        Paid::NoMemory(at) => {
            response.sending = Sending::Owed { from: at, to };
            Put::NoMemory
        }
    }
}

// Writes some of a response of whose line so many bytes are held: more of the line, or else of another one.
fn write_line<C: Link>(
    client: &mut C,
    response: &mut Response,
    cut: &mut Snapshot<C>,
    count: usize,
    rule: Rule,
    piece: &[u8],
) -> Put
    requires some { 0 < length piece.now }
    requires line { response.old.sending ≡ Sending.Line count }
    requires within { IsWithin response.old.sending }
    ensures writes { WritesOn C.tells rule.may_go_on rule.asks_head response.old response.new
        (C.look cut.old.value) (C.look cut.new.value) (C.look client.old) (C.look client.new)
        result piece.now }
    ensures drops { DropsOn C.tells rule.may_go_on rule.asks_head response.old response.new
        (C.look cut.old.value) (C.look client.old) result piece.now }
    ensures within { IsWithin response.new.sending }
    ensures goes { C.goes client.old client.new }
{
    if goes_with(CLOSE_LINE.split_at(count).1, piece) {
        return hold_line(client, response, cut, count, piece);
    }
    response.owe(count);
    write_owed(client, response, cut, 0, count, rule, piece)
}

// One write of the response, whose line `connection: close` may be dropped.
pub(crate) fn write_response<C: Link>(
    client: &mut C,
    response: &mut Response,
    cut: &mut Snapshot<C>,
    rule: Rule,
    piece: &[u8],
) -> Put
    requires some { 0 < length piece.now }
    requires within { IsWithin response.old.sending }
    ensures writes { WritesOn C.tells rule.may_go_on rule.asks_head response.old response.new
        (C.look cut.old.value) (C.look cut.new.value) (C.look client.old) (C.look client.new)
        result piece.now }
    ensures drops { DropsOn C.tells rule.may_go_on rule.asks_head response.old response.new
        (C.look cut.old.value) (C.look client.old) result piece.now }
    ensures within { IsWithin response.new.sending }
    ensures goes { C.goes client.old client.new }
{
    match response.sending {
        Sending::Head => write_head(client, response, cut, rule, piece),
        Sending::Line(count) => write_line(client, response, cut, count, rule, piece),
        Sending::Owed { from, to } => write_owed(client, response, cut, from, to, rule, piece),
        Sending::Dropped => write_rest(client, response, cut, piece),
        Sending::Passing => write_rest(client, response, cut, piece),
    }
}
