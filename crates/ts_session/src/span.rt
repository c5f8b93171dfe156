//! A link that shows one request of a client, and then its end.
ghost use Rattle.std.specs.Prelude.{◌≡◌, ◌+◌, ◌<◌, ◌≤◌, length, true, IfOk};
ghost use Rattle.ts_link.specs.Counts.{one_more};
ghost use Rattle.ts_link.specs.Link.{Reads, Writes};
ghost use Rattle.ts_link.specs.LinkAnswers.{writes_after};
ghost use Rattle.ts_session.specs.Course.{IsSound, SpanGoes, before_client, is_dropped, may_go_on, span_look};
ghost use Rattle.ts_session.specs.Course.{span_on, span_same, span_still, waiting};
ghost use Rattle.ts_session.specs.Limits.{most_places};
ghost use Rattle.ts_session.specs.Reading.{IsUnread, PollsHeld, poll_again, poll_failed};
ghost use Rattle.ts_session.specs.Session.{DropsLine, EndsSpan, GoesBehind, IsNew, IsSession, MayContinue};
ghost use Rattle.ts_session.specs.Session.{PollsSpan};

use crate::course::{Course, MOST_PLACES, Polled};
use crate::reading::{poll_request, read_request};
use crate::request::{Reading, Request};
use crate::response::Response;
use crate::writing::{Rule, write_response};
use std::alloc::Global;
use std::marker::Model;
use std::snapshot::Snapshot;
use ts_link::{Got, Link, NoMemory, Put, Sourced};

/// A client's link that shows one request of its connection, the body included, and then the end. Of what is
/// written to it the client does not take the line `connection: close` where the connection may go on.
#[derive(Drop)]
pub struct Span<C: Sourced> {
    course: Course<C>,
}

impl<C: Sourced> Model for Span<C> {
    ghost use Rattle.ts_session.specs.declared.course.Course.{Course};
    ghost use Rattle.ts_session.specs.Course.{IsSound};

    ghost Value = { Course C };

    ghost view = { λ s. s.course };

    ghost invariant = { λ s. IsSound C.look C.tells s.course };
}

impl<C: Sourced + Drop> Span<C> {
    /// The span of a client's first request. It takes all the memory that it and the spans behind it ever
    /// need: the rooms of a head and of a trailer section, of 16,384 bytes each.
    pub fn make(alloc: Global, client: C) -> Result<Span<C>, NoMemory>
        ensures { IfOk result (λ s. IsNew C.look C.tells client s) }
    {
        client.known();
        let request = Request::make(alloc)?;
        let begun = Snapshot::of(&client);
        let cut = Snapshot::of(&client);
        let response = Response::new();
        let course = Course {
            client,
            begun,
            surplus: 0,
            cut,
            request,
            response,
            place: 1,
            reads: 0,
            writes: 0,
        };
        Ok(Span { course })
    }

    /// Looks for the request, of which nothing was given: reads the client once at most, where no byte of it
    /// is held. `Some` where one is held then, and `End` where nothing is left of it. It takes no memory.
    pub fn poll(&mut self) -> Polled
        requires unread { IsUnread self.old.request }
        ensures holds { PollsHeld C.tells result self.new.request (C.look self.new.client) }
        ensures shows { PollsSpan C.tells (span_look C.look C.tells self.old)
            (span_look C.look C.tells self.new) (poll_failed result) (poll_again result) }
        ensures unread { IsUnread self.new.request }
        ensures ends { EndsSpan result (span_look C.look C.tells self.new) }
        ensures goes { SpanGoes C.goes self.old self.new }
    {
        poll_course(&mut self.course)
    }

    /// The place of its request in the session, counted from 1.
    pub fn place(&self) -> u32
        ensures { result ≡ self.now.place }
    {
        self.course.place
    }

    /// Whether the connection may go on behind this request: its line `connection: close` was dropped.
    pub fn may_continue(&self) -> bool
        ensures dropped { result ≡ is_dropped self.now.response.sending }
        ensures rule { C.tells ≡ true → result ≡ true
            → MayContinue (span_look C.look C.tells self.now) self.now.place }
    {
        self.course.response.is_dropped()
    }

    /// The span of the next request, which begins where this one ended, in the same connection. It takes no
    /// memory.
    pub fn next(self) -> Span<C>
        requires { is_dropped self.response.sending ≡ true }
        ensures behind { C.tells ≡ true
            → GoesBehind (span_look C.look C.tells self) (span_look C.look C.tells result) }
        ensures client { result.client ≡ self.client }
        ensures since { before_client C.look result ≡ before_client C.look self }
        ensures place { result.place ≡ self.place + 1 }
        ensures within { result.place ≤ most_places }
        ensures unread { IsUnread result.request }
    {
        let Span { course } = self;
        Span {
            course: next_course(course),
        }
    }

    /// The client inside. It gave what came before the request, then the request, and took what came before
    /// the response, then the response without the line that was dropped. Where the head of a response was
    /// cut within a line that might have been dropped, it lacks the front of that line.
    pub fn into_client(self) -> C
        ensures client { result ≡ self.client }
        ensures since { (C.look result).before ≡ before_client C.look self }
        ensures session { C.tells ≡ true → IsSession (span_look C.look C.tells self)
            (is_dropped self.response.sending) (waiting self.response.sending) (C.look result) }
    {
        let Span { course } = self;
        let Course { client, .. } = course;
        client
    }
}

// Polls for the request.
fn poll_course<C: Sourced>(course: &mut Course<C>) -> Polled
    requires sound { IsSound C.look C.tells course.old }
    requires unread { IsUnread course.old.request }
    ensures holds { PollsHeld C.tells result course.new.request (C.look course.new.client) }
    ensures shows { PollsSpan C.tells (span_look C.look C.tells course.old)
        (span_look C.look C.tells course.new) (poll_failed result) (poll_again result) }
    ensures unread { IsUnread course.new.request }
    ensures ends { EndsSpan result (span_look C.look C.tells course.new) }
    ensures goes { SpanGoes C.goes course.old course.new }
    ensures sound { IsSound C.look C.tells course.new }
{
    poll_request(&mut course.client, &mut course.request)
}

// A count of calls with one more.
fn counted(calls: u64) -> u64
    ensures { result ≡ one_more calls }
{
    calls.saturating_add(1)
}

// Reads some of the request.
fn read_course<C: Sourced>(course: &mut Course<C>, into: &mut [u8]) -> Got
    requires room { 0 < length into.old }
    requires sound { IsSound C.look C.tells course.old }
    ensures reads { Reads C.tells (span_look C.look C.tells course.old)
        (span_look C.look C.tells course.new) result into.new }
    ensures goes { SpanGoes C.goes course.old course.new }
    ensures sound { IsSound C.look C.tells course.new }
{
    let reads = counted(course.reads);
    let got = read_request(&mut course.client, &mut course.request, into);
    course.reads = reads;
    got
}

// Whether the line `connection: close` may be dropped, if its head tells where the response ends: the request
// was given whole, its client lets the connection go on, and the session may carry more requests.
fn may_go_on(request: &Request, place: u32) -> bool
    ensures { result ≡ may_go_on request.now place }
{
    match request.reading {
        Reading::Known(0) => request.persists && place < MOST_PLACES,
        _ => false,
    }
}

// The number of writes behind one with this answer.
fn writes_after(put: Put, writes: u64) -> u64
    ensures { result ≡ writes_after put writes }
{
    match put {
        Put::NoMemory => writes,
        _ => counted(writes),
    }
}

// Writes some of the response.
fn write_course<C: Sourced>(course: &mut Course<C>, piece: &[u8]) -> Put
    requires some { 0 < length piece.now }
    requires sound { IsSound C.look C.tells course.old }
    ensures writes { Writes C.tells (span_look C.look C.tells course.old)
        (span_look C.look C.tells course.new) result piece.now }
    ensures line { C.tells ≡ true → DropsLine (span_look C.look C.tells course.old) course.old.place
        course.old.response.sending course.new.response.sending result piece.now }
    ensures goes { SpanGoes C.goes course.old course.new }
    ensures sound { IsSound C.look C.tells course.new }
{
    let rule = Rule {
        may_go_on: may_go_on(&course.request, course.place),
        asks_head: course.request.asks_head,
    };
    let put = write_response(
        &mut course.client,
        &mut course.response,
        &mut course.cut,
        rule,
        piece,
    );
    course.client.known();
    let writes = writes_after(put, course.writes);
    course.writes = writes;
    put
}

// The course of the next request.
fn next_course<C: Sourced>(course: Course<C>) -> Course<C>
    requires sound { IsSound C.look C.tells course }
    requires dropped { is_dropped course.response.sending ≡ true }
    ensures behind { C.tells ≡ true
        → GoesBehind (span_look C.look C.tells course) (span_look C.look C.tells result) }
    ensures client { result.client ≡ course.client }
    ensures since { before_client C.look result ≡ before_client C.look course }
    ensures place { (result.place ≡ course.place + 1) × (result.place ≤ most_places) }
    ensures unread { IsUnread result.request }
    ensures sound { IsSound C.look C.tells result }
{
    let Course {
        client,
        request: Request { held, chunks, .. },
        place,
        ..
    } = course;
    let begun = Snapshot::of(&client);
    let cut = Snapshot::of(&client);
    let surplus = held.len();
    let request = Request::behind(held, chunks);
    let response = Response::new();
    Course {
        client,
        begun,
        surplus,
        cut,
        request,
        response,
        place: place + 1,
        reads: 0,
        writes: 0,
    }
}

impl<C: Sourced> Link for Span<C> {
    ghost tells = { C.tells };

    ghost look = { span_look C.look C.tells };

    ghost goes = { SpanGoes C.goes };

    ghost still = { SpanGoes C.still };

    fn read(&mut self, into: &mut [u8]) -> Got {
        read_course(&mut self.course, into)
    }

    fn write(&mut self, piece: &[u8]) -> Put
        requires { 0 < length piece.now }
        ensures writes { Writes C.tells (span_look C.look C.tells self.old)
            (span_look C.look C.tells self.new) result piece.now }
        ensures goes { SpanGoes C.goes self.old self.new }
        ensures line { C.tells ≡ true → DropsLine (span_look C.look C.tells self.old) self.old.place
            self.old.response.sending self.new.response.sending result piece.now }
    {
        write_course(&mut self.course, piece)
    }

    fn faults(&self) -> u64 {
        self.course.client.faults()
    }

    ghost stays = { λ s. span_same C.goes C.stays s };

    ghost goes_on = { λ s t u g h. span_on C.goes C.goes_on s t u g h };

    ghost goes_still = { λ s t g. span_still C.goes C.still C.goes_still s t g };

    ghost still_on = { λ s t u g h. span_on C.still C.still_on s t u g h };
}

impl<C: Sourced> Sourced for Span<C> {
    fn known(&self) {
        let _ = &self.course;
    }
}
