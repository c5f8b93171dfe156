//! The response that is written to a span.
ghost use Rattle.std.specs.Prelude.{◌≡◌, ◌<◌, false, length, take};
ghost use Rattle.ts_session.specs.Course.{fresh_response, is_dropped, stage_by};
ghost use Rattle.ts_session.specs.Kept.{close_line};
ghost use Rattle.ts_session.specs.Lines.{GoesOver};
ghost use Rattle.ts_session.specs.declared.response.Sending.{Sending};

use crate::lines::{CLOSE_LINE, Lines};

/// How far a response is.
#[derive(Clone, Copy)]
pub enum Sending {
    /// Its head is written.
    Head,
    /// So many bytes of a line `connection: close` that may be dropped were written, and are held.
    Line(usize),
    /// What was held is of another line: the bytes of `connection: close` from one place to another are owed
    /// to the client.
    Owed { from: usize, to: usize },
    /// Its line `connection: close` was dropped.
    Dropped,
    /// All that is written is passed on.
    Passing,
}

/// A response, as far as it was written.
#[derive(Clone, Copy)]
pub struct Response {
    pub(crate) sending: Sending,
    pub(crate) lines: Lines,
}

impl Response {
    // Nothing of it was written.
    pub(crate) fn new() -> Response
        ensures { result ≡ fresh_response }
    {
        Response {
            sending: Sending::Head,
            lines: Lines::new(),
        }
    }

    // These bytes of its head were written.
    pub(crate) fn pass_over(&mut self, bytes: &[u8])
        requires { self.old.sending ≡ Sending.Head }
        ensures over { GoesOver self.old.lines bytes.now self.new.lines }
        ensures stage { self.new.sending ≡ stage_by self.new.lines.ended }
    {
        self.lines = self.lines.over(bytes);
        if self.lines.ended {
            self.sending = Sending::Passing;
        }
    }

    // What is held of the line `connection: close` is of another one.
    pub(crate) fn owe(&mut self, count: usize)
        requires { count < length close_line }
        ensures over { GoesOver self.old.lines (take count close_line) self.new.lines }
        ensures owed { self.new.sending ≡ Sending.Owed 0 count }
    {
        self.lines = self.lines.over(CLOSE_LINE.split_at(count).0);
        self.sending = Sending::Owed { from: 0, to: count };
    }

    pub(crate) fn is_dropped(self) -> bool
        ensures { result ≡ is_dropped self.sending }
    {
        matches!(self.sending, Sending::Dropped)
    }
}
