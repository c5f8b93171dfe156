//! The lines of a response's head as they are written, however they are cut.
ghost use Rattle.std.specs.Prelude.{◌≡◌, ◌≢◌, ◌∷◌, ◌+◌, ◌++◌, ◌||◌, ◌&&◌, ◌<◌, ◌≤◌, ℕ, List, [], drop, false};
ghost use Rattle.std.specs.Prelude.{true, length, min};
ghost use Rattle.ts_session.specs.Kept.{close_line};
ghost use Rattle.ts_link.specs.Texts.{line_feed};
ghost use Rattle.ts_session.specs.Lines.{GoesOver, IsFront, PassesNoLine, agrees, front_bodiless, front_last};
ghost use Rattle.ts_session.specs.Lines.{front_tells, may_drop_at, new_front, new_lines};

/// How many bytes at the front of a line are looked at.
pub const LINE_FRONT: usize = 28;

const NO_CONTENT: &[u8] = b"HTTP/1.1 204";

const NOT_MODIFIED: &[u8] = b"HTTP/1.1 304";

const SIZED: &[u8] = b"content-length:";

const CHUNKED: &[u8] = b"transfer-encoding: chunked\r";

/// The line that says that the connection closes behind this answer.
pub(crate) const CLOSE_LINE: &[u8] = b"connection: close\r\n";

const EMPTY_LINE: &[u8] = b"\r\n";

/// A line that was begun: how many of its bytes were written, up to as many as are looked at, and which lines
/// it may still become.
#[derive(Clone, Copy)]
pub struct LineFront {
    pub at: usize,
    pub no_content: bool,
    pub not_modified: bool,
    pub sized: bool,
    pub chunked: bool,
    pub closes: bool,
    pub empty: bool,
}

/// The lines of a head that were written.
#[derive(Clone, Copy)]
pub struct Lines {
    // The line that was begun.
    pub front: LineFront,
    // Whether that is the status line.
    pub first: bool,
    // Whether a line told where the response ends.
    pub told: bool,
    // Whether the head has ended, or had its `connection: close`.
    pub ended: bool,
}

// Whether a line that goes with a text so far still does with one byte more behind its first `at`.
fn goes_on(so_far: bool, text: &[u8], at: usize, b: u8) -> bool
    requires { length text.now ≤ LINE_FRONT }
    ensures { (line : List ℕ) → at ≡ min (length line) LINE_FRONT → so_far ≡ agrees text.now line
        → result ≡ agrees text.now (line ++ b ∷ []) }
{
    if !so_far {
        return false;
    }
    if at >= text.len() {
        return true;
    }
    text[at] == b
}

fn is_either(a: bool, b: bool) -> bool
    ensures { result ≡ a || b }
{
    a || b
}

// Whether the bytes go with the text: one of them begins with the other.
pub(crate) fn goes_with(text: &[u8], bytes: &[u8]) -> bool
    ensures { result ≡ agrees text.now bytes.now }
{
    is_either(bytes.starts_with(text), text.starts_with(bytes))
}

// How many bytes of a line are counted with one more.
fn one_more(at: usize) -> usize
    ensures { (n : ℕ) → at ≡ min n LINE_FRONT → result ≡ min (n + 1) LINE_FRONT }
{
    if at < LINE_FRONT { at + 1 } else { LINE_FRONT }
}

impl LineFront {
    // Nothing of the line was written.
    pub(crate) fn new() -> LineFront
        ensures { result ≡ new_front }
    {
        LineFront {
            at: 0,
            no_content: true,
            not_modified: true,
            sized: true,
            chunked: true,
            closes: true,
            empty: true,
        }
    }

    // One byte more of it was written.
    fn go_on(self, b: u8) -> LineFront
        ensures { (line : List ℕ) → IsFront line self → IsFront (line ++ b ∷ []) result }
    {
        LineFront {
            at: one_more(self.at),
            no_content: goes_on(self.no_content, NO_CONTENT, self.at, b),
            not_modified: goes_on(self.not_modified, NOT_MODIFIED, self.at, b),
            sized: goes_on(self.sized, SIZED, self.at, b),
            chunked: goes_on(self.chunked, CHUNKED, self.at, b),
            closes: goes_on(self.closes, CLOSE_LINE, self.at, b),
            empty: goes_on(self.empty, EMPTY_LINE, self.at, b),
        }
    }

    // Whether it is, up to its line feed, the status line of a response that has no body.
    fn is_bodiless(self) -> bool
        ensures { result ≡ front_bodiless self }
    {
        self.at >= NO_CONTENT.len() && (self.no_content || self.not_modified)
    }

    // Whether it tells where the body ends.
    fn tells_end(self) -> bool
        ensures { result ≡ front_tells self }
    {
        self.at >= SIZED.len() && self.sized || self.at == CHUNKED.len() && self.chunked
    }

    // Whether it is `connection: close`, or ends the head.
    fn is_last(self) -> bool
        ensures { result ≡ front_last self }
    {
        self.closes && self.at == CLOSE_LINE.len() - 1
            || self.empty && self.at == EMPTY_LINE.len() - 1
    }
}

impl Lines {
    // Nothing of the head was written.
    pub(crate) fn new() -> Lines
        ensures { result ≡ new_lines }
    {
        Lines {
            front: LineFront::new(),
            first: true,
            told: false,
            ended: false,
        }
    }

    // Whether a line may begin here that is dropped: the head has not ended, and its lines told where the
    // response ends, or it has only a head.
    pub(crate) fn may_drop(self, asks_head: bool) -> bool
        ensures { result ≡ may_drop_at self asks_head }
    {
        self.front.at == 0 && !self.first && !self.ended && (self.told || asks_head)
    }

    // The line feed of the line that was begun.
    fn end_line(self) -> Lines
        requires { self.ended ≡ false }
        ensures { GoesOver self (line_feed ∷ []) result }
    {
        let front = LineFront::new();
        if self.first {
            return Lines {
                front,
                first: false,
                told: self.front.is_bodiless(),
                ended: false,
            };
        }
        Lines {
            front,
            first: false,
            told: is_either(self.told, self.front.tells_end()),
            ended: self.front.is_last(),
        }
    }

    // A byte of the line that was begun.
    fn go_on(self, b: u8) -> Lines
        requires going { self.ended ≡ false }
        requires other { b ≢ line_feed }
        ensures { GoesOver self (b ∷ []) result }
    {
        Lines {
            front: self.front.go_on(b),
            ..self
        }
    }

    // One byte more was written.
    fn step(self, b: u8) -> Lines
        ensures { GoesOver self (b ∷ []) result }
    {
        if self.ended {
            return self;
        }
        if b == b'\n' {
            self.end_line()
        } else {
            self.go_on(b)
        }
    }

    // These bytes were written.
    pub(crate) fn over(self, bytes: &[u8]) -> Lines
        ensures { GoesOver self bytes.now result }
    {
        let mut lines = self;
        for b in bytes {
            if lines.ended {
                return lines;
            }
            lines = lines.step(*b);
        }
        lines
    }

    // Whether a line that may be dropped begins here, and the bytes have it or a front of it.
    pub(crate) fn finds(self, bytes: &[u8], asks_head: bool) -> bool
        ensures { result ≡ may_drop_at self asks_head && agrees close_line bytes.now }
    {
        self.may_drop(asks_head) && goes_with(CLOSE_LINE, bytes)
    }

    // Whether such a line begins at this place of the bytes, which is not their first.
    fn finds_at(self, bytes: &[u8], at: usize, asks_head: bool) -> bool
        requires { at ≤ length bytes.now }
        ensures some { result ≡ true → 0 < at }
        ensures none { result ≡ false → 0 < at
            → may_drop_at self asks_head && agrees close_line (drop at bytes.now) ≡ false }
    {
        at > 0 && self.finds(bytes.split_at(at).1, asks_head)
    }

    // How many of the bytes are written before a line that may be dropped, or a front of it: all of them,
    // where there is none.
    pub(crate) fn passing(self, bytes: &[u8], asks_head: bool) -> usize
        requires { 0 < length bytes.now }
        ensures some { 0 < result }
        ensures within { result ≤ length bytes.now }
        ensures no_line { PassesNoLine asks_head self bytes.now result }
    {
        let mut lines = self;
        let mut at = 0;
        'bytes: while at < bytes.len() {
            if lines.finds_at(bytes, at, asks_head) {
                return at;
            }
            if lines.ended {
                return bytes.len();
            }
            lines = lines.step(bytes[at]);
            at += 1;
        }
        at
    }
}
