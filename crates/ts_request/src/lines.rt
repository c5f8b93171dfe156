//! The lines of a request's head that are shown, put together in their room, and the empty lines ahead of it.
ghost use Rattle.std.specs.Prelude.{◌≡◌, ◌≤◌, ◌<◌, ◌+◌, ◌-◌, ◌++◌, true, length, get_or, min, take, drop};
ghost use Rattle.std.specs.Prelude.{slice_range};
ghost use Rattle.std.specs.List.{before_first, position_or_len};
ghost use Rattle.http_header.specs.Token.{lowercase};
ghost use Rattle.ts_request.specs.Lines.{AreBlank, is_colon, is_end_byte, is_line_feed, kept_line, kept_lines};
ghost use Rattle.ts_request.specs.Lines.{line_stays};
ghost use Rattle.ts_request.specs.Upload.{speaks_of_body};

fn is_colon(b: u8) -> bool
    ensures { result ≡ is_colon b }
{
    b == b':'
}

fn is_line_feed(b: u8) -> bool
    ensures { result ≡ is_line_feed b }
{
    b == b'\n'
}

fn is_end_byte(b: u8) -> bool
    ensures { result ≡ is_end_byte b }
{
    b == b'\r' || b == b'\n'
}

// Whether the byte at this place is of an empty line too, where all before it are. A CR behind a CR is not, since
// no line feed makes the two an empty line.
fn goes_on_blank(bytes: &[u8], at: usize) -> bool
    requires { at < length bytes.now }
    ensures { result ≡ true → is_end_byte (get_or bytes.now at 0) ≡ true }
{
    let doubled = at > 0 && bytes[at] == b'\r' && bytes[at - 1] == b'\r';
    is_end_byte(bytes[at]) && !doubled
}

// How many of the first `kept` bytes of the room are of empty lines, ahead of all others: the first `known`
// are. Only bytes behind these are looked at.
pub(crate) fn blank_len(room: &[u8], known: usize, kept: usize) -> usize
    requires known { known ≤ kept }
    requires fits { kept ≤ length room.now }
    requires blank { AreBlank (take known room.now) }
    ensures blank { AreBlank (take result room.now) }
    ensures within { result ≤ kept }
{
    let mut len = known;
    'blank: while len < kept {
        if !goes_on_blank(room, len) {
            return len;
        }
        len += 1;
    }
    len
}

// The place of the first colon, or the length where there is none.
fn colon_place(line: &[u8]) -> usize
    ensures value { result ≡ position_or_len is_colon line.now }
    ensures within { result ≤ length line.now }
{
    line.iter().position(|b| is_colon(*b)).unwrap_or(line.len())
}

// What stands before the first colon.
fn line_name(line: &[u8]) -> &[u8]
    ensures { result.now ≡ before_first is_colon line.now }
{
    line.split_at(colon_place(line)).0
}

// Whether a field of this name, in any letter case, speaks of the body.
fn speaks_of_body(name: &[u8]) -> bool
    ensures { result ≡ speaks_of_body (lowercase name.now) }
{
    name.eq_ignore_ascii_case(b"content-length")
        || name.eq_ignore_ascii_case(b"transfer-encoding")
        || name.eq_ignore_ascii_case(b"expect")
}

fn line_stays(line: &[u8]) -> bool
    ensures { result ≡ line_stays line.now }
{
    !speaks_of_body(line_name(line))
}

// The place of the first line feed, or the length where there is none.
fn line_feed_place(bytes: &[u8]) -> usize
    ensures value { result ≡ position_or_len is_line_feed bytes.now }
    ensures within { result ≤ length bytes.now }
{
    bytes
        .iter()
        .position(|b| is_line_feed(*b))
        .unwrap_or(bytes.len())
}

// How long the first line is, with the line feed that ends it.
fn line_len(bytes: &[u8]) -> usize
    ensures { result ≡ min (length bytes.now) (position_or_len is_line_feed bytes.now + 1) }
{
    bytes.len().min(line_feed_place(bytes) + 1)
}

// Puts the line from `at` to `end` behind the first `kept` bytes of the room, if it stays, and says how many
// bytes are kept then.
fn keep_line(room: &mut [u8], at: usize, end: usize, kept: usize) -> usize
    requires before { kept ≤ at }
    requires ordered { at ≤ end }
    requires fits { end ≤ length room.old }
    ensures front { take result room.new ≡ take kept room.old ++ kept_line (slice_range room.old at end) }
    ensures behind { drop end room.new ≡ drop end room.old }
    ensures short { result ≤ kept + (end - at) }
{
    if !line_stays(&room[at..end]) {
        return kept;
    }
    room.copy_within(at..end, kept);
    kept + (end - at)
}

// Puts the lines of the first `used` bytes that stay one behind the other at the front of the room, and says
// how long they are.
pub(crate) fn keep_lines(room: &mut [u8], used: usize) -> usize
    requires { used ≤ length room.old }
    ensures kept { take result room.new ≡ kept_lines (take used room.old) }
    ensures within { result ≤ used }
    ensures behind { drop used room.new ≡ drop used room.old }
{
    let mut kept = 0;
    let mut at = 0;
    'lines: while at < used {
        let end = at + line_len(&room[at..used]);
        kept = keep_line(room, at, end, kept);
        at = end;
    }
    kept
}
