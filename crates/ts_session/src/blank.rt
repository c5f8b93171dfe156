//! The empty lines ahead of a head.
ghost use Rattle.std.specs.Prelude.{◌≡◌, ◌<◌, ◌≤◌, get_or, length, take, true};
ghost use Rattle.ts_session.specs.Held.{AreBlank, is_end_byte};

fn is_end_byte(b: u8) -> bool
    ensures { result ≡ is_end_byte b }
{
    b == b'\r' || b == b'\n'
}

// Whether the byte at this place is of an empty line too, where all before it are. A CR behind a CR is not,
// since no line feed makes the two an empty line.
fn goes_on_blank(bytes: &[u8], at: usize) -> bool
    requires { at < length bytes.now }
    ensures { result ≡ true → is_end_byte (get_or bytes.now at 0) ≡ true }
{
    let doubled = at > 0 && bytes[at] == b'\r' && bytes[at - 1] == b'\r';
    is_end_byte(bytes[at]) && !doubled
}

// How many of the first `kept` bytes of the room are of empty lines, ahead of all others: the first `known`
// are. Only bytes behind these are looked at.
pub(crate) fn blank_len(room: &[u8], known: usize, kept: usize) -> usize
    requires known { known ≤ kept }
    requires fits { kept ≤ length room.now }
    requires blank { AreBlank (take known room.now) }
    ensures blank { AreBlank (take result room.now) }
    ensures within { result ≤ kept }
{
    let mut len = known;
    'blank: while len < kept {
        if !goes_on_blank(room, len) {
            return len;
        }
        len += 1;
    }
    len
}
