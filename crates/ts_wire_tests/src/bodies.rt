//! Bodies that are read, each in pieces of 1, of 2 and of all of its bytes.

use crate::answers::Inquiry;
use crate::rows::{check_bytes, check_rows, filled, with_lines};
use ts_wire::Framing;

const NOTHING: &str = r"
x => ended
 => ended
";

const SIZED: &str = r"
abcd => ended abc
abc => ended abc
ab => cut ab
 => cut
";

const UNTIL_CLOSE: &str = r"
abc => open abc
 => open
";

const CHUNKED: &str = r"
# chunks, their extensions, and a trailer section (RFC 9112, section 7.1)
3;x=1\r\nabc\r\n0\r\nT: 1\r\n\r\n => ended abc
3\r\nabc\r\nA \t\r\n0123456789\r\n000\r\n\r\nx => ended abc0123456789
# up to where they may go on
 => cut
3\r\nab => cut ab
3\r\nabc\r\n0\r\n => cut abc
3\r\nabc\r\n0\r\nT: 1\r\n => cut abc
7fffffffffffffff\r\n => cut
# what is no chunk
x\r\n => bad
\r\n => bad
3\r\nabcX => bad abc
3\r\nabc\rX => bad abc
8000000000000000\r\n => bad
1\r\na\r\n7fffffffffffffff\r\n => bad a
";

#[test]
fn reads_bodies(rt: HostRuntime) {
    check_rows(&rt, Inquiry::Body(Framing::Nothing), NOTHING);
    check_rows(&rt, Inquiry::Body(Framing::Sized(0)), NOTHING);
    check_rows(&rt, Inquiry::Body(Framing::Sized(3)), SIZED);
    check_rows(&rt, Inquiry::Body(Framing::UntilClose), UNTIL_CLOSE);
    check_rows(&rt, Inquiry::Body(Framing::Chunked), CHUNKED);
}

const LINE_LENGTHS: [(usize, &[u8]); 2] = [(4096, b"ended"), (4097, b"bad")];

const TRAILER_LENGTHS: [(usize, &[u8]); 2] = [(16384, b"ended"), (16385, b"bad")];

const TRAILER_FIELDS: [(usize, &[u8], &[u8]); 5] = [
    (64, b"\r\n", b"ended"),
    (65, b"\r\n", b"bad"),
    (64, b"", b"cut"),
    (64, b"a:", b"cut"),
    (65, b"", b"bad"),
];

#[test]
fn keeps_limits_of_chunks(rt: HostRuntime) {
    let asked = Inquiry::Body(Framing::Chunked);
    for (len, want) in LINE_LENGTHS {
        let text = filled(&rt, b"0;", b"\r\n\r\n", len + 2);
        check_bytes(&rt, asked, text.as_slice(), want);
    }
    for (len, want) in TRAILER_LENGTHS {
        let text = filled(&rt, b"0\r\na:", b"\r\n\r\n", len + 3);
        check_bytes(&rt, asked, text.as_slice(), want);
    }
    for (count, end, want) in TRAILER_FIELDS {
        let text = with_lines(&rt, b"0\r\n", count, end);
        check_bytes(&rt, asked, text.as_slice(), want);
    }
}
