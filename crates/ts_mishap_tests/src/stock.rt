//! A response of HTML, and what each stock line makes of its body.

use crate::row::{Row, get};
use ts_wire::Mode;

/// A response of HTML, on which each line acts.
pub const HTML: &[u8] =
    b"HTTP/1.1 200 OK\r\nContent-Type: text/html\r\nContent-Length: 6\r\n\r\nbanana";

/// How many bytes of it are its head.
pub const HTML_FRONT: u32 = 63;

/// The client's head of it where a line acts.
pub const HTML_HEAD: &[u8] =
    b"HTTP/1.1 200 OK\r\ncontent-type: text/html\r\nvia: 1.1 tsx\r\ntransfer-encoding: chunked\r\n\
connection: close\r\n\r\n";

/// The text of the files that the lines here name.
pub const FILE: &[u8] = b"<hr>";

/// Each stock line and five in a row, and what they make of the six bytes.
pub const STOCK: [(&[u8], &[u8]); 8] = [
    (b"null_transform.so\n", b"banana"),
    (b"append_transform.so f\n", b"banana<hr>"),
    (b"bnull_transform.so\n", b"banana"),
    (b"prepend.so <\n", b"<banana"),
    (b"map.so a o\n", b"bonono"),
    (b"drop.so a\n", b"bnn"),
    (b"delay.so 5\n", b"banana"),
    (
        b"drop.so n\nbnull_transform.so\nprepend.so <\nappend_transform.so f\nmap.so a o\n",
        b"<booo<hr>",
    ),
];

/// The response of HTML through these lines.
pub fn html<'a>(lines: &'a [u8], body: &'a [u8]) -> Row<'a> {
    Row {
        lines,
        file: FILE,
        ..get(HTML, HTML_HEAD, Mode::Chunked, body)
    }
}
