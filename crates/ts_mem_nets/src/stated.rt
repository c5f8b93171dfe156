//! The texts that clients and origins give and get, as they are stated.

/// A request for a page.
pub const GET: &[u8] = b"GET / HTTP/1.1\r\nHost: a\r\n\r\n";

/// What the origin gets of it.
pub const GET_SENT: &[u8] =
    b"GET / HTTP/1.1\r\nhost: a\r\nvia: 1.1 tsx\r\nconnection: close\r\n\r\n";

/// A response of three bytes.
pub const ABC: &[u8] = b"HTTP/1.1 200 OK\r\nContent-Length: 3\r\n\r\nabc";

/// What the client gets of it with nothing configured.
pub const ABC_TAKEN: &[u8] =
    b"HTTP/1.1 200 OK\r\nvia: 1.1 tsx\r\ncontent-length: 3\r\nconnection: close\r\n\r\nabc";

/// The head of that.
pub const SIZED: &[u8] =
    b"HTTP/1.1 200 OK\r\nvia: 1.1 tsx\r\ncontent-length: 3\r\nconnection: close\r\n\r\n";

/// The head that the client gets of it where a line acts.
pub const CHUNKED: &[u8] =
    b"HTTP/1.1 200 OK\r\nvia: 1.1 tsx\r\ntransfer-encoding: chunked\r\nconnection: close\r\n\r\n";

/// The answer where no origin is reached, or it gives nothing to pass on.
pub const BAD_GATEWAY: &[u8] =
    b"HTTP/1.1 502 Bad Gateway\r\ncontent-type: text/plain\r\ncontent-length: 16\r\n\
connection: close\r\n\r\n502 Bad Gateway\n";

/// The answer to a request for a host that is denied.
pub const FORBIDDEN: &[u8] =
    b"HTTP/1.1 403 Forbidden\r\ncontent-type: text/plain\r\ncontent-length: 14\r\n\
connection: close\r\n\r\n403 Forbidden\n";
