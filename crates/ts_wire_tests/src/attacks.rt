//! Messages made to be taken in two ways by two readers (request smuggling), and the one way in which they
//! are taken here.

use crate::answers::Inquiry;
use crate::rows::check_rows;
use ts_wire::Framing;

// A refusal is right wherever the RFC allows one. Where it is narrower than the RFC, the line says so.
const REQUESTS: &str = r"
# two ways to say where the body ends (RFC 9112, section 6.1); each body in chunks is refused here
POST / HTTP/1.1\r\nHost: a\r\nContent-Length: 3\r\nTransfer-Encoding: chunked\r\n\r\n => 501
POST / HTTP/1.1\r\nHost: a\r\nTransfer-Encoding: chunked\r\nContent-Length: 0\r\n\r\n => 501
GET / HTTP/1.1\r\nHost: a\r\nTransfer-Encoding: chunked\r\n\r\n => 501
# a Transfer-Encoding that is chunked for some readers alone
GET / HTTP/1.1\r\nHost: a\r\nTransfer-Encoding: xchunked\r\n\r\n => 501
GET / HTTP/1.1\r\nHost: a\r\nTransfer-Encoding: chunked, identity\r\n\r\n => 501
GET / HTTP/1.1\r\nHost: a\r\nTransfer-Encoding:\r\n\r\n => 501
GET / HTTP/1.1\r\nHost: a\r\nTransfer-Encoding: chunked\r\nTransfer-Encoding: chunked\r\n\r\n => 501
GET / HTTP/1.1\r\nHost: a\r\nTransfer-Encoding:\tCHUNKED\t\r\n\r\n => 501
GET / HTTP/1.1\r\nHost: a\r\nTransfer-Encoding: chunked\x0b\r\n\r\n => bad
GET / HTTP/1.1\r\nHost: a\r\n\x0bTransfer-Encoding: chunked\r\n\r\n => bad
# HTTP/1.0 has no transfer codings, and HTTP/0.9 has no heads (RFC 9112, section 6.1; RFC 9110, section 2.5)
POST / HTTP/1.0\r\nTransfer-Encoding: chunked\r\n\r\n => 501
POST / HTTP/1.0\r\nContent-Length: 3\r\nTransfer-Encoding: chunked\r\n\r\n => 501
GET /\r\n => bad
GET / HTTP/0.9\r\nHost: a\r\n\r\n => bad
GET / HTTP/1.10\r\nHost: a\r\n\r\n => bad
GET / http/1.1\r\nHost: a\r\n\r\n => bad
# folded lines, and lines that begin with a blank (RFC 9112, sections 2.2 and 5.2)
GET / HTTP/1.1\r\nHost: a\r\nTransfer-Encoding:\r\n chunked\r\n\r\n => bad
GET / HTTP/1.1\r\nHost: a\r\nTransfer-Encoding: chunked,\r\n\tidentity\r\n\r\n => bad
GET / HTTP/1.1\r\n Host: a\r\n\r\n => bad
# a blank before a colon (RFC 9112, section 5.1)
GET / HTTP/1.1\r\nHost : a\r\n\r\n => bad
GET / HTTP/1.1\r\nHost: a\r\nContent-Length : 3\r\n\r\n => bad
GET / HTTP/1.1\r\nHost: a\r\nTransfer-Encoding\t: chunked\r\n\r\n => bad
GET / HTTP/1.1\r\nHost: a\r\nno colon\r\n\r\n => bad
GET / HTTP/1.1\r\nHost: a\r\n: b\r\n\r\n => bad
# a CR alone ends nothing, and an LF alone ends a line (RFC 9112, section 2.2)
GET / HTTP/1.1\r\nHost: a\rb\r\n\r\n => bad
GET / HTTP/1.1\r\nHost: a\r\r\n\r\n => bad
GET / HTTP/1.1\rHost: a\r\n\r\n => bad
GET / HTTP/1.1\nHost: a\n\n => / a
GET / HTTP/1.1\nHost: a\nTransfer-Encoding: chunked\n\r\n => 501
GET / HTTP/1.1\r\nHost: a\r\nX: b\nContent-Length: 3\r\n\r\n => 501
# which host is asked (RFC 9112, section 3.2)
GET / HTTP/1.1\r\n\r\n => 400
GET / HTTP/1.1\r\nHost: a\r\nHost: b\r\n\r\n => 400
GET / HTTP/1.1\r\nHost: a\r\nhOST: a\r\n\r\n => 400
GET / HTTP/1.0\r\nHost: a\r\nHost: b\r\n\r\n => 400
GET http://b/ HTTP/1.1\r\nHost: a\r\nHost: b\r\n\r\n => 400
GET http://b/ HTTP/1.1\r\n\r\n => 400
# one Host field is one host, whatever stands in it
GET / HTTP/1.1\r\nHost: a, b\r\n\r\n => / a, b
# userinfo, and a fragment, in an absolute target (RFC 9110, section 4.2.4; RFC 9112, section 3.2.2)
GET http://u@b/c HTTP/1.1\r\nHost: a\r\n\r\n => 400
GET http://u:p@b HTTP/1.1\r\nHost: a\r\n\r\n => 400
GET http://b#@c/ HTTP/1.1\r\nHost: a\r\n\r\n => 400
GET http://b/c#d HTTP/1.1\r\nHost: a\r\n\r\n => /c#d b
GET http://b/#@c HTTP/1.1\r\nHost: a\r\n\r\n => /#@c b
# what is no length (RFC 9110, section 8.6)
GET / HTTP/1.1\r\nHost: a\r\nContent-Length: +5\r\n\r\n => 400
GET / HTTP/1.1\r\nHost: a\r\nContent-Length: 0x5\r\n\r\n => 400
GET / HTTP/1.1\r\nHost: a\r\nContent-Length: -0\r\n\r\n => 400
GET / HTTP/1.1\r\nHost: a\r\nContent-Length: 5 5\r\n\r\n => 400
GET / HTTP/1.1\r\nHost: a\r\nContent-Length:\r\n\r\n => 400
GET / HTTP/1.1\r\nHost: a\r\nContent-Length: 0,\r\n\r\n => 400
GET / HTTP/1.1\r\nHost: a\r\nContent-Length: 0, 3\r\n\r\n => 400
GET / HTTP/1.1\r\nHost: a\r\nContent-Length: 0\r\nContent-Length: 3\r\n\r\n => 400
GET / HTTP/1.1\r\nHost: a\r\nContent-Length: 18446744073709551616\r\n\r\n => 400
GET / HTTP/1.1\r\nHost: a\r\nContent-Length: 3, 3\r\n\r\n => 501
GET / HTTP/1.1\r\nHost: a\r\nContent-Length: 0, 00\r\n\r\n => / a
# bytes that end a text for some readers (RFC 9110, section 5.5)
GET / HTTP/1.1\r\nHost: a\0b\r\n\r\n => bad
GET / HTTP/1.1\r\nHost: a\x7f\r\n\r\n => bad
GET /\0 HTTP/1.1\r\nHost: a\r\n\r\n => bad
GET /\x7f HTTP/1.1\r\nHost: a\r\n\r\n => bad
GET  / HTTP/1.1\r\nHost: a\r\n\r\n => bad
GET\t/ HTTP/1.1\r\nHost: a\r\n\r\n => bad
GET /a b HTTP/1.1\r\nHost: a\r\n\r\n => bad
GET /\xc3 HTTP/1.1\r\nHost: a\r\n\r\n => bad
";

const SENT: &str = r"
# a Connection field cannot take Host away, nor name it twice (RFC 9110, section 7.6.1)
GET / HTTP/1.1\r\nHost: a\r\nConnection: host\r\n\r\n => GET / HTTP/1.1\r\nhost: a\r\nvia: 1.1 tsx\r\nconnection: close\r\n\r\n
GET http://b HTTP/1.1\r\nHost: a\r\nConnection: HOST, close\r\n\r\n => GET / HTTP/1.1\r\nhost: b\r\nvia: 1.1 tsx\r\nconnection: close\r\n\r\n
# a length of 0 is not sent on, whatever Connection says
GET / HTTP/1.1\r\nHost: a\r\nContent-Length: 0\r\nConnection: content-length\r\n\r\n => GET / HTTP/1.1\r\nhost: a\r\nvia: 1.1 tsx\r\nconnection: close\r\n\r\n
# lines that an LF ends are sent with CR LF
GET / HTTP/1.1\nHost: a\nX: 1\n\n => GET / HTTP/1.1\r\nhost: a\r\nx: 1\r\nvia: 1.1 tsx\r\nconnection: close\r\n\r\n
";

#[test]
fn takes_requests_in_one_way(rt: HostRuntime) {
    check_rows(&rt, Inquiry::Check, REQUESTS);
    check_rows(&rt, Inquiry::Sent, SENT);
}

const RESPONSES: &str = r"
# where there are two ways to say where the body ends, Transfer-Encoding decides (RFC 9112, section 6.3)
HTTP/1.1 200 OK\r\nContent-Length: 3\r\nTransfer-Encoding: chunked\r\n\r\n => chunked
HTTP/1.1 200 OK\r\nTransfer-Encoding: chunked\r\nContent-Length: x\r\n\r\n => chunked
# a Transfer-Encoding that is chunked for some readers alone; the RFC reads some of them up to the close
HTTP/1.1 200 OK\r\nTransfer-Encoding: xchunked\r\n\r\n => faulty
HTTP/1.1 200 OK\r\nTransfer-Encoding: chunked, identity\r\n\r\n => faulty
HTTP/1.1 200 OK\r\nTransfer-Encoding: identity\r\nContent-Length: 3\r\n\r\n => faulty
HTTP/1.1 200 OK\r\nTransfer-Encoding:\r\n\r\n => faulty
HTTP/1.1 200 OK\r\nTransfer-Encoding: chunked\r\nTransfer-Encoding: chunked\r\n\r\n => faulty
HTTP/1.1 200 OK\r\nTransfer-Encoding: chunked\r\nTransfer-Encoding:\r\n\r\n => faulty
HTTP/1.1 200 OK\r\nTransfer-Encoding: chunked,\r\n\r\n => faulty
HTTP/1.1 200 OK\r\nTransfer-Encoding: chunked;q=1\r\n\r\n => faulty
HTTP/1.1 200 OK\r\nTransfer-Encoding: \x22chunked\x22\r\n\r\n => faulty
HTTP/1.1 200 OK\r\nTransfer_Encoding: chunked\r\n\r\n => until close
# HTTP/1.0 has no transfer codings, and HTTP/0.9 has no heads
HTTP/1.0 200 OK\r\nTransfer-Encoding: chunked\r\n\r\n => faulty
HTTP/1.0 200 OK\r\nContent-Length: 3\r\nTransfer-Encoding: chunked\r\n\r\n => faulty
<html> => bad
HTTP/0.9 200 OK\r\n\r\n => bad
# folded lines, and a blank before a colon: the RFC lets a proxy mend them, and this one refuses
HTTP/1.1 200 OK\r\nTransfer-Encoding:\r\n chunked\r\n\r\n => bad
HTTP/1.1 200 OK\r\nA: b\r\n c\r\n\r\n => bad
HTTP/1.1 200 OK\r\nContent-Length : 3\r\n\r\n => bad
HTTP/1.1 200 OK\r\nTransfer-Encoding : chunked\r\n\r\n => bad
# a CR alone ends nothing, and an LF alone ends a line
HTTP/1.1 200 OK\r\nA: b\rc\r\n\r\n => bad
HTTP/1.1 200 OK\rA: b\r\n\r\n => bad
HTTP/1.1 200 OK\r\nA: b\nContent-Length: 3\n\n => sized 3
# what is no length
HTTP/1.1 200 OK\r\nContent-Length: +5\r\n\r\n => faulty
HTTP/1.1 200 OK\r\nContent-Length: 0x5\r\n\r\n => faulty
HTTP/1.1 200 OK\r\nContent-Length: -0\r\n\r\n => faulty
HTTP/1.1 200 OK\r\nContent-Length: 5 5\r\n\r\n => faulty
HTTP/1.1 200 OK\r\nContent-Length:\r\n\r\n => faulty
HTTP/1.1 200 OK\r\nContent-Length: 3,\r\n\r\n => faulty
HTTP/1.1 200 OK\r\nContent-Length: 3, 4\r\n\r\n => faulty
HTTP/1.1 200 OK\r\nContent-Length: 3\r\nContent-Length: 4\r\n\r\n => faulty
HTTP/1.1 200 OK\r\nContent-Length: 9223372036854775808\r\n\r\n => faulty
HTTP/1.1 200 OK\r\nContent-Length: 18446744073709551619\r\n\r\n => faulty
HTTP/1.1 200 OK\r\nContent-Length: 3, 3\r\n\r\n => sized 3
HTTP/1.1 200 OK\r\nContent-Length: 000000000000000000003\r\n\r\n => sized 3
# bytes that end a text for some readers
HTTP/1.1 200 OK\r\nA: b\0c\r\n\r\n => bad
HTTP/1.1 200 OK\r\nA: b\x7f\r\n\r\n => bad
HTTP/1.1 200 O\0K\r\n\r\n => bad
";

const CHUNKED: &str = r"
# what is no chunk size (RFC 9112, section 7.1)
+3\r\nabc\r\n0\r\n\r\n => bad
-3\r\nabc\r\n0\r\n\r\n => bad
0x3\r\nabc\r\n0\r\n\r\n => bad
 3\r\nabc\r\n0\r\n\r\n => bad
3 3\r\nabc\r\n0\r\n\r\n => bad
;x\r\nabc\r\n0\r\n\r\n => bad
00000000000000003\r\nabc\r\n0\r\n\r\n => bad
0000000000000003\r\nabc\r\n0\r\n\r\n => ended abc
ffffffffffffffff\r\nabc => bad
10000000000000003\r\nabc\r\n0\r\n\r\n => bad
# a chunk line ends in CR LF alone, and so does a chunk
3\nabc\n0\n\n => bad
3\rabc\r\n0\r\n\r\n => bad
3\r\nabc\n0\r\n\r\n => bad abc
3\r\nabcd\r\n0\r\n\r\n => bad abc
3\r\nab\r\n0\r\n\r\n => bad ab\r
0\n\r\n => bad
# extensions: a CR or an LF in one is refused, and a quote hides neither
3;a\rb\r\nabc\r\n0\r\n\r\n => bad
3;a\nb\r\nabc\r\n0\r\n\r\n => bad
3;a=\x22b\x22\r\nabc\r\n0\r\n\r\n => ended abc
3;a=\x22\r\nabc\r\n0\r\n\r\n => ended abc
3;a=\x22\r\n\x22\r\n\r\n0\r\n\r\n => ended \x22\r\n
3;a=\x22\n\x22\r\nabc\r\n0\r\n\r\n => bad
# trailers say nothing of the message, and are dropped (RFC 9110, section 6.5.1)
3\r\nabc\r\n0\r\nContent-Length: 5\r\n\r\nxxxxx => ended abc
3\r\nabc\r\n0\r\nTransfer-Encoding: chunked\r\n\r\n3\r\nabc\r\n0\r\n\r\n => ended abc
3\r\nabc\r\n0\r\nHost: b\r\nConnection: keep-alive\r\n\r\n => ended abc
# a trailer section is made of field lines, as a head is
0\r\nT: a\r\n b\r\n\r\n => bad
0\r\nT : a\r\n\r\n => bad
0\r\nT: a\rb\r\n\r\n => bad
0\r\nT: a\0\r\n\r\n => bad
0\r\nT: a\x7f\r\n\r\n => bad
0\r\nGET / HTTP/1.1\r\n\r\n => bad
0\r\nT: a\n\n => ended
";

#[test]
fn takes_responses_in_one_way(rt: HostRuntime) {
    check_rows(&rt, Inquiry::Ends(false), RESPONSES);
    check_rows(&rt, Inquiry::Body(Framing::Chunked), CHUNKED);
}
