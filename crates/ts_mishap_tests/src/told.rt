//! What a transaction tells of itself: the block of all bytes, its end, the questions of its plugins, and the
//! pieces in which a body goes.

use crate::exchange::{Asked, NUMBER, Told};
use crate::judging::check_block;
use crate::plan::giving;
use crate::row::{Finding, Row, chunked, get, head, own};
use crate::seen::{MEMORY, check, run};
use crate::stated::{
    ABC, BAD_GATEWAY, BAD_REQUEST, CHUNKED, GET, GET_SENT, HEAD, NOT_IMPLEMENTED, SIZED, text_of,
};
use crate::stock::{FILE, STOCK, html};
use ts_hooks::TxnEnd;
use ts_wire::Mode;

// Rows of each kind of answer and end.
fn of_each_kind() -> [Row<'static>; 9] {
    let (cut, _) = ABC.split_at(ABC.len() - 1);
    let undialed = own(GET, b"", BAD_GATEWAY, b"502 Bad Gateway\n");
    [
        get(ABC, SIZED, Mode::Plain, b"abc"),
        head(ABC, SIZED),
        get(
            b"HTTP/1.1 200 OK\r\n\r\nabc",
            CHUNKED,
            Mode::Chunked,
            b"abc",
        ),
        Row {
            end: TxnEnd::OriginCut,
            ..get(cut, SIZED, Mode::Plain, b"ab")
        },
        Row {
            end: TxnEnd::OriginBad,
            ..get(
                b"HTTP/1.1 200 OK\r\nTransfer-Encoding: chunked\r\n\r\nx\r\n",
                CHUNKED,
                Mode::Chunked,
                b"",
            )
        },
        own(
            b"GET / HTTP/1.1\r\n\r\n",
            b"",
            BAD_REQUEST,
            b"400 Bad Request\n",
        ),
        own(
            b"POST / HTTP/1.1\r\nHost: a\r\nContent-Length: 3\r\n\r\nabc",
            b"",
            NOT_IMPLEMENTED,
            b"501 Not Implemented\n",
        ),
        own(GET, GET_SENT, BAD_GATEWAY, b"502 Bad Gateway\n"),
        Row {
            origin: None,
            ..undialed
        },
    ]
}

// What a transaction comes to is the block of all bytes that its links give.
#[test]
fn the_block_of_all_bytes(rt: HostRuntime) {
    for (place, row) in of_each_kind().iter().enumerate() {
        assert_eq!(rt;
            check(rt.alloc(), row),
            Ok(Finding::AsStated),
            "row {place}"
        );
    }
    for (place, (lines, body)) in STOCK.iter().enumerate() {
        let row = html(lines, body);
        assert_eq!(rt;
            check(rt.alloc(), &row),
            Ok(Finding::AsStated),
            "line {place}"
        );
    }
}

// The answer of the proxy's own where no origin is reached, to a page and to the head of one. No line acts on
// it.
#[test]
fn an_origin_that_is_not_reached(rt: HostRuntime) {
    let page = own(GET, b"", BAD_GATEWAY, b"502 Bad Gateway\n");
    let head = own(HEAD, b"", BAD_GATEWAY, b"");
    for (place, (lines, _)) in STOCK.iter().enumerate() {
        for row in [page, head] {
            let row = Row {
                lines,
                file: FILE,
                origin: None,
                ..row
            };
            assert_eq!(rt;
                check(rt.alloc(), &row),
                Ok(Finding::AsStated),
                "line {place}"
            );
        }
    }
}

// Links in memory refuse no upload, so it is the block alone that tells of one.
#[test]
fn an_upload_that_is_refused_is_answered_by_400(rt: HostRuntime) {
    let row = Row {
        origin: Some(ABC),
        ..own(GET, GET_SENT, BAD_REQUEST, b"400 Bad Request\n")
    };
    assert_eq!(rt; check_block(rt.alloc(), true, &row), Ok(Finding::AsStated));
}

#[test]
fn a_transaction_tells_its_number_origin_and_end(rt: HostRuntime) {
    let row = get(ABC, SIZED, Mode::Plain, b"abc");
    let seen = run(rt.alloc(), &row, &giving(GET), Some(giving(ABC))).expect(&rt, MEMORY);
    let told = Told {
        number: NUMBER,
        is_dialed: true,
        end: None,
    };
    assert_eq!(rt; (seen.told, seen.end), (Some(told), Some(TxnEnd::Whole)));
}

// What the client gets is then one text.
#[test]
fn a_piece_that_is_read_is_one_chunk(rt: HostRuntime) {
    let stated =
        b"HTTP/1.1 200 OK\r\nvia: 1.1 tsx\r\ntransfer-encoding: chunked\r\nconnection: close\r\n\r\n\
5\r\nhello\r\n0\r\n\r\n";
    let gives = b"HTTP/1.1 200 OK\r\n\r\nhello";
    let row = chunked(b"", gives, b"hello");
    let seen = run(rt.alloc(), &row, &giving(GET), Some(giving(gives))).expect(&rt, MEMORY);
    assert_eq!(rt; (seen.finding, seen.pieces), (Finding::AsStated, 1));
    let text = text_of(rt.alloc(), row.head, row.mode, row.body, &[5], true).expect(&rt, MEMORY);
    let text = text.expect(&rt, "a piece of the body");
    assert!(rt; text.as_slice() == stated.as_slice());
}

// A deny list between rules of each side.
const FOUR: &[u8] = b"header.so response add x-a 1\ndenylist.so b\nheader.so request add x-b 2\n\
header.so response add x-c 3\n";

// A deny list behind one of the same site.
const TWICE: &[u8] = b"denylist.so b\ndenylist.so b\n";

// A request for a host that these lines deny.
const DENIED: &[u8] = b"GET / HTTP/1.1\r\nHost: b\r\n\r\n";

// The lines, the client's request, what the origin gives, and how often each plugin of the lines is asked:
// one behind a deny list that denied is not.
const ASKED: [(&[u8], &[u8], &[u8], Asked); 6] = [
    (FOUR, GET, ABC, [Some(1), Some(1), Some(1), Some(1)]),
    (FOUR, GET, b"", [Some(1), Some(1), Some(1), Some(1)]),
    (FOUR, DENIED, ABC, [Some(1), Some(1), Some(0), Some(1)]),
    (
        FOUR,
        b"GET\r\n\r\n",
        ABC,
        [Some(1), Some(0), Some(0), Some(1)],
    ),
    (TWICE, GET, ABC, [Some(1), Some(1), None, None]),
    (TWICE, DENIED, ABC, [Some(1), Some(0), None, None]),
];

#[test]
fn each_plugin_is_asked_once_at_its_hook(rt: HostRuntime) {
    for (place, (lines, request, gives, stated)) in ASKED.iter().enumerate() {
        // What the ends get is stated elsewhere.
        let row = Row {
            lines,
            request,
            ..get(gives, SIZED, Mode::Plain, b"abc")
        };
        let seen = run(rt.alloc(), &row, &giving(request), Some(giving(gives)));
        assert_eq!(rt; seen.expect(&rt, MEMORY).asked, *stated, "row {place}");
    }
}
