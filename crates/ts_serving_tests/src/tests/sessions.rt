//! Clients whose connections carry several requests, one after the other: what each gets, and how it waits.

use crate::command::MEMORY;
use crate::session::{
    ABC_GOING_ON, Found, Session, Turn, check_session, compare_session, left_by_sessions,
    net_of_session, page_turn, session_of, session_on,
};
use std::alloc::Global;
use std::sync::Wait;
use std::thread::Threads;
use ts_hooks::TxnEnd;
use ts_link::NoMemory;
use ts_mem_nets::links::{Counting, Side, Stalling, at_once, staying, steady};
use ts_mem_nets::stated::{ABC, ABC_TAKEN, GET, GET_SENT};

const GET_TWICE: &[u8] = b"GET / HTTP/1.1\r\nHost: a\r\n\r\nGET / HTTP/1.1\r\nHost: a\r\n\r\n";

// Two requests at once: each has an origin of its own, and the first one is noted.
#[test]
fn two_requests_are_answered_one_after_the_other(rt: HostRuntime) {
    assert_eq!(rt; (GET_TWICE.len(), ABC_GOING_ON.len() * 2), (54, 110));
    let turns = [page_turn(), page_turn()];
    check_session(&rt, &session_of(GET_TWICE, &turns));
}

const CLOSES_FIRST: &[u8] = b"GET / HTTP/1.1\r\nHost: a\r\nConnection: close\r\n\r\n\
GET / HTTP/1.1\r\nHost: a\r\n\r\n";

// A client that asks for it is answered once, and nothing is noted.
#[test]
fn a_client_that_asks_for_it_is_answered_once(rt: HostRuntime) {
    assert_eq!(rt; ABC_TAKEN.len(), 74);
    let turns = [Turn {
        taken: ABC_TAKEN,
        ..page_turn()
    }];
    check_session(&rt, &session_of(CLOSES_FIRST, &turns));
}

const RULES: &[u8] = b"session.so response add x-a 2\nheader.so response add x-a 1\n\
session.so request set X-B 1\n";

const WITH_RULES: &[u8] =
    b"HTTP/1.1 200 OK\r\nx-a: 1\r\nx-a: 2\r\nvia: 1.1 tsx\r\ncontent-length: 3\r\n\r\nabc";

const RULED_SENT: &[u8] =
    b"GET / HTTP/1.1\r\nhost: a\r\nx-b: 1\r\nvia: 1.1 tsx\r\nconnection: close\r\n\r\n";

// The rules of a session act behind those of all, and on each request of it.
#[test]
fn rules_of_sessions_act_behind_those_of_all(rt: HostRuntime) {
    let ruled = Turn {
        sent: RULED_SENT,
        taken: WITH_RULES,
        ..page_turn()
    };
    let turns = [ruled, ruled];
    let row = Session {
        config: RULES,
        ..session_of(GET_TWICE, &turns)
    };
    check_session(&rt, &row);
}

// Who sends nothing has one transaction, which sends nothing.
#[test]
fn a_client_that_sends_nothing_has_one_transaction(rt: HostRuntime) {
    let turns = [Turn {
        sent: b"",
        taken: b"",
        ..page_turn()
    }];
    check_session(&rt, &session_of(b"", &turns));
}

const POST_AND_GET: &[u8] = b"POST / HTTP/1.1\r\nHost: a\r\nContent-Length: 3\r\n\r\nabc\
GET / HTTP/1.1\r\nHost: a\r\n\r\n";

const POST_SENT: &[u8] =
    b"POST / HTTP/1.1\r\nhost: a\r\nvia: 1.1 tsx\r\nconnection: close\r\ncontent-length: 3\r\n\r\nabc";

const CHANGED_SENT: &[u8] = b"POST / HTTP/1.1\r\nhost: a\r\nvia: 1.1 tsx\r\nconnection: close\r\n\
transfer-encoding: chunked\r\n\r\n3\r\nAbc\r\n0\r\n\r\n";

// A request with a body whose origin gets this.
fn posting<'a>(sent: &'a [u8]) -> Turn<'a> {
    Turn {
        sent,
        ..page_turn()
    }
}

// A body goes to the origin of its own request.
#[test]
fn bodies_of_requests_go_to_their_own_origins(rt: HostRuntime) {
    let turns = [posting(POST_SENT), page_turn()];
    check_session(&rt, &session_of(POST_AND_GET, &turns));
}

// So does one that a line changes.
#[test]
fn a_line_acts_on_the_bodies_of_a_session(rt: HostRuntime) {
    let turns = [posting(CHANGED_SENT), page_turn()];
    let row = Session {
        config: b"request.so map.so a A\n",
        ..session_of(POST_AND_GET, &turns)
    };
    check_session(&rt, &row);
}

const CHUNKS_AND_GET: &[u8] = b"POST / HTTP/1.1\r\nHost: a\r\nTransfer-Encoding: chunked\r\n\r\n\
3\r\nabc\r\n0\r\nx: y\r\n\r\nGET / HTTP/1.1\r\nHost: a\r\n\r\n";

// And one in chunks, behind whose last one the next request stands.
#[test]
fn a_line_acts_on_a_body_in_chunks(rt: HostRuntime) {
    let turns = [posting(CHANGED_SENT), page_turn()];
    let row = Session {
        config: b"request.so map.so a A\n",
        ..session_of(CHUNKS_AND_GET, &turns)
    };
    check_session(&rt, &row);
}

const LIMITED_SENT: &[u8] = b"POST / HTTP/1.1\r\nhost: a\r\nvia: 1.1 tsx\r\nconnection: close\r\n\
transfer-encoding: chunked\r\n\r\n2\r\nab\r\n0\r\n\r\n";

const FORBIDDEN: &[u8] =
    b"HTTP/1.1 403 Forbidden\r\ncontent-type: text/plain\r\ncontent-length: 14\r\n\
connection: close\r\n\r\n403 Forbidden\n";

const FORBIDDEN_GOING_ON: &[u8] =
    b"HTTP/1.1 403 Forbidden\r\ncontent-type: text/plain\r\ncontent-length: 14\r\n\r\n403 Forbidden\n";

// The body of the second one comes behind its head.
const GET_AND_POST: &[u8] = b"GET / HTTP/1.1\r\nHost: a\r\n\r\n\
POST / HTTP/1.1\r\nHost: a\r\nContent-Length: 3\r\n\r\nabc\
GET / HTTP/1.1\r\nHost: a\r\n\r\n";

// All of the first request but its last byte, and then the rest.
const BUT_A_BYTE: &[u32] = &[49];

// The first request, the head of the second one, and then the rest.
const HEAD_BY_HEAD: &[u32] = &[27, 47];

// A client that sends these bytes in pieces of such lengths.
fn in_pieces<'a>(gives: &'a [u8], cuts: &'a [u32]) -> Side<'a> {
    Side::Counting(Counting {
        cuts,
        ..steady(gives)
    })
}

// A client of whose body a line wants no more than came is answered last.
#[test]
fn a_connection_ends_where_a_line_reads_no_more(rt: HostRuntime) {
    let turns = [Turn {
        taken: ABC_TAKEN,
        ..posting(LIMITED_SENT)
    }];
    let row = Session {
        config: b"request.so limit.so 2\n",
        client: in_pieces(POST_AND_GET, BUT_A_BYTE),
        ..session_of(b"", &turns)
    };
    check_session(&rt, &row);
}

// So is one whose host is denied before its body came.
#[test]
fn a_connection_ends_where_a_body_was_not_read(rt: HostRuntime) {
    let denied = Turn {
        sent: b"",
        taken: FORBIDDEN_GOING_ON,
        ..page_turn()
    };
    let turns = [
        denied,
        Turn {
            taken: FORBIDDEN,
            ..denied
        },
    ];
    let row = Session {
        config: b"denylist.so a\n",
        client: in_pieces(GET_AND_POST, HEAD_BY_HEAD),
        ..session_of(b"", &turns)
    };
    check_session(&rt, &row);
}

const THREE_HOSTS: &[u8] = b"GET / HTTP/1.1\r\nHost: a\r\n\r\nGET / HTTP/1.1\r\nHost: b\r\n\r\n\
GET / HTTP/1.1\r\nHost: a\r\n\r\n";

const FILLED: &[u8] =
    b"HTTP/1.1 200 OK\r\ncontent-type: text/plain\r\nvia: 1.1 tsx\r\ncontent-length: 2\r\n\r\nxx";

const SERVES_B: &[u8] = b"intercept.so b fill 2\ntap.so 1\n";

// A request for the host that a line serves, whose dial gives this.
fn filled<'a>(origin: Option<&'a [u8]>) -> Turn<'a> {
    Turn {
        origin,
        sent: b"",
        taken: FILLED,
    }
}

// A line serves its host in the midst of a session, and leaves the origin alone. A tap changes nothing.
#[test]
fn a_line_serves_one_request_of_a_session(rt: HostRuntime) {
    let turns = [page_turn(), filled(Some(ABC)), page_turn()];
    let row = Session {
        config: SERVES_B,
        ..session_of(THREE_HOSTS, &turns)
    };
    check_session(&rt, &row);
}

// It needs no origin.
#[test]
fn a_line_serves_one_request_without_an_origin(rt: HostRuntime) {
    let turns = [page_turn(), filled(None), page_turn()];
    let row = Session {
        config: SERVES_B,
        ..session_of(THREE_HOSTS, &turns)
    };
    check_session(&rt, &row);
}

const NO_GATEWAY: &[u8] =
    b"HTTP/1.1 502 Bad Gateway\r\ncontent-type: text/plain\r\ncontent-length: 16\r\n\r\n502 Bad Gateway\n";

// A dial that fails gives its request the proxy's own answer, and the next request an origin of its own.
#[test]
fn each_request_has_its_own_dial(rt: HostRuntime) {
    let unreached = Turn {
        origin: None,
        sent: b"",
        taken: NO_GATEWAY,
    };
    let turns = [unreached, page_turn()];
    check_session(&rt, &session_of(GET_TWICE, &turns));
    let turns = [page_turn(), unreached];
    check_session(&rt, &session_of(GET_TWICE, &turns));
}

const CUT: &[u8] = b"HTTP/1.1 200 OK\r\nContent-Length: 3\r\n\r\nab";

const CUT_TAKEN: &[u8] = b"HTTP/1.1 200 OK\r\nvia: 1.1 tsx\r\ncontent-length: 3\r\n\r\nab";

// Behind an answer whose body its origin cuts nothing goes on.
#[test]
fn a_connection_ends_behind_a_cut_answer(rt: HostRuntime) {
    let turns = [
        page_turn(),
        Turn {
            origin: Some(CUT),
            sent: GET_SENT,
            taken: CUT_TAKEN,
        },
    ];
    let three = b"GET / HTTP/1.1\r\nHost: a\r\n\r\nGET / HTTP/1.1\r\nHost: a\r\n\r\n\
GET / HTTP/1.1\r\nHost: a\r\n\r\n";
    let row = Session {
        end: TxnEnd::OriginCut,
        ..session_of(three, &turns)
    };
    check_session(&rt, &row);
}

// A client that waits for so many reads once it gave so many bytes of its two requests.
fn stalling_at<'a>(stalls_at: usize, stall: u32) -> Side<'a> {
    Side::Stalling(Stalling {
        stalls_at,
        stall,
        ..staying(GET_TWICE)
    })
}

// A client waits before each byte of its requests, between them and behind them: it keeps its place, and is
// answered as one that gives them at once.
#[test]
fn clients_wait_between_their_requests(rt: HostRuntime) {
    let turns = [page_turn(), page_turn()];
    for stalls_at in 0..=GET_TWICE.len() {
        let row = Session {
            client: stalling_at(stalls_at, 3),
            ..session_of(b"", &turns)
        };
        let found = session_on(&rt, "2", &row);
        assert_eq!(rt; found, Found::AsStated, "at {stalls_at}");
    }
    let row = Session {
        client: stalling_at(GET.len(), 100),
        ..session_of(b"", &turns)
    };
    check_session(&rt, &row);
}

const ONES: &[u32] = &[1; 77];

const WAITS: &[u64] = &[1, 3, 4, 9, 30, 58];

// A client that gives a byte a read and takes so many a write, of whose calls some wait.
fn taking<'a>(take: usize) -> Side<'a> {
    Side::Counting(Counting {
        cuts: ONES,
        take,
        waiting_reads: WAITS,
        waiting_writes: WAITS,
        ..steady(POST_AND_GET)
    })
}

// A byte a read, few bytes a write, and calls that wait: the session stays the same.
#[test]
fn sessions_do_not_depend_on_how_their_bytes_come(rt: HostRuntime) {
    let turns = [posting(POST_SENT), page_turn()];
    for take in [1, 3, 20, 100] {
        let row = Session {
            client: taking(take),
            ..session_of(b"", &turns)
        };
        check_session(&rt, &row);
    }
}

// A client that leaves within its second answer is handed over with what it took.
#[test]
fn a_client_leaves_within_its_second_answer(rt: HostRuntime) {
    let turns = [
        page_turn(),
        Turn {
            taken: b"HTTP/1.1 200",
            ..page_turn()
        },
    ];
    let row = Session {
        client: Side::Stalling(Stalling {
            leave: Some(67),
            ..staying(GET_TWICE)
        }),
        end: TxnEnd::ClientFault,
        ..session_of(b"", &turns)
    };
    check_session(&rt, &row);
}

// A client whose link fails while it waits for its next request is handed over behind the one before.
#[test]
fn a_client_fails_while_it_waits(rt: HostRuntime) {
    let turns = [page_turn()];
    let row = Session {
        client: Side::Counting(Counting {
            failing_reads: &[2],
            ..steady(GET)
        }),
        ..session_of(b"", &turns)
    };
    check_session(&rt, &row);
}

// So many requests for a page.
fn requests_of(alloc: Global, count: usize) -> Result<Vec<u8>, NoMemory> {
    let mut text = Vec::new(alloc);
    for _ in 0..count {
        text.extend_from_slice(GET)?;
    }
    Ok(text)
}

// The transactions of so many requests, of which the last is answered with this.
fn turns_of<'a>(alloc: Global, count: usize, last: &'a [u8]) -> Result<Vec<Turn<'a>>, NoMemory> {
    let mut turns = Vec::new(alloc);
    for place in 1..=count {
        let turn: Turn<'a> = page_turn();
        turns.push(if place == count {
            Turn {
                taken: last,
                ..turn
            }
        } else {
            turn
        })?;
    }
    Ok(turns)
}

// A connection carries 1,000 requests, and the last answer says that it ends.
#[test]
fn a_connection_carries_a_thousand_requests(rt: HostRuntime) {
    let alloc = rt.alloc();
    let gives = requests_of(alloc, 1_001).expect(&rt, MEMORY);
    let turns = turns_of(alloc, 1_000, ABC_TAKEN).expect(&rt, MEMORY);
    check_session(&rt, &session_of(gives.as_slice(), turns.as_slice()));
}

// What comes of two requests on two threads.
fn serve_two<R: Threads + Wait + Sync>(rt: &R, alloc: Global) -> Result<Found, NoMemory> {
    let turns = [page_turn(), page_turn()];
    let row = session_of(GET_TWICE, &turns);
    let net = net_of_session(alloc, &row)?;
    let left = left_by_sessions(rt, alloc, "2", row.config, net)?;
    Ok(compare_session(&row, &left))
}

// With ample memory a session is served whole. Run with each allocation refused in turn (`rt try --test
// --fail-alloc N`, N from 1 on), the program ends with status 7 or its transaction does, and it is served
// whole the second time.
#[test]
fn a_session_is_served_whole_or_memory_lacked(rt: HostRuntime) {
    let found = match serve_two(&rt, rt.alloc()) {
        Ok(Found::AsStated) => Ok(Found::AsStated),
        _ => serve_two(&rt, rt.alloc()),
    };
    assert_eq!(rt; found, Ok(Found::AsStated));
}

// A request for another page behind one whose answer is in chunks.
#[test]
fn an_answer_under_a_line_goes_on(rt: HostRuntime) {
    let lined = Turn {
        origin: Some(ABC),
        sent: GET_SENT,
        taken: b"HTTP/1.1 200 OK\r\nvia: 1.1 tsx\r\ntransfer-encoding: chunked\r\n\r\n3\r\nAbc\r\n0\r\n\r\n",
    };
    let turns = [lined, lined];
    let row = Session {
        config: b"map.so a A\n",
        ..session_of(GET_TWICE, &turns)
    };
    check_session(&rt, &row);
}
