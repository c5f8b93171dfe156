//! The table of faults: sinks, files and links that fail or wait by the numbers of their calls, and what each of
//! them comes to, on one thread and on more.
use crate::command::{MEMORY, Remains, left_of, texts_of};
use crate::row::{Outcome, Row, THREADS, all_come, check, compare, served};
use crate::stated::LESS;
use std::process::Abort;
use std::sync::Wait;
use std::thread::Threads;
use ts_hooks::TxnEnd;
use ts_link::{MemLink, MemShelf, MemSink, OpenGate};
use ts_mem_nets::links::{Counting, Side, steady};
use ts_mem_nets::net::net_of;
use ts_mem_nets::stated::{ABC, BAD_GATEWAY, CHUNKED, GET, SIZED};
use ts_mem_nets::visit::{Visit, page, unreached};
use ts_txn::{MemNet, Retired};

// What a command is to leave: its status, what out takes, and what is said.
#[derive(Clone, Copy)]
struct Wanted<'a> {
    status: u8,
    out: &'a [u8],
    says: &'a [u8],
}

// Whether a command left what it is to leave.
fn is_left(left: &Remains<MemNet>, wanted: &Wanted<'_>) -> bool {
    left.status == wanted.status
        && left.out.written() == wanted.out
        && left.err.written() == wanted.says
}

// The files of a command that puts `XY` behind a body of `abc`. The request line has no effect on that, and its
// file is read first, as it stands first.
const FILES: [(&str, &[u8]); 4] = [
    (
        "c",
        b"request.so append_transform.so up.txt\nappend_transform.so tail.txt",
    ),
    ("up.txt", b"Z"),
    ("tail.txt", b"XY"),
    ("b", b"abc"),
];

// Whether that command comes to this, where the read and the write of these numbers fail, counted from 1, and
// out takes one byte a write.
fn transforms<R: Abort + AllocGlobal + Threads + Wait + Sync>(
    rt: &R,
    read: u64,
    write: u64,
    wanted: &Wanted<'_>,
) -> bool {
    let alloc = rt.alloc();
    let words = texts_of(alloc, &["transform", "c", "b"]).expect(rt, MEMORY);
    let failing = vec![in alloc; write].expect(rt, MEMORY);
    let mut shelf = MemShelf::make(alloc);
    for (name, text) in FILES {
        shelf.add(name, text).expect(rt, MEMORY);
    }
    shelf.fail_at(read).expect(rt, MEMORY);
    let nobody = net_of(alloc, &[], &[], &[]).expect(rt, MEMORY);
    let out = MemSink::make(alloc, 1, failing);
    let left = left_of(
        rt,
        alloc,
        words.as_slice(),
        shelf,
        nobody,
        out,
        &OpenGate::make(),
    );
    is_left(&left, wanted)
}

// Clients that are served with a line that acts.
fn through_a_line<'a>(visits: &'a [Visit<'a>]) -> Row<'a> {
    Row {
        config: LESS,
        ..all_come(visits)
    }
}

// How often the client and the origin of the only transaction waited, if there is no other.
fn waits_of(retired: &[Retired<MemLink, MemLink>]) -> (u64, u64) {
    let [one] = retired else {
        return (u64::MAX, u64::MAX);
    };
    match &one.parts.origin {
        Some(link) => (one.parts.client.waits(), link.waits()),
        None => (one.parts.client.waits(), 0),
    }
}

// What comes of a net of one client, and how often that and its origin waited.
fn come_of_waits<R: Abort + AllocGlobal + Threads + Wait + Sync>(
    rt: &R,
    threads: &str,
    row: &Row<'_>,
) -> (Outcome, u64, u64) {
    let left = served(rt, threads, row, &OpenGate::make());
    let (client, origin) = waits_of(left.net.retired());
    (compare(rt.alloc(), row, &left), client, origin)
}

// The client of a page and its origin come out as it is stated, having waited so often each.
fn waits<R: Abort + AllocGlobal + Threads + Wait + Sync>(
    rt: &R,
    visit: Visit<'_>,
    client: u64,
    origin: u64,
) {
    let visits = [visit];
    let row = all_come(&visits);
    for threads in THREADS {
        let found = come_of_waits(rt, threads, &row);
        assert_eq!(rt; found, (Outcome::AsStated, client, origin));
    }
}

#[test]
fn a_sink_that_fails_at_each_write(rt: HostRuntime) {
    let text: &[u8] = b"abcXY";
    for written in 0..text.len() {
        let (out, _) = text.split_at(written);
        let wanted = Wanted {
            status: 6,
            out,
            says: b"tsx: cannot write\n",
        };
        assert!(rt; transforms(&rt, 0, written as u64 + 1, &wanted));
    }
    let whole = Wanted {
        status: 0,
        out: text,
        says: b"",
    };
    assert!(rt; transforms(&rt, 0, 6, &whole));
}

#[test]
fn a_file_that_fails_at_each_read(rt: HostRuntime) {
    let lines: [&[u8]; 4] = [
        b"tsx: cannot read c\n",
        b"tsx: cannot read up.txt\n",
        b"tsx: cannot read tail.txt\n",
        b"tsx: cannot read b\n",
    ];
    for (place, says) in lines.iter().enumerate() {
        let wanted = Wanted {
            status: 5,
            out: b"",
            says: *says,
        };
        assert!(rt; transforms(&rt, place as u64 + 1, 0, &wanted));
    }
}

// The write of this number to the first client fails: it took what the writes before brought, and the second
// one is served whole.
fn fails_at_a_write<R: Abort + AllocGlobal + Threads + Wait + Sync>(rt: &R, write: u64) {
    let numbers = [write];
    let brought = (write as usize).saturating_sub(1).saturating_mul(10);
    let (taken, _) = CHUNKED.split_at(brought.min(CHUNKED.len()));
    let failing = Visit {
        client: Side::Counting(Counting {
            take: 10,
            failing_writes: &numbers,
            ..steady(GET)
        }),
        taken,
        end: TxnEnd::ClientFault,
        ..page()
    };
    let whole = Visit {
        taken: CHUNKED,
        chunks: Some(b"<abc"),
        ..page()
    };
    check(rt, &through_a_line(&[failing, whole]));
}

#[test]
fn a_client_whose_write_fails(rt: HostRuntime) {
    for write in 1..=8 {
        fails_at_a_write(&rt, write);
    }
}

// Its head came whole, and nothing of its body.
#[test]
fn an_origin_whose_second_read_fails(rt: HostRuntime) {
    let failing = Side::Counting(Counting {
        cuts: &[38],
        failing_reads: &[2],
        ..steady(ABC)
    });
    let visit = Visit {
        origin: Some(failing),
        taken: SIZED,
        end: TxnEnd::OriginFault,
        ..page()
    };
    check(&rt, &all_come(&[visit, page()]));
}

#[test]
fn an_origin_whose_first_read_fails(rt: HostRuntime) {
    assert_eq!(rt; BAD_GATEWAY.len(), 109);
    let failing = Side::Counting(Counting {
        failing_reads: &[1],
        ..steady(ABC)
    });
    let visit = Visit {
        origin: Some(failing),
        taken: BAD_GATEWAY,
        end: TxnEnd::OriginFault,
        ..page()
    };
    check(&rt, &all_come(&[visit, page()]));
}

#[test]
fn an_origin_that_is_not_reached(rt: HostRuntime) {
    check(&rt, &all_come(&[unreached(page()), page()]));
}

#[test]
fn a_client_that_waits_at_its_first_two_writes(rt: HostRuntime) {
    let client = Side::Counting(Counting {
        waiting_writes: &[1, 2],
        ..steady(GET)
    });
    waits(&rt, Visit { client, ..page() }, 2, 0);
}

// Every second call up to the fortieth.
const EVEN: &[u64] = &[
    2, 4, 6, 8, 10, 12, 14, 16, 18, 20, 22, 24, 26, 28, 30, 32, 34, 36, 38, 40,
];

// Pieces of one byte each.
const SINGLE: &[u32] = &[1; 24];

// A link that waits at these calls, and gives and takes one byte a call.
fn halting(gives: &[u8]) -> Side<'_> {
    Side::Counting(Counting {
        cuts: SINGLE,
        take: 1,
        waiting_reads: EVEN,
        waiting_writes: EVEN,
        ..steady(gives)
    })
}

// Each of the two makes more than forty reads and more than forty writes.
#[test]
fn links_that_wait_at_every_second_call(rt: HostRuntime) {
    let visit = Visit {
        client: halting(GET),
        origin: Some(halting(ABC)),
        ..page()
    };
    waits(&rt, visit, 40, 40);
}
