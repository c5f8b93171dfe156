//! Large bodies through as many lines as there may be.

use crate::plan::{Plan, giving};
use crate::refusal::Refusal;
use crate::row::{Finding, chunked};
use crate::seen::check_between;
use crate::stated::{ENDLESS, GET, response};
use std::alloc::Global;

// As many lines as there may be.
const SIXTEEN: &[u8] =
    b"null_transform.so\nnull_transform.so\nnull_transform.so\nnull_transform.so\nnull_transform.so\n\
null_transform.so\nnull_transform.so\nnull_transform.so\nnull_transform.so\nnull_transform.so\n\
null_transform.so\nnull_transform.so\nnull_transform.so\nnull_transform.so\nnull_transform.so\n\
null_transform.so\n";

// More than a stage lets wait behind it.
const PAST_A_BOUNDARY: usize = 65_537;

const KIB: usize = 1_024;

const MIB: usize = 1_048_576;

// So many letters, one after the other.
fn letters(alloc: Global, length: usize) -> Result<Vec<u8>, Refusal> {
    let mut text = Vec::new(alloc);
    text.reserve(length)?;
    let mut letter = b'a';
    for _ in 0..length {
        text.push(letter)?;
        letter = if letter < b'z' { letter + 1 } else { b'a' };
    }
    Ok(text)
}

// Whether a body comes through these lines as it is between the links of these plans.
fn check_letters(
    alloc: Global,
    lines: &[u8],
    body: &[u8],
    client: &Plan<'_>,
    origin: Plan<'_>,
) -> Result<Finding, Refusal> {
    let row = chunked(lines, b"", body);
    check_between(alloc, &row, client, Some(origin))
}

// Whether a body of letters comes through these lines as it is, where the origin gives it in pieces of one
// length and the client takes so many bytes a write.
fn check_long(
    alloc: Global,
    lines: &[u8],
    length: usize,
    piece: u32,
    take: usize,
) -> Result<Finding, Refusal> {
    let body = letters(alloc, length)?;
    let text = response(alloc, ENDLESS, body.as_slice())?;
    let client = Plan {
        take,
        ..giving(GET)
    };
    let origin = Plan {
        piece,
        pieces: length / piece.max(1) as usize,
        ..giving(text.as_slice())
    };
    check_letters(alloc, lines, body.as_slice(), &client, origin)
}

// Each byte takes some 20 events, and each event four entries of the journal, which keeps them all: a body of
// a MiB in single bytes would take 80 million entries.
#[test]
fn a_body_of_1_kib_byte_by_byte(rt: HostRuntime) {
    let verdict = check_long(rt.alloc(), SIXTEEN, KIB, 1, usize::MAX);
    assert_eq!(rt; verdict, Ok(Finding::AsStated));
}

#[test]
fn a_body_of_1_mib_in_pieces(rt: HostRuntime) {
    let verdict = check_long(rt.alloc(), SIXTEEN, MIB, KIB as u32, usize::MAX);
    assert_eq!(rt; verdict, Ok(Finding::AsStated));
}

// The client takes less than the origin gives, so that each boundary fills.
#[test]
fn a_body_for_a_slow_client(rt: HostRuntime) {
    let held = b"bnull_transform.so\n";
    let verdicts = [
        check_long(rt.alloc(), SIXTEEN, 4 * PAST_A_BOUNDARY, u32::MAX, KIB),
        check_long(rt.alloc(), held, 4 * PAST_A_BOUNDARY, u32::MAX, KIB),
    ];
    assert_eq!(rt; verdicts, [Ok(Finding::AsStated), Ok(Finding::AsStated)]);
}

// How many bytes each read of a long body brings, and how many reads bring it.
const READ: u32 = 4_096;

const READS: usize = 1_000;

// The read that fails. Before one stage 65,536 bytes wait at most and a read, which takes 17 reads; as many
// again while the stage lets go of its first bytes; and one is that of the head.
const TOO_FAR: u64 = 40;

// Whether a body that goes on and on, and is not read to its end, comes whole through these lines.
fn check_endless(
    alloc: Global,
    head: &[u8],
    lines: &[u8],
    body: &[u8],
) -> Result<Finding, Refusal> {
    let text = vec![in alloc; b'x'; READ as usize * READS]?;
    let gives = response(alloc, head, text.as_slice())?;
    let origin = Plan {
        first: u32::try_from(head.len()).unwrap_or(0),
        piece: READ,
        pieces: READS,
        fail_read: TOO_FAR,
        ..giving(gives.as_slice())
    };
    check_between(
        alloc,
        &chunked(lines, b"", body),
        &giving(GET),
        Some(origin),
    )
}

#[test]
fn a_body_without_an_end_is_not_read_on(rt: HostRuntime) {
    let heads: [&[u8]; 2] = [
        b"HTTP/1.1 200 OK\r\n\r\n",
        b"HTTP/1.1 200 OK\r\nContent-Length: 9223372036854775807\r\n\r\n",
    ];
    let rows: [(&[u8], &[u8]); 4] = [
        (b"limit.so 0\n", b""),
        (b"limit.so 3\n", b"xxx"),
        (b"prepend.so <\nlimit.so 3\n", b"<xx"),
        (b"delay.so 5\nlimit.so 1\nprepend.so >\n", b">x"),
    ];
    for head in heads {
        for (place, (lines, body)) in rows.iter().enumerate() {
            let verdict = check_endless(rt.alloc(), head, lines, body);
            assert_eq!(rt; verdict, Ok(Finding::AsStated), "row {place}");
        }
    }
}
