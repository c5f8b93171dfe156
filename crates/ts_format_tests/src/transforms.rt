//! Long bodies through lines, and what each line has written in time.
ghost use Rattle.std.specs.Prelude.{◌≡◌, ◌≤◌, false};
ghost use Rattle.ts_transform.specs.declared.transform.TheConstants.{MOST_FED};

use std::alloc::Global;
use std::process::Abort;
use ts_config::{Setup, TransformLine, read_config};
use ts_iobuf::Waiting;
use ts_link::Octets;
use ts_stock::Stock;
use ts_transform::{Chain, MOST_FED, Transform};

/// Why a test has no outcome.
const MEMORY: &str = "memory lacks";

/// The lines of a configuration, where each of their files holds `>`.
fn filled(rt: &impl Abort, alloc: Global, config: &[u8]) -> Setup {
    let mut setup = read_config(alloc, config).expect(rt, "a configuration");
    fill_all(rt, alloc, &mut setup);
    setup
}

fn fill_all(rt: &impl Abort, alloc: Global, setup: &mut Setup) {
    for k in 0..setup.transforms.len() {
        let text = Octets::copy_of(alloc, b">").expect(rt, MEMORY);
        if let Some(TransformLine::Append { .. }) = setup.transforms.get(k) {
            setup.fill(k, text);
        }
    }
}

/// The chain of these lines, to which nothing was given.
fn chain_of(rt: &impl Abort, alloc: Global, lines: &[TransformLine]) -> Chain<Stock>
    ensures { result.given ≡ false }
{
    let mut parts = Vec::new(alloc);
    for line in lines {
        let part = Stock::fresh(alloc, line).expect(rt, MEMORY);
        parts.push(part).expect(rt, MEMORY);
    }
    Chain::make(alloc, parts).expect(rt, MEMORY)
}

/// Lets each stage work once.
fn pump_each(rt: &impl Abort, chain: &mut Chain<Stock>) {
    for stage in 0..chain.stages() {
        if stage < chain.stages() {
            chain.pump(stage).expect(rt, MEMORY);
        }
    }
}

/// Takes the first bytes that wait for the client.
fn take_block(rt: &impl Abort, chain: &mut Chain<Stock>, out: &mut Vec<u8>) {
    if let Some(block) = chain.out_block() {
        let count = block.len();
        out.extend_from_slice(block).expect(rt, MEMORY);
        chain.take(count);
    }
}

/// Adds all that the client gets.
fn drain(rt: &impl Abort, chain: &mut Chain<Stock>, out: &mut Vec<u8>) {
    for _ in 0..1000 {
        pump_each(rt, chain);
        take_block(rt, chain, out);
        if chain.is_finished() {
            return;
        }
    }
}

/// What the lines make of a body.
fn outcome(rt: &impl Abort, alloc: Global, lines: &[TransformLine], body: &[u8]) -> Vec<u8> {
    let mut out = Vec::new(alloc);
    let mut chain = chain_of(rt, alloc, lines);
    chain.give(body).expect(rt, MEMORY);
    chain.give_end();
    drain(rt, &mut chain, &mut out);
    out
}

/// Holds what a line of a configuration makes of a body against the wanted bytes.
fn check(rt: &impl Abort, alloc: Global, config: &[u8], body: &[u8], want: &[u8]) {
    let setup = filled(rt, alloc, config);
    let out = outcome(rt, alloc, setup.transforms.as_slice(), body);
    assert_eq!(rt; out.as_slice(), want);
}

/// How often a long body has a `q` in place of an `x`, and how many bytes it has.
const LONG: [(u32, u32); 4] = [(1, 65_537), (3, 65_537), (63, 65_537), (64, 64)];

#[test]
fn chains_give_long_bodies(rt: HostRuntime) {
    for (every, len) in LONG {
        check_long(&rt, rt.alloc(), every, len);
    }
}

/// Holds what four lines make of a long body against the wanted bytes.
fn check_long(rt: &impl Abort, alloc: Global, every: u32, len: u32) {
    let body = long_body(rt, alloc, every, len, b'q', b'x');
    let mapped = long_body(rt, alloc, every, len, b'q', b'y');
    let front = long_body(rt, alloc, every, len.min(65_536), b'q', b'x');
    let kept = without_each(rt, alloc, every, len, b'x');
    let body = body.as_slice();
    check(rt, alloc, b"map.so x y", body, mapped.as_slice());
    check(rt, alloc, b"bnull_transform.so", body, body);
    check(rt, alloc, b"limit.so 65536", body, front.as_slice());
    check(rt, alloc, b"drop.so q", body, kept.as_slice());
}

/// A body of these many bytes, `at` at the multiples of `every` and else `other`.
fn long_body(rt: &impl Abort, alloc: Global, every: u32, len: u32, at: u8, other: u8) -> Vec<u8> {
    let mut body = Vec::new(alloc);
    for i in 0..len {
        let byte = if i.is_multiple_of(every) { at } else { other };
        body.push(byte).expect(rt, MEMORY);
    }
    body
}

/// As many bytes as that body has besides the multiples of `every`.
fn without_each(rt: &impl Abort, alloc: Global, every: u32, len: u32, byte: u8) -> Vec<u8> {
    let mut body = Vec::new(alloc);
    for i in 0..len {
        if !i.is_multiple_of(every) {
            body.push(byte).expect(rt, MEMORY);
        }
    }
    body
}

/// The body that each line is fed in time.
const BODY: &[u8] = b"abc";

/// Lines whose files hold `>`, what each has written once it was fed the body, and once it was ended, and its
/// pause in milliseconds. Of a limit they hold also where it is fed after it is done.
const IN_TIME: [(&[u8], &[u8], &[u8], u64); 11] = [
    (b"null_transform.so", b"abc", b"abc", 0),
    (b"append_transform.so g", b"abc", b"abc>", 0),
    (b"bnull_transform.so", b"", b"abc", 0),
    (b"prepend.so <", b"<abc", b"<abc", 0),
    (b"map.so b c", b"acc", b"acc", 0),
    (b"drop.so a", b"bc", b"bc", 0),
    (b"delay.so 7", b"abc", b"abc", 7),
    (b"limit.so 0", b"", b"", 0),
    (b"limit.so 2", b"ab", b"ab", 0),
    (b"limit.so 3", b"abc", b"abc", 0),
    (b"limit.so 4", b"abc", b"abc", 0),
];

#[test]
fn writes_in_time(rt: HostRuntime) {
    for (config, fed, ended, pause) in IN_TIME {
        let setup = filled(&rt, rt.alloc(), config);
        match setup.transforms.first() {
            Some(line) => check_in_time(&rt, rt.alloc(), line, fed, ended, pause),
            None => panic!(rt; "no line"),
        }
    }
}

fn check_in_time(
    rt: &impl Abort,
    alloc: Global,
    line: &TransformLine,
    fed: &[u8],
    ended: &[u8],
    pause: u64,
) {
    let mut stock = Stock::fresh(alloc, line).expect(rt, MEMORY);
    assert_eq!(rt; stock.pause(), pause);
    let mut out = Waiting::new(alloc).expect(rt, MEMORY);
    for byte in BODY {
        assert_eq!(rt; stock.feed(&[*byte], &mut out.buffer), Ok(1));
    }
    check_end(rt, &mut stock, &mut out, fed, ended);
}

/// Holds what a transform has written by now, and what once it is ended, against the wanted bytes.
fn check_end(rt: &impl Abort, stock: &mut Stock, out: &mut Waiting, fed: &[u8], ended: &[u8]) {
    assert!(rt; holds(out, fed));
    stock.end(&mut out.buffer).expect(rt, MEMORY);
    assert!(rt; holds(out, ended));
}

/// Whether these bytes wait, however many blocks they stand in.
fn holds(out: &Waiting, bytes: &[u8]) -> bool {
    let mut rest = bytes;
    for k in 0..out.len() {
        match out.buffer.block(out.reader, k) {
            Some(block) => match rest.strip_prefix(block) {
                Some(behind) => rest = behind,
                None => return false,
            },
            None => break,
        }
    }
    rest.is_empty()
}

#[test]
fn writes_the_same_from_a_buffer(rt: HostRuntime) {
    for (config, fed, ended, _) in IN_TIME {
        let setup = filled(&rt, rt.alloc(), config);
        match setup.transforms.first() {
            Some(line) => check_all_from(&rt, rt.alloc(), line, fed, ended),
            None => panic!(rt; "no line"),
        }
    }
}

/// Feeds a line from a buffer with a byte at once, with two, and with as many as may be, with the body cut at
/// each place.
fn check_all_from(rt: &impl Abort, alloc: Global, line: &TransformLine, fed: &[u8], ended: &[u8]) {
    for cut in 0..BODY.len() + 1 {
        check_from(rt, alloc, line, cut, 1, fed, ended);
        check_from(rt, alloc, line, cut, 2, fed, ended);
        check_from(rt, alloc, line, cut, MOST_FED, fed, ended);
    }
}

/// Feeds a line from a buffer with so many bytes at once, with the body cut at this place.
fn check_from(
    rt: &impl Abort,
    alloc: Global,
    line: &TransformLine,
    cut: usize,
    most: usize,
    fed: &[u8],
    ended: &[u8],
)
    requires { (1 ≤ most) × (most ≤ MOST_FED) }
{
    let mut stock = Stock::fresh(alloc, line).expect(rt, MEMORY);
    let mut out = Waiting::new(alloc).expect(rt, MEMORY);
    let mut input = cut_body(rt, alloc, cut);
    feed_all(rt, &mut stock, &mut input, most, &mut out);
    assert!(rt; input.is_empty());
    check_end(rt, &mut stock, &mut out, fed, ended);
}

/// The body in two pieces, each copied from another buffer, so that blocks are shared where they can be.
fn cut_body(rt: &impl Abort, alloc: Global, cut: usize) -> Waiting {
    let mut source = Waiting::new(alloc).expect(rt, MEMORY);
    source.write(BODY).expect(rt, MEMORY);
    let mut input = Waiting::new(alloc).expect(rt, MEMORY);
    for (most, skipped) in [(cut, 0), (BODY.len(), cut)] {
        input
            .buffer
            .copy_from(&source.buffer, source.reader, most, skipped)
            .expect(rt, MEMORY);
    }
    input
}

/// Feeds a transform with all that waits, so many bytes at once.
fn feed_all(rt: &impl Abort, stock: &mut Stock, input: &mut Waiting, most: usize, out: &mut Waiting)
    requires { (1 ≤ most) × (most ≤ MOST_FED) }
{
    for _ in 0..input.len() {
        if input.is_empty() {
            return;
        }
        let taken = stock
            .feed_from(&input.buffer, input.reader, most, &mut out.buffer)
            .expect(rt, MEMORY);
        input.take(taken);
    }
}
