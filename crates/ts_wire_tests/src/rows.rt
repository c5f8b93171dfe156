//! Tables of tests as text: a row is a line `INPUT => ANSWER`, in which `\r`, `\n`, `\t`, `\0` and `\xHH`
//! stand for bytes.
ghost use Rattle.std.specs.Prelude.{◌<◌};

use crate::answers::{Inquiry, answer};
use std::alloc::Global;
use std::process::Abort;
use ts_link::NoMemory;

/// What a test that wants memory says.
pub(crate) const MEMORY: &str = "ample memory";

/// Holds each row against what is answered. A line that begins with `#` says what the rows below it show.
pub(crate) fn check_rows(rt: &(impl AllocGlobal + Abort), asked: Inquiry, table: &str) {
    for line in table.lines() {
        if line.is_empty() || line.starts_with('#') {
            continue;
        }
        match line.split_once(" => ") {
            Some((input, want)) => check_row(rt, asked, input.trim_end(), want),
            None => assert!(rt; false, "no row: {line}"),
        }
    }
}

fn check_row(rt: &(impl AllocGlobal + Abort), asked: Inquiry, input: &str, want: &str) {
    let bytes = unescaped(rt.alloc(), input).expect(rt, MEMORY);
    let wanted = unescaped(rt.alloc(), want).expect(rt, MEMORY);
    let got = answer(rt.alloc(), asked, bytes.as_slice()).expect(rt, MEMORY);
    assert_eq!(rt; got.bytes(), wanted.as_slice(), "{input}");
}

/// Holds what is answered to these bytes against what is wanted.
pub(crate) fn check_bytes(
    rt: &(impl AllocGlobal + Abort),
    asked: Inquiry,
    bytes: &[u8],
    want: &[u8],
) {
    let got = answer(rt.alloc(), asked, bytes).expect(rt, MEMORY);
    assert_eq!(rt; got.bytes(), want);
}

fn hex_value(digit: u8) -> u8
    ensures { result < 16 }
{
    match digit {
        b'0'..=b'9' => digit - b'0',
        b'a'..=b'f' => digit - b'a' + 10,
        _ => 0,
    }
}

/// The bytes that a text stands for.
fn unescaped(alloc: Global, text: &str) -> Result<Vec<u8>, NoMemory> {
    let mut bytes = Vec::new(alloc);
    let mut rest = text.as_bytes();
    while let [first, after @ ..] = rest {
        rest = after;
        if *first != b'\\' {
            bytes.push(*first)?;
            continue;
        }
        match after {
            [b'x', high, low, later @ ..] => {
                bytes.push(hex_value(*high) * 16 + hex_value(*low))?;
                rest = later;
            }
            [letter, later @ ..] => {
                bytes.push(named(*letter))?;
                rest = later;
            }
            [] => {}
        }
    }
    Ok(bytes)
}

/// The byte that `\` and this letter stand for.
fn named(letter: u8) -> u8 {
    match letter {
        b'r' => b'\r',
        b'n' => b'\n',
        b't' => b'\t',
        b'0' => b'\0',
        _ => letter,
    }
}

/// `start`, then so many bytes `x` that there are `len` with `end`.
pub(crate) fn filled(
    rt: &(impl AllocGlobal + Abort),
    start: &[u8],
    end: &[u8],
    len: usize,
) -> Vec<u8> {
    let mut text = Vec::from_slice(rt.alloc(), start).expect(rt, MEMORY);
    text.resize(len.saturating_sub(end.len()), b'x')
        .expect(rt, MEMORY);
    text.extend_from_slice(end).expect(rt, MEMORY);
    text
}

/// `start`, then so many field lines, then `end`.
pub(crate) fn with_lines(
    rt: &(impl AllocGlobal + Abort),
    start: &[u8],
    lines: usize,
    end: &[u8],
) -> Vec<u8> {
    let mut text = Vec::from_slice(rt.alloc(), start).expect(rt, MEMORY);
    for _ in 0..lines {
        text.extend_from_slice(b"a:b\r\n").expect(rt, MEMORY);
    }
    text.extend_from_slice(end).expect(rt, MEMORY);
    text
}
