//! Texts on one line, in which bytes that a line does not show have escapes.

use crate::failure::Failure;
use std::alloc::Global;

// What a hexadecimal digit counts.
fn digit_of(letter: u8) -> u8 {
    match letter {
        b'0'..=b'9' => letter - b'0',
        b'a'..=b'f' => letter - b'a' + 10,
        _ => 0,
    }
}

// The byte of an escape, and how many letters it has behind its backslash.
fn escaped(behind: &[u8]) -> (u8, usize) {
    match behind {
        [b'n', ..] => (b'\n', 1),
        [b'r', ..] => (b'\r', 1),
        [b't', ..] => (b'\t', 1),
        [b'x', high, low, ..] => (digit_of(*high).wrapping_mul(16) | digit_of(*low), 3),
        _ => (b'\\', 1),
    }
}

/// The bytes of a text: `\n`, `\r`, `\t`, `\\` and `\x0a` stand for one each.
pub fn bytes_of(alloc: Global, text: &str) -> Result<Vec<u8>, Failure> {
    let mut bytes = Vec::new(alloc);
    let mut skipped: usize = 0;
    for (place, letter) in text.as_bytes().iter().enumerate() {
        if skipped > 0 {
            skipped -= 1;
        } else if *letter == b'\\' {
            let (_, behind) = text.as_bytes().split_at(place + 1);
            let (byte, length) = escaped(behind);
            bytes.push(byte)?;
            skipped = length;
        } else {
            bytes.push(*letter)?;
        }
    }
    Ok(bytes)
}

// Adds a byte, with its escape where it has one.
fn add_shown(alloc: Global, line: &mut Vec<u8>, byte: u8) -> Result<(), Failure> {
    match byte {
        b'\n' => line.extend_from_slice(b"\\n")?,
        b'\r' => line.extend_from_slice(b"\\r")?,
        b'\t' => line.extend_from_slice(b"\\t")?,
        b'\\' => line.extend_from_slice(b"\\\\")?,
        b' '..=b'~' => line.push(byte)?,
        _ => {
            let shown = format!(in alloc; "\\x{byte:02x}")?;
            line.extend_from_slice(shown.as_bytes())?;
        }
    }
    Ok(())
}

/// The line of what came of a row: these bytes, each with its escape where it has one.
pub fn shown(alloc: Global, bytes: &[u8]) -> Result<Vec<u8>, Failure> {
    let mut line = Vec::from_slice(alloc, b"= ")?;
    for byte in bytes {
        add_shown(alloc, &mut line, *byte)?;
    }
    line.push(b'\n')?;
    Ok(line)
}

/// The line of a number, and what it is of.
pub fn told(alloc: Global, before: &str, number: u64, behind: &str) -> Result<Vec<u8>, Failure> {
    let line = format!(in alloc; "{before} {number}{behind}\n")?;
    Ok(Vec::from_slice(alloc, line.as_bytes())?)
}
