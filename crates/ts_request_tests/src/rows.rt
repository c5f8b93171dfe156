//! Rows of tests as text, in which `\r` and `\n` stand for bytes.

use std::process::Abort;

/// What a test that wants memory says.
pub(crate) const MEMORY: &str = "ample memory";

/// The byte that `\` and this letter stand for.
fn named(letter: u8) -> u8 {
    match letter {
        b'r' => b'\r',
        b'n' => b'\n',
        _ => letter,
    }
}

/// The bytes that a text stands for.
pub(crate) fn unescaped(rt: &(impl AllocGlobal + Abort), text: &str) -> Vec<u8> {
    let mut bytes = Vec::new(rt.alloc());
    let mut rest = text.as_bytes();
    while let [first, after @ ..] = rest {
        rest = after;
        if *first != b'\\' {
            bytes.push(*first).expect(rt, MEMORY);
            continue;
        }
        match after {
            [letter, later @ ..] => {
                bytes.push(named(*letter)).expect(rt, MEMORY);
                rest = later;
            }
            [] => {}
        }
    }
    bytes
}
