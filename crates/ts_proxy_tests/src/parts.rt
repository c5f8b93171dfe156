//! The numbered lines and parts that recordings, reports, heads and configurations are made of.

use itoa::Buffer;
use ts_link::NoMemory;

/// Adds a word, a number and what ends their line.
pub fn add_ended(
    text: &mut Vec<u8>,
    word: &[u8],
    number: usize,
    end: &[u8],
) -> Result<(), NoMemory> {
    text.extend_from_slice(word)?;
    let mut digits = Buffer::new();
    text.extend_from_slice(digits.format(number).as_bytes())?;
    text.extend_from_slice(end)?;
    Ok(())
}

/// Adds a line of a word and a number.
pub fn add_number(text: &mut Vec<u8>, word: &[u8], number: usize) -> Result<(), NoMemory> {
    add_ended(text, word, number, b"\n")
}

/// Adds a part, behind a line of a word and its length.
pub fn add_part(text: &mut Vec<u8>, word: &[u8], part: &[u8]) -> Result<(), NoMemory> {
    add_number(text, word, part.len())?;
    text.extend_from_slice(part)?;
    text.push(b'\n')?;
    Ok(())
}
