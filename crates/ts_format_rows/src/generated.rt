//! Recordings that are made of a seed, a number of transactions and the greatest size of their bodies.

use crate::escapes::{shown, told};
use crate::failure::Failure;
use std::alloc::Global;
use ts_record::{generate, print_recording};

// How long a recording is that is shown as it is.
const MOST_SHOWN: usize = 1_000;

// The number of these digits; nothing where they are none, or more than the greatest `u64`.
fn number_of(digits: &[u8]) -> Option<u64> {
    let mut number: u64 = 0;
    for digit in digits {
        if !digit.is_ascii_digit() {
            return None;
        }
        number = number
            .checked_mul(10)?
            .checked_add(u64::from(*digit - b'0'))?;
    }
    Some(number)
}

// The three numbers of a row, which blanks part.
fn numbers_of(text: &[u8]) -> Option<(u64, u8, u32)> {
    let mut words = text.split(|byte| *byte == b' ');
    let seed = number_of(words.next()?)?;
    let count = number_of(words.next()?)?;
    let size = number_of(words.next()?)?;
    Some((seed, u8::try_from(count).ok()?, u32::try_from(size).ok()?))
}

// What the bytes of a text come to: each is added to 31 times the sum so far, modulo 2^64.
fn sum_of(text: &[u8]) -> u64 {
    let mut sum: u64 = 0;
    for byte in text {
        sum = sum.wrapping_mul(31).wrapping_add(u64::from(*byte));
    }
    sum
}

// The line of a recording: itself, or where it is long, its length and its sum.
fn text_line(alloc: Global, text: &[u8]) -> Result<Vec<u8>, Failure> {
    if text.len() <= MOST_SHOWN {
        return shown(alloc, text);
    }
    let sum = format!(in alloc; " bytes, of the sum {}", sum_of(text))?;
    told(alloc, "= made,", text.len() as u64, sum.as_str())
}

/// The line of a recording that is made of three numbers.
pub fn generated_line(alloc: Global, text: &[u8]) -> Result<Vec<u8>, Failure> {
    let Some((seed, count, size)) = numbers_of(text) else {
        return told(alloc, "! numbers", 0, "");
    };
    let recording = generate(alloc, seed, u32::from(count), size)?;
    let printed = print_recording(alloc, &recording)?;
    text_line(alloc, printed.bytes())
}
