//! A line is cut into its words, between blanks or quotes, up to a comment.
ghost use Rattle.std.specs.Prelude.{◌≡◌, ◌==◌, ◌≤◌, length, map, IfOk, IsTrue};
ghost use Rattle.std.specs.List.{position_or_len, prefix_len};
ghost use Rattle.std.specs.Option.{option_map};
ghost use Rattle.ts_config.specs.Bytes.{quote_mark};
ghost use Rattle.ts_config.specs.Words.{is_blank, is_end, EndsWord};
ghost use Rattle.ts_config.specs.Scanning.{IsQuoted, IsNextWord, AreWords};

use std::alloc::Global;
use ts_link::NoMemory;

fn is_blank(byte: u8) -> bool
    ensures { result ≡ is_blank byte }
{
    byte == b' ' || byte == b'\t'
}

/// Whether a plain word ends before this byte.
pub fn is_end(byte: u8) -> bool
    ensures { result ≡ is_end byte }
{
    is_blank(byte) || byte == b'#'
}

// How many blanks the text begins with.
fn count_blanks(text: &[u8]) -> usize
    ensures count { result ≡ prefix_len is_blank text.now }
    ensures within { result ≤ length text.now }
{
    for (i, byte) in text.iter().enumerate() {
        if !is_blank(*byte) {
            return i;
        }
    }
    text.len()
}

// Where the plain word that the text begins with ends.
fn count_plain(text: &[u8]) -> usize
    ensures count { result ≡ position_or_len is_end text.now }
    ensures within { result ≤ length text.now }
{
    for (i, byte) in text.iter().enumerate() {
        if is_end(*byte) {
            return i;
        }
    }
    text.len()
}

// How many bytes stand before the first quote, or all.
fn count_quoted(text: &[u8]) -> usize
    ensures count { result ≡ position_or_len (λ b. b == quote_mark) text.now }
    ensures within { result ≤ length text.now }
{
    for (i, byte) in text.iter().enumerate() {
        if *byte == b'"' {
            return i;
        }
    }
    text.len()
}

// What a line begins with.
enum NextWord<'a> {
    // No word, and maybe a comment.
    Nothing,
    Word { word: &'a [u8], rest: &'a [u8] },
    // A quote that is not closed, or that does not end its word.
    Unclosed,
}

// Whether a word ends before this text.
fn ends_word(rest: &[u8]) -> bool
    ensures yes { IsTrue result → EndsWord rest.now }
    ensures no { EndsWord rest.now → IsTrue result }
{
    match rest.first() {
        Some(byte) => is_end(*byte),
        None => true,
    }
}

// The word between quotes of which this is what stands behind the first.
fn quoted_word(text: &[u8]) -> NextWord
    ensures { IsQuoted text.now result }
{
    let (word, behind) = text.split_at(count_quoted(text));
    let Some((_, rest)) = behind.split_first() else {
        return NextWord::Unclosed;
    };
    if !ends_word(rest) {
        return NextWord::Unclosed;
    }
    NextWord::Word { word, rest }
}

fn next_word(line: &[u8]) -> NextWord
    ensures { IsNextWord line.now result }
{
    let (_, text) = line.split_at(count_blanks(line));
    let Some((first, behind)) = text.split_first() else {
        return NextWord::Nothing;
    };
    match *first {
        b'#' => NextWord::Nothing,
        b'"' => quoted_word(behind),
        _ => {
            let (word, rest) = text.split_at(count_plain(text));
            NextWord::Word { word, rest }
        }
    }
}

/// The words of the line, or nothing where a quote does not fit.
pub fn words_of(alloc: Global, line: &[u8]) -> Result<Option<Vec<&[u8]>>, NoMemory>
    ensures { IfOk result (λ found. AreWords line.now (option_map (λ v. map (λ w. w.now) v.items) found)) }
{
    let mut words = Vec::new(alloc);
    let mut rest = line;
    loop {
        match next_word(rest) {
            NextWord::Nothing => return Ok(Some(words)),
            NextWord::Unclosed => return Ok(None),
            NextWord::Word { word, rest: behind } => {
                words.push(word)?;
                rest = behind;
            }
        }
    }
}
