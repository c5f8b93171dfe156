//! The words of a command, as they stand on its line.

use std::alloc::{AllocError, Global};

/// Whether a line is a command.
pub fn is_command(line: &str) -> bool {
    line == "tsx" || line.starts_with("tsx ")
}

// A word: `~` stands for a blank in it, and `""` for a word without any letter.
fn word_of(alloc: Global, text: &str) -> Result<String, AllocError> {
    let mut word = String::new(alloc);
    if text == "\"\"" {
        return Ok(word);
    }
    for letter in text.chars() {
        word.push(if letter == '~' { ' ' } else { letter })?;
    }
    Ok(word)
}

/// The words of a command behind the program's name, which blanks part.
pub fn words_of(alloc: Global, line: &str) -> Result<Vec<String>, AllocError> {
    let mut words = Vec::new(alloc);
    for text in line.split(' ').skip(1) {
        words.push(word_of(alloc, text)?)?;
    }
    Ok(words)
}
