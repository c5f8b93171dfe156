//! Rows of commands: each line of standard input that begins with `tsx` is a command, which is run over the
//! files that it names, and what it leaves is printed.
#![tactic(auto)]

mod left;
mod net;
mod shelf;
mod words;

use left::{Left, is_same, left_by, print_left};
use shelf::shelf_of;
use std::io::Write;
use std::rt::Files;
use std::sync::Wait;
use std::thread::Threads;
use std::{env, io};
use ts_link::NoMemory;
use words::{is_command, words_of};

// How want of memory is told.
fn lacking(_refusal: NoMemory) -> io::Error {
    io::Error::from(io::ErrorKind::OutOfMemory)
}

// What the command of a line leaves, over the files that it names and these.
fn run_line<R: AllocGlobal + Files + Threads + Wait + Sync>(
    rt: &R,
    line: &str,
    files: &[String],
) -> io::Result<Left> {
    let words = words_of(rt.alloc(), line)?;
    let mut shelf = shelf_of(rt, words.as_slice(), files)?;
    left_by(rt, rt.alloc(), words.as_slice(), &mut shelf).map_err(lacking)
}

// What is printed of the command of a line, if the one before left this.
fn lines_of<R: AllocGlobal>(
    rt: &R,
    line: &str,
    before: Option<&Left>,
    left: &Left,
) -> io::Result<Vec<u8>> {
    let mut text = Vec::from_slice(rt.alloc(), line.as_bytes())?;
    text.push(b'\n')?;
    match before {
        Some(before) if is_same(before, left) => text.extend_from_slice(b"as before\n")?,
        _ => print_left(rt.alloc(), &mut text, left)?,
    }
    text.push(b'\n')?;
    Ok(text)
}

// The words behind the program's name: the files that each command may read beside those that it names.
fn files_of<R: env::Env + AllocGlobal>(rt: &R) -> io::Result<Vec<String>> {
    let mut files = Vec::new(rt.alloc());
    for word in env::args(rt)?.skip(1) {
        files.push(word)?;
    }
    Ok(files)
}

fn main(rt: HostRuntime) -> io::Result<()> {
    let files = files_of(&rt)?;
    let mut before: Option<Left> = None;
    for line in rt.lines(rt.alloc()) {
        let line = line?;
        if is_command(line.as_str()) {
            let left = run_line(&rt, line.as_str(), files.as_slice())?;
            let text = lines_of(&rt, line.as_str(), before.as_ref(), &left)?;
            rt.stdout().write_all(text.as_slice())?;
            before = Some(left);
        }
    }
    Ok(())
}
