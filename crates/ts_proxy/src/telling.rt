//! The line on the error sink that says why a command ended so; telling it takes no memory of its own.
ghost use Rattle.std.specs.Prelude.{◌≡◌, true, map};
ghost use Rattle.std.specs.List.{concat};
ghost use Rattle.ts_proxy.specs.Lines.{kind_text, line_of, LineTold};
ghost use Rattle.ts_proxy.specs.Answers.{file_name};

use crate::answer::{Answer, NamedFile};
use crate::writing::{SendEnd, write_all};
use itoa::Buffer;
use ts_config::ConfigKind;
use ts_link::Sink;

const USAGE: &[u8] =
    b"tsx: usage: transform CONFIG BODY | replay [--threads N] CONFIG RECORDING | serve --listen L --origin A --config F [--threads N] [--connections N] | generate SEED COUNT SIZE\n";

const BAD_LINE: &[u8] = b"tsx: configuration line ";

const BAD_RECORDING: &[u8] = b"tsx: recording offset ";

const CANNOT_READ: &[u8] = b"tsx: cannot read ";

const CANNOT_WRITE: &[u8] = b"tsx: cannot write\n";

const OUT_OF_MEMORY: &[u8] = b"tsx: out of memory\n";

const NETWORK: &[u8] = b"tsx: network\n";

const TOO_LONG: &[u8] = b"tsx: too long: ";

const COLON: &[u8] = b": ";

const LINE_FEED: &[u8] = b"\n";

const TEXT: &[u8] = b"text";

const QUOTE: &[u8] = b"quote";

const PLUGIN: &[u8] = b"plugin";

const ARGUMENTS: &[u8] = b"arguments";

const TOO_MANY: &[u8] = b"too-many";

fn text_of(kind: ConfigKind) -> &'static [u8]
    ensures { result.now ≡ kind_text kind }
{
    match kind {
        ConfigKind::Text => TEXT,
        ConfigKind::Quote => QUOTE,
        ConfigKind::Plugin => PLUGIN,
        ConfigKind::Arguments => ARGUMENTS,
        ConfigKind::TooMany => TOO_MANY,
    }
}

// Writes the parts of a line, one behind the other, until one is not taken whole.
fn tell<E: Sink>(err: &mut E, parts: &[&[u8]])
    ensures { E.tells ≡ true →
        LineTold (E.seen err.old) (E.seen err.new) (concat (map (λ p. p.now) parts.now)) }
{
    for part in parts {
        match write_all(err, part) {
            SendEnd::Done => {}
            SendEnd::Failed => return,
            SendEnd::NoMemory => return,
        }
    }
}

fn name<'a>(config: &'a str, input: &'a str, file: &'a NamedFile) -> &'a [u8]
    ensures { result.now ≡ file_name config.now input.now file.now }
{
    match file {
        NamedFile::Config => config.as_bytes(),
        NamedFile::Input => input.as_bytes(),
        NamedFile::Appended(name) => name.bytes(),
    }
}

/// Tells the line of an answer.
pub fn say<E: Sink>(err: &mut E, answer: &Answer, config: &str, input: &str)
    ensures { E.tells ≡ true →
        LineTold (E.seen err.old) (E.seen err.new) (line_of config.now input.now answer.now) }
{
    match answer {
        Answer::Done => {}
        Answer::Usage => tell(err, &[USAGE]),
        Answer::BadLine(fault) => {
            let mut digits = Buffer::new();
            let number = digits.format(fault.line).as_bytes();
            tell(
                err,
                &[BAD_LINE, number, COLON, text_of(fault.kind), LINE_FEED],
            );
        }
        Answer::BadRecording { offset } => {
            let mut digits = Buffer::new();
            let number = digits.format(*offset).as_bytes();
            tell(err, &[BAD_RECORDING, number, LINE_FEED]);
        }
        Answer::CannotRead(file) => tell(err, &[CANNOT_READ, name(config, input, file), LINE_FEED]),
        Answer::CannotWrite => tell(err, &[CANNOT_WRITE]),
        Answer::OutOfMemory => tell(err, &[OUT_OF_MEMORY]),
        Answer::Network => tell(err, &[NETWORK]),
        Answer::TooLong(file) => tell(err, &[TOO_LONG, name(config, input, file), LINE_FEED]),
    }
}
