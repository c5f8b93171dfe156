//! What a configuration means as values: its lines, and the fault of one that is not in the grammar.
use crate::fields::PluginLine;
use thiserror::Error;
use ts_link::Octets;

/// A transform of the chain, as one line of the configuration asks for it.
#[derive(Drop)]
pub enum TransformLine {
    /// The body as it is.
    Null,
    /// The body, and then the text of a file. Reading leaves the text empty.
    Append { file: Octets, text: Octets },
    /// The body, stored whole and then written.
    Bnull,
    /// The text, of at most 16,384 bytes, and then the body.
    Prepend { text: Octets },
    /// The body with each byte `from` replaced by `to`.
    Map { from: u8, to: u8 },
    /// The body without a byte.
    Drop { byte: u8 },
    /// The body as it is, with a pause of `ms` milliseconds, at most 60,000, between two events of its stage.
    Delay { ms: u32 },
    /// The first `most` bytes of the body, at most 9,223,372,036,854,775,807. Then it is done, though the body
    /// may go on.
    Limit { most: u64 },
}

/// What an intercept serves in place of an origin.
#[derive(Drop)]
pub enum InterceptKind {
    /// The head that the origin would get.
    Echo,
    /// `n` bytes `x`, at most 262,144.
    Fill { n: u32 },
    /// The text of a file as it is. Reading leaves the text empty.
    File { file: Octets, text: Octets },
}

/// An intercept: the host whose requests it serves, as the line has it, and what it serves.
#[derive(Drop)]
pub struct InterceptLine {
    pub site: Octets,
    pub kind: InterceptKind,
}

/// What a line of the configuration means.
#[derive(Drop)]
pub enum LineMeaning {
    /// A line without a word.
    Empty,
    /// A transform of responses.
    Transform(TransformLine),
    /// A transform of the bodies of requests.
    Request(TransformLine),
    Intercept(InterceptLine),
    Plugin(PluginLine),
    /// A tap that counts so many bytes.
    Tap(u32),
}

/// A line with a file: its place among the lines of its kind, counted from 0.
#[derive(Clone, Copy)]
pub enum FilePlace {
    Transform(usize),
    Request(usize),
    Intercept(usize),
}

/// The rules of a line, in the order in which they are tried.
#[derive(Clone, Copy, Debug)]
pub enum ConfigKind {
    /// The line is UTF-8, and has no byte below 32 but tabs, and no byte 127.
    Text,
    /// Each quote is closed, and ends its word.
    Quote,
    /// The first word is the name of a plugin.
    Plugin,
    /// The other words fit the plugin.
    Arguments,
    /// It is at most the 16th transform line or request line, at most the 64th intercept line or line of a
    /// hook plugin, and at most the first tap line.
    TooMany,
}

/// The first faulty line, counted from 1, and the first rule that it breaks.
#[derive(Clone, Copy, Debug)]
pub struct ConfigFault {
    pub line: u64,
    pub kind: ConfigKind,
}

/// Why a configuration was not read.
#[derive(Debug, Drop, Error)]
pub enum ConfigRefusal {
    #[error("Fault")]
    Fault(ConfigFault),
    #[error("NoMemory")]
    NoMemory,
}

/// A whole configuration: its lines, each kind in the order of the text.
#[derive(Drop)]
pub struct Setup {
    /// The transforms of responses.
    pub transforms: Vec<TransformLine>,
    /// The transforms of the bodies of requests.
    pub requests: Vec<TransformLine>,
    pub intercepts: Vec<InterceptLine>,
    pub plugins: Vec<PluginLine>,
    /// The most bytes that the tap counts, if there is one.
    pub tap: Option<u32>,
    /// The lines with a file, in the order of the text.
    pub files: Vec<FilePlace>,
}
