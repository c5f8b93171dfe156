//! Writes a body that is sent on, piece by piece, as it is or in chunks.
ghost use Rattle.std.specs.Prelude.{◌≡◌, ◌+◌, ◌-◌, ◌*◌, ◌/◌, ◌%◌, ◌<◌, ◌≤◌, ◌∷◌, [], length, drop, false, OnOk, OnErr};
ghost use Rattle.std.specs.Fmt.{digit_glyph};
ghost use Rattle.ts_iobuf.specs.Buffer.{GrowsBy};
ghost use Rattle.ts_wire.specs.Frames.{IsPiece, frame_of, end_of, four_digits, leading_zeros, ReadsBack, ReadsFronts, CutsBack};

use ts_iobuf::IoBuffer;
use ts_link::NoMemory;

/// How many bytes a piece of a body may have.
pub const MAX_PIECE: usize = 32768;

/// How a body is sent.
#[derive(Clone, Copy, PartialEq, Eq)]
pub enum Mode {
    /// As it is.
    Plain,
    /// In chunks.
    Chunked,
}

fn hex_digit(n: usize) -> u8
    requires { n < 16 }
    ensures { result ≡ digit_glyph false n }
{
    let n = n as u8;
    if n < 10 { b'0' + n } else { b'a' - 10 + n }
}

fn four_digits(n: usize) -> [u8; 4]
    ensures { result ≡ four_digits n }
{
    [
        hex_digit(n / 4096 % 16),
        hex_digit(n / 256 % 16),
        hex_digit(n / 16 % 16),
        hex_digit(n % 16),
    ]
}

fn leading_zeros(n: usize) -> usize
    ensures { result ≡ leading_zeros n }
{
    if n < 16 {
        3
    } else if n < 256 {
        2
    } else if n < 4096 {
        1
    } else {
        0
    }
}

/// Writes a piece of 1 to 32,768 bytes of a body: all of it with its frame, or nothing for want of memory.
pub fn frame_piece(mode: Mode, piece: &[u8], out: &mut IoBuffer) -> Result<(), NoMemory>
    requires { IsPiece piece.now }
    ensures grows { OnOk result (GrowsBy out.old out.new (frame_of mode piece.now)) }
    ensures err { OnErr result (out.new ≡ out.old) }
{
    match mode {
        Mode::Plain => out.write(piece),
        Mode::Chunked => write_chunk(piece, out),
    }
}

fn write_chunk(piece: &[u8], out: &mut IoBuffer) -> Result<(), NoMemory>
    requires { IsPiece piece.now }
    ensures grows { OnOk result (GrowsBy out.old out.new (frame_of Mode.Chunked piece.now)) }
    ensures err { OnErr result (out.new ≡ out.old) }
{
    let digits = four_digits(piece.len());
    let (_, size) = digits.split_at(leading_zeros(piece.len()));
    out.write_parts(&[size, b"\r\n", piece, b"\r\n"])
}

/// Writes the end of a body: all of it, or nothing for want of memory.
pub fn frame_end(mode: Mode, out: &mut IoBuffer) -> Result<(), NoMemory>
    ensures grows { OnOk result (GrowsBy out.old out.new (end_of mode)) }
    ensures err { OnErr result (out.new ≡ out.old) }

    // The laws that what is sent in chunks is read back, and so of each front of it, and that the pieces' lengths
    // cut it as it was cut.
    ensures read_back { ReadsBack }
    ensures read_fronts { ReadsFronts }
    ensures cut_back { CutsBack }
{
    match mode {
        Mode::Plain => Ok(()),
        Mode::Chunked => out.write(b"0\r\n\r\n"),
    }
}
