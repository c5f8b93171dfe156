//! Pieces of a body as they are sent on.
ghost use Rattle.std.specs.Prelude.{◌<◌, ◌≤◌, length};

use crate::rows::{MEMORY, filled};
use std::process::Abort;
use ts_iobuf::{IoBuffer, ReaderId};
use ts_wire::{MAX_PIECE, Mode, frame_end, frame_piece};

/// The piece in a chunk, a byte as it is, and both ends.
fn framed(rt: &(impl AllocGlobal + Abort), piece: &[u8]) -> Vec<u8>
    requires some { 0 < length piece.now }
    requires most { length piece.now ≤ MAX_PIECE }
{
    let mut out = IoBuffer::new(rt.alloc()).expect(rt, MEMORY);
    let reader = out.reader().expect(rt, MEMORY);
    frame_piece(Mode::Chunked, piece, &mut out).expect(rt, MEMORY);
    frame_piece(Mode::Plain, b"-", &mut out).expect(rt, MEMORY);
    frame_end(Mode::Plain, &mut out).expect(rt, MEMORY);
    frame_end(Mode::Chunked, &mut out).expect(rt, MEMORY);
    waiting(rt, &out, reader)
}

/// All that waits for the reader.
fn waiting(rt: &(impl AllocGlobal + Abort), out: &IoBuffer, reader: ReaderId) -> Vec<u8> {
    let mut bytes = Vec::new(rt.alloc());
    if out.is_reader(reader) {
        out.copy_out(reader, usize::MAX, &mut bytes)
            .expect(rt, MEMORY);
    }
    bytes
}

/// How many bytes a piece has, and the line that is to stand before it.
const CHUNK_LINES: [(usize, &[u8]); 9] = [
    (1, b"1\r\n"),
    (15, b"f\r\n"),
    (16, b"10\r\n"),
    (255, b"ff\r\n"),
    (256, b"100\r\n"),
    (4095, b"fff\r\n"),
    (4096, b"1000\r\n"),
    (32767, b"7fff\r\n"),
    (32768, b"8000\r\n"),
];

#[test]
fn frames_pieces(rt: HostRuntime) {
    for (len, line) in CHUNK_LINES {
        let piece = filled(&rt, b"", b"", len);
        assert!(rt; !piece.is_empty() && piece.len() <= MAX_PIECE);
        check_piece(&rt, piece.as_slice(), line);
    }
}

/// Holds the piece as it is framed against the line, the piece, and what is sent behind it.
fn check_piece(rt: &(impl AllocGlobal + Abort), piece: &[u8], line: &[u8])
    requires some { 0 < length piece.now }
    requires most { length piece.now ≤ MAX_PIECE }
{
    let got = framed(rt, piece);
    let (front, rest) = got.as_slice().split_at(got.len().min(line.len()));
    let (middle, end) = rest.split_at(rest.len().min(piece.len()));
    assert!(rt; front == line && middle == piece);
    assert_eq!(rt; end, b"\r\n-0\r\n\r\n".as_slice());
}
