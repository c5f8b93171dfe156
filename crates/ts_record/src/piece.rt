//! What stands behind a keyword: a number in decimal with a line feed behind it, and behind the length of a
//! piece its bytes and one more line feed.
ghost use Rattle.std.specs.Prelude.{◌≡◌, ℕ, ◌≤◌, ◌∷◌, length, drop, IfSome, IfNone, IfOk, IfErr};
ghost use Rattle.ts_link.specs.Texts.{line_feed};
ghost use Rattle.ts_record.specs.Grammar.{IsRecordedPiece, number_before, piece_before};
ghost use Rattle.ts_record.specs.Refusing.{BreaksOff, IsPieceText, IsNumberText, LacksFeed, DigitsEnd};

use crate::recording::{BASE, MOST_PIECE, MOST_TAKEN};

// How many digits at the front a number up to this limit can begin with, and the number that they stand for.
fn count_digits(bytes: &[u8], limit: usize) -> (usize, usize)
    requires limit { limit ≤ MOST_TAKEN }
    ensures within { result.0 ≤ length bytes.now }
    ensures digits { DigitsEnd limit bytes.now result.1 (drop result.0 bytes.now) }
{
    let mut value = 0;
    for (count, byte) in bytes.iter().enumerate() {
        if !byte.is_ascii_digit() {
            return (count, value);
        }
        let longer = BASE * value + usize::from(*byte - b'0');
        if longer == 0 || longer > limit {
            return (count, value);
        }
        value = longer;
    }
    (bytes.len(), value)
}

// The number that those digits stand for, 0 where there are none, and the bytes behind them.
fn read_digits(bytes: &[u8], limit: usize) -> (usize, &[u8])
    requires limit { limit ≤ MOST_TAKEN }
    ensures { DigitsEnd limit bytes.now result.0 result.1.now }
{
    let (count, value) = count_digits(bytes, limit);
    (value, &bytes[count..])
}

// The bytes behind a line feed at the front.
fn after_feed(bytes: &[u8]) -> Option<&[u8]>
    ensures some { IfSome result (λ behind. bytes.now ≡ line_feed ∷ behind.now) }
    ensures none { IfNone result (LacksFeed bytes.now) }
{
    match bytes {
        [b'\n', behind @ ..] => Some(behind),
        _ => None,
    }
}

/// The number from 1 to this limit that stands behind its keyword, and the bytes behind its line feed; or how
/// many bytes are left behind the longest front that such a text begins with.
pub fn read_number(bytes: &[u8], limit: usize) -> Result<(usize, &[u8]), usize>
    requires some { 1 ≤ limit }
    requires limit { limit ≤ MOST_TAKEN }
    ensures number { IfOk result (λ cut. (1 ≤ cut.0) × (cut.0 ≤ limit)) }
    ensures text { IfOk result (λ cut. bytes.now ≡ number_before cut.1.now cut.0) }
    ensures refused { IfErr result (BreaksOff (IsNumberText limit) bytes.now) }
{
    let (number, behind) = read_digits(bytes, limit);
    if number == 0 {
        return Err(behind.len());
    }
    match after_feed(behind) {
        Some(rest) => Ok((number, rest)),
        None => Err(behind.len()),
    }
}

/// The piece that stands behind its keyword, and the bytes behind it; or how many bytes are left behind the
/// longest front that such a text begins with.
pub fn read_piece(bytes: &[u8]) -> Result<(&[u8], &[u8]), usize>
    ensures piece { IfOk result (λ cut. IsRecordedPiece cut.0.now) }
    ensures text { IfOk result (λ cut. bytes.now ≡ piece_before cut.1.now cut.0.now) }
    ensures refused { IfErr result (BreaksOff IsPieceText bytes.now) }
{
    let (length, behind) = read_digits(bytes, MOST_PIECE);
    if length == 0 {
        return Err(behind.len());
    }
    let Some(rest) = after_feed(behind) else {
        return Err(behind.len());
    };
    if rest.len() < length {
        return Err(0);
    }
    let (piece, behind) = rest.split_at(length);
    match after_feed(behind) {
        Some(next) => Ok((piece, next)),
        None => Err(behind.len()),
    }
}
