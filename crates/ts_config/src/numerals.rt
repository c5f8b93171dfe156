//! Words that stand for a byte or for a number.
ghost use Rattle.std.specs.Prelude.{◌≡◌, ℕ, ◌≤◌, ◌<◌, Option, IfSome, Bool};
ghost use Rattle.std.specs.Str.{all_ascii_digits};
ghost use Rattle.ts_config.specs.Numerals.{hex_value, hex_digit, byte_of, has_no_leading_zero, number_of};

// The value of a hexadecimal digit, with letters in lower case.
fn hex_value(digit: u8) -> Option<u8>
    ensures { result ≡ hex_value digit }
{
    match digit {
        b'0'..=b'9' => Some(digit - b'0'),
        b'a'..=b'f' => Some(digit - 87),
        _ => None,
    }
}

/// The hexadecimal digit of a value below 16, with letters in lower case.
pub fn hex_digit(value: u8) -> u8
    requires { value < 16 }
    ensures { result ≡ hex_digit value }
{
    if value < 10 { b'0' + value } else { 87 + value }
}

/// The byte that a word stands for: its only byte, or the number of `0x` and two digits.
pub fn byte_of(word: &[u8]) -> Option<u8>
    ensures { result ≡ byte_of word.now }
{
    match word {
        [byte] => Some(*byte),
        [b'0', b'x', high, low] => {
            let high = hex_value(*high)?;
            let low = hex_value(*low)?;
            Some(16 * high + low)
        }
        _ => None,
    }
}

fn has_no_leading_zero(word: &[u8]) -> bool
    ensures { result ≡ has_no_leading_zero word.now }
{
    match word {
        [] => false,
        [_] => true,
        [first, ..] => *first != b'0',
    }
}

/// The number that a word stands for in plain decimal, if it is at most `most`.
pub fn number_of(word: &[u8], most: u64) -> Option<u64>
    ensures number { result ≡ number_of most word.now }
    ensures within { IfSome result (λ n. n ≤ most) }
{
    if !has_no_leading_zero(word) {
        return None;
    }
    let mut value: u128 = 0;
    for digit in word {
        if !digit.is_ascii_digit() {
            return None;
        }
        value = 10 * value + u128::from(*digit - b'0');
        if value > u128::from(most) {
            return None;
        }
    }
    Some(value as u64)
}
