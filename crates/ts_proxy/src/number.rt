//! A number in plain decimal, as a word.
ghost use Rattle.std.specs.Prelude.{◌≡◌, ◌≤◌, IfSome};
ghost use Rattle.ts_config.specs.Numerals.{number_of};
ghost use Rattle.ts_proxy.specs.Words.{begins_number};

// Whether a word begins as a number does: with a digit, which is no zero before others.
fn begins_number(word: &[u8]) -> bool
    ensures { result ≡ begins_number word.now }
{
    match word {
        [] => false,
        [first] => first.is_ascii_digit(),
        [first, ..] => first.is_ascii_digit() && *first != b'0',
    }
}

/// The number that a word stands for, in plain decimal with no sign and no leading zero, if it is at most
/// `most`.
pub fn number_of(word: &str, most: u64) -> Option<u64>
    ensures number { result ≡ number_of most word.now }
    ensures range { IfSome result (λ n. n ≤ most) }
{
    if !begins_number(word.as_bytes()) {
        return None;
    }
    match word.parse::<u64>() {
        Ok(number) if number <= most => Some(number),
        _ => None,
    }
}
