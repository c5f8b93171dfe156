//! The bytes of a configuration are cut into lines, without their ends.
ghost use Rattle.std.specs.Prelude.{◌≡◌, ◌==◌, ◌<◌, ◌∷◌, length, position, IfSome};
ghost use Rattle.std.specs.Str.Lines.{strip_carriage_return};
ghost use Rattle.ts_link.specs.Texts.{line_feed};
ghost use Rattle.ts_config.specs.Lines.{config_lines};

// The line without the carriage return that it may end with.
fn less_return(line: &[u8]) -> &[u8]
    ensures { result.now ≡ strip_carriage_return line.now }
{
    match line {
        [front @ .., b'\r'] => front,
        whole => whole,
    }
}

// Where the first line feed stands.
fn line_end(bytes: &[u8]) -> Option<usize>
    ensures at { result ≡ position (λ b. b == line_feed) bytes.now }
    ensures within { IfSome result (λ end. end < length bytes.now) }
{
    bytes.iter().position(|byte| *byte == b'\n')
}

/// The first line of these bytes without its end, and the bytes behind that.
pub fn cut_line(bytes: &[u8]) -> (&[u8], &[u8])
    requires { 0 < length bytes.now }
    ensures lines { config_lines bytes.now ≡ result.0.now ∷ config_lines result.1.now }
    ensures shorter { length result.1.now < length bytes.now }
{
    match line_end(bytes) {
        Some(end) => (less_return(&bytes[..end]), &bytes[end + 1..]),
        None => (less_return(bytes), &[]),
    }
}
