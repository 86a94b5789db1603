//! The parts of a line, read from its front. A line here ends with its line feed.
ghost use Rattle.std.specs.Prelude.{◌≡◌, ℕ, ◌≤◌, ◌^◌, [], ◌∷◌, length, min, position, take, drop, Some, None, IfSome, IfNone, MatchOption};
ghost use Rattle.lw_base.specs.TextLines.{value_from};
ghost use Rattle.lw_base.specs.Words.{greatest_u32, greatest_u64};
ghost use Rattle.lw_report_lines.specs.LineParts.{after, number, spaced, word, is_end, is_plain, is_digit, is_no_digit, digit_count, ends_word, word_length};

/// The bytes behind a text, where they begin with it.
pub fn after<'a>(bytes: &'a [u8], text: &str) -> Option<&'a [u8]>
    ensures { MatchOption result (after text.now bytes.now ≡ None) (λ rest. after text.now bytes.now ≡ Some rest.now) }
{
    bytes.strip_prefix(text.as_bytes())
}

fn is_digit(byte: u8) -> bool
    ensures { result ≡ is_digit byte }
{
    byte >= b'0' && byte <= b'9'
}

fn is_no_digit(byte: u8) -> bool
    ensures { result ≡ is_no_digit byte }
{
    !is_digit(byte)
}

fn first_no_digit(bytes: &[u8]) -> Option<usize>
    ensures { result ≡ position is_no_digit bytes.now }
{
    bytes.iter().position(|b| is_no_digit(*b))
}

fn digit_count(bytes: &[u8]) -> usize
    ensures count { result ≡ digit_count bytes.now }
    ensures within { result ≤ length bytes.now }
{
    first_no_digit(bytes).unwrap_or(bytes.len())
}

fn ends_word(byte: u8) -> bool
    ensures { result ≡ ends_word byte }
{
    byte == b' ' || byte == b'\n'
}

fn first_word_end(bytes: &[u8]) -> Option<usize>
    ensures { result ≡ position ends_word bytes.now }
{
    bytes.iter().position(|b| ends_word(*b))
}

fn word_length(bytes: &[u8]) -> usize
    ensures count { result ≡ word_length bytes.now }
    ensures within { result ≤ length bytes.now }
{
    first_word_end(bytes).unwrap_or(bytes.len())
}

// The number that digits write, or the greatest of 128 bits where it is above that.
fn value_of(digits: &[u8]) -> u128
    ensures { result ≡ min (value_from 0 digits.now) 340282366920938463463374607431768211455 }
{
    let mut value: u128 = 0;
    for byte in digits {
        let digit = (*byte).saturating_sub(b'0');
        value = value.saturating_mul(10).saturating_add(digit as u128);
    }
    value
}

fn is_plain(digits: &[u8]) -> bool
    ensures { result ≡ is_plain digits.now }
{
    digits.len() == 1 || digits.len() > 1 && digits[0] != b'0'
}

/// Whether nothing but the line feed is left.
pub fn is_end(bytes: &[u8]) -> bool
    ensures { result ≡ is_end bytes.now }
{
    bytes == b"\n".as_slice()
}

/// A number of at most `most` that bytes begin with, and the bytes behind it.
pub fn number(bytes: &[u8], most: u64) -> Option<(u64, &[u8])>
    ensures within { IfSome result (λ p. p.0 ≤ most) }
    ensures number { MatchOption result (number most bytes.now ≡ None)
        (λ p. number most bytes.now ≡ Some (p.0, p.1.now)) }
{
    let count = digit_count(bytes);
    let digits = &bytes[..count];
    if !is_plain(digits) {
        return None;
    }
    let value = value_of(digits);
    if value <= most as u128 {
        Some((value as u64, &bytes[count..]))
    } else {
        None
    }
}

/// A number of 64 bits behind a space, and the bytes behind it.
pub fn number64(bytes: &[u8]) -> Option<(u64, &[u8])>
    ensures { MatchOption result (spaced greatest_u64 bytes.now ≡ None)
        (λ p. spaced greatest_u64 bytes.now ≡ Some (p.0, p.1.now)) }
{
    number(after(bytes, " ")?, u64::MAX)
}

/// A number of 32 bits behind a space, and the bytes behind it.
pub fn number32(bytes: &[u8]) -> Option<(u32, &[u8])>
    ensures { MatchOption result (spaced greatest_u32 bytes.now ≡ None)
        (λ p. spaced greatest_u32 bytes.now ≡ Some (p.0, p.1.now)) }
{
    match number(after(bytes, " ")?, u32::MAX as u64) {
        Some((value, rest)) => Some((value as u32, rest)),
        None => None,
    }
}

/// A word behind a space, and the bytes behind it.
pub fn word(bytes: &[u8]) -> Option<(&[u8], &[u8])>
    ensures { MatchOption result (word bytes.now ≡ None)
        (λ p. word bytes.now ≡ Some (p.0.now, p.1.now)) }
{
    let rest = after(bytes, " ")?;
    let length = word_length(rest);
    if length > 0 {
        Some((&rest[..length], &rest[length..]))
    } else {
        None
    }
}
