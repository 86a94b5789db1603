//! The parts of a line, read from its front. A line here ends with its line feed.
ghost use Rattle.std.specs.Prelude.{◌≡◌, ◌≤◌, length, min, position, Some, None, IfSome, MatchOption};
ghost use Rattle.lw_base.specs.TextLines.{value_from};
ghost use Rattle.lw_walk.specs.WalkLines.{after_text, number, spaced, is_end, is_plain, is_digit, is_no_digit, digit_count};

/// The bytes behind a text, where they begin with it.
pub fn after<'a>(bytes: &'a [u8], text: &str) -> Option<&'a [u8]>
    ensures { MatchOption result (after_text text.now bytes.now ≡ None) (λ rest. after_text text.now bytes.now ≡ Some rest.now) }
{
    bytes.strip_prefix(text.as_bytes())
}

fn is_digit(byte: u8) -> bool
    ensures { result ≡ is_digit byte }
{
    byte >= b'0' && byte <= b'9'
}

fn is_no_digit(byte: u8) -> bool
    ensures { result ≡ is_no_digit byte }
{
    !is_digit(byte)
}

fn first_no_digit(bytes: &[u8]) -> Option<usize>
    ensures { result ≡ position is_no_digit bytes.now }
{
    bytes.iter().position(|b| is_no_digit(*b))
}

fn digit_count(bytes: &[u8]) -> usize
    ensures count { result ≡ digit_count bytes.now }
    ensures within { result ≤ length bytes.now }
{
    first_no_digit(bytes).unwrap_or(bytes.len())
}

// The number that digits write, or the greatest of 64 bits where it is above that.
fn value_of(digits: &[u8]) -> u64
    ensures { result ≡ min (value_from 0 digits.now) 18446744073709551615 }
{
    let mut value: u64 = 0;
    for byte in digits {
        let digit = (*byte).saturating_sub(b'0');
        value = value.saturating_mul(10).saturating_add(digit as u64);
    }
    value
}

fn is_plain(digits: &[u8]) -> bool
    ensures { result ≡ is_plain digits.now }
{
    digits.len() == 1 || digits.len() > 1 && digits[0] != b'0'
}

/// Whether nothing but the line feed is left.
pub fn is_end(bytes: &[u8]) -> bool
    ensures { result ≡ is_end bytes.now }
{
    bytes == b"\n".as_slice()
}

// A number of 32 bits that bytes begin with, and the bytes behind it.
fn number(bytes: &[u8]) -> Option<(u32, &[u8])>
    ensures { MatchOption result (number bytes.now ≡ None)
        (λ p. number bytes.now ≡ Some (p.0, p.1.now)) }
{
    let count = digit_count(bytes);
    let digits = &bytes[..count];
    if !is_plain(digits) {
        return None;
    }
    let value = value_of(digits);
    if value <= u32::MAX as u64 {
        Some((value as u32, &bytes[count..]))
    } else {
        None
    }
}

/// A number of 32 bits behind a space, and the bytes behind it.
pub fn spaced(bytes: &[u8]) -> Option<(u32, &[u8])>
    ensures { MatchOption result (spaced bytes.now ≡ None)
        (λ p. spaced bytes.now ≡ Some (p.0, p.1.now)) }
{
    number(after(bytes, " ")?)
}
