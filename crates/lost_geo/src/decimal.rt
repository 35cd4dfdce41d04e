//! Positions as decimal text.
ghost use Rattle.std.specs.Prelude.{◌≡◌, ◌+◌, ◌*◌, ◌^◌, ◌-◌, ◌<◌, ◌≤◌, not, IfSome, IsTrue, pos, length, option_map};
ghost use Rattle.std.specs.List.{prefix_len};
ghost use Rattle.lost_spec.specs.Text.{is_digit};
ghost use Rattle.lost_spec.specs.Decimal.{decimal, is_space, is_word_byte, front, behind, are_decimals, decimals_value, read_decimals, read_unsigned, read_number};

use crate::point::GeoPoint;
use lost_spec::{are_digits, digits_value};

/// The most digits of whole degrees.
const MAX_DEGREE_DIGITS: usize = 3;

/// The most digits behind the point.
const MAX_DECIMALS: usize = 7;

/// The units of a degree.
const UNITS_OF_A_DEGREE: u64 = 10_000_000;

impl GeoPoint {
    /// The latitude and the longitude that a text such as `-33.85 151.2` spells in degrees, in whole 1e-7 degrees. The text
    /// is two numbers with one or more spaces between them. A number is one to three digits, perhaps with `-` before them,
    /// and perhaps with `.` and one to seven digits behind them (own rule). Any other text gives `None`. It takes no
    /// memory. Whether the two are in range is for [`GeoPoint::new`] to say.
    pub fn decimal(text: &[u8]) -> Option<(i64, i64)>
        ensures { result ≡ decimal text.now }
    {
        let (word, rest) = split_word(text);
        let lat = read_number(word)?;
        let lon = read_number(after_spaces(rest))?;
        Some((lat, lon))
    }
}

/// The text before its first space, and the text from there on.
fn split_word(text: &[u8]) -> (&[u8], &[u8])
    ensures word { result.0.now ≡ front is_word_byte text.now }
    ensures rest { result.1.now ≡ behind is_word_byte text.now }
{
    text.split_at(word_len(text))
}

/// How many bytes stand before the first space.
fn word_len(text: &[u8]) -> usize
    ensures value { result ≡ prefix_len is_word_byte text.now }
    ensures within { result ≤ length text.now }
{
    text.iter().take_while(|byte| **byte != b' ').count()
}

/// The text behind the spaces that it begins with.
fn after_spaces(text: &[u8]) -> &[u8]
    ensures { result.now ≡ behind is_space text.now }
{
    &text[spaces_len(text)..]
}

/// How many spaces a text begins with.
fn spaces_len(text: &[u8]) -> usize
    ensures value { result ≡ prefix_len is_space text.now }
    ensures within { result ≤ length text.now }
{
    text.iter().take_while(|byte| **byte == b' ').count()
}

/// How many digits a text begins with.
fn digits_len(text: &[u8]) -> usize
    ensures value { result ≡ prefix_len is_digit text.now }
    ensures within { result ≤ length text.now }
{
    text.iter().take_while(|byte| byte.is_ascii_digit()).count()
}

/// A number in whole 1e-7 degrees, with its sign.
fn read_number(text: &[u8]) -> Option<i64>
    ensures { result ≡ read_number text.now }
{
    let (first, rest) = text.split_first()?;
    if *first == b'-' {
        Some(-(read_unsigned(rest)? as i64))
    } else {
        Some(read_unsigned(text)? as i64)
    }
}

/// A number without its sign.
fn read_unsigned(text: &[u8]) -> Option<u64>
    ensures value { result ≡ read_unsigned text.now }
    ensures small { IfSome result (λ units. units < 1_000_000_000_000) }
{
    let end = digits_len(text);
    if end == 0 || end > MAX_DEGREE_DIGITS {
        return None;
    }
    let decimals = read_decimals(&text[end..])?;
    Some(digits_value(&text[..end]) * UNITS_OF_A_DEGREE + decimals)
}

/// The units that stand behind the whole degrees.
fn read_decimals(text: &[u8]) -> Option<u64>
    ensures value { result ≡ read_decimals text.now }
    ensures small { IfSome result (λ units. units < 1_000_000_000) }
{
    let Some((first, digits)) = text.split_first() else {
        return Some(0);
    };
    if *first == b'.' && are_decimals(digits) {
        Some(decimals_value(digits))
    } else {
        None
    }
}

/// Whether a text is one to seven digits.
fn are_decimals(text: &[u8]) -> bool
    ensures { result ≡ are_decimals text.now }
{
    !text.is_empty() && text.len() <= MAX_DECIMALS && are_digits(text)
}

/// The units that such digits spell: absent ones are zeros.
fn decimals_value(digits: &[u8]) -> u64
    requires { IsTrue (are_decimals digits.now) }
    ensures value { result ≡ decimals_value digits.now }
    ensures small { result < 1_000_000_000 }
{
    digits_value(digits) * 10u64.pow((MAX_DECIMALS - digits.len()) as u32)
}
