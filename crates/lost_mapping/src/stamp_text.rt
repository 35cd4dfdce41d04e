//! Which texts are stamps, such as `2026-01-01T00:00:00Z`, and the instant of each (RFC 3339 in UTC; own bounds).
ghost use Rattle.std.specs.Prelude.{◌≡◌, ◌+◌, ◌*◌, ◌<◌, ◌≤◌, ◌&&◌, IsTrue, IfSome, is_some, length};
ghost use Rattle.std.specs.List.{list_all};
ghost use lib.Pointwise.{pointwise};
ghost use Rattle.lost_spec.specs.Text.{is_between, is_digit};
ghost use Rattle.lost_spec.specs.Moment.{fits_shape, is_date, is_time, day_number, is_fraction, fraction_value, read_end, is_stamp, moment_of};
ghost use Rattle.lost_mapping.specs.StampText.{number_in, has_shape, end_of};

use crate::calendar::day_number;
use crate::digits::number_at;
use crate::moment::Moment;
use lost_spec::{are_digits, digits_value};

/// The first 19 bytes of a stamp, in which 0 stands for any digit.
const SHAPE: &[u8; 19] = b"0000-00-00T00:00:00";

/// The most digits of a fraction of a second, which are nanoseconds.
const MAX_FRACTION_LEN: usize = 9;

/// The nanoseconds of a second.
const NANOSECONDS_OF_A_SECOND: u64 = 1_000_000_000;

/// The instant that a stamp names, or `None` where the text is no stamp.
pub(crate) fn read_moment(text: &[u8]) -> Option<Moment>
    ensures exists { is_some result ≡ is_stamp text.now }
    ensures value { IfSome result (λ m. m ≡ moment_of text.now) }
{
    if !has_shape(text) {
        return None;
    }
    let day = day_in(text)?;
    let second = second_of_day_in(text)?;
    let fraction = fraction_in(text)?;
    Moment::new(day, second * NANOSECONDS_OF_A_SECOND + fraction)
}

// ---- the date and the time of day

/// Whether the text begins with digits and signs in the positions of a stamp's.
fn has_shape(text: &[u8]) -> bool
    ensures value { result ≡ has_shape text.now }
    ensures long { IsTrue result → 19 ≤ length text.now }
{
    match text.get(..SHAPE.len()) {
        Some(front) => fits_shapes(SHAPE, front),
        None => false,
    }
}

fn fits_shapes(shapes: &[u8], text: &[u8]) -> bool
    requires { length shapes.now ≡ length text.now }
    ensures { result ≡ pointwise fits_shape shapes.now text.now }
{
    shapes
        .iter()
        .zip(text)
        .all(|(shape, byte)| fits_shape(*shape, *byte))
}

fn fits_shape(shape: u8, byte: u8) -> bool
    ensures { result ≡ fits_shape shape byte }
{
    if shape == b'0' {
        byte.is_ascii_digit()
    } else {
        byte == shape
    }
}

/// The day number of the date in the text, or `None` where the calendar has no such day.
fn day_in(text: &[u8]) -> Option<i32>
    requires { 19 ≤ length text.now }
    ensures exists { is_some result
        ≡ is_date (number_in text.now 0 4) (number_in text.now 5 7) (number_in text.now 8 10) }
    ensures value { IfSome result
        (λ n. n ≡ day_number (number_in text.now 0 4) (number_in text.now 5 7) (number_in text.now 8 10)) }
{
    day_number(
        number_at(text, 0, 4),
        number_at(text, 5, 7),
        number_at(text, 8, 10),
    )
}

/// The second of the day in the text, or `None` where the clock has no such second.
fn second_of_day_in(text: &[u8]) -> Option<u64>
    requires { 19 ≤ length text.now }
    ensures exists { is_some result
        ≡ is_time (number_in text.now 11 13) (number_in text.now 14 16) (number_in text.now 17 19) }
    ensures value { IfSome result
        (λ n. n ≡ (number_in text.now 11 13 * 60 + number_in text.now 14 16) * 60 + number_in text.now 17 19) }
    ensures small { IfSome result (λ n. n < 86_400) }
{
    second_of_day(
        number_at(text, 11, 13),
        number_at(text, 14, 16),
        number_at(text, 17, 19),
    )
}

fn second_of_day(hour: u64, minute: u64, second: u64) -> Option<u64>
    ensures exists { is_some result ≡ is_time hour minute second }
    ensures value { IfSome result (λ n. n ≡ (hour * 60 + minute) * 60 + second) }
    ensures small { IfSome result (λ n. n < 86_400) }
{
    if hour > 23 || minute > 59 || second > 59 {
        return None;
    }
    Some((hour * 60 + minute) * 60 + second)
}

// ---- the fraction of a second, and the end

/// The nanoseconds that follow the whole second in the text, or `None` where the text does not end as a stamp does.
fn fraction_in(text: &[u8]) -> Option<u64>
    requires { 19 ≤ length text.now }
    ensures value { result ≡ end_of text.now }
    ensures small { IfSome result (λ n. n < 1_000_000_000) }
{
    read_end(&text[SHAPE.len()..])
}

fn read_end(text: &[u8]) -> Option<u64>
    ensures value { result ≡ read_end text.now }
    ensures small { IfSome result (λ n. n < 1_000_000_000) }
{
    let (first, rest) = text.split_first()?;
    if *first == b'Z' && rest.is_empty() {
        return Some(0);
    }
    if *first == b'.' && is_fraction(rest) {
        return Some(fraction_value(rest));
    }
    None
}

/// Whether the text is one to nine digits and then `Z`.
fn is_fraction(text: &[u8]) -> bool
    ensures { result ≡ is_fraction text.now }
{
    match text.split_last() {
        Some((last, digits)) => *last == b'Z' && are_fraction_digits(digits),
        None => false,
    }
}

fn are_fraction_digits(digits: &[u8]) -> bool
    ensures { result ≡ (is_between 1 9 (length digits.now) && list_all is_digit digits.now) }
{
    !digits.is_empty() && digits.len() <= MAX_FRACTION_LEN && are_digits(digits)
}

/// The nanoseconds that such digits spell: those that are absent are zeros.
fn fraction_value(text: &[u8]) -> u64
    requires { IsTrue (is_fraction text.now) }
    ensures value { result ≡ fraction_value text.now }
    ensures small { result < 1_000_000_000 }
{
    let digits = &text[..text.len() - 1];
    digits_value(digits) * 10u64.pow((MAX_FRACTION_LEN - digits.len()) as u32)
}
