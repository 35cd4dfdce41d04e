//! Whole numbers, by their text.
ghost use Rattle.std.specs.Prelude.{◌≡◌, ◌≢◌, ◌==◌, ◌≤◌, ◌<◌, ◌^◌, ◌++◌, [], ◌∷◌, true, false, Some, IfSome, length, take, slice_index, decimal, option_and_then};
ghost use Rattle.std.specs.Bool.{OnTrue};
ghost use Rattle.std.specs.Fmt.{signed_decimal};
ghost use Rattle.std.specs.Str.Parse.{AllDigits, digits_value};
ghost use Rattle.serde_json.specs.Find.{as_i64};
ghost use Rattle.serde_json.specs.Read.{number_of, number_from};
ghost use Rattle.lost_tape.specs.Numbers.{IsNumberBefore};

use fast_float::Numeral;

/// More than any number of a position: the digits behind such a number are not read.
const ENOUGH: u64 = 10_000_000_000;

/// The whole number of a token's text, if it fits in 64 bits. `None` says nothing about the text.
pub(crate) fn whole_number(text: &str) -> Option<i64>
    ensures { IfSome result (λ number. option_and_then as_i64 (number_of text.now) ≡ Some number) }
{
    let bytes = text.as_bytes();
    if has_minus(bytes) {
        below_zero(&Numeral::scan(&bytes[1..]))
    } else {
        from_zero(&Numeral::scan(bytes))
    }
}

fn has_minus(bytes: &[u8]) -> bool
    ensures { result ≡ (slice_index bytes.now 0 == 45) }
{
    !bytes.is_empty() && bytes[0] == b'-'
}

fn from_zero(numeral: &Numeral<'_>) -> Option<i64>
    ensures { IfSome result (λ number. option_and_then as_i64 (number_from false numeral.now) ≡ Some number) }
{
    numeral.to_i64(false)
}

/// A number below zero: `-0` is no whole number.
fn below_zero(numeral: &Numeral<'_>) -> Option<i64>
    ensures { IfSome result (λ number. option_and_then as_i64 (number_from true numeral.now) ≡ Some number) }
{
    let number = numeral.to_i64(true)?;
    if number < 0 { Some(number) } else { None }
}

/// The whole number that a text begins with, and what follows it.
#[inline]
pub(crate) fn read_number(text: &[u8]) -> Option<(i64, &[u8])>
    ensures { IfSome result (λ found. IsNumberBefore text.now found.0 found.1.now) }
{
    match text.split_first() {
        Some((b'-', digits)) => read_below_zero(digits),
        _ => read_from_zero(text),
    }
}

fn read_from_zero(text: &[u8]) -> Option<(i64, &[u8])>
    ensures { IfSome result (λ found. IsNumberBefore text.now found.0 found.1.now) }
{
    let (value, rest) = read_digits(text)?;
    Some((value as i64, rest))
}

/// A number below zero, by what follows its sign: `-0` is no whole number.
fn read_below_zero(digits: &[u8]) -> Option<(i64, &[u8])>
    ensures { IfSome result (λ found. IsNumberBefore (45 ∷ digits.now) found.0 found.1.now) }
{
    let (value, rest) = read_digits(digits)?;
    if value == 0 {
        None
    } else {
        Some((-(value as i64), rest))
    }
}

/// The digits that a text begins with, as a number, and what follows them.
fn read_digits(text: &[u8]) -> Option<(u64, &[u8])>
    ensures text { IfSome result (λ found. text.now ≡ decimal found.0 ++ found.1.now) }
    ensures small { IfSome result (λ found. found.0 < 100_000_000_000) }
{
    let (value, end) = count_digits(text);
    if is_decimal(text, end) {
        Some((value, &text[end..]))
    } else {
        None
    }
}

/// Whether the first digits of a text are a number: one or more, and no zero before another digit.
fn is_decimal(text: &[u8], end: usize) -> bool
    requires { end ≤ length text.now }
    ensures { OnTrue result ((0 < end) × (slice_index text.now 0 ≡ 48 → end ≡ 1)) }
{
    end == 1 || (end > 1 && text[0] != b'0')
}

/// The number that the first digits of a text spell, and how many these are.
fn count_digits(text: &[u8]) -> (u64, usize)
    ensures within { result.1 ≤ length text.now }
    ensures digits { AllDigits 10 (take result.1 text.now) }
    ensures value { result.0 ≡ digits_value 10 (take result.1 text.now) }
    ensures small { result.0 < 100_000_000_000 }
{
    let mut value = 0;
    let mut at = 0;
    while at < text.len() && text[at].is_ascii_digit() && value < ENOUGH {
        value = value * 10 + u64::from(text[at] - b'0');
        at += 1;
    }
    (value, at)
}
