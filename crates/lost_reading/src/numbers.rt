//! Numbers, by their text.
ghost use Rattle.std.specs.Prelude.{◌≡◌, ◌==◌, true, false, option_map, slice_index};
ghost use Rattle.serde_json.specs.Read.{number_of, number_from, float_of};
ghost use Rattle.serde_json.specs.View.{number_view};

use fast_float::Numeral;
use serde_json::Number;

/// The number of a token's text, as serde_json reads it: nothing where it is too large for a float.
pub(crate) fn number(text: &str) -> Option<Number>
    ensures { option_map number_view result ≡ number_of text.now }
{
    let bytes = text.as_bytes();
    if has_minus(bytes) {
        with_minus(&Numeral::scan(&bytes[1..]))
    } else {
        without_minus(&Numeral::scan(bytes))
    }
}

fn has_minus(bytes: &[u8]) -> bool
    ensures { result ≡ (slice_index bytes.now 0 == 45) }
{
    !bytes.is_empty() && bytes[0] == b'-'
}

fn without_minus(numeral: &Numeral<'_>) -> Option<Number>
    ensures { option_map number_view result ≡ number_from false numeral.now }
{
    match numeral.to_u64() {
        Some(whole) => Some(Number::from(whole)),
        None => nearest(false, numeral),
    }
}

/// A number with a minus before it: `-0` is a float.
fn with_minus(numeral: &Numeral<'_>) -> Option<Number>
    ensures { option_map number_view result ≡ number_from true numeral.now }
{
    if let Some(whole) = numeral.to_i64(true) {
        if whole < 0 {
            return Some(Number::from(whole));
        }
    }
    nearest(true, numeral)
}

/// The nearest float, where it is finite.
fn nearest(has_minus: bool, numeral: &Numeral<'_>) -> Option<Number>
    ensures { option_map number_view result ≡ float_of has_minus numeral.now }
{
    Number::from_f64(numeral.to_float::<f64>(has_minus))
}
