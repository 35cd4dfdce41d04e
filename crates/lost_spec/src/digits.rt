//! Numbers in decimal digits.
ghost use Rattle.std.specs.Prelude.{◌≡◌, ◌+◌, ◌*◌, ◌^◌, ◌≤◌, length};
ghost use Rattle.std.specs.List.{list_all};
ghost use Rattle.lost_spec.specs.Text.{is_digit};
ghost use Rattle.lost_spec.specs.Moment.{digits_value};

/// Whether each byte is a decimal digit.
pub fn are_digits(text: &[u8]) -> bool
    ensures { result ≡ list_all is_digit text.now }
{
    text.iter().all(|byte| byte.is_ascii_digit())
}

/// The number that at most nine decimal digits spell. A byte below `0` counts as 0: the caller tests the digits.
pub fn digits_value(digits: &[u8]) -> u64
    requires { length digits.now ≤ 9 }
    ensures value { result ≡ digits_value digits.now }
    ensures small { result + 23 ≤ 23 * 10 ^ length digits.now }
{
    let mut value = 0;
    for digit in digits {
        value = value * 10 + u64::from(digit.saturating_sub(b'0'));
    }
    value
}
