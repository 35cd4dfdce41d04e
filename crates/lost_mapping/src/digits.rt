//! Numbers in decimal digits.
ghost use Rattle.std.specs.Prelude.{◌≡◌, ◌+◌, ◌≤◌, length};
ghost use Rattle.lost_mapping.specs.StampText.{number_in};

use lost_spec::digits_value;

/// The number that stands in a text from one position up to another.
pub(crate) fn number_at(text: &[u8], from: usize, to: usize) -> u64
    requires ordered { from ≤ to }
    requires within { to ≤ length text.now }
    requires short { to ≤ from + 9 }
    ensures { result ≡ number_in text.now from to }
{
    digits_value(&text[from..to])
}
