//! Which texts are service numbers.
ghost use Rattle.std.specs.Prelude.{◌≡◌};
ghost use Rattle.std.specs.List.{list_all};
ghost use Rattle.std.specs.Option.{option_copied};
ghost use Rattle.lost_spec.specs.Mapping.{is_number as is_number_text, is_dial_byte as is_dial_byte_code};

/// The most bytes that a service number has.
pub const MAX_NUMBER_BYTES: usize = 64;

/// Whether a service number, where there is one, has 1 to 64 digits, stars and hashes (RFC 5222, section 5.7; the
/// length is an own rule).
#[tactic(auto, using(std::proofs::lemmas::Bool::Decides::nat_tests))]
pub(crate) fn is_number(number: Option<&str>) -> bool
    ensures { result ≡ is_number_text (option_copied number.entry) }
{
    let Some(text) = number else {
        return true;
    };
    !text.is_empty() && text.len() <= MAX_NUMBER_BYTES && has_only_dial_bytes(text.as_bytes())
}

fn has_only_dial_bytes(text: &[u8]) -> bool
    ensures { result ≡ list_all is_dial_byte_code text.now }
{
    text.iter().all(|byte| is_dial_byte(*byte))
}

fn is_dial_byte(byte: u8) -> bool
    ensures { result ≡ is_dial_byte_code byte }
{
    byte.is_ascii_digit() || byte == b'*' || byte == b'#'
}
