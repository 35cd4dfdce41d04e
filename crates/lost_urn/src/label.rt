//! One label, in any case, of a name whose labels are joined by dots, such as a service URN.
ghost use Rattle.std.specs.Prelude.{◌≡◌, ◌||◌};
ghost use Rattle.std.specs.List.{list_all};
ghost use Rattle.std.specs.Char.{to_ascii_lowercase};
ghost use Rattle.lost_spec.specs.Text.{lowered, first_is, last_is, is_hyphen};
ghost use Rattle.lost_spec.specs.Service.{is_label_byte, label_fault};
ghost use Rattle.lost_urn.specs.Spelling.{AnswersFault};

use lost_spec::faults::UrnError;

/// The most bytes that a label has.
pub(crate) const MAX_LEN: usize = 63;

/// Refuses a label that is empty, has a byte other than ASCII letters, digits and hyphens, begins or ends with a
/// hyphen, or has more than 63 bytes, in this order and in any case (RFC 5031, section 3; the length and the order are
/// own rules). It takes no memory, and checks the labels of sources too.
#[tactic(auto, using(crate::proofs::LabelLemmas::lowering))]
pub fn check_label(label: &[u8]) -> Result<(), UrnError>
    ensures { AnswersFault result (label_fault (lowered label.now)) }
{
    if label.is_empty() {
        return Err(UrnError::EmptyLabel);
    }
    if !has_only_label_bytes(label) {
        return Err(UrnError::BadCharacter);
    }
    if has_hyphen_at_end(label) {
        return Err(UrnError::HyphenAtEnd);
    }
    if label.len() > MAX_LEN {
        return Err(UrnError::LabelTooLong);
    }
    Ok(())
}

fn has_only_label_bytes(label: &[u8]) -> bool
    ensures { result ≡ list_all (λ b. is_label_byte (to_ascii_lowercase b)) label.now }
{
    label.iter().all(|b| is_label_byte(*b))
}

fn is_label_byte(byte: u8) -> bool
    ensures { result ≡ is_label_byte (to_ascii_lowercase byte) }
{
    byte.is_ascii_alphanumeric() || byte == b'-'
}

#[tactic(auto, using(crate::proofs::LabelLemmas::lowering))]
fn has_hyphen_at_end(label: &[u8]) -> bool
    ensures { result ≡ (first_is is_hyphen (lowered label.now) || last_is is_hyphen (lowered label.now)) }
{
    label.starts_with(b"-") || label.ends_with(b"-")
}
