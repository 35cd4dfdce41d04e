//! Which texts are sources: their length, and each of their labels.
ghost use Rattle.std.specs.Prelude.{◌≡◌, is_none};
ghost use Rattle.std.specs.List.{list_all};
ghost use Rattle.lost_spec.specs.Text.{lowered};
ghost use Rattle.lost_spec.specs.Service.{label_fault, split_at_dots};
ghost use Rattle.lost_spec.specs.Mapping.{is_source};

use lost_urn::check_label;

/// The most bytes that a source has.
pub const MAX_SOURCE_BYTES: usize = 253;

/// Whether a text is a source: 1 to 253 bytes, and labels joined by single dots, in any case (RFC 5222, section 5.1;
/// own spelling).
pub(crate) fn is_source(text: &[u8]) -> bool
    ensures { result ≡ is_source text.now }
{
    !text.is_empty() && text.len() <= MAX_SOURCE_BYTES && has_labels(text)
}

fn has_labels(text: &[u8]) -> bool
    ensures { result ≡ list_all (λ label. is_none (label_fault (lowered label))) (split_at_dots text.now) }
{
    text.split(|b| *b == b'.').all(is_label)
}

/// Whether a text is a label: 1 to 63 ASCII letters, digits and hyphens, and no hyphen at either end.
fn is_label(text: &[u8]) -> bool
    ensures { result ≡ is_none (label_fault (lowered text.now)) }
{
    check_label(text).is_ok()
}
