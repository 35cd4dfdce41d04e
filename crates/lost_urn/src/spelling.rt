//! Which texts spell a service: the prefix, each label from the left, and the number of labels.
ghost use Rattle.std.specs.Prelude.{◌≡◌, ◌≢◌, ◌++◌, IfSome, IfNone, IfOk, IfErr, IsOkAnd, length};
ghost use Rattle.lost_spec.specs.Text.{Text, lowered};
ghost use Rattle.lost_spec.specs.Service.{labels_fault, urn_prefix, read_service};
ghost use Rattle.lost_urn.specs.Spelling.{labels_in, AnswersFault, IsPlain};

use crate::label::{MAX_LEN, check_label};
use lost_spec::faults::UrnError;

/// What every service URN begins with, in lower case (RFC 5031, section 3).
pub(crate) const PREFIX: &[u8; 12] = b"urn:service:";

/// The most labels that a service has.
const MAX_LABELS: usize = 8;

/// The number of labels of the service that `text` spells, or the first refusal: the prefix, then each label
/// from the left, then the number of labels (own order).
pub(crate) fn count_labels(text: &[u8]) -> Result<usize, UrnError>
    ensures ok { IfOk result (λ n. IsOkAnd (read_service text.now) (λ s. n ≡ length s)) }
    ensures err { IfErr result (λ e. read_service text.now ≡ Err e) }
{
    let Some(labels) = strip_prefix(text) else {
        return Err(UrnError::Prefix);
    };
    check_labels(labels)
}

/// The number of labels of the service that `text` spells, where the text is plain: it has no upper case, and behind the
/// prefix at most 63 bytes. `None` says nothing of the text.
pub(crate) fn count_plain(text: &[u8]) -> Option<usize>
    ensures read { IfSome result (λ n. IsOkAnd (read_service text.now) (λ s. n ≡ length s)) }
    ensures lowercase { IfSome result (λ _. lowered text.now ≡ text.now) }
{
    count_plain_labels(strip_lowercase_prefix(text)?)
}

/// What follows the prefix in lower case.
fn strip_lowercase_prefix(text: &[u8]) -> Option<&[u8]>
    ensures { IfSome result (λ labels. text.now ≡ urn_prefix ++ labels.now) }
{
    let (front, labels) = text.split_at_checked(PREFIX.len())?;
    if front == PREFIX.as_slice() {
        Some(labels)
    } else {
        None
    }
}

/// The number of labels that have no upper case and at most 63 bytes with their dots, where nothing is refused. It reads
/// each byte once, and tests first what is frequent. `None` says nothing of the labels.
fn count_plain_labels(labels: &[u8]) -> Option<usize>
    ensures { IfSome result (λ n. IsPlain labels.now n) }
{
    if labels.len() > MAX_LEN {
        return None;
    }
    let mut depth = 1;
    // Whether the label so far is empty or ends with a hyphen.
    let mut unfinished = true;
    for byte in labels {
        if byte.is_ascii_lowercase() {
            unfinished = false;
        } else if *byte == b'.' && !unfinished {
            depth += 1;
            unfinished = true;
        } else if *byte == b'-' && !unfinished {
            unfinished = true;
        } else if byte.is_ascii_digit() {
            unfinished = false;
        } else {
            return None;
        }
    }
    if unfinished || depth > MAX_LABELS {
        return None;
    }
    Some(depth)
}

/// What follows the prefix, which may be in any case.
fn strip_prefix(text: &[u8]) -> Option<&[u8]>
    ensures found { IfSome result (λ labels. lowered text.now ≡ urn_prefix ++ lowered labels.now) }
    ensures missing { IfNone result ((rest : Text) → lowered text.now ≢ urn_prefix ++ rest) }
{
    let (front, labels) = text.split_at_checked(PREFIX.len())?;
    // Mostly it is in lower case, which one comparison tells.
    if front == PREFIX.as_slice() || front.eq_ignore_ascii_case(PREFIX) {
        Some(labels)
    } else {
        None
    }
}

/// The number of labels, or the first refusal: each label from the left, then their number (own order).
fn check_labels(labels: &[u8]) -> Result<usize, UrnError>
    ensures refusal { AnswersFault result (labels_fault (labels_in labels.now)) }
    ensures counted { IfOk result (λ n. n ≡ length (labels_in labels.now)) }
{
    let mut depth = 0;
    for label in labels.split(|b| *b == b'.') {
        check_label(label)?;
        depth += 1;
    }
    if depth > MAX_LABELS {
        return Err(UrnError::TooManyLabels);
    }
    Ok(depth)
}
