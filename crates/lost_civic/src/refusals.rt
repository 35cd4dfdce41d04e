//! Which lists of pairs are no address, and which are no pattern (own rule).

ghost use Rattle.std.specs.Prelude.{◌≡◌, ◌||◌, length, nat_lt};
ghost use Rattle.std.specs.List.{list_any, list_all};
ghost use Rattle.lost_spec.specs.Text.{is_among, has_repeat};
ghost use Rattle.lost_spec.specs.Civic.{names_of, is_known, is_too_long, address_fault, pattern_fault};
ghost use Rattle.lost_civic.specs.Pairs.{seen_pairs, shared_fault};

use crate::Element;
use lost_spec::faults::CivicError;

/// The most pairs that an address or a pattern has.
pub(crate) const MAX_PAIRS: usize = 128;

/// The most bytes that a name or a value has.
pub const MAX_TEXT_BYTES: usize = 512;

/// The first refusal of an address, other than memory: too long, a name twice, no known name.
pub(crate) fn first_address_fault(pairs: &[(String, String)]) -> Option<CivicError>
    ensures { result ≡ address_fault (seen_pairs pairs.now) }
{
    match first_shared_fault(pairs) {
        None if !knows_some_name(pairs) => Some(CivicError::NoKnownElement),
        found => found,
    }
}

/// The first refusal of a pattern, other than memory: too long, a name twice, an unknown name, no name at all.
pub(crate) fn first_pattern_fault(pairs: &[(String, String)]) -> Option<CivicError>
    ensures { result ≡ pattern_fault (seen_pairs pairs.now) }
{
    match first_shared_fault(pairs) {
        None if !knows_each_name(pairs) => Some(CivicError::UnknownElement),
        None if !knows_some_name(pairs) => Some(CivicError::NoKnownElement),
        found => found,
    }
}

/// The first refusal of both, other than memory: too long, a name twice.
fn first_shared_fault(pairs: &[(String, String)]) -> Option<CivicError>
    ensures { result ≡ shared_fault (seen_pairs pairs.now) }
{
    if exceeds_limits(pairs) {
        Some(CivicError::TooLong)
    } else if repeats_name(pairs) {
        Some(CivicError::Repeated)
    } else {
        None
    }
}

fn exceeds_limits(pairs: &[(String, String)]) -> bool
    ensures { result ≡ is_too_long (seen_pairs pairs.now) }
{
    pairs.len() > MAX_PAIRS
        || pairs
            .iter()
            .any(|pair| is_long(pair.0.as_str(), pair.1.as_str()))
}

/// Whether a name or a value has too many bytes.
#[tactic(auto, using(std::proofs::lemmas::Bool::Decides::nat_tests))]
pub(crate) fn is_long(name: &str, value: &str) -> bool
    ensures { result ≡ (nat_lt 512 (length name.now) || nat_lt 512 (length value.now)) }
{
    name.len() > MAX_TEXT_BYTES || value.len() > MAX_TEXT_BYTES
}

/// Whether a name stands twice. The time is quadratic in the number of pairs, at most 128 here.
fn repeats_name(pairs: &[(String, String)]) -> bool
    ensures { result ≡ has_repeat (names_of (seen_pairs pairs.now)) }
{
    let mut rest = pairs;
    while let Some((pair, others)) = rest.split_first() {
        if has_name(others, pair.0.as_str()) {
            return true;
        }
        rest = others;
    }
    false
}

fn has_name(pairs: &[(String, String)], name: &str) -> bool
    ensures { result ≡ is_among name.now (names_of (seen_pairs pairs.now)) }
{
    pairs.iter().any(|pair| name == pair.0.as_str())
}

fn knows_some_name(pairs: &[(String, String)]) -> bool
    ensures { result ≡ list_any is_known (names_of (seen_pairs pairs.now)) }
{
    pairs.iter().any(|pair| knows(pair.0.as_str()))
}

fn knows_each_name(pairs: &[(String, String)]) -> bool
    ensures { result ≡ list_all is_known (names_of (seen_pairs pairs.now)) }
{
    pairs.iter().all(|pair| knows(pair.0.as_str()))
}

pub(crate) fn knows(name: &str) -> bool
    ensures { result ≡ is_known name.now }
{
    Element::by_name(name).is_some()
}
