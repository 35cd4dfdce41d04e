//! The profile of elements that a pattern must name.

ghost use Rattle.std.specs.Prelude.{◌≡◌, refl};
ghost use Rattle.lost_spec.specs.Civic.{has_value};
ghost use Rattle.lost_civic.specs.Element.{element_name};
ghost use Rattle.lost_civicdex.specs.Covers.{names_all, signature, may_name, IsPattern, IsRequirement};
ghost use Rattle.lost_civicdex.specs.HashedKeys.{hashed_keys, hashed_probes};
ghost use Rattle.lost_civicdex.specs.HashedLaws.{hashed_required_shares, hashed_keys_distinct, hashed_keys_bounded};
ghost use Rattle.lost_civicdex.specs.OutlineLaws.{named_is_near, equal_signatures_agree_on_keys};

use crate::texts::find_nth;
use crate::{ElementKey, HashedKey, RequiredElements};
use lost_civic::{CivicPattern, Element, Signature};
use lost_profile::Profile;
use std::alloc::{AllocError, Global};

/// Required elements among civic patterns: a pattern contains them where it names each of them with its comparison
/// text. So an index finds the patterns that are references for an address in a validation (RFC 5222, section 8.4.2;
/// the policy is an own rule). A pattern is kept under the hashed keys of all its elements, in the order of the
/// table, and required elements are looked up under that of the last of them. An outline is the pattern's signature.
pub struct References;

/// Whether the pattern names the key's element with the key's comparison text.
fn names_key(pattern: &CivicPattern, key: &ElementKey) -> bool
    ensures { result ≡ has_value pattern.now (element_name key.now.0) key.now.1 }
{
    match pattern.text(key.element()) {
        Some(own) => own == key.text(),
        None => false,
    }
}

impl Profile for References {
    type Location = RequiredElements;

    type Region = CivicPattern;

    type Key = HashedKey;

    type Probes = Vec<HashedKey>;

    type Outline = Signature;

    ghost COVER_MAX = { 31 };

    const NAME: &'static str = "civic-references";

    const COVER_MAX: usize = 31;

    ghost is_region = { IsPattern };

    ghost is_location = { IsRequirement };

    ghost holds = { names_all };

    ghost cover_of = { hashed_keys };

    ghost probes_of = { hashed_probes };

    ghost outline_of = { signature };

    ghost may_hold = { may_name };

    ghost kind_of = { λ _. 0 };

    /// Whether the pattern names each required element with its comparison text.
    fn contains(region: &CivicPattern, location: &RequiredElements) -> bool {
        location.keys().iter().all(|key| names_key(region, key))
    }

    /// The hashed keys of the pattern's elements, in the order of the table.
    fn key_at(region: &CivicPattern, position: usize) -> Option<HashedKey> {
        match find_nth(region, position) {
            Some((element, text)) => Some(HashedKey::new(element, text)),
            None => None,
        }
    }

    fn has_key(region: &CivicPattern, key: &HashedKey) -> bool {
        match region.text(key.element()) {
            Some(text) => *key == HashedKey::new(key.element(), text),
            None => false,
        }
    }

    /// The hashed key of the last required element, alone.
    fn probes(alloc: Global, location: &RequiredElements) -> Result<Vec<HashedKey>, AllocError> {
        let last = location.keys().last();
        let mut keys = Vec::with_capacity(alloc, 1)?;
        match last {
            Some(key) => keys.push(HashedKey::new(key.element(), key.text()))?,
            None => {}
        }
        Ok(keys)
    }

    /// The signature of the pattern.
    fn outline(region: &CivicPattern) -> Signature {
        // Shows to the proof that it is a pattern.
        let _pairs = region.pairs();
        region.signature()
    }

    /// Whether each bit of the required elements is set in the outline.
    fn is_near(outline: &Signature, location: &RequiredElements) -> bool {
        location.signature().is_within(outline)
    }

    /// All keys are of one kind.
    fn key_kind(_key: &HashedKey) -> usize {
        0
    }

    ghost cover_meets_probes = { λ region location _ some holds. hashed_required_shares region location some holds };

    ghost cover_is_distinct = { λ region _. hashed_keys_distinct _ (λ _ _. refl) region };

    ghost cover_is_bounded = { λ region _. hashed_keys_bounded region };

    ghost holder_is_near = { λ region location _ _ holds. named_is_near region location holds };

    ghost equal_outlines_agree = { equal_signatures_agree_on_keys };

    ghost equal_keys_are_of_one_kind = { λ _ _ _. refl };
}
