//! The profile of the elements that a pattern names.

ghost use Rattle.std.specs.Prelude.{◌≡◌, true, refl, IfOk};
ghost use Rattle.lost_civicdex.specs.Covers.{IsPattern};
ghost use Rattle.lost_civicdex.specs.NamedElements.{names_element, named_cover, element_probes};
ghost use Rattle.lost_civicdex.specs.NamedLaws.{named_shares, named_distinct, named_bounded};

use crate::texts::find_nth;
use lost_civic::{CivicPattern, Element};
use lost_profile::Profile;
use std::alloc::{AllocError, Global};

/// Elements among civic patterns: a pattern contains an element where it names it. So an index finds the patterns that
/// name an element of an address in a validation (RFC 5222, section 8.4.2; the policy is an own rule). A pattern is kept
/// under each element that it names, and an element is looked up under itself. An outline tells nothing.
pub struct Named;

/// Whether the pattern names the element.
fn names(pattern: &CivicPattern, element: Element) -> bool
    ensures { result ≡ names_element pattern.now element }
{
    pattern.text(element).is_some()
}

impl Profile for Named {
    type Location = Element;

    type Region = CivicPattern;

    type Key = Element;

    type Probes = [Element; 1];

    type Outline = ();

    ghost COVER_MAX = { 31 };

    const NAME: &'static str = "civic-elements";

    const COVER_MAX: usize = 31;

    ghost is_region = { IsPattern };

    ghost is_location = { λ _. Unit {0} };

    ghost holds = { names_element };

    ghost cover_of = { named_cover };

    ghost probes_of = { element_probes };

    ghost outline_of = { λ _. tt };

    ghost may_hold = { λ _ _. true };

    ghost kind_of = { λ _. 0 };

    /// Whether the pattern names the element.
    fn contains(region: &CivicPattern, location: &Element) -> bool {
        names(region, *location)
    }

    /// The elements that the pattern names, in the order of the table.
    fn key_at(region: &CivicPattern, position: usize) -> Option<Element> {
        match find_nth(region, position) {
            Some((element, _)) => Some(element),
            None => None,
        }
    }

    fn has_key(region: &CivicPattern, key: &Element) -> bool {
        names(region, *key)
    }

    /// The element, alone.
    fn probes(_alloc: Global, location: &Element) -> Result<[Element; 1], AllocError> {
        Ok([*location])
    }

    fn outline(region: &CivicPattern) {
        // Shows to the proof that it is a pattern.
        let _pairs = region.pairs();
    }

    fn is_near(_outline: &(), _location: &Element) -> bool {
        true
    }

    /// All keys are of one kind.
    fn key_kind(_key: &Element) -> usize {
        0
    }

    ghost cover_meets_probes = { λ region location _ _ holds. named_shares region location holds };

    ghost cover_is_distinct = { λ region _. named_distinct _ (λ _ _. refl) region };

    ghost cover_is_bounded = { λ region _. named_bounded region };

    ghost holder_is_near = { λ _ _ _ _ _. refl };

    ghost equal_outlines_agree = { λ _ _ _ _. refl };

    ghost equal_keys_are_of_one_kind = { λ _ _ _. refl };
}
