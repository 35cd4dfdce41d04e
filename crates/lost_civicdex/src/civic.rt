//! The profile of civic addresses.

ghost use Rattle.std.specs.Prelude.{refl};
ghost use Rattle.lost_spec.specs.Civic.{matches};
ghost use Rattle.lost_civicdex.specs.Covers.{signature, may_match, IsPattern, IsAddress};
ghost use Rattle.lost_civicdex.specs.HashedKeys.{hashed_cover, hashed_keys};
ghost use Rattle.lost_civicdex.specs.HashedLaws.{hashed_civic_shares, hashed_cover_distinct, hashed_cover_bounded};
ghost use Rattle.lost_civicdex.specs.OutlineLaws.{match_is_near, equal_signatures_agree};

use crate::HashedKey;
use crate::texts::{find_last, hash_keys};
use lost_civic::{CivicAddress, CivicPattern, Element, Signature};
use lost_profile::Profile;
use std::alloc::{AllocError, Global};

/// Civic addresses among civic patterns (RFC 5222, section 12.3). A pattern is kept under the hashed key of its last
/// element in the order of the table, and an address is looked up under the hashed keys of all its known elements. An
/// outline is the pattern's signature.
pub struct Civic;

impl Profile for Civic {
    type Location = CivicAddress;

    type Region = CivicPattern;

    type Key = HashedKey;

    type Probes = Vec<HashedKey>;

    type Outline = Signature;

    ghost COVER_MAX = { 1 };

    const NAME: &'static str = "civic";

    const COVER_MAX: usize = 1;

    ghost is_region = { IsPattern };

    ghost is_location = { IsAddress };

    ghost holds = { matches };

    ghost cover_of = { hashed_cover };

    ghost probes_of = { hashed_keys };

    ghost outline_of = { signature };

    ghost may_hold = { may_match };

    ghost kind_of = { λ _. 0 };

    /// Whether each element of the pattern stands in the address with an equal comparison text (RFC 5222, section
    /// 12.3; the comparison is an own rule).
    fn contains(region: &CivicPattern, location: &CivicAddress) -> bool {
        region.matches(location)
    }

    /// The hashed key of the pattern's last element, alone.
    fn key_at(region: &CivicPattern, position: usize) -> Option<HashedKey> {
        if position > 0 {
            return None;
        }
        match find_last(region) {
            Some((element, text)) => Some(HashedKey::new(element, text)),
            None => None,
        }
    }

    fn has_key(region: &CivicPattern, key: &HashedKey) -> bool {
        match find_last(region) {
            Some((element, text)) => *key == HashedKey::new(element, text),
            None => false,
        }
    }

    /// The hashed keys of the address's known elements, in the order of the table.
    fn probes(alloc: Global, location: &CivicAddress) -> Result<Vec<HashedKey>, AllocError> {
        let room = location.pairs().len().min(Element::ALL.len());
        hash_keys(alloc, location, &Element::ALL, room)
    }

    /// The signature of the pattern.
    fn outline(region: &CivicPattern) -> Signature {
        // Shows to the proof that it is a pattern.
        let _pairs = region.pairs();
        region.signature()
    }

    /// Whether each bit of the outline is set in the address's signature.
    fn is_near(outline: &Signature, location: &CivicAddress) -> bool {
        outline.is_within(&location.signature())
    }

    /// All keys are of one kind.
    fn key_kind(_key: &HashedKey) -> usize {
        0
    }

    ghost cover_meets_probes = { λ region location lawful _ holds. hashed_civic_shares region location lawful holds };

    ghost cover_is_distinct = { λ region _. hashed_cover_distinct _ region };

    ghost cover_is_bounded = { λ region _. hashed_cover_bounded region };

    ghost holder_is_near = { λ region location _ _ holds. match_is_near region location holds };

    ghost equal_outlines_agree = { equal_signatures_agree };

    ghost equal_keys_are_of_one_kind = { λ _ _ _. refl };
}
