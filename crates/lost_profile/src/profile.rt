//! The trait of a kind of location, with its laws.
ghost use Rattle.std.specs.Prelude.{◌≡◌, ℕ, ◌<◌, ◌≤◌, Bool, List, length, slice_get, IsTrue, IfOk};
ghost use Rattle.std.specs.List.{IsDistinct, list_any};
ghost use Rattle.lost_profile.specs.Keys.{SharesKey};

use std::alloc::{AllocError, Global};
use std::convert::AsSlice;
use std::hash::Hash;

/// The greatest number of kinds of keys of a profile.
pub const KINDS: usize = 8;

/// A kind of location, and of the regions that contain such locations (RFC 5222, section 12). A region is kept under
/// the keys of its cover, and a location is looked up under its probes. An outline rules out regions cheaply.
/// A profile is chosen by its type alone, so no call takes a `self`.
pub trait Profile {
    /// A location of a request.
    type Location;

    /// An area that a mapping serves, or a part of one.
    type Region: Drop;

    /// A key under which regions are kept.
    type Key: Ord + Hash + Drop;

    /// The keys under which a location is looked up, as a list: an array where their number is fixed.
    type Probes: AsSlice<Self::Key> + Drop;

    /// A value, cheap to copy and compare, that can tell that a region does not contain a location.
    type Outline: Copy + Eq;

    /// The number `COVER_MAX` in contracts.
    ghost COVER_MAX: { ℕ };

    /// The name of the profile, as in requests (RFC 5222, section 12).
    const NAME: &'static str;

    /// The greatest number of keys of a cover.
    const COVER_MAX: usize;

    /// The property of every region.
    ghost is_region: { Self.Region → Type 0 };

    /// The property of every location.
    ghost is_location: { Self.Location → Type 0 };

    /// Whether the region contains the location.
    ghost holds: { Self.Region → Self.Location → Bool };

    /// The keys under which a region is kept.
    ghost cover_of: { Self.Region → List Self.Key };

    /// The keys under which a location is looked up.
    ghost probes_of: { Self.Location → List Self.Key };

    /// The outline of a region.
    ghost outline_of: { Self.Region → Self.Outline };

    /// Whether a region with this outline may contain the location.
    ghost may_hold: { Self.Outline → Self.Location → Bool };

    /// The kind of a key.
    ghost kind_of: { Self.Key → ℕ };

    /// Whether the region contains the location. It takes no memory.
    fn contains(region: &Self::Region, location: &Self::Location) -> bool
        ensures { result ≡ holds region.now location.now };

    /// The keys under which the region is kept: each once, and at most `COVER_MAX`.
    fn cover(alloc: Global, region: &Self::Region) -> Result<Vec<Self::Key>, AllocError>
        ensures keys { IfOk result (λ keys. keys.items ≡ cover_of region.now) }
        ensures is_region { is_region region.now }
    {
        // Shows to the proof that it is a region.
        let _outline = Self::outline(region);
        let mut keys = Vec::new(alloc);
        for position in 0..Self::COVER_MAX {
            let Some(key) = Self::key_at(region, position) else {
                return Ok(keys);
            };
            keys.push(key)?;
        }
        Ok(keys)
    }

    /// The key at a position of the cover; `None` behind its end. It takes no memory.
    fn key_at(region: &Self::Region, position: usize) -> Option<Self::Key>
        ensures { result ≡ slice_get (cover_of region.now) position };

    /// Whether some key of the cover is equal to this one. It takes no memory.
    fn has_key(region: &Self::Region, key: &Self::Key) -> bool
        ensures { result ≡ list_any (Self.Key.eq key.now) (cover_of region.now) };

    /// The keys under which the location is looked up.
    fn probes(alloc: Global, location: &Self::Location) -> Result<Self::Probes, AllocError>
        ensures keys { IfOk result (λ keys. Self.Probes.items keys ≡ probes_of location.now) }
        ensures is_location { is_location location.now };

    /// The outline of the region. It takes no memory.
    fn outline(region: &Self::Region) -> Self::Outline
        ensures outline { result ≡ outline_of region.now }
        ensures is_region { is_region region.now };

    /// Whether a region with this outline may contain the location. It takes no memory.
    fn is_near(outline: &Self::Outline, location: &Self::Location) -> bool
        ensures { result ≡ may_hold outline.now location.now };

    /// The kind of the key: a number below [`KINDS`]. An index passes over keys of the kinds under which it never kept a
    /// region. It takes no memory.
    fn key_kind(key: &Self::Key) -> usize
        ensures kind { result ≡ kind_of key.now }
        ensures in_range { result < KINDS };

    /// COVER: where a region contains a location, some key is both in the cover and in the probes.
    ghost cover_meets_probes: { (region : Self.Region) (location : Self.Location) → is_region region → is_location location
        → IsTrue (holds region location) → SharesKey (cover_of region) (probes_of location) };

    /// DISTINCT: no key stands twice in a cover.
    ghost cover_is_distinct: { (region : Self.Region) → is_region region → IsDistinct Self.Key.eq (cover_of region) };

    /// BOUND: a cover has at most `COVER_MAX` keys.
    ghost cover_is_bounded: { (region : Self.Region) → is_region region → length (cover_of region) ≤ COVER_MAX };

    /// NEAR: where a region contains a location, its outline says that it may.
    ghost holder_is_near: { (region : Self.Region) (location : Self.Location) → is_region region → is_location location
        → IsTrue (holds region location) → IsTrue (may_hold (outline_of region) location) };

    /// ALIKE: equal outlines say the same of each location.
    ghost equal_outlines_agree: { (outline other : Self.Outline) (location : Self.Location)
        → IsTrue (Self.Outline.eq outline other) → may_hold outline location ≡ may_hold other location };

    /// KIND: equal keys are of one kind.
    ghost equal_keys_are_of_one_kind: { (key other : Self.Key) → IsTrue (Self.Key.eq key other) → kind_of key ≡ kind_of other };
}
