//! Whether two mappings have the same regions, and the same key.
ghost use Rattle.std.specs.Prelude.{◌≡◌};
ghost use Rattle.lost_spec.specs.Place.{same_regions};
ghost use Rattle.lost_spec.specs.Book.{same_key};

use lost_mapping::Mapping;

/// Whether the regions are the same, as given and in their order.
pub(crate) fn have_same_regions(one: &Mapping, other: &Mapping) -> bool
    ensures { result ≡ same_regions one.now.regions other.now.regions }
{
    one.regions().is_same(other.regions())
}

/// Whether the keys are the same, or both absent.
pub(crate) fn have_same_key(one: &Mapping, other: &Mapping) -> bool
    ensures { result ≡ same_key one.now.key other.now.key }
{
    match (one.key(), other.key()) {
        (Some(own), Some(theirs)) => own == theirs,
        (None, None) => true,
        _ => false,
    }
}
