//! The location of a request that is used.
ghost use Rattle.std.specs.Prelude.{◌≡◌, map, option_map, is_some};
ghost use Rattle.std.specs.Option.{option_copied};
ghost use Rattle.lost_spec.specs.Place.{kind_of};
ghost use Rattle.lost_spec.specs.Answer.{location_used};
ghost use Rattle.lost_mapping.specs.Request.{location_of, locations_of};

use lost_location::kind_of;
use lost_mapping::{Location, Locations};

/// Whether the server knows a profile (RFC 5222, section 12.1).
fn is_known(profile: &str) -> bool
    ensures { result ≡ is_some (kind_of profile.now) }
{
    kind_of(profile).is_some()
}

/// The first location of a known profile (RFC 5222, section 12.1).
pub(crate) fn location_used<'r, 'a>(locations: &'r Locations<'a>) -> Option<&'r Location<'a>>
    ensures { option_map location_of (option_copied result) ≡ location_used (locations_of locations.now) }
{
    if is_known(locations.first.profile.as_str()) {
        return Some(&locations.first);
    }
    first_used(&locations.rest)
}

/// The first of these locations that has a known profile.
fn first_used<'r, 'a>(locations: &'r [Location<'a>]) -> Option<&'r Location<'a>>
    ensures { option_map location_of (option_copied result) ≡ location_used (map location_of locations.now) }
{
    locations
        .iter()
        .find(|location| is_known(location.profile.as_str()))
}
