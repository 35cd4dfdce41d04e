//! How the mappings of an answer are shown.
ghost use Rattle.std.specs.Prelude.{◌≡◌, map};
ghost use Rattle.lost_spec.specs.Answer.{shown};
ghost use Rattle.lost_query.specs.Finding.{mappings_of};
ghost use Rattle.lost_location.specs.Place.{place_of};
ghost use Rattle.lost_mapping.specs.Reply.{shown_with, all_shown_of};

use crate::found::Found;
use lost_location::Place;
use lost_mapping::{Boundary, FoundMappings};

/// The mappings, each with the boundary that the client prefers (RFC 5222, section 8.3.4).
pub(crate) fn show(found: Found, place: &Place, by_value: bool) -> FoundMappings
    ensures { all_shown_of result ≡ map (shown (place_of place.now) by_value) (mappings_of found) }
{
    FoundMappings {
        first: found.first,
        rest: found.rest,
        boundary: boundary_shown(place, by_value),
    }
}

/// The boundary that a mapping that is no default is shown with: by value, its regions of the place's kind; otherwise its
/// key and source (RFC 5222, section 8.3.4).
fn boundary_shown(place: &Place, by_value: bool) -> Boundary
    ensures { shown_with result ≡ shown (place_of place.now) by_value }
{
    if by_value {
        Boundary::ByValue(place.kind())
    } else {
        Boundary::ByReference
    }
}
