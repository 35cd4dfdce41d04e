//! Which mappings serve a service at an instant, and which hold a place.
ghost use Rattle.std.specs.Prelude.{◌≡◌};
ghost use Rattle.std.specs.List.{list_any};
ghost use Rattle.lost_spec.specs.Service.{same_service, chain};
ghost use Rattle.lost_spec.specs.Find.{holds, serves, is_of_chain};
ghost use Rattle.lost_location.specs.Place.{place_of};

use lost_location::Place;
use lost_mapping::{Mapping, Moment};
use lost_urn::ServiceUrn;

/// Whether the mapping is live at an instant and has this service.
pub fn serves(mapping: &Mapping, moment: &Moment, service: &ServiceUrn) -> bool
    ensures { result ≡ serves mapping.now moment.now service.now }
{
    mapping.is_live(moment) && mapping.service() == service
}

/// Whether some region of the mapping contains the place (RFC 5222, section 12.1).
pub fn holds(mapping: &Mapping, place: &Place) -> bool
    ensures { result ≡ holds mapping.now (place_of place.now) }
{
    mapping.regions().contains(place)
}

/// Whether the mapping is live at an instant and has the service or one above it (RFC 5222, section 13.1; own reading).
pub(crate) fn is_of_chain(mapping: &Mapping, moment: &Moment, service: &ServiceUrn) -> bool
    ensures { result ≡ is_of_chain moment.now service.now mapping.now }
{
    mapping.is_live(moment) && is_in_chain(mapping.service(), service)
}

/// Whether a service is another one or lies above it, and so is in the other one's chain.
fn is_in_chain(above: &ServiceUrn, service: &ServiceUrn) -> bool
    ensures { result ≡ list_any (λ u. same_service above.now u) (chain service.now) }
{
    // A service has a label, which its text shows to the proof.
    let _text = above.text();
    service.is_at_or_below(above)
}
