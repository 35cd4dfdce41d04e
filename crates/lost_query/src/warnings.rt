//! The warnings of an answer to findService (RFC 5222, section 13.2).
ghost use Rattle.std.specs.Prelude.{◌≡◌, ◌∷◌, ◌++◌, [], IfOk, cond};
ghost use Rattle.lost_spec.specs.Place.{address_at};
ghost use Rattle.lost_spec.specs.Find.{substitution_warnings, unavailable_warnings};
ghost use Rattle.lost_location.specs.Place.{place_of};

use lost_location::Place;
use lost_spec::answers::Warning;
use lost_urn::ServiceUrn;
use std::alloc::{AllocError, Global};

/// The warnings for holders of a service that were found for another one (RFC 5222, section 13.2):
/// `serviceSubstitution` if the two differ.
pub(crate) fn substitution_warnings(
    alloc: Global,
    asked: &ServiceUrn,
    found: &ServiceUrn,
) -> Result<Vec<Warning>, AllocError>
    ensures { IfOk result (λ warnings. warnings.items ≡ substitution_warnings asked.now found.now) }
{
    let mut warnings = Vec::new(alloc);
    if asked != found {
        warnings.push(Warning::ServiceSubstitution)?;
    }
    Ok(warnings)
}

/// The warnings for defaults of a service that were found for another one (RFC 5222, section 13.2; order own):
/// `serviceSubstitution` if the two differ; `defaultMappingReturned`; then `locationValidationUnavailable`, if
/// validation of an address was asked for.
pub(crate) fn default_warnings(
    alloc: Global,
    asked: &ServiceUrn,
    found: &ServiceUrn,
    place: &Place,
    validate: bool,
) -> Result<Vec<Warning>, AllocError>
    ensures { IfOk result (λ warnings. warnings.items ≡ substitution_warnings asked.now found.now
        ++ (Warning.DefaultMappingReturned ∷ unavailable_warnings (address_at (place_of place.now)) validate)) }
{
    let mut warnings = substitution_warnings(alloc, asked, found)?;
    warnings.push(Warning::DefaultMappingReturned)?;
    if is_unavailable(place, validate) {
        warnings.push(Warning::LocationValidationUnavailable)?;
    }
    Ok(warnings)
}

/// Whether validation of an address was asked for.
fn is_unavailable(place: &Place, validate: bool) -> bool
    ensures { unavailable_warnings (address_at (place_of place.now)) validate
        ≡ cond result (Warning.LocationValidationUnavailable ∷ []) [] }
{
    validate && place.address().is_some()
}
