//! The place of the location used, or the error if there is none.
ghost use Rattle.std.specs.Prelude.{◌≡◌, ℕ, Some, IfOk};
ghost use Rattle.lost_spec.specs.Text.{Text};
ghost use Rattle.lost_spec.specs.Place as spec;
ghost use Rattle.lost_spec.specs.Request.{Reply};
ghost use Rattle.lost_spec.specs.Answer.{at_location, location_used};
ghost use Rattle.lost_spec.specs.Holders.{place_at};
ghost use Rattle.lost_mapping.specs.Request.{location_of, locations_of};
ghost use Rattle.lost_query.specs.Used.{reply_used, used_place};

use crate::used::location_used;
use lost_location::{Place, has_system, kind_of, place_in};
use lost_mapping::{Location, Locations};
use lost_spec::answers::AnswerError;
use std::alloc::{AllocError, Global};

/// The place that a request asks about, or why there is none.
#[derive(Drop)]
pub(crate) enum Used<'a> {
    /// The id of the location used, and its place.
    At(&'a str, Place),
    /// The first error that applies to the locations.
    Refused(AnswerError),
}

/// The id and the place of the location used, or the first error that applies (RFC 5222, section 13.1; order own):
/// `locationProfileUnrecognized` if no location has a known profile; then those of the location used.
pub(crate) fn locate<'r>(
    alloc: Global,
    locations: &'r Locations<'_>,
) -> Result<Used<'r>, AllocError>
    ensures reply { IfOk result (λ used. (edition : ℕ) (answer : Text → spec.Place → Reply)
        → reply_used edition used answer ≡ at_location edition (location_used (locations_of locations.now)) answer) }
    ensures place { IfOk result (λ used. used_place used ≡ place_at (location_used (locations_of locations.now))) }
{
    match location_used(locations) {
        Some(location) => place_at(alloc, location),
        None => Ok(Used::Refused(AnswerError::LocationProfileUnrecognized)),
    }
}

/// The id and the place of a location, or the first error that applies (RFC 5222, section 13.1; order own):
/// `SRSInvalid` if its kind of place has a reference system and this one is not known; `locationInvalid` if the content
/// is no place of the profile.
fn place_at<'r>(alloc: Global, location: &'r Location<'_>) -> Result<Used<'r>, AllocError>
    ensures reply { IfOk result (λ used. (edition : ℕ) (answer : Text → spec.Place → Reply)
        → reply_used edition used answer ≡ at_location edition (Some (location_of location.now)) answer) }
    ensures place { IfOk result (λ used. used_place used ≡ place_at (Some (location_of location.now))) }
{
    let kind = kind_of(location.profile.as_str());
    if has_system(kind) && !location.srs_known {
        return Ok(Used::Refused(AnswerError::SrsInvalid));
    }
    match place_in(alloc, kind, &location.body)? {
        Some(place) => Ok(Used::At(location.id.as_str(), place)),
        None => Ok(Used::Refused(AnswerError::LocationInvalid)),
    }
}
