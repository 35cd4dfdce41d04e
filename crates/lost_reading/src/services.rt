//! The service that a request asks for. It is read before any other member, so a refused service is a bad request even
//! if memory is short.
ghost use Rattle.std.specs.Prelude.{◌≡◌, None, Err, option_map, codes};
ghost use Rattle.serde_json.specs.View.{members_view};
ghost use Rattle.lost_reading.specs.Gives.{Gives};
ghost use Rattle.lost_reading.specs.Members.{service_in, required, optional};

use crate::reading::{Kind, member};
use crate::request::ReadError;
use lost_urn::ServiceUrn;
use serde_json::{Map, Value};
use std::alloc::Global;

/// The service that a request must have.
pub(crate) fn required_service(
    alloc: Global,
    members: &Map<String, Value>,
) -> Result<ServiceUrn, ReadError>
    ensures given { Gives (λ service. service) result (required service_in (codes "service") (members_view members.now.entries)) }
    ensures refused { required service_in (codes "service") (members_view members.now.entries) ≡ None
        → result ≡ Err ReadError.BadRequest }
{
    match member(members, "service") {
        Some(value) => ServiceUrn::read(alloc, value),
        None => Err(ReadError::BadRequest),
    }
}

/// The service that a request may have.
pub(crate) fn optional_service(
    alloc: Global,
    members: &Map<String, Value>,
) -> Result<Option<ServiceUrn>, ReadError>
    ensures given { Gives (λ found. option_map (λ service. service) found) result (optional service_in (codes "service") (members_view members.now.entries)) }
    ensures refused { optional service_in (codes "service") (members_view members.now.entries) ≡ None
        → result ≡ Err ReadError.BadRequest }
{
    match member(members, "service") {
        Some(value) => Ok(Some(ServiceUrn::read(alloc, value)?)),
        None => Ok(None),
    }
}
