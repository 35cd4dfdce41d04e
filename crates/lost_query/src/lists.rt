//! The replies to listServicesByLocation and to listServices (RFC 5222, sections 10 and 11).
ghost use Rattle.std.specs.Prelude.{◌≡◌, IfOk};
ghost use Rattle.std.specs.Option.{option_copied};
ghost use Rattle.lost_spec.specs.Request.{ListServicesByLocationResponse, ListServicesResponse};
ghost use Rattle.lost_spec.specs.Services.{services, all_services};
ghost use Rattle.lost_location.specs.Place.{place_of};
ghost use Rattle.lost_mapping.specs.Reply.{reply_of};
ghost use Rattle.lost_mapping.specs.Path.{shown_path};

use crate::holdings::Holdings;
use crate::services::services_at;
use lost_location::Place;
use lost_mapping::{Moment, Path, Reply};
use lost_urn::ServiceUrn;
use std::alloc::{AllocError, Global};

/// The reply to listServicesByLocation at the place of the location used (RFC 5222, section 11).
pub(crate) fn list_at<'a, H: Holdings>(
    alloc: Global,
    holdings: &H,
    moment: &Moment,
    path: &Path<'a>,
    above: Option<&ServiceUrn>,
    location_used: &'a str,
    place: &Place,
) -> Result<Reply<'a>, AllocError>
    ensures { IfOk result (λ reply. reply_of reply
        ≡ ListServicesByLocationResponse (H.book holdings.now).edits location_used.now (shown_path path.now)
        (services (H.book holdings.now) moment.now (place_of place.now) (option_copied above.entry))) }
{
    Ok(Reply::ListServicesByLocationResponse {
        edition: holdings.edition(),
        location_used,
        path: *path,
        services: services_at(alloc, holdings, moment, place, above)?,
    })
}

/// The reply to listServices (RFC 5222, section 10).
pub(crate) fn list_anywhere<'a, H: Holdings>(
    holdings: &H,
    moment: &Moment,
    path: &Path<'a>,
    above: Option<&ServiceUrn>,
) -> Result<Reply<'a>, AllocError>
    ensures { IfOk result (λ reply. reply_of reply
        ≡ ListServicesResponse (H.book holdings.now).edits (shown_path path.now)
        (all_services (H.book holdings.now) moment.now (option_copied above.entry))) }
{
    Ok(Reply::ListServicesResponse {
        edition: holdings.edition(),
        path: *path,
        services: holdings.services_below(moment, above)?,
    })
}
