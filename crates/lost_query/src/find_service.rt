//! The reply to findService at a place (RFC 5222, section 8).
ghost use Rattle.std.specs.Prelude.{◌≡◌, IfOk, option_map};
ghost use Rattle.lost_spec.specs.Place.{address_at};
ghost use Rattle.lost_spec.specs.Moment.{Instant};
ghost use Rattle.lost_spec.specs.Find.{FoundHolders, FoundDefaults, found, is_implemented};
ghost use Rattle.lost_spec.specs.Answer.{error_of, validation_for};
ghost use Rattle.lost_query.specs.Finding.{mappings_of};
ghost use Rattle.lost_location.specs.Place.{place_of};
ghost use Rattle.lost_mapping.specs.Reply.{validation_of, reply_of};
ghost use Rattle.lost_query.specs.Ask.{asked_reply};

use crate::finding::{Finding, find};
use crate::found::Found;
use crate::holdings::Holdings;
use crate::refusals::refusal;
use crate::shown::show;
use crate::validation::validate;
use crate::warnings::{default_warnings, substitution_warnings};
use lost_location::Place;
use lost_mapping::{Moment, Path, Reply, Validation};
use lost_spec::answers::AnswerError;
use lost_urn::ServiceUrn;
use std::alloc::{AllocError, Global};

/// A findService request at the place of the location used (RFC 5222, section 8.3).
#[derive(Drop)]
pub(crate) struct Ask<'a> {
    pub service: &'a ServiceUrn,
    pub location_used: &'a str,
    pub place: Place,
    pub validate: bool,
    pub by_value: bool,
}

/// The reply to findService at a place (RFC 5222, section 8): what is found, or an error if nothing is.
pub(crate) fn find_service<'a, H: Holdings>(
    alloc: Global,
    holdings: &H,
    moment: &Moment,
    ask: &Ask<'a>,
    path: &Path<'a>,
) -> Result<Reply<'a>, AllocError>
    ensures { IfOk result (λ reply. reply_of reply ≡ asked_reply (H.book holdings.now) moment.now ask.now path.now
        (found (H.book holdings.now) moment.now (place_of ask.now.place) ask.now.service.now)) }
{
    match find(alloc, holdings, moment, &ask.place, ask.service)? {
        Finding::Holders(service, found) => {
            reply_with_holders(alloc, holdings, moment, ask, path, service.service(), found)
        }
        Finding::Defaults(service, found) => {
            reply_with_defaults(alloc, holdings, ask, path, service.service(), found)
        }
        Finding::Nothing => {
            let error = error_of_nothing(holdings, moment, ask.service);
            Ok(refusal(holdings, error))
        }
    }
}

/// The reply with the mappings of a service that hold the place.
fn reply_with_holders<'a, H: Holdings>(
    alloc: Global,
    holdings: &H,
    moment: &Moment,
    ask: &Ask<'a>,
    path: &Path<'a>,
    service: &ServiceUrn,
    found: Found,
) -> Result<Reply<'a>, AllocError>
    ensures { IfOk result (λ reply. reply_of reply
        ≡ asked_reply (H.book holdings.now) moment.now ask.now path.now (FoundHolders service.now (mappings_of found))) }
{
    Ok(Reply::FindServiceResponse {
        edition: holdings.edition(),
        location_used: ask.location_used,
        validation: validation_for(alloc, holdings, moment, ask, service, &found)?,
        mappings: show(found, &ask.place, ask.by_value),
        path: *path,
        warnings: substitution_warnings(alloc, ask.service, service)?,
    })
}

/// The reply with the defaults of a service.
fn reply_with_defaults<'a, H: Holdings>(
    alloc: Global,
    holdings: &H,
    ask: &Ask<'a>,
    path: &Path<'a>,
    service: &ServiceUrn,
    found: Found,
) -> Result<Reply<'a>, AllocError>
    ensures { (t : Instant) → IfOk result (λ reply. reply_of reply
        ≡ asked_reply (H.book holdings.now) t ask.now path.now (FoundDefaults service.now (mappings_of found))) }
{
    Ok(Reply::FindServiceResponse {
        edition: holdings.edition(),
        location_used: ask.location_used,
        validation: None,
        mappings: show(found, &ask.place, ask.by_value),
        path: *path,
        warnings: default_warnings(alloc, ask.service, service, &ask.place, ask.validate)?,
    })
}

/// The error if nothing is found: `notFound` if the service is implemented, otherwise `serviceNotImplemented` (RFC
/// 5222, section 13.1; own reading).
fn error_of_nothing<H: Holdings>(holdings: &H, moment: &Moment, service: &ServiceUrn) -> AnswerError
    ensures { result ≡ error_of (is_implemented (H.book holdings.now) moment.now service.now) }
{
    if holdings.implemented(moment, service) {
        AnswerError::NotFound
    } else {
        AnswerError::ServiceNotImplemented
    }
}

/// How the elements of the place's address are judged, if that is asked for and the place is an address (RFC 5222,
/// section 8.4.2).
fn validation_for<H: Holdings>(
    alloc: Global,
    holdings: &H,
    moment: &Moment,
    ask: &Ask<'_>,
    service: &ServiceUrn,
    found: &Found,
) -> Result<Option<Validation>, AllocError>
    ensures { IfOk result (λ judged. option_map validation_of judged ≡ validation_for (H.book holdings.now) moment.now
        (address_at (place_of ask.now.place)) ask.now.validate service.now (mappings_of found.now)) }
{
    let Some(address) = ask.place.address() else {
        return Ok(None);
    };
    if !ask.validate {
        return Ok(None);
    }
    let judged = validate(alloc, holdings, moment, service, found, address)?;
    Ok(Some(judged))
}
