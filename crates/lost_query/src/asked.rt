//! What a request asks, with its place.
ghost use Rattle.std.specs.Prelude.{◌≡◌, IfOk, option_map};
ghost use Rattle.std.specs.Option.{option_copied};
ghost use Rattle.lost_spec.specs.Moment.{Instant};
ghost use Rattle.lost_spec.specs.Book.{Book};
ghost use Rattle.lost_spec.specs.Answer.{location_used, answer, answer_by_kind};
ghost use Rattle.lost_spec.specs.Holders.{locations_in, place_at, place_used};
ghost use Rattle.lost_location.specs.Place.{place_of};
ghost use Rattle.lost_mapping.specs.declared.path.Path as message;
ghost use Rattle.lost_mapping.specs.Path.{shown_path};
ghost use Rattle.lost_mapping.specs.Request.{request_of};
ghost use Rattle.lost_query.specs.Asked.{question_reply, question_place, reply_asked, asked_place};

use crate::find_service::Ask;
use crate::places::{Used, locate};
use lost_location::Place;
use lost_mapping::{Path, Request, Source, path_of};
use lost_spec::answers::AnswerError;
use lost_urn::ServiceUrn;
use std::alloc::{AllocError, Global};

/// What a request asks of a server, whatever mappings are held: a question, with the place of the location used if it is
/// asked at one, or the error that answers it (RFC 5222, sections 8 to 13). The place was found once.
#[derive(Drop)]
pub struct Asked<'a> {
    pub(crate) path: Path<'a>,
    pub(crate) question: Question<'a>,
}

/// The four questions, or the error that answers the request.
#[derive(Drop)]
pub(crate) enum Question<'a> {
    /// The mappings for a service at a place (RFC 5222, section 8).
    FindService(Ask<'a>),
    /// The services at a place, below a service where one is given (RFC 5222, section 11).
    ListServicesByLocation {
        above: Option<&'a ServiceUrn>,
        location_used: &'a str,
        place: Place,
    },
    /// The services anywhere, below a service where one is given (RFC 5222, section 10).
    ListServices(Option<&'a ServiceUrn>),
    /// The regions that a key names (RFC 5222, section 9).
    GetServiceBoundary(&'a str),
    /// An error that does not depend on the mappings held (RFC 5222, section 13.1).
    Refused(AnswerError),
}

impl<'a> Asked<'a> {
    /// What a request asks of the server of this name. The first case that applies (order own): `loop` if the path has the
    /// name in any case; `locationProfileUnrecognized` if no location has a known profile (the first that has one is the
    /// location used); `SRSInvalid` and `locationInvalid` for the location used; then the question of the request's kind.
    #[tactic(auto, unfolding(lost_spec::specs::Answer::answer, crate::specs::Asked::reply_asked))]
    pub fn of_request(
        alloc: Global,
        name: &'a Source,
        request: &'a Request<'_>,
    ) -> Result<Asked<'a>, AllocError>
        ensures reply { IfOk result (λ asked. (b : Book) (t : Instant)
            → reply_asked b t asked ≡ answer b name.now t (request_of request.now)) }
        ensures place { IfOk result (λ asked. asked_place asked ≡ place_used name.now (request_of request.now)) }
    {
        let path = Path {
            names: path_of(request),
            server: name,
        };
        if path.is_loop() {
            return Ok(Asked {
                path,
                question: Question::Refused(AnswerError::Loop),
            });
        }
        Ok(Asked {
            path,
            question: Question::of_request(alloc, request)?,
        })
    }

    /// The place at which the question is asked, if it is asked at one.
    pub fn place(&self) -> Option<&Place>
        ensures { option_map place_of (option_copied result) ≡ asked_place self.now }
    {
        match &self.question {
            Question::FindService(ask) => Some(&ask.place),
            Question::ListServicesByLocation { place, .. } => Some(place),
            Question::ListServices(_) => None,
            Question::GetServiceBoundary(_) => None,
            Question::Refused(_) => None,
        }
    }

    /// The place at which the question is asked, if it is asked at one, to keep.
    pub fn into_place(self) -> Option<Place>
        ensures { option_map place_of result ≡ asked_place self.entry }
    {
        let Asked { path: _, question } = self;
        match question {
            Question::FindService(ask) => Some(ask.place),
            Question::ListServicesByLocation { place, .. } => Some(place),
            Question::ListServices(_) => None,
            Question::GetServiceBoundary(_) => None,
            Question::Refused(_) => None,
        }
    }
}

impl<'a> Question<'a> {
    /// The question of a request whose path does not have the server's name, or the first error that applies to its
    /// locations (RFC 5222, sections 8 to 13; order own).
    fn of_request(alloc: Global, request: &'a Request<'_>) -> Result<Question<'a>, AllocError>
        ensures reply { IfOk result (λ question. (b : Book) (t : Instant) (path : message.Path)
            → question_reply b t path question ≡ answer_by_kind b t (shown_path path) (request_of request.now)) }
        ensures place { IfOk result (λ question.
            question_place question ≡ place_at (location_used (locations_in (request_of request.now)))) }
    {
        match request {
            Request::FindService {
                service,
                locations,
                validate,
                by_value,
                ..
            } => match locate(alloc, locations)? {
                Used::Refused(error) => Ok(Question::Refused(error)),
                Used::At(location_used, place) => Ok(Question::FindService(Ask {
                    service,
                    location_used,
                    place,
                    validate: *validate,
                    by_value: *by_value,
                })),
            },
            Request::ListServicesByLocation {
                service,
                locations,
                ..
            } => match locate(alloc, locations)? {
                Used::Refused(error) => Ok(Question::Refused(error)),
                Used::At(location_used, place) => Ok(Question::ListServicesByLocation {
                    above: service.as_ref(),
                    location_used,
                    place,
                }),
            },
            Request::ListServices { service, .. } => Ok(Question::ListServices(service.as_ref())),
            Request::GetServiceBoundary { key, .. } => {
                Ok(Question::GetServiceBoundary(key.as_str()))
            }
        }
    }
}

/// The place at which the server of this name answers a request, that of the location used (RFC 5222, sections 8.3.1
/// and 12.1). None if the request has no locations, or if [`crate::answer`] answers `loop`,
/// `locationProfileUnrecognized`, `SRSInvalid` or `locationInvalid`.
pub fn place_used(
    alloc: Global,
    name: &Source,
    request: &Request<'_>,
) -> Result<Option<Place>, AllocError>
    ensures { IfOk result (λ place. option_map place_of place ≡ place_used name.now (request_of request.now)) }
{
    let asked = Asked::of_request(alloc, name, request)?;
    Ok(asked.into_place())
}
