//! The answer to a request.
ghost use Rattle.std.specs.Prelude.{◌≡◌, IfOk};
ghost use Rattle.lost_spec.specs.Answer.{answer};
ghost use Rattle.lost_mapping.specs.Request.{request_of};
ghost use Rattle.lost_mapping.specs.Reply.{reply_of};
ghost use Rattle.lost_query.specs.Asked.{reply_asked};

use crate::asked::{Asked, Question};
use crate::boundaries::get_boundary;
use crate::find_service::find_service;
use crate::holdings::Holdings;
use crate::lists::{list_anywhere, list_at};
use crate::refusals::refusal;
use lost_mapping::{Moment, Reply, Request, Source};
use std::alloc::{AllocError, Global};

/// The answer of the server of this name to a request at an instant, over these holdings (RFC 5222, sections 6 to 13;
/// order own). The first case that applies: `loop` if the path has the name in any case; `locationProfileUnrecognized`
/// if no location has a known profile (the first that has one is the location used); `SRSInvalid` and `locationInvalid`
/// for the location used; then the reply of the request's kind. A reply that is no error has the path with the name
/// added.
pub fn answer<'a, H: Holdings>(
    alloc: Global,
    holdings: &H,
    name: &'a Source,
    moment: &Moment,
    request: &'a Request<'_>,
) -> Result<Reply<'a>, AllocError>
    ensures { IfOk result (λ reply.
        reply_of reply ≡ answer (H.book holdings.now) name.now moment.now (request_of request.now)) }
{
    match &Asked::of_request(alloc, name, request) {
        Ok(asked) => answer_asked(alloc, holdings, moment, asked),
        Err(error) => Err(*error),
    }
}

/// The answer to what was asked at an instant, over these holdings: [`answer`] is this one after
/// [`Asked::of_request`].
#[tactic(auto, unfolding(crate::specs::Asked::reply_asked))]
pub fn answer_asked<'a, H: Holdings>(
    alloc: Global,
    holdings: &H,
    moment: &Moment,
    asked: &Asked<'a>,
) -> Result<Reply<'a>, AllocError>
    ensures { IfOk result (λ reply. reply_of reply ≡ reply_asked (H.book holdings.now) moment.now asked.now) }
{
    let path = &asked.path;
    match &asked.question {
        Question::FindService(ask) => find_service(alloc, holdings, moment, ask, path),
        Question::ListServicesByLocation {
            above,
            location_used,
            place,
        } => list_at(alloc, holdings, moment, path, *above, location_used, place),
        Question::ListServices(above) => list_anywhere(holdings, moment, path, *above),
        Question::GetServiceBoundary(key) => get_boundary(holdings, moment, path, key),
        Question::Refused(error) => Ok(refusal(holdings, *error)),
    }
}
