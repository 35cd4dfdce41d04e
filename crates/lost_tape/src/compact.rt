//! The lines that are sent most, read in one pass: a `findService` at one place, as compact JSON (RFC 5222, section 8).
ghost use Rattle.std.specs.Prelude.{◌≡◌, ◌++◌, Some, None, IfSome, OnSome};
ghost use Rattle.std.specs.Str.{IsUtf8};
ghost use Rattle.lost_location.specs.Body.{body_of};
ghost use Rattle.lost_mapping.specs.Request.{request_of};
ghost use Rattle.lost_reading.specs.Desk.{desk_line};
ghost use Rattle.lost_reading.specs.Requests.{line_request};
ghost use Rattle.lost_tape.specs.Compact.{place_request, IsPlaceLine};
ghost use Rattle.lost_writing.specs.FoundLine.{IsPlain};

use crate::locations::{Content, compact_body, compact_profile, read_compact_content};
use crate::options::parse_service;
use lost_location::Body;
use lost_mapping::{Location, Locations, Request};
use lost_urn::ServiceUrn;
use lost_writing::plain_len;
use std::alloc::Global;
use std::borrow::CowStr;

/// What stands before the id.
const BEFORE_ID: &[u8; 35] = b"{\"findService\":{\"location\":[{\"id\":\"";

/// What stands behind the service, up to the end of the line.
const AFTER_SERVICE: &[u8; 3] = b"\"}}";

/// The parts of such a line.
#[derive(Drop)]
pub(crate) struct PlaceLine<'a> {
    pub(crate) id: &'a [u8],
    pub(crate) content: Content<'a>,
    pub(crate) service: &'a [u8],
}

/// Reads a compact line of a `findService` at one place: the members of each object in the order of their names,
/// no space and no escape (RFC 5222, section 8; own format). `None` says nothing of the line.
// Inlined, it makes the request where the caller wants it: one is large to move.
#[inline(always)]
pub(crate) fn read_compact<'a>(alloc: Global, line: &'a [u8]) -> Option<Request<'a>>
    ensures request { IfSome result (λ request. line_request line.now ≡ Some (request_of request)) }
    ensures no_desk_line { OnSome result (desk_line line.now ≡ None) }
{
    let place = read_parts(line)?;
    let id = utf8_of(place.id)?;
    let body = compact_body(&place.content)?;
    let service = parse_service(alloc, place.service)?;
    Some(request_at(alloc, id, compact_profile(&place.content), body, service))
}

/// The text of bytes, if they are UTF-8.
pub(crate) fn utf8_of(bytes: &[u8]) -> Option<&str>
    ensures { IfSome result (λ text. (text.now ≡ bytes.now) × IsUtf8 bytes.now) }
{
    match std::str::from_utf8(bytes) {
        Ok(text) => Some(text),
        Err(_) => None,
    }
}

/// A `findService` at one place, with no other member.
fn request_at<'a>(
    alloc: Global,
    id: &'a str,
    profile: &'static str,
    body: Body<'a>,
    service: ServiceUrn,
) -> Request<'a>
    ensures { request_of result ≡ place_request id.now profile.now (body_of body.entry) service }
{
    let first = Location {
        id: CowStr::Borrowed(id),
        profile: CowStr::Borrowed(profile),
        srs_known: true,
        body,
    };
    Request::FindService {
        service,
        locations: Locations {
            first,
            rest: Vec::new(alloc),
        },
        validate: false,
        by_value: false,
        path: Vec::new(alloc),
    }
}

/// The parts of a line, if it is written of such parts.
fn read_parts<'a>(line: &'a [u8]) -> Option<PlaceLine<'a>>
    ensures { IfSome result (λ place. IsPlaceLine line.now place) }
{
    let rest = after(line, BEFORE_ID)?;
    let (id, rest) = split_plain(rest);
    let (content, rest) = read_compact_content(rest)?;
    let service = before(rest, AFTER_SERVICE)?;
    Some(PlaceLine {
        id,
        content,
        service,
    })
}

/// What follows the front of a text.
#[inline(always)]
pub(crate) fn after<'a>(text: &'a [u8], front: &[u8]) -> Option<&'a [u8]>
    ensures { IfSome result (λ rest. text.now ≡ front.now ++ rest.now) }
{
    let (begins, rest) = text.split_at_checked(front.len())?;
    if begins == front { Some(rest) } else { None }
}

/// What stands before the end of a text.
#[inline(always)]
fn before<'a>(text: &'a [u8], end: &[u8]) -> Option<&'a [u8]>
    ensures { IfSome result (λ front. text.now ≡ front.now ++ end.now) }
{
    let at = text.len().checked_sub(end.len())?;
    let (front, rest) = text.split_at(at);
    if rest == end { Some(front) } else { None }
}

/// Cuts a text at the first byte that stands in no plain JSON text: a quote, a backslash or a control byte.
#[inline]
pub(crate) fn split_plain(text: &[u8]) -> (&[u8], &[u8])
    ensures text { text.now ≡ result.0.now ++ result.1.now }
    ensures plain { IsPlain result.0.now }
{
    text.split_at(plain_len(text))
}
