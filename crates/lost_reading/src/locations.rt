//! Locations of a request (RFC 5222, section 12).
ghost use Rattle.std.specs.Prelude.{◌≡◌, ◌<◌, None, Some, Ok, length, map, codes};
ghost use Rattle.serde_json.specs.Find.{as_str};
ghost use Rattle.serde_json.specs.View.{view, members_view};
ghost use Rattle.lost_spec.specs.Text.{is_among, has_repeat};
ghost use Rattle.lost_location.specs.Body.{body_of};
ghost use Rattle.lost_mapping.specs.Request.{location_of, locations_of};
ghost use Rattle.lost_reading.specs.Gives.{Gives};
ghost use Rattle.lost_reading.specs.Members as kinds;
ghost use Rattle.lost_reading.specs.Members.{the_member};
ghost use Rattle.lost_reading.specs.Requests.{point_body, address_body, token_body, body_with, is_known_system, is_system_known, location_of_members, location_in, are_locations, if_locations, locations_in};

use crate::kinds::named_texts;
use crate::reading::{Kind, member, readable, required, text_member};
use crate::request::ReadError;
use lost_location::{Body, PlaceKind, has_system, kind_of};
use lost_mapping::{Location, Locations};
use serde_json::{Map, Value};
use std::alloc::Global;
use std::borrow::CowStr;

/// The known reference system (RFC 5222, section 12.2).
pub const KNOWN_SYSTEM: &str = "urn:ogc:def:crs:EPSG::4326";

/// The most locations of a request.
pub const MAX_LOCATIONS: usize = 8;

/// A list of 1 to 8 locations, no two of one profile (RFC 5222, section 8.3.1; bounds own).
impl<'a> Kind for Locations<'a> {
    ghost use Rattle.std.specs.Prelude.{List};
    ghost use Rattle.lost_spec.specs.Request as spec;

    ghost Seen = { List spec.Location };

    ghost seen = { locations_of };

    ghost meant = { locations_in };

    fn read(alloc: Global, value: &Value) -> Result<Locations<'a>, ReadError> {
        let list = Vec::<Location<'a>>::read(alloc, value)?;
        from_list(list)
    }
}

/// The locations of a list, which must be 1 to 8, no two of one profile.
fn from_list<'a>(list: Vec<Location<'a>>) -> Result<Locations<'a>, ReadError>
    ensures { Gives locations_of result (if_locations (map location_of list.entry.items)) }
{
    if list.is_empty() {
        return Err(ReadError::BadRequest);
    }
    let locations = split_list(list);
    if are_locations(&locations) {
        Ok(locations)
    } else {
        Err(ReadError::BadRequest)
    }
}

/// The locations of a list, its first one apart from the rest.
fn split_list<'a>(list: Vec<Location<'a>>) -> Locations<'a>
    requires { 0 < length list.items }
    ensures { locations_of result ≡ map location_of list.entry.items }
{
    let mut rest = list;
    let first = rest.remove(0);
    Locations { first, rest }
}

/// Whether there are 1 to 8 locations, no two of one profile (RFC 5222, section 8.3.1; bounds own).
pub fn are_locations(locations: &Locations<'_>) -> bool
    ensures { result ≡ are_locations (locations_of locations.now) }
{
    locations.rest.len() < MAX_LOCATIONS && !repeats(locations)
}

/// Whether a profile stands twice. It takes the square of their number, which is at most 8 where this is asked.
fn repeats(locations: &Locations<'_>) -> bool
    ensures { result ≡ has_repeat (map (λ location. location.profile) (locations_of locations.now)) }
{
    has_profile(&locations.rest, locations.first.profile.as_str())
        || repeats_profile(&locations.rest)
}

/// Whether a profile stands twice in a list.
fn repeats_profile(locations: &[Location<'_>]) -> bool
    ensures { result ≡ has_repeat (map (λ location. location.profile) (map location_of locations.now)) }
{
    match locations.split_first() {
        Some((location, others)) => {
            has_profile(others, location.profile.as_str()) || repeats_profile(others)
        }
        None => false,
    }
}

fn has_profile(locations: &[Location<'_>], profile: &str) -> bool
    ensures { result ≡ is_among profile.now (map (λ location. location.profile) (map location_of locations.now)) }
{
    locations
        .iter()
        .any(|location| profile == location.profile.as_str())
}

impl<'a> Kind for Location<'a> {
    ghost use Rattle.lost_spec.specs.Request as spec;

    ghost Seen = { spec.Location };

    ghost seen = { location_of };

    ghost meant = { location_in };

    fn read(alloc: Global, value: &Value) -> Result<Location<'a>, ReadError> {
        match value.as_object() {
            Some(members) => read_location(alloc, members),
            None => Err(ReadError::BadRequest),
        }
    }
}

/// The location of an object.
fn read_location<'a>(alloc: Global, members: &Map<String, Value>) -> Result<Location<'a>, ReadError>
    ensures { Gives location_of result (location_of_members (members_view members.now.entries)) }
{
    let id = required::<CowStr<'a>>(alloc, members, "id")?;
    let profile = required::<CowStr<'a>>(alloc, members, "profile")?;
    let kind = kind_of(profile.as_str());
    let srs_known = is_srs_known(kind, members);
    let body = read_body(alloc, kind, members)?;
    Ok(Location {
        id,
        profile,
        srs_known,
        body,
    })
}

/// Whether the reference system is known. A kind that has none does not look at it.
fn is_srs_known(kind: Option<PlaceKind>, members: &Map<String, Value>) -> bool
    ensures { result ≡ is_system_known kind (the_member (codes "srsName") (members_view members.now.entries)) }
{
    !has_system(kind) || has_known_system(members)
}

/// Whether the reference system is absent or the known one.
fn has_known_system(members: &Map<String, Value>) -> bool
    ensures { result ≡ is_known_system (the_member (codes "srsName") (members_view members.now.entries)) }
{
    match member(members, "srsName") {
        Some(value) => names_known_system(value),
        None => true,
    }
}

fn names_known_system(value: &Value) -> bool
    ensures { result ≡ is_known_system (Some (view value.now)) }
{
    match value.as_str() {
        Some(text) => KNOWN_SYSTEM == text,
        None => false,
    }
}

/// The content of a location of a kind. Another profile's content is not looked at.
fn read_body<'a>(
    alloc: Global,
    kind: Option<PlaceKind>,
    members: &Map<String, Value>,
) -> Result<Body<'a>, ReadError>
    ensures { Gives body_of result (Some (body_with kind
        (the_member (codes "pos") (members_view members.now.entries))
        (the_member (codes "address") (members_view members.now.entries))
        (the_member (codes "token") (members_view members.now.entries)))) }
{
    match kind {
        Some(PlaceKind::Geodetic2d) => read_point(alloc, members),
        Some(PlaceKind::Civic) => read_address(alloc, members),
        Some(PlaceKind::XToken) => read_token(alloc, members),
        None => Ok(Body::Unreadable),
    }
}

/// The content of a location of `geodetic-2d`.
fn read_point<'a>(alloc: Global, members: &Map<String, Value>) -> Result<Body<'a>, ReadError>
    ensures { Gives body_of result (Some (point_body (the_member (codes "pos") (members_view members.now.entries)))) }
{
    match readable::<(i64, i64)>(alloc, members, "pos")? {
        Some((lat, lon)) => Ok(Body::Point(lat, lon)),
        None => Ok(Body::Unreadable),
    }
}

/// The content of a location of `civic`. A value that is no object of texts is unreadable even if memory is short.
fn read_address<'a>(alloc: Global, members: &Map<String, Value>) -> Result<Body<'a>, ReadError>
    ensures given { Gives body_of result (Some (address_body (the_member (codes "address") (members_view members.now.entries)))) }
    ensures unreadable { kinds.required kinds.pairs_in (codes "address") (members_view members.now.entries) ≡ None
        → result ≡ Ok Body.Unreadable }
{
    match named_texts(alloc, members, "address")? {
        Some(pairs) => Ok(Body::Address(pairs.0)),
        None => Ok(Body::Unreadable),
    }
}

/// The content of a location of `x-token`. A value that is no text is unreadable even if memory is short.
fn read_token<'a>(alloc: Global, members: &Map<String, Value>) -> Result<Body<'a>, ReadError>
    ensures given { Gives body_of result (Some (token_body (the_member (codes "token") (members_view members.now.entries)))) }
    ensures unreadable { kinds.required as_str (codes "token") (members_view members.now.entries) ≡ None
        → result ≡ Ok Body.Unreadable }
{
    match text_member(members, "token") {
        Some(text) => Ok(Body::Token(CowStr::Owned(String::from_str(alloc, text)?))),
        None => Ok(Body::Unreadable),
    }
}
