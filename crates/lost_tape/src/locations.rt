//! The locations of a request (RFC 5222, section 12).
ghost use Rattle.std.specs.Prelude.{◌≡◌, ◌++◌, Some, IfSome, option_map, option_and_then};
ghost use Rattle.lost_spec.specs.Decimal.{decimal};
ghost use Rattle.lost_spec.specs.Place.{PointBody};
ghost use Rattle.lost_location.specs.Body.{body_of};
ghost use Rattle.lost_mapping.specs.Request.{location_of, locations_of};
ghost use Rattle.lost_reading.specs.Requests.{point_body, token_body, body_with, is_known_system, is_system_known, location_of_members, location_in, locations_in};
ghost use Rattle.lost_tape.specs.Compact.{before_lat, before_decimal, before_token, content_body, content_profile, IsContentBefore};
ghost use Rattle.lost_tape.specs.Tapes.{data_of, members_of};

use crate::addresses::read_address;
use crate::compact::{after, split_plain, utf8_of};
use crate::members::LocationMembers;
use crate::numbers::read_number;
use crate::part::{Part, read_each, read_position, text_of};
use crate::tree::Tree;
use lost_geo::GeoPoint;
use lost_location::{Body, GEODETIC_2D, PlaceKind, X_TOKEN, has_system, kind_of};
use lost_mapping::{Location, Locations};
use lost_reading::{KNOWN_SYSTEM, are_locations};
use std::alloc::Global;
use std::borrow::CowStr;

/// The locations that a request must have: 1 to 8, no two of one profile.
pub(crate) fn read_locations<'a>(
    alloc: Global,
    member: &Option<Tree<'_, 'a>>,
) -> Option<Locations<'a>>
    ensures { IfSome result (λ locations. option_and_then locations_in (option_map data_of member.now) ≡ Some (locations_of locations)) }
{
    match member {
        Some(tree) => read_each_location(alloc, tree),
        None => None,
    }
}

/// The locations of an array, if their number is allowed.
fn read_each_location<'a>(alloc: Global, tree: &Tree<'_, 'a>) -> Option<Locations<'a>>
    ensures { IfSome result (λ locations. locations_in (data_of tree.now) ≡ Some (locations_of locations)) }
{
    let mut items = tree.items()?;
    let item = items.next()?;
    let first = Location::read(alloc, &item)?;
    let rest = read_each::<Location<'a>>(alloc, items)?;
    let locations = Locations { first, rest };
    if are_locations(&locations) {
        Some(locations)
    } else {
        None
    }
}

impl<'a> Part<'a> for Location<'a> {
    ghost use Rattle.lost_spec.specs.Request as spec;

    ghost Seen = { spec.Location };

    ghost seen = { location_of };

    ghost meant = { location_in };

    fn read(alloc: Global, tree: &Tree<'_, 'a>) -> Option<Location<'a>> {
        if tree.is_object() {
            read_location(alloc, tree)
        } else {
            None
        }
    }
}

/// The location of an object.
fn read_location<'a>(alloc: Global, object: &Tree<'_, 'a>) -> Option<Location<'a>>
    ensures { IfSome result (λ location. location_of_members (members_of object.now) ≡ Some (location_of location)) }
{
    let mut members = LocationMembers::none();
    members.read(object)?;
    let id = text_of(&members.id)?;
    let profile = text_of(&members.profile)?;
    let kind = kind_of(profile);
    let srs_known = is_srs_known(kind, &members.srs_name)?;
    let body = read_body(alloc, kind, &members)?;
    Some(Location {
        id: CowStr::Borrowed(id),
        profile: CowStr::Borrowed(profile),
        srs_known,
        body,
    })
}

/// Whether the reference system is known. A kind that has none does not look at it.
fn is_srs_known(kind: Option<PlaceKind>, srs_name: &Option<Tree<'_, '_>>) -> Option<bool>
    ensures { IfSome result (λ known. is_system_known kind (option_map data_of srs_name.now) ≡ known) }
{
    if has_system(kind) {
        has_known_system(srs_name)
    } else {
        Some(true)
    }
}

/// Whether the reference system is absent or the known one.
fn has_known_system(srs_name: &Option<Tree<'_, '_>>) -> Option<bool>
    ensures { IfSome result (λ known. is_known_system (option_map data_of srs_name.now) ≡ known) }
{
    match srs_name {
        Some(tree) => names_known_system(tree),
        None => Some(true),
    }
}

fn names_known_system(tree: &Tree<'_, '_>) -> Option<bool>
    ensures { IfSome result (λ known. is_known_system (Some (data_of tree.now)) ≡ known) }
{
    let text = tree.text()?;
    Some(KNOWN_SYSTEM == text)
}

/// The content of a location of a kind. Another profile's content is not looked at.
fn read_body<'a>(
    alloc: Global,
    kind: Option<PlaceKind>,
    members: &LocationMembers<'_, 'a>,
) -> Option<Body<'a>>
    ensures { IfSome result (λ body. body_with kind
        (option_map data_of members.now.pos)
        (option_map data_of members.now.address)
        (option_map data_of members.now.token) ≡ body_of body) }
{
    match kind {
        Some(PlaceKind::Geodetic2d) => read_point(&members.pos),
        Some(PlaceKind::Civic) => read_address(alloc, &members.address),
        Some(PlaceKind::XToken) => read_token(&members.token),
        None => Some(Body::Unreadable),
    }
}

/// The content of a location of `geodetic-2d`.
fn read_point<'a>(pos: &Option<Tree<'_, '_>>) -> Option<Body<'a>>
    ensures { IfSome result (λ body. point_body (option_map data_of pos.now) ≡ body_of body) }
{
    match pos {
        Some(tree) => read_point_at(tree),
        None => Some(Body::Unreadable),
    }
}

fn read_point_at<'a>(tree: &Tree<'_, '_>) -> Option<Body<'a>>
    ensures { IfSome result (λ body. point_body (Some (data_of tree.now)) ≡ body_of body) }
{
    let (lat, lon) = read_position(tree)?;
    Some(Body::Point(lat, lon))
}

/// The content of a location of `x-token`.
fn read_token<'a>(token: &Option<Tree<'_, 'a>>) -> Option<Body<'a>>
    ensures { IfSome result (λ body. token_body (option_map data_of token.now) ≡ body_of body) }
{
    match token {
        Some(tree) => read_token_at(tree),
        None => Some(Body::Unreadable),
    }
}

fn read_token_at<'a>(tree: &Tree<'_, 'a>) -> Option<Body<'a>>
    ensures { IfSome result (λ body. token_body (Some (data_of tree.now)) ≡ body_of body) }
{
    let text = tree.text()?;
    Some(Body::Token(CowStr::Borrowed(text)))
}

/// What stands between the id and the latitude of a pair.
const BEFORE_LAT: &[u8; 9] = b"\",\"pos\":[";

/// What stands between the latitude and the longitude.
const BEFORE_LON: &[u8; 1] = b",";

/// What stands between the longitude and the service.
const AFTER_LON: &[u8; 39] = b"],\"profile\":\"geodetic-2d\"}],\"service\":\"";

/// What stands between the id and a position as a text.
const BEFORE_DECIMAL: &[u8; 9] = b"\",\"pos\":\"";

/// What stands between such a text and the service.
const AFTER_DECIMAL: &[u8; 39] = b"\",\"profile\":\"geodetic-2d\"}],\"service\":\"";

/// What stands between the id and a token.
const BEFORE_TOKEN: &[u8; 31] = b"\",\"profile\":\"x-token\",\"token\":\"";

/// What stands between the token and the service.
const AFTER_TOKEN: &[u8; 15] = b"\"}],\"service\":\"";

/// What a location of a compact line holds, as it is written.
#[derive(Drop)]
pub(crate) enum Content<'a> {
    Pair(i64, i64),
    Decimal(&'a str),
    Token(&'a str),
}

/// The body of a location, if a text of decimal degrees is one.
pub(crate) fn compact_body<'a>(content: &Content<'a>) -> Option<Body<'a>>
    ensures { IfSome result (λ body. content_body content.now ≡ Some (body_of body)) }
{
    match content {
        Content::Pair(lat, lon) => Some(Body::Point(*lat, *lon)),
        Content::Decimal(text) => compact_decimal_body(text.as_bytes()),
        Content::Token(text) => Some(Body::Token(CowStr::Borrowed(*text))),
    }
}

/// The body of a position that is a text.
fn compact_decimal_body<'a>(text: &[u8]) -> Option<Body<'a>>
    ensures { IfSome result (λ body. option_map (λ position. PointBody position.0 position.1) (decimal text.now) ≡ Some (body_of body)) }
{
    let (lat, lon) = GeoPoint::decimal(text)?;
    Some(Body::Point(lat, lon))
}

/// The profile of a location.
pub(crate) fn compact_profile(content: &Content<'_>) -> &'static str
    ensures { result.now ≡ content_profile content.now }
{
    match content {
        Content::Pair(_, _) => GEODETIC_2D,
        Content::Decimal(_) => GEODETIC_2D,
        Content::Token(_) => X_TOKEN,
    }
}

/// What stands between the id and the service, and what follows it.
pub(crate) fn read_compact_content<'a>(text: &'a [u8]) -> Option<(Content<'a>, &'a [u8])>
    ensures { IfSome result (λ found. IsContentBefore text.now found.0 found.1.now) }
{
    match after(text, BEFORE_LAT) {
        Some(rest) => read_compact_pair(rest),
        None => read_compact_text(text),
    }
}

/// A position as a pair of whole numbers.
fn read_compact_pair<'a>(text: &'a [u8]) -> Option<(Content<'a>, &'a [u8])>
    ensures { IfSome result (λ found. IsContentBefore (before_lat ++ text.now) found.0 found.1.now) }
{
    let (lat, rest) = read_number(text)?;
    let rest = after(rest, BEFORE_LON)?;
    let (lon, rest) = read_number(rest)?;
    let rest = after(rest, AFTER_LON)?;
    Some((Content::Pair(lat, lon), rest))
}

/// A position as a text, or a token.
fn read_compact_text<'a>(text: &'a [u8]) -> Option<(Content<'a>, &'a [u8])>
    ensures { IfSome result (λ found. IsContentBefore text.now found.0 found.1.now) }
{
    match after(text, BEFORE_DECIMAL) {
        Some(rest) => read_compact_decimal(rest),
        None => read_compact_token(after(text, BEFORE_TOKEN)?),
    }
}

fn read_compact_decimal<'a>(text: &'a [u8]) -> Option<(Content<'a>, &'a [u8])>
    ensures { IfSome result (λ found. IsContentBefore (before_decimal ++ text.now) found.0 found.1.now) }
{
    let (decimal, rest) = split_plain(text);
    let rest = after(rest, AFTER_DECIMAL)?;
    Some((Content::Decimal(utf8_of(decimal)?), rest))
}

fn read_compact_token<'a>(text: &'a [u8]) -> Option<(Content<'a>, &'a [u8])>
    ensures { IfSome result (λ found. IsContentBefore (before_token ++ text.now) found.0 found.1.now) }
{
    let (token, rest) = split_plain(text);
    let rest = after(rest, AFTER_TOKEN)?;
    Some((Content::Token(utf8_of(token)?), rest))
}
