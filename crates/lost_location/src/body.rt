//! What a location of a request holds, and the place that it is.
ghost use Rattle.std.specs.Prelude.{◌≡◌, None, Some, Ok, IfOk, IfSome, option_map};
ghost use Rattle.std.specs.Cow.{cow_str_bytes};
ghost use Rattle.lost_spec.specs.Civic.{address_fault};
ghost use Rattle.lost_spec.specs.Place.{AtAddress, point_place, address_place, token_place, place_of, place_in};
ghost use Rattle.lost_civic.specs.Pairs.{seen_pairs};
ghost use Rattle.lost_location.specs.Body.{body_of};
ghost use Rattle.lost_location.specs.Place.{place_of as seen_place};

use crate::place::Place;
use lost_civic::{CivicAddress, CivicError};
use lost_geo::GeoPoint;
use lost_profile::Token;
use lost_spec::places::PlaceKind;
use std::alloc::{AllocError, Global};
use std::borrow::CowStr;

/// What a location holds (RFC 5222, section 12).
#[derive(Drop)]
pub enum Body<'a> {
    /// A latitude and a longitude, in whole 1e-7 degrees, in range or not.
    Point(i64, i64),
    /// The names and values of a civic address.
    Address(Vec<(String, String)>),
    /// The text of a token.
    Token(CowStr<'a>),
    /// Content of another shape.
    Unreadable,
}

/// The place of a body, if its kind is known, it is of that kind, and it is not refused (RFC 5222, section 12).
pub fn place_in(
    alloc: Global,
    kind: Option<PlaceKind>,
    body: &Body<'_>,
) -> Result<Option<Place>, AllocError>
    ensures { IfOk result (λ place. option_map seen_place place ≡ place_in kind (body_of body.now)) }
{
    match kind {
        Some(kind) => place_of(alloc, kind, body),
        None => Ok(None),
    }
}

/// The place of a body of this kind. None for a body of another kind.
fn place_of(alloc: Global, kind: PlaceKind, body: &Body<'_>) -> Result<Option<Place>, AllocError>
    ensures { IfOk result (λ place. option_map seen_place place ≡ place_of kind (body_of body.now)) }
{
    match (kind, body) {
        (PlaceKind::Geodetic2d, Body::Point(lat, lon)) => Ok(point_place(*lat, *lon)),
        (PlaceKind::Civic, Body::Address(pairs)) => address_place(alloc, pairs),
        (PlaceKind::XToken, Body::Token(token)) => token_place(alloc, token.as_str()),
        _ => Ok(None),
    }
}

/// The point of a latitude and a longitude, or none if one is out of range (RFC 5222, section 12.2).
fn point_place(lat: i64, lon: i64) -> Option<Place>
    ensures { option_map seen_place result ≡ point_place lat lon }
{
    match GeoPoint::new(lat, lon) {
        Ok(point) => Some(Place::Point(point)),
        Err(_) => None,
    }
}

/// The address of these pairs, or none if they are refused (RFC 5222, section 12.3). A refusal comes even if memory is
/// short: the pairs are checked before they are copied.
fn address_place(alloc: Global, pairs: &Vec<(String, String)>) -> Result<Option<Place>, AllocError>
    ensures place { IfOk result (λ place. option_map seen_place place ≡ address_place (seen_pairs pairs.now.items)) }
    ensures checked_first { IfSome (address_fault (seen_pairs pairs.now.items)) (λ _. result ≡ Ok None) }
{
    if CivicAddress::check(pairs.as_slice()).is_err() {
        return Ok(None);
    }
    match CivicAddress::from_pairs(alloc, copied_pairs(pairs)?) {
        Ok(address) => boxed_address(alloc, address),
        Err(fault) => {
            if fault == CivicError::Memory {
                Err(AllocError)
            } else {
                Ok(None)
            }
        }
    }
}

/// The place of an address.
fn boxed_address(alloc: Global, address: CivicAddress) -> Result<Option<Place>, AllocError>
    ensures { IfOk result (λ place. option_map seen_place place ≡ Some (AtAddress address)) }
{
    Ok(Some(Place::Address(Box::new(alloc, address)?)))
}

/// A copy of names and values.
fn copied_pairs(pairs: &Vec<(String, String)>) -> Result<Vec<(String, String)>, AllocError>
    ensures { IfOk result (λ copy. seen_pairs copy.items ≡ seen_pairs pairs.now.items) }
{
    Ok(pairs.clone()?)
}

/// The place of a token's text, or none if it is no token.
fn token_place(alloc: Global, text: &str) -> Result<Option<Place>, AllocError>
    ensures { IfOk result (λ place. option_map seen_place place ≡ token_place text.now) }
{
    match Token::parse(text.as_bytes()) {
        Ok(token) => Ok(Some(Place::Token(Box::new(alloc, token)?))),
        Err(_) => Ok(None),
    }
}
