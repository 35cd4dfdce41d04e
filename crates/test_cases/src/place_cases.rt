//! Calls of lost_location: kinds of places, the places of locations, and regions.
use crate::case_error::CaseError;
use crate::civic_cases::address;
use crate::descriptions::{mapping, parts};
use crate::fields::Fields;
use crate::gathered::Gathered;
use crate::geo_cases::point;
use crate::token_cases::token;
use crate::words::{compared, number_pair, owned, text_pairs, yes_or_no};
use lost_location::{Body, Counts, Place, PlaceKind, has_system, kind_of, place_in, profile_of};
use std::alloc::Global;
use std::borrow::CowStr;

/// What stands before the text of a token.
const TOKEN: &str = "token ";

/// The result of a call.
pub(crate) fn said(alloc: Global, call: &str, fields: &Fields) -> Result<String, CaseError> {
    let text = fields.text(1)?;
    match call {
        "place kind" => owned(alloc, named(kind_of(text))),
        "place system" => owned(alloc, yes_or_no(has_system(kind_of(text)))),
        "place in" => found(alloc, kind_of(text), fields),
        "place same" => same_places(alloc, text, fields),
        "place region" => region_kinds(alloc, text),
        "place contains" => contains(alloc, text, fields),
        "place same regions" => same_regions(alloc, text, fields),
        "place over" => are_over(alloc, fields),
        _ => Err(CaseError::NoCase),
    }
}

fn same_places(alloc: Global, text: &str, fields: &Fields) -> Result<String, CaseError> {
    let one = place(alloc, text)?;
    owned(alloc, compared(&one, &place(alloc, fields.text(2)?)?))
}

/// Whether the regions of a description contain a place.
fn contains(alloc: Global, description: &str, fields: &Fields) -> Result<String, CaseError> {
    let place = place(alloc, fields.text(2)?)?;
    let mapping = mapping(alloc, description)?;
    owned(alloc, yes_or_no(mapping.regions().contains(&place)))
}

fn same_regions(alloc: Global, description: &str, fields: &Fields) -> Result<String, CaseError> {
    let one = mapping(alloc, description)?;
    let other = mapping(alloc, fields.text(2)?)?;
    owned(alloc, yes_or_no(one.regions().is_same(other.regions())))
}

/// The place of a text: a token behind its word, an address where there is a `=`, or else a point.
pub(crate) fn place(alloc: Global, text: &str) -> Result<Place, CaseError> {
    if let Some(text) = text.strip_prefix(TOKEN) {
        token_place(alloc, text)
    } else if text.contains('=') {
        address_place(alloc, text)
    } else {
        Ok(Place::Point(point(text)?))
    }
}

fn token_place(alloc: Global, text: &str) -> Result<Place, CaseError> {
    let token = token(alloc, text.as_bytes())?;
    Ok(Place::Token(Box::new(alloc, token)?))
}

fn address_place(alloc: Global, text: &str) -> Result<Place, CaseError> {
    let address = address(alloc, text)?;
    Ok(Place::Address(Box::new(alloc, address)?))
}

/// What a location holds, as a place is written, in range or not; or `unreadable`.
fn body(alloc: Global, text: &str) -> Result<Body<'_>, CaseError> {
    if let Some(text) = text.strip_prefix(TOKEN) {
        Ok(Body::Token(CowStr::Borrowed(text)))
    } else if text.contains('=') {
        Ok(Body::Address(text_pairs(alloc, text, ';')?))
    } else if text == "unreadable" {
        Ok(Body::Unreadable)
    } else {
        let (lat, lon) = number_pair(text)?;
        Ok(Body::Point(lat, lon))
    }
}

/// The profile of a kind, or `none`.
fn named(kind: Option<PlaceKind>) -> &'static str {
    match kind {
        Some(kind) => profile_of(kind),
        None => "none",
    }
}

/// The profile and the content of the place that a location of this kind has, or `none`.
fn found(alloc: Global, kind: Option<PlaceKind>, fields: &Fields) -> Result<String, CaseError> {
    let body = body(alloc, fields.text(2)?)?;
    match place_in(alloc, kind, &body)? {
        Some(place) => shown(alloc, &place),
        None => owned(alloc, "none"),
    }
}

fn shown(alloc: Global, place: &Place) -> Result<String, CaseError> {
    let mut text = Gathered::new(alloc);
    text.add_all(&[named(Some(place.kind())), " "]);
    match place {
        Place::Point(point) => text.add_two(point.lat(), point.lon()),
        Place::Address(address) => text.add_pairs(address.pairs()),
        Place::Token(token) => text.add(token.text()),
    }
    if place.address().is_some() {
        text.add(" an address");
    }
    text.done()
}

/// The profile of each region of a description, or `none` for one that is refused; each behind a space.
fn region_kinds(alloc: Global, description: &str) -> Result<String, CaseError> {
    let parts = parts(alloc, description)?;
    let mut text = Gathered::new(alloc);
    for region in &parts.regions {
        text.add_all(&[" ", named(region.kind())]);
    }
    text.done()
}

fn are_over(alloc: Global, fields: &Fields) -> Result<String, CaseError> {
    owned(alloc, yes_or_no(counts(fields)?.are_over()))
}

/// The counts of the first three fields.
fn counts(fields: &Fields) -> Result<Counts, CaseError> {
    Ok(Counts {
        polygons: number(fields, 1)?,
        patterns: number(fields, 2)?,
        token_sets: number(fields, 3)?,
    })
}

fn number(fields: &Fields, position: usize) -> Result<usize, CaseError> {
    match usize::try_from(fields.count(position)?) {
        Ok(number) => Ok(number),
        Err(_) => Err(CaseError::NoCase),
    }
}
