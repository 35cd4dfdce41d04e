//! Codes 9 and 11: the items of a boundary, and token sets.
use crate::counts::at_most;
use crate::object::Object;
use crate::patterns::pattern;
use crate::polygons::polygon;
use crate::quoting::quoted;
use crate::stop::{Stop, found};
use crate::texts::id;
use lost_location::{MAX_PATTERNS, MAX_POLYGONS, MAX_TOKEN_SETS, PlaceKind, kind_of};
use lost_profile::TokenSet;
use serde_json::Value;
use std::alloc::Global;

/// Why an item of the boundary of a mapping is no region.
pub(crate) fn regions(mapping: &Object<'_>) -> Result<(), Stop> {
    for (place, item) in items_of(mapping)?.iter().enumerate() {
        let name = format!(in mapping.alloc; "serviceBoundary[{place}]")?;
        region(mapping.alloc, name.as_str(), item)?;
    }
    Ok(())
}

/// The items of the boundary of a mapping.
fn items_of<'v>(mapping: &Object<'v>) -> Result<&'v [Value], Stop> {
    mapping.optional_list("serviceBoundary", "a list of regions")
}

/// Why a value is no region.
fn region(alloc: Global, name: &str, value: &Value) -> Result<(), Stop> {
    let object = Object::of(alloc, name, value)?;
    let profile = object.required_text("profile")?;
    match kind_of(profile) {
        Some(PlaceKind::Geodetic2d) => polygon(&object),
        Some(PlaceKind::Civic) => pattern(&object),
        Some(PlaceKind::XToken) => tokens(&object),
        None => {
            let shown = quoted(alloc, profile)?;
            Err(found(format!(in alloc;
                "{name}.profile: {shown} is none of geodetic-2d, civic and x-token"
            )))
        }
    }
}

/// Why the token set of a region is refused.
fn tokens(region: &Object<'_>) -> Result<(), Stop> {
    let items = region.required_list("tokens", "a list of texts")?;
    counted(region, items.len())?;
    region.are_texts("tokens", items)?;
    for (place, item) in items.iter().enumerate() {
        token(region, place, item)?;
    }
    repeated(region, items)
}

/// Why a list of so many tokens is no set.
fn counted(region: &Object<'_>, count: usize) -> Result<(), Stop> {
    let alloc = region.alloc;
    let owner = region.name;
    if count == 0 {
        return Err(found(format!(in alloc; "{owner}.tokens: the list is empty")));
    }
    let name = format!(in alloc; "{owner}.tokens")?;
    at_most(alloc, name.as_str(), "tokens", count, TokenSet::MAX_TOKENS)
}

/// Why the text at a place is no token. The texts that may be tokens are those that may be a sourceId.
fn token(region: &Object<'_>, place: usize, item: &Value) -> Result<(), Stop> {
    let owner = region.name;
    let name = format!(in region.alloc; "{owner}.tokens[{place}]")?;
    id(region.alloc, name.as_str(), text_of(item))
}

/// The first token that repeats an earlier one, byte for byte.
fn repeated(region: &Object<'_>, items: &[Value]) -> Result<(), Stop> {
    let owner = region.name;
    for (place, item) in items.iter().enumerate() {
        let text = text_of(item);
        if items.iter().take(place).any(|other| text_of(other) == text) {
            let shown = quoted(region.alloc, text)?;
            return Err(found(format!(in region.alloc;
                "{owner}.tokens[{place}]: a second {shown}"
            )));
        }
    }
    Ok(())
}

fn text_of(item: &Value) -> &str {
    item.as_str().unwrap_or("")
}

/// Of which kind a mapping has too many regions.
pub(crate) fn too_many_regions(mapping: &Object<'_>) -> Result<(), Stop> {
    let items = items_of(mapping)?;
    let limits = [
        (PlaceKind::Geodetic2d, "polygons", MAX_POLYGONS),
        (PlaceKind::Civic, "patterns", MAX_PATTERNS),
        (PlaceKind::XToken, "token sets", MAX_TOKEN_SETS),
    ];
    for (kind, what, most) in limits {
        let count = items
            .iter()
            .filter(|item| kind_of_region(item) == Some(kind))
            .count();
        at_most(mapping.alloc, "serviceBoundary", what, count, most)?;
    }
    Ok(())
}

/// The kind of place that the profile of a region names.
fn kind_of_region(region: &Value) -> Option<PlaceKind> {
    kind_of(region.as_object()?.get("profile")?.as_str()?)
}
