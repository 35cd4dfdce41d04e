//! Code 9: polygons.
use crate::hints::{number_hint, pair_hint};
use crate::object::Object;
use crate::quoting::quoted;
use crate::stop::{Stop, found};
use lost_geo::{GeoPoint, MAX_POSITIONS, MIN_POSITIONS};
use lost_reading::position;
use serde_json::Value;
use std::alloc::Global;

/// What a text must be.
const DEGREES: &str = "a text of degrees such as 48.1371 11.5754";

/// Why the polygon of a region is refused.
pub(crate) fn polygon(region: &Object<'_>) -> Result<(), Stop> {
    let alloc = region.alloc;
    let owner = region.name;
    let items = region.required_list("polygon", "a list of positions")?;
    for (place, item) in items.iter().enumerate() {
        if !is_point(item) {
            let name = format!(in alloc; "{owner}.polygon[{place}]")?;
            refused(alloc, name.as_str(), item)?;
        }
    }
    ring(alloc, owner, items)
}

/// Why positions, each of which is a point, are no ring.
fn ring(alloc: Global, owner: &str, items: &[Value]) -> Result<(), Stop> {
    let count = items.len();
    if count < MIN_POSITIONS {
        return Err(found(format!(in alloc;
            "{owner}.polygon: it has {count} positions, and at least {MIN_POSITIONS} are wanted"
        )));
    }
    if !is_closed(items) {
        return Err(found(format!(in alloc; "{owner}.polygon: the last position is not the first")));
    }
    if count > MAX_POSITIONS {
        return Err(found(format!(in alloc;
            "{owner}.polygon: it has {count} positions, and at most {MAX_POSITIONS} are allowed"
        )));
    }
    Ok(())
}

fn is_closed(items: &[Value]) -> bool {
    match (items.first(), items.last()) {
        (Some(first), Some(last)) => position(first) == position(last),
        _ => false,
    }
}

/// Whether a value is a position in range.
fn is_point(value: &Value) -> bool {
    match position(value) {
        Some((lat, lon)) => GeoPoint::new(lat, lon).is_ok(),
        None => false,
    }
}

/// Why a value is no position in range.
fn refused(alloc: Global, name: &str, value: &Value) -> Result<(), Stop> {
    if let Some(text) = value.as_str() {
        return spelled(alloc, name, text);
    }
    let Some(items) = value.as_array() else {
        return Err(found(format!(in alloc;
            "{name}: a list of two whole numbers is wanted, latitude and longitude, or {DEGREES}"
        )));
    };
    match items.as_slice() {
        [lat, lon] => coordinates(alloc, name, lat, lon),
        _ => {
            let count = items.len();
            Err(found(format!(in alloc;
                "{name}: it has {count} items, and two whole numbers are wanted, latitude and longitude"
            )))
        }
    }
}

/// Why a text spells no position in range.
fn spelled(alloc: Global, name: &str, text: &str) -> Result<(), Stop> {
    match GeoPoint::decimal(text.as_bytes()) {
        Some((lat, lon)) => in_range(alloc, name, lat, lon),
        None => {
            let shown = quoted(alloc, text)?;
            Err(found(format!(in alloc; "{name}: {shown} is not {DEGREES}")))
        }
    }
}

/// Why two values are no latitude and longitude.
fn coordinates(alloc: Global, name: &str, lat: &Value, lon: &Value) -> Result<(), Stop> {
    let lat = whole_number(alloc, name, "latitude", lat)?;
    let lon = whole_number(alloc, name, "longitude", lon)?;
    in_range(alloc, name, lat, lon)
}

/// Why two whole numbers make no point.
fn in_range(alloc: Global, name: &str, lat: i64, lon: i64) -> Result<(), Stop> {
    match GeoPoint::new(lat, lon) {
        Ok(_) => Ok(()),
        Err(fault) => {
            let hint = pair_hint(lat, lon);
            Err(found(format!(in alloc; "{name}: {fault}{hint}")))
        }
    }
}

/// The whole number of a coordinate.
fn whole_number(alloc: Global, name: &str, what: &str, value: &Value) -> Result<i64, Stop> {
    match value.as_i64() {
        Some(number) => Ok(number),
        None => {
            let hint = number_hint(value);
            Err(found(format!(in alloc; "{name}: the {what} must be a whole number{hint}")))
        }
    }
}
